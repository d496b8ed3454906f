//! Data items.
ghost use Rattle.std.specs.Prelude.{◌≡◌, ◌≤◌, ◌<◌, ◌==◌, IfSome, MatchOption, None, Some, codes, false, length, position, true};
ghost use Rattle.std.specs.Str.{bytes_eq};
ghost use Rattle.sd_read.specs.Items.{behind_end, data_end, first_named, items_in, items_of, name_of};

use crate::lines::Lines;

/// The place of the data of the first item of a name in a record's text. It is the start of their first line, and the
/// place after their last. `None` exactly if no item has the name. Takes no memory.
pub fn item(text: &[u8], name: &[u8]) -> Option<(usize, usize)>
    ensures first { result ≡ first_named name.now (items_of text.now) }
    ensures within { IfSome result (λ r. (r.0 ≤ r.1) × (r.1 ≤ length text.now)) }
{
    first_item(text, name)
}

/// True if a line ends a record.
pub fn is_record_end(line: &[u8]) -> bool
    ensures { result ≡ bytes_eq line.now (codes "$$$$") }
{
    line == b"$$$$".as_slice()
}

// The first item of a name, line by line.
fn first_item(text: &[u8], name: &[u8]) -> Option<(usize, usize)>
    ensures { result ≡ first_named name.now (items_of text.now) }
{
    let mut lines = Lines::new(text);
    skip_molfile(&mut lines);
    while let Some((line, from)) = lines.next() {
        if let Some(found) = name_of(line) {
            let to = skip_data(&mut lines, from);
            if found == name {
                return Some((from, to));
            }
        }
    }
    None
}

// Passes over the lines up to and with the first that begins `M  END`.
fn skip_molfile(lines: &mut Lines)
    ensures { lines.new ≡ behind_end lines.old }
{
    while let Some((line, _)) = lines.next() {
        if line.starts_with(b"M  END") {
            return;
        }
    }
}

// Passes over data, which begin at the place, and the empty line after them. Returns the place of their end.
fn skip_data(lines: &mut Lines, from: usize) -> usize
    ensures end { result ≡ data_end from lines.old }
    ensures items { items_in false lines.new ≡ items_in true lines.old }
    ensures shorter { length lines.new ≤ length lines.old }
{
    let mut to = from;
    while let Some((line, next)) = lines.next() {
        if line.is_empty() {
            return to;
        }
        to = next;
    }
    to
}

// The name in a data header. `None` of any other line.
fn name_of(line: &[u8]) -> Option<&[u8]>
    ensures { MatchOption result (name_of line.now ≡ None) (λ r. name_of line.now ≡ Some r.now) }
{
    if !line.starts_with(b">") {
        return None;
    }
    let open = place_of(line, b'<')?;
    let behind = &line[open + 1..];
    let close = place_of(behind, b'>')?;
    Some(&behind[..close])
}

// The first place of a byte.
fn place_of(bytes: &[u8], wanted: u8) -> Option<usize>
    ensures place { result ≡ position (λ byte. byte == wanted) bytes.now }
    ensures within { IfSome result (λ place. place < length bytes.now) }
{
    bytes.iter().position(|byte| *byte == wanted)
}
