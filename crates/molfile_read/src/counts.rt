//! The counts line.
ghost use Rattle.std.specs.Prelude.{◌≡◌, ◌≤◌, ◌==◌, filter, not, drop, IfOk, OnOk};
ghost use Rattle.std.specs.Str.{bytes_eq};
ghost use Rattle.chem_core.specs.declared.limits.TheConstants.{MOST_ATOMS, MOST_BONDS};
ghost use Rattle.molfile_read.specs.Counts.{is_version_read, counts_read, first_counts};

use crate::fault::MolfileFault;
use crate::field::{columns, number};
use crate::lines::Lines;

// The lines before the counts line, which may hold anything.
const HEADER_LINES: usize = 3;

/// The numbers of atom lines and of bond lines.
#[derive(Clone, Copy, Debug, PartialEq, Eq)]
pub(crate) struct Counts {
    pub atoms: u16,
    pub bonds: u16,
}

/// The counts of the counts line.
#[tactic(auto, unfolding(crate::specs::Counts::counts_read))]
pub(crate) fn counts_line(line: &[u8]) -> Result<Counts, MolfileFault>
    ensures value { result ≡ counts_read line.now }
    ensures range { IfOk result (λ c. (c.atoms ≤ MOST_ATOMS) × (c.bonds ≤ MOST_BONDS)) }
{
    let atoms = number(line, 1, 3, 999).ok_or(MolfileFault::Header)?;
    let bonds = number(line, 4, 6, 999).ok_or(MolfileFault::Header)?;
    let text_blocks = number(line, 16, 18, 999);
    if atoms == 0 || text_blocks != Some(0) || !is_version_read(line) {
        return Err(MolfileFault::Header);
    }
    let atom_lists = number(line, 7, 9, 999);
    if atom_lists != Some(0) {
        return Err(MolfileFault::Query(4));
    }
    Ok(Counts { atoms, bonds })
}

/// The counts of the counts line, which is the fourth.
pub(crate) fn read_counts(lines: &mut Lines) -> Result<Counts, MolfileFault>
    ensures value { result ≡ first_counts (drop 3 lines.old) }
    ensures rest { OnOk result (lines.new ≡ drop 4 lines.old) }
    ensures range { IfOk result (λ c. (c.atoms ≤ MOST_ATOMS) × (c.bonds ≤ MOST_BONDS)) }
{
    for _ in 0..HEADER_LINES {
        lines.skip();
    }
    match lines.next() {
        Some((_, line)) => counts_line(line),
        None => Err(MolfileFault::Cut),
    }
}

// True if the version, blanks taken out, is `V2000` or nothing.
fn is_version_read(line: &[u8]) -> bool
    ensures { result ≡ is_version_read line.now }
{
    let version = columns(line, 34, 39);
    is_spelled(version, b"V2000") || is_spelled(version, b"")
}

// True if these are the bytes that are not blanks.
fn is_spelled(field: &[u8], text: &[u8]) -> bool
    ensures { result ≡ bytes_eq (filter (λ byte. not (byte == 32)) field.now) text.now }
{
    let mut left = text;
    for byte in field {
        if *byte != b' ' {
            let Some((first, after)) = left.split_first() else {
                return false;
            };
            if *first != *byte {
                return false;
            }
            left = after;
        }
    }
    left.is_empty()
}
