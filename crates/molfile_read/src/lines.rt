//! The lines of a text, one after another.

ghost use Rattle.std.specs.Prelude.{◌≡◌, ◌<◌, ◌∷◌, [], length, IfSome, IfNone, MatchOption};
ghost use Rattle.molfile_read.specs.Text.{lines_of};

use chem_text::line_at;
use std::marker::Model;

/// The lines that are left of a text. Contracts see them as a list of lines, each with its number.
#[derive(Debug, Drop)]
pub(crate) struct Lines<'a> {
    rest: &'a [u8],
    number: u32,
}

impl<'a> Model for Lines<'a> {
    ghost use Rattle.std.specs.Prelude.{◌+◌, ◌<◌, List, length, ◌^◌};
    ghost use Rattle.std.specs.List.{enumerate_from};
    ghost use Rattle.molfile_read.specs.Text.{Line, lines_of};

    ghost Value = { List Line };

    ghost view = { λ l. enumerate_from l.number (lines_of l.rest.now) };

    ghost invariant = { λ l. l.number + length l.rest.now < 2 ^ 32 };
}

impl<'a> Lines<'a> {
    ghost use Rattle.std.specs.Prelude.{◌≡◌, ◌≤◌, ◌∷◌, [], length, drop, MatchOption};
    ghost use Rattle.molfile_read.specs.Text.{numbered_lines};

    /// All lines of a text.
    pub(crate) fn new(text: &'a [u8]) -> Lines<'a>
        requires { length text.now ≤ 262144 }
        ensures { result ≡ numbered_lines text.now }
    {
        Lines {
            rest: text,
            number: 1,
        }
    }

    /// The next line and its number; `None` at the end.
    pub(crate) fn next(&mut self) -> Option<(u32, &'a [u8])>
        ensures { MatchOption result ((self.old ≡ []) × (self.new ≡ []))
            (λ r. self.old ≡ (r.0, r.1.now) ∷ self.new) }
    {
        let (line, rest) = next_line(self.rest)?;
        let number = self.number;
        self.rest = rest;
        self.number += 1;
        Some((number, line))
    }

    /// Passes over the next line, if there is one.
    pub(crate) fn skip(&mut self)
        ensures { self.new ≡ drop 1 self.old }
    {
        let _ = self.next();
    }
}

// The first line, and the text after it.
fn next_line(text: &[u8]) -> Option<(&[u8], &[u8])>
    ensures lines { MatchOption result (lines_of text.now ≡ [])
        (λ r. lines_of text.now ≡ r.0.now ∷ lines_of r.1.now) }
    ensures shorter { IfSome result (λ r. length r.1.now < length text.now) }
    ensures nothing { IfNone result (text.now ≡ []) }
{
    let (end, next) = line_at(text, 0)?;
    Some((&text[..end], &text[next..]))
}
