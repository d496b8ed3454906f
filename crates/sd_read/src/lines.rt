//! The lines of a text, one after another, each with the place after it.
ghost use Rattle.std.specs.Prelude.{◌≡◌, ◌∷◌, [], MatchOption};
ghost use Rattle.sd_read.specs.Lines.{line_of, lines_from};

use chem_text::line_at;
use std::marker::Model;

/// The lines that are left of a text. Contracts see them as a list.
#[derive(Debug, Drop)]
pub(crate) struct Lines<'a> {
    text: &'a [u8],
    place: usize,
}

impl<'a> Model for Lines<'a> {
    ghost use Rattle.std.specs.Prelude.{◌≤◌, List, length, drop};
    ghost use Rattle.sd_read.specs.Lines.{Line, lines_from};

    ghost Value = { List Line };

    ghost view = { λ l. lines_from l.place (drop l.place l.text.now) };

    ghost invariant = { λ l. l.place ≤ length l.text.now };
}

impl<'a> Lines<'a> {
    /// All lines of a text.
    pub(crate) fn new(text: &'a [u8]) -> Lines<'a>
        ensures { result ≡ lines_from 0 text.now }
    {
        Lines { text, place: 0 }
    }

    /// The next line without its LF, and the place after that; `None` at the end.
    pub(crate) fn next(&mut self) -> Option<(&'a [u8], usize)>
        ensures { MatchOption result ((self.old ≡ []) × (self.new ≡ []))
            (λ r. self.old ≡ line_of r.0.now r.1 ∷ self.new) }
    {
        let (end, next) = line_at(self.text, self.place)?;
        let line = &self.text[self.place..end];
        self.place = next;
        Some((line, next))
    }
}
