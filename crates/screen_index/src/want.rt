//! A print whose bits are wanted of others.
ghost use Rattle.std.specs.Prelude.{◌≡◌, ◌↔◌, IsTrue};
ghost use Rattle.screen_index.specs.Pairs.{Holds};

use chem_core::Print;
use std::marker::Model;

/// A print whose bits are wanted, and whether it has no bit, which is found once for a page. If it has no bit, no print
/// is read. Contracts see its bits.
#[derive(Drop)]
pub struct Want<'a> {
    print: &'a Print,
    is_any: bool,
}

impl<'a> Model for Want<'a> {
    ghost use Rattle.std.specs.Prelude.{◌↔◌, Bool, IsTrue, List, ℕ};
    ghost use Rattle.chem_core.specs.Bits.{HasBit};

    ghost Value = { List Bool };

    ghost view = { λ w. w.print.now };

    ghost invariant = { λ w. IsTrue w.is_any ↔ ((bit : ℕ) → ¬ HasBit w.print.now bit) };
}

impl<'a> Want<'a> {
    /// Wants the bits of a print.
    pub fn of(print: &'a Print) -> Want<'a>
        ensures { result ≡ print.now }
    {
        Want {
            print,
            is_any: print.is_empty(),
        }
    }

    // The print whose bits are wanted.
    pub(crate) fn print(&self) -> &Print
        ensures { result.now ≡ self.now }
    {
        self.print
    }

    // True if a print has each wanted bit. If no bit is wanted, it is not read.
    #[inline(always)]
    pub(crate) fn is_met_by(&self, print: &Print) -> bool
        ensures { IsTrue result ↔ Holds print.now self.now }
    {
        self.is_any || print.holds(self.print)
    }
}
