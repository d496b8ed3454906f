//! Steps from a path to one more atom.
ghost use Rattle.std.specs.Prelude.{◌≡◌, Some, IsTrue};

use crate::known::Known;

/// The growth of a path's texts: the byte of a bond, and the known facts of the atom that it leads to.
#[derive(Clone, Copy, PartialEq, Eq)]
pub struct Step {
    pub byte: u8,
    pub known: Known,
}

/// True if it is the step that was marked last.
#[inline(always)]
pub fn is_again(marked: Option<Step>, step: Step) -> bool
    ensures { IsTrue result → marked ≡ Some step }
{
    match marked {
        Some(last) => last == step,
        None => false,
    }
}
