//! The limits of a text, beside those of every structure.

ghost use Rattle.std.specs.Prelude.{IsTrue, ◌↔◌};
ghost use Rattle.smiles_read.specs.Limits.{HasFewParts};

use chem_core::{MOST_ATOMS, MOST_BONDS, SketchAtom, SketchKind};
use line_walk::Graph;

/// The longest text that is looked at, in bytes.
pub const MOST_BYTES: usize = 65_536;

/// The most branches that may be open at once.
pub const MOST_BRANCHES: usize = 256;

/// True if the branches open at once, the atoms and the bonds are within the limits.
pub fn has_few_parts(graph: &Graph<'_, SketchAtom, SketchKind>) -> bool
    ensures { IsTrue result ↔ HasFewParts graph.now }
{
    graph.depth <= MOST_BRANCHES
        && graph.atoms.len() <= MOST_ATOMS
        && graph.links.len() <= MOST_BONDS
}
