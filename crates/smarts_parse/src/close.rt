//! The atoms and bonds of a draft, once its ring numbers are paired.

ghost use Rattle.std.specs.Prelude.{List, reverse, IfOk, IfErr};
ghost use Rattle.smarts_parse.specs.Whole.{Tree, Whole};
ghost use Rattle.smarts_parse.specs.Draft.{IsDraftOf, AreClosed, IsOpenBy, AreRead, AreGraphs, AreOpenBy};

use crate::draft::Draft;
use crate::fault::SmartsFault;
use crate::items::Read;
use crate::smarts::Smarts;
use line_walk::{Graph, finish};
use smarts_words::{PatternAtom, PatternBond};
use std::alloc::Global;

/// Atoms and bonds as they are written.
pub type Written<'a> = Graph<'a, PatternAtom, PatternBond>;

/// A text as it is written, and its recursive parts in the order in which their parentheses close.
#[derive(Drop)]
pub struct Closed<'a> {
    pub top: Written<'a>,
    pub parts: Vec<Written<'a>>,
    /// For each atom of the text the number of its zero-level parentheses, from 1 on, or 0 outside of them.
    pub groups: Vec<u16>,
}

/// Pairs the ring numbers of a draft. `Ring` if those of one part do not pair.
pub fn close<'a>(alloc: Global, draft: Draft<'a>) -> Result<Closed<'a>, SmartsFault>
    ensures found { IfOk result (λ r. (whole : Whole) → IsDraftOf whole draft.entry
        → AreClosed whole r) }
    ensures fails { IfErr result (λ e. (whole : Whole) → IsDraftOf whole draft.entry
        → IsOpenBy whole e) }
{
    let Draft {
        top,
        parts,
        groups,
        sizes: _,
    } = draft;
    let top = finish::<Smarts>(top)?;
    let parts = close_parts(alloc, parts)?;
    Ok(Closed { top, parts, groups })
}

// Pairs the ring numbers of recursive parts, the last one first.
fn close_parts<'a>(alloc: Global, parts: Vec<Read<'a>>) -> Result<Vec<Written<'a>>, SmartsFault>
    ensures found { IfOk result (λ r. (trees : List Tree)
        → AreRead trees (reverse parts.entry.items) → AreGraphs trees r.items) }
    ensures fails { IfErr result (λ e. (trees : List Tree)
        → AreRead trees (reverse parts.entry.items) → AreOpenBy trees e) }
{
    let mut left = parts;
    let mut closed = Vec::new(alloc);
    'parts: while let Some(part) = left.pop() {
        closed.push(finish::<Smarts>(part)?)?;
    }
    Ok(closed)
}
