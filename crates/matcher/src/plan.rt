//! Steps: for each atom of a graph the range of its bonds to earlier atoms, so that they are found at once. A step also
//! has the classes of the atom, and whether its expression is that of the atom before it.
ghost use Rattle.std.specs.Prelude.{◌≡◌, ◌≢◌, ◌+◌, ◌-◌, ◌<◌, ◌≤◌, drop, length, take, IsTrue};
ghost use Rattle.smarts_parse.specs.Pattern.{graph_of, term_of};
ghost use Rattle.matcher.specs.Partial.{IsSearchable};
ghost use Rattle.matcher.specs.Plan.{IsReady, IsRepeat};

use crate::class::classes_of;
use smarts_parse::{AtomPrim, Expr, Graph, PatBond};

/// The range of an atom's bonds to earlier atoms among the bonds of a graph: no such bond is before `from`, or at `to`
/// or after it. Bonds of other atoms may be between them. It is empty if the atom has no such bond.
#[derive(Clone, Copy, Debug)]
pub struct EarlierBonds {
    pub from: usize,
    pub to: usize,
    /// The classes of the atoms to which the atom may be mapped.
    pub classes: u64,
    /// True only if the atom's expression is that of the atom before it.
    pub again: bool,
}

/// The step of an atom that has no bond to an earlier one.
pub const NONE_EARLIER: EarlierBonds = EarlierBonds {
    from: 0,
    to: 0,
    classes: 0,
    again: false,
};

impl EarlierBonds {
    /// The step with one more bond of its atom, at a place after those before.
    fn with(self, place: usize) -> EarlierBonds
        requires { place < usize.MAX }
        ensures fresh { self.to ≡ 0 → result.from ≡ place }
        ensures again { self.to ≢ 0 → result.from ≡ self.from }
        ensures to { result.to ≡ place + 1 }
        ensures classes { result.classes ≡ self.classes }
        ensures repeat { result.again ≡ self.again }
    {
        EarlierBonds {
            from: if self.to == 0 { place } else { self.from },
            to: place + 1,
            classes: self.classes,
            again: self.again,
        }
    }

    /// The bonds of a graph in the step, without the first.
    pub fn others<'a>(self, bonds: &'a [PatBond]) -> &'a [PatBond]
        requires { self.to ≤ length bonds.now }
        ensures { result.now ≡ take (self.to - (self.from + 1)) (drop (self.from + 1) bonds.now) }
    {
        if self.from < self.to {
            &bonds[self.from + 1..self.to]
        } else {
            &bonds[..0]
        }
    }
}

/// Finds the step of each atom in one pass over the bonds.
pub fn plan(graph: &Graph, steps: &mut [EarlierBonds])
    requires searchable { IsSearchable (graph_of graph.now) }
    requires room { length graph.now.atoms.items ≤ length steps.old }
    ensures { IsReady (graph_of graph.now) steps.new }
{
    for atom in 0..graph.atoms.len() {
        steps[atom] = EarlierBonds {
            classes: classes_of(&graph.atoms[atom]),
            again: is_repeat(graph, atom),
            ..NONE_EARLIER
        };
    }
    for (place, bond) in graph.bonds.iter().enumerate() {
        let high = usize::from(bond.a.max(bond.b));
        steps[high] = steps[high].with(place);
    }
}

// True if the expressions of an atom and of the atom before it are the same primitive.
fn is_repeat(graph: &Graph, atom: usize) -> bool
    requires { atom < length graph.now.atoms.items }
    ensures { IsTrue result → IsRepeat (graph_of graph.now).atoms atom }
{
    if atom == 0 {
        return false;
    }
    is_same(&graph.atoms[atom - 1], &graph.atoms[atom])
}

// True if both expressions are the same primitive.
fn is_same(one: &Expr<AtomPrim>, two: &Expr<AtomPrim>) -> bool
    ensures { IsTrue result → term_of one.now ≡ term_of two.now }
{
    let Expr::Prim(left) = one else {
        return false;
    };
    let Expr::Prim(right) = two else {
        return false;
    };
    *left == *right
}

/// True if an atom other than the first has no bond to an earlier one.
pub fn is_loose(steps: &[EarlierBonds]) -> bool {
    for step in steps.iter().skip(1) {
        if step.from >= step.to {
            return true;
        }
    }
    false
}
