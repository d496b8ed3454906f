//! The data that depend on a pattern alone, worked out once for searches in any number of molecules. They are the steps
//! of its graphs, the atoms at which recursive parts are asked, a search order, and the bonds that close rings or lie
//! on them.
ghost use Rattle.std.specs.Prelude.{IfSome};
ghost use Rattle.smarts_parse.specs.Pattern.{pattern_of};
ghost use Rattle.matcher.specs.Prepared.{IsOnlyPart};

use crate::first_line::asked;
use crate::lay::Order;
use crate::planned::Plans;
use crate::ring::Closing;
use crate::route::Route;
use crate::wanted::Wanted;
use chem_core::{SORT_ROOM, SortCounts};
use smarts_parse::{AtomPrim, Expr, Pattern};
use std::alloc::{AllocError, Global};

/// The data that depend on a pattern alone.
#[derive(Debug, Drop)]
pub struct Prepared {
    /// Counts of sorts that each molecule reaches in which the pattern embeds.
    pub asked: SortCounts,
    pub plans: Plans,
    pub wanted: Wanted,
    pub order: Order,
    pub closing: Closing,
    pub route: Route,
    /// The number of the last recursive part, if the pattern asks for this part at one atom and for nothing else.
    pub part: Option<usize>,
}

impl Prepared {
    ghost use Rattle.smarts_parse.specs.Sound.{IsSoundPattern};
    ghost use Rattle.matcher.specs.Prepared.{IsPrepared};

    /// Takes the memory.
    pub fn reserve(alloc: Global) -> Result<Prepared, AllocError> {
        Ok(Prepared {
            asked: SortCounts {
                atoms: [0; SORT_ROOM],
                bonds: [0; SORT_ROOM],
            },
            plans: Plans::reserve(alloc)?,
            wanted: Wanted::reserve(alloc)?,
            order: Order::reserve(alloc)?,
            closing: Closing::reserve(alloc)?,
            route: Route::reserve(alloc)?,
            part: None,
        })
    }

    /// Works out the data of a pattern.
    pub fn prepare(&mut self, pattern: &Pattern)
        requires { IsSoundPattern (pattern_of pattern.now) }
        ensures { IsPrepared (pattern_of pattern.now) self.new }
    {
        self.plans.plan(pattern);
        let counts = asked(pattern, &self.plans);
        self.asked = counts;
        self.wanted.find(pattern);
        let part = only_part(pattern);
        self.part = part;
        match part {
            Some(part) => {
                let steps = self.plans.part(pattern, part);
                self.order.lay(&pattern.recs[part], steps);
                self.closing.find(&pattern.recs[part], steps);
                self.route
                    .lay(&pattern.recs[part], steps, self.closing.marks());
            }
            None => {
                let steps = self.plans.top(pattern);
                self.order.lay(&pattern.top, steps);
                self.closing.find(&pattern.top, steps);
                self.route.lay(&pattern.top, steps, self.closing.marks());
            }
        }
    }
}

// The number of the last recursive part, if the pattern asks for this part at one atom and for nothing else.
fn only_part(pattern: &Pattern) -> Option<usize>
    ensures { IfSome result (IsOnlyPart (pattern_of pattern.now)) }
{
    if pattern.top.atoms.len() != 1 {
        return None;
    }
    let Expr::Prim(prim) = &pattern.top.atoms[0] else {
        return None;
    };
    let AtomPrim::Rec(named) = *prim else {
        return None;
    };
    let part = usize::from(named);
    let count = pattern.recs.len();
    if count == 0 || part != count - 1 {
        return None;
    }
    Some(part)
}
