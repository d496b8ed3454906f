//! The atoms at which each recursive part of a pattern is asked: those at which an expression that names it may be
//! true, by classes. At other atoms no such expression is true, whether the part holds there or not.
ghost use Rattle.std.specs.Prelude.{◌≡◌, ◌<◌, ◌≤◌, length, slice_index, vec_len, All};
ghost use Rattle.smarts_parse.specs.Pattern.{graph_of, pattern_of, term_of};
ghost use Rattle.smarts_parse.specs.Sound.{IsSoundPattern, NamesBelow, PrimNamesBelow};
ghost use Rattle.matcher.specs.Wanted.{AreWanted, AreWithin, IsAsked, IsWithin, NamesOnly, PrimNames};

use crate::class::classes_of;
use smarts_mean::MOST_PARTS;
use smarts_parse::{AtomPrim, Expr, Graph, Pattern};
use std::alloc::{AllocError, Global};

/// For each recursive part of a pattern the classes of the atoms at which it is asked.
#[derive(Debug, Drop)]
pub struct Wanted {
    classes: Vec<u64>,
    ghost room: { vec_len classes ≡ 64 },
}

impl Wanted {
    /// Takes the memory.
    pub fn reserve(alloc: Global) -> Result<Wanted, AllocError> {
        Ok(Wanted {
            classes: vec![in alloc; 0; MOST_PARTS]?,
        })
    }

    /// Finds the classes for each part of a pattern.
    pub fn find(&mut self, pattern: &Pattern)
        requires { IsSoundPattern (pattern_of pattern.now) }
        ensures { AreWanted (pattern_of pattern.now) self.new.classes.items }
    {
        clear(&mut self.classes);
        want_all(pattern, &mut self.classes);
    }

    /// The classes of the atoms at which the part is asked.
    pub fn at(&self, part: usize) -> u64
        requires { part < MOST_PARTS }
        ensures { result ≡ slice_index self.now.classes.items part }
    {
        self.classes[part]
    }
}

fn clear(wanted: &mut [u64]) {
    for classes in wanted.iter_mut() {
        *classes = 0;
    }
}

// Adds the classes that the graphs of a pattern want.
fn want_all(pattern: &Pattern, wanted: &mut [u64])
    requires sound { IsSoundPattern (pattern_of pattern.now) }
    requires room { length wanted.old ≡ 64 }
    ensures { AreWanted (pattern_of pattern.now) wanted.new }
{
    want_graph(&pattern.top, wanted);
    for graph in &pattern.recs {
        want_graph(graph, wanted);
    }
}

// Adds the classes that the expressions of a graph want: those at which an expression may be true, for each part that
// it names.
fn want_graph(graph: &Graph, wanted: &mut [u64])
    requires names { All (NamesBelow 64) (graph_of graph.now).atoms }
    requires room { length wanted.old ≡ 64 }
    ensures more { AreWithin wanted.old wanted.new }
    ensures asked { All (IsAsked wanted.new) (graph_of graph.now).atoms }
{
    for expr in &graph.atoms {
        want(expr, classes_of(expr), wanted);
    }
}

// Adds the classes to those of each part that the expression names.
fn want(expr: &Expr<AtomPrim>, classes: u64, wanted: &mut [u64])
    requires names { NamesBelow 64 (term_of expr.now) }
    requires room { length wanted.old ≡ 64 }
    ensures more { AreWithin wanted.old wanted.new }
    ensures named { NamesOnly (λ part. IsWithin classes (slice_index wanted.new part))
        (term_of expr.now) }
{
    match expr {
        Expr::Prim(prim) => want_named(*prim, classes, wanted),
        Expr::Not(inner) => want(inner, classes, wanted),
        Expr::And(left, right) => {
            want(left, classes, wanted);
            want(right, classes, wanted);
        }
        Expr::Or(left, right) => {
            want(left, classes, wanted);
            want(right, classes, wanted);
        }
    }
}

// As `want`, but of a primitive.
fn want_named(prim: AtomPrim, classes: u64, wanted: &mut [u64])
    requires names { PrimNamesBelow 64 prim }
    requires room { length wanted.old ≡ 64 }
    ensures more { AreWithin wanted.old wanted.new }
    ensures named { PrimNames (λ part. IsWithin classes (slice_index wanted.new part)) prim }
{
    match prim {
        AtomPrim::Rec(part) => wanted[usize::from(part)] |= classes,
        _ => {}
    }
}
