//! Laws of trees and their graphs, which callers need without reading a text.

ghost use Rattle.std.specs.Prelude.{◌<◌, List, length};
ghost use Rattle.std.specs.List.{AllByRecursion};
ghost use Rattle.line_walk.specs.declared.pairs.Link.{Link};
ghost use Rattle.line_walk.specs.Tree.{Tree};
ghost use Rattle.line_walk.specs.Reading.{IsGraphOf};

use crate::notation::Notation;

/// A law: the bonds of a tree's graph join atoms of the tree.
pub fn bonds_join_atoms<N: Notation>()
    ensures { (tree : Tree N.words.Atom N.words.Bond) (atoms : List N.Atom)
        (links : List (Link N.Bond)) → IsGraphOf N.words tree atoms links
        → AllByRecursion (λ x. (x.a < length atoms) × (x.b < length atoms)) links }
{}
