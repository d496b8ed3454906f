//! Sketches: structures as they are written, before hydrogens and aromaticity are worked out.
ghost use Rattle.std.specs.Prelude.{◌≡◌, ◌≤◌};
ghost use Rattle.chem_core.specs.Sketch.{order_of};

use std::marker::Model;

/// The source of the hydrogens of a written atom.
#[derive(Clone, Copy, Debug, PartialEq, Eq)]
pub enum Fill {
    /// As written, in brackets.
    Given,
    /// By the valence table of the organic subset.
    Organic,
    /// By the valence table of molfiles, beside this number of radical electrons (at most 2).
    Table { radicals: u8 },
    /// By a valence that is written, 0 to 15. (A molfile writes 15 for a valence of 0; its reader gives 0 here.)
    Fixed { valence: u8 },
}

/// An atom as it is written.
#[derive(Clone, Copy, Debug, PartialEq, Eq)]
pub struct SketchAtom {
    /// The atomic number, 0 to 103; 0 is `*`.
    pub number: u8,
    /// The mass number, at most 999; 0 if none is written.
    pub isotope: u16,
    /// -15 to 15.
    pub charge: i8,
    /// True if the symbol is written in lower case.
    pub lower: bool,
    pub fill: Fill,
    /// The number of hydrogens that are not atoms of the sketch, at most 27.
    pub hydrogens: u8,
    /// The atom's place as written, from 0.
    pub written: u16,
}

/// A bond's kind as it is written.
#[derive(Clone, Copy, Debug, PartialEq, Eq)]
pub enum SketchKind {
    /// No symbol.
    Unwritten,
    Single,
    Double,
    Triple,
    Quad,
    /// `:`, the symbol of an aromatic bond.
    Colon,
}

impl SketchKind {
    /// The bond's share in the valence of each of its ends, unless it is aromatic: 1 if no symbol or `:` is written.
    pub fn order(self) -> u8
        ensures value { result ≡ order_of self }
        ensures few { result ≤ 4 }
    {
        match self {
            SketchKind::Unwritten | SketchKind::Single | SketchKind::Colon => 1,
            SketchKind::Double => 2,
            SketchKind::Triple => 3,
            SketchKind::Quad => 4,
        }
    }
}

/// A bond as it is written, between the atoms at places `a` and `b`.
#[derive(Clone, Copy, Debug, PartialEq, Eq)]
pub struct SketchBond {
    pub a: u16,
    pub b: u16,
    pub kind: SketchKind,
}

/// A structure as it is written: atoms in the order of the text, and the bonds between them.
///
/// Contracts see it as two lists.
#[derive(Debug, Drop)]
pub struct Sketch {
    pub atoms: Vec<SketchAtom>,
    pub bonds: Vec<SketchBond>,
}

impl Model for Sketch {
    ghost use Rattle.chem_core.specs.Sketch.{SketchTerm};

    ghost Value = { SketchTerm };

    ghost view = { λ s. record { atoms = s.atoms.items; bonds = s.bonds.items } };
}
