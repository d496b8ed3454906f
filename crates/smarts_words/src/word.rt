//! The words of atom and bond expressions, before they have a meaning.

/// The count of an atom that a letter before a number names.
#[derive(Clone, Copy, Debug, PartialEq, Eq)]
pub enum Letter {
    /// `D`, neighbours.
    Degree,
    /// `H`, hydrogens, atoms or not.
    TotalH,
    /// `h`, hydrogens that are no atoms.
    ImplicitH,
    /// `R`, rings of a ring set.
    Rings,
    /// `r`, the atoms of the smallest ring.
    RingSize,
    /// `v`, the bonds by their orders, and hydrogens.
    Valence,
    /// `X`, neighbours and hydrogens.
    Connect,
    /// `x`, ring bonds.
    RingBonds,
}

/// A primitive of an atom expression.
#[derive(Clone, Copy, Debug, PartialEq, Eq)]
pub enum AtomWord {
    /// `*`
    Any,
    /// `a`
    Aromatic,
    /// `A`
    Aliphatic,
    /// An element's symbol, in upper or in lower case.
    Symbol { number: u8, lower: bool },
    /// `#n`
    Number(u16),
    /// A letter, and the number after it, if one is written.
    Count { letter: Letter, number: Option<u16> },
    /// Signs, or a sign and a number.
    Charge(i16),
    /// A number alone.
    Mass(u16),
    /// `$(..)`, a recursive part; its text is kept apart.
    Part,
    /// `@` and its other bytes: a configuration.
    Stereo,
}

/// A primitive of a bond expression.
#[derive(Clone, Copy, Debug, PartialEq, Eq)]
pub enum BondWord {
    /// `-`
    Single,
    /// `=`
    Double,
    /// `#`
    Triple,
    /// `$`
    Quad,
    /// `:`
    Aromatic,
    /// `~`
    Any,
    /// `@`
    Ring,
    /// `/`, with or without `?`.
    Up,
    /// `\`, with or without `?`.
    Down,
}

/// A step of an expression in postfix order: a primitive, or an operator on the steps before it.
#[derive(Clone, Copy, Debug, PartialEq, Eq)]
pub enum Step<P> {
    Prim(P),
    Not,
    And,
    Or,
}
