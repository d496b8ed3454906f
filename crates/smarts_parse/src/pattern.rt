//! Patterns: atom and bond expressions as trees, and the graphs of a pattern and of its recursive parts.

/// The primitives of an atom expression.
#[derive(Clone, Copy, Debug, PartialEq, Eq)]
pub enum AtomPrim {
    /// `*`
    Any,
    /// `a`
    Aromatic,
    /// `A`
    Aliphatic,
    /// An element's symbol: in upper case aliphatic, in lower case aromatic.
    Symbol { number: u8, lower: bool },
    /// `#n`, the atomic number.
    Number(u16),
    /// `D<n>`, n neighbours.
    Degree(u16),
    /// `H<n>`, n hydrogens, atoms or not.
    TotalH(u16),
    /// `h<n>`, n hydrogens that are not atoms; with no number at least one.
    ImplicitH(Option<u16>),
    /// `R` or `r`, an atom of a ring.
    Ring,
    /// `R0` or `r0`, an atom of no ring.
    NoRing,
    /// `r<n>`, an atom whose smallest ring has n atoms.
    Small(u16),
    /// `v<n>`
    Valence(u16),
    /// `X<n>`, n neighbours and hydrogens.
    Connect(u16),
    /// `x<n>`, n ring bonds; with no number at least one.
    RingBonds(Option<u16>),
    /// `+n` or `-n`
    Charge(i16),
    /// A mass number; 0 if it is not written.
    Mass(u16),
    /// `$(..)`: the recursive part of that number embeds with its first atom there.
    Rec(u16),
}

/// The primitives of a bond expression.
#[derive(Clone, Copy, Debug, PartialEq, Eq)]
pub enum BondPrim {
    /// `-`, single and not aromatic.
    Single,
    /// `=`
    Double,
    /// `#`
    Triple,
    /// `$`
    Quad,
    /// `:`
    Aromatic,
    /// `~`
    Any,
    /// `@`, a ring bond.
    Ring,
    /// No expression: single or aromatic.
    Unwritten,
}

/// An expression over primitives. `;`, `&` and juxtaposition are all `And`.
#[derive(Debug, Drop)]
pub enum Expr<P> {
    Prim(P),
    Not(Box<Expr<P>>),
    And(Box<Expr<P>>, Box<Expr<P>>),
    Or(Box<Expr<P>>, Box<Expr<P>>),
}

/// A bond of a pattern, between its atoms at places `a` and `b`.
#[derive(Debug, Drop)]
pub struct PatBond {
    pub a: u16,
    pub b: u16,
    pub expr: Expr<BondPrim>,
}

/// A pattern without its recursive parts, or one of these: an expression for each atom, bonds between them, and groups.
#[derive(Debug, Drop)]
pub struct Graph {
    pub atoms: Vec<Expr<AtomPrim>>,
    pub bonds: Vec<PatBond>,
    /// For each atom the number of its zero-level parentheses, from 1 on, or 0 outside of them. Atoms of one group lie
    /// in one component of a molecule, those of different groups in different ones.
    pub groups: Vec<u16>,
}

/// A SMARTS pattern. `Rec(k)` names `recs[k]`.
#[derive(Debug, Drop)]
pub struct Pattern {
    pub top: Graph,
    pub recs: Vec<Graph>,
}
