//! The settings of property lines.

/// The property lines that set values: `M  CHG`, `M  RAD`, `M  ISO`.
#[derive(Clone, Copy, Debug, PartialEq, Eq)]
pub(crate) enum Tag {
    Charge,
    Radical,
    Isotope,
}

/// A value of an atom.
#[derive(Clone, Copy, Debug, PartialEq, Eq)]
pub(crate) enum Value {
    /// -15 to 15.
    Charge(i8),
    /// The number of radical electrons, at most 2.
    Radical(u8),
    /// The mass number, at most 999; 0 if not set.
    Isotope(u16),
}

/// An atom, by its place from 0, and a value that it gets.
#[derive(Clone, Copy, Debug, PartialEq, Eq)]
pub(crate) struct Setting {
    pub atom: u16,
    pub value: Value,
}
