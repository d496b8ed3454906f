//! A change as it is written in a journal.

/// The format of a structure's text.
#[derive(Clone, Copy, Debug, PartialEq, Eq)]
pub enum Format {
    /// A SMILES, without an end mark.
    Smiles,
    /// A molfile. Each of its lines ends in one LF.
    Molfile,
}

/// A change. In a change that was read, the identifier is 1 to 999,999,999.
#[derive(Debug, PartialEq, Eq, Drop)]
pub enum Wire {
    /// A structure comes under a new identifier.
    Register {
        id: u32,
        format: Format,
        text: Vec<u8>,
    },
    /// A structure replaces the one under its identifier.
    Revise {
        id: u32,
        format: Format,
        text: Vec<u8>,
    },
    /// An identifier's structure goes.
    Withdraw {
        id: u32,
    },
}

/// A change that was read, and the place of its gate.
#[derive(Debug, PartialEq, Eq, Drop)]
pub struct Commit {
    pub at: u64,
    pub wire: Wire,
}

/// The byte that begins a registration.
pub(crate) const REGISTER: u8 = 1;

/// The byte that begins a revision.
pub(crate) const REVISE: u8 = 2;

/// The byte that begins a withdrawal.
pub(crate) const WITHDRAW: u8 = 3;

/// The greatest identifier.
pub(crate) const GREATEST_ID: u32 = 999_999_999;
