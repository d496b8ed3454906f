//! An entry of a base, as it is written in a journal of format 2.

use crate::change::Format;

/// The state of an identifier.
#[derive(Debug, PartialEq, Eq, Drop)]
pub enum BaseState {
    /// A structure, by its text.
    Live { format: Format, text: Vec<u8> },
    /// No structure any more.
    Withdrawn,
}

/// The state of an identifier at the base's version, and the version of the commit that made it so. In an entry that
/// was read, the identifier is 1 to 999,999,999.
#[derive(Debug, PartialEq, Eq, Drop)]
pub struct BaseEntry {
    pub id: u32,
    pub version: u32,
    pub state: BaseState,
}

/// The byte that begins a live entry.
pub(crate) const LIVE: u8 = 4;

/// The byte that begins a withdrawn entry.
pub(crate) const WITHDRAWN: u8 = 5;
