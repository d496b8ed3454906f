//! The header of a journal's file.

/// The numbers of a file's header. All three are 0 in format 1.
#[derive(Clone, Copy, Debug, PartialEq, Eq)]
pub struct Header {
    /// The number of copies that led to this one.
    pub generation: u32,
    /// The version at which the base records give the store's state.
    pub base_version: u32,
    /// The number of base records.
    pub base_count: u32,
}
