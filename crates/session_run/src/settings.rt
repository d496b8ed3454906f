//! The settings of a session.

/// The settings of a session.
#[derive(Clone, Copy, Debug, PartialEq, Eq)]
pub struct Settings {
    /// Threads for matching, 1 to 16.
    pub workers: u32,
    /// The most records of a page, 1 to 256.
    pub page: u32,
    /// The most bytes that are taken of the input.
    pub input_limit: u64,
}
