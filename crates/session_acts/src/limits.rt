//! Limits on the records of an SD file that a line takes.

/// The most bytes that the texts of the records of one line may count.
pub const MOST_SD_BYTES: u64 = 67_108_864;

/// The most bytes that one of these texts counts: one more than a text with a structure may have.
pub const MOST_COUNTED: u64 = 262_145;
