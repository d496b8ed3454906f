//! The statuses, of the program and of each of its ends.

pub use serve_ends::{DONE, INPUT_TOO_LONG, NO_MEMORY, SINK_FAULT, SOURCE_FAULT, WORN};

/// The words ask for nothing that is known.
pub const USAGE: u8 = 2;

/// A disk failed as a store was made or loaded.
pub const DISK_FAULT: u8 = 5;

/// Neither disk has a store.
pub const NOT_A_STORE: u8 = 6;

/// The store is damaged, on the disk that is read.
pub const DAMAGED: u8 = 7;

/// A disk has bytes already, and no store was made.
pub const NOT_EMPTY: u8 = 10;
