//! The bytes of a journal's file: a front, and then records. A record is a gate, the payload's length in four bytes
//! (little-endian) and the payload. An open record is followed by the next gate.
//!
//! In format 1 the front is `5a` and `CHEMDB1`. In format 2 it is `5a` and `CHEMDB2`, the three numbers of the header
//! in four bytes each (little-endian), and the base records. A base record is a length and a payload.

use crate::header::Header;

/// The gate of a record that counts.
pub const OPEN: u8 = 0x5a;

/// The gate that is written after the last record. Each byte but `OPEN` ends the records.
pub const CLOSED: u8 = 0;

/// The greatest number of bytes of a payload.
pub const LONGEST_PAYLOAD: usize = 1_048_576;

/// The front of a file of format 1.
pub(crate) const HEADER: [u8; 8] = *b"\x5aCHEMDB1";

/// The bytes before the numbers of the header in format 2.
pub(crate) const SECOND_FORMAT: [u8; 8] = *b"\x5aCHEMDB2";

/// The header of a file of format 1.
pub(crate) const NO_BASE: Header = Header {
    generation: 0,
    base_version: 0,
    base_count: 0,
};

/// A file with no records.
pub(crate) const NO_RECORDS: [u8; 9] = *b"\x5aCHEMDB1\0";
