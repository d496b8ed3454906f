//! SD files (CTfile formats, SDfile): the records of their texts, and the data items after a record's molfile.
//!
//! An item is found in the text that a record keeps, without memory. Records are made of many texts at the same time,
//! each as by `Record::make`.
#![tactic(auto)]

mod items;
mod lines;
mod records;

pub use items::{is_record_end, item};
pub use records::read_records;
