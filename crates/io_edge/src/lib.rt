//! The edge of bytes in and bytes out: sources and sinks that count their faults, and the lines of a source.
#![tactic(auto)]

mod buffer;
mod lines;
mod memory;
mod sinks;
mod sources;
mod standard;

pub use lines::{LONGEST_LINE, Line, LineFault, Lines};
pub use memory::{MemSink, MemSource};
pub use sinks::{PutFault, Sink};
pub use sources::{Source, Take};
pub use standard::{StdSink, StdSource};
