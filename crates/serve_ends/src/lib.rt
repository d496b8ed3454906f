//! Several ends, each served by a session in a thread of its own at a desk of one hall.
//!
//! The promise is one run: the part of the hall's history that the root pass gained. Each end has a number of its own,
//! and no other number has a step in that part. The output of an end is a transcript of its source, or a beginning of
//! one, by the calls of its number.
#![tactic(auto)]

mod end;
mod serve;
mod slot;
mod status;

pub use end::End;
pub use serve::{MOST_ENDS, serve_ends};
pub use status::{DONE, INPUT_TOO_LONG, NO_MEMORY, SINK_FAULT, SOURCE_FAULT, WORN, end_status};
