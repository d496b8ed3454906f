//! The meaning of a script's lines, and the truth of a transcript by a history. Nothing runs here but three laws.
//!
//! A request is a line, with the lines of its molfile or of its records if it takes them. The definitions say which
//! calls of a store answer it, by which lines, and which state is kept then. A transcript is such answers one after
//! another. The laws say that its listings are those of the store's history. A session (`session_run`) and a drill
//! (`drill_run`) are built on them.
#![tactic(auto)]

mod laws;
mod limits;

pub use dialogue::EndStatus;
pub use laws::{dialogues_are_true, searches_are_hits, services_are_true};
pub use limits::{MOST_COUNTED, MOST_SD_BYTES};
