//! A drill: sixteen sessions on one world, line by line. Lines also stop or fail its disks, and open it again.
//!
//! The contract is one relation between the lines, the events of the world's machine with their replies, and the text
//! that was put. Crashes and openings are among the events; disk faults only if a line set them.
#![tactic(auto)]

mod laws;
mod line;
mod numbers;
mod run;
mod sessions;

pub use laws::{drills_are_true, reopenings_keep_commits};
pub use run::drill;
