//! Generated scripts: registrations of structures that follow from a seed, then searches; and summaries of their
//! transcripts.
#![tactic(auto)]

mod generate;
mod numbers;
mod summarize;

pub use generate::script;
pub use summarize::summary;
