//! The store as a machine: its events, its replies and its states, row by row, and laws of its runs.
//!
//! The law of pages is the heart: the pages of a pin are together the answer in the snapshot at which it was taken.
//! Commits and prunings between them change nothing. Nothing here runs: the types are for contracts alone, and each law
//! is the clause of a function that does nothing.
#![tactic(auto)]

mod laws;
mod machine;

pub use laws::{
    answers_are_one, calls_give_pages, commits_change, crash_opens, kept_is_read, needs_screen,
    owners_are_free, pages_are_a_prefix, pages_are_pieces, pages_are_the_answer, pins_stay,
    rebases_keep, replies_tell, runs_grow, runs_join, runs_stay_sound, snapshots_stay, states_stay,
};
pub use machine::{
    Change, Copying, Entry, Event, Faults, Found, Held, History, ITEMS_A_STEP, LAST_GENERATION,
    LAST_IDENTIFIER, Reply, State, Status, Step, Times,
};
