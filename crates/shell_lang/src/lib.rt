//! The language of scripts: from lines to commands, from replies to lines.
#![tactic(auto)]

mod command;
mod reply;
mod word;

pub use command::{
    Command, LARGEST_DENOMINATOR, LONGEST_NAME, LineRefusal, MOST_SD_RECORDS, MOST_SIMILAR,
    MolfileChange, TakenLines, ends_molfile, one_reading, read_command, split_at_space,
    taken_lines,
};
pub use reply::{Refusal, Reply, data_text, reply_text};
pub use word::are_same;
