//! The commits of a journal: a change is written as one payload, and read back from it. `decode` gives a change exactly
//! if the payload is written so. `read_all` gives every commit up to the first gate that is not open, or the place of
//! damage. Before the commits of format 2 is a base. `encode_base` writes its entries; `decode_base` and `read_base`
//! read them. It uses `journal_core`.
#![tactic(auto)]

mod base;
mod base_log;
mod change;
mod laws;
mod log;
mod reading;
mod writing;

pub use base::{BaseEntry, BaseState};
pub use base_log::read_base;
pub use change::{Commit, Format, Wire};
pub use laws::{a_base_reads_one_way, a_log_reads_one_way, a_written_log_is_read};
pub use log::{next_commit, read_all};
pub use reading::{decode, decode_base};
pub use writing::{
    encode, encode_base, encode_register, encode_revise, encode_withdraw, write_live,
    write_withdrawn,
};
