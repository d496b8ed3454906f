//! Searches over a service: a pin, pages of records whose print holds the bits that the pattern needs, and the records
//! of each page that the pattern matches.
//!
//! A search takes all its memory before its pin, so that only a fetch can fail later. The records of a page are cut
//! into pieces, one for each worker. Several pages are searched together by groups: they are fetched one after another.
//! The workers match a group, a share of its records each and in threads of their own. Meanwhile the thread of the last
//! worker fetches the next group. It is a law of the machine that the pages of a pin are together the hits.
#![tactic(auto)]

mod batch;
mod calls;
mod fault;
mod find;
mod groups;
mod laws;
mod meter;
mod pieces;
mod room;
mod search;
mod worker;

pub use batch::{BatchHits, MOST_PAGES};
pub use calls::fetch;
pub use fault::SearchFault;
pub use laws::pages_are_hits;
pub use meter::{Meter, NoMeter};
pub use pieces::match_pieces;
pub use room::PageHits;
pub use search::Search;
pub use worker::Worker;
