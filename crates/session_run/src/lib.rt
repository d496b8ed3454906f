//! A session: the requests in a source's lines, answered into a sink, over any service.
//!
//! A request is a line, with the lines of its molfile or of its records if it takes them. It is read whole, then
//! answered by calls of the service, and its reply is put before more is read. The contract is one relation between the
//! lines, the calls that were made with their replies, and the text that was put.
#![tactic(auto)]

mod commands;
mod cursors;
mod items;
mod listing;
mod lookups;
mod matching;
mod records;
mod request;
mod respond;
mod run;
mod say;
mod sd;
mod search;
mod settings;
mod talker;
mod texts;
mod watches;

pub use dialogue::{EndStatus, Stop};
pub use respond::Responder;
pub use run::session;
pub use settings::Settings;
