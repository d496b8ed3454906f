//! The tables, a file for each part.

mod drills;
mod generated;
mod lines;
mod replies;
