//! The tables, a file for each part.

mod copies;
mod disks;
mod journals;
mod lines;
mod logs;
mod pairs;
