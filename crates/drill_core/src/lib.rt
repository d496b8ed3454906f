//! A world of stops: a store on two disks in memory, whose calls can be set to fail. Both may be left by a crash and
//! opened again.
//!
//! A `World` is a `Service`, by its store. The calls between two reopenings are a run without a crash. A reopening adds
//! a crash and an opening, so that all of it together is one run of the machine (`drills_are_runs`).
#![tactic(auto)]

mod laws;
mod world;

pub use laws::{disk_faults_are_counted, drills_are_runs};
pub use world::World;
