//! Worked tables of lines: as they are read, as they are written, as they are generated, and in drills.
#![tactic(auto)]

#[cfg(test)]
mod tests;
