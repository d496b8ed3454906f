//! Worked tables of the edges: lines, sources and sinks, disks and their images, journals, logs, copies and pairs.
#![tactic(auto)]

#[cfg(test)]
mod tests;
