//! Worked tables of stores: on disks, through crashes, under searches, lookups and watches; and of records of SD files.
#![tactic(auto)]

#[cfg(test)]
mod tests;
