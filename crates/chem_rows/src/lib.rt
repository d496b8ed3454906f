//! Worked scripts, end to end: the top call over a source and a sink in memory.
#![tactic(auto)]

#[cfg(test)]
mod tests;
