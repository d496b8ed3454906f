//! The threads and the meter for the matching of a search.

/// The runtime that makes threads for matching, and the meter that is called for each piece of work.
#[derive(Drop)]
pub struct Matching<'a, R, M> {
    pub rt: &'a R,
    pub meter: &'a M,
}
