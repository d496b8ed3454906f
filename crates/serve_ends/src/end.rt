//! An end that is served.

/// One end that is served: the source of its script, the sink of its replies, and its status.
#[derive(Drop)]
pub struct End<S, K> {
    pub source: S,
    pub sink: K,
    /// The status of its session; see the statuses.
    pub status: u8,
}
