//! The knowledge that a pass has of the history of its gate.
use std::collections::LinkedList;

/// It takes no bytes: no value of it is made, and only contracts read it.
pub struct Known<V, E, O> {
    /// The value as it was given to the gate.
    pub first: LinkedList<V>,
    /// The origin of the history, once it was picked. It is one for all passes of a gate.
    pub origin: LinkedList<O>,
    /// The numbers of the pass.
    pub numbers: LinkedList<u64>,
    /// The events that it has seen, with which the history begins. Its own are those that name its numbers.
    pub seen: LinkedList<E>,
    /// The numbers and events of the two joined passes, until the next load shows that `seen` begins with each.
    pub parts: LinkedList<(LinkedList<u64>, LinkedList<E>)>,
    /// 0 outside a turn, 1 with the holder word, 2 with the value, 3 with the event added.
    pub stage: u64,
    /// In the root pass the number of numbers that were given, and 0 elsewhere.
    pub given: u64,
    /// The number of turns of the gate.
    pub turns: u64,
}
