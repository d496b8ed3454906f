//! The history that a value under a gate records.

/// A value that records lists of events. Events and origins are for contracts alone: no value of one is made.
pub trait Stands {
    ghost use Rattle.std.specs.Prelude.{List, ℕ};

    /// One turn's entry in the history.
    type Event;

    /// The start of a history. A value may have several; a gate has one of them.
    type Origin;

    /// The value is one that these events, in this order, may have left after this origin.
    ghost stands: { Self.Origin → Self → List Self.Event → Type 0 };

    /// The value shows this event: the value that a turn leaves shows the event that the turn adds.
    ghost tells: { Self → Self.Event → Type 0 };

    /// The number of a pass, which the event names.
    ghost number: { Self.Event → ℕ };
}
