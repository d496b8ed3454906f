//! A source, from which bytes are taken.
ghost use Rattle.std.specs.Prelude.{◌<◌, ◌≤◌, ◌≡◌, ◌^◌, ℕ, List, [], Option, length, take, drop};
ghost use Rattle.std.specs.Io.KnownBytes.{IsAtEnd};
ghost use Rattle.io_edge.specs.Faults.{Rose};
ghost use Rattle.io_edge.specs.Source.{Leaves, number_of, IfBytes, OnEnd, OnFailed};

/// The answer of a take.
#[derive(Clone, Copy, Debug, PartialEq, Eq)]
pub enum Take {
    /// This number of bytes, at least one, was moved into the front of the room.
    Bytes(usize),
    /// Nothing is left.
    End,
    /// The source failed, and counted a fault. Nothing was moved.
    Failed,
}

impl Take {
    /// The number of bytes that were moved.
    pub fn number(self) -> usize
        ensures { result ≡ number_of self }
    {
        match self {
            Take::Bytes(n) => n,
            Take::End | Take::Failed => 0,
        }
    }
}

/// A source, from which bytes are taken, piece by piece.
pub trait Source {
    /// The bytes that are left, if they are known.
    ghost left: { Self → Option (List ℕ) };

    /// The number of faults. The count stays at 2^64 - 1.
    ghost faults: { Self → ℕ };

    /// Moves the next bytes, at least one, into the front of `room`. The rest of `room` stays. It takes no memory.
    fn take(&mut self, room: &mut [u8]) -> Take
        requires { 0 < length room.old }

        ensures number { IfBytes result (λ n. (0 < n) × (n ≤ length room.old)) }
        ensures moved { IfBytes result (λ n. Leaves (left self.old) (take n room.new) (left self.new)) }
        ensures behind { IfBytes result (λ n. drop n room.new ≡ drop n room.old) }

        ensures end { OnEnd result (IsAtEnd (left self.old)) }
        ensures at_end { OnEnd result (Leaves (left self.old) [] (left self.new)) }

        ensures failed { OnFailed result (Rose (faults self.old) (faults self.new)) }
        ensures unchanged { OnFailed result (Leaves (left self.old) [] (left self.new)) }

        ensures count { faults self.old ≤ faults self.new }
        ensures held { faults self.new < 2 ^ 64 };
}
