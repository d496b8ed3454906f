//! How a dialogue ends, and why an answer breaks off.
use std::alloc::AllocError;

/// How a dialogue ended.
#[derive(Clone, Copy, Debug, PartialEq, Eq)]
pub enum EndStatus {
    /// The input's end was met, and every request was answered.
    Done,
    /// The source failed.
    SourceFault,
    /// The sink failed.
    SinkFault,
    /// Memory ran out, and not even the line that says so could be written.
    NoMemory,
    /// The limit of input bytes was taken, and the input goes on.
    InputTooLong,
    /// The peer answers no call any more.
    Worn,
}

/// The reason why an answer is not written.
#[derive(Clone, Copy, Debug, PartialEq, Eq)]
pub enum Stop {
    /// No memory is left for the reply's text. The calls were made.
    NoMemory,
    /// The peer answers no call any more.
    Worn,
}

impl From<AllocError> for Stop {
    ghost use Rattle.std.specs.Prelude.{◌≡◌};
    ghost use Rattle.dialogue.specs.declared.end.Stop.TheVariants.{NoMemory};

    ghost from_gives = { λ _ e. e ≡ NoMemory };

    fn from(_: AllocError) -> Stop {
        Stop::NoMemory
    }
}
