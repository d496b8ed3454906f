//! The status of an end, by how its session ended.
ghost use Rattle.serve_ends.specs.Status.{IsStatusOf};

use session_run::EndStatus;

/// Every line was answered.
pub const DONE: u8 = 0;

/// The source failed.
pub const SOURCE_FAULT: u8 = 3;

/// The sink failed.
pub const SINK_FAULT: u8 = 4;

/// Memory ran out.
pub const NO_MEMORY: u8 = 8;

/// The limit of bytes was taken of the input, and it goes on.
pub const INPUT_TOO_LONG: u8 = 9;

/// The service answers no call any more.
pub const WORN: u8 = 11;

/// The status of an end whose session ended so.
pub fn end_status(ended: EndStatus) -> u8
    ensures { IsStatusOf ended result }
{
    match ended {
        EndStatus::Done => DONE,
        EndStatus::SourceFault => SOURCE_FAULT,
        EndStatus::SinkFault => SINK_FAULT,
        EndStatus::NoMemory => NO_MEMORY,
        EndStatus::InputTooLong => INPUT_TOO_LONG,
        EndStatus::Worn => WORN,
    }
}
