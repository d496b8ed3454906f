//! What talks.
ghost use Rattle.std.specs.Prelude.{◌≡◌, ◌++◌, ℕ, List, []};
ghost use Rattle.io_edge.specs.Lines.{TextLine, Whole, TooLong};
ghost use Rattle.dialogue.specs.Answers.{Adds, CanAdd, Closes, TalkModel};

use crate::end::Stop;

/// What takes requests of lines, and answers them by calls of a peer. The answer itself is a closure of `talk`: a method
/// of a trait may start no threads, and an answer may search in several.
pub trait Talk<P> {
    /// What is talked, and what the talker and its peer are at.
    ghost talk: { TalkModel Self P };

    /// Adds a line to the request under way. It answers whether the request is whole with it.
    fn add(&mut self, line: &[u8]) -> bool
        requires { CanAdd talk self.old }
        ensures { Adds talk self.old self.new (Whole line.now) result };

    /// Adds a line that is too long, of `size` bytes.
    fn add_long(&mut self, size: u64) -> bool
        requires { CanAdd talk self.old }
        ensures { Adds talk self.old self.new (TooLong size) result };

    /// The text of the last reply.
    fn reply(&self) -> &[u8]
        ensures { result.now ≡ talk.said self.now };

    /// Gives back what is still kept of the peer.
    fn close(&mut self, peer: &mut P) -> Result<(), Stop>
        requires { (kept : talk.manner.Kept) × talk.CanClose self.old peer.old kept }
        ensures { (kept : talk.manner.Kept) → talk.CanClose self.old peer.old kept
            → Closes talk result peer.old peer.new kept };

    /// No call at all.
    ghost made_none: { (p : P) → talk.Made p p [] };

    /// Calls that follow each other.
    ghost made_more: { (a b c : P) (xs ys : List talk.manner.Call) → talk.Made a b xs → talk.Made b c ys
        → talk.Made a c (xs ++ ys) };

    /// What can go on can be closed.
    ghost can_close: { (x : Self) (p : P) (kept : talk.manner.Kept) (lines : List TextLine) (n : ℕ)
        → talk.IsReady x p kept lines n → talk.CanClose x p kept };
}
