//! The loop over a source's requests.
ghost use Rattle.std.specs.Prelude.{◌≡◌, ◌≤◌, ◌<◌, ◌+◌, ◌^◌, ℕ, Err, IsTrue, List, None, Ok, Some, []};
ghost use Rattle.io_edge.specs.Faults.{Rose};
ghost use Rattle.io_edge.specs.Lines.{TextLine, done_bytes};
ghost use Rattle.dialogue.specs.Dialogue.{IsAsked};
ghost use Rattle.dialogue.specs.Reads.{IsFresh, ReadsLine, Takes};
ghost use Rattle.dialogue.specs.Answers.{Answering, CanAdd, Serves, TalksTo};
ghost use Rattle.dialogue.specs.Talked.{EndsAs};
ghost use Rattle.dialogue.specs.Turns.{IsUnderWay, Leaves, Start, Turned};

use crate::end::{EndStatus, Stop};
use crate::talker::Talk;
use io_edge::{Line, LineFault, Lines, PutFault, Sink, Source};
use std::alloc::Global;

/// What was taken of a source.
#[derive(Clone, Copy, Debug, PartialEq, Eq)]
enum Taken {
    /// A whole request.
    Request,
    /// The lines before the input's end, which are no whole request.
    Last,
    /// No line before the input's end.
    Nothing,
}

/// Answers the requests of a source into a sink, each before more is read, until the input ends, a fault stops it, or
/// the peer is worn. No more bytes than `limit` are taken. At the end what is kept is given back, unless the peer is
/// worn. `answer` answers the request under way; if it is whole, it gets the text of its last line. The talker's `reply`
/// is its reply then.
pub fn talk<P, T: Talk<P>, I: Source, O: Sink, F: Fn(&mut T, &mut P, &[u8]) -> Result<(), Stop>>(
    alloc: Global,
    talker: &mut T,
    peer: &mut P,
    answer: &F,
    source: &mut I,
    sink: &mut O,
    limit: u64,
) -> EndStatus
    requires ready { (kept : T.talk.manner.Kept) × T.talk.IsReady talker.old peer.old kept [] 0 }
    requires answers { Answering T.talk F.Fn answer.now }
    ensures serves { (kept : T.talk.manner.Kept) → T.talk.IsReady talker.old peer.old kept [] 0
        → Serves T.talk result kept peer.old peer.new (I.left source.old) (I.left source.new)
        (O.written sink.old) (O.written sink.new) }
    ensures worn { result ≡ EndStatus.Worn → T.talk.IsWorn peer.new }
    ensures ends { EndsAs I.Source O.Sink result limit source.old source.new sink.old sink.new }
{
    let end = talk_open(alloc, talker, peer, answer, source, sink, limit);
    match end {
        EndStatus::Worn => EndStatus::Worn,
        _ => match talker.close(peer) {
            Ok(()) => end,
            Err(_) => EndStatus::Worn,
        },
    }
}

// As `talk`, but nothing is given back.
fn talk_open<P, T: Talk<P>, I: Source, O: Sink, F: Fn(&mut T, &mut P, &[u8]) -> Result<(), Stop>>(
    alloc: Global,
    talker: &mut T,
    peer: &mut P,
    answer: &F,
    source: &mut I,
    sink: &mut O,
    limit: u64,
) -> EndStatus
    requires ready { (kept : T.talk.manner.Kept) × T.talk.IsReady talker.old peer.old kept [] 0 }
    requires answers { Answering T.talk F.Fn answer.now }
    ensures talks { (kept : T.talk.manner.Kept) → T.talk.IsReady talker.old peer.old kept [] 0
        → TalksTo T.talk result kept talker.new peer.old peer.new (I.left source.old) (I.left source.new)
        (O.written sink.old) (O.written sink.new) }
    ensures ends { EndsAs I.Source O.Sink result limit source.old source.new sink.old sink.new }
{
    let Ok(mut lines) = Lines::new(alloc, limit) else {
        return EndStatus::NoMemory;
    };
    talk_by(talker, peer, answer, &mut lines, source, sink)
}

// Answers the requests of a source by lines of which none was read.
fn talk_by<P, T: Talk<P>, I: Source, O: Sink, F: Fn(&mut T, &mut P, &[u8]) -> Result<(), Stop>>(
    talker: &mut T,
    peer: &mut P,
    answer: &F,
    lines: &mut Lines,
    source: &mut I,
    sink: &mut O,
) -> EndStatus
    requires ready { (kept : T.talk.manner.Kept) × T.talk.IsReady talker.old peer.old kept [] 0 }
    requires answers { Answering T.talk F.Fn answer.now }
    requires fresh { IsFresh lines.old }
    requires limit { lines.old.limit < 2 ^ 64 }
    ensures talks { (kept : T.talk.manner.Kept) → T.talk.IsReady talker.old peer.old kept [] 0
        → TalksTo T.talk result kept talker.new peer.old peer.new (I.left source.old) (I.left source.new)
        (O.written sink.old) (O.written sink.new) }
    ensures ends { EndsAs I.Source O.Sink result lines.old.limit source.old source.new sink.old sink.new }
{
    'turns: loop {
        if let Some(end) = turn(talker, peer, answer, lines, source, sink) {
            return end;
        }
    }
}

// Takes the next request and puts its reply. It answers how the dialogue ends, if it does.
fn turn<P, T: Talk<P>, I: Source, O: Sink, F: Fn(&mut T, &mut P, &[u8]) -> Result<(), Stop>>(
    talker: &mut T,
    peer: &mut P,
    answer: &F,
    lines: &mut Lines,
    source: &mut I,
    sink: &mut O,
) -> Option<EndStatus>
    requires ready { (kept : T.talk.manner.Kept) × (n : ℕ) × T.talk.IsReady talker.old peer.old kept [] n
        × (n ≤ done_bytes lines.old) }
    requires answers { Answering T.talk F.Fn answer.now }
    requires limit { lines.old.limit < 2 ^ 64 }
    ensures leaves { (start : Start T.talk.manner.Kept P)
        → IsUnderWay T.talk start talker.old peer.old (I.left source.old) (O.written sink.old) lines.old
        → Leaves T.talk start result talker.new peer.new (I.left source.new) (O.written sink.new) lines.new }
    ensures progress { result ≡ None → done_bytes lines.old < done_bytes lines.new }
    ensures ended { result ≡ Some EndStatus.Done → IsTrue lines.new.ended }
    ensures source_fault { result ≡ Some EndStatus.SourceFault → Rose (I.faults source.old) (I.faults source.new) }
    ensures source_count { I.faults source.old ≤ I.faults source.new }
    ensures sink_fault { result ≡ Some EndStatus.SinkFault → Rose (O.faults sink.old) (O.faults sink.new) }
    ensures sink_count { O.faults sink.old ≤ O.faults sink.new }
    ensures too_long { result ≡ Some EndStatus.InputTooLong → lines.new.taken ≡ lines.new.limit }
{
    match take_request::<P, T, I>(talker, lines, source) {
        Err(LineFault::Source) => Some(EndStatus::SourceFault),
        Err(LineFault::TooLong) => Some(EndStatus::InputTooLong),
        Ok(Taken::Nothing) => Some(EndStatus::Done),
        Ok(Taken::Request) => answer_and_put(talker, peer, answer, lines.text(), sink),
        Ok(Taken::Last) => match answer_and_put(talker, peer, answer, lines.text(), sink) {
            Some(end) => Some(end),
            None => Some(EndStatus::Done),
        },
    }
}

// Answers the request that was taken, and puts its reply. It answers how the dialogue ends, if it does.
fn answer_and_put<P, T: Talk<P>, O: Sink, F: Fn(&mut T, &mut P, &[u8]) -> Result<(), Stop>>(
    talker: &mut T,
    peer: &mut P,
    answer: &F,
    line: &[u8],
    sink: &mut O,
) -> Option<EndStatus>
    requires ready { (kept : T.talk.manner.Kept) × (lines : List TextLine) × (n : ℕ)
        × T.talk.IsReady talker.old peer.old kept lines n × IsAsked T.talk.manner lines line.now × (n + 1 < 2 ^ 64) }
    requires answers { Answering T.talk F.Fn answer.now }
    ensures turned { (kept : T.talk.manner.Kept) (request : List TextLine) (n : ℕ)
        → T.talk.IsReady talker.old peer.old kept request n → IsAsked T.talk.manner request line.now → n + 1 < 2 ^ 64
        → Turned T.talk result talker.new peer.old peer.new kept request n (O.written sink.old) (O.written sink.new) }
    ensures sink_fault { result ≡ Some EndStatus.SinkFault → Rose (O.faults sink.old) (O.faults sink.new) }
    ensures sink_count { O.faults sink.old ≤ O.faults sink.new }
{
    match answer(talker, peer, line) {
        Err(Stop::NoMemory) => Some(EndStatus::NoMemory),
        Err(Stop::Worn) => Some(EndStatus::Worn),
        Ok(()) => match sink.put(talker.reply()) {
            Ok(()) => None,
            Err(PutFault::Failed) => Some(EndStatus::SinkFault),
            Err(PutFault::NoMemory) => Some(EndStatus::NoMemory),
        },
    }
}

// Takes the lines of the next request.
fn take_request<P, T: Talk<P>, I: Source>(
    talker: &mut T,
    lines: &mut Lines,
    source: &mut I,
) -> Result<Taken, LineFault>
    requires ready { (peer : P) × (kept : T.talk.manner.Kept) × (n : ℕ) × T.talk.IsReady talker.old peer kept [] n }
    ensures takes { Takes T.talk talker.old talker.new (I.left source.old) (I.left source.new) lines.old lines.new
        result }
    ensures limit { lines.new.limit ≡ lines.old.limit }
    ensures within { lines.new.taken ≤ lines.new.limit }
    ensures progress { done_bytes lines.old ≤ done_bytes lines.new }
    ensures count { I.faults source.old ≤ I.faults source.new }
    ensures source_fault { result ≡ Err LineFault.Source → Rose (I.faults source.old) (I.faults source.new) }
    ensures too_long { result ≡ Err LineFault.TooLong → lines.new.taken ≡ lines.new.limit }
{
    let mut begun = false;
    'taking: loop {
        match read_line(talker, lines, source) {
            Err(fault) => return Err(fault),
            Ok(None) => return Ok(if begun { Taken::Last } else { Taken::Nothing }),
            Ok(Some(whole)) => {
                if whole {
                    return Ok(Taken::Request);
                }
                begun = true;
            }
        }
    }
}

// Adds the next line to the request under way. It answers whether the request is whole with it; `None` is the input's
// end.
fn read_line<P, T: Talk<P>, I: Source>(
    talker: &mut T,
    lines: &mut Lines,
    source: &mut I,
) -> Result<Option<bool>, LineFault>
    requires { CanAdd T.talk talker.old }
    ensures reads { ReadsLine T.talk talker.old talker.new (I.left source.old) (I.left source.new) lines.old lines.new
        result }
    ensures progress { done_bytes lines.old ≤ done_bytes lines.new }
    ensures limit { lines.new.limit ≡ lines.old.limit }
    ensures within { lines.new.taken ≤ lines.new.limit }
    ensures count { I.faults source.old ≤ I.faults source.new }
    ensures source_fault { result ≡ Err LineFault.Source → Rose (I.faults source.old) (I.faults source.new) }
    ensures too_long { result ≡ Err LineFault.TooLong → lines.new.taken ≡ lines.new.limit }
{
    match lines.next_line(source) {
        Err(fault) => Err(fault),
        Ok(Line::End) => Ok(None),
        Ok(Line::Text) => Ok(Some(talker.add(lines.text()))),
        Ok(Line::Long { size }) => Ok(Some(talker.add_long(size))),
    }
}
