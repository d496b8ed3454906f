//! The lines of a source, in whatever pieces its bytes come. `next_line` promises that the answered lines are those of
//! the text, in order, and that a fault loses no line. No more bytes are taken than a call needs or the limit allows.
//! The line buffer holds the bytes that were taken and not answered.
ghost use Rattle.std.specs.Prelude.{◌≡◌, ◌≤◌, ◌<◌, ◌+◌, ◌⊎◌, ℕ, Some, Ok, Err, IsTrue, false, List, [], length, take, IfSome, IfNone, IfOk, IfErr, OnOk, OnErr, position, ◌==◌};
ghost use Rattle.io_edge.specs.Faults.{Rose};
ghost use Rattle.io_edge.specs.Source.{Leaves};
ghost use Rattle.io_edge.specs.Cut.{HasNoLf, EndsAt};
ghost use Rattle.io_edge.specs.Lines.{without_cr, lines_left, HasWholeLine, IsAtLimit, IsFinished, AwaitsBytes, done_bytes};
ghost use Rattle.io_edge.specs.NextLine.{Answers, Counts, Told, OnLine, OnText, OnNoText, CanAnswer};
ghost use Rattle.io_edge.specs.Steps.{IsSound, front_line, behind_line, CutsLine, AnswersHeld, NeedsMore, IsEndOf, Reads};

use crate::buffer::{Buffer, CAPACITY};
use crate::sources::{Source, Take};
use std::alloc::{AllocError, Global};
use std::marker::Model;
use thiserror::Error;

/// The longest line that is answered, in bytes, without its end.
pub const LONGEST_LINE: usize = 65_536;

const LF: u8 = b'\n';

const CR: u8 = b'\r';

/// The answer of a call for the next line.
#[derive(Clone, Copy, Debug, PartialEq, Eq)]
pub enum Line {
    /// A line, which `Lines::text` shows until the next call.
    Text,
    /// A line of `size` bytes, more than `LONGEST_LINE`, which was taken up to its end.
    Long { size: u64 },
    /// The source's end was met, and nothing is left to answer.
    End,
}

/// The reason why a call for the next line answers no line.
#[derive(Clone, Copy, Debug, PartialEq, Eq, Error)]
pub enum LineFault {
    /// The source failed before the limit was reached, and no whole line is left to answer. Nothing is lost: the call
    /// can be made again.
    #[error("the source failed")]
    Source,
    /// The limit of bytes was taken, the end was not met, and no whole line is left to answer.
    #[error("the input is too long")]
    TooLong,
}

/// The lines of a source, one after the other. A line ends at LF, and one CR directly before the LF is
/// dropped. A last line without LF is a line, and keeps its CR. All memory is taken at the start.
#[derive(Drop)]
pub struct Lines {
    buffer: Buffer,
    // The first `scanned` bytes of the buffer hold no LF.
    scanned: usize,
    // The number of bytes that were dropped from the line under way, which is then too long.
    dropped: u64,
    taken: u64,
    limit: u64,
    // Whether the source has ended. Nothing more is taken then, and clauses on its rest ask that it is empty.
    ended: bool,
}

impl Model for Lines {
    ghost use Rattle.std.specs.Prelude.{◌≤◌, ◌<◌, ◌+◌, length, take};
    ghost use Rattle.io_edge.specs.Lines.{Reading};
    ghost use Rattle.io_edge.specs.Cut.{HasNoLf};
    ghost use Rattle.io_edge.specs.declared.lines.TheConstants.{LONGEST_LINE};

    ghost Value = { Reading };

    ghost view = { λ s. record {
      pending = s.buffer.bytes;
      dropped = s.dropped;
      taken = s.taken;
      limit = s.limit;
      ended = s.ended;
      text = s.buffer.text;
    } };

    ghost invariant = { λ s. record {
      scanned : s.scanned ≤ length s.buffer.bytes;
      none : HasNoLf (take s.scanned s.buffer.bytes);
      pending : s.dropped + length s.buffer.bytes ≤ s.taken;
      limit : s.taken ≤ s.limit;
      front : 0 < s.dropped → LONGEST_LINE < s.dropped;
      rest : 0 < s.dropped → 0 < length s.buffer.bytes;
    } };
}

impl Lines {
    /// The lines of a source of which at most `limit` bytes are taken. All its memory, a block of 128 KiB, is taken
    /// here; it fails only if memory runs out.
    pub fn new(alloc: Global, limit: u64) -> Result<Lines, AllocError>
        ensures { IfOk result (λ lines. lines ≡ record {
          pending = [];
          dropped = 0;
          taken = 0;
          limit = limit;
          ended = false;
          text = [];
        }) }
    {
        let buffer = Buffer::new(alloc)?;
        Ok(Lines {
            buffer,
            scanned: 0,
            dropped: 0,
            taken: 0,
            limit,
            ended: false,
        })
    }

    /// The text of the line that the last call answered. It is empty if that call answered no text.
    pub fn text(&self) -> &[u8]
        ensures { result.now ≡ self.now.text }
    {
        self.buffer.text()
    }

    /// Answers the next line of a source, and takes bytes of it if no whole line is left to answer. It takes no memory.
    /// All calls are to be given one source, whose end stays its end.
    pub fn next_line<S: Source>(&mut self, source: &mut S) -> Result<Line, LineFault>
        // The bytes that were taken, and that the answer is right, however the input goes on.
        ensures bytes { (got : List ℕ) × Leaves (S.left source.old) got (S.left source.new)
            × Counts self.old got self.new × Answers result self.old got self.new }

        // As above, if the bytes left in the source are known, and no byte is left once its end was met.
        ensures told { (l l' : List ℕ) → S.left source.old ≡ Some l → S.left source.new ≡ Some l'
            → (IsTrue self.old.ended → l ≡ []) → Told result self.old self.new l l' }
        ensures met { (l l' : List ℕ) → S.left source.old ≡ Some l → S.left source.new ≡ Some l'
            → (IsTrue self.old.ended → l ≡ []) → IsTrue self.new.ended → l' ≡ [] }

        ensures progress { done_bytes self.old ≤ done_bytes self.new }
        ensures rises { OnLine result (done_bytes self.old < done_bytes self.new) }

        ensures text { OnText result (length self.new.text ≤ LONGEST_LINE) }
        ensures no_text { OnNoText result (self.new.text ≡ []) }

        ensures source_fault { result ≡ Err LineFault.Source
            → Rose (S.faults source.old) (S.faults source.new) }
        ensures below_limit { result ≡ Err LineFault.Source → self.new.taken < self.new.limit }
        ensures too_long { result ≡ Err LineFault.TooLong → IsAtLimit self.new }
        ensures at_limit { IsAtLimit self.old → result ≡ Err LineFault.TooLong }
        ensures awaits { OnErr result (AwaitsBytes self.new) }
        ensures end { result ≡ Ok Line.End → IsFinished self.new }
        ensures finished { IsFinished self.old → result ≡ Ok Line.End }

        ensures ended { IsTrue self.old.ended → IsTrue self.new.ended }
        ensures count { S.faults source.old ≤ S.faults source.new }
        ensures untouched { CanAnswer self.old → source.new ≡ source.old }
    {
        loop {
            if let Some(answer) = self.held_answer() {
                return answer;
            }
            self.take_piece(source)?;
        }
    }

    // The place of the first LF of the pending bytes. The text is gone.
    fn line_end(&mut self) -> Option<usize>
        ensures same { self.new ≡ record self.old { text = [] } }
        ensures none { IfNone result (HasNoLf self.old.pending) }
        ensures some { IfSome result (EndsAt self.old.pending) }
        ensures sound { IsSound self.old }
    {
        self.buffer.cut(0, 0);
        let bytes = self.buffer.bytes();
        match first_line_end(bytes, self.scanned) {
            Some(at) => {
                self.scanned = at;
                Some(at)
            }
            None => {
                self.scanned = bytes.len();
                None
            }
        }
    }

    // Answers the first `len` pending bytes, a line whose text is the first `text_len` of them.
    fn answer(&mut self, text_len: usize, len: usize) -> Line
        requires text { text_len ≤ len }
        requires within { len ≤ length self.old.pending }
        ensures line { result ≡ front_line self.old text_len }
        ensures after { self.new ≡ behind_line self.old text_len len }
    {
        let size = self.dropped + text_len as u64;
        self.dropped = 0;
        self.scanned = 0;
        if size > LONGEST_LINE as u64 {
            self.buffer.cut(0, len);
            return Line::Long { size };
        }
        self.buffer.cut(text_len, len);
        Line::Text
    }

    // Answers a whole line of the pending bytes. If there is none, the text is gone.
    fn whole_line(&mut self) -> Option<Line>
        ensures some { IfSome result (λ line. CutsLine line self.old self.new) }
        ensures none { IfNone result (HasNoLf self.old.pending) }
        ensures line { IfNone result (¬ HasWholeLine self.old) }
        ensures same { IfNone result (self.new ≡ record self.old { text = [] }) }
        ensures sound { IsSound self.old }
    {
        if let Some(at) = self.line_end() {
            let text_len = text_of(&self.buffer.bytes()[..at]).len();
            return Some(self.answer(text_len, at + 1));
        }
        let len = self.buffer.bytes().len();
        if self.ended && len > 0 {
            return Some(self.answer(len, len));
        }
        None
    }

    // Answers without more bytes if that is possible. If not, the text is gone.
    fn held_answer(&mut self) -> Option<Result<Line, LineFault>>
        ensures some { IfSome result (λ answer. AnswersHeld answer self.old self.new) }
        ensures none { IfNone result (NeedsMore self.old) }
        ensures same { IfNone result (self.new ≡ record self.old { text = [] }) }
        ensures sound { IsSound self.old }
    {
        if let Some(line) = self.whole_line() {
            return Some(Ok(line));
        }
        if self.ended {
            return Some(Ok(Line::End));
        }
        if self.taken == self.limit {
            return Some(Err(LineFault::TooLong));
        }
        None
    }

    // Drops the pending bytes but the last, if their line is too long whatever follows.
    fn drop_front(&mut self)
        requires { HasNoLf self.old.pending }
        ensures lines { (rest : List ℕ) → lines_left self.new rest ≡ lines_left self.old rest }
        ensures none { HasNoLf self.new.pending }
        ensures short { length self.new.pending ≤ LONGEST_LINE + 1 }
        ensures taken { self.new.taken ≡ self.old.taken }
        ensures limit { self.new.limit ≡ self.old.limit }
        ensures ended { self.new.ended ≡ self.old.ended }
        ensures progress { done_bytes self.old ≤ done_bytes self.new }
    {
        let len = self.buffer.bytes().len();
        if len > 1 && (self.dropped > 0 || len > LONGEST_LINE + 1) {
            self.buffer.cut(0, len - 1);
            self.dropped += len as u64 - 1;
            self.scanned = 0;
        }
    }

    // Takes the next bytes of the source, at most as the limit and the room of the buffer allow, or meets the source's
    // end.
    fn take_piece<S: Source>(&mut self, source: &mut S) -> Result<(), LineFault>
        requires none { HasNoLf self.old.pending }
        requires not_ended { self.old.ended ≡ false }
        requires below { self.old.taken < self.old.limit }

        ensures reads { Reads self.old self.new (S.left source.old) (S.left source.new) }
        ensures goes { OnOk result ((self.old.taken < self.new.taken) ⊎ IsTrue self.new.ended) }
        ensures end { IsTrue self.new.ended → IsEndOf (S.left source.old) (S.left source.new) }

        ensures fault { IfErr result (λ fault. fault ≡ LineFault.Source) }
        ensures rose { OnErr result (Rose (S.faults source.old) (S.faults source.new)) }
        ensures below { OnErr result (self.new.taken < self.new.limit) }
        ensures not_ended { OnErr result (self.new.ended ≡ false) }
        ensures none { OnErr result (HasNoLf self.new.pending) }
        ensures text { self.new.text ≡ [] }

        ensures count { S.faults source.old ≤ S.faults source.new }
    {
        self.drop_front();
        let answer = self.buffer.fill(source, self.limit - self.taken);
        self.taken += answer.number() as u64;
        match answer {
            Take::Failed => return Err(LineFault::Source),
            Take::End => self.ended = true,
            Take::Bytes(_) => {}
        }
        Ok(())
    }
}

// The place of the first LF, if none is before `from`.
fn first_line_end(bytes: &[u8], from: usize) -> Option<usize>
    requires within { from ≤ length bytes.now }
    requires scanned { HasNoLf (take from bytes.now) }
    ensures none { IfNone result (HasNoLf bytes.now) }
    ensures some { IfSome result (EndsAt bytes.now) }
{
    let at = first_lf(&bytes[from..])?;
    Some(from + at)
}

// The place of the first LF.
fn first_lf(bytes: &[u8]) -> Option<usize>
    ensures { result ≡ position (λ b. b == LF) bytes.now }
{
    bytes.iter().position(|b| *b == LF)
}

// A line's text: the line without the one CR at its end, if there is one.
fn text_of(line: &[u8]) -> &[u8]
    ensures text { result.now ≡ without_cr line.now }
    ensures short { length result.now ≤ length line.now }
{
    match line.split_last() {
        Some((last, text)) if *last == CR => text,
        _ => line,
    }
}
