//! The bytes that were taken from a source and not answered, between two places in one block of fixed length. They are
//! moved to its front only if no room is after them. So a byte is moved at most twice, if at most half of the block is
//! ever held back.
ghost use Rattle.std.specs.Prelude.{◌≡◌, ◌<◌, ◌≤◌, ◌+◌, ◌-◌, [], length, take, drop, IfOk, vec_len};
ghost use Rattle.std.specs.Io.KnownBytes.{IsAtEnd};
ghost use Rattle.io_edge.specs.Faults.{Rose};
ghost use Rattle.std.specs.List.{between};
ghost use Rattle.io_edge.specs.Source.{Leaves, number_of, IfBytes, OnEnd, OnFailed};
ghost use Rattle.io_edge.specs.Buffer.{Gains};

use crate::sources::{Source, Take};
use std::alloc::{AllocError, Global};
use std::marker::Model;

/// The length of the block.
pub(crate) const CAPACITY: usize = 128 * 1024;

/// Bytes that were taken, and the text that was cut off them last.
#[derive(Drop)]
pub(crate) struct Buffer {
    block: Vec<u8>,
    text_start: usize,
    text_end: usize,
    start: usize,
    end: usize,
}

impl Model for Buffer {
    ghost use Rattle.std.specs.Prelude.{◌≡◌, ◌≤◌, length};
    ghost use Rattle.std.specs.List.{between};
    ghost use Rattle.io_edge.specs.Buffer.{Held};
    ghost use Rattle.io_edge.specs.declared.buffer.TheConstants.{CAPACITY};

    ghost Value = { Held };

    ghost view = { λ b. record {
      text = between b.text_start b.text_end b.block.items;
      bytes = between b.start b.end b.block.items;
    } };

    ghost invariant = { λ b. (length b.block.items ≡ CAPACITY)
        × (b.text_start ≤ b.text_end) × (b.text_end ≤ CAPACITY) × (b.start ≤ b.end) × (b.end ≤ CAPACITY) };
}

impl Buffer {
    /// A buffer that holds nothing. It takes all its memory here.
    pub(crate) fn new(alloc: Global) -> Result<Buffer, AllocError>
        ensures { IfOk result (λ buffer. buffer ≡ record { text = []; bytes = [] }) }
    {
        let block = zeros(alloc, CAPACITY)?;
        Ok(Buffer {
            block,
            text_start: 0,
            text_end: 0,
            start: 0,
            end: 0,
        })
    }

    /// The bytes that are held.
    pub(crate) fn bytes(&self) -> &[u8]
        ensures bytes { result.now ≡ self.now.bytes }
        ensures fits { length self.now.bytes ≤ CAPACITY }
    {
        &self.block[self.start..self.end]
    }

    /// The text that was cut off last.
    pub(crate) fn text(&self) -> &[u8]
        ensures { result.now ≡ self.now.text }
    {
        &self.block[self.text_start..self.text_end]
    }

    /// Cuts off the first `len` bytes. Their first `text_len` are the text from now on.
    pub(crate) fn cut(&mut self, text_len: usize, len: usize)
        requires text { text_len ≤ len }
        requires within { len ≤ length self.old.bytes }
        ensures text { self.new.text ≡ take text_len self.old.bytes }
        ensures bytes { self.new.bytes ≡ drop len self.old.bytes }
    {
        self.text_start = self.start;
        self.text_end = self.start + text_len;
        self.start += len;
    }

    /// Takes the next bytes of the source, at most `most`, and adds them after the held bytes. The text is gone.
    pub(crate) fn fill<S: Source>(&mut self, source: &mut S, most: u64) -> Take
        requires some { 0 < most }
        requires room { length self.old.bytes < CAPACITY }

        ensures some { IfBytes result (λ n. 0 < n) }
        ensures few { number_of result ≤ most }
        ensures gained { Gains self.old.bytes self.new.bytes (number_of result)
            (S.left source.old) (S.left source.new) }
        ensures text { self.new.text ≡ [] }
        ensures end { OnEnd result (IsAtEnd (S.left source.old)) }
        ensures failed { OnFailed result (Rose (S.faults source.old) (S.faults source.new)) }
        ensures count { S.faults source.old ≤ S.faults source.new }
    {
        let (start, end) = with_room(&mut self.block, self.start, self.end);
        let room = most.min((CAPACITY - end) as u64) as usize;
        let answer = take_at(source, &mut self.block, end, room);
        self.text_start = 0;
        self.text_end = 0;
        self.start = start;
        self.end = end + answer.number();
        answer
    }
}

// Moves the bytes of a block from `start` to `end` to its front, if no room is after them. Returns their new start and
// end.
fn with_room(block: &mut [u8], start: usize, end: usize) -> (usize, usize)
    requires order { start ≤ end }
    requires within { end ≤ length block.old }
    requires room { end - start < length block.old }
    ensures len { length block.new ≡ length block.old }
    ensures same { between result.0 result.1 block.new ≡ between start end block.old }
    ensures order { result.0 ≤ result.1 }
    ensures room { result.1 < length block.new }
{
    if start == end {
        return (0, 0);
    }
    if end < block.len() {
        return (start, end);
    }
    block.copy_within(start..end, 0);
    (0, end - start)
}

// Takes the next bytes of a source, at most `most`, to the place `at` of the block.
fn take_at<S: Source>(source: &mut S, block: &mut [u8], at: usize, most: usize) -> Take
    requires some { 0 < most }
    requires room { at + most ≤ length block.old }

    ensures some { IfBytes result (λ n. 0 < n) }
    ensures few { number_of result ≤ most }
    ensures moved { Leaves (S.left source.old) (take (number_of result) (drop at block.new)) (S.left source.new) }
    ensures before { take at block.new ≡ take at block.old }
    ensures end { OnEnd result (IsAtEnd (S.left source.old)) }
    ensures failed { OnFailed result (Rose (S.faults source.old) (S.faults source.new)) }
    ensures count { S.faults source.old ≤ S.faults source.new }
{
    source.take(&mut block[at..at + most])
}

// `len` zeros.
fn zeros(alloc: Global, len: usize) -> Result<Vec<u8>, AllocError>
    ensures { IfOk result (λ v. vec_len v ≡ len) }
{
    vec![in alloc; 0; len]
}
