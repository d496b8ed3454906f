//! The edge to the system: std's readers and writers.
ghost use Rattle.std.specs.Prelude.{◌≡◌, ◌<◌, ◌^◌};
ghost use Rattle.std.specs.Bool.{OnTrue, OnFalse};
ghost use Rattle.std.specs.Io.{ReadsAtMost, WritesAtMost};
ghost use Rattle.std.specs.Io.KnownBytes.{Appends, Keeps, ReadConsumes, WriteAppends};
ghost use Rattle.io_edge.specs.Sink.{AppendsPrefix};

use crate::sinks::{PutFault, Sink};
use crate::sources::{Source, Take};
use std::io;
use std::io::{ErrorKind, Read, Write};

// The greatest number of bytes that are read at once.
const PIECE: usize = 16 * 1024;

// The number of times that a call is made again after signals interrupted it.
const TRIES: u32 = 1_000_000;

/// A reader of std as a source. Each error of the reader is a fault, but an interrupted call is made again. Contracts
/// know the bytes left only of a reader whose bytes std's clauses know; not of a file or a terminal.
#[derive(Drop)]
pub struct StdSource<R> {
    reader: R,
    faults: u64,
    ghost held: { faults < 2 ^ 64 },
}

impl<R: Read + Drop> StdSource<R> {
    /// A source over this reader, with no fault yet.
    pub fn new(reader: R) -> StdSource<R>
        ensures left { ⟦<StdSource<R> as Source>⟧.left result ≡ R.remaining reader }
        ensures faults { ⟦<StdSource<R> as Source>⟧.faults result ≡ 0 }
    {
        StdSource { reader, faults: 0 }
    }
}

impl<R: Read + Drop> Source for StdSource<R> {
    ghost left = { λ s. R.remaining s.reader };

    ghost faults = { λ s. s.faults };

    /// Reads once, and goes on after an interrupted call. An error counts as a fault, and the answer is `Failed`.
    fn take(&mut self, room: &mut [u8]) -> Take {
        let mut piece = [0u8; PIECE];
        let most = room.len().min(PIECE);
        match read_on(&mut self.reader, &mut piece[..most]) {
            Ok(0) => Take::End,
            Ok(n) => {
                room[..n].copy_from_slice(&piece[..n]);
                Take::Bytes(n)
            }
            Err(_) => {
                self.faults = self.faults.saturating_add(1);
                Take::Failed
            }
        }
    }
}

/// A writer of std as a sink. Each error of the writer is a fault, but an interrupted call is made again. So is a write
/// that takes nothing of a piece that is not empty. Contracts know the bytes written only of a writer whose bytes std's
/// clauses know; not of a file or a terminal.
#[derive(Drop)]
pub struct StdSink<W> {
    writer: W,
    faults: u64,
    ghost held: { faults < 2 ^ 64 },
}

impl<W: Write + Drop> StdSink<W> {
    /// A sink over this writer, with no fault yet.
    pub fn new(writer: W) -> StdSink<W>
        ensures written { ⟦<StdSink<W> as Sink>⟧.written result ≡ W.contents writer }
        ensures faults { ⟦<StdSink<W> as Sink>⟧.faults result ≡ 0 }
    {
        StdSink { writer, faults: 0 }
    }
}

impl<W: Write + Drop> Sink for StdSink<W> {
    ghost written = { λ s. W.contents s.writer };

    ghost faults = { λ s. s.faults };

    /// Writes all of `bytes` and flushes, so that they are out at `Ok`.
    fn put(&mut self, bytes: &[u8]) -> Result<(), PutFault> {
        if write_whole(&mut self.writer, bytes) {
            return Ok(());
        }
        self.faults = self.faults.saturating_add(1);
        Err(PutFault::Failed)
    }
}

// Writes all of `bytes` and flushes. It answers whether that succeeded.
fn write_whole<W: Write>(writer: &mut W, bytes: &[u8]) -> bool
    ensures whole { OnTrue result (Appends (W.contents writer.old) (W.contents writer.new) bytes.now) }
    ensures part { OnFalse result (AppendsPrefix (W.contents writer.old) (W.contents writer.new) bytes.now) }
{
    let mut rest = bytes;
    while !rest.is_empty() {
        match write_on(writer, rest) {
            Ok(n) if n > 0 => rest = &rest[n..],
            _ => return false,
        }
    }
    flush_on(writer).is_ok()
}

// Reads once, and again after each call that was interrupted.
fn read_on<R: Read>(reader: &mut R, room: &mut [u8]) -> io::Result<usize>
    ensures bound { ReadsAtMost result room.new }
    ensures bytes { ReadConsumes (R.remaining reader.old) (R.remaining reader.new) result room.new }
{
    for _ in 0..TRIES {
        match reader.read(room) {
            Err(e) if e.kind() == ErrorKind::Interrupted => {}
            given => return given,
        }
    }
    reader.read(room)
}

// Writes once, and again after each call that was interrupted.
fn write_on<W: Write>(writer: &mut W, bytes: &[u8]) -> io::Result<usize>
    ensures bound { WritesAtMost result bytes.now }
    ensures bytes { WriteAppends (W.contents writer.old) (W.contents writer.new) result bytes.now }
{
    for _ in 0..TRIES {
        match writer.write(bytes) {
            Err(e) if e.kind() == ErrorKind::Interrupted => {}
            given => return given,
        }
    }
    writer.write(bytes)
}

// Flushes, and again after each call that was interrupted.
fn flush_on<W: Write>(writer: &mut W) -> io::Result<()>
    ensures { Keeps (W.contents writer.old) (W.contents writer.new) }
{
    for _ in 0..TRIES {
        match writer.flush() {
            Err(e) if e.kind() == ErrorKind::Interrupted => {}
            given => return given,
        }
    }
    writer.flush()
}
