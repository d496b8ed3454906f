//! A source and a sink in memory, which fail at set calls.
ghost use Rattle.std.specs.Prelude.{◌≡◌, ◌<◌, ◌≤◌, ◌++◌, ◌^◌, Some, [], OnOk, length, min, take, drop};
ghost use Rattle.std.specs.Io.KnownBytes.{IsAtEnd, Appends};
ghost use Rattle.io_edge.specs.Faults.{Rose};
ghost use Rattle.io_edge.specs.Source as feed;
ghost use Rattle.io_edge.specs.Sink as store;

use crate::sinks::{PutFault, Sink};
use crate::sources::{Source, Take};
use std::alloc::Global;
use std::marker::Model;

/// Bytes in memory, given piece by piece. Takes fail if their number was set to fail.
#[derive(Drop)]
pub struct MemSource {
    bytes: Vec<u8>,
    at: usize,
    piece: usize,
    fails: Vec<u64>,
    takes: u64,
    faults: u64,
}

impl Model for MemSource {
    ghost use Rattle.std.specs.Prelude.{◌≤◌, drop, length};
    ghost use Rattle.io_edge.specs.Source.{Feed};

    ghost Value = { Feed };

    ghost view = { λ s. record {
      left = drop s.at s.bytes.items;
      piece = s.piece;
      fails = s.fails.items;
      takes = s.takes;
      faults = s.faults;
    } };

    ghost invariant = { λ s. (s.at ≤ length s.bytes.items) × (1 ≤ s.piece) };
}

impl MemSource {
    /// A source of these bytes that gives at most `piece` of them per take. The takes whose numbers, counted from 0,
    /// are in `fails` fail. (All takes from number 2^64 - 1 on share that number.)
    pub fn new(bytes: Vec<u8>, piece: usize, fails: Vec<u64>) -> MemSource
        requires { 1 ≤ piece }
        ensures { result ≡ record { left = bytes.items; piece = piece; fails = fails.items; takes = 0; faults = 0 } }
    {
        MemSource {
            bytes,
            at: 0,
            piece,
            fails,
            takes: 0,
            faults: 0,
        }
    }
}

impl Source for MemSource {
    ghost left = { λ s. Some s.left };

    ghost faults = { λ s. s.faults };

    /// Moves the next bytes, at most one piece, and at most the room.
    fn take(&mut self, room: &mut [u8]) -> Take
        requires { 0 < length room.old }

        ensures number { feed.IfBytes result (λ n. (0 < n) × (n ≤ length room.old)) }
        ensures moved { feed.IfBytes result (λ n. feed.Leaves (Some self.old.left)
            (take n room.new) (Some self.new.left)) }
        ensures behind { feed.IfBytes result (λ n. drop n room.new ≡ drop n room.old) }
        ensures end { feed.OnEnd result (IsAtEnd (Some self.old.left)) }
        ensures at_end { feed.OnEnd result (feed.Leaves (Some self.old.left) [] (Some self.new.left)) }
        ensures failed { feed.OnFailed result (Rose self.old.faults self.new.faults) }
        ensures unchanged { feed.OnFailed result (feed.Leaves (Some self.old.left) [] (Some self.new.left)) }
        ensures count { self.old.faults ≤ self.new.faults }
        ensures held { self.new.faults < 2 ^ 64 }

        // The exact answer, and the source after it.
        ensures answer { result ≡ feed.answer_of self.old (length room.old) }
        ensures after { self.new ≡ feed.after_take self.old result }
    {
        let number = self.takes;
        self.takes = number.saturating_add(1);
        if self.fails.contains(&number) {
            self.faults = self.faults.saturating_add(1);
            return Take::Failed;
        }
        let left = &self.bytes[self.at..];
        if left.is_empty() {
            return Take::End;
        }
        let count = copy_front(left, self.piece, room);
        self.at += count;
        Take::Bytes(count)
    }
}

// Copies at most `most` bytes into the front of the room, and returns their number.
fn copy_front(bytes: &[u8], most: usize, room: &mut [u8]) -> usize
    ensures count { result ≡ min (min most (length room.old)) (length bytes.now) }
    ensures front { bytes.now ≡ take result room.new ++ drop result bytes.now }
    ensures behind { drop result room.new ≡ drop result room.old }
{
    let count = most.min(room.len()).min(bytes.len());
    room[..count].copy_from_slice(&bytes[..count]);
    count
}

/// Bytes in memory, one put after the other. Puts fail if their number was set to fail.
#[derive(Drop)]
pub struct MemSink {
    bytes: Vec<u8>,
    fails: Vec<u64>,
    puts: u64,
    faults: u64,
}

impl Model for MemSink {
    ghost use Rattle.std.specs.Prelude.{◌<◌, ◌^◌};
    ghost use Rattle.io_edge.specs.Sink.{Store};

    ghost Value = { Store };

    ghost view = { λ s. record { bytes = s.bytes.items; fails = s.fails.items; puts = s.puts; faults = s.faults } };

    ghost invariant = { λ s. s.faults < 2 ^ 64 };
}

impl MemSink {
    /// A sink with nothing in it. The puts whose numbers, counted from 0, are in `fails` append nothing and fail. (The
    /// numbers end at 2^64 - 1, which all later puts have.)
    pub fn new(alloc: Global, fails: Vec<u64>) -> MemSink
        ensures { result ≡ record { bytes = []; fails = fails.items; puts = 0; faults = 0 } }
    {
        MemSink {
            bytes: Vec::new(alloc),
            fails,
            puts: 0,
            faults: 0,
        }
    }

    /// The bytes that were put.
    pub fn bytes(&self) -> &[u8]
        ensures { result.now ≡ self.now.bytes }
    {
        self.bytes.as_slice()
    }
}

impl Sink for MemSink {
    ghost written = { λ s. Some s.bytes };

    ghost faults = { λ s. s.faults };

    /// Puts all of `bytes`, or nothing.
    fn put(&mut self, bytes: &[u8]) -> Result<(), PutFault>
        ensures ok { OnOk result (Appends (Some self.old.bytes) (Some self.new.bytes) bytes.now) }
        ensures failed { store.OnFailed result (Rose self.old.faults self.new.faults) }
        ensures part { store.OnFailed result
            (store.AppendsPrefix (Some self.old.bytes) (Some self.new.bytes) bytes.now) }
        ensures no_memory { store.OnNoMemory result (Appends (Some self.old.bytes) (Some self.new.bytes) []) }
        ensures count { self.old.faults ≤ self.new.faults }
        ensures held { self.new.faults < 2 ^ 64 }

        // It fails exactly if its number was set to fail, and exactly this is left.
        ensures exactly { store.is_failed result ≡ store.next_fails self.old }
        ensures after { self.new ≡ store.after_put self.old bytes.now result }
    {
        let number = self.puts;
        self.puts = number.saturating_add(1);
        if self.fails.contains(&number) {
            self.faults = self.faults.saturating_add(1);
            return Err(PutFault::Failed);
        }
        self.bytes.extend_from_slice(bytes)?;
        Ok(())
    }
}
