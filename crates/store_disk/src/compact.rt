//! One step of a compaction: a copy starts, goes on, or takes the place of the disk that is read.

ghost use Rattle.std.specs.Prelude.{◌≡◌, ◌≤◌, ◌-◌, false, IfSome, IsSomeAnd, None, OnOk, option_map, Some, true};
ghost use Rattle.disk_pair.specs.Gives.{CurrentStays, PairGoes};
ghost use Rattle.disk_pair.specs.Term.{Goes, disk_a, disk_b};
ghost use Rattle.store_core.specs.Calls.{Calls, is_compact_worn};
ghost use Rattle.store_core.specs.Replies.{compact_calls};
ghost use Rattle.store_core.specs.States.{GoOn};
ghost use Rattle.store_machine.specs.declared.machine.State.{State};
ghost use Rattle.store_disk.specs.Copies.{copy_of};
ghost use Rattle.store_disk.specs.Faults.{copy_fault};
ghost use Rattle.store_disk.specs.Items.{ItemGives, left, of_parts};
ghost use Rattle.store_disk.specs.OnDisk.{IsReady, StandsFor};
ghost use Rattle.store_disk.specs.Stored.{Stretches};

use crate::below::laws;
use crate::copy::Copying;
use crate::item::put_next;
use crate::store::Store;
use disk_edge::Disk;
use disk_pair::{Pair, PutFault};
use std::alloc::Global;
use store_core::{Compact, CompactFault, States, Store as Memory};
use store_machine::{ITEMS_A_STEP, LAST_GENERATION, rebases_keep, runs_stay_sound};

// The bytes of a base record's payload beside its text: its kind, identifier, version and format.
const BESIDE_TEXT: usize = 10;

impl<D: Disk + Drop> Store<D> {
    /// The version of the copy that runs, if one runs.
    pub(crate) fn copied(&self) -> Option<u32>
        ensures { result ≡ option_map (λ c. c.version) self.now.copy }
    {
        Some(self.copy.as_ref()?.version)
    }

    /// How many items it lacks.
    pub(crate) fn left(&self) -> Option<u32>
        ensures { result ≡ option_map left self.now.copy }
    {
        Some(self.copy.as_ref()?.left())
    }

    /// Starts a copy at the head, unless no generation is left.
    pub(crate) fn start(&mut self) -> Result<Compact, CompactFault>
        requires { self.old.copy ≡ None }
        ensures call { (s : State) → StandsFor D.model self.old s
            → Calls (Stretches D.model) (λ _. true) self.old self.new s (compact_calls result) }
        ensures worn { is_compact_worn result ≡ false }
        ensures memory { self.new.memory ≡ self.old.memory }
        ensures a { Goes D.model (disk_a self.old.pair) (disk_a self.new.pair) }
        ensures b { Goes D.model (disk_b self.old.pair) (disk_b self.new.pair) }
    {
        laws(&self.pair);
        if self.pair.header().generation == LAST_GENERATION {
            return Err(CompactFault::Last);
        }
        let version = self.memory.version();
        let left = self.memory.states();
        match self.pair.start_copy(version, left) {
            Ok(()) => {
                self.copy = Some(Copying::new(self.alloc, version, left));
                Ok(Compact::More { left })
            }
            Err(fault) => Err(copy_fault(fault)),
        }
    }

    /// Adds the next of the items that the copy lacks, as many as a step does, or all where fewer are left.
    pub(crate) fn go_on(&mut self, items: u32) -> Result<Compact, CompactFault>
        requires some { 1 ≤ items }
        requires left { option_map left self.old.copy ≡ Some items }
        ensures call { (s : State) → StandsFor D.model self.old s
            → Calls (Stretches D.model) (λ _. true) self.old self.new s (compact_calls result) }
        ensures worn { is_compact_worn result ≡ false }
        ensures memory { self.new.memory ≡ self.old.memory }
        ensures a { Goes D.model (disk_a self.old.pair) (disk_a self.new.pair) }
        ensures b { Goes D.model (disk_b self.old.pair) (disk_b self.new.pair) }
    {
        go_on(
            self.alloc,
            &self.memory,
            &mut self.pair,
            &mut self.copy,
            items,
        )
    }

    /// The copy that runs, which lacks nothing, takes the place of the disk that is read. If the disk fails, it is
    /// given up.
    pub(crate) fn finish(&mut self) -> Result<Compact, CompactFault>
        requires { IsSomeAnd self.old.copy (λ c. left c ≡ 0) }
        ensures call { (s : State) → StandsFor D.model self.old s
            → Calls (Stretches D.model) (λ _. true) self.old self.new s (compact_calls result) }
        ensures worn { is_compact_worn result ≡ false }
        ensures memory { self.new.memory ≡ self.old.memory }
        ensures a { Goes D.model (disk_a self.old.pair) (disk_a self.new.pair) }
        ensures b { Goes D.model (disk_b self.old.pair) (disk_b self.new.pair) }
    {
        laws(&self.pair);
        match self.pair.finish() {
            Ok(()) => {
                self.copy = None;
                let generation = self.pair.header().generation;
                Ok(Compact::Done { generation })
            }
            Err(PutFault::DiskFault { doubt }) => {
                self.copy = None;
                Err(CompactFault::DiskFault { doubt })
            }
            Err(PutFault::NoMemory) => Err(CompactFault::NoMemory),
        }
    }
}

// As `Store::go_on`, of the parts of a store.
fn go_on<D: Disk + Drop>(
    alloc: Global,
    memory: &Memory,
    pair: &mut Pair<D>,
    copy: &mut Option<Copying>,
    items: u32,
) -> Result<Compact, CompactFault>
    requires some { 1 ≤ items }
    requires left { option_map left (option_map copy_of copy.old) ≡ Some items }
    requires ready { IsReady memory.now pair.old (option_map copy_of copy.old) }

    ensures call { (s : State) → StandsFor D.model (of_parts memory.now pair.old copy.old) s
        → Calls (Stretches D.model) (λ _. true) (of_parts memory.now pair.old copy.old)
        (of_parts memory.now pair.new copy.new) s (compact_calls result) }
    ensures worn { is_compact_worn result ≡ false }
    ensures ready { IsReady memory.now pair.new (option_map copy_of copy.new) }
    ensures a { Goes D.model (disk_a pair.old) (disk_a pair.new) }
    ensures b { Goes D.model (disk_b pair.old) (disk_b pair.new) }
{
    runs_stay_sound();
    rebases_keep();
    let step = items.min(ITEMS_A_STEP);
    let (version, from, left) = place(copy);
    let mut payload = room(alloc, memory.longest_text(from, version, step.min(left)));
    let mut states = memory.states_at(from, version);
    for _ in 0..step {
        match put_item(pair, copy, &mut states, &mut payload) {
            Ok(()) => {}
            Err(fault) => return Err(copy_fault(fault)),
        }
    }
    Ok(Compact::More { left: items - step })
}

// The version of a copy, the identifier from which its next state is sought, and the number of states that it lacks.
fn place(copy: &Option<Copying>) -> (u32, u32, u32)
    ensures { IfSome copy.now (λ c. (result.0 ≡ c.version) × (result.1 ≡ c.from)) }
{
    match copy {
        Some(copy) => (copy.version, copy.from, copy.states),
        None => (0, 0, 0),
    }
}

// Memory for payloads with texts up to this length. If there is none, each payload takes its own.
fn room(alloc: Global, longest: usize) -> Vec<u8> {
    let mut payload = Vec::new(alloc);
    let _ = payload.reserve(longest.saturating_add(BESIDE_TEXT));
    payload
}

// Adds the next item to the copy that runs. If the disk fails, the copy is given up.
fn put_item<D: Disk + Drop>(
    pair: &mut Pair<D>,
    copy: &mut Option<Copying>,
    states: &mut States<'_>,
    payload: &mut Vec<u8>,
) -> Result<(), PutFault>
    requires some { IsSomeAnd (option_map copy_of copy.old) (λ c. 1 ≤ left c) }
    requires ready { IsReady states.old.store pair.old (option_map copy_of copy.old) }
    requires states { IfSome copy.old (λ c. GoOn c.version c.from states.old) }

    ensures gives { (s : State) → StandsFor D.model (of_parts states.old.store pair.old copy.old) s
        → ItemGives D.model result (of_parts states.old.store pair.new copy.new) s }
    ensures left { OnOk result (option_map left (option_map copy_of copy.new)
        ≡ option_map (λ c. left c - 1) (option_map copy_of copy.old)) }
    ensures ready { IsReady states.old.store pair.new (option_map copy_of copy.new) }
    ensures current { CurrentStays D.model pair.old pair.new }
    ensures goes { PairGoes D.model result pair.old pair.new }
    ensures states { OnOk result (IfSome copy.new (λ c. GoOn c.version c.from states.new)) }
    ensures store { states.new.store ≡ states.old.store }
{
    laws(pair);
    let Some(running) = copy else { unreachable!() };
    match put_next(pair, running, states, payload) {
        Ok(()) => Ok(()),
        Err(PutFault::DiskFault { doubt }) => {
            *copy = None;
            Err(PutFault::DiskFault { doubt })
        }
        Err(PutFault::NoMemory) => Err(PutFault::NoMemory),
    }
}

// Why a copy was not started or does not go on. No crash shows it.
fn copy_fault(fault: PutFault) -> CompactFault
    ensures { result ≡ copy_fault fault }
{
    match fault {
        PutFault::DiskFault { .. } => CompactFault::DiskFault { doubt: false },
        PutFault::NoMemory => CompactFault::NoMemory,
    }
}
