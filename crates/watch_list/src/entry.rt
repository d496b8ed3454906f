//! One watch.
ghost use Rattle.std.specs.Prelude.{◌≡◌, ◌≤◌, ◌<◌, OnOk, length, vec_capacity};
ghost use Rattle.std.specs.List.Sorted.{IsStrictlyIncreasing};
ghost use Rattle.smarts_parse.specs.Pattern.{pattern_of};
ghost use Rattle.smarts_parse.specs.Sound.{IsSoundPattern};
ghost use Rattle.watch_list.specs.Watches.{is_named, refilled};
ghost use Rattle.watch_list.specs.Notes.{IsNoted};
ghost use Rattle.watch_list.specs.Entries.{HasRoom};

use crate::hits::update;
use matcher::Scratch;
use mol_finish::one_structure;
use smarts_parse::Pattern;
use std::alloc::AllocError;
use std::marker::Model;
use store_core::Change;
use store_machine::{commits_change, snapshots_stay};

/// A pattern that is watched under a name, with its hits at a version, ascending, and the number of other lists that
/// were filled in. Contracts see the watch, and the number of hits for which there is room.
#[derive(Drop)]
pub struct Entry {
    name: Vec<u8>,
    pattern: Pattern,
    version: u32,
    hits: Vec<u32>,
    fills: u32,
}

impl Model for Entry {
    ghost use Rattle.std.specs.Prelude.{vec_capacity};
    ghost use Rattle.std.specs.Coded.{codes};
    ghost use Rattle.std.specs.List.Sorted.{IsStrictlyIncreasing};
    ghost use Rattle.smarts_parse.specs.Pattern.{pattern_of};
    ghost use Rattle.smarts_parse.specs.Sound.{IsSoundPattern};
    ghost use Rattle.smarts_parse.specs.contracts.pattern.Pattern as pattern_contract;
    ghost use Rattle.watch_list.specs.Watches.{Watch};
    ghost use Rattle.watch_list.specs.Entries.{EntryTerm};

    ghost Value = { EntryTerm };

    ghost coded = { Prim.hlevel (codes, pattern_contract.the_row.coded) };

    ghost view = { λ e. record {
      watch = record {
        name = e.name.items;
        pattern = e.pattern;
        version = e.version;
        hits = e.hits.items;
        fills = e.fills;
      };
      room = vec_capacity e.hits;
    } };

    ghost invariant = { λ e. IsSoundPattern (pattern_of e.pattern) × IsStrictlyIncreasing e.hits.items };
}

impl Entry {
    /// A watch whose list is its first. Takes no memory.
    pub fn new(name: Vec<u8>, pattern: Pattern, version: u32, hits: Vec<u32>) -> Entry
        requires sound { IsSoundPattern (pattern_of pattern) }
        requires ascending { IsStrictlyIncreasing hits.items }
        ensures { result.watch
            ≡ record { name = name.items; pattern = pattern; version = version; hits = hits.items; fills = 0 } }
    {
        Entry {
            name,
            pattern,
            version,
            hits,
            fills: 0,
        }
    }

    pub fn is_named(&self, name: &[u8]) -> bool
        ensures { result ≡ is_named name.now self.now.watch }
    {
        self.name.as_slice() == name
    }

    pub fn pattern(&self) -> &Pattern
        ensures pattern { result.now ≡ self.now.watch.pattern }
        ensures sound { IsSoundPattern (pattern_of result.now) }
    {
        &self.pattern
    }

    pub fn version(&self) -> u32
        ensures { result ≡ self.now.watch.version }
    {
        self.version
    }

    pub fn hits(&self) -> &[u32]
        ensures hits { result.now ≡ self.now.watch.hits }
        ensures ascending { IsStrictlyIncreasing result.now }
    {
        &self.hits
    }

    /// The number of other lists that were filled in.
    pub fn fills(&self) -> u32
        ensures { result ≡ self.now.watch.fills }
    {
        self.fills
    }

    /// Another list, of a version. Takes no memory.
    pub fn fill(&mut self, version: u32, hits: Vec<u32>)
        requires { IsStrictlyIncreasing hits.items }
        ensures { self.new.watch ≡ refilled version hits.items self.old.watch }
    {
        self.version = version;
        self.hits = hits;
        self.fills = self.fills.saturating_add(1);
    }

    /// Room for one hit more.
    pub fn reserve(&mut self) -> Result<(), AllocError>
        ensures watch { self.new.watch ≡ self.old.watch }
        ensures room { OnOk result (HasRoom self.new) }
    {
        self.hits.reserve(1)
    }

    /// Goes on to a version by its commit, if its list is of the version before. Takes no memory.
    pub fn note(&mut self, version: u32, change: &Change, scratch: &mut Scratch)
        requires some { 1 ≤ version }
        requires room { HasRoom self.old }
        ensures { IsNoted version change.now self.old.watch self.new.watch }
    {
        one_structure();
        commits_change();
        snapshots_stay();
        if self.version != version - 1 {
            return;
        }
        update(&mut self.hits, &self.pattern, change, scratch);
        self.version = version;
    }
}
