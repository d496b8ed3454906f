//! The watches of one session.
ghost use Rattle.std.specs.Prelude.{◌≡◌, ◌≤◌, ◌<◌, ◌++◌, [], ◌∷◌, All, IfSome, IsSome, None, OnErr, OnOk, filter, find, is_some, length, map, option_copied, option_map, true};
ghost use Rattle.std.specs.List.{AllZip};
ghost use Rattle.std.specs.List.Sorted.{IsStrictlyIncreasing};
ghost use Rattle.smarts_parse.specs.Pattern.{pattern_of};
ghost use Rattle.smarts_parse.specs.Sound.{IsSoundPattern};
ghost use Rattle.watch_list.specs.Entries.{EntryTerm, HasRoom, place_of, watches_in};
ghost use Rattle.watch_list.specs.Notes.{IsNoted};
ghost use Rattle.watch_list.specs.Watches.{Watch, answered, filled, is_named, is_other, list_of, watch_of};
ghost use Rattle.watch_list.specs.declared.list.TheConstants.{MOST_WATCHES};

use crate::entry::Entry;
use matcher::Scratch;
use smarts_parse::Pattern;
use std::alloc::{AllocError, Global};
use std::marker::Model;
use store_core::Change;

/// The most patterns that are watched at once.
pub const MOST_WATCHES: usize = 16;

/// Patterns that are watched under names, each with its hits at a version, in the order in which they were added.
/// Contracts see the list of them, and whether memory is reserved for one more change.
#[derive(Drop)]
pub struct Watches {
    alloc: Global,
    entries: Vec<Entry>,
    scratch: Option<Scratch>,
}

impl Model for Watches {
    ghost use Rattle.std.specs.Prelude.{◌&&◌, is_some};
    ghost use Rattle.std.specs.Coded.{codes};
    ghost use Rattle.smarts_parse.specs.contracts.pattern.Pattern as pattern_contract;
    ghost use Rattle.watch_list.specs.Entries.{all_have_room, watches_in};
    ghost use Rattle.watch_list.specs.Watches.{AreWatches, WatchesTerm};

    ghost Value = { WatchesTerm };

    ghost coded = { Prim.hlevel (codes, pattern_contract.the_row.coded) };

    ghost view = { λ w. record {
      watches = watches_in w.entries.items;
      reserved = is_some w.scratch && all_have_room w.entries.items;
    } };

    ghost invariant = { λ w. AreWatches (watches_in w.entries.items) };
}

impl Watches {
    /// Without watches. Takes no memory.
    pub fn new(alloc: Global) -> Watches
        ensures { result.watches ≡ [] }
    {
        Watches {
            alloc,
            entries: Vec::new(alloc),
            scratch: None,
        }
    }

    /// The number of watches, at most 16. Takes no memory.
    pub fn len(&self) -> usize
        ensures { result ≡ length self.now.watches }
    {
        self.entries.len()
    }

    /// One watch more: a pattern under a new name, with a list of hits at a version. Fails only for want of memory;
    /// then the watches are as they were. Reserved memory may be used up.
    pub fn add(
        &mut self,
        name: &[u8],
        pattern: Pattern,
        version: u32,
        hits: Vec<u32>,
    ) -> Result<(), AllocError>
        requires few { length self.old.watches < MOST_WATCHES }
        requires new { watch_of name.now self.old.watches ≡ None }
        requires sound { IsSoundPattern (pattern_of pattern) }
        requires ascending { IsStrictlyIncreasing hits.items }
        ensures ok { OnOk result (self.new.watches ≡ self.old.watches
            ++ record { name = name.now; pattern = pattern; version = version; hits = hits.items; fills = 0 }
            ∷ []) }
        ensures err { OnErr result (self.new.watches ≡ self.old.watches) }
    {
        let name = Vec::from_slice(self.alloc, name)?;
        self.entries.push(Entry::new(name, pattern, version, hits))?;
        Ok(())
    }

    /// Takes the watch of a name out: `false` exactly if it is missing. Takes no memory.
    pub fn remove(&mut self, name: &[u8]) -> bool
        ensures watched { result ≡ is_some (watch_of name.now self.old.watches) }
        ensures watches { self.new.watches ≡ filter (is_other name.now) self.old.watches }
        ensures reserved { self.old.reserved ≡ true → self.new.reserved ≡ true }
    {
        let watched = entry_of(&self.entries, name).is_some();
        take_out(&mut self.entries, name);
        watched
    }

    /// Takes the memory of the next `note`: for one hit more in each list, and for matching. Fails only for want of
    /// memory. The watches are as they were in either case.
    pub fn reserve(&mut self) -> Result<(), AllocError>
        ensures watches { self.new.watches ≡ self.old.watches }
        ensures reserved { OnOk result (self.new.reserved ≡ true) }
    {
        reserve_scratch(self.alloc, &mut self.scratch)?;
        reserve_each(&mut self.entries)
    }

    /// Brings each watch that is at the version before over the commit of a version, from 1 on, by one match. The
    /// others stay. Takes no memory, and may use up reserved memory.
    pub fn note(&mut self, version: u32, change: &Change)
        requires some { 1 ≤ version }
        requires reserved { self.old.reserved ≡ true }
        ensures { AllZip (IsNoted version change.now) self.old.watches self.new.watches }
    {
        if let Some(scratch) = &mut self.scratch {
            note_each(&mut self.entries, version, change, scratch);
        }
    }

    /// The version and the hits of the watch of a name. `None` exactly if it is missing. Takes no memory.
    pub fn list(&self, name: &[u8]) -> Option<(u32, &[u32])>
        ensures list { option_map answered result ≡ option_map list_of (watch_of name.now self.now.watches) }
        ensures ascending { IfSome result (λ r. IsStrictlyIncreasing r.1.now) }
    {
        let entry = entry_of(&self.entries, name)?;
        Some((entry.version(), entry.hits()))
    }

    /// The pattern of the watch of a name. `None` exactly if it is missing. Takes no memory.
    pub fn pattern(&self, name: &[u8]) -> Option<&Pattern>
        ensures pattern { option_copied result
            ≡ option_map (λ (w : Watch). w.pattern) (watch_of name.now self.now.watches) }
        ensures sound { IfSome result (λ p. IsSoundPattern (pattern_of p.now)) }
    {
        let entry = entry_of(&self.entries, name)?;
        Some(entry.pattern())
    }

    /// The number of times that `fill` gave the watch of a name another list; the count stays at 4,294,967,295. `None`
    /// exactly if the watch is missing. Takes no memory.
    pub fn fills(&self, name: &[u8]) -> Option<u32>
        ensures { result ≡ option_map (λ (w : Watch). w.fills) (watch_of name.now self.now.watches) }
    {
        let entry = entry_of(&self.entries, name)?;
        Some(entry.fills())
    }

    /// Gives the watch of a name another list, of a version, and counts it. All else stays, but reserved memory may be
    /// used up. Takes no memory.
    pub fn fill(&mut self, name: &[u8], version: u32, hits: Vec<u32>)
        requires watched { IsSome (watch_of name.now self.old.watches) }
        requires ascending { IsStrictlyIncreasing hits.items }
        ensures { self.new.watches ≡ map (filled name.now version hits.items) self.old.watches }
    {
        if let Some(place) = place_of(&self.entries, name) {
            let entry = &mut self.entries[place];
            entry.fill(version, hits);
        }
    }
}

// The watch of a name.
fn entry_of<'e>(entries: &'e [Entry], name: &[u8]) -> Option<&'e Entry>
    ensures { option_copied result ≡ find (λ e. is_named name.now e.watch) entries.now }
{
    entries.iter().find(|entry| entry.is_named(name))
}

// The place of the watch of a name.
fn place_of(entries: &[Entry], name: &[u8]) -> Option<usize>
    ensures { result ≡ place_of name.now entries.now }
{
    entries.iter().position(|entry| entry.is_named(name))
}

// Takes it out. The others keep their order.
fn take_out(entries: &mut Vec<Entry>, name: &[u8])
    ensures { entries.new.items ≡ filter (λ e. is_other name.now e.watch) entries.old.items }
{
    entries.retain(|entry| !entry.is_named(name));
}

// Memory for matching.
fn reserve_scratch(alloc: Global, scratch: &mut Option<Scratch>) -> Result<(), AllocError>
    ensures { OnOk result (IsSome scratch.new) }
{
    if scratch.is_none() {
        *scratch = Some(Scratch::reserve(alloc)?);
    }
    Ok(())
}

// Room for one hit more in each list.
fn reserve_each(entries: &mut [Entry]) -> Result<(), AllocError>
    ensures watches { watches_in entries.new ≡ watches_in entries.old }
    ensures room { OnOk result (All HasRoom entries.new) }
{
    for entry in entries.iter_mut() {
        entry.reserve()?;
    }
    Ok(())
}

// Brings each watch over the commit of a version.
fn note_each(entries: &mut [Entry], version: u32, change: &Change, scratch: &mut Scratch)
    requires some { 1 ≤ version }
    requires room { All HasRoom entries.old }
    ensures { AllZip (IsNoted version change.now) (watches_in entries.old) (watches_in entries.new) }
{
    for entry in entries.iter_mut() {
        entry.note(version, change, scratch);
    }
}
