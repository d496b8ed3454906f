//! A store as its callers see it.
ghost use Rattle.std.specs.Prelude.{◌≡◌, ◌⊎◌, ◌↔◌, ◌≤◌, ◌++◌, All, Bool, IfOk, List, [], OnErr, Option, length, ℕ};
ghost use Rattle.std.specs.Arc.{arc_value};
ghost use Rattle.store_machine.specs.History.{IsId};
ghost use Rattle.store_machine.specs.Runs.{IsCalm, IsRun};
ghost use Rattle.store_machine.specs.declared.machine.State.{State};
ghost use Rattle.store_machine.specs.declared.machine.Step.{Step};
ghost use Rattle.store_core.specs.Calls.{Calls, IsReturned, IsTaken, NeedsNone, NotRaised, SameHeld, WornAs, is_compact_worn, is_worn, is_worn_out};
ghost use Rattle.store_core.specs.Records.{Shared};
ghost use Rattle.store_core.specs.Replies.{IsLookOf, commit_calls, compact_calls, fetch_calls, look_calls, pin_calls, prune_calls, stats_calls, unpin_calls};

use crate::page::{MOST_RECORDS, Page};
use crate::words::{CallFault, Change, CommitFault, Compact, CompactFault, Look, Stats};
use chem_core::Print;
use record_versions::Steps;
use snap_registry::Pin;
use std::sync::ledger::Ledger;

/// The machine as one caller sees it. Each call is a step of one run, in which others may have steps too; a call that
/// is answered `Worn` is no step. Only `commit`, `fetch`, `look` and `compact` need memory.
pub trait Service {
    /// The states that the value may be at, as far as its caller knows.
    ghost at: { Self → State → Type 0 };

    /// The caller's numbers.
    ghost owns: { Self → ℕ → Bool };

    /// The part of one run from a value to a later one, and the states at its ends.
    ghost stretch: { Self → Self → State → List Step → State → Type 0 };

    /// Holds if the service answers no call any more.
    ghost worn: { Self → Type 0 };

    /// The pins that it holds for its caller, by slot and version.
    ghost holds: { Self → ℕ → ℕ → Type 0 };

    /// For each of two disks a number that its count of faults never exceeds, if one is known.
    ghost bounds: { Self → Option ℕ × Option ℕ };

    /// Commits a change, and returns the version that it makes. After a fault the history, the pins and the kept
    /// entries are as before.
    fn commit(&mut self, change: Change) -> Result<u32, CommitFault>
        ensures call { (s : State) → at self.old s
            → Calls stretch (owns self.old) self.old self.new s (commit_calls change result) }
        ensures worn { WornAs (worn self.old) (worn self.new) (is_worn_out result) }
        ensures held { SameHeld (holds self.old) (holds self.new) }
        ensures bounds { NotRaised (bounds self.old) (bounds self.new) };

    /// Pins the head; `None` exactly if 64 pins are held.
    fn pin(&mut self) -> Result<Option<Pin>, CallFault>
        ensures call { (s : State) → at self.old s
            → Calls stretch (owns self.old) self.old self.new s (pin_calls result) }
        ensures worn { WornAs (worn self.old) (worn self.new) (is_worn result) }
        ensures held { (slot version : ℕ)
            → holds self.new slot version ↔ (holds self.old slot version ⊎ IsTaken result slot version) }
        ensures apart { (slot version other : ℕ) → IsTaken result slot version → holds self.old slot other → ⊥ }
        ensures memory { NeedsNone result }
        ensures bounds { NotRaised (bounds self.old) (bounds self.new) };

    /// The next page of a pinned version: the records of the first `limit` identifiers from `from` on that are live
    /// there and whose print holds the wanted bits. Returns true if no other page follows. After a fault the page is
    /// empty.
    fn fetch<L: Ledger>(
        &mut self,
        pin: &Pin,
        want: &Print,
        from: u32,
        limit: u32,
        page: &mut Page,
        steps: &mut Steps<L>,
    ) -> Result<bool, CallFault>
        requires held { holds self.old pin.now.slot pin.now.version }
        requires some { 1 ≤ limit }
        requires few { limit ≤ MOST_RECORDS }
        requires room { limit ≤ page.old.room }
        ensures call { (s : State) → at self.old s
            → Calls stretch (owns self.old) self.old self.new s
            (fetch_calls pin.now.slot want.now from limit page.new.records result) }
        ensures few { length page.new.records ≤ limit }
        ensures in_range { All (λ (r : Shared). IsId (arc_value r).id) page.new.records }
        ensures err { OnErr result (page.new.records ≡ []) }
        ensures room { page.new.room ≡ page.old.room }
        ensures worn { WornAs (worn self.old) (worn self.new) (is_worn result) }
        ensures held { SameHeld (holds self.old) (holds self.new) }
        ensures bounds { NotRaised (bounds self.old) (bounds self.new) };

    /// Gives a pin back.
    fn unpin(&mut self, pin: Pin) -> Result<(), CallFault>
        requires held { holds self.old pin.slot pin.version }
        ensures call { (s : State) → at self.old s
            → Calls stretch (owns self.old) self.old self.new s (unpin_calls pin.slot result) }
        ensures worn { WornAs (worn self.old) (worn self.new) (is_worn result) }
        ensures held { (slot version : ℕ)
            → holds self.new slot version ↔ (holds self.old slot version × ¬ IsReturned result pin slot) }
        ensures memory { NeedsNone result }
        ensures bounds { NotRaised (bounds self.old) (bounds self.new) };

    /// Drops the entries that neither a pinned version nor the head reads, and returns their number.
    fn prune(&mut self) -> Result<u32, CallFault>
        ensures call { (s : State) → at self.old s
            → Calls stretch (owns self.old) self.old self.new s (prune_calls result) }
        ensures worn { WornAs (worn self.old) (worn self.new) (is_worn result) }
        ensures held { SameHeld (holds self.old) (holds self.new) }
        ensures memory { NeedsNone result }
        ensures bounds { NotRaised (bounds self.old) (bounds self.new) };

    /// The status of an identifier at the head.
    fn look(&mut self, id: u32) -> Result<Look, CallFault>
        ensures call { (s : State) → at self.old s
            → Calls stretch (owns self.old) self.old self.new s (look_calls id result) }
        ensures entry { IfOk result (λ l. IsLookOf id l) }
        ensures worn { WornAs (worn self.old) (worn self.new) (is_worn result) }
        ensures held { SameHeld (holds self.old) (holds self.new) }
        ensures bounds { NotRaised (bounds self.old) (bounds self.new) };

    /// Counts at the head.
    fn stats(&mut self) -> Result<Stats, CallFault>
        ensures call { (s : State) → at self.old s
            → Calls stretch (owns self.old) self.old self.new s (stats_calls result) }
        ensures worn { WornAs (worn self.old) (worn self.new) (is_worn result) }
        ensures held { SameHeld (holds self.old) (holds self.new) }
        ensures memory { NeedsNone result }
        ensures bounds { NotRaised (bounds self.old) (bounds self.new) };

    /// One step of a compaction, by which a copy of the store replaces the disk that is read. If no copy runs, one
    /// starts at the head. If it lacks items, the next 256 are written. If it lacks no item, it replaces that disk.
    /// Commits may be made meanwhile, and each is one more item. The history, the pins and the kept entries are as
    /// before.
    fn compact(&mut self) -> Result<Compact, CompactFault>
        ensures call { (s : State) → at self.old s
            → Calls stretch (owns self.old) self.old self.new s (compact_calls result) }
        ensures worn { WornAs (worn self.old) (worn self.new) (is_compact_worn result) }
        ensures held { SameHeld (holds self.old) (holds self.new) }
        ensures bounds { NotRaised (bounds self.old) (bounds self.new) };

    /// No step at all.
    ghost stays: { (a : Self) (s : State) → at a s → stretch a a s [] s };

    /// Two stretches that follow each other are one.
    ghost joins: { (a b c : Self) (s t u : State) (xs ys : List Step) → stretch a b s xs t → stretch b c t ys u
        → stretch a c s (xs ++ ys) u };

    /// A stretch is a part of a run without a crash, and ends where the value is.
    ghost lands: { (a b : Self) (s t : State) (xs : List Step) → stretch a b s xs t
        → at b t × IsRun s xs t × IsCalm xs };

    /// The caller's numbers stay.
    ghost same: { (a b : Self) (s t : State) (xs : List Step) (n : ℕ) → stretch a b s xs t → owns b n ≡ owns a n };
}
