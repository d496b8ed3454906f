//! What the bytes of two disks open to, as laws of any bytes and of any store.
ghost use Rattle.std.specs.Prelude.{◌≡◌, ◌≤◌, ◌<◌, ◌+◌, ◌-◌, ◌++◌, [], ◌∷◌, List, length, None, slice_index_or, Some, ℕ};
ghost use Rattle.std.specs.FinMap.{entries};
ghost use Rattle.disk_pair.specs.Gives.{empty_copy};
ghost use Rattle.disk_pair.specs.Pairs.{History as Written, MayShow, with_base, with_commit};
ghost use Rattle.disk_pair.specs.Term.{OfEachPair, OfSomePair, next_header};
ghost use Rattle.journal_core.specs.Fronts.{IsFront, IsOpen};
ghost use Rattle.journal_core.specs.Records.{prefix};
ghost use Rattle.journal_core.specs.declared.format.TheConstants.{CLOSED};
ghost use Rattle.store_machine.specs.History.{IsHistory, grown, head, rebase};
ghost use Rattle.store_machine.specs.Laws.{IsSound};
ghost use Rattle.store_machine.specs.Machine.{MayBeLeft, Recovers, committed, copying, now, on_disk, replaced};
ghost use Rattle.store_machine.specs.Owners.{SameButOwners};
ghost use Rattle.store_machine.specs.declared.machine.Change.{Change};
ghost use Rattle.store_machine.specs.declared.machine.History.{History};
ghost use Rattle.store_machine.specs.declared.machine.State.{State};
ghost use Rattle.store_disk.specs.Loads.{Damages, OpensAfter, OpensTo};
ghost use Rattle.store_disk.specs.OnDisk.{StandsFor, StoreTerm, lacking, on_pair, whole_copy};
ghost use Rattle.store_disk.specs.Payloads.{history_of, payload, payloads};

use crate::below::laws;
use crate::store::Store;
use commit_log::{a_base_reads_one_way, a_log_reads_one_way};
use disk_edge::Disk;
use disk_pair::{a_crash_may_leave_a_doubt, a_pair_opens_one_way};
use store_machine::rebases_keep;

/// Two disks open to one history, in one generation, or are damaged at one place, or neither is open, and never two of
/// these.
pub fn a_store_opens_one_way()
    ensures one_history { (h k : History) (g j : ℕ) (a b : List ℕ) → OpensTo h g a b
        → OpensTo k j a b → (h ≡ k) × (g ≡ j) }
    ensures one_place { (at place : ℕ) (a b : List ℕ) → Damages at a b → Damages place a b
        → at ≡ place }
    ensures not_both { (h : History) (g at : ℕ) (a b : List ℕ)
        → OpensTo h g a b → Damages at a b → ⊥ }
    ensures opens { (h : History) (g : ℕ) (a b : List ℕ) → OpensTo h g a b
        → ¬ IsOpen a → ¬ IsOpen b → ⊥ }
    ensures damaged { (at : ℕ) (a b : List ℕ) → Damages at a b → ¬ IsOpen a → ¬ IsOpen b → ⊥ }
{
    a_log_reads_one_way();
    a_base_reads_one_way();
    a_pair_opens_one_way();
}

/// A history that was written on one of two disks, behind which any bytes may stand, is what they open to where the
/// other one is not open.
pub fn what_was_written_opens()
    ensures first { (h : History) (generation : ℕ) (front rest b : List ℕ) → IsHistory h
        → head h ≤ 16777215
        → IsFront (history_of generation h).header (history_of generation h).base front → ¬ IsOpen b
        → OpensTo h generation (prefix front (payloads h) ++ CLOSED ∷ rest) b }
    ensures second { (h : History) (generation : ℕ) (front rest a : List ℕ) → IsHistory h
        → head h ≤ 16777215
        → IsFront (history_of generation h).header (history_of generation h).base front → ¬ IsOpen a
        → OpensTo h generation a (prefix front (payloads h) ++ CLOSED ∷ rest) }
{
    a_pair_opens_one_way();
}

/// Each two images that a crash now may leave of a store's two disks open to what may be left of the state.
pub fn a_standing_store_opens<D: Disk>(store: &Store<D>)
    ensures { (s : State) → StandsFor D.model store.now s
        → OfEachPair D.model store.now.pair (OpensAfter s) }
{
    laws(&store.pair);
}

/// A crash now may leave what is in doubt: some two images open to the history with the commit in doubt, if no finish
/// is in doubt too, and some two to the copy whose finish is in doubt.
pub fn a_doubt_may_be_left<D: Disk>(store: &Store<D>)
    ensures commit { (s : State) (c : Change) → StandsFor D.model store.now s → s.doubt ≡ Some c
        → s.finish ≡ None
        → OfSomePair D.model store.now.pair (OpensTo (grown (on_disk s) (c ∷ [])) s.generation) }
    ensures finish { (s : State) (version : ℕ) → StandsFor D.model store.now s
        → s.finish ≡ Some version
        → OfSomePair D.model store.now.pair (OpensTo (rebase s.history version) (s.generation + 1)) }
{
    laws(&store.pair);
    a_crash_may_leave_a_doubt(&store.pair);
}

/// What two disks may show of a state after a crash is what may be left of it, and so what the machine may recover.
pub fn what_is_left_is_recovered()
    ensures left { (s : State) (x : Written) → MayShow (on_pair s) x
        → (h : History) × (generation : ℕ) × MayBeLeft s h generation
        × (x ≡ history_of generation h) }
    ensures recovered { (s : State) (h : History) (generation : ℕ) → MayBeLeft s h generation
        → Recovers s h generation }
{}

/// What two disks have at the states that a commit, the start of a copy and its finish leave.
pub fn what_disks_have_after()
    ensures committed { (s : State) (c : Change) → IsSound s
        → on_pair (committed s c) ≡ record (on_pair s) {
          now = with_commit (on_pair s).now (payload c);
          commit = None;
          finish = None;
        } }
    ensures started { (s : State) → let left = length (entries (now s)) in
        on_pair (record (copying s (head s.history) left) { finish = None }) ≡ record (on_pair s) {
          finish = None;
          copy = Some (empty_copy (next_header (on_pair s).now.header (head s.history) left));
        } }
    ensures replaced { (s : State) (version : ℕ) → on_pair (replaced s version) ≡ record {
      now = whole_copy s version;
      commit = None;
      finish = None;
      copy = None;
    } }
{
    rebases_keep();
}

/// A copy that lacks each of its items is empty, and one that lacks none is whole. It lacks a commit more that is made
/// meanwhile. With its next item, a base record or behind all of them a commit, it lacks one less.
pub fn copies_go_on()
    ensures begins { (whole : Written) → whole.commits ≡ []
        → lacking (length whole.base) whole ≡ empty_copy whole.header }
    ensures ends { (whole : Written) → lacking 0 whole ≡ whole }
    ensures meanwhile { (left : ℕ) (whole : Written) (payload : List ℕ)
        → lacking (left + 1) (with_commit whole payload) ≡ lacking left whole }
    ensures next_base { (left : ℕ) (whole : Written) → length whole.commits ≤ left
        → left < length whole.base + length whole.commits
        → lacking left whole ≡ with_base (lacking (left + 1) whole)
        (slice_index_or whole.base (length whole.base + length whole.commits - (left + 1)) []) }
    ensures next_commit { (left : ℕ) (whole : Written) → left < length whole.commits
        → lacking left whole ≡ with_commit (lacking (left + 1) whole)
        (slice_index_or whole.commits (length whole.commits - (left + 1)) []) }
{}

/// Whose the pins are makes no difference: a store stands for a state as for one with other owners.
pub fn stores_ask_no_owner<D: Disk>()
    ensures { (store : StoreTerm D) (s t : State) → SameButOwners s t → StandsFor D.model store s
        → StandsFor D.model store t }
{
    store_core::stores_ask_no_owner();
    store_machine::owners_are_free();
}
