//! Laws of the history to which two disks open.

ghost use Rattle.std.specs.Prelude.{◌≡◌, ◌⊎◌, ◌++◌, ◌∷◌, ℕ, List, None, Some};
ghost use Rattle.std.specs.List.{AllByRecursion};
ghost use Rattle.journal_core.specs.Fronts.{IsFront, IsOpen};
ghost use Rattle.journal_core.specs.Records.{IsShort, prefix};
ghost use Rattle.journal_core.specs.declared.format.TheConstants.{CLOSED};
ghost use Rattle.disk_pair.specs.Pairs.{History, MayShow, PairOpens, PairOpensTo, Picks, State, with_commit};
ghost use Rattle.disk_pair.specs.Stands.{StandsFor};
ghost use Rattle.disk_pair.specs.Term.{OfEachPair, OfSomePair};

use crate::pair::Pair;
use disk_edge::Disk;

/// Two disks open to one history. If one of them is open, one is read. The text of a history on one disk, followed by
/// any bytes, is read if the other disk is not open.
pub fn a_pair_opens_one_way()
    ensures one_history { (h k : History) (a b : List ℕ) → PairOpens h a b → PairOpens k a b → h ≡ k }
    ensures some { (a b : List ℕ) → IsOpen a ⊎ IsOpen b → (c : List ℕ) × Picks a b c }
    ensures first { (h : History) (front rest b : List ℕ) → IsFront h.header h.base front
        → AllByRecursion IsShort h.commits → ¬ IsOpen b
        → PairOpens h (prefix front h.commits ++ CLOSED ∷ rest) b }
    ensures second { (h : History) (front rest a : List ℕ) → IsFront h.header h.base front
        → AllByRecursion IsShort h.commits → ¬ IsOpen a
        → PairOpens h a (prefix front h.commits ++ CLOSED ∷ rest) }
{}

/// Each two images that a crash now may leave open to one of the histories of the pair's state.
pub fn a_crash_leaves_one<D: Disk>(_pair: &Pair<D>)
    ensures { (s : State) → StandsFor D.model _pair.now s
        → OfEachPair D.model _pair.now (PairOpensTo (MayShow s)) }
{}

/// A crash now may leave a doubt. There are two images that open with the commit in doubt, if no finish is in doubt
/// too. There are two that open to the copy whose finish is in doubt.
pub fn a_crash_may_leave_a_doubt<D: Disk>(_pair: &Pair<D>)
    ensures commit { (s : State) (p : List ℕ) → StandsFor D.model _pair.now s → s.commit ≡ Some p
        → s.finish ≡ None → OfSomePair D.model _pair.now (PairOpens (with_commit s.now p)) }
    ensures finish { (s : State) (h : History) → StandsFor D.model _pair.now s → s.finish ≡ Some h
        → OfSomePair D.model _pair.now (PairOpens h) }
{}
