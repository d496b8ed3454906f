//! The laws of the crates below, on which the store's proofs stand.

ghost use Rattle.disk_pair.specs.Pairs.{MayShow, PairOpensTo, State as PairState};
ghost use Rattle.disk_pair.specs.Stands.{StandsFor as PairStandsFor};
ghost use Rattle.disk_pair.specs.Term.{OfEachPair};
ghost use Rattle.store_core.specs.Beside.{CallsServe};
ghost use Rattle.store_core.specs.Copied.{KeepsCopied};
ghost use Rattle.store_machine.specs.Laws.{RunsStaySound};
ghost use Rattle.store_machine.specs.Rebases.{RebasesGrow, RebasesKeepHeads};

use disk_edge::Disk;
use disk_pair::{Pair, a_crash_leaves_one};
use store_core::{calls_serve_any_disks, versions_in_use_are_kept};
use store_machine::{rebases_keep, runs_stay_sound};

/// They take no time.
pub(crate) fn laws<D: Disk>(pair: &Pair<D>)
    ensures serve { CallsServe }
    ensures keep { KeepsCopied }
    ensures sound { RunsStaySound }
    ensures heads { RebasesKeepHeads }
    ensures grown { RebasesGrow }
    ensures leaves { (s : PairState) → PairStandsFor D.model pair.now s
        → OfEachPair D.model pair.now (PairOpensTo (MayShow s)) }
{
    calls_serve_any_disks();
    versions_in_use_are_kept();
    rebases_keep();
    runs_stay_sound();
    a_crash_leaves_one(pair);
}
