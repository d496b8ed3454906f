//! The laws of the machine that the store's proofs use, and those of stores.
ghost use Rattle.store_machine.specs.Laws.{CommitsChange, KeptIsRead, RunsStaySound, SnapshotsStay, StatesStay};
ghost use Rattle.store_core.specs.Beside.{CallsServe};
ghost use Rattle.store_core.specs.Copied.{KeepsCopied, KeepsUsed};
ghost use Rattle.store_core.specs.Stored.{AsksNoOwner};

use store_machine::{
    commits_change, kept_is_read, owners_are_free, runs_stay_sound, snapshots_stay, states_stay,
};

/// The laws of the machine. They take no time.
pub(crate) fn laws()
    ensures commits { CommitsChange }
    ensures read { KeptIsRead }
    ensures sound { RunsStaySound }
    ensures snapshots { SnapshotsStay }
    ensures states { StatesStay }
{
    commits_change();
    kept_is_read();
    runs_stay_sound();
    snapshots_stay();
    states_stay();
}

/// A pin, a fetch, an unpin, a look and the counts of a store alone are the same steps at every state that it serves. A
/// copy may run there, and a commit or a finish be in doubt. The state's disks stay as they are.
pub fn calls_serve_any_disks()
    ensures { CallsServe }
{
    runs_stay_sound();
}

/// The owners of pins make no difference: a store represents a state as it represents one with other owners.
pub fn stores_ask_no_owner()
    ensures { AsksNoOwner }
{
    owners_are_free();
}

/// A state that serves keeps each version that is in use: those of pins, that of a copy that runs, and the head's.
pub fn versions_in_use_are_kept()
    ensures used { KeepsUsed }
    ensures copied { KeepsCopied }
{}
