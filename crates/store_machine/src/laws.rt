//! The laws of runs, each on a function that does nothing but cite others.
ghost use Rattle.store_machine.specs.ByCalls.{CallsGivePages};
ghost use Rattle.store_machine.specs.Laws.{AnswersAreOne, CommitsChange, KeptIsRead, NeedsScreen, PagesAreAPrefix, PagesArePieces, PagesAreTheAnswer, PinsStay, RunsGrow, RunsStaySound, SnapshotsStay, StatesStay};
ghost use Rattle.store_machine.specs.Openings.{CrashOpens};
ghost use Rattle.store_machine.specs.Owners.{OwnersAreFree, SoundnessAsksNoOwner};
ghost use Rattle.store_machine.specs.Rebases.{BasesReadBack, LaterRebasesStand, RebasesGrow, RebasesKeepAllowed, RebasesKeepHeads, RebasesKeepSnapshots, RebasesStay};
ghost use Rattle.store_machine.specs.Runs.{CalmsJoin, RunsJoin};
ghost use Rattle.store_machine.specs.Told.{CommitsStand, PinsAreNew, RunsAdd, SlotsWereFree, ToldIsThere};

/// Later commits change no snapshot.
pub fn snapshots_stay()
    ensures { SnapshotsStay }
{}

/// A commit at the head makes its own change, and no other.
pub fn commits_change()
    ensures { CommitsChange }
{}

/// A state was the same at the version that made it.
pub fn states_stay()
    ensures { StatesStay }
{}

/// Records that are found are one list, the ascending one of exactly those that are asked for.
pub fn answers_are_one()
    ensures { AnswersAreOne }
{}

/// Every state of a run keeps the entries that its pins and its head need.
pub fn runs_stay_sound()
    ensures { RunsStaySound }
{}

/// The history at the end of a run without a crash is that at its start with more commits after it.
pub fn runs_grow()
    ensures { RunsGrow }
{}

/// The replies of the calls of a run without a crash. Their acknowledged commits are those that the history grew by;
/// one acknowledged as commit k is commit k of the history that the run leaves. No reply shows a version to come. A
/// pin's slot was free, and its version is at least each that its caller saw before.
pub fn replies_tell()
    ensures commits { RunsAdd }
    ensures stand { CommitsStand }
    ensures versions { ToldIsThere }
    ensures slots { SlotsWereFree }
    ensures pins { PinsAreNew }
{}

/// A run goes on from where another ended; neither has a crash if neither part has one.
pub fn runs_join()
    ensures runs { RunsJoin }
    ensures calm { CalmsJoin }
{}

/// Each state that a crash may recover can be opened: a crash and an opening are a run to it.
pub fn crash_opens()
    ensures { CrashOpens }
{}

/// The owner of an event matters to pins alone. Except a fetch and an unpin, each event may have any owner; only the
/// owner of a new pin differs then. A state stays sound if the owners of its pins are changed.
pub fn owners_are_free()
    ensures steps { OwnersAreFree }
    ensures sound { SoundnessAsksNoOwner }
{}

/// A base moved to a later version keeps the snapshots from there on, the head, and that each commit is allowed. It may
/// be moved before or after more commits, and the later of two moves decides. A base is read to its snapshot, and one
/// that is moved to its own version stays.
pub fn rebases_keep()
    ensures snapshots { RebasesKeepSnapshots }
    ensures heads { RebasesKeepHeads }
    ensures allowed { RebasesKeepAllowed }
    ensures grown { RebasesGrow }
    ensures twice { LaterRebasesStand }
    ensures read { BasesReadBack }
    ensures stays { RebasesStay }
{}

/// At each version in use a store reads the snapshot from its kept entries.
pub fn kept_is_read()
    ensures { KeptIsRead }
{}

/// A pin is held until its owner's Unpin, if there is no crash.
pub fn pins_stay()
    ensures { PinsStay }
{}

/// The pages of a pin so far, and those ahead, are together the answer at the Pin.
pub fn pages_are_a_prefix()
    ensures { PagesAreAPrefix }
{}

/// The k-th page is the k-th piece.
pub fn pages_are_pieces()
    ensures { PagesArePieces }
{}

/// The pages of a search that ended are the answer at the Pin, and those that match are the hits.
pub fn pages_are_the_answer()
    ensures { PagesAreTheAnswer }
{
    mol_finish::structures_are_molecules();
}

/// As `pages_are_the_answer`, by an owner's calls in a run, and by the history at the run's end.
pub fn calls_give_pages()
    ensures { CallsGivePages }
{
    mol_finish::structures_are_molecules();
}

/// The need of a pattern rules out no structure that it matches.
pub fn needs_screen()
    ensures { NeedsScreen }
{
    path_print::path_is_carried();
}
