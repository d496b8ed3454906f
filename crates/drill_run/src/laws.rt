//! The laws of a drill: joined with a run of the store's machine, each session's replies are true by the history, and
//! no reopening loses an acknowledged commit.
ghost use Rattle.drill_run.specs.Truths.{DrillsAreTrue, ReopeningsKeep};

use session_acts::dialogues_are_true;
use store_machine::{pins_stay, rebases_keep, replies_tell, runs_stay_sound};

/// In each part of a drill, up to a reopening, each session's searches, cursors, lookups and watches that came to their
/// end listed exactly the content of the history. The other sessions may do anything meanwhile.
pub fn drills_are_true()
    ensures { DrillsAreTrue }
{
    dialogues_are_true();
    runs_stay_sound();
    pins_stay();
}

/// A reopening leaves the history with all commits that were acknowledged since the last one, in order, and at most one
/// more, the one in doubt. Its base may be at a later version: each snapshot from there on is that of these commits.
pub fn reopenings_keep_commits()
    ensures { ReopeningsKeep }
{
    replies_tell();
    runs_stay_sound();
    rebases_keep();
}
