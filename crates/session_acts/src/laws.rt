//! The laws of a session's listings: joined with a run of the store's machine, they are those of the history.
ghost use Rattle.session_acts.specs.Truths.{DialoguesAreTrue, SearchesAreHits, ServicesAreTrue};

use lookup::{sames_are_answers, similars_are_answers};
use mol_finish::structures_are_molecules;
use shell_lang::one_reading;
use store_machine::{
    calls_give_pages, commits_change, needs_screen, replies_tell, runs_grow, snapshots_stay,
};

/// A search that came to its end listed exactly the hits of its pattern in the history. Its version is no older than
/// any that earlier calls of its caller returned.
pub fn searches_are_hits()
    ensures { SearchesAreHits }
{
    snapshots_stay();
    commits_change();
    runs_grow();
    replies_tell();
    calls_give_pages();
    needs_screen();
}

/// In a dialogue, each search and each cursor that came to its end, and each watch, listed exactly the hits of its
/// pattern. Each lookup listed exactly the same or the most similar structures.
pub fn dialogues_are_true()
    ensures { DialoguesAreTrue }
{
    snapshots_stay();
    commits_change();
    runs_grow();
    replies_tell();
    calls_give_pages();
    needs_screen();
    one_reading();
    sames_are_answers();
    similars_are_answers();
    structures_are_molecules();
}

/// The output of a session for a script, as in the contract of `session`, is the replies of such a dialogue.
pub fn services_are_true()
    ensures { ServicesAreTrue }
{
    dialogues_are_true();
}
