//! The effect of a change on a list of hits.
ghost use Rattle.std.specs.Prelude.{◌≡◌, ◌≢◌, ◌<◌, ◌↔◌, Contains, IsTrue, vec_capacity, vec_len, ℕ};
ghost use Rattle.std.specs.List.Sorted.{IsStrictlyIncreasing};
ghost use Rattle.smarts_parse.specs.Pattern.{pattern_of};
ghost use Rattle.smarts_parse.specs.Sound.{IsSoundPattern};
ghost use Rattle.store_core.specs.Replies.{IsSoundChange};
ghost use Rattle.watch_list.specs.Notes.{IsListAfter, LeavesMatch};

use matcher::{Scratch, has};
use smarts_parse::Pattern;
use store_core::Change;

/// Brings the hits of a pattern over a change. Takes no memory.
pub fn update(hits: &mut Vec<u32>, pattern: &Pattern, change: &Change, scratch: &mut Scratch)
    requires sound { IsSoundPattern (pattern_of pattern.now) }
    requires ascending { IsStrictlyIncreasing hits.old.items }
    requires room { vec_len hits.old < vec_capacity hits.old }
    ensures list { IsListAfter (pattern_of pattern.now) change.now hits.old.items hits.new.items }
    ensures sound { IsSoundChange change.now }
{
    let is_hit = leaves_match(change, pattern, scratch);
    place(hits, change.id(), is_hit);
}

// True if the change leaves a record that the pattern matches.
fn leaves_match(change: &Change, pattern: &Pattern, scratch: &mut Scratch) -> bool
    requires { IsSoundPattern (pattern_of pattern.now) }
    ensures { IsTrue result ↔ LeavesMatch (pattern_of pattern.now) change.now }
{
    match change {
        Change::Register(record) | Change::Revise(record) => has(pattern, record.mol(), scratch),
        Change::Withdraw(_) => false,
    }
}

// Puts an identifier into the list if it is a hit, and takes it out if it is not.
fn place(hits: &mut Vec<u32>, id: u32, is_hit: bool)
    requires ascending { IsStrictlyIncreasing hits.old.items }
    requires room { vec_len hits.old < vec_capacity hits.old }
    ensures ascending { IsStrictlyIncreasing hits.new.items }
    ensures own { Contains hits.new.items id ↔ IsTrue is_hit }
    ensures others { (q : ℕ) → q ≢ id → Contains hits.new.items q ↔ Contains hits.old.items q }
{
    match hits.binary_search(&id) {
        Ok(place) => {
            if !is_hit {
                hits.remove(place);
            }
        }
        Err(place) => {
            if is_hit {
                let _ = hits.insert(place, id);
            }
        }
    }
}
