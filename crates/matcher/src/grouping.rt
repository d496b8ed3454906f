//! Reduces the candidates of the first place of each group to atoms from which the whole group can be placed in their
//! component. Then only different components for the groups are left to find.
ghost use Rattle.std.specs.Prelude.{◌≡◌, ◌<◌, ◌≤◌, [], ℕ, false, length, vec_len, IsTrue};
ghost use Rattle.matcher.specs.Candidates.{AreCandidates};
ghost use Rattle.matcher.specs.Group.{IsNowhere};
ghost use Rattle.matcher.specs.Task.{Completes, IsReadyTask};

use crate::candidates::Candidates;
use crate::group::{begins_group, lacks_room};
use crate::hunt::{may_continue, with_taken};
use crate::lay::{EVERY_BOND, NO_BOND, NO_PLACEMENT, Placement, start_at};
use crate::plan::EarlierBonds;
use crate::planned::MOST_PLACES;
use crate::task::Task;
use smarts_parse::Pattern;
use std::alloc::{AllocError, Global};

/// The most pieces of a group, not joined by bonds, that are searched for together. With more a search may take long.
const MOST_PIECES: usize = 4;

/// Memory for searches for one group.
#[derive(Debug, Drop)]
pub struct Grouping {
    // a stop for each place in turn
    stops: Vec<Placement>,
    image: Vec<u16>,
    // true if the pattern has at least two groups
    grouped: bool,
    ghost stops_room: { vec_len stops ≡ 256 },
    ghost image_room: { vec_len image ≡ 256 },
}

/// True if a pattern has at least two groups.
pub fn has_groups(pattern: &Pattern) -> bool {
    pattern.top.groups.iter().any(|group| *group > 1)
}

impl Grouping {
    /// Takes the memory.
    pub fn reserve(alloc: Global) -> Result<Grouping, AllocError> {
        Ok(Grouping {
            stops: vec![in alloc; NO_PLACEMENT; MOST_PLACES]?,
            image: vec![in alloc; 0; MOST_PLACES]?,
            grouped: false,
        })
    }

    /// Begins anew, for another pattern.
    pub fn begin(&mut self, pattern: &Pattern) {
        self.grouped = has_groups(pattern);
    }

    /// Takes away candidates of the first places of groups, if the pattern has at least two groups. True only if the
    /// graph has no embedding.
    pub fn refuse(&mut self, task: &Task, candidates: &mut Candidates) -> bool
        requires ready { IsReadyTask task.now }
        requires candidates { AreCandidates task.now candidates.old.words.items }
        ensures refused { IsTrue result → ¬ Completes task.now [] }
        ensures candidates { AreCandidates task.now candidates.new.words.items }
    {
        if !self.grouped {
            return false;
        }
        lay_in_turn(task.steps, &mut self.stops);
        for place in 0..task.graph.atoms.len() {
            if !begins_group(task, place) {
                continue;
            }
            if self.narrow(task, candidates, place) {
                return true;
            }
        }
        false
    }

    // Takes away candidates of the first place of a group. Returns true if it has no candidate left.
    fn narrow(&mut self, task: &Task, candidates: &mut Candidates, place: usize) -> bool
        requires ready { IsReadyTask task.now }
        requires place { place < length task.now.graph.now.atoms.items }
        requires candidates { AreCandidates task.now candidates.old.words.items }
        ensures refused { IsTrue result → ¬ Completes task.now [] }
        ensures candidates { AreCandidates task.now candidates.new.words.items }
    {
        let end = end_of_group(task, place);
        let mut none = true;
        for atom in 0..task.mol.atoms().len() as u16 {
            if !candidates.has(place, atom) {
                continue;
            }
            if self.may_begin(task, candidates, place, end, atom) {
                none = false;
                continue;
            }
            candidates.remove(place, atom);
        }
        none
    }

    // False only if the group that begins at a place cannot be placed with this place at `atom`. The search goes as far
    // as `end`.
    fn may_begin(
        &mut self,
        task: &Task,
        candidates: &Candidates,
        place: usize,
        end: usize,
        atom: u16,
    ) -> bool
        requires ready { IsReadyTask task.now }
        requires place { place < length task.now.graph.now.atoms.items }
        requires atom { atom < length task.now.mol.now.atoms }
        requires candidates { AreCandidates task.now candidates.now.words.items }
        ensures { result ≡ false → IsNowhere task.now place atom }
    {
        if end <= place + 1 || end > MOST_PLACES {
            return true;
        }
        if lacks_room(task, place, atom) {
            return false;
        }
        let no_atom = task.mol.atoms().len() as u16;
        for other in 0..task.graph.atoms.len() {
            self.image[other] = no_atom;
        }
        self.image[place] = atom;
        may_continue(
            task,
            candidates,
            &self.stops[place + 1..end],
            &mut self.image,
            with_taken(0, atom),
            0,
        )
    }
}

// Lays each place in turn, after an earlier one to which a bond joins it.
fn lay_in_turn(steps: &[EarlierBonds], stops: &mut [Placement]) {
    for (place, stop) in stops.iter_mut().enumerate() {
        let place = u16::try_from(place).unwrap_or(0);
        *stop = match steps.get(usize::from(place)) {
            Some(step) => after_earlier(place, *step),
            None => start_at(place),
        };
    }
}

// A place by the first of its bonds to earlier places, if it has any.
fn after_earlier(place: u16, step: EarlierBonds) -> Placement {
    let count = step.to.saturating_sub(step.from);
    if count == 0 {
        return start_at(place);
    }
    Placement {
        place,
        bond: u16::try_from(step.from).unwrap_or(NO_BOND),
        closing: if count == 1 { NO_BOND } else { EVERY_BOND },
    }
}

// The end of the group that begins at the place, or of its first few pieces.
fn end_of_group(task: &Task, place: usize) -> usize
    requires ready { IsReadyTask task.now }
    requires place { place < length task.now.graph.now.atoms.items }
{
    let group = task.graph.groups[place];
    let mut pieces: usize = 0;
    for next in place..task.graph.atoms.len() {
        if task.graph.groups[next] != group {
            return next;
        }
        let step = task.steps[next];
        if step.from >= step.to {
            pieces = pieces.saturating_add(1);
        }
        if pieces > MOST_PIECES {
            return next;
        }
    }
    task.graph.atoms.len()
}
