//! Different atoms for the places of a graph that are left, each a candidate of its place: bipartite matching by
//! shortest augmenting paths. In the same way the groups that are left choose different components.
//!
//! Nothing is promised of a choice. If no choice is found, the places and atoms that the last try reached show why.
ghost use Rattle.std.specs.Prelude.{◌≡◌, ◌<◌, length, IsTrue};
ghost use Rattle.matcher.specs.Candidates.{AreCandidates};
ghost use Rattle.matcher.specs.Task.{Completes, IsReadyTask};

use crate::candidates::Candidates;
use crate::group::begins_group;
use crate::grouping::has_groups;
use crate::planned::MOST_PLACES;
use crate::refusal::{excludes, excludes_groups, may_stand};
use crate::task::Task;
use chem_core::MOST_ATOMS;
use smarts_parse::Pattern;
use std::alloc::{AllocError, Global};

/// No place, no atom.
const NONE: u16 = u16::MAX;

/// Memory for choices.
#[derive(Debug, Drop)]
pub struct Choices {
    assignment: Assignment,
    // the number of searches that found no atom for a place that no bond joins to an earlier one, modulo 2^64
    failures: u64,
    // that number when the search began
    begun: u64,
    // true if the pattern has at least two groups
    grouped: bool,
}

// The seats that places choose: an atom each, or a component each, named by its least atom.
#[derive(Clone, Copy)]
enum Seats {
    Atoms,
    Components,
}

impl Choices {
    /// Takes the memory.
    pub fn reserve(alloc: Global) -> Result<Choices, AllocError> {
        Ok(Choices {
            assignment: Assignment::reserve(alloc)?,
            failures: 0,
            begun: 0,
            grouped: false,
        })
    }

    /// Begins anew, for another pattern.
    pub fn begin(&mut self, pattern: &Pattern) {
        self.grouped = has_groups(pattern);
    }

    /// Begins a search.
    pub fn begin_search(&mut self) {
        self.begun = self.failures;
    }

    /// The number of failures, modulo 2^64.
    pub fn failures(&self) -> u64 {
        self.failures
    }

    /// Counts a failure.
    pub fn fail(&mut self) {
        self.failures = self.failures.wrapping_add(1);
    }

    /// True only if no embedding extends `front`.
    pub fn refuse(&mut self, task: &Task, candidates: &Candidates, front: &[u16]) -> bool
        requires ready { IsReadyTask task.now }
        requires candidates { AreCandidates task.now candidates.now.words.items }
        ensures { IsTrue result → ¬ Completes task.now front.now }
    {
        if self.assignment.refuse(task, candidates, front) {
            return true;
        }
        if !self.grouped {
            return false;
        }
        self.assignment.refuse_groups(task, candidates, front)
    }

    /// As `refuse`, but tried only after a failure of the search, if the last atom of `front` begins a group, and as
    /// far as groups show.
    #[inline(always)]
    pub fn refuse_group(&mut self, task: &Task, candidates: &Candidates, front: &[u16]) -> bool
        requires ready { IsReadyTask task.now }
        requires candidates { AreCandidates task.now candidates.now.words.items }
        ensures { IsTrue result → ¬ Completes task.now front.now }
    {
        if !self.grouped {
            return false;
        }
        self.refuse_begun(task, candidates, front)
    }

    // As `refuse_group`, but of a pattern with groups.
    #[cold]
    fn refuse_begun(&mut self, task: &Task, candidates: &Candidates, front: &[u16]) -> bool
        requires ready { IsReadyTask task.now }
        requires candidates { AreCandidates task.now candidates.now.words.items }
        ensures { IsTrue result → ¬ Completes task.now front.now }
    {
        if self.failures == self.begun {
            return false;
        }
        if front.is_empty() || front.len() > task.graph.atoms.len() {
            return false;
        }
        if !begins_group(task, front.len() - 1) {
            return false;
        }
        self.assignment.refuse_groups(task, candidates, front)
    }

    /// As `refuse`, but tried only if a failure was counted since their number was `failures`.
    pub fn refuse_since(
        &mut self,
        failures: u64,
        task: &Task,
        candidates: &Candidates,
        front: &[u16],
    ) -> bool
        requires ready { IsReadyTask task.now }
        requires candidates { AreCandidates task.now candidates.now.words.items }
        ensures { IsTrue result → ¬ Completes task.now front.now }
    {
        if self.failures == failures {
            return false;
        }
        self.refuse(task, candidates, front)
    }
}

// An atom for each place that has one.
#[derive(Debug, Drop)]
struct Assignment {
    // for each place the atom that it chose, and whether the last try reached the place
    chosen: Vec<u16>,
    reached: Vec<bool>,
    // for each atom the place that chose it, whether the last try reached the atom, and from which place
    holder: Vec<u16>,
    seen: Vec<bool>,
    from: Vec<u16>,
    // the places that the last try reached, in turn
    queue: Vec<u16>,
}

impl Assignment {
    fn reserve(alloc: Global) -> Result<Assignment, AllocError> {
        Ok(Assignment {
            chosen: vec![in alloc; NONE; MOST_PLACES]?,
            reached: vec![in alloc; false; MOST_PLACES]?,
            holder: vec![in alloc; NONE; MOST_ATOMS]?,
            seen: vec![in alloc; false; MOST_ATOMS]?,
            from: vec![in alloc; NONE; MOST_ATOMS]?,
            queue: vec![in alloc; NONE; MOST_PLACES]?,
        })
    }

    // True only if no embedding extends `front`.
    fn refuse(&mut self, task: &Task, candidates: &Candidates, front: &[u16]) -> bool
        requires ready { IsReadyTask task.now }
        requires candidates { AreCandidates task.now candidates.now.words.items }
        ensures { IsTrue result → ¬ Completes task.now front.now }
    {
        let places = task.graph.atoms.len();
        self.forget(task);
        for place in front.len()..places {
            if !self.choose(task, candidates, front, place, Seats::Atoms) {
                return self.shows_why(task, candidates, front);
            }
        }
        false
    }

    // As `refuse`, but as far as groups show that do not begin in `front`.
    fn refuse_groups(&mut self, task: &Task, candidates: &Candidates, front: &[u16]) -> bool
        requires ready { IsReadyTask task.now }
        requires candidates { AreCandidates task.now candidates.now.words.items }
        ensures { IsTrue result → ¬ Completes task.now front.now }
    {
        let places = task.graph.atoms.len();
        self.forget(task);
        for place in front.len()..places {
            if !begins_group(task, place) {
                continue;
            }
            if !self.choose(task, candidates, front, place, Seats::Components) {
                return self.shows_why_groups(task, candidates, front);
            }
        }
        false
    }

    // Forgets all choices.
    fn forget(&mut self, task: &Task) {
        for chosen in self.chosen.iter_mut().take(task.graph.atoms.len()) {
            *chosen = NONE;
        }
        for holder in self.holder.iter_mut().take(task.mol.atoms().len()) {
            *holder = NONE;
        }
    }

    // True only if the places and atoms that the last try reached show that no embedding extends `front`.
    fn shows_why(&self, task: &Task, candidates: &Candidates, front: &[u16]) -> bool
        requires ready { IsReadyTask task.now }
        requires candidates { AreCandidates task.now candidates.now.words.items }
        ensures { IsTrue result → ¬ Completes task.now front.now }
    {
        let places = task.graph.atoms.len();
        let atoms = task.mol.atoms().len();
        if self.reached.len() < places || self.seen.len() < atoms {
            return false;
        }
        excludes(
            task,
            candidates,
            front,
            &self.reached[..places],
            &self.seen[..atoms],
        )
    }

    // As `shows_why`, but of groups and components.
    fn shows_why_groups(&self, task: &Task, candidates: &Candidates, front: &[u16]) -> bool
        requires ready { IsReadyTask task.now }
        requires candidates { AreCandidates task.now candidates.now.words.items }
        ensures { IsTrue result → ¬ Completes task.now front.now }
    {
        let places = task.graph.atoms.len();
        let atoms = task.mol.atoms().len();
        if self.reached.len() < places || self.seen.len() < atoms {
            return false;
        }
        excludes_groups(
            task,
            candidates,
            front,
            &self.reached[..places],
            &self.seen[..atoms],
        )
    }

    // Gives the place a seat. Returns false if it can have no seat.
    fn choose(
        &mut self,
        task: &Task,
        candidates: &Candidates,
        front: &[u16],
        place: usize,
        seats: Seats,
    ) -> bool
        requires ready { IsReadyTask task.now }
        requires candidates { AreCandidates task.now candidates.now.words.items }
        requires place { place < length task.now.graph.now.atoms.items }
    {
        let places = task.graph.atoms.len();
        let atoms = task.mol.atoms().len();
        for reached in self.reached.iter_mut().take(places) {
            *reached = false;
        }
        for seen in self.seen.iter_mut().take(atoms) {
            *seen = false;
        }
        let mut last = self.reach(place as u16, 0);
        for next in 0..places {
            let from = self.queue.get(next).copied().unwrap_or(NONE);
            if next >= last || usize::from(from) >= places {
                return false;
            }
            match self.step(task, candidates, front, from, last, seats) {
                Some(more) => last = more,
                None => return true,
            }
        }
        false
    }

    // Reaches the seats that the place may take, and from each seat its holder. Returns the new end of the queue.
    // `None` if a seat was free: then it is chosen.
    fn step(
        &mut self,
        task: &Task,
        candidates: &Candidates,
        front: &[u16],
        place: u16,
        queued: usize,
        seats: Seats,
    ) -> Option<usize>
        requires ready { IsReadyTask task.now }
        requires candidates { AreCandidates task.now candidates.now.words.items }
        requires place { place < length task.now.graph.now.atoms.items }
    {
        let mut last = queued;
        for atom in 0..task.mol.atoms().len() as u16 {
            let seat = match seats {
                Seats::Atoms => atom,
                Seats::Components => task.mol.component(atom),
            };
            if self.is_seen(seat) || !may_stand(task, candidates, front, usize::from(place), atom) {
                continue;
            }
            let holder = self.see(seat, place);
            if holder == NONE {
                self.exchange(seat);
                return None;
            }
            last = self.reach(holder, last);
        }
        Some(last)
    }

    fn is_seen(&self, atom: u16) -> bool {
        self.seen.get(usize::from(atom)).copied().unwrap_or(true)
    }

    // Marks an atom as seen from a place. Returns its holder, or `NONE`.
    fn see(&mut self, atom: u16, place: u16) -> u16 {
        if let Some(seen) = self.seen.get_mut(usize::from(atom)) {
            *seen = true;
        }
        if let Some(from) = self.from.get_mut(usize::from(atom)) {
            *from = place;
        }
        self.holder.get(usize::from(atom)).copied().unwrap_or(NONE)
    }

    // Appends a place to the queue, unless it was there before. Returns the new end.
    fn reach(&mut self, place: u16, last: usize) -> usize {
        match self.reached.get_mut(usize::from(place)) {
            Some(reached) if !*reached => *reached = true,
            _ => return last,
        }
        match self.queue.get_mut(last) {
            Some(slot) => *slot = place,
            None => return last,
        }
        last.saturating_add(1)
    }

    // Augments along the path to a free atom: each place on it takes the atom that it reached, back to the place that
    // had no atom.
    fn exchange(&mut self, free: u16) {
        let mut atom = free;
        for _ in 0..MOST_PLACES {
            let place = self.from.get(usize::from(atom)).copied().unwrap_or(NONE);
            if let Some(holder) = self.holder.get_mut(usize::from(atom)) {
                *holder = place;
            }
            match self.chosen.get_mut(usize::from(place)) {
                Some(chosen) => {
                    let before = *chosen;
                    *chosen = atom;
                    atom = before;
                }
                None => return,
            }
            if atom == NONE {
                return;
            }
        }
    }
}
