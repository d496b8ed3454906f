//! The search for the least embedding in a molecule of at most 64 atoms. A word has a bit for each atom: those that are
//! taken, and the candidates of a place. Larger molecules, and the places from one of a group on, are left to `search`.
ghost use Rattle.std.specs.Prelude.{◌≡◌, ◌≢◌, ◌<◌, ◌≤◌, ◌++◌, ◌∷◌, [], false, length, take, IsTrue};
ghost use Rattle.std.specs.Int.{bit_at};
ghost use Rattle.matcher.specs.Candidates.{AreCandidates, IsTrueAt};
ghost use Rattle.matcher.specs.Group.{group_at};
ghost use Rattle.matcher.specs.Lean.{HasJust};
ghost use Rattle.matcher.specs.Task.{Completes, FirstEmbeds, IsBonded, IsLeastPlaced, IsPlaced, IsReadyTask};

use crate::candidates::{Candidates, MOST_BITS, all_in, has};
use crate::choices::Choices;
use crate::fit::closes;
use crate::search::{extend, extend_at};
use crate::task::Task;
use smarts_mean::bond_true;

/// Places the graph's atoms as the least embedding. Returns false if there is no embedding.
///
/// The depth of the calls is at most the number of the graph's atoms, at most 256.
pub fn place_least(
    task: &Task,
    candidates: &Candidates,
    image: &mut [u16],
    choices: &mut Choices,
) -> bool
    requires ready { IsReadyTask task.now }
    requires room { length task.now.graph.now.atoms.items ≤ length image.old }
    requires candidates { AreCandidates task.now candidates.now.words.items }
    ensures found { IsTrue result → IsLeastPlaced task.now []
        (take (length task.now.graph.now.atoms.items) image.new) }
    ensures none { result ≡ false → ¬ Completes task.now [] }
{
    if task.mol.atoms().len() > MOST_BITS {
        return extend(task, candidates, image, choices, 0);
    }
    place_rest(task, candidates, image, choices, 0, 0)
}

/// As `place_least`, with the first place at `atom`.
pub fn place_from(
    task: &Task,
    candidates: &Candidates,
    image: &mut [u16],
    choices: &mut Choices,
    atom: u16,
) -> bool
    requires ready { IsReadyTask task.now }
    requires room { length task.now.graph.now.atoms.items ≤ length image.old }
    requires some { 0 < length task.now.graph.now.atoms.items }
    requires in_range { atom < length task.now.mol.now.atoms }
    requires holds { IsTrueAt task.now 0 atom }
    requires candidates { AreCandidates task.now candidates.now.words.items }
    ensures found { IsTrue result → IsLeastPlaced task.now (atom ∷ [])
        (take (length task.now.graph.now.atoms.items) image.new) }
    ensures none { result ≡ false → ¬ Completes task.now (atom ∷ []) }
{
    let group = task.graph.groups[0];
    if task.mol.atoms().len() > MOST_BITS || group != 0 {
        return extend_at(task, candidates, image, choices, 0, atom);
    }
    place_at(task, candidates, image, choices, 0, 0, atom)
}

// Places the graph's other atoms after the first `placed`, which `used` has, as the least embedding that begins so.
// Returns false if there is no such embedding.
#[cycle(lean)]
fn place_rest(
    task: &Task,
    candidates: &Candidates,
    image: &mut [u16],
    choices: &mut Choices,
    used: u64,
    placed: usize,
) -> bool
    requires ready { IsReadyTask task.now }
    requires small { length task.now.mol.now.atoms ≤ 64 }
    requires room { length task.now.graph.now.atoms.items ≤ length image.old }
    requires few { placed ≤ length task.now.graph.now.atoms.items }
    requires partial { IsPlaced task.now (take placed image.old) }
    requires used { HasJust used (take placed image.old) }
    requires candidates { AreCandidates task.now candidates.now.words.items }
    ensures kept { take placed image.new ≡ take placed image.old }
    ensures found { IsTrue result → IsLeastPlaced task.now
        (take placed image.old) (take (length task.now.graph.now.atoms.items) image.new) }
    ensures none { result ≡ false → ¬ Completes task.now (take placed image.old) }
{
    if placed == task.graph.atoms.len() {
        return true;
    }
    let group = task.graph.groups[placed];
    if group != 0 {
        return extend(task, candidates, image, choices, placed);
    }
    let step = task.steps[placed];
    if step.from < step.to {
        place_near(task, candidates, image, choices, used, placed)
    } else {
        place_anywhere(task, candidates, image, choices, used, placed)
    }
}

// As `place_rest`, if no bond joins the next atom, which is of no group, to an earlier one.
#[cycle(lean)]
fn place_anywhere(
    task: &Task,
    candidates: &Candidates,
    image: &mut [u16],
    choices: &mut Choices,
    used: u64,
    placed: usize,
) -> bool
    requires ready { IsReadyTask task.now }
    requires small { length task.now.mol.now.atoms ≤ 64 }
    requires room { length task.now.graph.now.atoms.items ≤ length image.old }
    requires few { placed < length task.now.graph.now.atoms.items }
    requires partial { IsPlaced task.now (take placed image.old) }
    requires used { HasJust used (take placed image.old) }
    requires free { ¬ IsBonded task.now placed }
    requires single { group_at task.now placed ≡ 0 }
    requires candidates { AreCandidates task.now candidates.now.words.items }
    ensures kept { take placed image.new ≡ take placed image.old }
    ensures found { IsTrue result → IsLeastPlaced task.now
        (take placed image.old) (take (length task.now.graph.now.atoms.items) image.new) }
    ensures none { result ≡ false → ¬ Completes task.now (take placed image.old) }
{
    let word = candidates.words[placed];
    let mut left = word & all_in(task.mol, 0) & !used;
    while left != 0 {
        let bit = left.trailing_zeros();
        left &= !(1 << bit);
        let failures = choices.failures();
        if place_at(task, candidates, image, choices, used, placed, bit as u16) {
            return true;
        }
        if choices.refuse_since(failures, task, candidates, &image[..placed]) {
            return false;
        }
    }
    choices.fail();
    false
}

// As `place_rest`, if the next atom's first bond joins it to an earlier one: it is mapped to a neighbour of that one.
#[cycle(lean)]
fn place_near(
    task: &Task,
    candidates: &Candidates,
    image: &mut [u16],
    choices: &mut Choices,
    used: u64,
    placed: usize,
) -> bool
    requires ready { IsReadyTask task.now }
    requires small { length task.now.mol.now.atoms ≤ 64 }
    requires room { length task.now.graph.now.atoms.items ≤ length image.old }
    requires few { placed < length task.now.graph.now.atoms.items }
    requires partial { IsPlaced task.now (take placed image.old) }
    requires used { HasJust used (take placed image.old) }
    requires bonded { IsBonded task.now placed }
    requires single { group_at task.now placed ≡ 0 }
    requires candidates { AreCandidates task.now candidates.now.words.items }
    ensures kept { take placed image.new ≡ take placed image.old }
    ensures found { IsTrue result → IsLeastPlaced task.now
        (take placed image.old) (take (length task.now.graph.now.atoms.items) image.new) }
    ensures none { result ≡ false → ¬ Completes task.now (take placed image.old) }
{
    let bond = &task.graph.bonds[task.steps[placed].from];
    let earlier = image[usize::from(bond.a.min(bond.b))];
    let word = candidates.words[placed];
    let free = word & !used;
    let neighbours = task.mol.neighbours(earlier);
    for (atom, by) in neighbours {
        if !has(free, *atom) {
            continue;
        }
        if !bond_true(&bond.expr, task.mol, *by) {
            continue;
        }
        if place_at(task, candidates, image, choices, used, placed, *atom) {
            return true;
        }
    }
    false
}

// As `place_rest`, with the next atom, which is of no group, at `atom`, which is not taken. Its first bond to an
// earlier atom, if it has one, is known to embed.
#[cycle(lean)]
#[inline(always)]
fn place_at(
    task: &Task,
    candidates: &Candidates,
    image: &mut [u16],
    choices: &mut Choices,
    used: u64,
    placed: usize,
    atom: u16,
) -> bool
    requires ready { IsReadyTask task.now }
    requires small { length task.now.mol.now.atoms ≤ 64 }
    requires room { length task.now.graph.now.atoms.items ≤ length image.old }
    requires few { placed < length task.now.graph.now.atoms.items }
    requires in_range { atom < length task.now.mol.now.atoms }
    requires partial { IsPlaced task.now (take placed image.old) }
    requires used { HasJust used (take placed image.old) }
    requires new { bit_at used atom ≢ 1 }
    requires first { FirstEmbeds task.now placed (take placed image.old) atom }
    requires single { group_at task.now placed ≡ 0 }
    requires holds { IsTrueAt task.now placed atom }
    requires candidates { AreCandidates task.now candidates.now.words.items }
    ensures kept { take placed image.new ≡ take placed image.old }
    ensures found { IsTrue result → IsLeastPlaced task.now
        (take placed image.old ++ atom ∷ []) (take (length task.now.graph.now.atoms.items) image.new) }
    ensures none { result ≡ false → ¬ Completes task.now (take placed image.old ++ atom ∷ []) }
{
    if !closes(task, &image[..placed], atom) {
        return false;
    }
    image[placed] = atom;
    place_rest(
        task,
        candidates,
        image,
        choices,
        used | (1 << atom),
        placed + 1,
    )
}
