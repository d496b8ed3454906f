//! The places of a graph are mapped in turn, each to the lowest atoms first, so that the first embedding found is the
//! least.
ghost use Rattle.std.specs.Prelude.{◌≡◌, ◌<◌, ◌≤◌, ◌+◌, ◌++◌, ◌∷◌, [], false, length, take, IsTrue};
ghost use Rattle.matcher.specs.Candidates.{AreCandidates, IsTrueAt};
ghost use Rattle.matcher.specs.Task.{Completes, FirstEmbeds, IsBonded, IsLeastPlaced, IsPlaced, IsReadyTask};

use crate::candidates::Candidates;
use crate::choices::Choices;
use crate::fit::fits;
use crate::task::Task;
use smarts_mean::bond_true;

/// Places the graph's other atoms after the first `placed`, as the least embedding that begins so. Returns false if
/// there is no such embedding.
///
/// The depth of the calls is at most the number of the graph's atoms, at most 256.
#[cycle(search)]
pub fn extend(
    task: &Task,
    candidates: &Candidates,
    image: &mut [u16],
    choices: &mut Choices,
    placed: usize,
) -> bool
    requires ready { IsReadyTask task.now }
    requires room { length task.now.graph.now.atoms.items ≤ length image.old }
    requires few { placed ≤ length task.now.graph.now.atoms.items }
    requires partial { IsPlaced task.now (take placed image.old) }
    requires candidates { AreCandidates task.now candidates.now.words.items }
    ensures kept { take placed image.new ≡ take placed image.old }
    ensures found { IsTrue result → IsLeastPlaced task.now
        (take placed image.old) (take (length task.now.graph.now.atoms.items) image.new) }
    ensures none { result ≡ false → ¬ Completes task.now (take placed image.old) }
{
    if placed == task.graph.atoms.len() {
        return true;
    }
    let step = task.steps[placed];
    if step.from < step.to {
        extend_near(task, candidates, image, choices, placed)
    } else {
        extend_anywhere(task, candidates, image, choices, placed)
    }
}

// As `extend`, if no bond joins the next atom to an earlier one.
#[cycle(search)]
fn extend_anywhere(
    task: &Task,
    candidates: &Candidates,
    image: &mut [u16],
    choices: &mut Choices,
    placed: usize,
) -> bool
    requires ready { IsReadyTask task.now }
    requires room { length task.now.graph.now.atoms.items ≤ length image.old }
    requires few { placed < length task.now.graph.now.atoms.items }
    requires partial { IsPlaced task.now (take placed image.old) }
    requires free { ¬ IsBonded task.now placed }
    requires candidates { AreCandidates task.now candidates.now.words.items }
    ensures kept { take placed image.new ≡ take placed image.old }
    ensures found { IsTrue result → IsLeastPlaced task.now
        (take placed image.old) (take (length task.now.graph.now.atoms.items) image.new) }
    ensures none { result ≡ false → ¬ Completes task.now (take placed image.old) }
{
    for atom in 0..task.mol.atoms().len() as u16 {
        if !candidates.has(placed, atom) {
            continue;
        }
        let failures = choices.failures();
        if extend_at(task, candidates, image, choices, placed, atom) {
            return true;
        }
        if choices.refuse_since(failures, task, candidates, &image[..placed]) {
            return false;
        }
    }
    choices.fail();
    false
}

// As `extend`, if the next atom's first bond joins it to an earlier one: it is mapped to a neighbour of that one.
#[cycle(search)]
fn extend_near(
    task: &Task,
    candidates: &Candidates,
    image: &mut [u16],
    choices: &mut Choices,
    placed: usize,
) -> bool
    requires ready { IsReadyTask task.now }
    requires room { length task.now.graph.now.atoms.items ≤ length image.old }
    requires few { placed < length task.now.graph.now.atoms.items }
    requires partial { IsPlaced task.now (take placed image.old) }
    requires bonded { IsBonded task.now placed }
    requires candidates { AreCandidates task.now candidates.now.words.items }
    ensures kept { take placed image.new ≡ take placed image.old }
    ensures found { IsTrue result → IsLeastPlaced task.now
        (take placed image.old) (take (length task.now.graph.now.atoms.items) image.new) }
    ensures none { result ≡ false → ¬ Completes task.now (take placed image.old) }
{
    let bond = &task.graph.bonds[task.steps[placed].from];
    let earlier = image[usize::from(bond.a.min(bond.b))];
    let neighbours = task.mol.neighbours(earlier);
    for (atom, by) in neighbours {
        if !candidates.has(placed, *atom) {
            continue;
        }
        if !bond_true(&bond.expr, task.mol, *by) {
            continue;
        }
        if extend_at(task, candidates, image, choices, placed, *atom) {
            return true;
        }
    }
    false
}

/// As `extend`, with the next atom at `atom`. Its first bond to an earlier atom, if it has one, is known to embed.
#[cycle(search)]
pub fn extend_at(
    task: &Task,
    candidates: &Candidates,
    image: &mut [u16],
    choices: &mut Choices,
    placed: usize,
    atom: u16,
) -> bool
    requires ready { IsReadyTask task.now }
    requires room { length task.now.graph.now.atoms.items ≤ length image.old }
    requires few { placed < length task.now.graph.now.atoms.items }
    requires in_range { atom < length task.now.mol.now.atoms }
    requires partial { IsPlaced task.now (take placed image.old) }
    requires first { FirstEmbeds task.now placed (take placed image.old) atom }
    requires holds { IsTrueAt task.now placed atom }
    requires candidates { AreCandidates task.now candidates.now.words.items }
    ensures kept { take placed image.new ≡ take placed image.old }
    ensures found { IsTrue result → IsLeastPlaced task.now
        (take placed image.old ++ atom ∷ []) (take (length task.now.graph.now.atoms.items) image.new) }
    ensures none { result ≡ false → ¬ Completes task.now (take placed image.old ++ atom ∷ []) }
{
    if !fits(task, &image[..placed], atom) {
        return false;
    }
    image[placed] = atom;
    if choices.refuse_group(task, candidates, &image[..placed + 1]) {
        return false;
    }
    extend(task, candidates, image, choices, placed + 1)
}
