//! Tests whether the next atom of a graph fits an atom of the molecule, after the atoms before it are placed.
ghost use Rattle.std.specs.Prelude.{◌≡◌, ◌<◌, ◌≤◌, ◌≢◌, ◌+◌, ◌++◌, ◌∷◌, [], ◌↔◌, ℕ, length, map, max, min, All, Contains, IfNone, IfSome, IsTrue};
ghost use Rattle.chem_core.specs.Graph.{JoinsAt};
ghost use Rattle.chem_core.specs.Molecule.{ends_of};
ghost use Rattle.smarts_parse.specs.Embedding.{BondEmbeds};
ghost use Rattle.smarts_parse.specs.Pattern.{bond_of, graph_of, term_of};
ghost use Rattle.smarts_parse.specs.Truth.{BondTrue};
ghost use Rattle.matcher.specs.Candidates.{IsTrueAt};
ghost use Rattle.matcher.specs.Task.{FirstEmbeds, IsPlaced, IsReadyTask};

use crate::group::keeps_groups;
use crate::task::Task;
use chem_core::Mol;
use smarts_mean::bond_true;
use smarts_parse::{BondPrim, Expr, PatBond};

/// True if the next atom may be mapped to `atom` after `front`. Its expression is known to be true there, and its first
/// bond to an earlier atom to embed. Neither is tested again.
pub fn fits(task: &Task, front: &[u16], atom: u16) -> bool
    requires ready { IsReadyTask task.now }
    requires few { length front.now < length task.now.graph.now.atoms.items }
    requires in_range { atom < length task.now.mol.now.atoms }
    requires partial { IsPlaced task.now front.now }
    requires first { FirstEmbeds task.now (length front.now) front.now atom }
    requires holds { IsTrueAt task.now (length front.now) atom }
    ensures { IsTrue result ↔ IsPlaced task.now (front.now ++ atom ∷ []) }
{
    if !is_new(front, atom) {
        return false;
    }
    if !keeps_groups(task, front, front.len(), atom) {
        return false;
    }
    closes(task, front, atom)
}

/// True if the bonds of the next atom to earlier ones embed with it at `atom`. The first of them is known to embed, and
/// is not tested again. Mostly there is no other.
#[inline(always)]
pub fn closes(task: &Task, front: &[u16], atom: u16) -> bool
    requires ready { IsReadyTask task.now }
    requires few { length front.now < length task.now.graph.now.atoms.items }
    requires in_range { All (λ a. a < length task.now.mol.now.atoms) front.now }
    requires first { FirstEmbeds task.now (length front.now) front.now atom }
    ensures { IsTrue result ↔ All
        (λ bond. max bond.a bond.b ≡ length front.now → BondEmbeds task.now.mol.now (front.now ++ atom ∷ []) bond)
        (graph_of task.now.graph.now).bonds }
{
    let step = task.steps[front.len()];
    let count = step.to.saturating_sub(step.from);
    if count <= 1 {
        return true;
    }
    let others = step.others(&task.graph.bonds);
    bonds_embed(others, task.mol, front, atom)
}

/// True only if the first bond of the next atom to an earlier one, if there is one, embeds with it at `atom`.
pub fn first_embeds(task: &Task, front: &[u16], atom: u16) -> bool
    requires ready { IsReadyTask task.now }
    requires few { length front.now < length task.now.graph.now.atoms.items }
    requires partial { IsPlaced task.now front.now }
    ensures { IsTrue result → FirstEmbeds task.now (length front.now) front.now atom }
{
    let step = task.steps[front.len()];
    if step.from >= step.to {
        return true;
    }
    bond_embeds(&task.graph.bonds[step.from], task.mol, front, atom)
}

/// True if the atom is not one of `front`.
pub fn is_new(front: &[u16], atom: u16) -> bool
    ensures { IsTrue result ↔ ¬ Contains front.now atom }
{
    !front.contains(&atom)
}

// True if each bond of the next atom to an earlier one embeds with it at `atom`.
fn bonds_embed(bonds: &[PatBond], mol: &Mol, front: &[u16], atom: u16) -> bool
    requires apart { All (λ bond. bond.a ≢ bond.b) (map bond_of bonds.now) }
    requires in_range { All (λ a. a < length mol.now.atoms) front.now }
    ensures { IsTrue result ↔ All
        (λ bond. max bond.a bond.b ≡ length front.now → BondEmbeds mol.now (front.now ++ atom ∷ []) bond)
        (map bond_of bonds.now) }
{
    for bond in bonds {
        if usize::from(bond.a.max(bond.b)) == front.len() && !bond_embeds(bond, mol, front, atom) {
            return false;
        }
    }
    true
}

// True if a bond from an earlier atom to the next embeds with it at `atom`.
fn bond_embeds(bond: &PatBond, mol: &Mol, front: &[u16], atom: u16) -> bool
    requires high { max bond.now.a bond.now.b ≡ length front.now }
    requires apart { bond.now.a ≢ bond.now.b }
    requires in_range { All (λ a. a < length mol.now.atoms) front.now }
    ensures { IsTrue result ↔ BondEmbeds mol.now (front.now ++ atom ∷ []) (bond_of bond.now) }
{
    are_joined_by(
        &bond.expr,
        mol,
        front[usize::from(bond.a.min(bond.b))],
        atom,
    )
}

/// True if a bond joins the two atoms at which the expression is true.
pub fn are_joined_by(expr: &Expr<BondPrim>, mol: &Mol, from: u16, to: u16) -> bool
    requires { from < length mol.now.atoms }
    ensures { IsTrue result
        ↔ ((b : ℕ) × JoinsAt (ends_of mol.now) b from to × BondTrue (term_of expr.now) mol.now b) }
{
    match bond_between(mol, from, to) {
        Some(place) => bond_true(expr, mol, place),
        None => false,
    }
}

// The bond between two atoms, if there is one.
fn bond_between(mol: &Mol, from: u16, to: u16) -> Option<u16>
    requires { from < length mol.now.atoms }
    ensures found { IfSome result (λ b. JoinsAt (ends_of mol.now) b from to) }
    ensures bond { IfSome result (λ b. b < length mol.now.bonds) }
    ensures only { IfSome result
        (λ b. (other : ℕ) → JoinsAt (ends_of mol.now) other from to → other ≡ b) }
    ensures none { IfNone result ((b : ℕ) → ¬ JoinsAt (ends_of mol.now) b from to) }
{
    let neighbours = mol.neighbours(from);
    for (neighbour, bond) in neighbours {
        if *neighbour == to {
            return Some(*bond);
        }
    }
    None
}
