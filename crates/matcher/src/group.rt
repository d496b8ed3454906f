//! Groups of places: the places of one group are mapped into one component of the molecule, those of different groups
//! into different ones. A place of no group is mapped anywhere.
ghost use Rattle.std.specs.Prelude.{◌≡◌, ◌<◌, ◌≤◌, ◌↔◌, ℕ, Bool, true, List, count_by, length, slice_index_or, IsTrue};
ghost use Rattle.matcher.specs.Group.{BeginsGroup, HasFew, IsNowhere, KeepsGroup, KeepsGroups, is_of_group};
ghost use Rattle.matcher.specs.Task.{IsReadyTask};

use crate::task::Task;
use chem_core::Mol;

/// True if a place keeps to groups at `atom`, beside the places that `taken` maps.
#[inline(always)]
pub fn keeps_groups(task: &Task, taken: &[u16], place: usize, atom: u16) -> bool
    requires ready { IsReadyTask task.now }
    requires place { place < length task.now.graph.now.atoms.items }
    requires atom { atom < length task.now.mol.now.atoms }
    ensures { IsTrue result ↔ KeepsGroups task.now taken.now place atom }
{
    let group = task.graph.groups[place];
    if group == 0 {
        return true;
    }
    keeps_group(task, taken, group, atom)
}

// As `keeps_groups`, but of a place of a group. Most patterns have no groups.
#[cold]
fn keeps_group(task: &Task, taken: &[u16], group: u16, atom: u16) -> bool
    requires ready { IsReadyTask task.now }
    requires atom { atom < length task.now.mol.now.atoms }
    ensures { IsTrue result ↔ KeepsGroup task.now taken.now group atom }
{
    let component = task.mol.component(atom);
    for place in 0..taken.len().min(task.graph.groups.len()) {
        let other = taken[place];
        let theirs = task.graph.groups[place];
        if theirs == 0 {
            continue;
        }
        if usize::from(other) >= task.mol.atoms().len() {
            continue;
        }
        let there = task.mol.component(other);
        if theirs == group {
            if there != component {
                return false;
            }
            continue;
        }
        if there == component {
            return false;
        }
    }
    true
}

/// True if the place is the first of a group.
pub fn begins_group(task: &Task, place: usize) -> bool
    requires ready { IsReadyTask task.now }
    requires place { place < length task.now.graph.now.atoms.items }
    ensures { IsTrue result ↔ BeginsGroup task.now place }
{
    let group = task.graph.groups[place];
    if group == 0 {
        return false;
    }
    !task.graph.groups[..place].contains(&group)
}

/// True only if the group of a place has more places than the component of an atom has atoms. Then no embedding maps
/// the place to it.
pub fn lacks_room(task: &Task, place: usize, atom: u16) -> bool
    requires ready { IsReadyTask task.now }
    requires place { place < length task.now.graph.now.atoms.items }
    requires atom { atom < length task.now.mol.now.atoms }
    ensures { IsTrue result → IsNowhere task.now place atom }
{
    let group = task.graph.groups[place];
    if group == 0 {
        return false;
    }
    has_few_atoms(task.mol, atom, places_of(&task.graph.groups, group))
}

// The number of places of the group.
fn places_of(groups: &[u16], group: u16) -> usize
    ensures { result ≡ count_by (is_of_group group) groups.now }
{
    let mut count = 0;
    for other in groups {
        if *other == group {
            count += 1;
        }
    }
    count
}

// True only if the component of an atom has fewer than `count` atoms.
fn has_few_atoms(mol: &Mol, atom: u16, count: usize) -> bool
    requires { atom < length mol.now.atoms }
    ensures { IsTrue result → HasFew mol.now atom count }
{
    let component = mol.component(atom);
    let mut found = 0;
    for other in 0..mol.atoms().len() as u16 {
        if mol.component(other) != component {
            continue;
        }
        found += 1;
        if found >= count {
            return false;
        }
    }
    found < count
}
