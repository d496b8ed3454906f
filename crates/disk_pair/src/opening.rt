//! Two disks are opened: one of them is picked, and its journal is read.

ghost use Rattle.std.specs.Prelude.{◌≡◌, ◌⊎◌, None, IfErr, IfOk};
ghost use Rattle.disk_edge.specs.Disk.{Exactly, Faulted, IfTold, OnNoMemory};
ghost use Rattle.journal_core.specs.Fronts.{IsOpen};
ghost use Rattle.journal_core.specs.Looks.{Narrows};
ghost use Rattle.disk_pair.specs.Choices.{Chosen, IsRead};
ghost use Rattle.disk_pair.specs.Loads.{IsOpening, a_after, b_after, current_after};
ghost use Rattle.disk_pair.specs.Stands.{OtherHas};

use crate::choice::{Which, choose};
use disk_edge::{Disk, DiskFail};
use journal_core::{Journal, LoadFault, peek_header};
use std::alloc::Global;

/// The two disks at a load. `journal`: that of the disk that is read, at its first base record, or at its first commit
/// if it has no base. `other`: the other disk. `second`: true if the second of the two disks is read.
#[derive(Drop)]
pub struct Picked<D: Disk> {
    pub journal: Journal<D>,
    pub other: D,
    pub second: bool,
}

/// Syncs two disks, and opens the journal of the one that is read. It is the one of greater generation of two that are
/// open, and `a` if both are equal. Nothing is written. Takes no memory.
///
/// `NotAStore`: neither disk is open. `Disk`: a disk failed, and counted a fault. Each fault returns the disks.
pub fn load<D: Disk>(alloc: Global, a: D, b: D) -> Result<Picked<D>, (LoadFault, D, D)>
    ensures picks { IfOk result (λ picked. IfTold (D.model.content a)
        (λ x. IfTold (D.model.content b) (λ y. IsRead picked.second x y))) }
    ensures opening { IfOk result (λ picked. IsOpening D.model picked.journal) }

    // Each image of the other disk is not read beside the one that is read.
    ensures other { IfOk result (λ picked. IfTold (D.model.content picked.journal.disk)
        (λ _. IfTold (D.model.content picked.other) (λ _.
        OtherHas picked.second picked.journal.header.generation None
        (D.model.images picked.other)))) }
    ensures not_a_store { IfErr result (λ e. e.0 ≡ LoadFault.NotAStore → IfTold (D.model.content a)
        (λ x. IfTold (D.model.content b) (λ y. (¬ IsOpen x) × (¬ IsOpen y)))) }
    ensures cause { IfErr result (λ e. e.0 ≡ LoadFault.Disk
        → Faulted D.model a e.1 ⊎ Faulted D.model b e.2) }
    ensures no_other { IfErr result
        (λ e. (e.0 ≡ LoadFault.NotAStore) ⊎ (e.0 ≡ LoadFault.Disk)) }

    // Each image that was possible during the call was possible before it.
    ensures narrows_a { Narrows D.model a (a_after result) }
    ensures narrows_b { Narrows D.model b (b_after result) }
{
    let mut a = a;
    let mut b = b;
    match which_is_read(&mut a, &mut b) {
        Ok(Some(Which::First)) => match open_picked(alloc, a, b, false) {
            Ok(picked) => Ok(picked),
            Err((fault, a, b)) => Err((fault, a, b)),
        },
        Ok(Some(Which::Second)) => match open_picked(alloc, b, a, true) {
            Ok(picked) => Ok(picked),
            Err((fault, b, a)) => Err((fault, a, b)),
        },
        Ok(None) => Err((LoadFault::NotAStore, a, b)),
        Err(_) => Err((LoadFault::Disk, a, b)),
    }
}

// Opens the journal of the disk that is read.
fn open_picked<D: Disk>(
    alloc: Global,
    current: D,
    other: D,
    second: bool,
) -> Result<Picked<D>, (LoadFault, D, D)>
    ensures opening { IfOk result (λ picked. IsOpening D.model picked.journal) }
    ensures kept { IfOk result (λ picked. (picked.other ≡ other) × (picked.second ≡ second)) }
    ensures came_back { IfErr result (λ e. e.2 ≡ other) }
    ensures not_a_store { IfErr result (λ e. e.0 ≡ LoadFault.NotAStore
        → IfTold (D.model.content current) (λ l. ¬ IsOpen l)) }
    ensures cause { IfErr result (λ e. e.0 ≡ LoadFault.Disk → Faulted D.model current e.1) }
    ensures no_other { IfErr result
        (λ e. (e.0 ≡ LoadFault.NotAStore) ⊎ (e.0 ≡ LoadFault.Disk)) }
    ensures narrows { Narrows D.model current (current_after result) }
{
    match Journal::load(alloc, current) {
        Ok(journal) => Ok(Picked {
            journal,
            other,
            second,
        }),
        Err((fault, current)) => Err((fault, current, other)),
    }
}

/// Syncs both disks, and returns the one that a load reads; `None` if neither is open. Nothing is written. Takes no
/// memory.
///
/// `Failed`: a disk failed, and counted a fault.
pub fn which_is_read<D: Disk>(a: &mut D, b: &mut D) -> Result<Option<Which>, DiskFail>
    ensures chosen { IfOk result (λ which. IfTold (D.model.content a.old)
        (λ x. IfTold (D.model.content b.old) (λ y. Chosen which x y))) }
    ensures synced_a { IfOk result (λ _. IfTold (D.model.content a.new)
        (λ x. Exactly x (D.model.images a.new))) }
    ensures synced_b { IfOk result (λ _. IfTold (D.model.content b.new)
        (λ y. Exactly y (D.model.images b.new))) }
    ensures cause { IfErr result (λ _. Faulted D.model a.old a.new ⊎ Faulted D.model b.old b.new) }
    ensures no_memory { OnNoMemory result ⊥ }
    ensures narrows_a { Narrows D.model a.old a.new }
    ensures narrows_b { Narrows D.model b.old b.new }
{
    let first = peek_header(a)?;
    let second = peek_header(b)?;
    Ok(choose(first, second))
}
