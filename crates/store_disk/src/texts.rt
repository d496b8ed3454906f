//! The texts of many commits, or of many base entries, read by several threads. Each thread keeps its working memory
//! from one text to the next.
ghost use Rattle.std.specs.Prelude.{◌≡◌, ◌<◌, All, IfOk, ℕ};
ghost use Rattle.std.specs.List.{flat_map};
ghost use Rattle.commit_log.specs.declared.base.BaseEntry.{BaseEntry as TheEntry};
ghost use Rattle.store_machine.specs.History.{IsId};
ghost use Rattle.store_disk.specs.Replays.{AreLogged};
ghost use Rattle.store_disk.specs.Texts.{AreChanges, AreRecords};

use crate::payload::{ReadChange, ReadRecord, change_from, record_from};
use commit_log::{BaseEntry, Commit};
use rayon::prelude::*;
use std::alloc::{AllocError, Global};
use std::thread::Threads;
use store_core::Recorder;

// The fewest texts that are worth a thread of their own.
const LEAST_PIECE: usize = 8;

/// The changes of commits, in order, read by at most `workers` threads. 0 counts as 1. A text that is refused leaves
/// the others as they are. An error is want of memory for the list of the answers.
pub(crate) fn read_changes<R: Threads + Sync>(
    rt: &R,
    alloc: Global,
    workers: usize,
    commits: &[Commit],
) -> Result<Vec<ReadChange>, AllocError>
    requires { AreLogged commits.now }
    ensures { IfOk result (λ changes. AreChanges commits.now changes.items) }
{
    let read: Result<Vec<Vec<ReadChange>>, AllocError> = commits
        .par_chunks(piece_size(commits.len(), workers))
        .with_min_len(1)
        .map(
            |piece: &[Commit]| -> Result<Vec<ReadChange>, AllocError>
                requires { AreLogged piece.now }
                ensures { IfOk result (λ changes. AreChanges piece.now changes.items) }
            { read_piece(alloc, piece) },
        )
        .collect(rt, alloc)?;
    match read {
        Ok(pieces) => joined(alloc, pieces),
        Err(fault) => Err(fault),
    }
}

/// The records of base entries, as `read_changes` reads those of commits.
pub(crate) fn read_records<R: Threads + Sync>(
    rt: &R,
    alloc: Global,
    workers: usize,
    entries: &[(u64, BaseEntry)],
) -> Result<Vec<ReadRecord>, AllocError>
    requires { All (λ (e : ℕ × TheEntry). IsId e.1.id) entries.now }
    ensures { IfOk result (λ records. AreRecords entries.now records.items) }
{
    let read: Result<Vec<Vec<ReadRecord>>, AllocError> = entries
        .par_chunks(piece_size(entries.len(), workers))
        .with_min_len(1)
        .map(
            |piece: &[(u64, BaseEntry)]| -> Result<Vec<ReadRecord>, AllocError>
                requires { All (λ (e : ℕ × TheEntry). IsId e.1.id) piece.now }
                ensures { IfOk result (λ records. AreRecords piece.now records.items) }
            { read_base_piece(alloc, piece) },
        )
        .collect(rt, alloc)?;
    match read {
        Ok(pieces) => joined(alloc, pieces),
        Err(fault) => Err(fault),
    }
}

// How many texts a thread reads. A shorter last piece is read by the last thread.
fn piece_size(texts: usize, workers: usize) -> usize
    ensures { 0 < result }
{
    (texts / workers.max(1)).max(LEAST_PIECE)
}

// The changes of commits, in order, by one thread.
fn read_piece(alloc: Global, commits: &[Commit]) -> Result<Vec<ReadChange>, AllocError>
    requires { AreLogged commits.now }
    ensures { IfOk result (λ changes. AreChanges commits.now changes.items) }
{
    let mut recorder = Recorder::new(alloc);
    let mut changes = Vec::with_capacity(alloc, commits.len())?;
    for commit in commits {
        changes.push(change_from(&mut recorder, &commit.wire))?;
    }
    Ok(changes)
}

// The records of base entries, in order, by one thread.
fn read_base_piece(
    alloc: Global,
    entries: &[(u64, BaseEntry)],
) -> Result<Vec<ReadRecord>, AllocError>
    requires { All (λ (e : ℕ × TheEntry). IsId e.1.id) entries.now }
    ensures { IfOk result (λ records. AreRecords entries.now records.items) }
{
    let mut recorder = Recorder::new(alloc);
    let mut records = Vec::with_capacity(alloc, entries.len())?;
    for entry in entries {
        records.push(record_from(&mut recorder, &entry.1))?;
    }
    Ok(records)
}

// The items of pieces side by side.
fn joined<T: Drop>(alloc: Global, pieces: Vec<Vec<T>>) -> Result<Vec<T>, AllocError>
    ensures { IfOk result (λ all. all.items ≡ flat_map (λ piece. piece.items) pieces.items) }
{
    let mut all = Vec::new(alloc);
    for piece in pieces {
        let mut piece = piece;
        all.append(&mut piece)?;
    }
    Ok(all)
}
