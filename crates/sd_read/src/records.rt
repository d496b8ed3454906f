//! The records of many texts.
ghost use Rattle.std.specs.Prelude.{◌+◌, ◌<◌, ℕ, IfOk, length};
ghost use Rattle.store_machine.specs.History.{IsId};
ghost use Rattle.sd_read.specs.Records.{AreMade, IsMade};

use mol_finish::{Format, TextFault};
use rayon::prelude::*;
use std::alloc::{AllocError, Global};
use std::sync::Arc;
use std::thread::Threads;
use store_core::Record;

// The fewest texts that are worth a thread of their own.
const LEAST_PIECE: usize = 8;

/// Makes a record of each molfile, in order, under identifiers from `first` on, and returns the answers. A refused text
/// leaves the others as they are. Texts are read in several threads, if there are enough of them.
///
/// An error is want of memory for the list of the answers.
pub fn read_records<R: Threads + Sync>(
    rt: &R,
    alloc: Global,
    first: u32,
    texts: &[Vec<u8>],
) -> Result<Vec<Result<Arc<Record>, TextFault>>, AllocError>
    requires ids { (place : ℕ) → place < length texts.now → IsId (first + place) }
    ensures { IfOk result (λ answers. AreMade first texts.now answers.items) }
{
    texts
        .par_iter()
        .enumerate()
        .with_min_len(LEAST_PIECE)
        .map(
            |item: (usize, &Vec<u8>)| -> Result<Arc<Record>, TextFault>
                requires { IsId (first + item.0) }
                ensures { IsMade (first + item.entry.0) item.entry.1.now.items result }
            { made(alloc, first + item.0 as u32, item.1.as_slice()) },
        )
        .collect(rt, alloc)
}

// The record of a molfile.
fn made(alloc: Global, id: u32, text: &[u8]) -> Result<Arc<Record>, TextFault>
    requires { IsId id }
    ensures { IsMade id text.now result }
{
    Record::make(alloc, id, Format::Molfile, text)
}
