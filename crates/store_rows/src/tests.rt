//! The tables, a file for each part.

use mol_finish::Format;
use std::alloc::Global;
use std::test::Fail;
use store_core::{Change, Record, Service, Store};

mod chains;
mod kept;
mod lookups;
mod openings;
mod pins;
mod records;
mod searches;
mod stores;
mod watches;
mod worlds;

// A store in memory of SMILES texts, at most 999, under identifiers from 1 on.
fn store_of(alloc: Global, texts: &[&[u8]]) -> Result<Store, Fail> {
    let mut store = Store::fresh(alloc, 1_000);
    for id in 1..1_000_u32 {
        if let Some(text) = texts.get(id as usize - 1) {
            let record = Record::make(alloc, id, Format::Smiles, text)?;
            store.commit(Change::Register(record))?;
        }
    }
    Ok(store)
}
