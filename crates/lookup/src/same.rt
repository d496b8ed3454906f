//! The identifiers that are the same structure as a given one.
ghost use Rattle.std.specs.Prelude.{◌≡◌, ◌≤◌, ◌↔◌, [], IfOk, IsTrue, length};
ghost use Rattle.store_core.specs.Calls.{NotRaised};
ghost use Rattle.store_core.specs.declared.page.TheConstants.{MOST_RECORDS};
ghost use Rattle.lookup.specs.Fetches.{Looks};
ghost use Rattle.lookup.specs.Lists.{IsSameList};

use crate::hits::HitList;
use crate::pages::{Visit, see_head};
use chem_core::Mol;
use exact_find::{Key, SameScratch, key_of, same, same_have_equal_keys};
use mol_finish::one_structure;
use par_search::SearchFault;
use std::alloc::{AllocError, Global};
use store_core::{Record, Service};

/// Lists the records of the same structure as a given record, by pages of 1 to 256 records. It pins the head, and
/// fetches all records whose print has the bits of the record's. Then it gives the pin back, on want of memory too.
pub fn find_same<S: Service>(
    alloc: Global,
    service: &mut S,
    given: &Record,
    page_size: u32,
) -> Result<HitList, SearchFault>
    requires some { 1 ≤ page_size }
    requires few { page_size ≤ MOST_RECORDS }
    ensures looks { Looks S.Service service.old service.new page_size given.now.print
        (IsSameList given.now.mol) result }
    ensures bounds { NotRaised (S.bounds service.old) (S.bounds service.new) }
{
    let mut sames = Sames::of(alloc, given)?;
    let seen = see_head(alloc, service, given, given.print(), page_size, &mut sames)?;
    Ok(HitList {
        version: seen.version,
        tried: seen.count,
        hits: sames.hits,
    })
}

// Those that are the same as a given record, whose key this is.
#[derive(Drop)]
struct Sames {
    key: Key,
    scratch: SameScratch,
    hits: Vec<u32>,
}

impl Sames {
    ghost use Rattle.chem_core.specs.Molecule.{IsMolecule};
    ghost use Rattle.exact_find.specs.Key.{IsKey};
    ghost use Rattle.exact_find.specs.Same.{IsSame};
    ghost use Rattle.mol_finish.specs.Structure.{HasMolecule};
    ghost use Rattle.lookup.specs.Walks.{HasPicked};

    // None seen yet.
    fn of(alloc: Global, given: &Record) -> Result<Sames, AllocError>
        ensures none { IfOk result (λ sames. HasPicked given.now.mol sames.key [] sames.hits.items) }
    {
        Ok(Sames {
            key: key_of(given.mol()),
            scratch: SameScratch::reserve(alloc)?,
            hits: Vec::new(alloc),
        })
    }

    // True if another record is the same as the given one. Counts of atoms and bonds are compared first, then keys.
    fn is_same(&mut self, given: &Record, other: &Record) -> bool
        ensures is { IsMolecule given.now.mol → IsKey given.now.mol self.old.key
            → (IsTrue result ↔ IsSame given.now.mol other.now.mol) }
        ensures structure { HasMolecule other.now.format other.now.text other.now.mol }
        ensures key { self.new.key ≡ self.old.key }
        ensures hits { self.new.hits ≡ self.old.hits }
    {
        same_have_equal_keys();
        let mol = other.mol();
        if !has_counts(&self.key, mol) {
            return false;
        }
        let key = key_of(mol);
        key == self.key && same(given.mol(), mol, &mut self.scratch)
    }
}

impl Visit<Record> for Sames {
    ghost use Rattle.lookup.specs.Walks.{HasPicked};

    ghost may_be = { λ _. Unit {0} };

    ghost has_seen = { λ _ given sames records. HasPicked given.mol sames.key records sames.hits.items };

    fn see(&mut self, given: &Record, other: &Record) -> Result<(), AllocError> {
        one_structure();
        if self.is_same(given, other) {
            self.hits.push(other.id())?;
        }
        Ok(())
    }
}

// True if a molecule has the numbers of atoms and bonds of a key.
fn has_counts(key: &Key, mol: &Mol) -> bool
    ensures { IsTrue result ↔ (key.now.atoms ≡ length mol.now.atoms) × (key.now.bonds ≡ length mol.now.bonds) }
{
    usize::from(key.atoms) == mol.atoms().len() && usize::from(key.bonds) == mol.bonds().len()
}
