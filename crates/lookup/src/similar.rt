//! The structures that are most similar to a given one.
ghost use Rattle.std.specs.Prelude.{◌≤◌, Bool, List};
ghost use Rattle.similar_find.specs.declared.best.TheConstants.{MOST_HITS};
ghost use Rattle.store_core.specs.Calls.{NotRaised};
ghost use Rattle.store_core.specs.declared.page.TheConstants.{MOST_RECORDS};
ghost use Rattle.lookup.specs.Asked.{IsEmptyPrint, IsScored};
ghost use Rattle.lookup.specs.Fetches.{Looks};
ghost use Rattle.lookup.specs.Lists.{IsSimilarList};

use crate::pages::{Visit, see_head};
use chem_core::Print;
use par_search::SearchFault;
use similar_find::{Best, most_alike, score};
use std::alloc::{AllocError, Global};
use store_core::{Record, Service};

/// A request for similar structures: at most `k`, 1 to 256, that have at least `p / q` of the bits in common. `q` is 1
/// to 1000 and `p` at most `q`.
#[derive(Clone, Copy, Debug, PartialEq, Eq)]
pub struct Similarity {
    pub p: u32,
    pub q: u32,
    pub k: u32,
}

/// The identifiers that are most similar to a given structure, the best first, at a version, and the number of records
/// that were compared: all that are live.
#[derive(Debug, Drop)]
pub struct SimilarList {
    pub version: u32,
    pub scored: u32,
    pub best: Best,
}

/// Lists the records that are most similar to the structure of a record, by pages of 1 to 256 records. It pins the
/// head, fetches all live records, and gives the pin back, on want of memory too.
pub fn find_similar<S: Service>(
    alloc: Global,
    service: &mut S,
    asked: Similarity,
    given: &Record,
    page_size: u32,
) -> Result<SimilarList, SearchFault>
    requires whole { (1 ≤ asked.q) × (asked.q ≤ 1000) }
    requires part { asked.p ≤ asked.q }
    requires hits { (1 ≤ asked.k) × (asked.k ≤ MOST_HITS) }
    requires some { 1 ≤ page_size }
    requires few { page_size ≤ MOST_RECORDS }
    ensures looks { (want : List Bool) × IsEmptyPrint want
        × Looks S.Service service.old service.new page_size want
        (IsSimilarList asked.p asked.q asked.k given.now.print) result }
    ensures bounds { NotRaised (S.bounds service.old) (S.bounds service.new) }
{
    let want = Print::empty();
    let mut likes = Likes {
        best: Best::reserve(alloc, asked.p, asked.q, asked.k)?,
    };
    let seen = see_head(alloc, service, given, &want, page_size, &mut likes)?;
    Ok(SimilarList {
        version: seen.version,
        scored: seen.count,
        best: likes.best,
    })
}

// The best of the records that were seen.
#[derive(Drop)]
struct Likes {
    best: Best,
}

impl Visit<Record> for Likes {
    ghost use Rattle.lookup.specs.Walks.{HasOffered};

    ghost may_be = { λ _. Unit {0} };

    ghost has_seen = { λ start given likes records. HasOffered start.best given.print records likes.best };

    fn see(&mut self, given: &Record, other: &Record) -> Result<(), AllocError> {
        // The numbers of bits alone may show that it is no hit.
        let (c, u) = most_alike(given.bits(), other.bits());
        if !self.best.may_take(other.id(), c, u) {
            return Ok(());
        }
        let (c, u) = counts(given, other);
        // No structure is without bits.
        if u == 0 {
            return Ok(());
        }
        self.best.offer(other.id(), c, u);
        Ok(())
    }
}

// The number of bits that the prints of two records have in common, and of those in at least one.
fn counts(given: &Record, other: &Record) -> (u32, u32)
    ensures scored { IsScored given.now.print other.now.format other.now.text result.0 result.1 }
    ensures part { result.0 ≤ result.1 }
    ensures few { result.1 ≤ 1024 }
{
    // Its clause says that the record is sound.
    let _ = other.id();
    score(given.print(), given.bits(), other.print(), other.bits())
}
