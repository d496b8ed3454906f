//! The identifiers that a pattern matches.
ghost use Rattle.std.specs.Prelude.{◌≡◌, ◌≤◌, ◌↔◌, [], Bool, IfOk, IsOk, IsOkUnless, IsTrue, List};
ghost use Rattle.std.specs.List.Sorted.{IsStrictlyIncreasing};
ghost use Rattle.smarts_parse.specs.Pattern.{pattern_of};
ghost use Rattle.smarts_parse.specs.Sound.{IsSoundPattern};
ghost use Rattle.par_search.specs.declared.fault.SearchFault.TheVariants.{NoMemory};
ghost use Rattle.store_core.specs.Calls.{NotRaised};
ghost use Rattle.store_core.specs.declared.page.TheConstants.{MOST_RECORDS};
ghost use Rattle.store_machine.specs.Structures.{IsNeedOf};
ghost use Rattle.lookup.specs.Fetches.{Looks, LooksUnless};
ghost use Rattle.lookup.specs.Lists.{IsHitList};

use crate::pages::{Seen, Visit, see_head, see_newer};
use matcher::{Scratch, has};
use mol_finish::one_structure;
use par_search::SearchFault;
use path_print::need;
use smarts_parse::Pattern;
use std::alloc::{AllocError, Global};
use store_core::{Record, Service};

/// The identifiers of the hits, ascending, at a version, and the number of records that were looked at: those whose
/// print has the needed bits.
#[derive(Debug, Drop)]
pub struct HitList {
    pub version: u32,
    pub tried: u32,
    pub hits: Vec<u32>,
}

/// Lists the hits of a pattern, by pages of 1 to 256 records. It pins the head, and fetches all records whose print has
/// the bits that the pattern needs. Then it gives the pin back, on want of memory too.
pub fn find_hits<S: Service>(
    alloc: Global,
    service: &mut S,
    pattern: &Pattern,
    page_size: u32,
) -> Result<HitList, SearchFault>
    requires sound { IsSoundPattern (pattern_of pattern.now) }
    requires some { 1 ≤ page_size }
    requires few { page_size ≤ MOST_RECORDS }
    ensures looks { (want : List Bool) × IsNeedOf (pattern_of pattern.now) want
        × Looks S.Service service.old service.new page_size want (IsHitList (pattern_of pattern.now)) result }
    ensures bounds { NotRaised (S.bounds service.old) (S.bounds service.new) }
{
    let want = need(pattern);
    let mut matches = Matches::new(alloc)?;
    let seen = see_head(alloc, service, pattern, &want, page_size, &mut matches)?;
    list_of(seen, matches)
}

/// As `find_hits`, unless the pinned version is `known`: then the pin is given back at once, and there is no list.
pub fn find_newer_hits<S: Service>(
    alloc: Global,
    service: &mut S,
    pattern: &Pattern,
    page_size: u32,
    known: u32,
) -> Result<Option<HitList>, SearchFault>
    requires sound { IsSoundPattern (pattern_of pattern.now) }
    requires some { 1 ≤ page_size }
    requires few { page_size ≤ MOST_RECORDS }
    ensures looks { (want : List Bool) × IsNeedOf (pattern_of pattern.now) want
        × LooksUnless known S.Service service.old service.new page_size want
        (IsHitList (pattern_of pattern.now)) result }
    ensures bounds { NotRaised (S.bounds service.old) (S.bounds service.new) }
{
    let want = need(pattern);
    let mut matches = Matches::new(alloc)?;
    let seen = see_newer(
        alloc,
        service,
        pattern,
        &want,
        page_size,
        known,
        &mut matches,
    )?;
    let Some(seen) = seen else {
        return Ok(None);
    };
    let list = list_of(seen, matches)?;
    Ok(Some(list))
}

// Those that a pattern matches.
#[derive(Drop)]
struct Matches {
    scratch: Scratch,
    hits: Vec<u32>,
}

impl Matches {
    // None seen yet.
    fn new(alloc: Global) -> Result<Matches, AllocError>
        ensures { IfOk result (λ matches. matches.hits.items ≡ []) }
    {
        Ok(Matches {
            scratch: Scratch::reserve(alloc)?,
            hits: Vec::new(alloc),
        })
    }
}

impl Visit<Pattern> for Matches {
    ghost use Rattle.smarts_parse.specs.Pattern.{pattern_of};
    ghost use Rattle.smarts_parse.specs.Sound.{IsSoundPattern};
    ghost use Rattle.store_machine.specs.Answers.{AreMatched};

    ghost may_be = { λ pattern. IsSoundPattern (pattern_of pattern) };

    ghost has_seen = { λ _ pattern matches records. AreMatched (pattern_of pattern) records matches.hits.items };

    fn see(&mut self, given: &Pattern, other: &Record) -> Result<(), AllocError> {
        one_structure();
        let id = other.id();
        if has(given, other.mol(), &mut self.scratch) {
            self.hits.push(id)?;
        }
        Ok(())
    }
}

// The list of the records that were seen. The pages of a store ascend. For a service whose pages do not, no list is
// given.
fn list_of(seen: Seen, matches: Matches) -> Result<HitList, SearchFault>
    ensures list { IfOk result (λ list. list
        ≡ record { version = seen.version; tried = seen.count; hits = matches.hits }) }
    ensures ascending { IsOk result ↔ IsStrictlyIncreasing matches.hits.items }
    ensures fault { IsOkUnless result NoMemory }
{
    if !is_ascending(&matches.hits) {
        return Err(SearchFault::NoMemory);
    }
    Ok(HitList {
        version: seen.version,
        tried: seen.count,
        hits: matches.hits,
    })
}

// True if each identifier is below the next.
fn is_ascending(ids: &[u32]) -> bool
    ensures { IsTrue result ↔ IsStrictlyIncreasing ids.now }
{
    ids.is_sorted_by(|a, b| a < b)
}
