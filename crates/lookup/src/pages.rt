//! The pages of one pin. Each of their records is shown to a visitor.
ghost use Rattle.std.specs.Prelude.{◌≡◌, ◌≢◌, ◌≤◌, ◌∷◌, [], List, OnOk, length};
ghost use Rattle.store_core.specs.Calls.{NotRaised};
ghost use Rattle.store_core.specs.Records.{found_of, founds};
ghost use Rattle.store_core.specs.declared.page.TheConstants.{MOST_RECORDS};
ghost use Rattle.store_machine.specs.Searches.{past};
ghost use Rattle.store_machine.specs.declared.machine.Found.{Found};
ghost use Rattle.lookup.specs.Fetches.{Looks, LooksSo, LooksUnless};
ghost use Rattle.lookup.specs.Walks.{IsPinnedFrom, Saw, Walks};

use chem_core::Print;
use par_search::{SearchFault, fetch};
use snap_registry::Pin;
use std::alloc::{AllocError, Global};
use std::sync::Arc;
use store_core::{CallFault, MOST_COMMITS, Page, Record, Service};

/// A visitor, which looks at records, one after another, beside a given record or pattern.
pub trait Visit<G> {
    /// The values that it may be given.
    ghost may_be: { G → Type 0 };

    /// The visitor after it has seen these, if it began as the first of the two.
    ghost has_seen: { Self → G → Self → List Found → Type 0 };

    /// Looks at one record more.
    fn see(&mut self, given: &G, other: &Record) -> Result<(), AllocError>
        requires { may_be given.now }
        ensures { OnOk result (Saw has_seen given.now self.old self.new (found_of other.now ∷ [])) };
}

/// The version that was pinned, and the number of records.
#[derive(Clone, Copy, Debug, PartialEq, Eq)]
pub struct Seen {
    pub version: u32,
    pub count: u32,
}

/// Shows a visitor all records of the head whose print has the wanted bits, ascending, by pages of a size. The calls
/// are a pin, fetches, and an unpin. The page's memory is taken first.
pub fn see_head<S: Service, G, V: Visit<G>>(
    alloc: Global,
    service: &mut S,
    given: &G,
    want: &Print,
    size: u32,
    visitor: &mut V,
) -> Result<Seen, SearchFault>
    requires some { 1 ≤ size }
    requires few { size ≤ MOST_RECORDS }
    requires given { V.may_be given.now }
    ensures looks { Looks S.Service service.old service.new size want.now
        (λ version records seen. (seen.version ≡ version) × (seen.count ≡ length records)
        × Saw V.has_seen given.now visitor.old visitor.new records) result }
    ensures bounds { NotRaised (S.bounds service.old) (S.bounds service.new) }
{
    let mut page = Page::reserve(alloc, size)?;
    let Some(pin) = service.pin()? else {
        return Err(SearchFault::Pins);
    };
    see_pinned(service, pin, given, want, size, &mut page, visitor)
}

/// As `see_head`, unless the pinned version is `known`: then the pin is given back at once, and there is nothing to
/// show.
pub fn see_newer<S: Service, G, V: Visit<G>>(
    alloc: Global,
    service: &mut S,
    given: &G,
    want: &Print,
    size: u32,
    known: u32,
    visitor: &mut V,
) -> Result<Option<Seen>, SearchFault>
    requires some { 1 ≤ size }
    requires few { size ≤ MOST_RECORDS }
    requires given { V.may_be given.now }
    ensures looks { LooksUnless known S.Service service.old service.new size want.now
        (λ version records seen. (seen.version ≡ version) × (seen.count ≡ length records)
        × Saw V.has_seen given.now visitor.old visitor.new records) result }
    ensures bounds { NotRaised (S.bounds service.old) (S.bounds service.new) }
{
    let mut page = Page::reserve(alloc, size)?;
    let Some(pin) = service.pin()? else {
        return Err(SearchFault::Pins);
    };
    let is_known = pin.version == known;
    if is_known {
        service.unpin(pin)?;
        return Ok(None);
    }
    let seen = see_pinned(service, pin, given, want, size, &mut page, visitor)?;
    Ok(Some(seen))
}

// From the pin on.
fn see_pinned<S: Service, G, V: Visit<G>>(
    service: &mut S,
    pin: Pin,
    given: &G,
    want: &Print,
    size: u32,
    page: &mut Page,
    visitor: &mut V,
) -> Result<Seen, SearchFault>
    requires held { S.holds service.old pin.slot pin.version }
    requires some { 1 ≤ size }
    requires few { size ≤ MOST_RECORDS }
    requires room { size ≤ page.old.room }
    requires given { V.may_be given.now }
    ensures looks { (before : S) → IsPinnedFrom S.Service before service.old pin
        → LooksSo (λ version pages. version ≡ pin.version) S.Service before service.new size want.now
        (λ version records seen. (version ≡ pin.version) × (seen.version ≡ version) × (seen.count ≡ length records)
        × Saw V.has_seen given.now visitor.old visitor.new records) result }
    ensures bounds { NotRaised (S.bounds service.old) (S.bounds service.new) }
{
    let version = pin.version;
    let seen = see_pages(service, &pin, given, want, size, page, visitor);
    service.unpin(pin)?;
    let count = seen?;
    Ok(Seen { version, count })
}

// Shows the records of all pages, and returns their number. A store has no more pages than commits.
fn see_pages<S: Service, G, V: Visit<G>>(
    service: &mut S,
    pin: &Pin,
    given: &G,
    want: &Print,
    size: u32,
    page: &mut Page,
    visitor: &mut V,
) -> Result<u32, CallFault>
    requires held { S.holds service.old pin.now.slot pin.now.version }
    requires some { 1 ≤ size }
    requires few { size ≤ MOST_RECORDS }
    requires room { size ≤ page.old.room }
    requires given { V.may_be given.now }
    ensures { Walks S.Service service.old service.new pin.now.slot size want.now
        (λ records n. (n ≡ length records) × Saw V.has_seen given.now visitor.old visitor.new records)
        result }
{
    let mut from = 0;
    let mut count = 0;
    for _turn in 0..MOST_COMMITS {
        let last = fetch(service, pin, want, from, size, page)?;
        let records = page.records();
        see_all(given, records, visitor)?;
        count += records.len() as u32;
        if last {
            return Ok(count);
        }
        from = behind(from, records);
    }
    Err(CallFault::NoMemory)
}

// Shows the records of a page.
fn see_all<G, V: Visit<G>>(
    given: &G,
    records: &[Arc<Record>],
    visitor: &mut V,
) -> Result<(), AllocError>
    requires { V.may_be given.now }
    ensures { OnOk result (Saw V.has_seen given.now visitor.old visitor.new (founds records.now)) }
{
    for record in records {
        visitor.see(given, record)?;
    }
    Ok(())
}

// The end of a page that was fetched from an identifier on.
fn behind(from: u32, records: &[Arc<Record>]) -> u32
    ensures { result ≡ past from (founds records.now) }
{
    match records.last() {
        None => from,
        Some(record) => record.id() + 1,
    }
}
