//! Pages that are fetched one after another, to be searched together.
ghost use Rattle.std.specs.Prelude.{◌≡◌, ◌≤◌, ◌<◌, ◌+◌, ◌^◌, ◌↔◌, All, IfSome, IsTrue};
ghost use Rattle.std.specs.Arc.{arc_value};
ghost use Rattle.store_machine.specs.History.{IsId};
ghost use Rattle.store_core.specs.Records.{Shared, founds};
ghost use Rattle.par_search.specs.Groups.{AreBoth, GoesOn};
ghost use Rattle.par_search.specs.Searches.{place_after, place_of};
ghost use Rattle.par_search.specs.Shares.{CanFetch, FetchesInto};

use crate::calls::fetch;
use crate::fault::SearchFault;
use chem_core::Print;
use snap_registry::Pin;
use std::sync::Arc;
use store_core::{Page, Record, Service};

/// The most pages that are searched together.
pub const MOST_PAGES: u32 = 64;

/// The hits of pages that were fetched one after another: the identifiers of the records that the pattern matches, in
/// order. `tried` is the number of records tried. `from` is the identifier from which the search goes on, `None` at its
/// end. `fault` is that of a fetch that failed; pages fetched before it are searched all the same.
#[derive(Drop)]
pub struct BatchHits<'a> {
    pub hits: &'a [u32],
    pub tried: u32,
    pub from: Option<u32>,
    pub fault: Option<SearchFault>,
}

/// The number of pages that were fetched, and that of their records. `from` is the identifier from which the next page
/// is fetched, `None` after the last one. `fault` is that of a fetch that failed.
#[derive(Clone, Copy, Debug, PartialEq, Eq)]
pub struct Fetched {
    pub count: usize,
    pub tried: u32,
    pub from: Option<u32>,
    pub fault: Option<SearchFault>,
}

impl Fetched {
    /// True if more pages may be fetched: no fetch failed, and a page follows.
    pub fn goes_on(&self) -> bool
        ensures { IsTrue result ↔ GoesOn self.now }
    {
        self.fault.is_none() && self.from.is_some()
    }

    /// These pages and those that were fetched after them.
    pub fn followed_by(&self, next: &Fetched) -> Fetched
        requires few { self.now.tried + next.now.tried < 2 ^ 32 }
        requires short { self.now.count + next.now.count < 2 ^ 64 }
        ensures { AreBoth self.now next.now result }
    {
        Fetched {
            count: self.count + next.count,
            tried: self.tried + next.tried,
            from: next.from,
            fault: next.fault,
        }
    }
}

/// Fetches a page into each place in turn, until no page follows or a fetch fails.
pub fn fetch_pages<S: Service>(
    pin: &Pin,
    want: &Print,
    size: u32,
    from: Option<u32>,
    service: &mut S,
    pages: &mut [Page],
) -> Fetched
    requires can_fetch { CanFetch S.Service service.old pin.now size from pages.old }
    ensures fetched { FetchesInto S.Service service.old service.new pin.now size want.now from
        pages.old pages.new pages.new result }
{
    let mut fetched = Fetched {
        count: 0,
        tried: 0,
        from,
        fault: None,
    };
    for page in pages.iter_mut() {
        let Some(start) = fetched.from else {
            return fetched;
        };
        match fetch(service, pin, want, start, size, page) {
            Ok(last) => {
                let records = page.records();
                fetched.count += 1;
                fetched.tried += records.len() as u32;
                fetched.from = next_from(last, start, records);
            }
            Err(fault) => {
                fetched.fault = Some(SearchFault::from(fault));
                return fetched;
            }
        }
    }
    fetched
}

// The identifier from which a search goes on after a page that was fetched from `from` on; `None` after the last page.
pub(crate) fn next_from(last: bool, from: u32, records: &[Arc<Record>]) -> Option<u32>
    requires in_range { All (λ (r : Shared). IsId (arc_value r).id) records.now }
    requires from { from ≤ 1000000000 }
    ensures place { place_of result ≡ place_after from (founds records.now) last }
    ensures in_range { IfSome result (λ id. id ≤ 1000000000) }
{
    if last {
        return None;
    }
    Some(match records.last() {
        None => from,
        Some(record) => record.id() + 1,
    })
}
