//! A batch of pages that is searched by groups: each group is matched while the next one is fetched.
ghost use Rattle.std.specs.Prelude.{◌≡◌, ◌≤◌, ◌+◌, ◌*◌, [], drop, length, take, vec_capacity};
ghost use Rattle.std.specs.Int.{div_ceil};
ghost use Rattle.smarts_parse.specs.Pattern.{pattern_of};
ghost use Rattle.par_search.specs.Groups.{CanMatch, CanSearch, HasMatched};
ghost use Rattle.par_search.specs.Shares.{CanFetch, FetchesInto};

use crate::batch::{Fetched, fetch_pages};
use crate::find::{Shares, match_pages, threads_beside};
use crate::meter::Meter;
use crate::worker::Worker;
use chem_core::Print;
use smarts_parse::Pattern;
use snap_registry::Pin;
use std::thread::Threads;
use store_core::{Page, Service};

// The number of pages of the first group. No page is matched while it is fetched, so it is small. Each later group has
// as many pages as all before it, so that few groups make a batch: threads are made anew for each.
const FIRST_GROUP: usize = 4;

// The number of records that are fetched in the time of matching one.
const FETCHED_FOR_ONE: u32 = 7;

// A group of pages that were fetched and are not matched yet: from `start` to `end`, with `tried` records. The search
// goes on after them from the identifier `from`, `None` at its end.
#[derive(Clone, Copy)]
struct Group {
    start: usize,
    end: usize,
    tried: u32,
    from: Option<u32>,
}

/// The work on each page: it is fetched for a pin, with at most `size` records whose print has the wanted bits. Its
/// records are matched by a pattern, in threads, and a meter is called for each share.
#[derive(Drop)]
pub struct Task<'a, R, M> {
    pub rt: &'a R,
    pub pin: &'a Pin,
    pub want: &'a Print,
    pub size: u32,
    pub pattern: &'a Pattern,
    pub meter: &'a M,
}

impl<R: Threads + Sync, M: Meter> Task<'_, R, M> {
    /// Fetches a page into each place in turn, until no page follows or a fetch fails, and finds the hits of their
    /// records. Several workers match a large group of pages while the next group is fetched. The last worker's thread
    /// is this one, which fetches too.
    pub fn search<S: Service>(
        &self,
        from: Option<u32>,
        service: &mut S,
        pages: &mut [Page],
        workers: &mut [Worker],
        hits: &mut Vec<u32>,
    ) -> Fetched
        requires can_fetch { CanFetch S.Service service.old
            self.now.pin.now self.now.size from pages.old }
        requires can_search { CanSearch (pattern_of self.now.pattern.now) (length pages.old)
            workers.old (vec_capacity hits.old) }
        ensures fetched { FetchesInto S.Service service.old service.new
            self.now.pin.now self.now.size self.now.want.now from
            pages.old pages.new pages.new result }
        ensures matched { HasMatched (pattern_of self.now.pattern.now) (take result.count pages.new)
            workers.old workers.new [] hits.new.items
            (vec_capacity hits.old) (vec_capacity hits.new) }
    {
        hits.clear();
        let end = FIRST_GROUP.min(pages.len());
        let (first, _) = pages.split_at_mut(end);
        let mut fetched = fetch_pages(self.pin, self.want, self.size, from, service, first);
        let mut group = Group {
            start: 0,
            end,
            tried: fetched.tried,
            from: fetched.from,
        };
        while fetched.goes_on() && group.end < pages.len() {
            let next = group.end.max(FIRST_GROUP).min(pages.len() - group.end);
            let more = self.search_group(group, next, service, pages, workers, hits);
            group = Group {
                start: group.end,
                end: group.end + next,
                tried: more.tried,
                from: more.from,
            };
            fetched = fetched.followed_by(&more);
        }
        let last = between(pages, group.start, fetched.count);
        match_pages(
            self.rt,
            last,
            group.tried,
            self.pattern,
            self.meter,
            workers,
            hits,
        );
        fetched
    }

    // Matches a group, and fetches the `next` pages after it. Each worker but the last has a thread of its own, if the
    // group is large. This thread matches the rest, and then fetches.
    fn search_group<S: Service>(
        &self,
        group: Group,
        next: usize,
        service: &mut S,
        pages: &mut [Page],
        workers: &mut [Worker],
        hits: &mut Vec<u32>,
    ) -> Fetched
        requires can_fetch { CanFetch S.Service service.old
            self.now.pin.now self.now.size group.from pages.old }
        requires order { group.start ≤ group.end }
        requires within { group.end + next ≤ length pages.old }
        requires can_match { CanMatch (pattern_of self.now.pattern.now)
            (drop group.start (take group.end pages.old)) group.tried workers.old
            hits.old.items (vec_capacity hits.old) }
        ensures fetched { FetchesInto S.Service service.old service.new
            self.now.pin.now self.now.size self.now.want.now group.from
            pages.old pages.new (take next (drop group.end pages.new)) result }
        ensures kept { take group.end pages.new ≡ take group.end pages.old }
        ensures matched { HasMatched (pattern_of self.now.pattern.now)
            (drop group.start (take group.end pages.old)) workers.old workers.new
            hits.old.items hits.new.items (vec_capacity hits.old) (vec_capacity hits.new) }
    {
        let (done, behind) = pages.split_at_mut(group.end);
        let (ahead, _) = behind.split_at_mut(next);
        let most_ahead = self.size.saturating_mul(next as u32);
        let size = share_beside(group.tried, most_ahead, workers.len() as u32);
        let shares = Shares {
            pages: between(done, group.start, group.end),
            total: group.tried,
            size,
            apart: threads_beside(size, workers.len()),
            pattern: self.pattern,
            meter: self.meter,
        };
        let (pin, want, most, from) = (self.pin, self.want, self.size, group.from);
        let mut fetching = || -> Fetched
            requires can_fetch { CanFetch S.Service service.now pin.now most from ahead.now }
            ensures fetched { FetchesInto S.Service service.entry.now service.exit.now
                pin.entry.now most want.entry.now from
                ahead.entry.now ahead.exit.now ahead.exit.now result }
        { fetch_pages(pin, want, most, from, service, ahead) };
        shares.match_beside(self.rt, workers, hits, &mut fetching)
    }
}

// The number of records of a group for each worker but the last: more than its equal share. Fetching a record takes
// about a seventh of the time of matching one, and the last worker's thread fetches up to `ahead` of them too.
fn share_beside(total: u32, ahead: u32, workers: u32) -> u32
    requires { 1 ≤ workers }
    ensures all { div_ceil total workers ≤ result }
    ensures few { result ≤ 2 * div_ceil total workers }
{
    let equal = total.div_ceil(workers);
    let more = (ahead / FETCHED_FOR_ONE).div_ceil(workers);
    equal.saturating_add(more.min(equal))
}

// The pages from one place to another.
fn between(pages: &[Page], start: usize, end: usize) -> &[Page]
    requires order { start ≤ end }
    requires within { end ≤ length pages.now }
    ensures { result.now ≡ drop start (take end pages.now) }
{
    &pages[start..end]
}
