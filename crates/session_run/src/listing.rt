//! The pages of a search, listed: their hits as reply lines, and the numbers of identifiers tried and listed.
ghost use Rattle.std.specs.Prelude.{◌≡◌, ◌≤◌, ◌++◌, ◌^◌, ◌⊎◌, IfNone, IfSome, OnErr, OnOk, map};
ghost use Rattle.shell_lang.specs.Reply as line;
ghost use Rattle.shell_lang.specs.Reply.{reply_of, text_of};
ghost use Rattle.session_run.specs.Made.{Uses};
ghost use Rattle.session_run.specs.Searched.{IsNew};
ghost use Rattle.session_run.specs.Walks.{ArePartlyWritten, Counts, Goes, GoesOn, Listed, Pages, progress_by};

use crate::matching::Matching;
use dialogue::Stop;
use par_search::{Meter, Search, SearchFault};
use shell_lang::{Reply, reply_text};
use std::alloc::AllocError;
use std::thread::Threads;
use store_core::{MOST_COMMITS, Service};

/// Room for the lines of a page, 14 bytes each and 256 at most, and for a few lines more.
pub const ROOM: usize = 4_096;

/// Room for the lines of a batch of pages, and for a few lines more.
pub const BATCH_ROOM: usize = 16 * ROOM;

// No store has this number of identifiers.
const MOST_TRIED: u64 = 4_294_967_296;

/// A search, and the numbers of identifiers that its pages tried and listed.
#[derive(Drop)]
pub struct Walk {
    pub search: Search,
    pub tried: u64,
    pub hits: u64,
}

/// The result of a page: the number of identifiers tried, the number of hits, whether no page follows, and whether all
/// hits were written.
#[derive(Clone, Copy, Debug, PartialEq, Eq)]
pub struct Shown {
    pub tried: u32,
    pub hits: u32,
    pub last: bool,
    pub whole: bool,
}

/// How a search goes on after a batch of pages.
#[derive(Clone, Copy, Debug, PartialEq, Eq)]
pub enum Progress {
    /// All hits were written, and pages follow.
    More,
    /// All hits were written, and no page follows.
    Ended,
    /// A fetch found no memory, or there was no room for all hits.
    Short,
    /// The service is worn.
    Worn,
}

/// The result of a batch of pages: the number of identifiers tried, the number of hits, and how the search goes on.
#[derive(Clone, Copy, Debug, PartialEq, Eq)]
pub struct ShownBatch {
    pub tried: u32,
    pub hits: u32,
    pub progress: Progress,
}

impl Walk {
    /// Fetches a page and writes its hits. The room is taken first.
    pub fn page<R: Threads + Sync, S: Service, M: Meter>(
        &mut self,
        matching: &Matching<'_, R, M>,
        service: &mut S,
        out: &mut Vec<u8>,
    ) -> Result<Shown, SearchFault>
        requires held { S.holds service.old self.old.search.slot self.old.search.version }
        ensures pages { Pages (Uses S.Service service.old service.new) (S.worn service.new)
            self.old.search self.new.search out.old.items out.new.items result }
        ensures counts { Counts self.old self.new result }
    {
        let is_over = self.tried > MOST_TRIED || self.hits > MOST_TRIED;
        if is_over {
            return Err(SearchFault::NoMemory);
        }
        out.reserve(ROOM)?;
        let shown = list_page(&mut self.search, matching, service, out)?;
        self.tried += u64::from(shown.tried);
        self.hits += u64::from(shown.hits);
        Ok(shown)
    }

    /// Lists all pages, batch by batch. Returns true if all hits were written.
    pub fn list_all<R: Threads + Sync, S: Service, M: Meter>(
        &mut self,
        matching: &Matching<'_, R, M>,
        service: &mut S,
        out: &mut Vec<u8>,
    ) -> Result<bool, Stop>
        requires held { S.holds service.old self.old.search.slot self.old.search.version }
        requires new { IsNew self.old }
        requires together { 1 ≤ self.old.search.most }
        ensures { Listed (Uses S.Service service.old service.new) (S.worn service.new)
            self.old self.new out.old.items out.new.items result }
    {
        for _ in 0..MOST_COMMITS {
            match self.batch(matching, service, out) {
                Progress::More => {}
                Progress::Ended => return Ok(true),
                Progress::Short => return Ok(false),
                Progress::Worn => return Err(Stop::Worn),
            }
        }
        Ok(false)
    }

    // Fetches a batch of pages and writes their hits. The room is taken first.
    fn batch<R: Threads + Sync, S: Service, M: Meter>(
        &mut self,
        matching: &Matching<'_, R, M>,
        service: &mut S,
        out: &mut Vec<u8>,
    ) -> Progress
        requires held { S.holds service.old self.old.search.slot self.old.search.version }
        ensures { Goes (Uses S.Service service.old service.new) (S.worn service.new)
            self.old self.new out.old.items out.new.items result }
    {
        let is_over = self.tried > MOST_TRIED || self.hits > MOST_TRIED;
        if is_over {
            return Progress::Short;
        }
        if out.reserve(BATCH_ROOM).is_err() {
            return Progress::Short;
        }
        let shown = list_batch(&mut self.search, matching, service, out);
        self.tried += u64::from(shown.tried);
        self.hits += u64::from(shown.hits);
        shown.progress
    }

    /// The line at the search's end; `None` if a count exceeds 32 bits.
    pub fn end(&self) -> Option<Reply>
        ensures some { IfSome result
            (λ reply. reply_of reply ≡ line.End self.now.search.version self.now.tried self.now.hits) }
        ensures none { IfNone result ((2 ^ 32 ≤ self.now.tried) ⊎ (2 ^ 32 ≤ self.now.hits)) }
    {
        let tried = u32::try_from(self.tried).ok()?;
        let hits = u32::try_from(self.hits).ok()?;
        Some(Reply::End {
            version: self.search.version(),
            tried,
            hits,
        })
    }
}

// A page, whose hits are written.
fn list_page<R: Threads + Sync, S: Service, M: Meter>(
    search: &mut Search,
    matching: &Matching<'_, R, M>,
    service: &mut S,
    out: &mut Vec<u8>,
) -> Result<Shown, SearchFault>
    requires held { S.holds service.old search.old.slot search.old.version }
    ensures { Pages (Uses S.Service service.old service.new) (S.worn service.new)
        search.old search.new out.old.items out.new.items result }
{
    match search.next(matching.rt, service, matching.meter) {
        Ok(page) => {
            let whole = push_hits(page.hits, out).is_ok();
            Ok(Shown {
                tried: page.tried,
                hits: page.hits.len() as u32,
                last: page.last,
                whole,
            })
        }
        Err(fault) => Err(fault),
    }
}

// A batch of pages, whose hits are written.
fn list_batch<R: Threads + Sync, S: Service, M: Meter>(
    search: &mut Search,
    matching: &Matching<'_, R, M>,
    service: &mut S,
    out: &mut Vec<u8>,
) -> ShownBatch
    requires held { S.holds service.old search.old.slot search.old.version }
    ensures { GoesOn (Uses S.Service service.old service.new) (S.worn service.new)
        search.old search.new result.tried result.hits out.old.items out.new.items result.progress }
{
    let batch = search.next_pages(matching.rt, service, matching.meter);
    let whole = push_hits(batch.hits, out).is_ok();
    ShownBatch {
        tried: batch.tried,
        hits: batch.hits.len() as u32,
        progress: progress_after(batch.fault, whole, batch.from),
    }
}

// How a search goes on, by the fault of its last fetch, whether all hits were written, and the place of its next fetch.
fn progress_after(fault: Option<SearchFault>, whole: bool, from: Option<u32>) -> Progress
    ensures { result ≡ progress_by fault whole from }
{
    match fault {
        Some(SearchFault::Worn) => Progress::Worn,
        Some(_) => Progress::Short,
        None if !whole => Progress::Short,
        None => match from {
            Some(_) => Progress::More,
            None => Progress::Ended,
        },
    }
}

/// Appends a line for each hit.
pub fn push_hits(ids: &[u32], out: &mut Vec<u8>) -> Result<(), AllocError>
    ensures ok { OnOk result (out.new.items ≡ out.old.items ++ text_of (map line.Hit ids.now)) }
    ensures err { OnErr result (ArePartlyWritten ids.now out.old.items out.new.items) }
{
    for id in ids {
        reply_text(&Reply::Hit { id: *id }, out)?;
    }
    Ok(())
}
