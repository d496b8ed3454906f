//! A search from its pin to its end.
ghost use Rattle.std.specs.Prelude.{◌≡◌, ◌≤◌, IfOk};
ghost use Rattle.par_search.specs.Searches.{HasBegun};
ghost use Rattle.par_search.specs.declared.batch.TheConstants.{MOST_PAGES};
ghost use Rattle.shell_lang.specs.Reply.{reply_of};
ghost use Rattle.smarts_parse.specs.Pattern.{pattern_of};
ghost use Rattle.smarts_parse.specs.Sound.{IsSoundPattern};
ghost use Rattle.session_run.specs.Made.{AnsweredBy, Uses};
ghost use Rattle.session_run.specs.Searched.{Begins, IsFaultLine, IsLastLine, IsNew, IsPatternRefusal, PinAnswer, Returns};
ghost use Rattle.session_run.specs.Servable.{IsServable};

use crate::listing::Walk;
use crate::matching::Matching;
use crate::say::say;
use crate::settings::Settings;
use dialogue::Stop;
use par_search::{MOST_PAGES, Meter, Search, SearchFault};
use shell_lang::{Refusal, Reply};
use smarts_parse::{Pattern, SmartsFault};
use std::alloc::Global;
use std::thread::Threads;
use store_core::Service;

/// Begins a search for a pattern, at the head, by single pages and by batches of at most `most` pages. All workers
/// share the records of each page of a cursor, and those of the pages of a batch.
pub fn begin<S: Service>(
    alloc: Global,
    service: &mut S,
    settings: &Settings,
    pattern: Pattern,
    most: u32,
) -> Result<Walk, SearchFault>
    requires servable { IsServable settings.now }
    requires few_pages { most ≤ MOST_PAGES }
    requires sound { IsSoundPattern (pattern_of pattern) }
    ensures begins { Begins (Uses S.Service service.old service.new) (S.worn service.new) result }
    ensures begun { IfOk result (λ walk. HasBegun pattern settings.now.page walk.search) }
    ensures new { IfOk result (λ walk. IsNew walk) }
    ensures most { IfOk result (λ walk. walk.search.most ≡ most) }
{
    match Search::start_batched(
        alloc,
        service,
        pattern,
        settings.workers,
        settings.page,
        most,
    ) {
        Ok(search) => Ok(Walk {
            search,
            tried: 0,
            hits: 0,
        }),
        Err(fault) => Err(fault),
    }
}

/// The number of pages that are searched together: `MOST_PAGES` with two workers or more. One worker searches each page
/// right after its fetch, while its records are in the cache.
pub fn pages_together(settings: &Settings) -> u32
    ensures some { 1 ≤ result }
    ensures few { result ≤ MOST_PAGES }
{
    if settings.workers > 1 { MOST_PAGES } else { 1 }
}

/// The line of a search that did not begin.
pub fn fault_line(fault: SearchFault) -> Result<Reply, Stop>
    ensures { IsFaultLine fault result }
{
    match fault {
        SearchFault::Pins => Ok(Reply::Refused(Refusal::Pins)),
        SearchFault::NoMemory => Ok(Reply::MemoryFault),
        SearchFault::Worn => Err(Stop::Worn),
    }
}

/// Gives the pin of a search back.
pub fn give_back<S: Service>(search: Search, service: &mut S) -> Result<(), Stop>
    requires { S.holds service.old search.slot search.version }
    ensures { Returns (Uses S.Service service.old service.new) (S.worn service.new) search.slot result }
{
    match search.close(service) {
        Ok(()) => Ok(()),
        Err(_) => Err(Stop::Worn),
    }
}

/// Lists a search to its end, and gives its pin back.
pub fn list<R: Threads + Sync, S: Service, M: Meter>(
    matching: &Matching<'_, R, M>,
    service: &mut S,
    walk: Walk,
    out: &mut Vec<u8>,
) -> Result<(), Stop>
    requires held { S.holds service.old walk.search.slot walk.search.version }
    requires new { IsNew walk }
    requires together { 1 ≤ walk.search.most }
    ensures { AnsweredBy S.Service service.old service.new (PinAnswer walk.search)
        out.old.items out.new.items tt result }
{
    let mut walk = walk;
    let whole = match walk.list_all(matching, service, out) {
        Ok(whole) => whole,
        Err(stop) => return Err(stop),
    };
    let end = walk.end();
    match give_back(walk.search, service) {
        Ok(()) => say(&last_line(whole, end), out),
        Err(stop) => Err(stop),
    }
}

// The line at the end of a search.
fn last_line(whole: bool, end: Option<Reply>) -> Reply
    ensures { IsLastLine whole end result }
{
    match end {
        Some(end) if whole => end,
        Some(_) | None => Reply::MemoryFault,
    }
}

/// The refusal of a text that is no pattern.
pub fn refuse_pattern(fault: SmartsFault) -> Reply
    ensures { IsPatternRefusal fault (reply_of result) }
{
    match fault {
        SmartsFault::NoMemory => Reply::MemoryFault,
        _ => Reply::Refused(Refusal::Pattern(fault)),
    }
}
