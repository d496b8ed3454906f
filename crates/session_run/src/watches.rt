//! Watches of a session: `watch`, `hits` and `unwatch`.
ghost use Rattle.std.specs.Prelude.{◌≡◌, ◌<◌, ◌++◌, ◌+◌, ◌-◌, ◌^◌, IfSome, IsSome, List, MatchOption, None, OnErr, OnOk, length, min};
ghost use Rattle.std.specs.List.Sorted.{IsStrictlyIncreasing};
ghost use Rattle.shell_lang.specs.Reply.{text_of};
ghost use Rattle.shell_lang.specs.Written.{Extends};
ghost use Rattle.smarts_parse.specs.Pattern.{pattern_of};
ghost use Rattle.smarts_parse.specs.Sound.{IsSoundPattern};
ghost use Rattle.watch_list.specs.Watches.{watch_of};
ghost use Rattle.watch_list.specs.declared.list.TheConstants.{MOST_WATCHES};
ghost use Rattle.session_acts.specs.Acts.{MayHits, MayWatch, hit_lines};
ghost use Rattle.session_run.specs.Responds.{IsFit, RespondedBy};
ghost use Rattle.session_run.specs.Kept.{Adds, Fills, IsViewOf, TellsHits, Unwatches};
ghost use Rattle.session_run.specs.Standings.{watched_all};

use crate::listing::push_hits;
use crate::lookups::count;
use crate::respond::Responder;
use crate::say::{say, say_given};
use crate::search::{fault_line, refuse_pattern};
use crate::texts::read_pattern;
use dialogue::Stop;
use lookup::{HitList, find_hits, find_newer_hits};
use shell_lang::{Refusal, Reply, reply_text};
use smarts_parse::Pattern;
use std::alloc::AllocError;
use store_core::Service;
use watch_list::{MOST_WATCHES, Watches};

impl Responder {
    /// Watches the pattern of a text under a new name, from its hits at the head on.
    pub(crate) fn watch<S: Service>(
        &mut self,
        service: &mut S,
        name: &[u8],
        text: &[u8],
    ) -> Result<(), Stop>
        requires { IsFit self.old.cursors }
        ensures answered { RespondedBy S.Service service.old service.new
            (MayWatch (watched_all self.old.watches.watches) name.now text.now)
            self.old self.new result }
        ensures cursors { self.new.cursors ≡ self.old.cursors }
    {
        let alloc = self.cursors.alloc;
        let pattern = match read_pattern(alloc, text) {
            Ok(pattern) => pattern,
            Err(fault) => return say(&refuse_pattern(fault), &mut self.out),
        };
        if find_watch(&self.watches, name).is_some() {
            return say(&Reply::Refused(Refusal::Watch), &mut self.out);
        }
        let is_full = self.watches.len() >= MOST_WATCHES;
        if is_full {
            return say(&Reply::Refused(Refusal::Watches), &mut self.out);
        }
        match find_hits(alloc, service, &pattern, self.cursors.settings.page) {
            Ok(list) => add(&mut self.watches, name, pattern, list, &mut self.out),
            Err(fault) => say_given(fault_line(fault), &mut self.out),
        }
    }

    /// Lists the hits of the watch of a name at the head. If they are of another version, they are searched anew.
    pub(crate) fn hits<S: Service>(&mut self, service: &mut S, name: &[u8]) -> Result<(), Stop>
        requires { IsFit self.old.cursors }
        ensures answered { RespondedBy S.Service service.old service.new
            (MayHits (watched_all self.old.watches.watches) name.now) self.old self.new result }
        ensures cursors { self.new.cursors ≡ self.old.cursors }
    {
        let Some(kept) = find_watch(&self.watches, name) else {
            return say(&Reply::Refused(Refusal::Watch), &mut self.out);
        };
        let rebuilt = kept.rebuilt;
        match find_newer_hits(
            self.cursors.alloc,
            service,
            kept.pattern,
            self.cursors.settings.page,
            kept.version,
        ) {
            Ok(None) => say_hits(kept.version, kept.hits, rebuilt, &mut self.out),
            Ok(Some(list)) => fill(&mut self.watches, name, list, rebuilt, &mut self.out),
            Err(fault) => say_given(fault_line(fault), &mut self.out),
        }
    }
}

// Keeps the hits that were found, or reports that memory ran out.
fn add(
    watches: &mut Watches,
    name: &[u8],
    pattern: Pattern,
    list: HitList,
    out: &mut Vec<u8>,
) -> Result<(), Stop>
    requires few { length watches.old.watches < MOST_WATCHES }
    requires new { watch_of name.now watches.old.watches ≡ None }
    requires sound { IsSoundPattern (pattern_of pattern) }
    requires ascending { IsStrictlyIncreasing list.hits.items }
    ensures { Adds name.now (pattern_of pattern) list.version list.hits.items (watched_all watches.old.watches)
        (watched_all watches.new.watches) out.old.items out.new.items result }
{
    let Ok(hits) = count(list.hits.len()) else {
        return say(&Reply::MemoryFault, out);
    };
    let version = list.version;
    match watches.add(name, pattern, version, list.hits) {
        Ok(()) => say(&Reply::Watching { version, hits }, out),
        Err(_) => say(&Reply::MemoryFault, out),
    }
}

// The data that are kept of a watch.
#[derive(Clone, Copy)]
struct View<'w> {
    pattern: &'w Pattern,
    version: u32,
    hits: &'w [u32],
    rebuilt: u32,
}

// The watch of a name.
fn find_watch<'w>(watches: &'w Watches, name: &[u8]) -> Option<View<'w>>
    ensures view { MatchOption result (watch_of name.now watches.now.watches ≡ None)
        (λ v. IsViewOf v (watch_of name.now watches.now.watches)) }
    ensures sound { IfSome result (λ v. IsSoundPattern (pattern_of v.pattern.now)) }
{
    let (version, hits) = watches.list(name)?;
    Some(View {
        pattern: watches.pattern(name)?,
        version,
        hits,
        rebuilt: watches.fills(name)?,
    })
}

// Lists other hits of the watch of a name, and then keeps them; or reports that memory ran out.
fn fill(
    watches: &mut Watches,
    name: &[u8],
    list: HitList,
    rebuilt: u32,
    out: &mut Vec<u8>,
) -> Result<(), Stop>
    requires watched { IsSome (watch_of name.now watches.old.watches) }
    requires ascending { IsStrictlyIncreasing list.hits.items }
    ensures { Fills name.now list.version list.hits.items (min (rebuilt + 1) (2 ^ 32 - 1)) watches.old.watches
        watches.new.watches out.old.items out.new.items result }
{
    let len = out.len();
    if push_watched(list.version, &list.hits, rebuilt.saturating_add(1), out).is_err() {
        out.truncate(len);
        return say(&Reply::MemoryFault, out);
    }
    watches.fill(name, list.version, list.hits);
    Ok(())
}

// Lists hits, or reports that memory ran out.
fn say_hits(version: u32, hits: &[u32], rebuilt: u32, out: &mut Vec<u8>) -> Result<(), Stop>
    ensures { TellsHits version hits.now rebuilt out.old.items out.new.items result }
{
    let len = out.len();
    if push_watched(version, hits, rebuilt, out).is_ok() {
        return Ok(());
    }
    out.truncate(len);
    say(&Reply::MemoryFault, out)
}

// Appends a line for each hit, and the end.
fn push_watched(
    version: u32,
    hits: &[u32],
    rebuilt: u32,
    out: &mut Vec<u8>,
) -> Result<(), AllocError>
    ensures ok { OnOk result (out.new.items ≡ out.old.items ++ text_of (hit_lines version hits.now rebuilt)) }
    ensures err { OnErr result (Extends out.old.items out.new.items) }
{
    push_hits(hits, out)?;
    let end = Reply::EndWatched {
        version,
        hits: count(hits.len())?,
        rebuilt,
    };
    reply_text(&end, out)
}

/// Removes the watch of a name.
pub fn unwatch(watches: &mut Watches, name: &[u8], out: &mut Vec<u8>) -> Result<(), Stop>
    ensures { Unwatches name.now (watched_all watches.old.watches) (watched_all watches.new.watches) out.old.items
        out.new.items result }
{
    if watches.remove(name) {
        say(&Reply::Unwatched, out)
    } else {
        say(&Reply::Refused(Refusal::Watch), out)
    }
}
