//! Searches of a session: at once, and by the open cursors, by name, in order of opening.
ghost use Rattle.std.specs.Prelude.{◌≡◌, ◌≤◌, ◌∷◌, ◌++◌, [], IfErr, IfNone, IfOk, IfSome, List, OnOk, true, Vec, ℕ};
ghost use Rattle.std.specs.declared.alloc.Global.{Global};
ghost use Rattle.indexmap.specs.IndexMap.{spare};
ghost use Rattle.shell_lang.specs.Reply as line;
ghost use Rattle.shell_lang.specs.Reply.{reply_line};
ghost use Rattle.session_acts.specs.Acts.{Answers, MayClose, MayOpen, MaySearch, MayTurn, page_end};
ghost use Rattle.session_acts.specs.Cursors as cursor;
ghost use Rattle.session_acts.specs.Cursors.{IsNoName};
ghost use Rattle.session_acts.specs.Pins.{AreHeld};
ghost use Rattle.session_run.specs.Made.{AnsweredBy, Tells, Uses};
ghost use Rattle.session_run.specs.Opened.{IsTaken, named, opened};
ghost use Rattle.session_run.specs.Responds.{IsFit, IsReady};
ghost use Rattle.session_run.specs.Searched.{ReturnsAll};
ghost use Rattle.session_run.specs.Walks.{CursorAnswer, EndsPage, cursor_of, cursors_of};

use crate::listing::{Shown, Walk};
use crate::matching::Matching;
use crate::say::{say, say_given};
use crate::search::{begin, fault_line, give_back, list, pages_together, refuse_pattern};
use crate::settings::Settings;
use crate::texts::read_pattern;
use dialogue::Stop;
use indexmap::IndexMap;
use par_search::{Meter, SearchFault};
use shell_lang::{Refusal, Reply, reply_text};
use std::alloc::{AllocError, Global};
use std::thread::Threads;
use store_core::Service;

/// A cursor that was removed from the open ones.
#[derive(Drop)]
pub struct Cursor {
    pub name: Vec<u8>,
    pub walk: Walk,
}

/// The searches of the open cursors by name, in order of opening, and the settings of a search. A cursor has room for
/// one page at a time; a search that is listed at once fetches its pages in batches.
#[derive(Drop)]
pub struct Cursors {
    pub alloc: Global,
    pub settings: Settings,
    pub by_name: IndexMap<Vec<u8>, Walk>,
}

impl Cursors {
    /// No cursors.
    pub fn new(alloc: Global, settings: Settings) -> Cursors
        ensures settings { result.settings ≡ settings }
        ensures none { opened result ≡ [] }
    {
        Cursors {
            alloc,
            settings,
            by_name: IndexMap::new(alloc),
        }
    }

    /// Lists the hits of a text's pattern, and the end.
    pub fn search<R: Threads + Sync, S: Service, M: Meter>(
        &self,
        matching: &Matching<'_, R, M>,
        service: &mut S,
        text: &[u8],
        out: &mut Vec<u8>,
    ) -> Result<(), Stop>
        requires { IsFit self.now }
        ensures { (cursors : List cursor.Cursor) → AnsweredBy S.Service service.old service.new
            (Answers self.now.settings.page (MaySearch text.now) cursors) out.old.items out.new.items cursors result }
    {
        let pattern = match read_pattern(self.alloc, text) {
            Ok(pattern) => pattern,
            Err(fault) => return say(&refuse_pattern(fault), out),
        };
        let most = pages_together(&self.settings);
        match begin(self.alloc, service, &self.settings, pattern, most) {
            Ok(walk) => list(matching, service, walk, out),
            Err(fault) => say_given(fault_line(fault), out),
        }
    }

    /// Opens a cursor for the pattern of a text, at the head.
    pub fn open<S: Service>(
        &mut self,
        service: &mut S,
        name: &[u8],
        text: &[u8],
        out: &mut Vec<u8>,
    ) -> Result<(), Stop>
        requires { IsReady S.Service service.old self.old }
        ensures answered { AnsweredBy S.Service service.old service.new
            (Answers self.old.settings.page (MayOpen (cursors_of (opened self.old)) name.now text.now)
            (cursors_of (opened self.old))) out.old.items out.new.items (cursors_of (opened self.new)) result }
        ensures fit { IsFit self.new }
        ensures settings { self.new.settings ≡ self.old.settings }
    {
        let pattern = match read_pattern(self.alloc, text) {
            Ok(pattern) => pattern,
            Err(fault) => return say(&refuse_pattern(fault), out),
        };
        if self.by_name.contains_key(name) {
            return say(&Reply::Refused(Refusal::Cursor), out);
        }
        let Ok(own_name) = self.room_for(name) else {
            return say(&Reply::MemoryFault, out);
        };
        match begin(self.alloc, service, &self.settings, pattern, 0) {
            Ok(walk) => self.add(own_name, walk, out),
            Err(fault) => say_given(fault_line(fault), out),
        }
    }

    /// Writes the next page of the cursor of a name.
    pub fn next<R: Threads + Sync, S: Service, M: Meter>(
        &mut self,
        matching: &Matching<'_, R, M>,
        service: &mut S,
        name: &[u8],
        out: &mut Vec<u8>,
    ) -> Result<(), Stop>
        requires { IsReady S.Service service.old self.old }
        ensures answered { AnsweredBy S.Service service.old service.new
            (Answers self.old.settings.page (MayTurn (cursors_of (opened self.old)) name.now)
            (cursors_of (opened self.old))) out.old.items out.new.items (cursors_of (opened self.new)) result }
        ensures fit { IsFit self.new }
        ensures settings { self.new.settings ≡ self.old.settings }
    {
        match self.by_name.get_mut(name) {
            Some(walk) => next_page(walk, matching, service, out),
            None => say(&Reply::Refused(Refusal::Cursor), out),
        }
    }

    /// Closes the cursor of a name.
    pub fn close<S: Service>(
        &mut self,
        service: &mut S,
        name: &[u8],
        out: &mut Vec<u8>,
    ) -> Result<(), Stop>
        requires { IsReady S.Service service.old self.old }
        ensures answered { AnsweredBy S.Service service.old service.new
            (Answers self.old.settings.page (MayClose (cursors_of (opened self.old)) name.now)
            (cursors_of (opened self.old))) out.old.items out.new.items (cursors_of (opened self.new)) result }
        ensures fit { IsFit self.new }
        ensures settings { self.new.settings ≡ self.old.settings }
    {
        let Some(cursor) = self.take(name) else {
            return say(&Reply::Refused(Refusal::Cursor), out);
        };
        match give_back(cursor.walk.search, service) {
            Ok(()) => say(&Reply::Closed, out),
            Err(stop) => Err(stop),
        }
    }

    /// Gives the pins of all cursors back, in order of opening.
    pub fn close_all<S: Service>(&mut self, service: &mut S) -> Result<(), Stop>
        requires { AreHeld (S.holds service.old) (cursors_of (opened self.old)) }
        ensures { ReturnsAll (Uses S.Service service.old service.new) (S.worn service.new)
            (cursors_of (opened self.old)) result }
    {
        while let Some(cursor) = self.take_first() {
            match give_back(cursor.walk.search, service) {
                Ok(()) => {}
                Err(stop) => return Err(stop),
            }
        }
        Ok(())
    }

    // A copy of a name, and room for one cursor more.
    fn room_for(&mut self, name: &[u8]) -> Result<Vec<u8>, AllocError>
        ensures name { IfOk result (λ own. own.items ≡ name.now) }
        ensures room { OnOk result (1 ≤ spare self.new.by_name) }
        ensures settings { self.new.settings ≡ self.old.settings }
        ensures same { opened self.new ≡ opened self.old }
    {
        let own = Vec::from_slice(self.alloc, name)?;
        self.by_name.reserve(1)?;
        Ok(own)
    }

    // Adds the cursor of a name with a search that began.
    fn add(&mut self, name: Vec<u8>, walk: Walk, out: &mut Vec<u8>) -> Result<(), Stop>
        requires room { 1 ≤ spare self.old.by_name }
        requires free { IsNoName (cursors_of (opened self.old)) name.items }
        ensures added { opened self.new ≡ opened self.old ++ named (name, walk) ∷ [] }
        ensures said { Tells (line.Opened walk.search.version) out.old.items out.new.items result }
        ensures settings { self.new.settings ≡ self.old.settings }
    {
        let version = walk.search.version();
        // There is room for it.
        match self.by_name.insert(name, walk) {
            Ok(_) => say(&Reply::Opened { version }, out),
            Err(_) => unreachable!(),
        }
    }

    // Removes the cursor of a name. `None` if there is no such cursor.
    fn take(&mut self, name: &[u8]) -> Option<Cursor>
        ensures some { IfSome result (λ cursor. IsTaken name.now (opened self.old) cursor (opened self.new)) }
        ensures none { IfNone result (IsNoName (cursors_of (opened self.old)) name.now) }
        ensures same { IfNone result (opened self.new ≡ opened self.old) }
        ensures settings { self.new.settings ≡ self.old.settings }
    {
        let (name, walk) = self.by_name.shift_remove_entry(name)?;
        Some(Cursor { name, walk })
    }

    // Removes the cursor that was opened first. `None` if there is no cursor.
    fn take_first(&mut self) -> Option<Cursor>
        ensures some { IfSome result (λ cursor. opened self.old ≡ cursor ∷ opened self.new) }
        ensures none { IfNone result (opened self.old ≡ []) }
    {
        let (name, walk) = self.by_name.shift_remove_index(0)?;
        Some(Cursor { name, walk })
    }
}

// The next page of a cursor, whatever its name; after the last page its end alone.
fn next_page<R: Threads + Sync, S: Service, M: Meter>(
    walk: &mut Walk,
    matching: &Matching<'_, R, M>,
    service: &mut S,
    out: &mut Vec<u8>,
) -> Result<(), Stop>
    requires held { S.holds service.old walk.old.search.slot walk.old.search.version }
    ensures answered { (name : Vec ℕ Global) → AnsweredBy S.Service service.old service.new
        (CursorAnswer walk.old.search.size (cursor_of (named (name, walk.old))))
        out.old.items out.new.items (cursor_of (named (name, walk.new))) result }
    ensures size { walk.new.search.size ≡ walk.old.search.size }
{
    let page = walk.page(matching, service, out);
    say_page(walk, page, out)
}

// The line after a page, or the line of a fault.
fn say_page(walk: &Walk, page: Result<Shown, SearchFault>, out: &mut Vec<u8>) -> Result<(), Stop>
    ensures { (name : Vec ℕ Global)
        → EndsPage (cursor_of (named (name, walk.now))) page out.old.items out.new.items result }
{
    match page {
        Ok(shown) => end_page(walk, shown, out),
        Err(SearchFault::Worn) => Err(Stop::Worn),
        Err(SearchFault::NoMemory) | Err(SearchFault::Pins) => say(&Reply::MemoryFault, out),
    }
}

// The line after a page's hits.
fn end_page(walk: &Walk, shown: Shown, out: &mut Vec<u8>) -> Result<(), Stop>
    ensures ok { (name : Vec ℕ Global) → OnOk result ((shown.whole ≡ true) × (out.new.items
        ≡ out.old.items ++ reply_line (page_end shown.last (cursor_of (named (name, walk.now)))))) }
    ensures err { IfErr result (λ stop. stop ≡ Stop.NoMemory) }
{
    if !shown.whole {
        return Err(Stop::NoMemory);
    }
    let reply = if shown.last {
        walk.end().ok_or(Stop::NoMemory)?
    } else {
        Reply::More
    };
    reply_text(&reply, out)?;
    Ok(())
}
