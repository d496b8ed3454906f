//! Registering the records of an SD file, one after another.
ghost use Rattle.std.specs.Prelude.{◌≡◌, ◌<◌, ◌+◌, List, Option, Some, length, ℕ};
ghost use Rattle.io_edge.specs.Lines.{TextLine};
ghost use Rattle.shell_lang.specs.Command.{AreIds};
ghost use Rattle.session_acts.specs.Acts.{RegisterEach, Responds};
ghost use Rattle.session_acts.specs.Cursors.{Cursor};
ghost use Rattle.session_run.specs.Made.{AnsweredBy};
ghost use Rattle.session_run.specs.Standings.{Keeps, both, watched_all};
ghost use Rattle.session_run.specs.Taken.{AreRead, AreTaken, IsReady, Registers};
ghost use Rattle.store_machine.specs.History.{IsId};

use crate::commands::{commit, refuse_text};
use crate::records::{Kept, SdTexts};
use crate::say::say;
use crate::texts::record_is_sound;
use dialogue::Stop;
use mol_finish::TextFault;
use sd_read::read_records;
use shell_lang::Reply;
use std::alloc::Global;
use std::sync::Arc;
use std::thread::Threads;
use store_core::{Change, Record, Service};
use watch_list::Watches;

// The result of making a record.
type Made = Result<Arc<Record>, TextFault>;

// The most bytes of a reply to a record.
const LONGEST_REPLY: usize = 40;

/// Registers records under identifiers from `first` on, and answers each by one line. Room for all these lines is taken
/// before the first commit: if there is no room, nothing is committed.
pub fn register_sd<R: Threads + Sync, S: Service>(
    rt: &R,
    watches: &mut Watches,
    service: &mut S,
    first: u32,
    count: u32,
    texts: &SdTexts,
    out: &mut Vec<u8>,
) -> Result<(), Stop>
    requires ids { AreIds first count }
    requires taken { (records : List (Option (List TextLine))) × (length records ≡ count) × AreTaken records texts.now }
    ensures { (records : List (Option (List TextLine))) → length records ≡ count → AreTaken records texts.now
        → (size : ℕ) (cursors : List Cursor) → AnsweredBy S.Service service.old service.new
        (Responds size (λ act. act ≡ RegisterEach first records) (both cursors (watched_all watches.old.watches)))
        out.old.items out.new.items (both cursors (watched_all watches.new.watches)) result }
{
    if out.reserve(count as usize * LONGEST_REPLY).is_err() {
        return Err(Stop::NoMemory);
    }
    let made = read_all(rt, first, texts);
    let mut answers = made.into_iter();
    let mut place = 0;
    while place < count {
        let kept = texts.kept_at(place);
        match register_one(watches, service, kept, answers.next(), out) {
            Ok(()) => place += 1,
            Err(stop) => return Err(stop),
        }
    }
    Ok(())
}

// The result of making each record; an empty list if memory ran out.
fn read_all<R: Threads + Sync>(rt: &R, first: u32, texts: &SdTexts) -> Vec<Made>
    requires ids { (place : ℕ) → place < length texts.now.texts.items → IsId (first + place) }
    ensures { AreRead first texts.now.texts.items result.items }
{
    match read_records(rt, texts.alloc, first, texts.texts.as_slice()) {
        Ok(made) => made,
        Err(_) => Vec::new(texts.alloc),
    }
}

// Answers a record by its kept part and the result of making it. If one of these is missing, memory ran out.
fn register_one<S: Service>(
    watches: &mut Watches,
    service: &mut S,
    kept: Option<Kept>,
    answer: Option<Made>,
    out: &mut Vec<u8>,
) -> Result<(), Stop>
    ensures { (id sum : ℕ) (r : Option (List TextLine)) → IsReady id sum r kept answer
        → AnsweredBy S.Service service.old service.new
        (Keeps (Registers id sum r) (watched_all watches.old.watches)) out.old.items out.new.items
        (watched_all watches.new.watches) result }
{
    let Some(kept) = kept else {
        return say(&Reply::MemoryFault, out);
    };
    match kept {
        Kept::Text => register_made(watches, service, answer, out),
        Kept::Refused(refusal) => say(&Reply::Refused(refusal), out),
        Kept::Lost => say(&Reply::MemoryFault, out),
    }
}

// Answers a record by the result of making it.
fn register_made<S: Service>(
    watches: &mut Watches,
    service: &mut S,
    answer: Option<Made>,
    out: &mut Vec<u8>,
) -> Result<(), Stop>
    ensures { (id sum : ℕ) (r : Option (List TextLine)) → IsReady id sum r (Some Kept.Text) answer
        → AnsweredBy S.Service service.old service.new
        (Keeps (Registers id sum r) (watched_all watches.old.watches)) out.old.items out.new.items
        (watched_all watches.new.watches) result }
{
    match answer {
        Some(Ok(record)) => {
            record_is_sound(&record);
            commit(watches, service, Change::Register(record), out)
        }
        Some(Err(fault)) => say(&refuse_text(fault), out),
        None => say(&Reply::MemoryFault, out),
    }
}
