//! Commands of one call: changes of the store, `show`, `prune`, `compact` and `stats`.
ghost use Rattle.std.specs.Prelude.{◌≡◌, IfOk, List, OnOk, true, ℕ};
ghost use Rattle.std.specs.Arc.{arc_value};
ghost use Rattle.shell_lang.specs.Reply.{reply_of};
ghost use Rattle.store_core.specs.Calls.{NeedsNone, is_compact_worn, is_worn, is_worn_out};
ghost use Rattle.store_core.specs.Replies.{IsLookOf, IsSoundChange, change_of, commit_calls, compact_calls, look_calls, prune_calls, stats_calls};
ghost use Rattle.store_core.specs.declared.words.Change as asked;
ghost use Rattle.store_machine.specs.declared.machine.Event.TheVariants as event;
ghost use Rattle.store_machine.specs.History.{IsId};
ghost use Rattle.session_acts.specs.Acts.{Answers, MayAsk, MayChange, Responds};
ghost use Rattle.session_acts.specs.Cursors.{Cursor};
ghost use Rattle.session_acts.specs.Watching.{AreNoted};
ghost use Rattle.session_run.specs.Made.{AnsweredBy, Gives};
ghost use Rattle.session_run.specs.Responds.{IsTextRefusal, change_by};
ghost use Rattle.session_run.specs.Standings.{IsNotedBy, both, watched_all};

use crate::say::{say, say_given, say_long};
use crate::texts::record_is_sound;
use dialogue::Stop;
use mol_finish::{Format, TextFault, one_structure};
use shell_lang::{Refusal, Reply};
use std::alloc::AllocError;
use std::sync::Arc;
use store_core::{
    CallFault, Change, CommitFault, Compact, CompactFault, Look, Record, Recorder, Service, Stats,
};
use watch_list::Watches;

/// A change to a text.
#[derive(Clone, Copy, Debug, PartialEq, Eq)]
pub enum Verb {
    Register,
    Revise,
}

/// A change to a text: its verb, its identifier and its format.
#[derive(Clone, Copy, Debug, PartialEq, Eq)]
pub struct TextChange {
    pub verb: Verb,
    pub id: u32,
    pub format: Format,
}

/// Commits a change to a text. The text is read first.
pub fn change_text<S: Service>(
    recorder: &mut Recorder,
    watches: &mut Watches,
    service: &mut S,
    change: TextChange,
    text: &[u8],
    out: &mut Vec<u8>,
) -> Result<(), Stop>
    requires { IsId change.id }
    ensures { (size : ℕ) (cursors : List Cursor) → AnsweredBy S.Service service.old service.new
        (Responds size (MayChange (change_by change.verb change.id change.format text.now) change.format text.now)
        (both cursors (watched_all watches.old.watches)))
        out.old.items out.new.items (both cursors (watched_all watches.new.watches)) result }
{
    let record = match recorder.record(change.id, change.format, text) {
        Ok(record) => record,
        Err(fault) => return say(&refuse_text(fault), out),
    };
    record_is_sound(&record);
    commit(watches, service, change_to(change.verb, record), out)
}

// The change that a verb makes.
fn change_to(verb: Verb, entry: Arc<Record>) -> Change
    ensures { let r = arc_value entry in change_of result ≡ change_by verb r.id r.format r.text }
{
    match verb {
        Verb::Register => Change::Register(entry),
        Verb::Revise => Change::Revise(entry),
    }
}

/// Commits a change, and updates the watches by it. The memory for that is taken first.
pub fn commit<S: Service>(
    watches: &mut Watches,
    service: &mut S,
    change: Change,
    out: &mut Vec<u8>,
) -> Result<(), Stop>
    ensures { (size : ℕ) (cursors : List Cursor) → AnsweredBy S.Service service.old service.new
        (Responds size (MayAsk (event.Commit (change_of change))) (both cursors (watched_all watches.old.watches)))
        out.old.items out.new.items (both cursors (watched_all watches.new.watches)) result }
{
    let Ok(second) = prepare(watches, &change) else {
        return say(&Reply::MemoryFault, out);
    };
    let answer = service.commit(change);
    note(watches, answer, &second);
    say_given(commit_line(answer), out)
}

// Takes memory for updating the watches by a change. Returns the change once more, which shares the record.
fn prepare(watches: &mut Watches, change: &Change) -> Result<Change, AllocError>
    ensures watches { watches.new.watches ≡ watches.old.watches }
    ensures reserved { OnOk result (watches.new.reserved ≡ true) }
    ensures change { IfOk result (λ second. change_of second ≡ change_of change.now) }
{
    watches.reserve()?;
    share(change)
}

// The change once more.
fn share(change: &Change) -> Result<Change, AllocError>
    ensures { IfOk result (λ second. change_of second ≡ change_of change.now) }
{
    match change {
        Change::Register(record) => Ok(Change::Register(Arc::try_clone(record)?)),
        Change::Revise(record) => Ok(Change::Revise(Arc::try_clone(record)?)),
        Change::Withdraw(id) => Ok(Change::Withdraw(*id)),
    }
}

// Updates the watches by a commit, if it was made.
fn note(watches: &mut Watches, answer: Result<u32, CommitFault>, change: &Change)
    requires { watches.old.reserved ≡ true }
    ensures { IsNotedBy answer (change_of change.now) (watched_all watches.old.watches)
        (watched_all watches.new.watches) }
{
    match answer {
        Ok(version) => note_version(watches, version, change),
        Err(_) => {}
    }
}

// Updates the watches by the commit of a version. No commit is version 0.
fn note_version(watches: &mut Watches, version: u32, change: &Change)
    requires { watches.old.reserved ≡ true }
    ensures { AreNoted version (change_of change.now) (watched_all watches.old.watches)
        (watched_all watches.new.watches) }
{
    one_structure();
    change_is_sound(change);
    let is_none = version == 0;
    if is_none {
        return;
    }
    watches.note(version, change);
}

// A law: the record of a change is sound.
fn change_is_sound(change: &Change)
    ensures { IsSoundChange change.now }
{
    let _ = change.id();
}

// The line of a commit.
fn commit_line(answer: Result<u32, CommitFault>) -> Result<Reply, Stop>
    ensures { (change : asked.Change)
        → Gives (event.Commit (change_of change)) (commit_calls change answer) (is_worn_out answer) result }
{
    match answer {
        Ok(version) => Ok(Reply::Accepted { version }),
        Err(CommitFault::Known) => Ok(Reply::Refused(Refusal::Known)),
        Err(CommitFault::Absent) => Ok(Reply::Refused(Refusal::Absent)),
        Err(CommitFault::Withdrawn) => Ok(Reply::Refused(Refusal::Withdrawn)),
        Err(CommitFault::Full) => Ok(Reply::Refused(Refusal::Full)),
        Err(CommitFault::DiskFault { doubt }) => Ok(Reply::DiskFault { doubt }),
        Err(CommitFault::NoMemory) => Ok(Reply::MemoryFault),
        Err(CommitFault::Worn) => Err(Stop::Worn),
    }
}

/// Drops the entries that no version in use reads.
pub fn prune<S: Service>(service: &mut S, out: &mut Vec<u8>) -> Result<(), Stop>
    ensures { (size : ℕ) (cursors : List Cursor) → AnsweredBy S.Service service.old service.new
        (Answers size (MayAsk event.Prune) cursors) out.old.items out.new.items cursors result }
{
    let answer = service.prune();
    say_given(prune_line(answer), out)
}

// The line of `prune`.
fn prune_line(answer: Result<u32, CallFault>) -> Result<Reply, Stop>
    requires { NeedsNone answer }
    ensures { Gives event.Prune (prune_calls answer) (is_worn answer) result }
{
    match answer {
        Ok(count) => Ok(Reply::Pruned { count }),
        Err(CallFault::Worn) => Err(Stop::Worn),
        Err(CallFault::NoMemory) => unreachable!(),
    }
}

/// One step of a compaction.
pub fn compact<S: Service>(service: &mut S, out: &mut Vec<u8>) -> Result<(), Stop>
    ensures { (size : ℕ) (cursors : List Cursor) → AnsweredBy S.Service service.old service.new
        (Answers size (MayAsk event.Compact) cursors) out.old.items out.new.items cursors result }
{
    let answer = service.compact();
    say_given(compact_line(answer), out)
}

// The line of `compact`.
fn compact_line(answer: Result<Compact, CompactFault>) -> Result<Reply, Stop>
    ensures { Gives event.Compact (compact_calls answer) (is_compact_worn answer) result }
{
    match answer {
        Ok(Compact::More { left }) => Ok(Reply::Compacting { left }),
        Ok(Compact::Done { generation }) => Ok(Reply::Compacted { generation }),
        Err(CompactFault::Last) => Ok(Reply::Refused(Refusal::Generation)),
        Err(CompactFault::DiskFault { doubt }) => Ok(Reply::DiskFault { doubt }),
        Err(CompactFault::NoMemory) => Ok(Reply::MemoryFault),
        Err(CompactFault::Worn) => Err(Stop::Worn),
    }
}

/// Writes the status of an identifier.
pub fn show<S: Service>(service: &mut S, id: u32, out: &mut Vec<u8>) -> Result<(), Stop>
    ensures { (size : ℕ) (cursors : List Cursor) → AnsweredBy S.Service service.old service.new
        (Answers size (MayAsk (event.Look id)) cursors) out.old.items out.new.items cursors result }
{
    let answer = service.look(id);
    say_long(look_line(id, answer), out)
}

// The line of `show`.
fn look_line(id: u32, answer: Result<Look, CallFault>) -> Result<Reply, Stop>
    requires { IfOk answer (λ l. IsLookOf id l) }
    ensures { Gives (event.Look id) (look_calls id answer) (is_worn answer) result }
{
    match answer {
        Ok(Look::Absent) => Ok(Reply::Refused(Refusal::Absent)),
        Ok(Look::Live { version, entry }) => Ok(Reply::Shown { version, entry }),
        Ok(Look::Withdrawn { version }) => Ok(Reply::Gone { id, version }),
        Err(CallFault::NoMemory) => Ok(Reply::MemoryFault),
        Err(CallFault::Worn) => Err(Stop::Worn),
    }
}

/// Writes the counts of the store.
pub fn stats<S: Service>(service: &mut S, out: &mut Vec<u8>) -> Result<(), Stop>
    ensures { (size : ℕ) (cursors : List Cursor) → AnsweredBy S.Service service.old service.new
        (Answers size (MayAsk event.Stats) cursors) out.old.items out.new.items cursors result }
{
    let answer = service.stats();
    say_given(stats_line(answer), out)
}

// The line of `stats`.
fn stats_line(answer: Result<Stats, CallFault>) -> Result<Reply, Stop>
    requires { NeedsNone answer }
    ensures { Gives event.Stats (stats_calls answer) (is_worn answer) result }
{
    match answer {
        Ok(stats) => Ok(Reply::Counts(stats)),
        Err(CallFault::Worn) => Err(Stop::Worn),
        Err(CallFault::NoMemory) => unreachable!(),
    }
}

/// The refusal of a text.
pub fn refuse_text(fault: TextFault) -> Reply
    ensures { IsTextRefusal fault (reply_of result) }
{
    match fault {
        TextFault::NoMemory => Reply::MemoryFault,
        TextFault::Smiles(_) | TextFault::Molfile(_) => Reply::Refused(Refusal::Text(fault)),
    }
}
