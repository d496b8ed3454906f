//! The top call over a source and a sink in memory.
ghost use Rattle.std.specs.Prelude.{◌≡◌, ◌<◌, length, IfOk};
ghost use Rattle.chem_shell.specs.Words.{texts, Asks, AsksFor};
ghost use Rattle.chem_shell.specs.declared.request.Plan.{Plan as ThePlan};

use chem_shell::{End, Outcome, PlanFault, chemdb, plan};
use disk_edge::{Disk, MemDisk};
use io_edge::{MemSink, MemSource, Sink, Source};
use par_search::NoMeter;
use session_run::{EndStatus, Settings, session};
use std::alloc::{AllocError, Global};
use std::process::Abort;
use std::sync::Wait;
use std::test::Fail;
use std::thread::Threads;
use store_core::Store;

mod bulk;
mod compact;
mod cursors;
mod disk;
mod drills;
mod failing;
mod gates;
mod lookups;
mod patterns;
mod prints;
mod refused;
mod sd;
mod serve;
mod served;
mod structures;
mod turns;
mod watches;
mod words;

// The words of a session in memory.
const MEM: &[&str] = &["mem"];

// A store of one commit.
const ONE_COMMIT: &[u8] = b"ZCHEMDB1Z\x09\0\0\0\x01\x01\0\0\0\x01CCO\0";

// The subject of a script, words, and the script with its replies, as for `check`.
type Script = (&'static str, &'static [&'static str], &'static str);

// A text, repeated for each number from a first to a last one. `@` in it is the number.
type Piece = (&'static [u8], u32, u32);

// The subject of a script, words, the pieces of the script, and those of its replies.
type Made = (
    &'static str,
    &'static [&'static str],
    &'static [Piece],
    &'static [Piece],
);

// The scripts of all files that are made of pieces.
const MADE: &[&[Made]] = &[
    cursors::MADE,
    patterns::MADE,
    refused::MADE,
    lookups::MADE,
    sd::MADE,
    watches::MADE,
    compact::MADE,
];

// A row of scripts.
fn check_each<R: Abort + Threads + Wait + Sync>(
    rt: &R,
    alloc: Global,
    scripts: &[Script],
) -> Result<(), Fail> {
    for &(about, words, rows) in scripts {
        check(rt, alloc, about, words, rows)?;
    }
    Ok(())
}

// The scripts of a session in memory without options, with these words.
fn check_with<R: Abort + Threads + Wait + Sync>(
    rt: &R,
    alloc: Global,
    words: &[&str],
    scripts: &[Script],
) -> Result<(), Fail> {
    for &(about, own, rows) in scripts {
        if own.len() == MEM.len() {
            check(rt, alloc, about, words, rows)?;
        }
    }
    Ok(())
}

#[test]
fn scripts_of_pieces(rt: HostRuntime) -> Result<(), Fail> {
    for &rows in MADE {
        for &(about, words, script, replies) in rows {
            assert!(rt;
                made_answers(&rt, rt.alloc(), words, script, replies)?,
                "{about}"
            );
        }
    }
    Ok(())
}

// True if a script of pieces has its replies, and the status 0.
fn made_answers<R: Threads + Wait + Sync>(
    rt: &R,
    alloc: Global,
    words: &[&str],
    script: &[Piece],
    replies: &[Piece],
) -> Result<bool, AllocError> {
    let script = made(alloc, script)?;
    let replies = made(alloc, replies)?;
    let answer = call(rt, alloc, words, script.as_slice(), PLAIN)?;
    Ok(answer.status == 0 && put_by(&answer) == replies.as_slice())
}

// The text of pieces.
fn made(alloc: Global, pieces: &[Piece]) -> Result<Vec<u8>, AllocError> {
    let mut text = Vec::new(alloc);
    for &(piece, first, last) in pieces {
        for number in first..=last {
            push_numbered(alloc, &mut text, piece, number)?;
        }
    }
    Ok(text)
}

// Appends a text with a number in place of each `@`.
fn push_numbered(
    alloc: Global,
    text: &mut Vec<u8>,
    piece: &[u8],
    number: u32,
) -> Result<(), AllocError> {
    let mut is_first = true;
    for part in piece.split(|byte| *byte == b'@') {
        if !is_first {
            text.extend_from_slice(format!(in alloc; "{number}")?.as_bytes())?;
        }
        is_first = false;
        text.extend_from_slice(part)?;
    }
    Ok(())
}

// The outcome of a call of one end.
type Answer = Outcome<MemDisk, MemSource, MemSink>;

// The pieces in which a script is given, and the takes and puts that fail, by their numbers from 0 on.
#[derive(Clone, Copy)]
struct Ways<'a> {
    piece: usize,
    takes: &'a [u64],
    puts: &'a [u64],
}

// In one piece, with no failure.
const PLAIN: Ways<'static> = Ways {
    piece: 65_536,
    takes: &[],
    puts: &[],
};

// The outcome of the words over empty disks; each of their ends reads this script.
fn call<R: Threads + Wait + Sync>(
    rt: &R,
    alloc: Global,
    words: &[&str],
    script: &[u8],
    ways: Ways<'_>,
) -> Result<Answer, AllocError>
    requires { 0 < ways.piece }
{
    let disks = (MemDisk::new(alloc), MemDisk::new(alloc));
    call_on(rt, alloc, words, script, ways, disks)
}

// As `call`, but over these disks.
fn call_on<R: Threads + Wait + Sync, D: Disk + Send + Drop>(
    rt: &R,
    alloc: Global,
    words: &[&str],
    script: &[u8],
    ways: Ways<'_>,
    disks: (D, D),
) -> Result<Outcome<D, MemSource, MemSink>, AllocError>
    requires { 0 < ways.piece }
{
    call_each(rt, alloc, words, &[script], ways, disks)
}

// As `call_on`, but each end reads a script of its own.
fn call_each<R: Threads + Wait + Sync, D: Disk + Send + Drop>(
    rt: &R,
    alloc: Global,
    words: &[&str],
    scripts: &[&[u8]],
    ways: Ways<'_>,
    disks: (D, D),
) -> Result<Outcome<D, MemSource, MemSink>, AllocError>
    requires { 0 < ways.piece }
{
    let count = ends_of(alloc, words)?;
    let ends = ends(alloc, count, scripts, ways)?;
    let (a, b) = disks;
    Ok(chemdb(rt, alloc, words, a, b, ends))
}

// `run` of a script over these disks.
fn run<R: Threads + Wait + Sync>(
    rt: &R,
    alloc: Global,
    script: &str,
    disks: (MemDisk, MemDisk),
) -> Result<Answer, AllocError> {
    call_on(rt, alloc, &["run", "f"], script.as_bytes(), PLAIN, disks)
}

// A disk that holds these bytes, synced.
fn disk_of(alloc: Global, bytes: &[u8]) -> Result<MemDisk, AllocError> {
    MemDisk::of(alloc, bytes.to_vec(alloc)?)
}

// True if an answer has these replies, and these bytes on its two disks.
fn has_left(answer: &Answer, replies: &str, left: (&[u8], &[u8])) -> bool {
    put_by(answer) == replies.as_bytes() && answer.a.bytes() == left.0 && answer.b.bytes() == left.1
}

// True if `run` of a script over two disks with these bytes ends with a status and a place of damage. Then it has these
// replies, and leaves these bytes on the disks.
fn run_leaves<R: Threads + Wait + Sync>(
    rt: &R,
    alloc: Global,
    disks: (&[u8], &[u8]),
    script: &str,
    end: (u8, u64),
    replies: &str,
    left: (&[u8], &[u8]),
) -> Result<bool, AllocError> {
    let disks = (disk_of(alloc, disks.0)?, disk_of(alloc, disks.1)?);
    let answer = run(rt, alloc, script, disks)?;
    Ok((answer.status, answer.place) == end && has_left(&answer, replies, left))
}

// The number of ends of the words; one, if they are refused.
fn ends_of(alloc: Global, words: &[&str]) -> Result<u32, AllocError>
    ensures { IfOk result (λ count. Asks (texts words.now)
        → (plan : ThePlan) × AsksFor (texts words.now) plan × (count ≡ plan.ends)) }
{
    match plan(alloc, words) {
        Ok(plan) => Ok(plan.ends),
        Err(PlanFault::Usage) => Ok(1),
        Err(PlanFault::NoMemory) => Err(AllocError),
    }
}

// This many ends, with these scripts, and later ones without a script.
fn ends(
    alloc: Global,
    count: u32,
    scripts: &[&[u8]],
    ways: Ways<'_>,
) -> Result<Vec<End<MemSource, MemSink>>, AllocError>
    requires { 0 < ways.piece }
    ensures { IfOk result (λ ends. length ends.items ≡ count) }
{
    let mut ends = Vec::new(alloc);
    for _ in 0..count {
        let script = scripts.get(ends.len()).copied().unwrap_or(b"");
        let script = Vec::from_slice(alloc, script)?;
        let takes = Vec::from_slice(alloc, ways.takes)?;
        let puts = Vec::from_slice(alloc, ways.puts)?;
        ends.push(End {
            source: MemSource::new(script, ways.piece, takes),
            sink: MemSink::new(alloc, puts),
            status: 0,
        })?;
    }
    Ok(ends)
}

// The end of a session over an empty store in memory that takes no more bytes than this.
fn session_within<R: Threads + Sync, I: Source, O: Sink>(
    rt: &R,
    alloc: Global,
    source: &mut I,
    sink: &mut O,
    input_limit: u64,
) -> EndStatus {
    let mut store = Store::fresh(alloc, 1);
    let settings = Settings {
        workers: 1,
        page: 1,
        input_limit,
    };
    session(rt, alloc, &mut store, source, sink, &settings, &NoMeter)
}

// The bytes that were put.
fn put_by<D: Drop>(answer: &Outcome<D, MemSource, MemSink>) -> &[u8] {
    match answer.ends.first() {
        Some(end) => end.sink.bytes(),
        None => &[],
    }
}

// A script over words, given in these ways, has the status and the replies.
fn answers<R: Abort + Threads + Wait + Sync>(
    rt: &R,
    alloc: Global,
    words: &[&str],
    script: &[u8],
    ways: Ways<'_>,
    status: u8,
    replies: &[u8],
) -> Result<(), Fail>
    requires { 0 < ways.piece }
{
    let answer = call(rt, alloc, words, script, ways)?;
    assert_eq!(rt;
        (answer.status, put_by(&answer)),
        (status, replies),
        "at {words:?}"
    );
    Ok(())
}

// A script over words has its replies, and the status is 0. A line of the script follows `> `, a line of the replies
// follows `< `, and a remark for readers follows `# `.
fn check<R: Abort + Threads + Wait + Sync>(
    rt: &R,
    alloc: Global,
    about: &str,
    words: &[&str],
    rows: &str,
) -> Result<(), Fail> {
    let mut script = String::new(alloc);
    let mut replies = String::new(alloc);
    for row in rows.lines() {
        if let Some(line) = row.strip_prefix("> ") {
            script.push_str(line)?;
            script.push_str("\n")?;
        } else if let Some(reply) = row.strip_prefix("< ") {
            replies.push_str(reply)?;
            replies.push_str("\n")?;
        } else {
            assert!(rt; row.starts_with("# "), "at {row:?}");
        }
    }
    let answer = call(rt, alloc, words, script.as_bytes(), PLAIN)?;
    assert_eq!(rt; put_by(&answer), replies.as_bytes(), "{about}");
    assert_eq!(rt; answer.status, 0, "{about}");
    Ok(())
}
