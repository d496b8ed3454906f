//! chemdb: a database of chemical structures with SMARTS substructure search.
#![tactic(auto)]

ghost use Rattle.std.specs.Prelude.{◌≡◌, IfOk, length};

mod disks;
mod files;
mod settle;

use crate::disks::{Opened, cut_other, open_disks};
use crate::files::script_ends;
use chem_shell::{End, Outcome, PlanFault, Verb, chemdb, plan, status, word_fault};
use disk_edge::FileDisk;
use disk_pair::{Which, which_is_read};
use io_edge::{StdSink, StdSource};
use std::alloc::{AllocError, Global};
use std::env;
use std::fs::File;
use std::io::{self, ErrorKind, Printer};
use std::process::ExitCode;
use std::rt::{Env, Files};
use std::sync::Wait;
use std::thread::Threads;

/// The usage, printed if the words are refused, after a line with the reason.
const USAGE: &str = "\
usage: chemdb COMMAND [OPTIONS]

commands
  mem              serve the script of standard input over a store in memory
  init FILE        make an empty store in a file that is not there or is empty; its second file,
                   FILE.2, is made beside it
  run FILE         serve the script of standard input over the store in the file
  serve FILE SCRIPT..
                   serve 1 to 16 scripts at the same time over the store in the file; the
                   replies to a script go to the file of its name with .out appended
  bulk SEED COUNT  run a generated script over a store in memory, and print its summary;
                   SEED is 1 to 2147483646, and COUNT, the structures to register, 0 to 100000
  drill            serve the drill of standard input: lines of 16 sessions on a store in memory,
                   `stop K` and `fail K`, by which its disk fails, `stop-b K` and `fail-b K` for
                   its second disk, and `reopen N` after a crash

options
  --workers N  threads for searches and opening, 1 to 16; 1 if left out
  --page N     records in a page, 1 to 256; 256 if left out
  --commits N  of mem, run, serve and drill: the most commits of the store, 1 to 16777215; 16777215 if left out

Options, none for init, stand before or behind the command, as --page 3 or --page=3.
example: printf 'register 1 CCO\\nsearch CO\\n' | chemdb mem --page=64";

fn main(rt: HostRuntime) -> ExitCode {
    ExitCode::from(run(&rt))
}

/// Executes the words from standard input to standard output, and returns the overall status.
fn run<R: Env + AllocGlobal + Files<File = File> + Input + Print + Eprint + Threads + Wait + Sync>(
    rt: &R,
) -> u8
where
    R::Reader: Send,
{
    match words(rt) {
        Ok(words) => run_words(rt, &words).unwrap_or(status::NO_MEMORY),
        Err(error) if error.kind() == ErrorKind::OutOfMemory => status::NO_MEMORY,
        Err(_) => {
            explain(rt, "a word is not UTF-8");
            status::USAGE
        }
    }
}

/// As `run`, for these words. If they ask for nothing, it says why on standard error.
fn run_words<R: AllocGlobal + Files<File = File> + Input + Print + Eprint + Threads + Wait + Sync>(
    rt: &R,
    words: &[String],
) -> Result<u8, AllocError>
where
    R::Reader: Send,
{
    let alloc = rt.alloc();
    let mut texts = Vec::with_capacity(alloc, words.len())?;
    for word in words {
        texts.push(word.as_str())?;
    }
    let status = serve(rt, alloc, &texts)?;
    if status == status::USAGE {
        match word_fault(alloc, &texts) {
            Ok(Some(reason)) => explain(rt, reason.as_str()),
            _ => explain(rt, "the words ask for nothing"),
        }
    }
    Ok(status)
}

/// The ends are the scripts of the words, and their replies, or else standard input and output. If the store is
/// damaged, its message gives the file, and the first damaged byte.
fn serve<R: AllocGlobal + Files<File = File> + Input + Print + Eprint + Threads + Wait + Sync>(
    rt: &R,
    alloc: Global,
    words: &[&str],
) -> Result<u8, AllocError>
where
    R::Reader: Send,
{
    let plan = match plan(alloc, words) {
        Ok(plan) => plan,
        Err(PlanFault::Usage) => return Ok(status::USAGE),
        Err(PlanFault::NoMemory) => return Err(AllocError),
    };
    let Opened {
        path,
        a,
        b,
        generation,
    } = open_disks(rt, alloc, &plan)?;
    match plan.command {
        Verb::Serve => {
            let ends = script_ends(rt, alloc, &plan.scripts, generation.is_some())?;
            Ok(finished(rt, chemdb(rt, alloc, words, a, b, ends), path, generation))
        }
        _ => {
            let ends = ends(rt, alloc, plan.ends)?;
            Ok(finished(rt, chemdb(rt, alloc, words, a, b, ends), path, generation))
        }
    }
}

/// The overall status of an outcome. If the store is damaged, it prints the damaged file, and the place of damage.
/// After a run that went well and compacted the store, the file that is no longer read is cut.
fn finished<R: Eprint, S: Drop, K: Drop>(
    rt: &R,
    outcome: Outcome<FileDisk, S, K>,
    path: Option<String>,
    generation: Option<u32>,
) -> u8 {
    let Outcome {
        a,
        b,
        status,
        place,
        ..
    } = outcome;
    let (mut a, mut b) = (a, b);
    if status == status::DONE {
        if let Some(before) = generation {
            cut_other(&mut a, &mut b, before);
        }
    }
    if status == status::DAMAGED {
        let file = match &path {
            Some(path) => path.as_str(),
            None => "the store",
        };
        let ending = match which_is_read(&mut a, &mut b) {
            Ok(Some(Which::Second)) => ".2",
            _ => "",
        };
        let _ = eprintln!(rt; "chemdb: {file}{ending} is damaged from byte {place} on");
    }
    status
}

/// Prints why the words are refused, and the usage. If standard error is gone, only the status says it.
fn explain<R: Eprint>(rt: &R, reason: &str) {
    let _ = eprintln!(rt; "chemdb: {reason}\n{USAGE}");
}

/// The words after the program's name. One that is not UTF-8 is an error.
fn words<R: Env + AllocGlobal>(rt: &R) -> io::Result<Vec<String>> {
    let mut words = Vec::new(rt.alloc());
    for word in env::args(rt)?.skip(1) {
        words.push(word)?;
    }
    Ok(words)
}

/// `count` ends over standard input and output.
fn ends<'r, R: Input + Print>(
    rt: &'r R,
    alloc: Global,
    count: u32,
) -> Result<Vec<End<StdSource<R::Reader>, StdSink<Printer<'r, R>>>>, AllocError>
    ensures { IfOk result (λ ends. length ends.items ≡ count) }
{
    let mut ends = Vec::new(alloc);
    for _ in 0..count {
        ends.push(End {
            source: StdSource::new(rt.reader()),
            sink: StdSink::new(io::writer(rt)),
            status: status::DONE,
        })?;
    }
    Ok(ends)
}
