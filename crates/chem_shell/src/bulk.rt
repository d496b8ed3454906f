//! `bulk`: the summary of a generated script's transcript.
ghost use Rattle.std.specs.Prelude.{◌≡◌, IfOk};
ghost use Rattle.io_edge.specs.Faults.{Rose};
ghost use Rattle.chem_shell.specs.Ends.{ServesBulk};
ghost use Rattle.chem_shell.specs.Serving.{Puts};
ghost use Rattle.chem_shell.specs.Summed.{IsSummary};
ghost use Rattle.chem_shell.specs.Words.{IsWithinLimits};

use crate::mem::run_script;
use crate::request::Plan;
use crate::status::{DONE, NO_MEMORY, SINK_FAULT};
use chem_gen::{script, summary};
use io_edge::{MemSink, MemSource, PutFault, Sink};
use serve_ends::End;
use session_run::EndStatus;
use std::alloc::{AllocError, Global};
use std::thread::Threads;

// The number of bytes of the generated script that are given at once.
const PIECE: usize = 65_536;

/// Puts the summary to an end. Nothing is taken from it.
pub fn serve_bulk<R: Threads + Sync, S: Drop, K: Sink + Drop>(
    rt: &R,
    alloc: Global,
    plan: &Plan<'_>,
    end: &mut End<S, K>,
)
    requires { IsWithinLimits plan.now }
    ensures serves { ServesBulk plan.now K.written end.old end.new }
    ensures sink_fault { end.new.status ≡ SINK_FAULT → Rose (K.faults end.old.sink) (K.faults end.new.sink) }
{
    end.status = match summed(rt, alloc, plan) {
        Ok(text) => put(&text, &mut end.sink),
        Err(AllocError) => NO_MEMORY,
    };
}

// The summary of a transcript of the generated script.
fn summed<R: Threads + Sync>(rt: &R, alloc: Global, plan: &Plan<'_>) -> Result<Vec<u8>, AllocError>
    requires { IsWithinLimits plan.now }
    ensures { IfOk result (λ text. IsSummary plan.now text.items) }
{
    let script = script(alloc, plan.seed, plan.count)?;
    let mut source = MemSource::new(script, PIECE, Vec::new(alloc));
    let mut sink = MemSink::new(alloc, Vec::new(alloc));
    match run_script(rt, alloc, plan, &mut source, &mut sink) {
        EndStatus::Done => summary(alloc, plan.seed, plan.count, sink.bytes()),
        // The script is short, and neither end of it fails, so memory ran out.
        _ => Err(AllocError),
    }
}

// Puts a text, and answers the status of its end.
fn put<K: Sink>(text: &[u8], sink: &mut K) -> u8
    ensures { Puts text.now (K.written sink.old) (K.written sink.new) (K.faults sink.old) (K.faults sink.new) result }
{
    match sink.put(text) {
        Ok(()) => DONE,
        Err(PutFault::Failed) => SINK_FAULT,
        Err(PutFault::NoMemory) => NO_MEMORY,
    }
}
