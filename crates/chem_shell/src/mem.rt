//! `mem`: a session over a store in memory, which keeps no journal.
ghost use Rattle.std.specs.Prelude.{◌≢◌};
ghost use Rattle.session_acts.specs.Cursors.{Calls};
ghost use Rattle.session_acts.specs.Served.{EndsAs};
ghost use Rattle.chem_shell.specs.Ends.{HasEndCauses, ServesMem};
ghost use Rattle.chem_shell.specs.Runs.{AreOfRun};
ghost use Rattle.chem_shell.specs.Serving.{IsScriptServed};
ghost use Rattle.chem_shell.specs.Words.{IsWithinLimits};

use crate::request::Plan;
use crate::settings::{INPUT_LIMIT, settings};
use io_edge::{Sink, Source};
use par_search::NoMeter;
use serve_ends::{End, end_status};
use session_acts::services_are_true;
use session_run::{EndStatus, session};
use std::alloc::Global;
use std::thread::Threads;
use store_disk::Store;

/// Serves an end.
pub fn serve_mem<R: Threads + Sync, S: Source + Drop, K: Sink + Drop>(
    rt: &R,
    alloc: Global,
    plan: &Plan<'_>,
    end: &mut End<S, K>,
)
    requires { IsWithinLimits plan.now }
    ensures serves { ServesMem plan.now S.left K.written end.old end.new }
    ensures causes { HasEndCauses S.left S.faults K.faults end.old end.new }
{
    let ended = run_script(rt, alloc, plan, &mut end.source, &mut end.sink);
    end.status = end_status(ended);
}

/// A session over a store in memory, which is made here and keeps no journal.
pub fn run_script<R: Threads + Sync, I: Source, O: Sink>(
    rt: &R,
    alloc: Global,
    plan: &Plan<'_>,
    source: &mut I,
    sink: &mut O,
) -> EndStatus
    requires { IsWithinLimits plan.now }
    ensures serves { (calls : Calls) × (run : AreOfRun plan.now.commits calls)
        × IsScriptServed result plan.now.page (I.left source.old) (I.left source.new)
        (O.written sink.old) (O.written sink.new) calls run.last.history }
    ensures not_worn { result ≢ EndStatus.Worn }
    ensures ends { EndsAs I.Source O.Sink result INPUT_LIMIT source.old source.new sink.old sink.new }
{
    services_are_true();
    let mut store = Store::in_memory(alloc, plan.commits);
    session(
        rt,
        alloc,
        &mut store,
        source,
        sink,
        &settings(plan),
        &NoMeter,
    )
}
