//! `drill`: sessions on a store in memory whose disks are stopped, failed and reopened.
ghost use Rattle.std.specs.Prelude.{◌≢◌};
ghost use Rattle.dialogue.specs.Talked.{EndsAs, IsServedBy};
ghost use Rattle.drill_run.specs.Talking.{begun, drills};
ghost use Rattle.session_acts.specs.Cursors.{Calls};
ghost use Rattle.chem_shell.specs.Drills.{AreOfDrill, ServesDrill};
ghost use Rattle.chem_shell.specs.Ends.{HasEndCauses};
ghost use Rattle.chem_shell.specs.Words.{IsWithinLimits};

use crate::request::Plan;
use crate::settings::{INPUT_LIMIT, settings};
use drill_core::World;
use drill_run::{drill, drills_are_true};
use io_edge::{Sink, Source};
use par_search::NoMeter;
use serve_ends::{End, end_status};
use session_run::EndStatus;
use std::alloc::Global;
use std::thread::Threads;

/// Serves an end.
pub fn serve_drill<R: Threads + Sync, S: Source + Drop, K: Sink + Drop>(
    rt: &R,
    alloc: Global,
    plan: &Plan<'_>,
    end: &mut End<S, K>,
)
    requires { IsWithinLimits plan.now }
    ensures serves { ServesDrill plan.now S.left K.written end.old end.new }
    ensures causes { HasEndCauses S.left S.faults K.faults end.old end.new }
{
    drills_are_true();
    let ended = run_drill(rt, alloc, plan, &mut end.source, &mut end.sink);
    end.status = end_status(ended);
}

// A drill of a world that is made here. If memory runs out for it, nothing is taken or put.
fn run_drill<R: Threads + Sync, I: Source, O: Sink>(
    rt: &R,
    alloc: Global,
    plan: &Plan<'_>,
    source: &mut I,
    sink: &mut O,
) -> EndStatus
    requires { IsWithinLimits plan.now }
    ensures drills { (calls : Calls) × AreOfDrill plan.now.commits calls
        × IsServedBy drills result (begun plan.now.page) (I.left source.old) (I.left source.new)
        (O.written sink.old) (O.written sink.new) calls }
    ensures not_worn { result ≢ EndStatus.Worn }
    ensures ends { EndsAs I.Source O.Sink result INPUT_LIMIT source.old source.new sink.old sink.new }
{
    let Ok(world) = World::new(alloc, plan.commits) else {
        return EndStatus::NoMemory;
    };
    drill(rt, alloc, world, source, sink, &settings(plan), &NoMeter)
}
