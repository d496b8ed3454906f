//! A drill, line by line.
ghost use Rattle.std.specs.Prelude.{◌≢◌, ℕ};
ghost use Rattle.dialogue.specs.Talked.{EndsAs, IsServedBy};
ghost use Rattle.drill_core.specs.Worlds.{HasNoFailures};
ghost use Rattle.drill_run.specs.Runs.{Runs};
ghost use Rattle.drill_run.specs.Talking.{begun, drills};
ghost use Rattle.drill_run.specs.Talks.{AnswersAsked, CanAnswer};
ghost use Rattle.session_acts.specs.Cursors.{Calls};
ghost use Rattle.session_run.specs.Servable.{IsServable};
ghost use Rattle.store_core.specs.Stored.{empty};
ghost use Rattle.store_disk.specs.InMemory.{StandsInMemory};

use crate::sessions::Sessions;
use dialogue::{EndStatus, Stop, talk};
use drill_core::World;
use io_edge::{Sink, Source};
use par_search::Meter;
use session_run::Settings;
use std::alloc::Global;
use std::thread::Threads;

/// Answers the lines of a source into a sink, each before more is read, and takes no more bytes than `input_limit`. The
/// world is as `World::new` gives it. At the end the pins of the cursors that are still open are given back, and the
/// world is dropped.
pub fn drill<R: Threads + Sync, I: Source, O: Sink, M: Meter>(
    rt: &R,
    alloc: Global,
    world: World,
    source: &mut I,
    sink: &mut O,
    settings: &Settings,
    meter: &M,
) -> EndStatus
    requires servable { IsServable settings.now }
    requires new { (commits : ℕ) × StandsInMemory world (empty commits) }
    requires no_failures { HasNoFailures world }
    ensures drills { (calls : Calls) × Runs world calls
        × IsServedBy drills result (begun settings.now.page) (I.left source.old) (I.left source.new)
        (O.written sink.old) (O.written sink.new) calls }
    ensures worn { result ≢ EndStatus.Worn }
    ensures ends { EndsAs I.Source O.Sink result settings.now.input_limit source.old source.new sink.old sink.new }
{
    let Ok(mut sessions) = Sessions::new(alloc, *settings) else {
        return EndStatus::NoMemory;
    };
    let mut slot = Some(world);
    let answer = |sessions: &mut Sessions, slot: &mut Option<World>, line: &[u8]| -> Result<
        (),
        Stop,
    >
        requires { CanAnswer sessions.old slot.old line.now }
        ensures { AnswersAsked result sessions.old sessions.new slot.old slot.new line.now }
    { sessions.answer(rt, slot, meter, line) };
    talk(
        alloc,
        &mut sessions,
        &mut slot,
        &answer,
        source,
        sink,
        settings.input_limit,
    )
}
