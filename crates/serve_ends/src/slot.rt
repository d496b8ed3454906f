//! An end with its pass, and its session at a desk.
ghost use Rattle.session_run.specs.Servable.{IsServable};
ghost use Rattle.serve_ends.specs.Slots.{CanServe, WasServed};

use crate::end::End;
use crate::status::end_status;
use disk_edge::Disk;
use hall::{Hall, HallPass};
use io_edge::{Sink, Source};
use par_search::Meter;
use session_run::{Settings, session};
use std::alloc::Global;
use std::sync::Wait;
use std::thread::Threads;

/// An end with its pass, which is away while it is at a desk.
#[derive(Drop)]
pub struct Slot<D: Disk, S, K> {
    pub served: End<S, K>,
    pub pass: Option<HallPass<D>>,
}

/// Serves an end: one session at a desk of the hall.
pub fn serve_end<R: Threads + Wait + Sync, D: Disk + Drop, S: Source, K: Sink, M: Meter>(
    rt: &R,
    alloc: Global,
    hall: &Hall<D>,
    slot: &mut Slot<D, S, K>,
    settings: &Settings,
    meter: &M,
)
    requires can { CanServe hall.now slot.old }
    requires servable { IsServable settings.now }
    ensures { WasServed S.Source K.Sink settings.now hall.now slot.old slot.new }
{
    let Some(pass) = slot.pass.take() else {
        unreachable!()
    };
    let mut desk = hall.desk(rt, pass);
    let end = &mut slot.served;
    let ended = session(
        rt,
        alloc,
        &mut desk,
        &mut end.source,
        &mut end.sink,
        settings,
        meter,
    );
    end.status = end_status(ended);
    slot.pass = Some(desk.leave());
}
