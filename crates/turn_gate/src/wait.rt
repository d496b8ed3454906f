//! A caller waits for its turn. Whoever has the turn may keep it for milliseconds. So a caller tries a few times, and
//! then sleeps until the turn ends, or for a millisecond at most.
ghost use Rattle.std.specs.Prelude.{◌≡◌, ◌+◌, ◌*◌, [], min, MatchBool};
ghost use Rattle.std.specs.Duration.{as_nanos};
ghost use Rattle.turn_gate.specs.Passes.{IsOf};
ghost use Rattle.turn_gate.specs.Steps.{sat, at_stage};

use crate::gate::{Gate, HOLDER, Pass};
use crate::rule::Take;
use crate::stands::Stands;
use std::sync::Wait;
use std::sync::atomic::Ordering;
use std::thread::Parker;
use std::time::Duration;
use std::{hint, thread};

// The number of tries that are made one after another, and the number until the first sleep.
const SPINS: u32 = 64;

const YIELDS: u32 = 256;

impl<V: Stands> Gate<V> {
    // Takes the holder word, and waits for it while another pass has it.
    pub(crate) fn take<R: Wait>(&self, rt: &R, pass: &mut Pass<V>)
        requires of { IsOf self.now pass.old }
        ensures same { pass.new.seat.table_id ≡ pass.old.seat.table_id }
        ensures taken { pass.new.seat.me ≡ sat (at_stage 1 pass.old.seat.me.0) [] }
    {
        self.give_way(rt);
        let mut tries: u32 = 0;
        for _ in rt.forever() {
            if self.try_take(pass) {
                return;
            }
            self.pause(rt, tries);
            tries = tries.saturating_add(1);
        }
        unreachable!()
    }

    // Lets those that sleep go first: one was woken when the last turn ended, and takes a moment to come back.
    fn give_way<R: Wait>(&self, rt: &R) {
        if self.asleep.load(Ordering::SeqCst) > 0 {
            Parker::new().park_timeout(rt, nap(0));
        }
    }

    // Takes the holder word, and returns true; false if a turn is on.
    fn try_take(&self, pass: &mut Pass<V>) -> bool
        requires of { IsOf self.now pass.old }
        ensures same { pass.new.seat.table_id ≡ pass.old.seat.table_id }
        ensures taken { MatchBool result
            (pass.new.seat.me ≡ sat (at_stage 1 pass.old.seat.me.0) [])
            (pass.new.seat.me ≡ pass.old.seat.me) }
    {
        let shared = &self.table.shared;
        shared.compare_exchange::<Take>(&mut pass.seat, HOLDER, 0, 1) == 0
    }

    // Lets time pass after `tries` tries.
    fn pause<R: Wait>(&self, rt: &R, tries: u32) {
        if tries < SPINS {
            hint::spin_loop();
        } else if tries < YIELDS {
            thread::yield_now();
        } else {
            self.sleep(rt, nap(tries - YIELDS));
        }
    }

    // Sleeps until the turn that is on ends, and no longer than `time`. It may also end for no reason.
    fn sleep<R: Wait>(&self, rt: &R, time: Duration) {
        self.asleep.fetch_add(1, Ordering::SeqCst);
        self.table.shared.park_timeout(rt, HOLDER, 1, time);
        self.asleep.fetch_sub(1, Ordering::SeqCst);
    }

    // Ends the sleep of one caller, if one sleeps.
    pub(crate) fn wake(&self) {
        if self.asleep.load(Ordering::SeqCst) > 0 {
            self.table.shared.wake_one(HOLDER);
        }
    }
}

// The longest sleep after `sleeps` sleeps: 32 microseconds longer each time, up to about a millisecond.
fn nap(sleeps: u32) -> Duration
    ensures { as_nanos result ≡ 32000 * (1 + min sleeps 31) }
{
    Duration::from_micros(32 + 32 * u64::from(sleeps.min(31)))
}
