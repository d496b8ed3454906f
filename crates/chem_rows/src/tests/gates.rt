//! Two passes of one gate, in one thread and in two.
ghost use Rattle.std.specs.Prelude.{◌≡◌, ◌++◌, ◌∷◌, [], List, OnOk, length, true};
ghost use Rattle.turn_gate.specs.Numbers.{has, own};
ghost use Rattle.turn_gate.specs.Passes.{IsOf, known};

use std::sync::Wait;
use std::thread;
use std::thread::{Threads, join_mut};
use std::time::{Clock, Duration};
use turn_gate::{Gate, Pass, Stands, Worn};

/// The number of marks that were made under this gate.
#[derive(Drop)]
struct Tally {
    marks: u64,
}

/// A mark by a number of a pass, and the number of marks with it.
struct Mark {
    by: u64,
    count: u64,
}

impl Stands for Tally {
    ghost use Rattle.std.specs.Prelude.{◌≡◌, length};

    type Event = Mark;

    // The number of marks that were made elsewhere, which the tally does not know.
    type Origin = u64;

    ghost stands = { λ elsewhere t marks. t.marks ≡ length marks };

    ghost tells = { λ t m. m.count ≡ t.marks };

    ghost number = { λ m. m.by };
}

// Makes a mark in a turn that takes this time, or returns that all turns were taken.
fn make_mark<R: Wait + Clock>(
    rt: &R,
    gate: &Gate<Tally>,
    pass: &mut Pass<Tally>,
    time: Duration,
) -> Result<(), Worn>
    requires of { IsOf gate.now pass.old }
    ensures of { IsOf gate.now pass.new }
    ensures marked { OnOk result ((others : List Mark) × (mark : Mark)
        × ((known pass.new).seen ≡ (known pass.old).seen ++ others ++ mark ∷ [])
        × (own (λ (m : Mark). m.by) (known pass.old).numbers others ≡ [])
        × (has (known pass.old).numbers mark.by ≡ true)
        × (mark.count ≡ length (known pass.new).seen)) }
    ensures numbers { (known pass.new).numbers ≡ (known pass.old).numbers }
    ensures given { (known pass.new).given ≡ (known pass.old).given }
{
    let mut turn = pass.turn(rt, gate)?;
    thread::sleep(rt, time);
    turn.value().marks += 1;
    turn.end();
    Ok(())
}

// Makes `count` marks, each tenth in a turn that takes a millisecond.
fn make_marks<R: Wait + Clock>(rt: &R, gate: &Gate<Tally>, pass: &mut Pass<Tally>, count: u64)
    requires of { IsOf gate.now pass.old }
    ensures of { IsOf gate.now pass.new }
    ensures numbers { (known pass.new).numbers ≡ (known pass.old).numbers }
    ensures given { (known pass.new).given ≡ (known pass.old).given }
{
    for i in 0..count {
        let time = Duration::from_millis(if i % 10 == 0 { 1 } else { 0 });
        if make_mark(rt, gate, pass, time).is_err() {
            return;
        }
    }
}

// Makes `count` marks in each of two threads.
fn mark_both<R: Threads + Wait + Clock + Sync>(
    rt: &R,
    gate: &Gate<Tally>,
    one: &mut Pass<Tally>,
    two: &mut Pass<Tally>,
    count: u64,
)
    requires one { IsOf gate.now one.old }
    requires two { IsOf gate.now two.old }
    ensures one { IsOf gate.now one.new }
    ensures two { IsOf gate.now two.new }
    ensures numbers { ((known one.new).numbers ≡ (known one.old).numbers)
        × ((known two.new).numbers ≡ (known two.old).numbers) }
    ensures given { ((known one.new).given ≡ (known one.old).given)
        × ((known two.new).given ≡ (known two.old).given) }
{
    join_mut(
        rt,
        &mut || make_marks(rt, gate, one, count),
        &mut || make_marks(rt, gate, two, count),
    );
}

#[test]
fn a_gate_with_two_turns_gives_two(rt: HostRuntime) {
    let (gate, mut pass) = match Gate::start(rt.alloc(), Tally { marks: 0 }, 2) {
        Ok(made) => made,
        Err(_) => panic!(rt; "no memory"),
    };
    let mut other = gate.split(&mut pass);
    let made = (
        make_mark(&rt, &gate, &mut pass, Duration::ZERO),
        make_mark(&rt, &gate, &mut other, Duration::ZERO),
        make_mark(&rt, &gate, &mut pass, Duration::ZERO),
        make_mark(&rt, &gate, &mut other, Duration::ZERO),
    );
    gate.join(&mut pass, other);
    let marks = gate.close(pass).marks;
    assert!(rt; made == (Ok(()), Ok(()), Err(Worn), Err(Worn)) && marks == 2);
}

#[test]
fn two_threads_take_turns(rt: HostRuntime) {
    let (gate, mut pass) = match Gate::start(rt.alloc(), Tally { marks: 0 }, 1 << 63) {
        Ok(made) => made,
        Err(_) => panic!(rt; "no memory"),
    };
    let mut other = gate.split(&mut pass);
    mark_both(&rt, &gate, &mut pass, &mut other, 1_000);
    gate.join(&mut pass, other);
    let marks = gate.close(pass).marks;
    assert!(rt; marks == 2_000);
}
