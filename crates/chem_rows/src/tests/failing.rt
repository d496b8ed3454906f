//! Sources and sinks that fail.
ghost use Rattle.std.specs.Prelude.{◌<◌};

use super::{MEM, PLAIN, Ways, answers, session_within};
use io_edge::{MemSink, MemSource};
use session_run::EndStatus;
use std::alloc::{AllocError, Global};
use std::process::Abort;
use std::sync::Wait;
use std::test::Fail;
use std::thread::Threads;

// Lines with their replies: no reply, one, several, and those of a molfile.
const TURNS: &[(&str, &str)] = &[
    ("register 1 CO\n", "ok 1\n"),
    ("\n", ""),
    ("open s CO\n", "opened 1\n"),
    ("register-mol 2\n\n\n\nM  END\n", "refused molfile header\n"),
    ("revise 1 CCC\n", "ok 2\n"),
    ("prune\n", "pruned 0\n"),
    ("next s\n", "hit 1\nend at 1 tried 1 hits 1\n"),
    (
        "stats\n",
        "stats version 2 live 1 withdrawn 0 kept 2 pins 1\n",
    ),
];

// A session over them in these ways has this status, and the replies to the whole lines among the first `taken` bytes.
fn ends<R: Abort + Threads + Wait + Sync>(
    rt: &R,
    alloc: Global,
    ways: Ways<'_>,
    status: u8,
    taken: usize,
) -> Result<(), Fail>
    requires { 0 < ways.piece }
{
    let mut script = String::new(alloc);
    let mut replies = String::new(alloc);
    for (lines, reply) in TURNS {
        script.push_str(lines)?;
        if script.len() <= taken {
            replies.push_str(reply)?;
        }
    }
    answers(
        rt,
        alloc,
        MEM,
        script.as_bytes(),
        ways,
        status,
        replies.as_bytes(),
    )
}

#[test]
fn each_put_and_each_take_fails_in_turn(rt: HostRuntime) -> Result<(), Fail> {
    let alloc = rt.alloc();
    let mut taken = 0usize;
    for (put, (lines, _)) in TURNS.iter().enumerate() {
        let puts = [put as u64];
        let ways = Ways {
            piece: 65_536,
            takes: &[],
            puts: &puts,
        };
        ends(&rt, alloc, ways, 4, taken)?;
        taken = taken.saturating_add(lines.len());
    }
    ends(&rt, alloc, PLAIN, 0, taken)?;
    // a byte at each take, and the end at the last
    for take in 0..taken.saturating_add(1) {
        let takes = [take as u64];
        let ways = Ways {
            piece: 1,
            takes: &takes,
            puts: &[],
        };
        ends(&rt, alloc, ways, 3, take)?;
    }
    Ok(())
}

// True if a session over two lines that takes no more bytes than this ends so, and puts these replies.
fn ends_within<R: Threads + Sync>(
    rt: &R,
    alloc: Global,
    input_limit: u64,
    ended: EndStatus,
    replies: &str,
) -> Result<bool, AllocError> {
    let script = Vec::from_slice(alloc, b"stats\nstats\n")?;
    let mut source = MemSource::new(script, 5, Vec::new(alloc));
    let mut sink = MemSink::new(alloc, Vec::new(alloc));
    let end = session_within(rt, alloc, &mut source, &mut sink, input_limit);
    Ok(end == ended && sink.bytes() == replies.as_bytes())
}

const ONCE: &str = "stats version 0 live 0 withdrawn 0 kept 0 pins 0\n";

const TWICE: &str = "stats version 0 live 0 withdrawn 0 kept 0 pins 0\n\
    stats version 0 live 0 withdrawn 0 kept 0 pins 0\n";

// The number of bytes that may be taken, the end status of a session, and its replies.
const LIMITS: &[(u64, EndStatus, &str)] = &[
    (6, EndStatus::InputTooLong, ONCE),
    (12, EndStatus::InputTooLong, TWICE),
    (13, EndStatus::Done, TWICE),
];

#[test]
fn no_more_is_taken_than_may_be(rt: HostRuntime) -> Result<(), Fail> {
    for &(input_limit, ended, replies) in LIMITS {
        assert!(rt;
            ends_within(&rt, rt.alloc(), input_limit, ended, replies)?,
            "at {input_limit}"
        );
    }
    Ok(())
}
