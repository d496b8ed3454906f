//! Worked drills.

use drill_core::World;
use drill_run::drill;
use io_edge::{MemSink, MemSource};
use par_search::NoMeter;
use session_run::{EndStatus, Settings};
use std::alloc::{AllocError, Global};
use std::test::Fail;
use std::thread::Threads;

// The output of a drill; empty if it did not come to its end.
fn drilled<R: Threads + Sync>(rt: &R, alloc: Global, script: &str) -> Result<String, Fail> {
    let settings = Settings {
        workers: 1,
        page: 256,
        input_limit: 1 << 32,
    };
    let world = World::new(alloc, 100)?;
    let script = Vec::from_slice(alloc, script.as_bytes())?;
    let mut source = MemSource::new(script, 4096, Vec::new(alloc));
    let mut sink = MemSink::new(alloc, Vec::new(alloc));
    match drill(
        rt,
        alloc,
        world,
        &mut source,
        &mut sink,
        &settings,
        &NoMeter,
    ) {
        EndStatus::Done => Ok(String::from_utf8(Vec::from_slice(alloc, sink.bytes())?)?),
        _ => Ok(String::new(alloc)),
    }
}

// True if these are the replies of the drill.
fn is_drilled<R: Threads + Sync>(
    rt: &R,
    alloc: Global,
    script: &str,
    replies: &str,
) -> Result<bool, Fail> {
    Ok(drilled(rt, alloc, script)?.as_str() == replies)
}

// Calls that pass, the answer, and the version after a reopening at each image.
const STOPS: &[(u32, &str, [u32; 4])] = &[
    (0, "fault disk sure", [1, 1, 1, 1]),
    (1, "fault disk sure", [1, 1, 1, 1]),
    (2, "fault disk doubt", [1, 1, 2, 1]),
    (3, "fault disk doubt", [2, 1, 2, 1]),
    (4, "ok 2", [2, 2, 2, 2]),
];

// True if a disk that stops after `calls` calls gives a commit this answer, and a reopening at the image this version.
fn is_stopped<R: Threads + Sync>(
    rt: &R,
    alloc: Global,
    calls: u32,
    answer: &str,
    image: usize,
    version: u32,
) -> Result<bool, Fail> {
    let script = format!(in alloc;
        "1 register 1 CCO\nstop {calls}\n1 register 2 CC=O\nreopen {image}\n"
    )?;
    let replies = format!(in alloc; "1 ok 1\nset\n1 {answer}\nreopened {version}\n")?;
    is_drilled(rt, alloc, &script, &replies)
}

#[test]
fn a_stop_leaves_the_commit_or_not(rt: HostRuntime) -> Result<(), Fail> {
    for &(calls, answer, left) in STOPS {
        for image in 0..4 {
            assert!(rt;
                is_stopped(&rt, rt.alloc(), calls, answer, image, left[image])?,
                "{calls} {image}"
            );
        }
    }
    Ok(())
}

// True if a disk that stops after `calls` calls keeps, at the image, the commits that were acknowledged, and one more
// at most.
fn keeps_the_acknowledged<R: Threads + Sync>(
    rt: &R,
    alloc: Global,
    calls: u32,
    image: u32,
) -> Result<bool, Fail> {
    let script = format!(in alloc;
        "1 register 1 C\nstop {calls}\n1 register 2 C\n1 register 3 C\n\
        1 register 4 C\nreopen {image}\n1 stats\n"
    )?;
    let replies = drilled(rt, alloc, &script)?;
    let acknowledged = replies.matches("1 ok ").count();
    Ok(
        is_reopened(alloc, &replies, acknowledged)?
            || is_reopened(alloc, &replies, acknowledged + 1)?,
    )
}

fn is_reopened(alloc: Global, replies: &str, version: usize) -> Result<bool, AllocError> {
    let line = format!(in alloc; "\nreopened {version}\n")?;
    Ok(replies.contains(line.as_str()))
}

#[test]
fn no_acknowledged_commit_is_lost(rt: HostRuntime) -> Result<(), Fail> {
    for calls in 0..13 {
        for image in 0..10 {
            assert!(rt;
                keeps_the_acknowledged(&rt, rt.alloc(), calls, image)?,
                "{calls} {image}"
            );
        }
    }
    Ok(())
}

// Lines of no drill.
const NONE: &[&str] = &[
    "01 stats",
    "0 stats",
    "17 stats",
    "1",
    " 1 stats",
    "stop",
    "stop  1",
    "stop 01",
    "stop 1000001",
    "fail 0",
    "fail 1000001",
    "fail 1 ",
    "stop-b",
    "stop-b 01",
    "stop-a 1",
    "stop- 1",
    "fail-b 0",
    "fail-b 1000001",
    "reopen 4294967296",
    "reopen -1",
    "Stop 1",
    "stats",
];

#[test]
fn lines_that_are_none_are_refused(rt: HostRuntime) -> Result<(), Fail> {
    for &line in NONE {
        assert!(rt;
            is_drilled(&rt, rt.alloc(), line, "refused drill\n")?,
            "{line}"
        );
    }
    Ok(())
}

// Scripts and their replies.
const DRILLS: &[(&str, &str)] = &[
    // A failed commit is settled by the next one.
    (
        "1 register 1 CCO\nfail 4\n1 register 2 CC=O\n1 register 3 C\nreopen 0\n1 show 2\n2 show 3\n",
        "1 ok 1\nset\n1 fault disk doubt\n1 ok 2\nreopened 2\n1 refused absent\n\
        2 record 3 version 2 smiles C\n",
    ),
    // A reopening leaves no cursor.
    (
        "1 register 1 CO\n1 open s C\n2 revise 1 N\n2 prune\n1 next s\nreopen 0\n1 next s\n",
        "1 ok 1\n1 opened 1\n2 ok 2\n2 pruned 0\n1 hit 1\n1 end at 1 tried 1 hits 1\n\
        reopened 2\n1 refused cursor\n",
    ),
    ("", ""),
    ("\n1 \n", ""),
    ("1  stats", "1 refused syntax\n"),
    (
        "16 register-mol 1\n2 revise-mol\n3 next s",
        "16 refused syntax\n2 refused syntax\n3 refused cursor\n",
    ),
    (
        "1 register-sd 1 1\n2 register-sd 0 1\n3 register-sd 1\n1 register 7 C\n1 data 7 NAME",
        "1 refused syntax\n2 refused syntax\n3 refused syntax\n1 ok 1\n1 refused data\n",
    ),
    (
        "stop 1000000\nfail 1000000\nreopen 4294967295",
        "set\nset\nreopened 0\n",
    ),
    (
        "stop-b 1000000\nfail-b 1000000\nreopen 0",
        "set\nset\nreopened 0\n",
    ),
    (
        "stop-b 0\nfail-b 1\n1 register 1 C\nreopen 1",
        "set\nset\n1 ok 1\nreopened 1\n",
    ),
];

#[test]
fn drills_have_their_replies(rt: HostRuntime) -> Result<(), Fail> {
    for &(script, replies) in DRILLS {
        assert!(rt; is_drilled(&rt, rt.alloc(), script, replies)?, "{script}");
    }
    Ok(())
}
