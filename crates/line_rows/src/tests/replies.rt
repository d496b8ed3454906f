//! Replies and their lines.
use mol_finish::Format;
use shell_lang::{Refusal, Reply, data_text, reply_text};
use std::alloc::{AllocError, Global};
use std::test::Fail;
use store_core::{Record, Stats};

// Methane; the last line has no LF.
const METHANE: &str = "methane


  1  0  0  0  0  0  0  0  0  0999 V2000
    0.0000    0.0000    0.0000 C   0  0
M  END";

const STATS: Stats = Stats {
    version: 5,
    live: 2,
    withdrawn: 1,
    kept: 4,
    pins: 0,
};

// A reply that shows no record and refuses nothing, and its lines.
fn reply_at(place: usize) -> Option<(Reply, &'static str)> {
    let row = match place {
        0 => (Reply::Accepted { version: 3 }, "ok 3\n"),
        1 => (Reply::Gone { id: 7, version: 4 }, "withdrawn 7 version 4\n"),
        2 => (Reply::Hit { id: 7 }, "hit 7\n"),
        3 => (
            Reply::End {
                version: 5,
                tried: 3,
                hits: 2,
            },
            "end at 5 tried 3 hits 2\n",
        ),
        4 => (Reply::Like { id: 1, c: 6, u: 10 }, "like 1 6 10\n"),
        5 => (
            Reply::Scored {
                version: 4,
                scored: 3,
                hits: 2,
            },
            "end at 4 scored 3 hits 2\n",
        ),
        6 => (Reply::Opened { version: 5 }, "opened 5\n"),
        7 => (Reply::More, "more\n"),
        8 => (Reply::Closed, "closed\n"),
        9 => (
            Reply::Watching {
                version: 5,
                hits: 2,
            },
            "watching 5 hits 2\n",
        ),
        10 => (
            Reply::EndWatched {
                version: 5,
                hits: 2,
                rebuilt: 1,
            },
            "end at 5 hits 2 rebuilt 1\n",
        ),
        11 => (Reply::Unwatched, "unwatched\n"),
        12 => (Reply::Pruned { count: 3 }, "pruned 3\n"),
        13 => (Reply::Compacting { left: 744 }, "compacting 744\n"),
        14 => (Reply::Compacted { generation: 2 }, "compacted 2\n"),
        15 => (
            Reply::Counts(STATS),
            "stats version 5 live 2 withdrawn 1 kept 4 pins 0\n",
        ),
        16 => (Reply::DiskFault { doubt: false }, "fault disk sure\n"),
        17 => (Reply::DiskFault { doubt: true }, "fault disk doubt\n"),
        18 => (Reply::MemoryFault, "fault memory\n"),
        _ => return None,
    };
    Some(row)
}

// The number of replies.
const REPLIES: usize = 19;

// True if these are the lines of the reply.
fn is_written(alloc: Global, reply: &Reply, lines: &str) -> Result<bool, AllocError> {
    let mut out = Vec::new(alloc);
    reply_text(reply, &mut out)?;
    Ok(out.as_slice() == lines.as_bytes())
}

fn is_written_at(alloc: Global, place: usize) -> Result<bool, AllocError> {
    match reply_at(place) {
        Some((reply, lines)) => is_written(alloc, &reply, lines),
        None => Ok(false),
    }
}

#[test]
fn replies_are_written(rt: HostRuntime) -> Result<(), Fail> {
    for place in 0..REPLIES {
        assert!(rt; is_written_at(rt.alloc(), place)?, "the reply at {place}");
    }
    Ok(())
}

// Refusals and their lines.
const REFUSALS: &[(Refusal, &str)] = &[
    (Refusal::Cursor, "refused cursor\n"),
    (Refusal::Watch, "refused watch\n"),
    (Refusal::Watches, "refused watches\n"),
    (Refusal::Same { id: 1 }, "refused same 1\n"),
    (Refusal::SdCut, "refused sd cut\n"),
    (Refusal::SdLimit, "refused sd limit\n"),
    (Refusal::Absent, "refused absent\n"),
    (Refusal::Withdrawn, "refused withdrawn\n"),
    (Refusal::Data, "refused data\n"),
    (Refusal::Pins, "refused pins\n"),
    (Refusal::Generation, "refused generation\n"),
];

#[test]
fn refusals_are_written(rt: HostRuntime) -> Result<(), Fail> {
    for &(refusal, lines) in REFUSALS {
        assert!(rt;
            is_written(rt.alloc(), &Reply::Refused(refusal), lines)?,
            "at {lines}"
        );
    }
    Ok(())
}

// Texts of records, and the words before each text in the lines of a reply.
const SHOWN: &[(Format, &str, &str)] = &[
    (Format::Smiles, "CCO", "record 7 version 3 smiles "),
    (Format::Molfile, METHANE, "record 7 version 3 molfile 6\n"),
];

#[test]
fn records_are_written(rt: HostRuntime) -> Result<(), Fail> {
    for &(format, text, before) in SHOWN {
        let entry = Record::make(rt.alloc(), 7, format, text.as_bytes())?;
        let reply = Reply::Shown { version: 3, entry };
        let lines = format!(in rt.alloc(); "{before}{text}\n")?;
        assert!(rt; is_written(rt.alloc(), &reply, &lines)?, "at {before}");
    }
    Ok(())
}

// Texts of a data item, and their lines.
const DATA: &[(&str, &str)] = &[
    ("", "data 7 0\n"),
    ("\n", "data 7 1\n\n"),
    ("1.5", "data 7 1\n1.5\n"),
    ("1.5\n", "data 7 1\n1.5\n"),
    ("a\n b", "data 7 2\na\n b\n"),
    ("a\n\nb\n", "data 7 3\na\n\nb\n"),
];

// True if these are the lines of the text.
fn is_data_written(alloc: Global, text: &str, lines: &str) -> Result<bool, AllocError> {
    let mut out = Vec::new(alloc);
    data_text(7, text.as_bytes(), &mut out)?;
    Ok(out.as_slice() == lines.as_bytes())
}

#[test]
fn data_are_written(rt: HostRuntime) -> Result<(), Fail> {
    for &(text, lines) in DATA {
        assert!(rt; is_data_written(rt.alloc(), text, lines)?, "at {lines}");
    }
    Ok(())
}
