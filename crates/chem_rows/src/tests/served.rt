//! Scripts that are served at the same time over one store in memory.
//!
//! Ends and searches wait for each other by a count of events. Each reply that was put and each search that began to
//! match counts one. A wait gives up after 10,000,000 turns, which fails the test.
ghost use Rattle.std.specs.Prelude.{◌≤◌};

use hall::Hall;
use io_edge::{MemSink, MemSource, PutFault, Sink, Source, Take};
use par_search::Meter;
use serve_ends::{DONE, End, MOST_ENDS, serve_ends};
use session_run::Settings;
use std::alloc::{AllocError, Global};
use std::snapshot::Snapshot;
use std::sync::atomic::{AtomicU32, Ordering};
use std::sync::{Arc, Wait};
use std::test::Fail;
use std::thread;
use std::thread::Threads;
use store_core::Service;
use store_disk::Store;

// The count of events so far, and the number of waits that gave up.
#[derive(Drop)]
struct Meeting {
    happened: AtomicU32,
    gave_up: AtomicU32,
    // The count of events after which a search that began to match goes on.
    search_until: u32,
}

impl Meeting {
    fn new(search_until: u32) -> Meeting {
        Meeting {
            happened: AtomicU32::new(0),
            gave_up: AtomicU32::new(0),
            search_until,
        }
    }

    // Waits until the count of events is `count`, up to a limit of turns.
    fn wait_until(&self, count: u32) {
        for _turn in 0..10_000_000 {
            if self.happened.load(Ordering::SeqCst) >= count {
                return;
            }
            thread::yield_now();
        }
        self.gave_up.fetch_add(1, Ordering::SeqCst);
    }
}

// Counts a search that began to match, and holds it.
impl Meter for Meeting {
    fn begin(&self, _piece: u32) {
        self.happened.fetch_add(1, Ordering::SeqCst);
        self.wait_until(self.search_until);
    }
}

// The script of an end: its first lines at a count of events, and the rest at a greater one.
#[derive(Clone, Copy)]
struct Script<'a> {
    lines_after: u32,
    lines: &'a str,
    rest_after: u32,
    rest: &'a str,
}

// Gives the lines of a script.
#[derive(Drop)]
struct Asker {
    bytes: MemSource,
    lines_after: u32,
    rest_after: u32,
    begun: bool,
    meeting: Arc<Meeting, Global>,
}

impl Source for Asker {
    ghost use Rattle.std.specs.Prelude.{Some};

    ghost left = { λ s. Some s.bytes.left };

    ghost faults = { λ s. s.bytes.faults };

    fn take(&mut self, room: &mut [u8]) -> Take {
        let after = if self.begun {
            self.rest_after
        } else {
            self.lines_after
        };
        self.meeting.wait_until(after);
        self.begun = true;
        self.bytes.take(room)
    }
}

// Counts each reply at the meeting.
#[derive(Drop)]
struct Teller {
    text: MemSink,
    meeting: Arc<Meeting, Global>,
}

impl Sink for Teller {
    ghost use Rattle.std.specs.Prelude.{Some};

    ghost written = { λ s. Some s.text.bytes };

    ghost faults = { λ s. s.text.faults };

    fn put(&mut self, bytes: &[u8]) -> Result<(), PutFault> {
        let answer = self.text.put(bytes);
        self.meeting.happened.fetch_add(1, Ordering::SeqCst);
        answer
    }
}

// An end with a script. No take of it gives more than the first lines.
fn end(
    alloc: Global,
    script: Script<'_>,
    meeting: &Arc<Meeting, Global>,
) -> Result<End<Asker, Teller>, AllocError> {
    let text = format!(in alloc; "{}{}", script.lines, script.rest)?;
    let bytes = Vec::from_slice(alloc, text.as_bytes())?;
    let piece = script.lines.len().max(1);
    Ok(End {
        source: Asker {
            bytes: MemSource::new(bytes, piece, Vec::new(alloc)),
            lines_after: script.lines_after,
            rest_after: script.rest_after,
            begun: false,
            meeting: Arc::try_clone(meeting)?,
        },
        sink: Teller {
            text: MemSink::new(alloc, Vec::new(alloc)),
            meeting: Arc::try_clone(meeting)?,
        },
        status: 1,
    })
}

// Serves ends over an empty store. Returns them and the number of commits of the store, if no wait gave up and each pin
// was given back.
fn serve<R: Threads + Wait + Sync>(
    rt: &R,
    alloc: Global,
    ends: Vec<End<Asker, Teller>>,
    workers: u32,
    meeting: &Meeting,
) -> Result<(Vec<End<Asker, Teller>>, Option<u32>), Fail>
    requires some { 1 ≤ workers }
    requires few { workers ≤ 16 }
{
    if ends.is_empty() || ends.len() > MOST_ENDS {
        return Err(Fail::new("not so many ends"));
    }
    let store = Store::fresh(alloc, 1_000)?;
    let (hall, mut pass) = match Hall::start(alloc, store, Snapshot::of(&true)) {
        Ok(made) => made,
        Err((failed, _)) => return Err(Fail::from(failed)),
    };
    let settings = Settings {
        workers,
        page: 256,
        input_limit: 10_000,
    };
    let (ends, answer) = serve_ends(rt, alloc, &hall, &mut pass, ends, &settings, meeting);
    let stats = hall.close(pass).stats()?;
    answer?;
    let gave_up = meeting.gave_up.load(Ordering::SeqCst);
    let is_whole = gave_up == 0 && stats.pins == 0;
    Ok((ends, is_whole.then_some(stats.version)))
}

// An end that registers methane under identifiers from a first to a last, and then shows the last. It gives its second
// line once there is a reply for each end.
fn registering(
    alloc: Global,
    first: u32,
    last: u32,
    count: u16,
    meeting: &Arc<Meeting, Global>,
) -> Result<End<Asker, Teller>, AllocError> {
    let lines = format!(in alloc; "register {first} C\n")?;
    let mut rest = String::new(alloc);
    for id in first.saturating_add(1)..last.saturating_add(1) {
        rest.push_str(format!(in alloc; "register {id} C\n")?.as_str())?;
    }
    rest.push_str(format!(in alloc; "show {last}\n")?.as_str())?;
    let script = Script {
        lines_after: 0,
        lines: lines.as_str(),
        rest_after: u32::from(count),
        rest: rest.as_str(),
    };
    end(alloc, script, meeting)
}

// The number of versions in the replies, and the last of them, if each is greater than the one before.
fn rising(told: &str) -> Option<(u16, u32)> {
    let mut count = 0_u16;
    let mut last = 0;
    for line in told.lines() {
        let version = line.strip_prefix("ok ")?.parse::<u32>().ok()?;
        if version <= last {
            return None;
        }
        count = count.saturating_add(1);
        last = version;
    }
    Some((count, last))
}

// True if an end is done, its replies have a greater version for each of its identifiers, and `show` gives the last.
fn has_registered(
    alloc: Global,
    end: &End<Asker, Teller>,
    each: u16,
    last: u32,
) -> Result<bool, AllocError> {
    let Ok(text) = std::str::from_utf8(end.sink.text.bytes()) else {
        return Ok(false);
    };
    let Some((told, shown)) = text.split_once("\nrecord ") else {
        return Ok(false);
    };
    let Some((count, version)) = rising(told) else {
        return Ok(false);
    };
    let record = format!(in alloc; "{last} version {version} smiles C\n")?;
    Ok(end.status == DONE && count == each && shown == record.as_str())
}

// The first and the last identifier of an end.
fn identifiers(number: u16, each: u16) -> (u32, u32) {
    let first = 1_000 * u32::from(number) + 1;
    (first, first + u32::from(each.saturating_sub(1)))
}

// True if `count` ends that register `each` identifiers each are served at the same time, with `commits` commits.
fn serves<R: Threads + Wait + Sync>(
    rt: &R,
    alloc: Global,
    count: u16,
    each: u16,
    commits: u32,
) -> Result<bool, Fail> {
    let meeting = Arc::new(alloc, Meeting::new(0))?;
    let mut ends = Vec::new(alloc);
    for number in 0..count {
        let (first, last) = identifiers(number, each);
        ends.push(registering(alloc, first, last, count, &meeting)?)?;
    }
    let (ends, version) = serve(rt, alloc, ends, 1, &meeting)?;
    let mut holds = version == Some(commits);
    for (number, end) in (0..count).zip(&ends) {
        let (_, last) = identifiers(number, each);
        holds &= has_registered(alloc, end, each, last)?;
    }
    Ok(holds)
}

// The number of ends, of identifiers of each, and of commits then.
const ENDS: &[(u16, u16, u32)] = &[(2, 100, 200), (3, 10, 30), (16, 2, 32)];

// Each end waits after its first line until all have been answered.
#[test]
fn ends_are_served_at_the_same_time(rt: HostRuntime) -> Result<(), Fail> {
    for &(count, each, commits) in ENDS {
        assert!(rt;
            serves(&rt, rt.alloc(), count, each, commits)?,
            "{count} ends"
        );
    }
    Ok(())
}

// The count of events before a search goes on, and the ends with their replies.
type Served = (u32, &'static [(Script<'static>, &'static str)]);

const BESIDE: &[Served] = &[
    (
        4,
        &[
            (
                Script {
                    lines_after: 0,
                    lines: "register 10 C\n",
                    rest_after: 2,
                    rest: "search C\n",
                },
                "ok 1\nhit 10\nhit 20\nend at 2 tried 2 hits 2\n",
            ),
            (
                Script {
                    lines_after: 1,
                    lines: "register 20 C\n",
                    rest_after: 3,
                    rest: "register 30 C\n",
                },
                "ok 2\nok 3\n",
            ),
        ],
    ),
    (
        0,
        &[
            (
                Script {
                    lines_after: 0,
                    lines: "register 10 C\nopen s C\n",
                    rest_after: 4,
                    rest: "next s\nshow 10\nclose s\n",
                },
                "ok 1\nopened 1\nhit 10\nend at 1 tried 1 hits 1\n\
                    record 10 version 2 smiles N\nclosed\n",
            ),
            (
                Script {
                    lines_after: 2,
                    lines: "revise 10 N\nprune\n",
                    rest_after: 8,
                    rest: "prune\n",
                },
                "ok 2\npruned 0\npruned 1\n",
            ),
        ],
    ),
];

// True if ends that are served have their replies, and are done.
fn replies_are<R: Threads + Wait + Sync>(
    rt: &R,
    alloc: Global,
    search_until: u32,
    rows: &[(Script<'static>, &str)],
) -> Result<bool, Fail> {
    let meeting = Arc::new(alloc, Meeting::new(search_until))?;
    let mut ends = Vec::new(alloc);
    for (script, _) in rows {
        ends.push(end(alloc, *script, &meeting)?)?;
    }
    let (ends, version) = serve(rt, alloc, ends, 1, &meeting)?;
    let mut holds = version.is_some();
    for (end, (_, replies)) in ends.iter().zip(rows) {
        holds &= end.status == DONE && end.sink.text.bytes() == replies.as_bytes();
    }
    Ok(holds)
}

// A search that began to match is held until another end has committed: it holds no turn. A cursor lists the hits at
// its opening, though another end has revised these and pruned.
#[test]
fn an_end_sees_its_version_while_another_commits(rt: HostRuntime) -> Result<(), Fail> {
    for &(search_until, rows) in BESIDE {
        assert!(rt;
            replies_are(&rt, rt.alloc(), search_until, rows)?,
            "until {search_until}"
        );
    }
    Ok(())
}

// The first half of the candidates of a search with two workers is held until its other half has begun, after 128
// replies.
#[test]
fn two_workers_search_in_two_threads(rt: HostRuntime) -> Result<(), Fail> {
    let alloc = rt.alloc();
    let meeting = Arc::new(alloc, Meeting::new(130))?;
    let mut lines = String::new(alloc);
    for id in 1..129_u32 {
        lines.push_str(format!(in alloc; "register {id} C\n")?.as_str())?;
    }
    let script = Script {
        lines_after: 0,
        lines: lines.as_str(),
        rest_after: 128,
        rest: "search C\n",
    };
    let ends = vec![in alloc; end(alloc, script, &meeting)?]?;
    let (ends, version) = serve(&rt, alloc, ends, 2, &meeting)?;
    assert_eq!(rt; version, Some(128));
    for end in &ends {
        assert!(rt;
            end.sink
                .text
                .bytes()
                .ends_with(b"end at 128 tried 128 hits 128\n")
        );
    }
    Ok(())
}

// Four cursors of an end.
const OPENS: &str = "open a C\nopen b C\nopen c C\nopen d C\n";

// The replies to an end that opens four cursors, and to the first end, which then searches.
const OPENED: &str = "opened 0\nopened 0\nopened 0\nopened 0\n";

const NO_PIN_IS_LEFT: &str = "opened 0\nopened 0\nopened 0\nopened 0\nrefused pins\n";

// Sixteen ends have 64 cursors, so a search is refused. They are not closed: each end's pins are given back as it ends.
#[test]
fn ends_leave_their_cursors_open(rt: HostRuntime) -> Result<(), Fail> {
    let alloc = rt.alloc();
    let meeting = Arc::new(alloc, Meeting::new(0))?;
    let mut ends = Vec::new(alloc);
    for number in 0..16_u32 {
        let script = Script {
            lines_after: 0,
            lines: OPENS,
            rest_after: if number == 0 { 64 } else { 65 },
            rest: if number == 0 { "search C\n" } else { "" },
        };
        ends.push(end(alloc, script, &meeting)?)?;
    }
    let (ends, version) = serve(&rt, alloc, ends, 1, &meeting)?;
    assert_eq!(rt; version, Some(0));
    for (number, end) in ends.iter().enumerate() {
        let replies = if number == 0 { NO_PIN_IS_LEFT } else { OPENED };
        assert!(rt;
            end.status == DONE && end.sink.text.bytes() == replies.as_bytes(),
            "end {number}"
        );
    }
    Ok(())
}
