//! Lines and their commands.
use LineRefusal::{Id, Syntax};
use TakenLines::{Molfile, Records};
use shell_lang::{Command, LineRefusal, MolfileChange, TakenLines, read_command, taken_lines};

/// A line, and why it spells no command, if it does not.
type Line = (&'static str, Option<LineRefusal>);

const LINES: &[Line] = &[
    ("", None),
    (" ", Some(Syntax)),
    ("\r", Some(Syntax)),
    ("register 1 C", None),
    ("register 1 ", None),
    ("register 1", Some(Syntax)),
    ("register  1 C", Some(Id)),
    ("register 0 C", Some(Id)),
    ("register 0", Some(Syntax)),
    ("register 01 C", Some(Id)),
    ("register +1 C", Some(Id)),
    ("register 1000000000 C", Some(Id)),
    ("register 999999999 C", None),
    ("register-new 1 C", None),
    ("register-new 1 ", None),
    ("register-new 1", Some(Syntax)),
    ("register-new", Some(Syntax)),
    ("register-new 0 C", Some(Id)),
    ("register-new  1 C", Some(Id)),
    ("register-news 1 C", Some(Syntax)),
    ("revise x C", Some(Id)),
    ("register-mol 1", None),
    ("register-mol", Some(Syntax)),
    ("register-mol 1 2", Some(Syntax)),
    ("register-mol  1", Some(Syntax)),
    ("revise-mol 0", Some(Id)),
    ("withdraw 1", None),
    ("withdraw ", Some(Id)),
    ("withdraw  1", Some(Syntax)),
    ("withdraw 0 1", Some(Syntax)),
    ("show 1 ", Some(Syntax)),
    ("search ", None),
    ("search", Some(Syntax)),
    ("same CCO", None),
    ("same  C C", None),
    ("same ", None),
    ("same", Some(Syntax)),
    ("same\tC", Some(Syntax)),
    ("similar 1 2 10 CO", None),
    ("similar 0 1 1 ", None),
    ("similar 1000 1000 256 C", None),
    ("similar 1 2 10", Some(Syntax)),
    ("similar 1 2 CO", Some(Syntax)),
    ("similar ", Some(Syntax)),
    ("similar", Some(Syntax)),
    ("similar  1 2 10 CO", Some(Syntax)),
    ("similar 1  2 10 CO", Some(Syntax)),
    ("similar 1 2  10 CO", Some(Syntax)),
    ("similar 3 2 10 CO", Some(Syntax)),
    ("similar 0 0 10 CO", Some(Syntax)),
    ("similar 1 1001 10 CO", Some(Syntax)),
    ("similar 1001 1001 10 CO", Some(Syntax)),
    ("similar 1 2 0 CO", Some(Syntax)),
    ("similar 1 2 257 CO", Some(Syntax)),
    ("similar 01 2 10 CO", Some(Syntax)),
    ("similar 1 02 10 CO", Some(Syntax)),
    ("similar 1 2 010 CO", Some(Syntax)),
    ("similar 00 2 10 CO", Some(Syntax)),
    ("similar +1 2 10 CO", Some(Syntax)),
    ("similar -1 2 10 CO", Some(Syntax)),
    ("similar 0.5 1 10 CO", Some(Syntax)),
    ("similar 4294967297 2 10 CO", Some(Syntax)),
    ("similar 1 18446744073709551618 10 CO", Some(Syntax)),
    ("similar 1 2 18446744073709551626 CO", Some(Syntax)),
    ("prune", None),
    ("prune ", Some(Syntax)),
    ("compact", None),
    ("compact ", Some(Syntax)),
    ("compact 1", Some(Syntax)),
    ("compaction", Some(Syntax)),
    (" stats", Some(Syntax)),
    ("Stats", Some(Syntax)),
];

const LINES_ON_CURSORS_AND_WATCHES: &[Line] = &[
    ("open s ", None),
    ("open  C", Some(Syntax)),
    ("open a-b C(", Some(Syntax)),
    ("next s", None),
    ("next s ", Some(Syntax)),
    ("close ", Some(Syntax)),
    ("watch s C", None),
    ("watch s ", None),
    ("watch s  C", None),
    ("watch Abcdefghijklmnopqrstuvwxyz_01234 C", None),
    ("watch Abcdefghijklmnopqrstuvwxyz_012345 C", Some(Syntax)),
    ("watch", Some(Syntax)),
    ("watch ", Some(Syntax)),
    ("watch s", Some(Syntax)),
    ("watch  C", Some(Syntax)),
    ("watch  s C", Some(Syntax)),
    ("watch a-b C", Some(Syntax)),
    ("watches s C", Some(Syntax)),
    ("hits s", None),
    ("hits", Some(Syntax)),
    ("hits ", Some(Syntax)),
    ("hits  s", Some(Syntax)),
    ("hits s ", Some(Syntax)),
    ("hits s C", Some(Syntax)),
    ("hits a-b", Some(Syntax)),
    ("unwatch s", None),
    ("unwatch", Some(Syntax)),
    ("unwatch ", Some(Syntax)),
    ("unwatch s ", Some(Syntax)),
    ("unwatch a-b", Some(Syntax)),
];

const LINES_ON_SD_FILES: &[Line] = &[
    ("register-sd 1 1", None),
    ("register-sd 1 4096", None),
    ("register-sd 999999999 1", None),
    ("register-sd 999995904 4096", None),
    ("register-sd 999995905 4096", Some(Id)),
    ("register-sd 999999999 2", Some(Id)),
    ("register-sd 1000000000 1", Some(Id)),
    ("register-sd x 1", Some(Id)),
    ("register-sd 0 1", Some(Id)),
    ("register-sd 01 1", Some(Id)),
    ("register-sd  1", Some(Id)),
    ("register-sd", Some(Syntax)),
    ("register-sd ", Some(Syntax)),
    ("register-sd 1", Some(Syntax)),
    ("register-sd 1 ", Some(Syntax)),
    ("register-sd  1 1", Some(Syntax)),
    ("register-sd 1  1", Some(Syntax)),
    ("register-sd 1 1 ", Some(Syntax)),
    ("register-sd 1 2 3", Some(Syntax)),
    ("register-sd 1 0", Some(Syntax)),
    ("register-sd 1 01", Some(Syntax)),
    ("register-sd 1 +1", Some(Syntax)),
    ("register-sd 1 4097", Some(Syntax)),
    ("register-sd 1 18446744073709551617", Some(Syntax)),
    ("register-sd x 0", Some(Syntax)),
    ("register-sdf 1 1", Some(Syntax)),
    ("data 7 a-b", None),
    ("data 7 ", None),
    ("data 7", Some(Syntax)),
    ("data", Some(Syntax)),
    ("data ", Some(Syntax)),
    ("data x n", Some(Id)),
    ("data 07 n", Some(Id)),
    ("data  7 n", Some(Id)),
];

const ALL_LINES: &[&[Line]] = &[LINES, LINES_ON_CURSORS_AND_WATCHES, LINES_ON_SD_FILES];

#[test]
fn lines_are_read_by_their_parts(rt: HostRuntime) {
    for lines in ALL_LINES {
        for &(line, refusal) in *lines {
            assert!(rt; read_command(line.as_bytes()).err() == refusal, "at {line}");
        }
    }
}

// Lines, and the lines that each takes after it.
const TAKEN: &[(&str, Option<TakenLines>)] = &[
    ("", None),
    ("register 1 C", None),
    ("data 7 n", None),
    (
        "register-mol 7",
        Some(Molfile(Ok(MolfileChange::Register { id: 7 }))),
    ),
    (
        "revise-mol 7",
        Some(Molfile(Ok(MolfileChange::Revise { id: 7 }))),
    ),
    ("register-mol", Some(Molfile(Err(Syntax)))),
    ("revise-mol 7 8", Some(Molfile(Err(Syntax)))),
    ("revise-mol x", Some(Molfile(Err(Id)))),
    (
        "register-sd 7 4096",
        Some(Records {
            count: 4096,
            first: Ok(7),
        }),
    ),
    (
        "register-sd 999999999 1",
        Some(Records {
            count: 1,
            first: Ok(999_999_999),
        }),
    ),
    (
        "register-sd 999999999 2",
        Some(Records {
            count: 2,
            first: Err(Id),
        }),
    ),
    (
        "register-sd x 1",
        Some(Records {
            count: 1,
            first: Err(Id),
        }),
    ),
    (
        "register-sd 01 1",
        Some(Records {
            count: 1,
            first: Err(Id),
        }),
    ),
    (
        "register-sd  1",
        Some(Records {
            count: 1,
            first: Err(Id),
        }),
    ),
    ("register-sd", None),
    ("register-sd 1", None),
    ("register-sd 1 0", None),
    ("register-sd 1 01", None),
    ("register-sd 1 4097", None),
    ("register-sd  1 1", None),
    ("register-sd 1 2 3", None),
    ("register-sdf 1 1", None),
];

#[test]
fn some_lines_take_lines_after_them(rt: HostRuntime) {
    for &(line, taken) in TAKEN {
        assert!(rt; taken_lines(line.as_bytes()) == taken, "at {line}");
    }
}

/// The word of a command, its numbers, its name and its text, each 0 or empty if it has none.
type Parts<'a> = (&'a str, (u32, u32, u32), &'a [u8], &'a [u8]);

// The parts of a command, if it has any.
fn parts_of(line: &[u8]) -> Option<Parts<'_>> {
    match read_command(line).ok()? {
        Command::Register { id, text } => Some(("register", (id, 0, 0), NO_BYTES, text)),
        Command::RegisterNew { id, text } => Some(("register-new", (id, 0, 0), NO_BYTES, text)),
        Command::RegisterSd { id, count } => {
            Some(("register-sd", (id, count, 0), NO_BYTES, NO_BYTES))
        }
        Command::Same { text } => Some(("same", (0, 0, 0), NO_BYTES, text)),
        Command::Similar { p, q, k, text } => Some(("similar", (p, q, k), NO_BYTES, text)),
        Command::Start { name, pattern } => Some(("open", (0, 0, 0), name, pattern)),
        Command::Watch { name, text } => Some(("watch", (0, 0, 0), name, text)),
        Command::Hits { name } => Some(("hits", (0, 0, 0), name, NO_BYTES)),
        Command::Unwatch { name } => Some(("unwatch", (0, 0, 0), name, NO_BYTES)),
        Command::Data { id, name } => Some(("data", (id, 0, 0), name, NO_BYTES)),
        _ => None,
    }
}

const NO_BYTES: &[u8] = b"";

// A line, and the word, the numbers, the name and the text of its command.
const PARTS: &[(&str, &str, (u32, u32, u32), &str, &str)] = &[
    ("register 7  C ", "register", (7, 0, 0), "", " C "),
    ("open s C C", "open", (0, 0, 0), "s", "C C"),
    ("watch s C C", "watch", (0, 0, 0), "s", "C C"),
    ("hits s", "hits", (0, 0, 0), "s", ""),
    ("unwatch s", "unwatch", (0, 0, 0), "s", ""),
    ("register-new 7  C ", "register-new", (7, 0, 0), "", " C "),
    ("same  C C", "same", (0, 0, 0), "", " C C"),
    ("register-sd 7 12", "register-sd", (7, 12, 0), "", ""),
    ("data 7  a-b ", "data", (7, 0, 0), " a-b ", ""),
    ("data 7 ", "data", (7, 0, 0), "", ""),
    ("similar 3 4 256  C ", "similar", (3, 4, 256), "", " C "),
];

#[test]
fn parts_are_given(rt: HostRuntime) {
    for &(line, word, numbers, name, text) in PARTS {
        let parts = (word, numbers, name.as_bytes(), text.as_bytes());
        assert!(rt; parts_of(line.as_bytes()) == Some(parts), "at {line}");
    }
}
