//! Words: the plan that they ask for, or the word that is wrong.

use super::{MEM, PLAIN, answers};
use chem_shell::word_fault;
use std::test::Fail;

// Three registrations, and the replies if all are allowed.
const THREE: &[u8] = b"register 1 C\nregister 1 C\nregister 2 C\n";

const ALL: &str = "ok 1\nrefused known\nok 2\n";

// Words, and the bytes that are put.
const ASK: &[(&[&str], &str)] = &[
    (MEM, ALL),
    (&["mem", "--page", "3"], ALL),
    (&["mem", "--page=256"], ALL),
    (&["--page", "3", "mem"], ALL),
    (&["mem", "--workers", "16", "--page=1"], ALL),
    (&["mem", "--"], ALL),
    (&["mem", "--commits", "16777215"], ALL),
    (
        &["mem", "--commits", "1"],
        "ok 1\nrefused known\nrefused full\n",
    ),
    (
        &["--page=1", "bulk", "2147483646", "--workers", "16", "0"],
        "bulk seed 2147483646 count 0\nversion 0\nsearch C=O tried 0 hits 0\nsearch c1ccccc1 tried 0 hits 0\n\
            search [N;H1] tried 0 hits 0\nsearch [$(C(=O)N)] tried 0 hits 0\nsearch F tried 0 hits 0\n",
    ),
];

// Words that are refused, and why.
const ASK_FOR_NOTHING: &[(&[&str], &str)] = &[
    (&[], "a command is missing"),
    (&["--page", "3"], "a command is missing"),
    (&[""], "there is no command \"\""),
    (&["Mem"], "there is no command \"Mem\""),
    (&["serve", "f"], "serve wants a SCRIPT"),
    (&["init"], "init wants a FILE"),
    (&["init", "f", "g"], "init takes no word \"g\""),
    (&["init", "f", "--page", "2"], "init takes no --page"),
    (&["run", ""], "run wants a FILE"),
    (&["run", "f", "g", "h"], "run takes no word \"g\""),
    (
        &["run", "f", "--commits", "0"],
        "--commits is a decimal from 1 to 16777215, not \"0\"",
    ),
    (&["mem", "x"], "mem takes no word \"x\""),
    (&["mem", "mem"], "mem takes no word \"mem\""),
    (
        &["mem", "--", "--page", "x"],
        "mem takes no word \"--page\"",
    ),
    (&["mem", "--help"], "unexpected argument '--help' found"),
    (
        &["mem", "--page"],
        "a value is required for '--page <page>' but none was supplied",
    ),
    (
        &["mem", "--page", "3", "--page", "3"],
        "the argument '--page <page>' cannot be used multiple times",
    ),
    (
        &["mem", "--page="],
        "--page is a decimal from 1 to 256, not \"\"",
    ),
    (
        &["mem", "--page", "257"],
        "--page is a decimal from 1 to 256, not \"257\"",
    ),
    (
        &["mem", "--workers", "17"],
        "--workers is a decimal from 1 to 16, not \"17\"",
    ),
    (
        &["mem", "--workers", "a\n"],
        "--workers is a decimal from 1 to 16, not \"a\\n\"",
    ),
    (
        &["mem", "--commits", "0"],
        "--commits is a decimal from 1 to 16777215, not \"0\"",
    ),
    (
        &["mem", "--commits", "16777216"],
        "--commits is a decimal from 1 to 16777215, not \"16777216\"",
    ),
    (&["bulk"], "bulk wants a SEED"),
    (&["bulk", "1"], "bulk wants a COUNT"),
    (&["bulk", "1", "2", "3", "4"], "bulk takes no word \"3\""),
    (
        &["bulk", "0", "1"],
        "SEED is a decimal from 1 to 2147483646, not \"0\"",
    ),
    (
        &["bulk", "2147483647", "1"],
        "SEED is a decimal from 1 to 2147483646, not \"2147483647\"",
    ),
    (
        &["bulk", "1", "100001"],
        "COUNT is a decimal from 0 to 100000, not \"100001\"",
    ),
    (
        &["bulk", "1", "2", "--commits", "3"],
        "bulk takes no --commits",
    ),
    (&["drill", "x"], "drill takes no word \"x\""),
    (
        &["drill", "--commits", "0"],
        "--commits is a decimal from 1 to 16777215, not \"0\"",
    ),
    (
        &["drill", "--page", "257"],
        "--page is a decimal from 1 to 256, not \"257\"",
    ),
];

#[test]
fn words_that_ask(rt: HostRuntime) -> Result<(), Fail> {
    let alloc = rt.alloc();
    for (words, put) in ASK {
        answers(&rt, alloc, words, THREE, PLAIN, 0, put.as_bytes())?;
        assert!(rt; word_fault(alloc, words)?.is_none(), "at {words:?}");
    }
    Ok(())
}

#[test]
fn words_that_ask_for_nothing(rt: HostRuntime) -> Result<(), Fail> {
    let alloc = rt.alloc();
    for (words, reason) in ASK_FOR_NOTHING {
        let fault = word_fault(alloc, words)?;
        let text = match &fault {
            Some(text) => text.as_str(),
            None => "",
        };
        assert_eq!(rt; text, *reason, "at {words:?}");
        answers(&rt, alloc, words, b"stats\n", PLAIN, 2, b"")?;
    }
    Ok(())
}
