//! Commits, pins, pages and prunings.
use super::{MEM, Made, Script, check, check_each, check_with};
use std::alloc::{AllocError, Global};
use std::test::Fail;

const SCRIPTS: &[Script] = &[
    (
        "states of an identifier",
        MEM,
        "\
        > register 1 CC\n\
        < ok 1\n\
        > withdraw 1\n\
        < ok 2\n\
        > register 1 C\n\
        < refused known\n\
        > revise 1 C\n\
        < refused withdrawn\n\
        > withdraw 1\n\
        < refused withdrawn\n\
        > withdraw 99\n\
        < refused absent\n\
        > revise 99 C\n\
        < refused absent\n\
        > show 1\n\
        < withdrawn 1 version 2\n\
        > show 99\n\
        < refused absent\n\
        > stats\n\
        < stats version 2 live 0 withdrawn 1 kept 2 pins 0\n\
        > prune\n\
        < pruned 1\n\
        > search C\n\
        < end at 2 tried 0 hits 0\n\
        > revise 1 C(\n\
        < refused smiles syntax\n\
        ",
    ),
    (
        "a molfile that is revised",
        MEM,
        "\
        > register-mol 7\n\
        > \n\
        > \n\
        > \n\
        >   1  0  0     0  0              1 V2000\n\
        >     0.0000    0.0000    0.0000 C   0  0\n\
        > M  END\n\
        < ok 1\n\
        > show 7\n\
        < record 7 version 1 molfile 6\n\
        < \n\
        < \n\
        < \n\
        <   1  0  0     0  0              1 V2000\n\
        <     0.0000    0.0000    0.0000 C   0  0\n\
        < M  END\n\
        > search [CH4]\n\
        < hit 7\n\
        < end at 1 tried 1 hits 1\n\
        > revise 7 CO\n\
        < ok 2\n\
        > show 7\n\
        < record 7 version 2 smiles CO\n\
        > revise-mol 7\n\
        > \n\
        > \n\
        > \n\
        >   1  0  0     0  0              1 V2000\n\
        >     0.0000    0.0000    0.0000 N   0  0\n\
        > M  END\n\
        < ok 3\n\
        > search N\n\
        < hit 7\n\
        < end at 3 tried 1 hits 1\n\
        > search O\n\
        < end at 3 tried 0 hits 0\n\
        ",
    ),
    (
        "one commit is allowed",
        &["mem", "--commits", "1"],
        "\
        > register 1 C\n\
        < ok 1\n\
        > register 1 C\n\
        < refused known\n\
        > register 2 C\n\
        < refused full\n\
        > revise 1 N\n\
        < refused full\n\
        > withdraw 2\n\
        < refused absent\n\
        > withdraw 1\n\
        < refused full\n\
        ",
    ),
    (
        "a cursor holds its version",
        MEM,
        "\
        > register 1 CO\n\
        < ok 1\n\
        > open s CO\n\
        < opened 1\n\
        > revise 1 CCC\n\
        < ok 2\n\
        > prune\n\
        < pruned 0\n\
        > next s\n\
        < hit 1\n\
        < end at 1 tried 1 hits 1\n\
        > next s\n\
        < end at 1 tried 1 hits 1\n\
        > close s\n\
        < closed\n\
        > close s\n\
        < refused cursor\n\
        > next s\n\
        < refused cursor\n\
        > prune\n\
        < pruned 1\n\
        > stats\n\
        < stats version 2 live 1 withdrawn 0 kept 1 pins 0\n\
        ",
    ),
    (
        "what is withdrawn and what is new does not come into an open cursor, page by page",
        &["mem", "--page=1", "--workers=3"],
        "\
        > register 3 CO\n\
        < ok 1\n\
        > register 1 OC\n\
        < ok 2\n\
        > open a O\n\
        < opened 2\n\
        > open b N\n\
        < opened 2\n\
        > open a C\n\
        < refused cursor\n\
        > withdraw 3\n\
        < ok 3\n\
        > register 2 CO\n\
        < ok 4\n\
        > next a\n\
        < hit 1\n\
        < more\n\
        > prune\n\
        < pruned 0\n\
        > next b\n\
        < end at 2 tried 0 hits 0\n\
        > stats\n\
        < stats version 4 live 2 withdrawn 1 kept 4 pins 2\n\
        > search O\n\
        < hit 1\n\
        < hit 2\n\
        < end at 4 tried 2 hits 2\n\
        > next a\n\
        < hit 3\n\
        < end at 2 tried 2 hits 2\n\
        > close a\n\
        < closed\n\
        > close b\n\
        < closed\n\
        > prune\n\
        < pruned 1\n\
        ",
    ),
];

#[test]
fn scripts(rt: HostRuntime) -> Result<(), Fail> {
    check_each(&rt, rt.alloc(), SCRIPTS)
}

// No cursor here has more than 5 records, so that its first page is its last.
#[test]
fn scripts_with_workers_and_pages(rt: HostRuntime) -> Result<(), Fail> {
    check_with(&rt, rt.alloc(), &["mem", "--workers", "16"], SCRIPTS)?;
    let words = &["mem", "--workers", "3", "--page", "5"];
    check_with(&rt, rt.alloc(), words, SCRIPTS)
}

pub(super) const MADE: &[Made] = &[
    (
        "a cursor at version 1 while its identifier is revised 200 times, each time with a pruning",
        MEM,
        &[
            (b"register 1 CO\nopen s CO\n", 1, 1),
            (b"revise 1 N\nprune\n", 1, 200),
            (b"next s\nstats\nclose s\nprune\nstats\n", 1, 1),
        ],
        &[
            (b"ok 1\nopened 1\nok 2\npruned 0\n", 1, 1),
            (b"ok @\npruned 1\n", 3, 201),
            (
                b"hit 1\nend at 1 tried 1 hits 1\n\
                stats version 201 live 1 withdrawn 0 kept 2 pins 1\nclosed\npruned 1\n\
                stats version 201 live 1 withdrawn 0 kept 1 pins 0\n",
                1,
                1,
            ),
        ],
    ),
    (
        "65 cursors where 64 may be open",
        MEM,
        &[
            (b"register 1 C\n", 1, 1),
            (b"open c@ C\n", 1, 65),
            (b"search C\nclose c1\nopen c65 C\nnext zz\nstats\n", 1, 1),
        ],
        &[
            (b"ok 1\n", 1, 1),
            (b"opened 1\n", 1, 64),
            (
                b"refused pins\nrefused pins\nclosed\nopened 1\nrefused cursor\n\
                stats version 1 live 1 withdrawn 0 kept 1 pins 64\n",
                1,
                1,
            ),
        ],
    ),
];

// Words, the number of structures, and the number in a page.
const PAGES: &[(&[&str], u32, u32)] = &[
    (MEM, 257, 256),
    (MEM, 256, 256),
    (&["mem", "--page", "100"], 257, 100),
    (&["mem", "--page", "7", "--workers", "16"], 257, 7),
];

// A cursor reports more after each page but the last.
#[test]
fn pages(rt: HostRuntime) -> Result<(), Fail> {
    for &(words, count, page) in PAGES {
        let lines = paged(rt.alloc(), count, page)?;
        check(&rt, rt.alloc(), "pages", words, lines.as_str())?;
    }
    Ok(())
}

// `count` structures, and a cursor over pages of `page`.
fn paged(alloc: Global, count: u32, page: u32) -> Result<String, AllocError> {
    let mut lines = String::new(alloc);
    for id in 1..=count {
        write!(lines, "> register {id} C\n< ok {id}\n")?;
    }
    write!(lines, "> open s C\n< opened {count}\n")?;
    let mut left = 0u32;
    for id in 1..=count {
        if left == 0 {
            lines.push_str("> next s\n")?;
            left = page;
        }
        left = left.saturating_sub(1);
        write!(lines, "< hit {id}\n")?;
        if left == 0 && id < count {
            lines.push_str("< more\n")?;
        }
    }
    write!(lines, "< end at {count} tried {count} hits {count}\n")?;
    Ok(lines)
}
