//! Compactions: their bytes, other work during one, and a disk that stops or fails at a call of one.

use super::{MEM, Made, ONE_COMMIT, Script, check, check_each, run_leaves};
use std::test::Fail;

const SCRIPTS: &[Script] = &[
    (
        "others work beside a compaction",
        MEM,
        "\
        > register 1 CCO\n\
        < ok 1\n\
        > register 2 CO\n\
        < ok 2\n\
        > revise 1 CCC\n\
        < ok 3\n\
        > compact\n\
        < compacting 2\n\
        > withdraw 2\n\
        < ok 4\n\
        > compact\n\
        < compacting 0\n\
        > compact\n\
        < compacted 1\n\
        > stats\n\
        < stats version 4 live 1 withdrawn 1 kept 4 pins 0\n\
        > prune\n\
        < pruned 2\n\
        ",
    ),
    (
        "a cursor keeps its version beside a compaction",
        &["drill"],
        "\
        > 1 register 1 CO\n\
        < 1 ok 1\n\
        > 1 open s C\n\
        < 1 opened 1\n\
        > 2 revise 1 N\n\
        < 2 ok 2\n\
        > 2 compact\n\
        < 2 compacting 1\n\
        > 2 compact\n\
        < 2 compacting 0\n\
        > 2 compact\n\
        < 2 compacted 1\n\
        > 2 prune\n\
        < 2 pruned 0\n\
        > 1 next s\n\
        < 1 hit 1\n\
        < 1 end at 1 tried 1 hits 1\n\
        ",
    ),
    (
        "two calls in a row fail with a finish in doubt, and then a commit is made",
        &["drill"],
        "\
        > 1 register 1 C\n\
        < 1 ok 1\n\
        > 1 compact\n\
        < 1 compacting 1\n\
        > 1 compact\n\
        < 1 compacting 0\n\
        > fail-b 4\n\
        < set\n\
        > 1 compact\n\
        < 1 fault disk doubt\n\
        > fail-b 4\n\
        < set\n\
        > 1 register 2 C\n\
        < 1 fault disk sure\n\
        > 1 register 2 C\n\
        < 1 ok 2\n\
        > reopen 2\n\
        < reopened 2\n\
        ",
    ),
    (
        "a commit behind a finish in doubt",
        &["drill"],
        "\
        > 1 register 1 C\n\
        < 1 ok 1\n\
        > 1 compact\n\
        < 1 compacting 1\n\
        > 1 compact\n\
        < 1 compacting 0\n\
        > fail-b 3\n\
        < set\n\
        > 1 compact\n\
        < 1 fault disk doubt\n\
        > 1 register 2 C\n\
        < 1 ok 2\n\
        > reopen 2\n\
        < reopened 2\n\
        ",
    ),
];

#[test]
fn scripts(rt: HostRuntime) -> Result<(), Fail> {
    check_each(&rt, rt.alloc(), SCRIPTS)
}

// `ONE_COMMIT` compacted once: a header, and a base of one record.
const COMPACTED: &[u8] =
    b"ZCHEMDB2\x01\0\0\0\x01\0\0\0\x01\0\0\0\x0d\0\0\0\x04\x01\0\0\0\x01\0\0\0\x01CCO\0";

// The compacted store with a second commit.
const TWO_COMMITS: &[u8] =
    b"ZCHEMDB2\x01\0\0\0\x01\0\0\0\x01\0\0\0\x0d\0\0\0\x04\x01\0\0\0\x01\0\0\0\x01CCO\
    Z\x07\0\0\0\x01\x02\0\0\0\x01C\0";

// `TWO_COMMITS` compacted a second time: a header, and a base of two records.
const COMPACTED_TWICE: &[u8] =
    b"ZCHEMDB2\x02\0\0\0\x02\0\0\0\x02\0\0\0\x0d\0\0\0\x04\x01\0\0\0\x01\0\0\0\x01CCO\
    \x0b\0\0\0\x04\x02\0\0\0\x02\0\0\0\x01C\0";

// The bytes on the second disk beside a store of one commit, and a script. Then the outcome of `run`: the status, the
// place of damage, the replies, and the bytes on both disks.
type Step = (
    &'static [u8],
    &'static str,
    u8,
    u64,
    &'static str,
    &'static [u8],
    &'static [u8],
);

const STEPS: &[Step] = &[
    (
        b"",
        "compact\ncompact\ncompact\n",
        0,
        0,
        "compacting 1\ncompacting 0\ncompacted 1\n",
        ONE_COMMIT,
        COMPACTED,
    ),
    (
        COMPACTED,
        "show 1\nregister 2 C\n",
        0,
        0,
        "record 1 version 1 smiles CCO\nok 2\n",
        ONE_COMMIT,
        TWO_COMMITS,
    ),
    // a compaction to the first disk
    (
        TWO_COMMITS,
        "compact\ncompact\ncompact\nstats\n",
        0,
        0,
        "compacting 2\ncompacting 0\ncompacted 2\nstats version 2 live 2 withdrawn 0 kept 2 pins 0\n",
        COMPACTED_TWICE,
        TWO_COMMITS,
    ),
    // at the last version no commit is made, and a copy is
    (
        b"ZCHEMDB2\x01\0\0\0\xff\xff\xff\0\0\0\0\0\0",
        "register 1 C\ncompact\ncompact\n",
        0,
        0,
        "refused full\ncompacting 0\ncompacted 2\n",
        b"ZCHEMDB2\x02\0\0\0\xff\xff\xff\0\0\0\0\0\0O\0",
        b"ZCHEMDB2\x01\0\0\0\xff\xff\xff\0\0\0\0\0\0",
    ),
    // a copy that is cut is damaged
    (
        b"ZCHEMDB2\x01\0\0\0\x01\0\0\0\x01\0\0\0\x0d\0\0\0\x04\x01\0\0\0\x01\0\0\0\x01CC",
        "show 1\n",
        7,
        20,
        "",
        ONE_COMMIT,
        b"ZCHEMDB2\x01\0\0\0\x01\0\0\0\x01\0\0\0\x0d\0\0\0\x04\x01\0\0\0\x01\0\0\0\x01CC",
    ),
];

#[test]
fn a_store_is_compacted(rt: HostRuntime) -> Result<(), Fail> {
    for &(second, script, status, place, replies, a, b) in STEPS {
        let disks = (ONE_COMMIT, second);
        assert!(rt;
            run_leaves(
                &rt,
                rt.alloc(),
                disks,
                script,
                (status, place),
                replies,
                (a, b)
            )?,
            "{script}"
        );
    }
    Ok(())
}

// The answer of a finish, by the number of calls after which the disk is stopped. Then the generation of the compaction
// after a crash that left the image of this number.
const FINISHES: &[(&str, &[u32])] = &[
    ("fault disk sure", &[1, 1, 1, 1]),
    ("fault disk sure", &[1, 1, 1, 1]),
    ("fault disk doubt", &[1, 1, 2, 1]),
    ("fault disk doubt", &[2, 1, 2, 1]),
    ("compacted 1", &[2, 2, 2, 2]),
];

#[test]
fn a_finish_is_stopped_at_each_call(rt: HostRuntime) -> Result<(), Fail> {
    let alloc = rt.alloc();
    for (calls, &(finish, generations)) in FINISHES.iter().enumerate() {
        for (image, generation) in generations.iter().enumerate() {
            let lines = format!(in alloc;
                "\
                > 1 register 1 CCO\n< 1 ok 1\n\
                > 1 compact\n< 1 compacting 1\n\
                > 1 register 2 CO\n< 1 ok 2\n\
                > 1 compact\n< 1 compacting 0\n\
                > stop-b {calls}\n< set\n\
                > 1 compact\n< 1 {finish}\n\
                > reopen {image}\n< reopened 2\n\
                > 1 compact\n< 1 compacting 2\n\
                > 1 compact\n< 1 compacting 0\n\
                > 1 compact\n< 1 compacted {generation}\n"
            )?;
            check(&rt, alloc, finish, &["drill"], lines.as_str())?;
        }
    }
    Ok(())
}

// A step writes 256 items.
pub(super) const MADE: &[Made] = &[(
    "steps of a large copy",
    MEM,
    &[(b"register @ C\n", 1, 600), (b"compact\n", 1, 6)],
    &[
        (b"ok @\n", 1, 600),
        (
            b"compacting 600\ncompacting 344\ncompacting 88\ncompacting 0\n\
            compacted 1\ncompacting 600\n",
            1,
            1,
        ),
    ],
)];
