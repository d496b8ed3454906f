//! Seeds with their scripts and summaries, by hand.

use chem_gen::{script, summary};
use std::alloc::{AllocError, Global};
use std::test::Fail;

const SCRIPT: &str = "register 1 COC(F)c1ccc(cc1)\nregister 2 CC(=O)NN\n\
    search C=O\nsearch c1ccccc1\nsearch [N;H1]\nsearch [$(C(=O)N)]\nsearch F\n";

#[test]
fn two_structures_from_one(rt: HostRuntime) -> Result<(), Fail> {
    let text = script(rt.alloc(), 1, 2)?;
    assert!(rt; text.as_slice() == SCRIPT.as_bytes());
    Ok(())
}

// Seeds, counts, transcripts and their summaries.
const SUMMARIES: &[(u32, u32, &str, &str)] = &[
    (
        1,
        0,
        "end at 0 tried 0 hits 0\nend at 0 tried 0 hits 0\nend at 0 tried 0 hits 0\n\
        end at 0 tried 0 hits 0\nend at 0 tried 0 hits 0\n",
        "bulk seed 1 count 0\nversion 0\nsearch C=O tried 0 hits 0\nsearch c1ccccc1 tried 0 hits 0\n\
        search [N;H1] tried 0 hits 0\nsearch [$(C(=O)N)] tried 0 hits 0\nsearch F tried 0 hits 0\n",
    ),
    (
        7,
        3,
        "ok 1\nfault memory\nok 2\nhit 1\nend at 2 tried 2 hits 1\nhit 1\nfault memory\n\
        end at 2 tried 0 hits 0\nfault memory\nhit 1\nhit 3\nend at 2 tried 2 hits 2\n",
        "bulk seed 7 count 3\nversion 2\nsearch C=O tried 2 hits 1\nsearch c1ccccc1 fault memory\n\
        search [N;H1] tried 0 hits 0\nsearch [$(C(=O)N)] fault memory\nsearch F tried 2 hits 2\n",
    ),
];

fn is_summary(
    alloc: Global,
    seed: u32,
    count: u32,
    transcript: &str,
    wanted: &str,
) -> Result<bool, AllocError> {
    let text = summary(alloc, seed, count, transcript.as_bytes())?;
    Ok(text.as_slice() == wanted.as_bytes())
}

#[test]
fn a_summary_has_the_last_version_and_each_ending(rt: HostRuntime) -> Result<(), Fail> {
    for &(seed, count, transcript, wanted) in SUMMARIES {
        assert!(rt;
            is_summary(rt.alloc(), seed, count, transcript, wanted)?,
            "seed {seed}"
        );
    }
    Ok(())
}
