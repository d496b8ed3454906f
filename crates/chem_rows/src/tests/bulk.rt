//! Generated scripts and their summaries.

use super::{Ways, answers};
use std::test::Fail;

// The summary of 2,000 structures, by any pages and workers.
const MANY: &str =
    "bulk seed 1 count 2000\nversion 2000\nsearch C=O tried 874 hits 874\nsearch c1ccccc1 tried 881 hits 881\n\
    search [N;H1] tried 866 hits 698\nsearch [$(C(=O)N)] tried 2000 hits 215\nsearch F tried 886 hits 886\n";

// Words, and the summary.
const SUMMARIES: &[(&[&str], &str)] = &[
    (
        &["bulk", "1", "0"],
        "bulk seed 1 count 0\nversion 0\nsearch C=O tried 0 hits 0\nsearch c1ccccc1 tried 0 hits 0\n\
            search [N;H1] tried 0 hits 0\nsearch [$(C(=O)N)] tried 0 hits 0\nsearch F tried 0 hits 0\n",
    ),
    // COC(F)c1ccc(cc1) and CC(=O)NN
    (
        &["bulk", "1", "2"],
        "bulk seed 1 count 2\nversion 2\nsearch C=O tried 1 hits 1\nsearch c1ccccc1 tried 1 hits 1\n\
            search [N;H1] tried 1 hits 1\nsearch [$(C(=O)N)] tried 2 hits 1\nsearch F tried 1 hits 1\n",
    ),
    (&["bulk", "1", "2000"], MANY),
    (&["bulk", "1", "2000", "--page", "7"], MANY),
    (&["bulk", "--workers=4", "1", "2000"], MANY),
];

// The source would fail, and is not read.
const NO_SOURCE: Ways<'static> = Ways {
    piece: 1,
    takes: &[0],
    puts: &[],
};

// The sink fails.
const NO_SINK: Ways<'static> = Ways {
    piece: 1,
    takes: &[],
    puts: &[0],
};

#[test]
fn summaries(rt: HostRuntime) -> Result<(), Fail> {
    let alloc = rt.alloc();
    for &(words, summary) in SUMMARIES {
        answers(
            &rt,
            alloc,
            words,
            b"stats\n",
            NO_SOURCE,
            0,
            summary.as_bytes(),
        )?;
    }
    answers(&rt, alloc, &["bulk", "1", "2"], b"", NO_SINK, 4, b"")
}
