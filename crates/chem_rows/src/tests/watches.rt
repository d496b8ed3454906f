//! Watches: their hits after commits, and when they are searched anew.
use super::{MEM, Made, Script, check_each};
use std::test::Fail;

const SCRIPTS: &[Script] = &[
    (
        "own commits move a watch",
        MEM,
        "\
        > register 1 CCO\n\
        < ok 1\n\
        > watch w O\n\
        < watching 1 hits 1\n\
        > register 2 CO\n\
        < ok 2\n\
        > register 3 CC\n\
        < ok 3\n\
        > revise 1 CC\n\
        < ok 4\n\
        > hits w\n\
        < hit 2\n\
        < end at 4 hits 1 rebuilt 0\n\
        # a watch holds no pin and no entry\n\
        > stats\n\
        < stats version 4 live 3 withdrawn 0 kept 4 pins 0\n\
        > prune\n\
        < pruned 1\n\
        # what is withdrawn leaves the list; what is refused leaves it as it is\n\
        > withdraw 2\n\
        < ok 5\n\
        > withdraw 2\n\
        < refused withdrawn\n\
        > register 3 CO\n\
        < refused known\n\
        > hits w\n\
        < end at 5 hits 0 rebuilt 0\n\
        ",
    ),
    (
        "each line that registers moves a watch",
        MEM,
        "\
        > watch w O\n\
        < watching 0 hits 0\n\
        > hits w\n\
        < end at 0 hits 0 rebuilt 0\n\
        > register-new 9 CO\n\
        < ok 1\n\
        > register-new 8 OC\n\
        < refused same 9\n\
        > register-sd 4 3\n\
        > \n\
        > \n\
        > \n\
        >   1  0  0     0  0              1 V2000\n\
        >     0.0000    0.0000    0.0000 O   0  0\n\
        > M  END\n\
        > $$$$\n\
        > no molfile\n\
        > $$$$\n\
        > \n\
        > \n\
        > \n\
        >   1  0  0     0  0              1 V2000\n\
        >     0.0000    0.0000    0.0000 C   0  0\n\
        > M  END\n\
        > $$$$\n\
        < ok 2\n\
        < refused molfile cut\n\
        < ok 3\n\
        > register-mol 2\n\
        > \n\
        > \n\
        > \n\
        >   1  0  0     0  0              1 V2000\n\
        >     0.0000    0.0000    0.0000 O   0  0\n\
        > M  END\n\
        < ok 4\n\
        > hits w\n\
        < hit 2\n\
        < hit 4\n\
        < hit 9\n\
        < end at 4 hits 3 rebuilt 0\n\
        > revise-mol 2\n\
        > \n\
        > \n\
        > \n\
        >   1  0  0     0  0              1 V2000\n\
        >     0.0000    0.0000    0.0000 N   0  0\n\
        > M  END\n\
        < ok 5\n\
        > hits w\n\
        < hit 4\n\
        < hit 9\n\
        < end at 5 hits 2 rebuilt 0\n\
        ",
    ),
    (
        "watches that are refused",
        MEM,
        "\
        > hits w\n\
        < refused watch\n\
        > unwatch w\n\
        < refused watch\n\
        > register 1 CO\n\
        < ok 1\n\
        > watch w C(\n\
        < refused smarts syntax\n\
        > watch w O\n\
        < watching 1 hits 1\n\
        # the text is read first\n\
        > watch w C(\n\
        < refused smarts syntax\n\
        > watch w N\n\
        < refused watch\n\
        # a cursor may have the name too\n\
        > open w C\n\
        < opened 1\n\
        > hits w\n\
        < hit 1\n\
        < end at 1 hits 1 rebuilt 0\n\
        > unwatch w\n\
        < unwatched\n\
        > hits w\n\
        < refused watch\n\
        > unwatch w\n\
        < refused watch\n\
        > next w\n\
        < hit 1\n\
        < end at 1 tried 1 hits 1\n\
        > watch w N\n\
        < watching 1 hits 0\n\
        > watch w\n\
        < refused syntax\n\
        > hits\n\
        < refused syntax\n\
        ",
    ),
    (
        "commits of others move no watch",
        &["drill", "--page=1"],
        "\
        > 1 register 1 CO\n\
        < 1 ok 1\n\
        > 1 watch w O\n\
        < 1 watching 1 hits 1\n\
        > 2 register 2 CO\n\
        < 2 ok 2\n\
        > 1 hits w\n\
        < 1 hit 1\n\
        < 1 hit 2\n\
        < 1 end at 2 hits 2 rebuilt 1\n\
        > 1 hits w\n\
        < 1 hit 1\n\
        < 1 hit 2\n\
        < 1 end at 2 hits 2 rebuilt 1\n\
        # a watch that was left behind is not moved by commits of its own session\n\
        > 2 withdraw 1\n\
        < 2 ok 3\n\
        > 1 register 3 CO\n\
        < 1 ok 4\n\
        > 1 hits w\n\
        < 1 hit 2\n\
        < 1 hit 3\n\
        < 1 end at 4 hits 2 rebuilt 2\n\
        > 2 hits w\n\
        < 2 refused watch\n\
        ",
    ),
    (
        "a commit that the disk failed leaves a watch where it is, and a reopening leaves none",
        &["drill"],
        "\
        > 1 register 1 CO\n\
        < 1 ok 1\n\
        > 1 watch w O\n\
        < 1 watching 1 hits 1\n\
        > fail 4\n\
        < set\n\
        > 1 register 2 CO\n\
        < 1 fault disk doubt\n\
        > 1 hits w\n\
        < 1 hit 1\n\
        < 1 end at 1 hits 1 rebuilt 0\n\
        > 1 register 3 CO\n\
        < 1 ok 2\n\
        > 1 hits w\n\
        < 1 hit 1\n\
        < 1 hit 3\n\
        < 1 end at 2 hits 2 rebuilt 0\n\
        > reopen 0\n\
        < reopened 2\n\
        > 1 hits w\n\
        < 1 refused watch\n\
        > 1 watch w O\n\
        < 1 watching 2 hits 2\n\
        ",
    ),
];

#[test]
fn scripts(rt: HostRuntime) -> Result<(), Fail> {
    check_each(&rt, rt.alloc(), SCRIPTS)
}

pub(super) const MADE: &[Made] = &[
    (
        "17 watches where 16 may be",
        MEM,
        &[
            (b"register 1 C\n", 1, 1),
            (b"watch w@ C\n", 1, 17),
            (
                b"watch w1 C\nwatch w17 C(\nhits w17\nunwatch w9\nwatch w17 N\nhits w16\n",
                1,
                1,
            ),
        ],
        &[
            (b"ok 1\n", 1, 1),
            (b"watching 1 hits 1\n", 1, 16),
            (
                b"refused watches\nrefused watch\nrefused smarts syntax\nrefused watch\nunwatched\n\
                watching 1 hits 0\nhit 1\nend at 1 hits 1 rebuilt 0\n",
                1,
                1,
            ),
        ],
    ),
    (
        "a watch where no pin is free, and where one is again",
        MEM,
        &[
            (b"watch w C\n", 1, 1),
            (b"open c@ C\n", 1, 64),
            (
                b"register 1 C\nwatch v C\nhits w\nwatch w C\nclose c1\nwatch v N\nhits w\n",
                1,
                1,
            ),
        ],
        &[
            (b"watching 0 hits 0\n", 1, 1),
            (b"opened 0\n", 1, 64),
            (
                b"ok 1\nrefused pins\nrefused pins\nrefused watch\nclosed\n\
                watching 1 hits 0\nhit 1\nend at 1 hits 1 rebuilt 0\n",
                1,
                1,
            ),
        ],
    ),
];
