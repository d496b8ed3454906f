//! Drills: sessions on a store in memory whose disks are stopped, failed and reopened.

use super::{Script, check_each};
use std::test::Fail;

const SCRIPTS: &[Script] = &[
    (
        "what a crash leaves",
        &["drill"],
        "\
        > 1 register 1 CCO\n\
        < 1 ok 1\n\
        > 2 open s CO\n\
        < 2 opened 1\n\
        > \n\
        # two of the four calls of a commit pass; whether the gate is open is then in doubt\n\
        > stop 2\n\
        < set\n\
        > 1 register 2 OCC=O\n\
        < 1 fault disk doubt\n\
        > 3 register 3 CO\n\
        < 3 fault disk sure\n\
        > 2 next s\n\
        < 2 hit 1\n\
        < 2 end at 1 tried 1 hits 1\n\
        # the image in which the gate is open; no cursor is left\n\
        > reopen 2\n\
        < reopened 2\n\
        > 2 next s\n\
        < 2 refused cursor\n\
        > 16 search CO\n\
        < 16 hit 1\n\
        < 16 hit 2\n\
        < 16 end at 2 tried 2 hits 2\n\
        # once a commit was answered, the one that was in doubt will not appear\n\
        > fail 4\n\
        < set\n\
        > 1 withdraw 1\n\
        < 1 fault disk doubt\n\
        > 1 revise 2 C\n\
        < 1 ok 3\n\
        > reopen 0\n\
        < reopened 3\n\
        > 1 show 1\n\
        < 1 record 1 version 1 smiles CCO\n\
        > 1 stats\n\
        < 1 stats version 3 live 2 withdrawn 0 kept 2 pins 0\n\
        ",
    ),
    (
        "a world has the plan's commits behind each reopening",
        &["drill", "--commits", "1", "--page=1"],
        "\
        > 1 register 1 C\n\
        < 1 ok 1\n\
        > reopen 1\n\
        < reopened 1\n\
        > 2 register 2 C\n\
        < 2 refused full\n\
        ",
    ),
    (
        "lines of no drill",
        &["drill"],
        "\
        > stats\n\
        < refused drill\n\
        > 17 stats\n\
        < refused drill\n\
        > stop\n\
        < refused drill\n\
        > fail 0\n\
        < refused drill\n\
        > reopen 01\n\
        < refused drill\n\
        > 1 register-mol 1\n\
        < 1 refused syntax\n\
        > 2 register-sd 1 1\n\
        < 2 refused syntax\n\
        > 1 register 7 C\n\
        < 1 ok 1\n\
        > 1 data 7 NAME\n\
        < 1 refused data\n\
        ",
    ),
];

#[test]
fn scripts(rt: HostRuntime) -> Result<(), Fail> {
    check_each(&rt, rt.alloc(), SCRIPTS)
}
