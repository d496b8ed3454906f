//! Lookups: equal structures, and the most similar ones.
use super::{MEM, Made, Script, check_each};
use std::test::Fail;

const ETHANOL: &str = "\
        > register 1 OCC\n\
        < ok 1\n\
        > register 2 CCO\n\
        < ok 2\n\
        > register 3 CCN\n\
        < ok 3\n\
        > same C(C)O\n\
        < hit 1\n\
        < hit 2\n\
        < end at 3 tried 2 hits 2\n\
        > register-new 4 CCO\n\
        < refused same 1\n\
        > register-new 4 CO\n\
        < ok 4\n\
        > same CO\n\
        < hit 4\n\
        < end at 4 tried 3 hits 1\n\
        > stats\n\
        < stats version 4 live 4 withdrawn 0 kept 4 pins 0\n\
        ";

const METHANOL: &str = "\
        > register 1 CCO\n\
        < ok 1\n\
        > register 2 CO\n\
        < ok 2\n\
        > register 3 C\n\
        < ok 3\n\
        > similar 1 2 10 CO\n\
        < like 2 6 6\n\
        < like 1 6 10\n\
        < end at 3 scored 3 hits 2\n\
        > register 4 OC\n\
        < ok 4\n\
        > similar 0 1 2 CO\n\
        < like 2 6 6\n\
        < like 4 6 6\n\
        < end at 4 scored 4 hits 2\n\
        > similar 1 1 256 CO\n\
        < like 2 6 6\n\
        < like 4 6 6\n\
        < end at 4 scored 4 hits 2\n\
        > similar 0 1 0 CO\n\
        < refused syntax\n\
        > stats\n\
        < stats version 4 live 4 withdrawn 0 kept 4 pins 0\n\
        ";

const SCRIPTS: &[Script] = &[
    ("ethanol written in two ways is the same", MEM, ETHANOL),
    ("the same, page by page", &["mem", "--page", "1"], ETHANOL),
    (
        "benzene written in two ways is the same",
        MEM,
        "\
        > register 1 C1=CC=CC=C1\n\
        < ok 1\n\
        > same c1ccccc1\n\
        < hit 1\n\
        < end at 1 tried 1 hits 1\n\
        ",
    ),
    (
        "ethanol is more similar to methanol than methane is",
        MEM,
        METHANOL,
    ),
    (
        "the most similar, page by page",
        &["mem", "--page", "1"],
        METHANOL,
    ),
    (
        "nothing is the same or similar in an empty store",
        MEM,
        "\
        > same C\n\
        < end at 0 tried 0 hits 0\n\
        > similar 0 1 256 C\n\
        < end at 0 scored 0 hits 0\n\
        > register-new 1 C\n\
        < ok 1\n\
        > withdraw 1\n\
        < ok 2\n\
        > same C\n\
        < end at 2 tried 0 hits 0\n\
        > similar 0 1 256 C\n\
        < end at 2 scored 0 hits 0\n\
        ",
    ),
    (
        "lookups are refused in order",
        &["mem", "--commits", "3"],
        "\
        > same\n\
        < refused syntax\n\
        > same C(\n\
        < refused smiles syntax\n\
        > same C1\n\
        < refused smiles ring\n\
        > same c1cccc1\n\
        < refused smiles aromatic 0\n\
        > similar 2 1 1 C(\n\
        < refused syntax\n\
        > similar 1 1 1 C(\n\
        < refused smiles syntax\n\
        > register-new 0 C(\n\
        < refused id\n\
        > register-new 1 C(\n\
        < refused smiles syntax\n\
        > register-new 1 C\n\
        < ok 1\n\
        > register-new 1 C\n\
        < refused same 1\n\
        > register-new 1 CO\n\
        < refused known\n\
        > register-new 2 CO\n\
        < ok 2\n\
        > withdraw 1\n\
        < ok 3\n\
        > register-new 1 C\n\
        < refused known\n\
        > register-new 3 OC\n\
        < refused same 2\n\
        > register-new 3 C\n\
        < refused full\n\
        > stats\n\
        < stats version 3 live 1 withdrawn 1 kept 3 pins 0\n\
        ",
    ),
    // An equal structure is named by the least identifier, in the order of identifiers and not of registration,
    // whatever the format of its text.
    (
        "the least that is the same is named",
        MEM,
        "\
        > register 9 C\n\
        < ok 1\n\
        > register-mol 7\n\
        > \n\
        > \n\
        > \n\
        >   1  0  0     0  0              1 V2000\n\
        >     0.0000    0.0000    0.0000 C   0  0\n\
        > M  END\n\
        < ok 2\n\
        > register-new 8 [CH4]\n\
        < refused same 7\n\
        > same [CH4]\n\
        < hit 7\n\
        < hit 9\n\
        < end at 2 tried 2 hits 2\n\
        > same [13CH4]\n\
        < end at 2 tried 2 hits 0\n\
        > register-new 8 [13CH4]\n\
        < ok 3\n\
        > similar 1 1 2 [14CH4]\n\
        < like 7 2 2\n\
        < like 8 2 2\n\
        < end at 3 scored 3 hits 2\n\
        ",
    ),
    // A cursor keeps its place, and lists the hits of its version, whatever is looked up between its pages.
    (
        "no cursor is moved by a lookup",
        &["mem", "--page", "1"],
        "\
        > register 1 CO\n\
        < ok 1\n\
        > register 2 OC\n\
        < ok 2\n\
        > open s CO\n\
        < opened 2\n\
        > next s\n\
        < hit 1\n\
        < more\n\
        > same CO\n\
        < hit 1\n\
        < hit 2\n\
        < end at 2 tried 2 hits 2\n\
        > register-new 3 CCO\n\
        < ok 3\n\
        > similar 1 1 9 CCO\n\
        < like 3 10 10\n\
        < end at 3 scored 3 hits 1\n\
        > next s\n\
        < hit 2\n\
        < end at 2 tried 2 hits 2\n\
        ",
    ),
];

#[test]
fn scripts(rt: HostRuntime) -> Result<(), Fail> {
    check_each(&rt, rt.alloc(), SCRIPTS)
}

pub(super) const MADE: &[Made] = &[(
    "a lookup takes a pin, and 64 are held",
    MEM,
    &[
        (b"register 1 C\n", 1, 1),
        (b"open s@ C\n", 0, 63),
        (
            b"same C\nsame C(\nregister-new 1 C\nregister-new 2 CO\nsimilar 0 1 1 C\n\
            close s7\nsame C\nstats\n",
            1,
            1,
        ),
    ],
    &[
        (b"ok 1\n", 1, 1),
        (b"opened 1\n", 0, 63),
        (
            b"refused pins\nrefused smiles syntax\nrefused pins\nrefused pins\nrefused pins\n\
            closed\nhit 1\nend at 1 tried 1 hits 1\n\
            stats version 1 live 1 withdrawn 0 kept 1 pins 63\n",
            1,
            1,
        ),
    ],
)];
