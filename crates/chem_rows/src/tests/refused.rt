//! Lines that are refused, and the lines after them.
use super::{MEM, Made, Piece, Script, Ways, answers, check_each, made};
use std::test::Fail;

const SCRIPTS: &[Script] = &[(
    "refused lines",
    MEM,
    "\
        > \n\
        > search *\n\
        < end at 0 tried 0 hits 0\n\
        > register 1 C12CCCCC12\n\
        < refused smiles ring\n\
        > register 1 C1CC\n\
        < refused smiles ring\n\
        > register 1 C(\n\
        < refused smiles syntax\n\
        > register 1 \n\
        < refused smiles syntax\n\
        > register 1  C\n\
        < refused smiles syntax\n\
        > register 1\n\
        < refused syntax\n\
        > register 0 C\n\
        < refused id\n\
        > register 1000000000 C\n\
        < refused id\n\
        > register 01 C\n\
        < refused id\n\
        > register  1 C\n\
        < refused id\n\
        > Register 1 C\n\
        < refused syntax\n\
        > withdraw 1 \n\
        < refused syntax\n\
        > withdraw \n\
        < refused id\n\
        > show +1\n\
        < refused id\n\
        > search\n\
        < refused syntax\n\
        > search \n\
        < refused smarts syntax\n\
        > stats \n\
        < refused syntax\n\
        # a name has 1 to 32 letters, digits or `_`\n\
        > open abcdefghijklmnopqrstuvwxyz_12345 C\n\
        < opened 0\n\
        > open abcdefghijklmnopqrstuvwxyz_123456 C\n\
        < refused syntax\n\
        > next abcdefghijklmnopqrstuvwxyz_123456\n\
        < refused syntax\n\
        > open a-b C(\n\
        < refused syntax\n\
        > open  C\n\
        < refused syntax\n\
        > open s\n\
        < refused syntax\n\
        # the pattern is looked at before the name, and the name before a pin\n\
        > open s C(\n\
        < refused smarts syntax\n\
        > next s\n\
        < refused cursor\n\
        > close s\n\
        < refused cursor\n\
        > next\n\
        < refused syntax\n\
        # a molfile belongs to its line, whatever that is answered\n\
        > register-mol\n\
        > register 1 C\n\
        > M  END\n\
        < refused syntax\n\
        > register-mol 1 2\n\
        > M  END\n\
        < refused syntax\n\
        > register-mol 01\n\
        > M  END of it\n\
        < refused id\n\
        > register-mols 1\n\
        < refused syntax\n\
        > revise-mol 1\n\
        > M  END\n\
        < refused molfile cut\n\
        > register-mol 2\n\
        > \n\
        > \n\
        > \n\
        < refused molfile cut\n\
        ",
)];

#[test]
fn scripts(rt: HostRuntime) -> Result<(), Fail> {
    check_each(&rt, rt.alloc(), SCRIPTS)
}

pub(super) const MADE: &[Made] = &[(
    "lines that nest as deep as they are long",
    MEM,
    &[
        (b"register 1 ", 1, 1),
        (b"C(", 1, 21_841),
        (b"C", 1, 1),
        (b")", 1, 21_841),
        (b"\n", 1, 1),
        (b"register 1 ", 1, 1),
        (b"C(", 1, 257),
        (b"C", 1, 1),
        (b")", 1, 257),
        (b"\n", 1, 1),
        (b"register 1 ", 1, 1),
        (b"C(", 1, 256),
        (b"C", 1, 1),
        (b")", 1, 256),
        (b"\n", 1, 1),
        (b"register 2 ", 1, 1),
        (b"C(", 1, 32_762),
        (b"C\n", 1, 1),
        (b"search ", 1, 1),
        (b"[$(", 1, 819),
        (b"C", 1, 1),
        (b")]", 1, 819),
        (b"\n", 1, 1),
        (b"search ", 1, 1),
        (b"[$(", 1, 9),
        (b"C", 1, 1),
        (b")]", 1, 9),
        (b"\n", 1, 1),
        (b"search ", 1, 1),
        (b"[$(", 1, 8),
        (b"C", 1, 1),
        (b")]", 1, 8),
        (b"\n", 1, 1),
        (b"search ", 1, 1),
        (b"[$(", 1, 1_365),
        (b"C\n", 1, 1),
        (b"search ", 1, 1),
        (b"C(", 1, 1_365),
        (b"C", 1, 1),
        (b")", 1, 1_365),
        (b"\n", 1, 1),
        (b"search ", 1, 1),
        (b"C(", 1, 255),
        (b"C", 1, 1),
        (b")", 1, 255),
        (b"\n", 1, 1),
        (b"search ", 1, 1),
        (b"(", 1, 4_095),
        (b"C\n", 1, 1),
    ],
    &[(
        b"refused smiles limit\nrefused smiles limit\nok 1\nrefused smiles syntax\n\
                refused smarts limit\nrefused smarts limit\nhit 1\nend at 1 tried 1 hits 1\n\
                refused smarts syntax\nrefused smarts limit\nhit 1\nend at 1 tried 1 hits 1\n\
                refused smarts syntax\n",
        1,
        1,
    )],
)];

// Lines of the most bytes and of more: alone, in a molfile, and in the molfile of a line that is refused for itself. A
// line that begins `M  END` does not end a molfile if it is too long.
const LONG_LINES: &[Piece] = &[
    (b"x", 1, 65_537),
    (b"\nregister 1 ", 1, 1),
    (b"C", 1, 65_525),
    (b"\nregister 1 ", 1, 1),
    (b"C", 1, 1_000),
    (b"\nregister 1 ", 1, 1),
    (b"C", 1, 999),
    (b"\nsearch ", 1, 1),
    (b"C", 1, 257),
    (b"\nsearch ", 1, 1),
    (b"C", 1, 256),
    (b"\nregister-mol 1\n\n", 1, 1),
    (b"x", 1, 65_537),
    (b"\nregister 2 C\nM  END\nrevise-mol 01\nM  END", 1, 1),
    (b"x", 1, 65_531),
    (
        b"\nregister 2 C\nM  END\nregister 1 \xff\nsearch \xff",
        1,
        1,
    ),
];

const LONG_REPLIES: &[u8] =
    b"refused long\nrefused smiles limit\nrefused smiles limit\nok 1\nrefused smarts limit\n\
    hit 1\nend at 1 tried 1 hits 1\nrefused long\nrefused long\nrefused smiles syntax\nrefused smarts syntax\n";

// The greatest number of bytes that a take gives.
const TAKES: &[usize] = &[1, 7, 65_536];

#[test]
fn long_lines_and_bytes_that_are_no_text(rt: HostRuntime) -> Result<(), Fail> {
    let script = made(rt.alloc(), LONG_LINES)?;
    for &piece in TAKES {
        let ways = Ways {
            piece: piece.max(1),
            takes: &[],
            puts: &[],
        };
        answers(&rt, rt.alloc(), MEM, &script, ways, 0, LONG_REPLIES)?;
    }
    Ok(())
}
