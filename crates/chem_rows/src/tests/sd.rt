//! Records of SD files, and their data items.
use super::{MEM, Made, PLAIN, Piece, Script, call, check_each, made, put_by};
use std::test::Fail;

const SCRIPTS: &[Script] = &[
    (
        "an acetate with its name and one without an end",
        MEM,
        "\
        > register-sd 7 2\n\
        > acetate\n\
        >   by hand\n\
        > \n\
        >   4  3  0  0  0  0  0  0  0  0999 V2000\n\
        >     0.0000    0.0000    0.0000 C   0  0  0  0  0  0\n\
        >     1.5000    0.0000    0.0000 C   0  0  0  0  0  0\n\
        >     2.2000    1.2000    0.0000 O   0  5  0  0  0  0\n\
        >     2.2000   -1.2000    0.0000 O   0  0  0  0  0  0\n\
        >   1  2  1  0\n\
        >   2  3  2  0\n\
        >   2  4  1  0\n\
        > M  CHG  1   4  -1\n\
        > M  END\n\
        > > <NAME>\n\
        > acetate\n\
        > \n\
        > $$$$\n\
        > acetate\n\
        >   by hand\n\
        > \n\
        >   4  3  0  0  0  0  0  0  0  0999 V2000\n\
        >     0.0000    0.0000    0.0000 C   0  0  0  0  0  0\n\
        >     1.5000    0.0000    0.0000 C   0  0  0  0  0  0\n\
        >     2.2000    1.2000    0.0000 O   0  5  0  0  0  0\n\
        >     2.2000   -1.2000    0.0000 O   0  0  0  0  0  0\n\
        >   1  2  1  0\n\
        >   2  3  2  0\n\
        >   2  4  1  0\n\
        > M  CHG  1   4  -1\n\
        > $$$$\n\
        < ok 1\n\
        < refused molfile cut\n\
        > data 7 NAME\n\
        < data 7 1\n\
        < acetate\n\
        > data 7 X\n\
        < refused data\n\
        > data 8 NAME\n\
        < refused absent\n\
        > show 7\n\
        < record 7 version 1 molfile 16\n\
        < acetate\n\
        <   by hand\n\
        < \n\
        <   4  3  0  0  0  0  0  0  0  0999 V2000\n\
        <     0.0000    0.0000    0.0000 C   0  0  0  0  0  0\n\
        <     1.5000    0.0000    0.0000 C   0  0  0  0  0  0\n\
        <     2.2000    1.2000    0.0000 O   0  5  0  0  0  0\n\
        <     2.2000   -1.2000    0.0000 O   0  0  0  0  0  0\n\
        <   1  2  1  0\n\
        <   2  3  2  0\n\
        <   2  4  1  0\n\
        < M  CHG  1   4  -1\n\
        < M  END\n\
        < > <NAME>\n\
        < acetate\n\
        < \n\
        > search C(=O)[O-]\n\
        < hit 7\n\
        < end at 1 tried 1 hits 1\n\
        > withdraw 7\n\
        < ok 2\n\
        > data 7 NAME\n\
        < refused withdrawn\n\
        > register-sd 9 1\n\
        < refused sd cut\n\
        ",
    ),
    (
        "records are answered in their order",
        &["mem", "--commits", "4"],
        "\
        > register 3 C\n\
        < ok 1\n\
        # an empty record, one that is registered, one that is known, one that is no molfile\n\
        > register-sd 1 4\n\
        > $$$$\n\
        > \n\
        > \n\
        > \n\
        >   1  0  0     0  0              1 V2000\n\
        >     0.0000    0.0000    0.0000 O   0  0\n\
        > M  END\n\
        > $$$$\n\
        > \n\
        > \n\
        > \n\
        >   1  0  0     0  0              1 V2000\n\
        >     0.0000    0.0000    0.0000 O   0  0\n\
        > M  END\n\
        > $$$$\n\
        > \n\
        > \n\
        > \n\
        > no counts\n\
        > M  END\n\
        > $$$$\n\
        < refused molfile cut\n\
        < ok 2\n\
        < refused known\n\
        < refused molfile header\n\
        # more records than the store takes, than the input has, and the last without its end\n\
        > register 4 C\n\
        < ok 3\n\
        > data 3 A\n\
        < refused data\n\
        > register-sd 10 4\n\
        > \n\
        > \n\
        > \n\
        >   1  0  0     0  0              1 V2000\n\
        >     0.0000    0.0000    0.0000 O   0  0\n\
        > M  END\n\
        > $$$$\n\
        > \n\
        > \n\
        > \n\
        >   1  0  0     0  0              1 V2000\n\
        >     0.0000    0.0000    0.0000 O   0  0\n\
        > M  END\n\
        < ok 4\n\
        < refused full\n\
        < refused sd cut\n\
        < refused sd cut\n\
        ",
    ),
    (
        "lines that take no records and lines that take them in vain",
        MEM,
        "\
        > register-sd\n\
        < refused syntax\n\
        > register-sd 1\n\
        < refused syntax\n\
        > register-sd 1 0\n\
        < refused syntax\n\
        > register-sd 1 01\n\
        < refused syntax\n\
        > register-sd 1 4097\n\
        < refused syntax\n\
        > register-sd 1 1 \n\
        < refused syntax\n\
        > register-sd  1 1\n\
        < refused syntax\n\
        > register-sd x 1\n\
        > register 1 C\n\
        > $$$$\n\
        < refused id\n\
        > register-sd 01 2\n\
        > $$$$\n\
        > register 1 C\n\
        > $$$$\n\
        < refused id\n\
        > register-sd 999999999 2\n\
        > $$$$\n\
        > $$$$\n\
        < refused id\n\
        > $$$$\n\
        < refused syntax\n\
        > register-sd 0 4096\n\
        > register 1 C\n\
        < refused id\n\
        ",
    ),
];

#[test]
fn scripts(rt: HostRuntime) -> Result<(), Fail> {
    check_each(&rt, rt.alloc(), SCRIPTS)
}

// A molfile of one atom, by its header line.
const OXYGEN: &[u8] = b"


  1  0  0  0  0  0  0  0  0  0999 V2000
    0.0000    0.0000    0.0000 O   0  0  0  0  0  0
";

pub(super) const MADE: &[Made] = &[
    // Lines that end with CR and LF, a line that ends no record, and data with a line of one blank.
    (
        "a record with data items in lines with CR",
        MEM,
        &[(
            b"register-sd 999999999 1\r\n\
            \r\n\r\n\r\n  1  0  0     0  0              1 V2000\r\n\
            \x20   0.0000    0.0000    0.0000 O   0  0\r\nM  END\r\n\
            >  <A> (1)\r\none\r\n \r\ntwo\r\n\r\n$$$$ \r\n> <>\r\n\r\n$$$$\r\n\
            data 999999999 A\ndata 999999999 \ndata 999999999 B\ndata 999999999\ndata 0 A\n",
            1,
            1,
        )],
        &[(
            b"ok 1\ndata 999999999 3\none\n \ntwo\ndata 999999999 0\n\
            refused data\nrefused syntax\nrefused id\n",
            1,
            1,
        )],
    ),
    // A record with a line that is too long is refused alone, and a text that is too big.
    (
        "records that are too long leave the others",
        MEM,
        &[
            (b"register-sd 1 5\n", 1, 1),
            (OXYGEN, 1, 1),
            (b"M  END\n$$$$\n", 1, 1),
            (OXYGEN, 1, 1),
            (b"M  END\n", 1, 1),
            (b"x", 1, 65_537),
            (b"\n$$$$\n", 1, 1),
            (OXYGEN, 1, 1),
            (b"M  END\n", 1, 1),
            (b"x\n", 1, 131_072),
            (b"$$$$\n", 1, 1),
            (b"$", 1, 65_540),
            (b"\n$$$$\n", 1, 1),
            (OXYGEN, 1, 1),
            (b"M  END\n$$$$\nstats\n", 1, 1),
        ],
        &[(
            b"ok 1\nrefused long\nrefused molfile limit\nrefused long\nok 2\n\
            stats version 2 live 2 withdrawn 0 kept 2 pins 0\n",
            1,
            1,
        )],
    ),
];

// A record with a line that is too long, one with more bytes than a text with a structure may have, and one that is
// registered.
const LONG: &[Piece] = &[(b"x", 1, 65_537), (b"\n$$$$\n", 1, 1)];

const BIG: &[Piece] = &[
    (b"x", 1, 65_535),
    (b"\n", 1, 1),
    (b"x", 1, 65_535),
    (b"\n", 1, 1),
    (b"x", 1, 65_535),
    (b"\n", 1, 1),
    (b"x", 1, 65_535),
    (b"\n\n$$$$\n", 1, 1),
];

const GOOD: &[Piece] = &[
    (OXYGEN, 1, 1),
    (b"M  END\n", 1, 1),
    (b"x", 1, 65_535),
    (b"\n", 1, 1),
    (b"x", 1, 65_535),
    (b"\n", 1, 1),
    (b"x", 1, 65_176),
    (b"\n$$$$\n", 1, 1),
];

// A script: its subject, its pieces with the number of each, and its replies.
type Sum = (
    &'static str,
    &'static [(&'static [Piece], u32)],
    &'static [Piece],
);

// In a sum a line that is too long counts its bytes, and a text at most 262,145. The texts of one line may have
// 67,108,864 bytes: 255 times 262,145, 65,538 of a line that is too long, and 196,351 of a record.
const SUMS: &[Sum] = &[
    (
        "lines that are too long count their bytes",
        &[
            (&[(b"register-sd 1 257\n", 1, 1)], 1),
            (LONG, 256),
            (&[(OXYGEN, 1, 1), (b"M  END\n$$$$\n", 1, 1)], 1),
        ],
        &[(b"refused long\n", 1, 256), (b"ok 1\n", 1, 1)],
    ),
    (
        "as many bytes as may be, one byte more, and what follows",
        &[
            (&[(b"register-sd 1 261\n", 1, 1)], 1),
            (BIG, 255),
            (LONG, 1),
            (GOOD, 1),
            (&[(b"$$$$\n\n$$$$\n$$$$\n", 1, 1)], 1),
            (&[(OXYGEN, 1, 1), (b"M  END\n$$$$\nstats\n", 1, 1)], 1),
        ],
        &[
            (b"refused molfile limit\n", 1, 255),
            (b"refused long\nok 1\nrefused molfile cut\n", 1, 1),
            (b"refused sd limit\n", 1, 3),
            (b"stats version 1 live 1 withdrawn 0 kept 1 pins 0\n", 1, 1),
        ],
    ),
];

#[test]
fn texts_of_too_many_bytes_are_refused_from_one_on(rt: HostRuntime) -> Result<(), Fail> {
    let alloc = rt.alloc();
    for &(about, rows, replies) in SUMS {
        let mut script = Vec::new(alloc);
        for &(pieces, times) in rows {
            let text = made(alloc, pieces)?;
            for _ in 0..times {
                script.extend_from_slice(&text)?;
            }
        }
        let answer = call(&rt, alloc, MEM, script.as_slice(), PLAIN)?;
        let said = put_by(&answer);
        assert!(rt; said == made(alloc, replies)?.as_slice(), "{about}");
    }
    Ok(())
}
