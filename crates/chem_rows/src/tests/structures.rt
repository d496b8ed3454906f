//! Structures: their texts, rings and aromatic atoms.
ghost use Rattle.std.specs.Prelude.{◌<◌};

use super::{Answer, MEM, PLAIN, Script, call, check_each, put_by};
use aromatic::perceive;
use ring_find::rings;
use smiles_read::read_smiles;
use std::alloc::{AllocError, Global};
use std::sync::Wait;
use std::test::Fail;
use std::thread::Threads;
use valence::{fill_hydrogens, suppress};

const SCRIPTS: &[Script] = &[
    (
        "texts of structures",
        MEM,
        "\
        > register 1 CCO\n\
        < ok 1\n\
        > register 2 CC=O\n\
        < ok 2\n\
        > search C=O\n\
        < hit 2\n\
        < end at 2 tried 1 hits 1\n\
        # a NUL, and symbols of no element\n\
        > register 3 C\0\n\
        < refused smiles syntax\n\
        > register 3 Cr\n\
        < refused smiles syntax\n\
        > register 3 l\n\
        < refused smiles syntax\n\
        # brackets, charges, parts, hydrogen atoms, marks that are dropped\n\
        > register 3 [13CH3][C@@H](O)C(=O)[O-].[Na+]\n\
        < ok 3\n\
        > register 4 [H]C([H])([H])[H]\n\
        < ok 4\n\
        > register 5 C/C=C\\C\n\
        < ok 5\n\
        > search [CH4]\n\
        < hit 4\n\
        < end at 5 tried 5 hits 1\n\
        > search C=C\n\
        < hit 5\n\
        < end at 5 tried 1 hits 1\n\
        ",
    ),
    (
        "one structure written in several ways",
        MEM,
        "\
        > register 1 c1ccccc1\n\
        < ok 1\n\
        > register 2 C1=CC=CC=C1\n\
        < ok 2\n\
        > search c1ccccc1\n\
        < hit 1\n\
        < hit 2\n\
        < end at 2 tried 2 hits 2\n\
        > register 3 c1cccc1\n\
        < refused smiles aromatic 0\n\
        > register 3 CC:C\n\
        < refused smiles aromatic 1\n\
        ",
    ),
    (
        "the charge of a CHG line stands in place of those of the atom lines",
        MEM,
        "\
        > register-mol 1\n\
        > acetate\n\
        >   by hand\n\
        > \n\
        >   4  3  0  0  0  0  0  0  0  0999 V2000\n\
        >     0.0000    0.0000    0.0000 C   0  0  0  0  0  0\n\
        >     1.5000    0.0000    0.0000 C   0  0  0  0  0  0\n\
        >     2.2000    1.2000    0.0000 O   0  5  0  0  0  0\n\
        >     2.2000   -1.2000    0.0000 O   0  0  0  0  0  0\n\
        >   1  2  1  0\n\
        >   2  3  2  0\n\
        >   2  4  1  0\n\
        > M  CHG  1   4  -1\n\
        > M  END\n\
        < ok 1\n\
        > search [O-]\n\
        < hit 1\n\
        < end at 1 tried 1 hits 1\n\
        > search [O+0]=C\n\
        < hit 1\n\
        < end at 1 tried 1 hits 1\n\
        > register 1 C\n\
        < refused known\n\
        ",
    ),
];

#[test]
fn scripts(rt: HostRuntime) -> Result<(), Fail> {
    check_each(&rt, rt.alloc(), SCRIPTS)
}

// A structure is registered, and a pattern searched.
fn search<R: Threads + Wait + Sync>(
    rt: &R,
    alloc: Global,
    text: &str,
    pattern: &str,
) -> Result<Answer, AllocError> {
    let script = format!(in alloc; "register 1 {text}\nsearch {pattern}\n")?;
    call(rt, alloc, &["mem"], script.as_bytes(), PLAIN)
}

// Benzene, its double bonds written, by the stages that make their own working memory.
#[test]
fn stages_one_after_another(rt: HostRuntime) -> Result<(), Fail> {
    let alloc = rt.alloc();
    let mut sketch = read_smiles(alloc, b"C1=CC=CC=C1")?;
    fill_hydrogens(&mut sketch);
    suppress(&mut sketch);
    let rings = rings(alloc, &sketch)?;
    let found = perceive(alloc, &sketch, &rings.bond_in_ring)?;
    assert_eq!(rt; rings.atom_small.as_slice(), [6u16; 6].as_slice());
    assert_eq!(rt; found.atoms.as_slice(), [true; 6].as_slice());
    assert_eq!(rt; found.bonds.as_slice(), [true; 6].as_slice());
    assert_eq!(rt; found.valences.as_slice(), [4u8; 6].as_slice());
    Ok(())
}

// Fullerene C60, its 30 double bonds written: each of its 60 atoms lies on a hexagon of six electrons.
const C60: &str =
    "C12=C3C4=C5C6=C1C7=C8C9=C1C%10=C%11C(=C29)C3=C2C3=C4C4=C5C5=C9C6=C7C6=C7C8=C1C1=C8C%10=C%10C%11=C2C2=C3C3=C4C4=C5C5=C%11C%12=C(C6=C95)C7=C1C1=C%12C5=C%11C4=C3C3=C5C(=C81)C%10=C23";

// Every atom is aromatic, or there are plain carbon atoms, or the place of the first that is refused. A recursive part
// screens nothing, so each structure is tried.
const NONE: &str = "ok 1\nend at 1 tried 1 hits 0\n";

const PLAIN_CARBON: &str = "ok 1\nhit 1\nend at 1 tried 1 hits 1\n";

const FIRST: &str = "refused smiles aromatic 0\nend at 0 tried 0 hits 0\n";

// Structures, and the replies if they are registered and searched for plain carbon atoms.
const FORMS: &[(&str, &str)] = &[
    ("C1=CC=CC=C1", NONE),
    ("n1ccccc1", NONE),
    ("N1=CC=CC=C1", NONE),
    ("[nH]1cccc1", NONE),
    ("N1C=CC=C1", NONE),
    ("n1cccc1", FIRST),
    ("o1cccc1", NONE),
    ("s1cccc1", NONE),
    ("[se]1cccc1", NONE),
    ("c1c[nH]cn1", NONE),
    ("c1ccc2[nH]ccc2c1", NONE),
    ("c1ccc2ccccc2c1", NONE),
    ("C1=CC=C2C=CC=CC2=C1", NONE),
    ("c1ccc2cccc2cc1", NONE),
    ("[O-][n+]1ccccc1", NONE),
    ("O=n1ccccc1", NONE),
    ("O=c1cccc[nH]1", NONE),
    ("O=C1C=CC=CN1", NONE),
    ("O=C1C=CC(=O)C=C1", PLAIN_CARBON),
    ("O=C1C=CC=CC=C1", NONE),
    ("[cH+]1cccccc1", NONE),
    ("[cH-]1cccc1", NONE),
    ("[bH-]1ccccc1", NONE),
    ("[b-]1ccccc1", FIRST),
    ("[o+]1ccccc1", NONE),
    ("c1ccc1", FIRST),
    ("C1=CC=C1", PLAIN_CARBON),
    ("c1ccccccc1", FIRST),
    ("c1ccccccccccccccccc1", NONE),
    ("c1ccccccccccccccccccc1", FIRST),
    ("c1ccccc1c1ccccc1", NONE),
    ("C12(CCCC1)CCCC2", PLAIN_CARBON),
    ("C12C3C4C1C5C2C3C45", PLAIN_CARBON),
    ("C1C2CC3CC1CC(C2)C3", PLAIN_CARBON),
    (C60, NONE),
    ("C1=Cc2cccc3cccc1c23", PLAIN_CARBON),
    ("c1ccc2c(c1)c1ccccc12", NONE),
    ("C=C1C=CC=C1", PLAIN_CARBON),
    ("C1=CC=CC=CC=CC=CC=CC=CC=CC=CC=CC=C1", PLAIN_CARBON),
    ("[Te]1C=CC=C1", PLAIN_CARBON),
    (
        "[te]1cccc1",
        "refused smiles syntax\nend at 0 tried 0 hits 0\n",
    ),
    (
        "*1ccccc1",
        "refused smiles aromatic 1\nend at 0 tried 0 hits 0\n",
    ),
    // porphin: both outer atoms of a ring without NH lie on no cycle of at most 18 atoms with 4n+2 electrons
    ("c1cc2cc3ccc([nH]3)cc3ccc(n3)cc3ccc([nH]3)cc1n2", FIRST),
    (
        "C1=CC2=CC3=CC=C(N3)C=C4C=CC(=N4)C=C5C=CC(=CC1=N2)N5",
        PLAIN_CARBON,
    ),
];

#[test]
fn aromatic_forms(rt: HostRuntime) -> Result<(), Fail> {
    for (text, replies) in FORMS {
        let answer = search(&rt, rt.alloc(), text, "[$(C)]")?;
        assert_eq!(rt; answer.status, 0, "at {text}");
        assert_eq!(rt; put_by(&answer), replies.as_bytes(), "at {text}");
    }
    Ok(())
}
