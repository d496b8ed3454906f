//! Patterns: their hits, their candidates, and their refusals.

use super::{MEM, Made, Script, check, check_each, check_with};
use std::test::Fail;

const SCRIPTS: &[Script] = &[
    (
        "each identifier once, ascending, though the pattern embeds in many ways",
        MEM,
        "\
        > register 999999999 ClCBr\n\
        < ok 1\n\
        > register 3 ClCBr\n\
        < ok 2\n\
        > search BrC\n\
        < hit 3\n\
        < hit 999999999\n\
        < end at 2 tried 2 hits 2\n\
        > register 5 CCCCCCCC\n\
        < ok 3\n\
        > register 6 CCCCOCCCC\n\
        < ok 4\n\
        > search CCCCCCCC\n\
        < hit 5\n\
        < end at 4 tried 1 hits 1\n\
        > search OCO\n\
        < end at 4 tried 0 hits 0\n\
        > search C-=C\n\
        < end at 4 tried 2 hits 0\n\
        > register 7 COCO\n\
        < ok 5\n\
        > search OCO\n\
        < hit 7\n\
        < end at 5 tried 1 hits 1\n\
        > register 8 N#CC\n\
        < ok 6\n\
        > search C#N\n\
        < hit 8\n\
        < end at 6 tried 1 hits 1\n\
        > search C=N\n\
        < end at 6 tried 0 hits 0\n\
        > search CI\n\
        < end at 6 tried 0 hits 0\n\
        ",
    ),
    (
        "aromatic atoms and bonds",
        MEM,
        "\
        > register 1 c1ccccc1C\n\
        < ok 1\n\
        > register 2 CC1=CC=CC=C1\n\
        < ok 2\n\
        > register 3 C1CCCCC1\n\
        < ok 3\n\
        > search C\n\
        < hit 1\n\
        < hit 2\n\
        < hit 3\n\
        < end at 3 tried 3 hits 3\n\
        > search CC\n\
        < hit 3\n\
        < end at 3 tried 1 hits 1\n\
        > search C=C\n\
        < end at 3 tried 0 hits 0\n\
        ",
    ),
    (
        "the three nitrogens of caffeine",
        MEM,
        "\
        > register 1 Cn1cnc2c1c(=O)n(C)c(=O)n2C\n\
        < ok 1\n\
        > search [nX3]\n\
        < hit 1\n\
        < end at 1 tried 1 hits 1\n\
        ",
    ),
    (
        "a charge in signs, and in a number",
        MEM,
        "\
        > register 1 [Fe+++]\n\
        < ok 1\n\
        > search [Fe+3]\n\
        < hit 1\n\
        < end at 1 tried 1 hits 1\n\
        ",
    ),
    (
        "the bond that two aromatic rings share",
        MEM,
        "\
        > register 1 c1ccc2cccc2cc1\n\
        < ok 1\n\
        > search c:c\n\
        < hit 1\n\
        < end at 1 tried 1 hits 1\n\
        > search c-c\n\
        < hit 1\n\
        < end at 1 tried 1 hits 1\n\
        ",
    ),
    (
        "hydrogen atoms",
        MEM,
        "\
        > register 1 [2H]C\n\
        < ok 1\n\
        > register 2 [H]C\n\
        < ok 2\n\
        > search [#1]\n\
        < hit 1\n\
        < end at 2 tried 1 hits 1\n\
        > search [#1][#1]\n\
        < end at 2 tried 0 hits 0\n\
        ",
    ),
    (
        "alternatives",
        MEM,
        "\
        > register 1 CC(=O)N\n\
        < ok 1\n\
        > register 2 CN=O\n\
        < ok 2\n\
        > register 3 CO\n\
        < ok 3\n\
        > search [C,N]=O\n\
        < hit 1\n\
        < hit 2\n\
        < end at 3 tried 3 hits 2\n\
        > search [!C;!N]=O\n\
        < end at 3 tried 3 hits 0\n\
        > search [C,N;H1]=O\n\
        < end at 3 tried 3 hits 0\n\
        ",
    ),
    (
        "recursive parts",
        MEM,
        "\
        > register 1 Oc1ccccc1\n\
        < ok 1\n\
        > register 2 COc1ccccc1\n\
        < ok 2\n\
        > search [$(c[OX2H])]\n\
        < hit 1\n\
        < end at 2 tried 2 hits 1\n\
        > search [$([$(O[CH3])])]c\n\
        < hit 2\n\
        < end at 2 tried 2 hits 1\n\
        > register 3 [Sc]\n\
        < ok 3\n\
        > search [Sc]\n\
        < hit 3\n\
        < end at 3 tried 1 hits 1\n\
        > search [Sc&Ra]\n\
        < end at 3 tried 1 hits 0\n\
        ",
    ),
    (
        "parts that lie apart",
        MEM,
        "\
        > register 1 CC(=O)Oc1ccccc1C(=O)O\n\
        < ok 1\n\
        > register 2 N[C@@H](C)C(=O)O\n\
        < ok 2\n\
        > register 3 [Na+].[Cl-]\n\
        < ok 3\n\
        > search [CX3](=O)[OX2H1]\n\
        < hit 1\n\
        < hit 2\n\
        < end at 3 tried 2 hits 2\n\
        > search [Na+].[Cl-]\n\
        < hit 3\n\
        < end at 3 tried 1 hits 1\n\
        ",
    ),
    // Groups: in one component, in different ones, and beside atoms of no group.
    (
        "groups",
        MEM,
        "\
        > register 1 [Na+].[Cl-]\n\
        < ok 1\n\
        > register 2 CCO\n\
        < ok 2\n\
        > register 3 CO.CN\n\
        < ok 3\n\
        > search (C).(C)\n\
        < hit 3\n\
        < end at 3 tried 2 hits 1\n\
        > search (C.C)\n\
        < hit 2\n\
        < end at 3 tried 2 hits 1\n\
        > search (C).C\n\
        < hit 2\n\
        < hit 3\n\
        < end at 3 tried 2 hits 2\n\
        > search C.C\n\
        < hit 2\n\
        < hit 3\n\
        < end at 3 tried 2 hits 2\n\
        > search ([Na+]).([Cl-])\n\
        < hit 1\n\
        < end at 3 tried 1 hits 1\n\
        > search ([Na+].[Cl-])\n\
        < end at 3 tried 1 hits 0\n\
        > search ([#6,#7,#8,#11,#17]).([#6,#7,#8,#11,#17])\n\
        < hit 1\n\
        < hit 3\n\
        < end at 3 tried 3 hits 2\n\
        > search (C1).C1\n\
        < hit 2\n\
        < end at 3 tried 1 hits 1\n\
        > search (C1).(C1)\n\
        < end at 3 tried 1 hits 0\n\
        > search ([$(C.O)]).(N)\n\
        < hit 3\n\
        < end at 3 tried 1 hits 1\n\
        ",
    ),
    (
        "groups in salts and mixtures",
        MEM,
        "\
        > register 1 CC(=O)[O-].[Na+]\n\
        < ok 1\n\
        > register 2 CC(=O)[O-].CC[NH3+]\n\
        < ok 2\n\
        > register 3 [NH3+]CC(=O)[O-]\n\
        < ok 3\n\
        > register 4 OC(=O)CN.OC(=O)CN\n\
        < ok 4\n\
        > search [#7].C(=O)[#8]\n\
        < hit 2\n\
        < hit 3\n\
        < hit 4\n\
        < end at 4 tried 3 hits 3\n\
        > search ([#7].C(=O)[#8])\n\
        < hit 3\n\
        < hit 4\n\
        < end at 4 tried 3 hits 2\n\
        > search ([#7]).(C(=O)[#8])\n\
        < hit 2\n\
        < hit 4\n\
        < end at 4 tried 3 hits 2\n\
        > search ([#7].C(=O)[#8]).([#7].C(=O)[#8])\n\
        < hit 4\n\
        < end at 4 tried 3 hits 1\n\
        > search ([#7].C(=O)[#8]).([#7].C(=O)[#8]).(*)\n\
        < end at 4 tried 3 hits 0\n\
        ",
    ),
    (
        "refused patterns",
        MEM,
        "\
        > register 1 c1ccccc1\n\
        < ok 1\n\
        > search [R2]\n\
        < refused smarts ringset\n\
        > search [r6;R0]\n\
        < end at 1 tried 1 hits 0\n\
        > search F/C=C/F\n\
        < refused smarts stereo\n\
        > search C>>O\n\
        < refused smarts reaction\n\
        > search [C\n\
        < refused smarts syntax\n\
        > search C1CC\n\
        < refused smarts ring\n\
        > search (C).(C)\n\
        < end at 1 tried 0 hits 0\n\
        > search ((C))\n\
        < refused smarts syntax\n\
        > search (C)(C)\n\
        < refused smarts syntax\n\
        > search [$((C))]\n\
        < refused smarts syntax\n\
        > search ()\n\
        < refused smarts syntax\n\
        > search &\n\
        < refused smarts syntax\n\
        > search [,C]\n\
        < refused smarts syntax\n\
        > search [C;]\n\
        < refused smarts syntax\n\
        > search []\n\
        < refused smarts syntax\n\
        > search [1234C]\n\
        < refused smarts syntax\n\
        > search [C+++2]\n\
        < refused smarts syntax\n\
        > search [!]\n\
        < refused smarts syntax\n\
        > search [H0\n\
        < refused smarts syntax\n\
        > search [#]\n\
        < refused smarts syntax\n\
        > search [#1000]\n\
        < refused smarts syntax\n\
        > search C%1\n\
        < refused smarts syntax\n\
        > search C-1CC=1\n\
        < refused smarts ring\n\
        > search [$(C]\n\
        < refused smarts syntax\n\
        > search [C\0]\n\
        < refused smarts syntax\n\
        > search [$([$([$([$([$([$([$([$(C)])])])])])])])]\n\
        < end at 1 tried 1 hits 0\n\
        > search [$([$([$([$([$([$([$([$([$(C)])])])])])])])])]\n\
        < refused smarts limit\n\
        > open s [R2]\n\
        < refused smarts ringset\n\
        ",
    ),
];

#[test]
fn scripts(rt: HostRuntime) -> Result<(), Fail> {
    check_each(&rt, rt.alloc(), SCRIPTS)
}

// No reply depends on the number of workers of a search, or on the records of its pages.
#[test]
fn scripts_with_workers_and_pages(rt: HostRuntime) -> Result<(), Fail> {
    check_with(&rt, rt.alloc(), &["mem", "--workers", "16"], SCRIPTS)?;
    let words = &["mem", "--workers", "3", "--page", "5"];
    check_with(&rt, rt.alloc(), words, SCRIPTS)
}

pub(super) const MADE: &[Made] = &[(
    "symbols that stand only behind 70 atoms",
    MEM,
    &[
        (b"register 1 ", 1, 1),
        (b"C", 1, 70),
        (
            b"N(F)Cl\nsearch N\nsearch [#17]\nsearch F.Cl\nsearch [N;D3]\nsearch S\n",
            1,
            1,
        ),
    ],
    &[
        (b"ok 1\n", 1, 1),
        (b"hit 1\nend at 1 tried 1 hits 1\n", 1, 4),
        (b"end at 1 tried 0 hits 0\n", 1, 1),
    ],
)];

// A group, its number, a part, its number, and the hits.
const MANY: &[(&str, usize, &str, usize, u32)] = &[
    ("([C])", 20, "C", 30, 1),
    ("([C])", 21, "C", 20, 0),
    ("(C)", 21, "CC", 20, 0),
    ("(C)", 64, "C", 300, 1),
    ("(CC)", 21, "CCC", 20, 0),
    ("(C.C)", 20, "CCO", 21, 1),
    ("(C.C.C)", 8, "CC(C)C", 7, 0),
];

// Many components, and many groups: no order of them is tried after another.
#[test]
fn many_groups_are_searched_for(rt: HostRuntime) -> Result<(), Fail> {
    for &(group, groups, part, parts, hits) in MANY {
        let mut script = String::new(rt.alloc());
        script.push_str("> register 1 ")?;
        push_dotted(&mut script, part, parts)?;
        script.push_str("\n< ok 1\n> search ")?;
        push_dotted(&mut script, group, groups)?;
        script.push_str("\n")?;
        if hits > 0 {
            script.push_str("< hit 1\n")?;
        }
        script.push_str("< end at 1 tried 1 hits ")?;
        script.push_str(if hits > 0 { "1\n" } else { "0\n" })?;
        check(&rt, rt.alloc(), group, MEM, &script)?;
    }
    Ok(())
}

// Appends a text `count` times, with dots between.
fn push_dotted(out: &mut String, text: &str, count: usize) -> Result<(), Fail> {
    for place in 0..count {
        if place > 0 {
            out.push_str(".")?;
        }
        out.push_str(text)?;
    }
    Ok(())
}
