//! Texts and their patterns.

use smarts_parse::{Graph, Pattern, SmartsFault, parse};
use std::alloc::{AllocError, Global};
use std::test::Fail;

// Texts, and their first fault.
const FAULTS: &[(&str, SmartsFault)] = &[
    ("[C>", SmartsFault::Reaction),
    ("", SmartsFault::Syntax),
    ("[C", SmartsFault::Syntax),
    ("[$(C]", SmartsFault::Syntax),
    ("[$((C))]", SmartsFault::Syntax),
    ("(C)(C)", SmartsFault::Syntax),
    ("C.(C", SmartsFault::Syntax),
    ("()", SmartsFault::Syntax),
    ("C.().C", SmartsFault::Syntax),
    ("((C))", SmartsFault::Syntax),
    ("((C).(C))", SmartsFault::Syntax),
    ("(C).", SmartsFault::Syntax),
    ("(C)N", SmartsFault::Syntax),
    ("F/C=C/F", SmartsFault::Stereo),
    ("[$([C@H])]", SmartsFault::Stereo),
    ("[R2@]", SmartsFault::Stereo),
    ("[$([R2])]C1", SmartsFault::RingSet),
    ("C1CC", SmartsFault::Ring),
    ("[$(C-1CC=1)]", SmartsFault::Ring),
    ("(C1).(C)", SmartsFault::Ring),
];

fn fault_of(alloc: Global, text: &str) -> Option<SmartsFault> {
    parse(alloc, text.as_bytes()).err()
}

#[test]
fn the_first_fault_is_answered(rt: HostRuntime) -> Result<(), Fail> {
    for &(text, fault) in FAULTS {
        assert!(rt; fault_of(rt.alloc(), text) == Some(fault), "at {text}");
    }
    Ok(())
}

const SIZES: &[(&str, (usize, usize, usize))] = &[
    ("c1ccccc1", (6, 6, 0)),
    ("C(N)(O.C)P", (5, 3, 0)),
    ("C!-,=&@;~N", (2, 1, 0)),
    ("[2H+]", (1, 0, 0)),
    ("[$(C[$(N)]),$(O)]C[$([$(S)])]", (3, 2, 5)),
];

// The atoms, bonds and recursive parts of a text's pattern.
fn sizes_of(alloc: Global, text: &str) -> Option<(usize, usize, usize)> {
    let pattern = parse(alloc, text.as_bytes()).ok()?;
    let top = &pattern.top;
    Some((top.atoms.len(), top.bonds.len(), pattern.recs.len()))
}

#[test]
fn patterns_are_read(rt: HostRuntime) -> Result<(), Fail> {
    for &(text, sizes) in SIZES {
        assert!(rt; sizes_of(rt.alloc(), text) == Some(sizes), "at {text}");
    }
    Ok(())
}

const GROUPS: &[(&str, &[u16])] = &[
    ("C.N", &[0, 0]),
    ("(C)", &[1]),
    ("(C).(C)", &[1, 2]),
    ("(C.C)", &[1, 1]),
    ("(C).C", &[1, 0]),
    (
        "C.(CO.N(C.F)).(P).OC.S.(C)",
        &[0, 1, 1, 1, 1, 1, 2, 0, 0, 0, 3],
    ),
    ("(C1.O).N1", &[1, 1, 0]),
    ("([$(C.C)]O).([$([$(C)])])", &[1, 1, 2]),
];

// The group of each atom. Ring numbers pair across groups.
#[test]
fn groups_are_numbered(rt: HostRuntime) -> Result<(), Fail> {
    for &(text, groups) in GROUPS {
        let pattern = parse(rt.alloc(), text.as_bytes())?;
        assert!(rt; has_groups(&pattern, groups), "at {text}");
    }
    let many = many_groups(rt.alloc())?;
    assert!(rt; many.top.groups.iter().copied().eq(1..=256));
    Ok(())
}

// True if these are the groups of the pattern's atoms, and all atoms of its recursive parts are in no group.
fn has_groups(pattern: &Pattern, groups: &[u16]) -> bool {
    pattern.top.groups.as_slice() == groups && pattern.recs.iter().all(is_one_group)
}

// True if all atoms of a recursive part are in no group.
fn is_one_group(part: &Graph) -> bool {
    part.groups.len() == part.atoms.len() && part.groups.iter().all(|group| *group == 0)
}

// The greatest number of groups of a text.
fn many_groups(alloc: Global) -> Result<Pattern, Fail> {
    let text = long_text(alloc, ".(C)", 255, "", "")?;
    let text = format!(in alloc; "(C){text}")?;
    Ok(parse(alloc, text.as_bytes())?)
}

// A front, the number of its copies, a middle, a back with that number of copies, and the fault.
const LIMITS: &[(&str, usize, &str, &str, Option<SmartsFault>)] = &[
    ("[$(", 8, "C", ")]", None),
    ("[$(", 9, "C", ")]", Some(SmartsFault::Limit)),
    ("[$(C)]", 64, "", "", None),
    ("[$(C)]", 65, "", "", Some(SmartsFault::Limit)),
    ("C", 256, "", "", None),
    ("C", 257, "", "", Some(SmartsFault::Limit)),
    ("C", 4097, ">", "", Some(SmartsFault::Limit)),
];

#[test]
fn limits_are_kept(rt: HostRuntime) -> Result<(), Fail> {
    for &(front, count, middle, back, fault) in LIMITS {
        let text = long_text(rt.alloc(), front, count, middle, back)?;
        assert!(rt;
            fault_of(rt.alloc(), &text) == fault,
            "at {count} times {front}"
        );
    }
    Ok(())
}

fn long_text(
    alloc: Global,
    front: &str,
    count: usize,
    middle: &str,
    back: &str,
) -> Result<String, AllocError> {
    let front = front.repeat(alloc, count)?;
    let back = back.repeat(alloc, count)?;
    format!(in alloc; "{front}{middle}{back}")
}
