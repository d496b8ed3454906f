//! Chains of two identifiers, worked by hand.
ghost use Rattle.std.specs.Prelude.{◌≡◌, ◌<◌};

use record_versions::{Chains, Finder, Steps};
use std::alloc::{AllocError, Global};
use std::marker::Brand;
use std::sync::ledger::{Blank, Ledger};
use std::test::Fail;

// The entry of an identifier at a version.
fn look(chains: &Chains<char>, id: u32, version: u32) -> Option<(u32, char)> {
    look_by::<Brand>(chains, id, version, Blank::new(1))
}

fn look_by<L: Ledger>(
    chains: &Chains<char>,
    id: u32,
    version: u32,
    blank: Blank,
) -> Option<(u32, char)>
    requires name { blank.name ≡ L.name }
    requires parts { blank.parts ≡ L.parts }
    requires one { 0 < blank.parts }
{
    let mut steps = Steps::<L>::open(blank);
    let (version, value) = chains.at(id, version, &mut steps)?;
    Some((version, *value))
}

// The entry that a finder finds.
fn find(finder: &mut Finder<'_, char>, id: u32, version: u32) -> Option<(u32, char)> {
    find_by::<Brand>(finder, id, version, Blank::new(1))
}

fn find_by<L: Ledger>(
    finder: &mut Finder<'_, char>,
    id: u32,
    version: u32,
    blank: Blank,
) -> Option<(u32, char)>
    requires name { blank.name ≡ L.name }
    requires parts { blank.parts ≡ L.parts }
    requires one { 0 < blank.parts }
{
    let mut steps = Steps::<L>::open(blank);
    let (version, value) = finder.at(id, version, &mut steps)?;
    Some((version, *value))
}

// Entries of 7 at versions 1 and 3, and of 2 at version 2.
fn three_entries(alloc: Global) -> Result<Chains<char>, AllocError> {
    let mut chains = Chains::new(alloc);
    chains.reserve(7)?;
    chains.add(7, 1, 'a');
    chains.reserve(7)?;
    chains.add(7, 3, 'b');
    chains.reserve(2)?;
    chains.add(2, 2, 'c');
    Ok(chains)
}

// The entry of an identifier at a version.
const READ: &[(u32, u32, Option<(u32, char)>)] = &[
    (7, 0, None),
    (7, 1, Some((1, 'a'))),
    (7, 2, Some((1, 'a'))),
    (7, 3, Some((3, 'b'))),
    (2, 1, None),
    (2, 9, Some((2, 'c'))),
    (5, 9, None),
];

#[test]
fn an_entry_is_read_until_the_next(rt: HostRuntime) -> Result<(), Fail> {
    let chains = three_entries(rt.alloc())?;
    let mut finder = chains.finder(0);
    for &(id, version, entry) in READ {
        let both = [find(&mut finder, id, version), look(&chains, id, version)];
        assert_eq!(rt; both, [entry; 2], "{id} at {version}");
    }
    Ok(())
}

#[test]
fn an_identifier_has_an_entry(rt: HostRuntime) -> Result<(), Fail> {
    let mut chains = three_entries(rt.alloc())?;
    chains.reserve(5)?;
    for (from, id) in [(0, Some(2)), (3, Some(7)), (7, Some(7)), (8, None)] {
        assert_eq!(rt; chains.next_id(from), id, "from {from} on");
    }
    Ok(())
}

// The least dead entry from a place on, beside pins of versions.
const DEAD: &[((u32, u32), &[u32], Option<(u32, u32)>)] = &[
    ((0, 0), &[2, 3], None),
    ((0, 0), &[1, 3], None),
    ((0, 0), &[1], Some((2, 2))),
    ((2, 3), &[1], Some((7, 3))),
    ((0, 0), &[3], Some((7, 1))),
];

#[test]
fn an_entry_is_dead_where_nobody_reads_it(rt: HostRuntime) -> Result<(), Fail> {
    let mut chains = three_entries(rt.alloc())?;
    for &(from, live, dead) in DEAD {
        assert_eq!(rt; chains.dead_from(from, live), dead, "{live:?}");
    }
    let taken = [chains.take(7, 2), chains.take(7, 1)];
    assert_eq!(rt; taken, [None, Some('a')]);
    assert_eq!(rt; (chains.dead(&[3]), chains.kept()), (None, 2));
    Ok(())
}

// The entry that the identifier then has at a version.
const LEFT: &[(u32, Option<(u32, char)>)] = &[
    (1, None),
    (5, Some((2, 'b'))),
    (6, Some((6, 'd'))),
    (9, Some((6, 'd'))),
];

#[test]
fn one_more_follows_where_the_newest_and_the_oldest_were_taken(
    rt: HostRuntime,
) -> Result<(), Fail> {
    let mut chains = Chains::new(rt.alloc());
    chains.reserve(4)?;
    chains.add(4, 1, 'a');
    chains.reserve(4)?;
    chains.add(4, 2, 'b');
    chains.reserve(4)?;
    chains.add(4, 5, 'c');
    let taken = [chains.take(4, 5), chains.take(4, 1)];
    let left = look(&chains, 4, 9);
    chains.reserve(4)?;
    chains.add(4, 6, 'd');
    assert_eq!(rt; (taken, left), ([Some('c'), Some('a')], Some((2, 'b'))));
    for &(version, entry) in LEFT {
        assert_eq!(rt; look(&chains, 4, version), entry, "at {version}");
    }
    assert_eq!(rt; (chains.dead(&[6]), chains.kept()), (Some((4, 2)), 2));
    Ok(())
}
