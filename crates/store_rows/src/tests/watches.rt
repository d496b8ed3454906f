//! Two watches over a row of one's own commits, and one that missed a commit.
use mol_finish::Format;
use smarts_parse::parse;
use std::alloc::Global;
use std::test::Fail;
use store_core::{Change, Record};
use watch_list::Watches;

// One's own commit of a version: an identifier from 1 to 9 gets a text, or is withdrawn if the text is empty.
fn commit(
    alloc: Global,
    watches: &mut Watches,
    version: u32,
    id: u32,
    text: &[u8],
) -> Result<(), Fail> {
    if version == 0 || id == 0 || id > 9 {
        return Err(Fail::new("no version or no identifier"));
    }
    let change = if text.is_empty() {
        Change::Withdraw(id)
    } else {
        Change::Revise(Record::make(alloc, id, Format::Smiles, text)?)
    };
    watches.reserve()?;
    watches.note(version, &change);
    Ok(())
}

// Watches of oxygen at version 0 and of nitrogen at version 2, without hits.
fn two_watches(alloc: Global) -> Result<Watches, Fail> {
    let oxygen = parse(alloc, b"O")?;
    let nitrogen = parse(alloc, b"N")?;
    let mut watches = Watches::new(alloc);
    watches.add(b"o", oxygen, 0, Vec::new(alloc))?;
    watches.add(b"n", nitrogen, 2, Vec::new(alloc))?;
    Ok(watches)
}

// A commit's version, identifier and text, the hits of the first watch, and the version and hits of the second.
const COMMITS: &[(u32, u32, &[u8], &[u32], u32, &[u32])] = &[
    (1, 4, b"CCO", &[4], 2, &[]),
    (2, 2, b"CO", &[2, 4], 2, &[]),
    (3, 3, b"CCN", &[2, 4], 3, &[3]),
    (4, 2, b"CC", &[4], 4, &[3]),
    (5, 4, b"NCO", &[4], 5, &[3, 4]),
    (6, 4, b"", &[], 6, &[3]),
];

// True if the watches are at these versions and have these hits.
fn have(watches: &Watches, oxygens: (u32, &[u32]), nitrogens: (u32, &[u32])) -> bool {
    watches.list(b"o") == Some(oxygens) && watches.list(b"n") == Some(nitrogens)
}

// Follows the commits. Returns the first version after which a list differs from its row.
fn other_than_told(alloc: Global, watches: &mut Watches) -> Result<Option<u32>, Fail> {
    for &(version, id, text, oxygens, nitrogen_version, nitrogens) in COMMITS {
        commit(alloc, watches, version, id, text)?;
        if !have(watches, (version, oxygens), (nitrogen_version, nitrogens)) {
            return Ok(Some(version));
        }
    }
    Ok(None)
}

#[test]
fn a_row_of_commits_with_both_lists_after_each(rt: HostRuntime) -> Result<(), Fail> {
    let mut watches = two_watches(rt.alloc())?;
    let other = other_than_told(rt.alloc(), &mut watches)?;
    assert!(rt; other.is_none(), "{other:?}");
    Ok(())
}

// A watch of oxygen at version 0, without hits.
fn one_watch(alloc: Global) -> Result<Watches, Fail> {
    let oxygen = parse(alloc, b"O")?;
    let mut watches = Watches::new(alloc);
    watches.add(b"o", oxygen, 0, Vec::new(alloc))?;
    Ok(watches)
}

// Fills a watch of oxygen. Returns the number of times it was filled.
fn fill(alloc: Global, watches: &mut Watches) -> Option<u32> {
    if watches.pattern(b"o").is_some() {
        watches.fill(b"o", 3, Vec::new(alloc));
    }
    watches.fills(b"o")
}

// Removes a watch of nitrogen and one of oxygen. Returns true for each that was there, and the number of watches left.
fn take_out(watches: &mut Watches) -> ([bool; 2], usize) {
    let are_taken = [watches.remove(b"n"), watches.remove(b"o")];
    (are_taken, watches.len())
}

#[test]
fn a_watch_that_missed_a_commit_is_filled_and_taken_out(rt: HostRuntime) -> Result<(), Fail> {
    let mut watches = one_watch(rt.alloc())?;
    commit(rt.alloc(), &mut watches, 3, 5, b"CO")?;
    let has_missed = watches.list(b"o") == Some((0, &[]));
    let fills = fill(rt.alloc(), &mut watches);
    let taken = take_out(&mut watches);
    assert_eq!(rt;
        (has_missed, fills, taken),
        (true, Some(1), ([false, true], 0))
    );
    Ok(())
}
