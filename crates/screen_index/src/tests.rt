//! An index of three prints, worked by hand.
ghost use Rattle.std.specs.Prelude.{◌≡◌, OnOk};
ghost use Rattle.screen_index.specs.Pairs.{Lacks, new_pair, put_in, rank};

use crate::{Hint, ScreenIndex, Want};
use chem_core::Print;
use std::alloc::{AllocError, Global};
use std::test::Fail;

/// The identifier of a pair, its version, the version before which it is known to be the latest, and its value.
type Pair = (u32, u32, u32, u8);

/// Two wanted bits, the place at which to begin, and the next pair.
type Row = ((u16, u16), (u32, u32), Option<Pair>);

const ROWS: &[Row] = &[
    ((1, 1), (0, 0), Some((5, 1, 2, 30))),
    ((1, 1), (5, 2), Some((5, 2, u32::MAX, 10))),
    ((1, 1), (5, 3), None),
    ((9, 9), (5, 2), Some((8, 3, u32::MAX, 20))),
    ((70, 70), (0, 0), Some((5, 2, u32::MAX, 10))),
    ((70, 9), (0, 0), None),
];

// As `ROWS`, but of the index without version 2 of identifier 5.
const PRUNED: &[Row] = &[
    ((1, 1), (5, 2), None),
    ((1, 1), (0, 0), Some((5, 1, 2, 30))),
];

// The hint for a first search, others that are wrong for most places, and two beyond the end.
const HINTS: &[Hint] = &[
    Hint { block: 0, place: 0 },
    Hint { block: 0, place: 1 },
    Hint { block: 0, place: 2 },
    Hint { block: 0, place: 3 },
    Hint {
        block: 0,
        place: usize::MAX,
    },
    Hint { block: 9, place: 1 },
];

// The print of two bits.
fn print_of(one: u16, other: u16) -> Print {
    let mut print = Print::empty();
    print.set(one % 1024);
    print.set(other % 1024);
    print
}

fn put(
    index: &mut ScreenIndex<u8>,
    id: u32,
    version: u32,
    print: &Print,
    value: u8,
) -> Result<(), AllocError>
    requires { Lacks (rank id version) index.old.entries }
    ensures { OnOk result (index.new.entries
        ≡ put_in (new_pair id version print.now value) index.old.entries) }
{
    index.reserve(print, value)?;
    index.add(id, version);
    Ok(())
}

// The second pair of identifier 5 follows its first.
fn three_pairs(alloc: Global) -> Result<ScreenIndex<u8>, AllocError> {
    let mut index = ScreenIndex::new(alloc);
    put(&mut index, 5, 2, &print_of(1, 70), 10)?;
    put(&mut index, 8, 3, &print_of(9, 1023), 20)?;
    put(&mut index, 5, 1, &print_of(1, 9), 30)?;
    index.supersede(5, 1, 2);
    index.supersede(8, 2, 5);
    Ok(index)
}

fn next_of(index: &ScreenIndex<u8>, row: &Row, hint: &mut Hint) -> Option<Pair> {
    let (bits, from, _) = *row;
    let print = print_of(bits.0, bits.1);
    let next = index.next(&Want::of(&print), from, hint)?;
    Some((next.id, next.version, next.until, next.value))
}

// The pair found by the last hint and by each of the hints: another pair than that of the row, if one of them is.
fn found(index: &ScreenIndex<u8>, row: &Row, last: &mut Hint) -> Option<Pair> {
    let mut found = next_of(index, row, last);
    for hint in HINTS {
        let mut hint = *hint;
        let next = next_of(index, row, &mut hint);
        if next != row.2 {
            found = next;
        }
    }
    found
}

// The first row for which another pair is found, with that pair. Each is also looked for by the hint that the row
// before it left.
fn wrong(index: &ScreenIndex<u8>, rows: &[Row]) -> Option<(Row, Option<Pair>)> {
    let mut last = Hint::default();
    for row in rows {
        let found = found(index, row, &mut last);
        if found != row.2 {
            return Some((*row, found));
        }
    }
    None
}

#[test]
fn the_next_pair_is_the_least_whose_print_holds(rt: HostRuntime) -> Result<(), Fail> {
    let mut index = three_pairs(rt.alloc())?;
    assert_eq!(rt; wrong(&index, ROWS), None);
    index.drop_all(&[(4, 9), (5, 2), (6, 1)]);
    assert_eq!(rt; wrong(&index, PRUNED), None);
    Ok(())
}
