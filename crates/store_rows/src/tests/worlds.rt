//! A world is stopped or failed at each call of a commit, and opened again at images of its disks.

use drill_core::World;
use mol_finish::Format;
use std::alloc::Global;
use std::test::Fail;
use store_core::{Change, CommitFault, Look, Record, Service};

// Registers a SMILES under an identifier.
fn register(alloc: Global, world: &mut World, id: u32, text: &[u8]) -> Result<u32, CommitFault> {
    if id == 0 || id > 999_999_999 {
        return Err(CommitFault::NoMemory);
    }
    match Record::make(alloc, id, Format::Smiles, text) {
        Ok(record) => world.commit(Change::Register(record)),
        Err(_) => Err(CommitFault::NoMemory),
    }
}

// The number of pins.
fn pins(world: &mut World) -> Option<u32> {
    match world.stats() {
        Ok(stats) => Some(stats.pins),
        Err(_) => None,
    }
}

// The version that made the status of an identifier.
fn version(world: &mut World, id: u32) -> Option<u32> {
    match world.look(id) {
        Ok(Look::Live { version, .. } | Look::Withdrawn { version }) => Some(version),
        Ok(Look::Absent) | Err(_) => None,
    }
}

// The remains of a commit after another one, if the disks stop after `calls` calls and are opened at one of their
// images: its answer, and the number of commits.
fn stopped(alloc: Global, calls: u64, image: u32) -> Result<(Result<u32, CommitFault>, u32), Fail> {
    let mut world = World::new(alloc, 10)?;
    register(alloc, &mut world, 1, b"CCO")?;
    world.stop_after(calls);
    let answer = register(alloc, &mut world, 2, b"CC=O");
    let (_, commits) = world.reopen(image)?;
    Ok((answer, commits))
}

const SURE: Result<u32, CommitFault> = Err(CommitFault::DiskFault { doubt: false });

const DOUBT: Result<u32, CommitFault> = Err(CommitFault::DiskFault { doubt: true });

// Calls that pass, the answer, and the number of commits of each image.
const STOPS: &[(u64, Result<u32, CommitFault>, [u32; 4])] = &[
    (0, SURE, [1, 1, 1, 1]),
    (1, SURE, [1, 1, 1, 1]),
    (2, DOUBT, [1, 1, 2, 1]),
    (3, DOUBT, [2, 1, 2, 1]),
    (4, Ok(2), [2, 2, 2, 2]),
];

#[test]
fn a_stop_leaves_the_commit_or_not(rt: HostRuntime) -> Result<(), Fail> {
    for &(calls, answer, left) in STOPS {
        for image in 0..4 {
            assert_eq!(rt;
                stopped(rt.alloc(), calls, image)?,
                (answer, left[image as usize]),
                "{calls} {image}"
            );
        }
    }
    Ok(())
}

#[test]
fn a_later_commit_ends_a_doubt(rt: HostRuntime) -> Result<(), Fail> {
    let alloc = rt.alloc();
    let mut world = World::new(alloc, 10)?;
    register(alloc, &mut world, 1, b"CCO")?;
    world.fail_once(4);
    let second = register(alloc, &mut world, 2, b"CC=O");
    let third = register(alloc, &mut world, 3, b"C");
    let (mut world, commits) = world.reopen(0)?;
    let versions = [version(&mut world, 2), version(&mut world, 3)];
    assert_eq!(rt;
        [second, third],
        [Err(CommitFault::DiskFault { doubt: true }), Ok(2)]
    );
    assert_eq!(rt; (commits, versions), (2, [None, Some(2)]));
    Ok(())
}

#[test]
fn a_crash_leaves_no_pins(rt: HostRuntime) -> Result<(), Fail> {
    let alloc = rt.alloc();
    let mut world = World::new(alloc, 10)?;
    let is_pinned = matches!(world.pin(), Ok(Some(_)));
    let before = pins(&mut world);
    world.stop_after(0);
    let (mut world, commits) = world.reopen(1)?;
    let after = pins(&mut world);
    assert_eq!(rt;
        (is_pinned, commits, [before, after]),
        (true, 0, [Some(1), Some(0)])
    );
    assert_eq!(rt; register(alloc, &mut world, 1, b"C"), Ok(1));
    Ok(())
}
