//! Worked stores in memory: a fetch reads no entry that lacks the wanted bits, and a pin reads its version.
ghost use Rattle.std.specs.Prelude.{◌≡◌, ◌+◌, ◌<◌, ◌≤◌, ◌⊎◌, Bool, IfOk, IsTrue, List, Some, ℕ};
ghost use Rattle.std.specs.Arc.{arc_value};
ghost use Rattle.store_machine.specs.History.{IsId};
ghost use Rattle.store_core.specs.Kept.{HasPrint};
ghost use Rattle.store_rows.specs.Only.{HasOnly, KeepsPins};
ghost use Rattle.store_core.specs.Records.{IsRecord};
ghost use Rattle.store_core.specs.Stored.{HoldsPin};

use chem_core::Print;
use mol_finish::{Format, one_structure};
use snap_registry::Pin;
use std::alloc::Global;
use std::marker::Brand;
use std::sync::Arc;
use std::sync::ledger::{Blank, Ledger};
use std::test::Fail;
use store_core::{
    Change, CommitFault, CompactFault, Look, Page, Record, Service, Stats, Steps, Store,
};
use store_machine::{commits_change, snapshots_stay};

// A record of a SMILES.
fn record(alloc: Global, id: u32, text: &[u8]) -> Result<Arc<Record>, Fail>
    requires { IsId id }
    ensures { IfOk result (λ r. (arc_value r).id ≡ id) }
{
    Ok(Record::make(alloc, id, Format::Smiles, text)?)
}

// Commits a change. Each pin is held on.
fn commit(store: &mut Store, change: Change) -> Result<(), Fail>
    ensures { IfOk result (λ _. KeepsPins store.old store.new) }
{
    store.commit(change)?;
    Ok(())
}

// A pin of the head.
fn pin(store: &mut Store) -> Result<Pin, Fail>
    ensures held { IfOk result (λ p. HoldsPin store.new p.slot p.version) }
    ensures only { IfOk result (λ _. (want : List Bool) (id : ℕ)
        → HasOnly store.old want id → HasOnly store.new want id) }
{
    match store.pin()? {
        Some(pin) => Ok(pin),
        None => Err(Fail::new("no pin")),
    }
}

// An empty store, in which nothing is found.
fn empty(alloc: Global, want: &Print, only: u32) -> Store
    ensures { HasOnly result want.now only }
{
    Store::fresh(alloc, 400)
}

// True only if a record is of this identifier, or lacks a wanted bit.
fn may_come(entry: &Arc<Record>, want: &Print, only: u32) -> bool
    ensures sound { IsRecord (arc_value entry.now) }
    ensures lacks { IsTrue result
        → ((arc_value entry.now).id ≡ only) ⊎ ¬ HasPrint want.now (Some entry.now) }
{
    entry.id() == only || !entry.print().holds(want)
}

// Registers such a record.
fn register(store: &mut Store, entry: Arc<Record>, want: &Print, only: u32) -> Result<(), Fail>
    requires { HasOnly store.old want.now only }
    ensures { IfOk result (λ _. HasOnly store.new want.now only) }
{
    commits_change();
    snapshots_stay();
    one_structure();
    if !may_come(&entry, want, only) {
        return Err(Fail::new("it has what is wanted"));
    }
    store.commit(Change::Register(entry))?;
    Ok(())
}

// Registers methane under 1 to 300.
fn register_methanes(alloc: Global, store: &mut Store, want: &Print, only: u32) -> Result<(), Fail>
    requires { HasOnly store.old want.now only }
    ensures { IfOk result (λ _. HasOnly store.new want.now only) }
{
    for id in 1..301 {
        register(store, record(alloc, id, b"C")?, want, only)?;
    }
    Ok(())
}

// A store of 300 methanes, and one record that differs from them.
fn store_with(alloc: Global, one: Arc<Record>, want: &Print, only: u32) -> Result<Store, Fail>
    ensures { IfOk result (λ store. HasOnly store want.now only) }
{
    let mut store = empty(alloc, want, only);
    register_methanes(alloc, &mut store, want, only)?;
    register(&mut store, one, want, only)?;
    Ok(store)
}

// The page of a pin from 1 on. Returns true if no other follows. At most one entry is read.
fn fetch_one<L: Ledger>(
    store: &mut Store,
    pin: &Pin,
    want: &Print,
    only: u32,
    page: &mut Page,
    steps: &mut Steps<L>,
) -> Result<bool, Fail>
    requires held { HoldsPin store.old pin.now.slot pin.now.version }
    requires room { 256 ≤ page.old.room }
    requires only { HasOnly store.old want.now only }
    ensures { IfOk result (λ _. steps.new ≤ steps.old + 1) }
{
    Ok(store.fetch(pin, want, 1, 256, page, steps)?)
}

// True if exactly one record has all wanted bits, and it is of this identifier.
fn is_found_alone(alloc: Global, store: &mut Store, want: &Print, only: u32) -> Result<bool, Fail>
    requires { HasOnly store.old want.now only }
{
    is_found_alone_by::<Brand>(alloc, store, want, only, Blank::new(1))
}

fn is_found_alone_by<L: Ledger>(
    alloc: Global,
    store: &mut Store,
    want: &Print,
    only: u32,
    blank: Blank,
) -> Result<bool, Fail>
    requires name { blank.name ≡ L.name }
    requires parts { blank.parts ≡ L.parts }
    requires some { 0 < blank.parts }
    requires only { HasOnly store.old want.now only }
{
    let mut page = Page::reserve(alloc, 256)?;
    let mut steps = Steps::<L>::open(blank);
    let pin = pin(store)?;
    let last = fetch_one(store, &pin, want, only, &mut page, &mut steps)?;
    Ok(last && page.records().len() == 1 && page.records()[0].id() == only)
}

#[test]
fn one_of_many_has_what_is_wanted(rt: HostRuntime) -> Result<(), Fail> {
    let alloc = rt.alloc();
    let ammonia = record(alloc, 301, b"N")?;
    let want = ammonia.print();
    let mut store = store_with(alloc, Arc::try_clone(&ammonia)?, want, 301)?;
    assert!(rt; is_found_alone(alloc, &mut store, want, 301)?);
    Ok(())
}

// Registers methane under 1 and ammonia under 2.
fn register_two(alloc: Global, store: &mut Store) -> Result<(), Fail> {
    commit(store, Change::Register(record(alloc, 1, b"C")?))?;
    commit(store, Change::Register(record(alloc, 2, b"N")?))
}

// Revises 1 twice, withdraws 2 and prunes. Returns the number of entries dropped.
fn change_and_prune(alloc: Global, store: &mut Store) -> Result<u32, Fail>
    ensures { IfOk result (λ _. KeepsPins store.old store.new) }
{
    commit(store, Change::Revise(record(alloc, 1, b"CC")?))?;
    commit(store, Change::Revise(record(alloc, 1, b"CCC")?))?;
    commit(store, Change::Withdraw(2))?;
    Ok(store.prune()?)
}

// True if the pin has methane and ammonia, and no others.
fn has_both(alloc: Global, store: &mut Store, pin: &Pin) -> Result<bool, Fail>
    requires { HoldsPin store.old pin.now.slot pin.now.version }
    ensures { IfOk result (λ _. KeepsPins store.old store.new) }
{
    has_both_by::<Brand>(alloc, store, pin, Blank::new(1))
}

fn has_both_by<L: Ledger>(
    alloc: Global,
    store: &mut Store,
    pin: &Pin,
    blank: Blank,
) -> Result<bool, Fail>
    requires name { blank.name ≡ L.name }
    requires parts { blank.parts ≡ L.parts }
    requires some { 0 < blank.parts }
    requires held { HoldsPin store.old pin.now.slot pin.now.version }
    ensures { IfOk result (λ _. KeepsPins store.old store.new) }
{
    let mut page = Page::reserve(alloc, 256)?;
    let mut steps = Steps::<L>::open(blank);
    let last = store.fetch(pin, &Print::empty(), 1, 256, &mut page, &mut steps)?;
    Ok(last && are_both(&page))
}

fn are_both(page: &Page) -> bool {
    match page.records() {
        [first, second] => first.text() == b"C".as_slice() && second.text() == b"N".as_slice(),
        _ => false,
    }
}

// The number of entries that a prune drops beside a pin, whether the pin reads its version, and the number dropped
// without it.
fn beside_a_pin(alloc: Global, store: &mut Store) -> Result<(u32, bool, u32), Fail> {
    let pin = pin(store)?;
    // no version in use reads the first revision
    let dropped = change_and_prune(alloc, store)?;
    let has_both = has_both(alloc, store, &pin)?;
    store.unpin(pin)?;
    Ok((dropped, has_both, store.prune()?))
}

#[test]
fn a_pin_reads_its_version_and_a_prune_drops_the_rest(rt: HostRuntime) -> Result<(), Fail> {
    let mut store = Store::fresh(rt.alloc(), 5);
    register_two(rt.alloc(), &mut store)?;
    assert_eq!(rt; beside_a_pin(rt.alloc(), &mut store)?, (1, true, 2));
    Ok(())
}

// A store at version 5 with methane, made at 3, and an identifier that was withdrawn at 5.
fn with_base(alloc: Global) -> Result<Store, Fail> {
    let mut store = Store::at_base(alloc, 5);
    store.put_base(1, 3, Some(record(alloc, 1, b"C")?))?;
    store.put_base(7, 5, None)?;
    Ok(store)
}

// The version that made a live identifier.
fn live_since(store: &mut Store, id: u32) -> Result<Option<u32>, Fail> {
    match store.look(id)? {
        Look::Live { version, .. } => Ok(Some(version)),
        _ => Ok(None),
    }
}

// The answers of a store with such a base to two commits, and the version of 1 before and after them, and of 7.
fn commit_two(
    alloc: Global,
    store: &mut Store,
) -> Result<([Result<u32, CommitFault>; 2], [Option<u32>; 3]), Fail> {
    let (first, seventh) = (live_since(store, 1)?, live_since(store, 7)?);
    let withdrawn = store.commit(Change::Withdraw(7));
    let revised = store.commit(Change::Revise(record(alloc, 1, b"CC")?));
    let last = live_since(store, 1)?;
    Ok(([withdrawn, revised], [first, last, seventh]))
}

#[test]
fn a_store_goes_on_from_its_base(rt: HostRuntime) -> Result<(), Fail> {
    let mut store = with_base(rt.alloc())?;
    let counts = Stats {
        version: 5,
        live: 1,
        withdrawn: 1,
        kept: 2,
        pins: 0,
    };
    assert_eq!(rt; store.stats()?, counts);
    let told = (
        [Err(CommitFault::Withdrawn), Ok(6)],
        [Some(3), Some(6), None],
    );
    assert_eq!(rt; commit_two(rt.alloc(), &mut store)?, told);
    assert_eq!(rt; store.compact(), Err(CompactFault::Last));
    Ok(())
}

// The state that a copy of a version finds from an identifier on: the identifier, the version that made it, and whether
// it is live.
fn found(store: &Store, from: u32, version: u32) -> Option<(u32, u32, bool)> {
    let state = store.states_at(from, version).next()?;
    Some((state.id, state.made_at, state.entry.is_some()))
}

// Withdraws 2, revises 1 and registers 5. A copy may begin after the first of these.
fn change_beside_a_copy(alloc: Global, store: &mut Store) -> Result<u32, Fail> {
    commit(store, Change::Withdraw(2))?;
    let begin = store.version();
    commit(store, Change::Revise(record(alloc, 1, b"CC")?))?;
    commit(store, Change::Register(record(alloc, 5, b"O")?))?;
    Ok(begin)
}

// The states that copies of versions find from an identifier on.
const FOUND: &[(u32, u32, Option<(u32, u32, bool)>)] = &[
    (0, 3, Some((1, 1, true))),
    (2, 3, Some((2, 3, false))),
    (3, 3, None),
    (0, 5, Some((1, 4, true))),
    (3, 5, Some((5, 5, true))),
    (6, 5, None),
];

// The first row for which a copy of a version finds something else.
fn other_than_found(store: &Store) -> Option<(u32, u32)> {
    for &(from, version, state) in FOUND {
        if found(store, from, version) != state {
            return Some((from, version));
        }
    }
    None
}

// The number of entries that a prune drops beside a copy, the row for which the copy then finds something else, and the
// number dropped without it.
fn beside_a_copy(alloc: Global, store: &mut Store) -> Result<(u32, Option<(u32, u32)>, u32), Fail> {
    register_two(alloc, store)?;
    let begin = change_beside_a_copy(alloc, store)?;
    // no version in use reads the ammonia
    let dropped = store.prune_but(Some(begin));
    Ok((dropped, other_than_found(store), store.prune()?))
}

#[test]
fn a_copy_reads_its_version_beside_commits(rt: HostRuntime) -> Result<(), Fail> {
    let mut store = Store::fresh(rt.alloc(), 5);
    assert_eq!(rt; beside_a_copy(rt.alloc(), &mut store)?, (1, None, 1));
    Ok(())
}
