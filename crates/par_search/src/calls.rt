//! A fetch that counts no steps.
ghost use Rattle.std.specs.Prelude.{◌≡◌, ◌≤◌, ◌<◌, [], All, OnErr, length};
ghost use Rattle.std.specs.Arc.{arc_value};
ghost use Rattle.store_machine.specs.History.{IsId};
ghost use Rattle.store_machine.specs.declared.machine.State.{State};
ghost use Rattle.store_core.specs.Calls.{Calls, NotRaised, SameHeld, WornAs, is_worn};
ghost use Rattle.store_core.specs.Records.{Shared};
ghost use Rattle.store_core.specs.Replies.{fetch_calls};
ghost use Rattle.par_search.specs.declared.worker.TheConstants.{MOST_RECORDS};

use chem_core::Print;
use snap_registry::Pin;
use std::marker::Brand;
use std::sync::ledger::{Blank, Ledger};
use store_core::{CallFault, Page, Service, Steps};

/// One fetch, as in the contract of the service.
pub fn fetch<S: Service>(
    service: &mut S,
    pin: &Pin,
    want: &Print,
    from: u32,
    limit: u32,
    page: &mut Page,
) -> Result<bool, CallFault>
    requires held { S.holds service.old pin.now.slot pin.now.version }
    requires some { 1 ≤ limit }
    requires few { limit ≤ MOST_RECORDS }
    requires room { limit ≤ page.old.room }
    ensures call { (s : State) → S.at service.old s
        → Calls S.stretch (S.owns service.old) service.old service.new s
        (fetch_calls pin.now.slot want.now from limit page.new.records result) }
    ensures few { length page.new.records ≤ limit }
    ensures in_range { All (λ (r : Shared). IsId (arc_value r).id) page.new.records }
    ensures err { OnErr result (page.new.records ≡ []) }
    ensures room { page.new.room ≡ page.old.room }
    ensures worn { WornAs (S.worn service.old) (S.worn service.new) (is_worn result) }
    ensures held { SameHeld (S.holds service.old) (S.holds service.new) }
    ensures bounds { NotRaised (S.bounds service.old) (S.bounds service.new) }
{
    fetch_by::<S, Brand>(service, pin, want, from, limit, page, Blank::new(1))
}

// As `fetch`, with a count of steps that a blank opens.
fn fetch_by<S: Service, L: Ledger>(
    service: &mut S,
    pin: &Pin,
    want: &Print,
    from: u32,
    limit: u32,
    page: &mut Page,
    blank: Blank,
) -> Result<bool, CallFault>
    requires name { blank.name ≡ L.name }
    requires parts { blank.parts ≡ L.parts }
    requires one { 0 < blank.parts }
    requires held { S.holds service.old pin.now.slot pin.now.version }
    requires some { 1 ≤ limit }
    requires few { limit ≤ MOST_RECORDS }
    requires room { limit ≤ page.old.room }
    ensures call { (s : State) → S.at service.old s
        → Calls S.stretch (S.owns service.old) service.old service.new s
        (fetch_calls pin.now.slot want.now from limit page.new.records result) }
    ensures few { length page.new.records ≤ limit }
    ensures in_range { All (λ (r : Shared). IsId (arc_value r).id) page.new.records }
    ensures err { OnErr result (page.new.records ≡ []) }
    ensures room { page.new.room ≡ page.old.room }
    ensures worn { WornAs (S.worn service.old) (S.worn service.new) (is_worn result) }
    ensures held { SameHeld (S.holds service.old) (S.holds service.new) }
    ensures bounds { NotRaised (S.bounds service.old) (S.bounds service.new) }
{
    let mut steps = Steps::<L>::open(blank);
    service.fetch(pin, want, from, limit, page, &mut steps)
}
