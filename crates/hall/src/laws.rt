//! The laws of runs and of stores that the hall's proofs use.
ghost use Rattle.store_machine.specs.Laws.{PinsStay};
ghost use Rattle.store_machine.specs.Owners.{OwnersAreFree};
ghost use Rattle.hall.specs.Histories.{AsksNoOwner};

use disk_edge::Disk;
use store_disk::stores_ask_no_owner;
use store_machine::{owners_are_free, pins_stay};

/// They take no time.
pub(crate) fn laws<D: Disk>()
    ensures free { OwnersAreFree }
    ensures asks { AsksNoOwner D.model }
    ensures stay { PinsStay }
{
    owners_are_free();
    stores_ask_no_owner::<D>();
    pins_stay();
}
