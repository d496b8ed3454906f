//! The outcome of the top call.
ghost use Rattle.std.specs.Prelude.{◌≡◌, map};
ghost use Rattle.journal_core.specs.Looks.{Narrows};
ghost use Rattle.chem_shell.specs.Contents.{disks_of};
ghost use Rattle.chem_shell.specs.Ends.{with_status};
ghost use Rattle.chem_shell.specs.Status.{first_fault};

use crate::status::DONE;
use disk_edge::Disk;
use serve_ends::End;
use store_disk::Disks;

/// The outcome of the top call: the overall status, the place of damage on a disk (0 if there is none), and the ends
/// and disks.
#[derive(Drop)]
pub struct Outcome<D, S, K> {
    pub status: u8,
    pub place: u64,
    pub a: D,
    pub b: D,
    pub ends: Vec<End<S, K>>,
}

impl<D: Drop, S: Drop, K: Drop> Outcome<D, S, K> {
    // Ends were served: the overall status is the first that is not 0.
    pub(crate) fn served(place: u64, disks: Disks<D>, ends: Vec<End<S, K>>) -> Outcome<D, S, K>
        ensures status { result.status ≡ first_fault (map (λ end. end.status) result.ends.items) }
        ensures place { result.place ≡ place }
        ensures disks { disks_of result ≡ disks }
        ensures ends { result.ends ≡ ends }
    {
        Outcome {
            status: first_fault(&ends),
            place,
            a: disks.a,
            b: disks.b,
            ends,
        }
    }
}

impl<D: Disk + Drop, S: Drop, K: Drop> Outcome<D, S, K> {
    // No end was served: each has the status, and nothing else changed.
    pub(crate) fn unserved(
        status: u8,
        place: u64,
        disks: Disks<D>,
        mut ends: Vec<End<S, K>>,
    ) -> Outcome<D, S, K>
        ensures status { result.status ≡ status }
        ensures place { result.place ≡ place }
        ensures disks { disks_of result ≡ disks }
        ensures read_a { Narrows D.model disks.a result.a }
        ensures read_b { Narrows D.model disks.b result.b }
        ensures ends { result.ends.items ≡ map (with_status status) ends.items }
    {
        set_status(&mut ends, status);
        Outcome {
            status,
            place,
            a: disks.a,
            b: disks.b,
            ends,
        }
    }
}

// The first status that is not 0, if there is one.
fn first_fault<S, K>(ends: &[End<S, K>]) -> u8
    ensures { result ≡ first_fault (map (λ end. end.status) ends.now) }
{
    for end in ends {
        if end.status != DONE {
            return end.status;
        }
    }
    DONE
}

// Gives each end the status.
fn set_status<S, K>(ends: &mut [End<S, K>], status: u8)
    ensures { ends.new ≡ map (with_status status) ends.old }
{
    for end in ends.iter_mut() {
        end.status = status;
    }
}
