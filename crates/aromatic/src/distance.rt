//! The number of links from atoms to the target of a search, by a breadth-first search from there.
ghost use Rattle.std.specs.Prelude.{◌≡◌, ◌<◌, ◌+◌, length, replicate, All, OnOk};
ghost use Rattle.aromatic.specs.Links.{AreClosed, AreMutual, links_in};
ghost use Rattle.aromatic.specs.Distances.{AreDistances, IsQueue, IsSpread};
ghost use Rattle.aromatic.specs.declared.limits.TheConstants.{LONGEST};

use crate::limits::LONGEST;
use crate::links::{Links, links_of};
use bumpalo::Bump;
use std::alloc::AllocError;

/// A distance of `LONGEST` links or more. A Hückel cycle has at most that many atoms, so no cycle through the target
/// passes such an atom.
pub const FAR: u8 = LONGEST as u8;

/// Writes the distance of each atom that is nearer than `FAR`, and puts these atoms into the queue. Only these and
/// their links are looked at.
pub fn spread(
    links: &[Links<'_>],
    target: u16,
    distances: &mut [u8],
    queue: &mut Vec<u16, &Bump>,
) -> Result<(), AllocError>
    requires closed { AreClosed (links_in links.now) }
    requires both_ways { AreMutual (links_in links.now) }
    requires target { target < length links.now }
    requires blank { distances.old ≡ replicate (length links.now) LONGEST }
    ensures distances { OnOk result (AreDistances (links_in links.now) target distances.new) }
    ensures queue { OnOk result (IsQueue distances.new queue.new.items) }
    ensures in_range { OnOk result (All (λ a. a < length links.now) queue.new.items) }
{
    queue.clear();
    queue.push(target)?;
    distances[usize::from(target)] = 0;
    let mut head = 0;
    while head < queue.len() {
        visit(links, target, head, distances, queue)?;
        head += 1;
    }
    Ok(())
}

/// Resets the distances. The queue holds exactly the atoms that have one.
pub fn forget(distances: &mut [u8], queue: &[u16])
    requires queue { IsQueue distances.old queue.now }
    requires in_range { All (λ a. a < length distances.old) queue.now }
    ensures { distances.new ≡ replicate (length distances.old) LONGEST }
{
    for atom in queue {
        distances[usize::from(*atom)] = FAR;
    }
}

// Takes the links of the atom at the head of the queue: an atom that has no distance yet is one farther.
fn visit(
    links: &[Links<'_>],
    target: u16,
    head: usize,
    distances: &mut [u8],
    queue: &mut Vec<u16, &Bump>,
) -> Result<(), AllocError>
    requires closed { AreClosed (links_in links.now) }
    requires head { head < length queue.old.items }
    requires spread { IsSpread (links_in links.now) target distances.old queue.old.items head }
    ensures { OnOk result (IsSpread (links_in links.now) target distances.new queue.new.items (head + 1)) }
{
    let atom = queue[head];
    let farther = distances[usize::from(atom)] + 1;
    if farther == FAR {
        return Ok(());
    }
    for link in links_of(links, atom) {
        if distances[usize::from(link.to)] == FAR {
            distances[usize::from(link.to)] = farther;
            queue.push(link.to)?;
        }
    }
    Ok(())
}
