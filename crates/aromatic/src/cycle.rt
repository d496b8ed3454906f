//! The search for a Hückel cycle through a bond: for a path of links from its one end to its other end.
ghost use Rattle.std.specs.Prelude.{◌≡◌, ◌≤◌, ◌<◌, ◌+◌, ◌%◌, ◌↔◌, ◌∷◌, ◌++◌, [], length, replicate, slice_index, slice_index_or, slice_set, sum_by, IfOk, IsTrue, OnOk, Ok, All, true, false};
ghost use Rattle.aromatic.specs.Links.{AreClosed, AreMutual, links_in};
ghost use Rattle.aromatic.specs.Distances.{AreDistances};
ghost use Rattle.aromatic.specs.Route.{AreFlags, AreSteps, CanReach, Completes, IsBlank, IsTrail, atoms_of, given_at, last_of};
ghost use Rattle.aromatic.specs.declared.limits.TheConstants.{LONGEST, SHORTEST};

use crate::distance::{FAR, forget, spread};
use crate::limits::{LONGEST, SHORTEST};
use crate::links::{Link, Links, links_of};
use bumpalo::Bump;
use std::alloc::AllocError;

/// A search's working memory, allocated once and reused.
#[derive(Drop)]
pub struct Scratch<'a> {
    pub path: Path<'a>,
    /// The distance of each atom from the target. Between two searches no atom has a distance.
    pub distances: Vec<u8, &'a Bump>,
    /// The atoms that have a distance.
    pub queue: Vec<u16, &'a Bump>,
}

/// A path of links.
#[derive(Drop)]
pub struct Path<'a> {
    pub links: Vec<Link, &'a Bump>,
    /// For each atom, true if it is on the path. Between two searches no atom is.
    pub flags: Vec<bool, &'a Bump>,
}

impl<'a> Scratch<'a> {
    pub fn new(arena: &'a Bump, atoms: usize) -> Result<Scratch<'a>, AllocError>
        ensures { IfOk result (IsBlank atoms) }
    {
        Ok(Scratch {
            path: Path {
                links: Vec::with_capacity(arena, LONGEST)?,
                flags: vec![in arena; false; atoms]?,
            },
            distances: vec![in arena; FAR; atoms]?,
            queue: Vec::with_capacity(arena, atoms)?,
        })
    }
}

/// Looks for a path that closes to a Hückel cycle. It begins with the link, which leads from the target to another
/// atom, and goes on from there, over at least one more atom, to the target. On `Ok(true)` it is in the scratch.
///
/// A candidate has at most three neighbours. So its ring bonds lie in one block, and a search never leaves the block of
/// its bond.
pub fn closes(
    links: &[Links<'_>],
    gives: &[Option<u8>],
    first: Link,
    target: u16,
    scratch: &mut Scratch<'_>,
) -> Result<bool, AllocError>
    requires closed { AreClosed (links_in links.now) }
    requires both_ways { AreMutual (links_in links.now) }
    requires each { length gives.now ≡ length links.now }
    requires first { first.to < length links.now }
    requires target { target < length links.now }
    requires far { scratch.old.distances.items ≡ replicate (length links.now) LONGEST }
    requires off { scratch.old.path.flags.items ≡ replicate (length links.now) false }
    ensures found { result ≡ Ok true
        → Completes (links_in links.now) gives.now target (first ∷ []) scratch.new.path.links.items }
    ensures none { result ≡ Ok false → CanReach (links_in links.now) gives.now target (first.to ∷ []) → ⊥ }
    ensures far { OnOk result (scratch.new.distances.items ≡ replicate (length links.now) LONGEST) }
    ensures off { OnOk result (scratch.new.path.flags.items ≡ replicate (length links.now) false) }
{
    spread(links, target, &mut scratch.distances, &mut scratch.queue)?;
    scratch.path.links.clear();
    scratch.path.push(first)?;
    let found = extend(links, gives, &scratch.distances, target, &mut scratch.path)?;
    scratch.path.flags[usize::from(first.to)] = false;
    forget(&mut scratch.distances, &scratch.queue);
    Ok(found)
}

// Completes the path so that it ends at the target, if it can be; else the path is as before. An atom is tried only if
// it is near enough to the target. The flags are left as before.
fn extend(
    links: &[Links<'_>],
    gives: &[Option<u8>],
    distances: &[u8],
    target: u16,
    path: &mut Path<'_>,
) -> Result<bool, AllocError>
    requires closed { AreClosed (links_in links.now) }
    requires each { length gives.now ≡ length links.now }
    requires distances { AreDistances (links_in links.now) target distances.now }
    requires trail { IsTrail (links_in links.now) (atoms_of path.old.links.items) }
    requires steps { AreSteps (links_in links.now) path.old.links.items }
    requires flag_each { length path.old.flags.items ≡ length links.now }
    requires flags { AreFlags path.old.flags.items path.old.links.items }
    ensures found { result ≡ Ok true
        → Completes (links_in links.now) gives.now target path.old.links.items path.new.links.items }
    ensures none { result ≡ Ok false
        → CanReach (links_in links.now) gives.now target (atoms_of path.old.links.items) → ⊥ }
    ensures kept { result ≡ Ok false → path.new.links.items ≡ path.old.links.items }
    ensures flags { OnOk result (path.new.flags.items ≡ path.old.flags.items) }
{
    let last = last_of(&path.links);
    if last == target {
        return Ok(is_huckel(gives, &path.links));
    }
    for link in links_of(links, last) {
        if path.may_go_to(link.to, distances) {
            path.push(*link)?;
            let found = extend(links, gives, distances, target, path)?;
            path.flags[usize::from(link.to)] = false;
            if found {
                return Ok(true);
            }
            path.links.pop();
        }
    }
    Ok(false)
}

fn last_of(path: &[Link]) -> u16
    requires { 1 ≤ length path.now }
    ensures { result ≡ last_of (atoms_of path.now) }
{
    path[path.len() - 1].to
}

impl Path<'_> {
    // One more link.
    fn push(&mut self, link: Link) -> Result<(), AllocError>
        requires { link.to < length self.old.flags.items }
        ensures links { OnOk result (self.new.links.items ≡ self.old.links.items ++ link ∷ []) }
        ensures flags { OnOk result (self.new.flags.items ≡ slice_set self.old.flags.items link.to true) }
    {
        self.flags[usize::from(link.to)] = true;
        self.links.push(link)?;
        Ok(())
    }

    // True if the atom is new on the path, and near enough to the target for a cycle of at most `LONGEST` atoms.
    fn may_go_to(&self, atom: u16, distances: &[u8]) -> bool
        requires few { length self.now.links.items ≤ LONGEST }
        requires flagged { atom < length self.now.flags.items }
        requires in_range { atom < length distances.now }
        ensures { IsTrue result ↔ (length self.now.links.items + 1 + slice_index distances.now atom ≤ LONGEST)
            × (slice_index_or self.now.flags.items atom false ≡ false) }
    {
        let place = usize::from(atom);
        self.links.len() + 1 + usize::from(distances[place]) <= LONGEST && !self.flags[place]
    }
}

// True if there are at least `SHORTEST` atoms, whose electrons sum to 2 modulo 4.
fn is_huckel(gives: &[Option<u8>], path: &[Link]) -> bool
    requires few { length path.now ≤ LONGEST }
    requires in_range { All (λ l. l.to < length gives.now) path.now }
    ensures { IsTrue result
        ↔ (SHORTEST ≤ length path.now) × (sum_by (λ l. given_at gives.now l.to) path.now % 4 ≡ 2) }
{
    let mut total = 0;
    for link in path {
        total += u32::from(gives[usize::from(link.to)].unwrap_or(0));
    }
    path.len() >= SHORTEST && total % 4 == 2
}
