//! Links between the candidates that ring bonds join.
ghost use Rattle.std.specs.Prelude.{◌≡◌, ◌<◌, ◌↔◌, ◌⊎◌, [], length, replicate, IfOk, IsTrue, OnOk, Contains, ℕ};
ghost use Rattle.chem_core.specs.Graph.{IsSimpleGraph};
ghost use Rattle.aromatic.specs.Links.{AreLinks, IsCandidateAt, IsNewLink, links_at, links_in};
ghost use Rattle.chem_core.specs.Sound.{ends_among};

use bumpalo::Bump;
use chem_core::SketchBond;
use smallvec::SmallVec;
use std::alloc::AllocError;

/// A link of an atom: the candidate that it leads to, and the ring bond that it follows.
#[derive(Clone, Copy, Default)]
pub struct Link {
    pub to: u16,
    pub bond: u16,
}

/// The links of an atom.
pub type Links<'a> = SmallVec<Link, 4, &'a Bump>;

/// Links between the candidates that ring bonds join. Fails only for want of memory.
pub fn links_between<'a>(
    arena: &'a Bump,
    bonds: &[SketchBond],
    bond_in_ring: &[bool],
    gives: &[Option<u8>],
) -> Result<Vec<Links<'a>, &'a Bump>, AllocError>
    requires graph { IsSimpleGraph (length gives.now) (ends_among bonds.now) }
    requires rings { length bond_in_ring.now ≡ length bonds.now }
    ensures { IfOk result (λ links. AreLinks (ends_among bonds.now) bond_in_ring.now gives.now
        (length bonds.now) (links_in links.items)) }
{
    let mut links = no_links(arena, gives.len())?;
    join_all(&mut links, bonds, bond_in_ring, gives)?;
    Ok(links)
}

/// True if both ends of a bond are candidates.
pub fn are_candidates(gives: &[Option<u8>], bond: SketchBond) -> bool
    requires a_in_range { bond.a < length gives.now }
    requires b_in_range { bond.b < length gives.now }
    ensures { IsTrue result ↔ IsCandidateAt gives.now bond.a × IsCandidateAt gives.now bond.b }
{
    gives[usize::from(bond.a)].is_some() && gives[usize::from(bond.b)].is_some()
}

/// The links of one atom.
pub fn links_of<'a>(links: &'a [Links<'_>], atom: u16) -> &'a [Link]
    requires { atom < length links.now }
    ensures { result.now ≡ links_at (links_in links.now) atom }
{
    links[usize::from(atom)].as_slice()
}

/// Takes a bond's links from its two ends.
pub fn unlink(links: &mut [Links<'_>], bond: SketchBond, place: u16)
    requires a_in_range { bond.a < length links.old }
    requires b_in_range { bond.b < length links.old }
    ensures { (a n b : ℕ) → Contains (links_at (links_in links.new) a) (record { to = n; bond = b })
        ↔ (Contains (links_at (links_in links.old) a) (record { to = n; bond = b })
        × (b ≡ place → (a ≡ bond.a) ⊎ (a ≡ bond.b) → ⊥)) }
{
    take(links, bond.a, place);
    take(links, bond.b, place);
}

fn join_all(
    links: &mut [Links<'_>],
    bonds: &[SketchBond],
    bond_in_ring: &[bool],
    gives: &[Option<u8>],
) -> Result<(), AllocError>
    requires graph { IsSimpleGraph (length gives.now) (ends_among bonds.now) }
    requires rings { length bond_in_ring.now ≡ length bonds.now }
    requires before { AreLinks (ends_among bonds.now) bond_in_ring.now gives.now 0
        (links_in links.old) }
    ensures { OnOk result (AreLinks (ends_among bonds.now) bond_in_ring.now gives.now
        (length bonds.now) (links_in links.new)) }
{
    for (place, bond) in bonds.iter().enumerate() {
        join(links, gives, *bond, place as u16, bond_in_ring[place])?;
    }
    Ok(())
}

fn no_links<'a>(arena: &'a Bump, count: usize) -> Result<Vec<Links<'a>, &'a Bump>, AllocError>
    ensures { IfOk result (λ links. links_in links.items ≡ replicate count []) }
{
    let mut links = Vec::with_capacity(arena, count)?;
    for _ in 0..count {
        links.push(SmallVec::new(arena))?;
    }
    Ok(links)
}

// Links the ends of a ring bond, if both are candidates.
fn join(
    links: &mut [Links<'_>],
    gives: &[Option<u8>],
    bond: SketchBond,
    place: u16,
    ring: bool,
) -> Result<(), AllocError>
    requires each { length gives.now ≡ length links.old }
    requires a_in_range { bond.a < length links.old }
    requires b_in_range { bond.b < length links.old }
    ensures { OnOk result ((a n b : ℕ) → Contains (links_at (links_in links.new) a) (record { to = n; bond = b })
        ↔ (Contains (links_at (links_in links.old) a) (record { to = n; bond = b })
        ⊎ IsNewLink gives.now place bond.a bond.b ring a n b)) }
{
    if ring && are_candidates(gives, bond) {
        let to_b = Link {
            to: bond.b,
            bond: place,
        };
        let to_a = Link {
            to: bond.a,
            bond: place,
        };
        add(links, bond.a, to_b)?;
        add(links, bond.b, to_a)?;
    }
    Ok(())
}

fn add(links: &mut [Links<'_>], from: u16, link: Link) -> Result<(), AllocError>
    requires { from < length links.old }
    ensures { OnOk result ((a n b : ℕ) → Contains (links_at (links_in links.new) a) (record { to = n; bond = b })
        ↔ (Contains (links_at (links_in links.old) a) (record { to = n; bond = b })
        ⊎ ((a ≡ from) × (n ≡ link.to) × (b ≡ link.bond)))) }
{
    links[usize::from(from)].push(link)?;
    Ok(())
}

// Takes the links by a bond from an atom.
fn take(links: &mut [Links<'_>], from: u16, place: u16)
    requires { from < length links.old }
    ensures { (a n b : ℕ) → Contains (links_at (links_in links.new) a) (record { to = n; bond = b })
        ↔ (Contains (links_at (links_in links.old) a) (record { to = n; bond = b })
        × (b ≡ place → a ≡ from → ⊥)) }
{
    links[usize::from(from)].retain(|link| link.bond != place);
}
