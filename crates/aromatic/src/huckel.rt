//! The bonds and atoms of a sketch that lie on Hückel cycles.
//!
//! Each bond is searched in turn. If a Hückel cycle goes through it, all bonds of the cycle are marked. Otherwise the
//! bond is ruled out, so that no later search goes over it.
ghost use Rattle.std.specs.Prelude.{◌≡◌, ◌<◌, ◌+◌, ◌↔◌, ◌⊎◌, List, Option, length, map, replicate, option_map, slice_index_or, slice_set, All, Contains, IfOk, OnOk, ℕ, true, false};
ghost use Rattle.chem_core.specs.Graph.{IsSimpleGraph};
ghost use Rattle.chem_core.specs.RingFacts.{AreRingBonds};
ghost use Rattle.chem_core.specs.Sound.{IsSound, ends_among};
ghost use Rattle.aromatic.specs.Links.{links_in};
ghost use Rattle.aromatic.specs.Route.{AreAromaticAtoms, AreAromaticBonds, AreMarksBelow, AreRows, IsAromaticBy, IsBlank, IsMarkedEnd, IsNet};

use crate::cycle::{Scratch, closes};
use crate::links::{Link, Links, are_candidates, links_between, unlink};
use crate::table::Row;
use bumpalo::Bump;
use chem_core::{SketchAtom, SketchBond};
use std::alloc::AllocError;

// The data that the searches share.
#[derive(Drop)]
struct Search<'a> {
    // For each bond, true if a search may go over it. Each bond on a Hückel cycle is possible.
    possible: Vec<bool, &'a Bump>,
    // The links by possible bonds.
    links: Vec<Links<'a>, &'a Bump>,
    scratch: Scratch<'a>,
}

/// The bonds that lie on a Hückel cycle.
pub fn find_bonds<'a>(
    arena: &'a Bump,
    atoms: &[SketchAtom],
    bonds: &[SketchBond],
    bond_in_ring: &[bool],
    rows: &[Option<Row>],
) -> Result<Vec<bool, &'a Bump>, AllocError>
    requires sound { IsSound (record { atoms = atoms.now; bonds = bonds.now }) }
    requires rings { AreRingBonds (ends_among bonds.now) bond_in_ring.now }
    requires rows { AreRows (record { atoms = atoms.now; bonds = bonds.now }) bond_in_ring.now rows.now }
    ensures { IfOk result (λ marks. AreAromaticBonds (record { atoms = atoms.now; bonds = bonds.now })
        bond_in_ring.now marks.items) }
{
    let gives = electrons_of(arena, rows)?;
    let links = links_between(arena, bonds, bond_in_ring, &gives)?;
    let marks = aromatic_bonds(arena, bonds, bond_in_ring, &gives, links)?;
    Ok(marks)
}

/// The atoms that lie on a Hückel cycle.
pub fn find_atoms<'a>(
    arena: &'a Bump,
    atoms: &[SketchAtom],
    bonds: &[SketchBond],
    bond_in_ring: &[bool],
    marks: &[bool],
) -> Result<Vec<bool, &'a Bump>, AllocError>
    requires sound { IsSound (record { atoms = atoms.now; bonds = bonds.now }) }
    requires marks { AreAromaticBonds (record { atoms = atoms.now; bonds = bonds.now }) bond_in_ring.now marks.now }
    ensures { IfOk result (λ flags. AreAromaticAtoms (record { atoms = atoms.now; bonds = bonds.now })
        bond_in_ring.now flags.items) }
{
    let flags = ends_of_marked(arena, atoms.len(), bonds, marks)?;
    Ok(flags)
}

// The electrons that each atom gives, by its row.
fn electrons_of<'a>(
    arena: &'a Bump,
    rows: &[Option<Row>],
) -> Result<Vec<Option<u8>, &'a Bump>, AllocError>
    ensures { IfOk result (λ gives. gives.items
        ≡ map (λ row. option_map (λ r. r.electrons) row) rows.now) }
{
    rows.iter()
        .map(|row| row.map(|row| row.electrons))
        .collect(arena)
}

// Marks the bonds that lie on a Hückel cycle.
fn aromatic_bonds<'a>(
    arena: &'a Bump,
    bonds: &[SketchBond],
    bond_in_ring: &[bool],
    gives: &[Option<u8>],
    links: Vec<Links<'a>, &'a Bump>,
) -> Result<Vec<bool, &'a Bump>, AllocError>
    requires net { IsNet (ends_among bonds.now) bond_in_ring.now gives.now (links_in links.items) }
    ensures { IfOk result (λ marks. AreMarksBelow (ends_among bonds.now) gives.now (length bonds.now) marks.items) }
{
    let mut search = Search {
        possible: bond_in_ring.to_vec(arena)?,
        links,
        scratch: Scratch::new(arena, gives.len())?,
    };
    let mut marks = vec![in arena; false; bonds.len()]?;
    mark_each(bonds, gives, &mut search, &mut marks)?;
    Ok(marks)
}

// Searches from each bond in turn.
fn mark_each(
    bonds: &[SketchBond],
    gives: &[Option<u8>],
    search: &mut Search<'_>,
    marks: &mut [bool],
) -> Result<(), AllocError>
    requires net { IsNet (ends_among bonds.now) search.old.possible.items gives.now (links_in search.old.links.items) }
    requires blank { IsBlank (length gives.now) search.old.scratch }
    requires marks { AreMarksBelow (ends_among bonds.now) gives.now 0 marks.old }
    ensures { OnOk result (AreMarksBelow (ends_among bonds.now) gives.now (length bonds.now) marks.new) }
{
    for place in 0..bonds.len() {
        mark_through(bonds, gives, place, search, marks)?;
    }
    Ok(())
}

// Marks the bonds of a Hückel cycle through a bond, if there is one and the bond is not marked yet. If there is none,
// the bond is ruled out: no later search goes over it.
fn mark_through(
    bonds: &[SketchBond],
    gives: &[Option<u8>],
    place: usize,
    search: &mut Search<'_>,
    marks: &mut [bool],
) -> Result<(), AllocError>
    requires net { IsNet (ends_among bonds.now) search.old.possible.items gives.now (links_in search.old.links.items) }
    requires place { place < length bonds.now }
    requires blank { IsBlank (length gives.now) search.old.scratch }
    requires marks { AreMarksBelow (ends_among bonds.now) gives.now place marks.old }
    ensures net { OnOk result (IsNet (ends_among bonds.now) search.new.possible.items gives.now
        (links_in search.new.links.items)) }
    ensures marks { OnOk result (AreMarksBelow (ends_among bonds.now) gives.now (place + 1) marks.new) }
    ensures blank { OnOk result (IsBlank (length gives.now) search.new.scratch) }
{
    let bond = bonds[place];
    if !search.possible[place] || !are_candidates(gives, bond) || marks[place] {
        return Ok(());
    }
    let first = Link {
        to: bond.a,
        bond: place as u16,
    };
    if closes(&search.links, gives, first, bond.b, &mut search.scratch)? {
        mark_path(marks, &search.scratch.path.links);
    } else {
        rule_out(bonds, place, &mut search.possible, &mut search.links);
    }
    Ok(())
}

// Rules out a bond that lies on no Hückel cycle.
fn rule_out(bonds: &[SketchBond], place: usize, possible: &mut [bool], links: &mut [Links<'_>])
    requires place { place < length bonds.now }
    requires each { length possible.old ≡ length bonds.now }
    requires graph { IsSimpleGraph (length links.old) (ends_among bonds.now) }
    ensures ruled_out { possible.new ≡ slice_set possible.old place false }
    ensures net { (gives : List (Option ℕ)) → IsNet (ends_among bonds.now) possible.old gives (links_in links.old)
        → (IsAromaticBy (ends_among bonds.now) gives place → ⊥)
        → IsNet (ends_among bonds.now) possible.new gives (links_in links.new) }
{
    possible[place] = false;
    unlink(links, bonds[place], place as u16);
}

// Marks the bonds of a path.
fn mark_path(marks: &mut [bool], path: &[Link])
    requires { All (λ l. l.bond < length marks.old) path.now }
    ensures { (b : ℕ) → (slice_index_or marks.new b false ≡ true)
        ↔ ((slice_index_or marks.old b false ≡ true) ⊎ Contains (map (λ l. l.bond) path.now) b) }
{
    for link in path {
        marks[usize::from(link.bond)] = true;
    }
}

// The atoms that are ends of these bonds.
fn ends_of_marked<'a>(
    arena: &'a Bump,
    count: usize,
    bonds: &[SketchBond],
    marks: &[bool],
) -> Result<Vec<bool, &'a Bump>, AllocError>
    requires graph { IsSimpleGraph count (ends_among bonds.now) }
    requires each { length marks.now ≡ length bonds.now }
    ensures count { IfOk result (λ flags. length flags.items ≡ count) }
    ensures each { IfOk result (λ flags. (a : ℕ) → (slice_index_or flags.items a false ≡ true)
        ↔ IsMarkedEnd (ends_among bonds.now) marks.now (length bonds.now) a) }
{
    let mut flags = vec![in arena; false; count]?;
    mark_all(&mut flags, bonds, marks);
    Ok(flags)
}

fn mark_all(flags: &mut [bool], bonds: &[SketchBond], marks: &[bool])
    requires graph { IsSimpleGraph (length flags.old) (ends_among bonds.now) }
    requires each { length marks.now ≡ length bonds.now }
    requires none { flags.old ≡ replicate (length flags.old) false }
    ensures { (a : ℕ) → (slice_index_or flags.new a false ≡ true)
        ↔ IsMarkedEnd (ends_among bonds.now) marks.now (length bonds.now) a }
{
    for (place, bond) in bonds.iter().enumerate() {
        if marks[place] {
            flags[usize::from(bond.a)] = true;
            flags[usize::from(bond.b)] = true;
        }
    }
}
