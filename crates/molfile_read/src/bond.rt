//! Bond lines.
ghost use Rattle.std.specs.Prelude.{◌≡◌, [], length, take, drop, IfSome, IfOk, IfErr, Ok};
ghost use Rattle.molfile_read.specs.Parts.{Faults, IsKind, JoinsTwo, AreBondsAmong, ordered_ends};
ghost use Rattle.molfile_read.specs.Bonds.{bond_line, bonds_read, kind_of_type, is_query_type, is_atom};

use crate::counts::Counts;
use crate::fault::MolfileFault;
use crate::field::{is_other_than_zero, number};
use crate::lines::Lines;
use bumpalo::Bump;
use chem_core::{SketchBond, SketchKind};
use std::alloc::Global;
use std::collections::HashSet;

/// Reads the next bond lines.
pub(crate) fn read_bonds(
    alloc: Global,
    arena: &Bump,
    lines: &mut Lines,
    counts: Counts,
) -> Result<Vec<SketchBond>, MolfileFault>
    ensures found { IfOk result (λ bonds.
        (bonds_read counts.atoms [] (take counts.bonds lines.old) ≡ Ok bonds.items)
        × (lines.new ≡ drop counts.bonds lines.old) × (length bonds.items ≡ counts.bonds)) }
    ensures sound { IfOk result (λ bonds. AreBondsAmong counts.atoms bonds.items) }
    ensures fault { IfErr result
        (Faults (bonds_read counts.atoms [] (take counts.bonds lines.old)) counts.bonds lines.old) }
{
    let mut bonds = Vec::with_capacity(alloc, usize::from(counts.bonds))?;
    let mut seen = HashSet::with_capacity(arena, usize::from(counts.bonds))?;
    for _ in 0..counts.bonds {
        let Some((at, line)) = lines.next() else {
            return Err(MolfileFault::Cut);
        };
        let bond = bond(at, line, counts.atoms)?;
        if !seen.insert(ends_of(&bond))? {
            return Err(MolfileFault::Bond(at));
        }
        bonds.push(bond)?;
    }
    Ok(bonds)
}

/// True if the number is that of one of `atoms` atoms, which count from 1.
pub(crate) fn is_atom(atoms: u16, number: u16) -> bool
    ensures { result ≡ is_atom atoms number }
{
    0 < number && number <= atoms
}

// Reads bond line `at` of a molfile with `atoms` atoms, without regard to other bonds.
#[tactic(auto, unfolding(crate::specs::Bonds::bond_line))]
fn bond(at: u32, line: &[u8], atoms: u16) -> Result<SketchBond, MolfileFault>
    ensures value { result ≡ bond_line atoms (at, line.now) }
    ensures range { IfOk result (JoinsTwo atoms) }
{
    let fault = MolfileFault::Columns(at);
    let kind = number(line, 7, 9, 999);
    let topology = number(line, 16, 18, 999);
    if is_query_type(kind) || is_other_than_zero(topology) {
        return Err(MolfileFault::Query(at));
    }
    let first = number(line, 1, 3, 999).ok_or(fault)?;
    let second = number(line, 4, 6, 999).ok_or(fault)?;
    let kind = kind.and_then(kind_of_type).ok_or(fault)?;
    topology.ok_or(fault)?;
    if !(is_atom(atoms, first) && is_atom(atoms, second) && first != second) {
        return Err(MolfileFault::Bond(at));
    }
    Ok(SketchBond {
        a: first - 1,
        b: second - 1,
        kind,
    })
}

// True if only queries use bonds of the type.
fn is_query_type(kind: Option<u16>) -> bool
    ensures { result ≡ is_query_type kind }
{
    match kind {
        Some(kind) => 4 <= kind && kind <= 8,
        None => false,
    }
}

// The kind of bond of a type.
fn kind_of_type(kind: u16) -> Option<SketchKind>
    ensures value { result ≡ kind_of_type kind }
    ensures range { IfSome result IsKind }
{
    match kind {
        1 => Some(SketchKind::Single),
        2 => Some(SketchKind::Double),
        3 => Some(SketchKind::Triple),
        _ => None,
    }
}

// The ends of a bond, the lower first.
fn ends_of(bond: &SketchBond) -> (u16, u16)
    ensures { result ≡ ordered_ends bond.now.a bond.now.b }
{
    if bond.a < bond.b {
        (bond.a, bond.b)
    } else {
        (bond.b, bond.a)
    }
}
