//! Atom lines.
ghost use Rattle.std.specs.Prelude.{◌≡◌, length, take, drop, IfOk, IfErr, Ok};
ghost use Rattle.std.specs.List.{AllByRecursion};
ghost use Rattle.molfile_read.specs.Steps.{each};
ghost use Rattle.molfile_read.specs.Parts.{Faults, IsAtomLine};
ghost use Rattle.molfile_read.specs.Atoms.{atom_read};

use crate::fault::MolfileFault;
use crate::field::{columns, is_other_than_zero, number, signed_number, trimmed};
use crate::lines::Lines;
use crate::symbol::{element_of, is_query_symbol};
use bumpalo::Bump;

/// The fields of an atom line.
#[derive(Clone, Copy, Debug, PartialEq, Eq)]
pub(crate) struct AtomLine {
    /// The atomic number, at most 103.
    pub number: u8,
    /// The isotope of the symbol; 0 for most.
    pub isotope: u16,
    /// The mass difference.
    pub mass: i8,
    /// The charge field, at most 7.
    pub charge: u8,
    /// The valence field, at most 15.
    pub valence: u8,
}

/// Reads the next `count` atom lines.
pub(crate) fn read_atoms<'a>(
    arena: &'a Bump,
    lines: &mut Lines,
    count: u16,
) -> Result<Vec<AtomLine, &'a Bump>, MolfileFault>
    ensures found { IfOk result (λ atoms.
        (each atom_read (take count lines.old) ≡ Ok atoms.items)
        × (lines.new ≡ drop count lines.old) × (length atoms.items ≡ count)) }
    ensures range { IfOk result (λ atoms. AllByRecursion IsAtomLine atoms.items) }
    ensures fault { IfErr result (Faults (each atom_read (take count lines.old)) count lines.old) }
{
    let mut atoms = Vec::with_capacity(arena, usize::from(count))?;
    for _ in 0..count {
        let Some((at, line)) = lines.next() else {
            return Err(MolfileFault::Cut);
        };
        atoms.push(atom(at, line)?)?;
    }
    Ok(atoms)
}

/// Reads atom line `at`.
#[tactic(auto, unfolding(crate::specs::Atoms::atom_read))]
pub(crate) fn atom(at: u32, line: &[u8]) -> Result<AtomLine, MolfileFault>
    ensures value { result ≡ atom_read (at, line.now) }
    ensures range { IfOk result IsAtomLine }
{
    let fault = MolfileFault::Columns(at);
    let symbol = trimmed(columns(line, 32, 34));
    let hydrogens = number(line, 43, 45, 999);
    if is_query_symbol(symbol) || is_other_than_zero(hydrogens) {
        return Err(MolfileFault::Query(at));
    }
    let (element, isotope) = element_of(symbol).ok_or(fault)?;
    let mass = signed_number(line, 35, 36, 99).ok_or(fault)?;
    let charge = number(line, 37, 39, 7).ok_or(fault)?;
    hydrogens.ok_or(fault)?;
    let valence = number(line, 49, 51, 15).ok_or(fault)?;
    Ok(AtomLine {
        number: element,
        isotope,
        mass,
        charge: charge as u8,
        valence: valence as u8,
    })
}
