//! The atoms of a sketch, from atom lines and property lines.
ghost use Rattle.std.specs.Prelude.{◌≡◌, ◌<◌, ◌≤◌, ◌||◌, is_some, ℕ, None, Ok, length, slice_index_or, position, IfSome, IfOk, MatchResult};
ghost use Rattle.std.specs.List.{AllByRecursion};
ghost use Rattle.chem_core.specs.declared.limits.TheConstants.{MOST_ATOMS};
ghost use Rattle.molfile_read.specs.Properties.{sets_charges, sets_isotopes, last_set, charge_of, radical_of, isotope_of};
ghost use Rattle.molfile_read.specs.Reading.{field_charge, field_electrons, fill_of, made_atom, has_mass, sketch_atoms, masses_read};
ghost use Rattle.molfile_read.specs.Parts.{IsAtomLine, IsSetting, AreAtoms};

use crate::atom::AtomLine;
use crate::fault::MolfileFault;
use crate::setting::{Setting, Value};
use chem_core::{Fill, MOST_ATOMS, SketchAtom};
use std::alloc::{AllocError, Global};

// The last settings for each atom, by its place.
#[derive(Drop)]
struct Values {
    charges: [Option<i8>; MOST_ATOMS],
    radicals: [Option<u8>; MOST_ATOMS],
    isotopes: [Option<u16>; MOST_ATOMS],
}

/// Refuses the first atom with a mass difference, unless a line sets isotopes.
pub(crate) fn check_masses(atoms: &[AtomLine], settings: &[Setting]) -> Result<(), MolfileFault>
    requires { length atoms.now ≤ MOST_ATOMS }
    ensures { MatchResult result (λ _. masses_read atoms.now settings.now ≡ Ok tt)
        (λ e. masses_read atoms.now settings.now ≡ Err e) }
{
    if sets_isotopes(settings) {
        return Ok(());
    }
    match first_mass(atoms) {
        Some(place) => Err(MolfileFault::Columns(5 + place as u32)),
        None => Ok(()),
    }
}

/// The atoms, by their lines and their settings.
pub(crate) fn sketch_atoms(
    alloc: Global,
    atoms: &[AtomLine],
    settings: &[Setting],
) -> Result<Vec<SketchAtom>, AllocError>
    requires few { length atoms.now ≤ MOST_ATOMS }
    requires fields { AllByRecursion IsAtomLine atoms.now }
    requires settings { AllByRecursion (IsSetting (length atoms.now)) settings.now }
    ensures value { IfOk result (λ v. v.items ≡ sketch_atoms settings.now atoms.now) }
    ensures sound { IfOk result (λ v. AreAtoms v.items) }
    ensures len { IfOk result (λ v. length v.items ≡ length atoms.now) }
{
    let values = last_values(settings);
    let charged = sets_charges(settings);
    let mut made = Vec::with_capacity(alloc, atoms.len())?;
    for (place, atom) in atoms.iter().enumerate() {
        made.push(made_atom(place as u16, atom, charged, &values))?;
    }
    Ok(made)
}

// The place of the first atom with a mass difference.
fn first_mass(atoms: &[AtomLine]) -> Option<usize>
    ensures value { result ≡ position has_mass atoms.now }
    ensures range { IfSome result (λ place. place < length atoms.now) }
{
    atoms.iter().position(has_mass)
}

fn has_mass(atom: &AtomLine) -> bool
    ensures { result ≡ has_mass atom.now }
{
    atom.mass != 0
}

// True if a line sets isotopes.
fn sets_isotopes(settings: &[Setting]) -> bool
    ensures { result ≡ sets_isotopes settings.now }
{
    settings.iter().any(is_isotope)
}

fn is_isotope(setting: &Setting) -> bool
    ensures { result ≡ is_some (isotope_of setting.now.value) }
{
    matches!(setting.value, Value::Isotope(_))
}

// True if a line sets charges or radicals.
fn sets_charges(settings: &[Setting]) -> bool
    ensures { result ≡ sets_charges settings.now }
{
    settings.iter().any(is_charge)
}

fn is_charge(setting: &Setting) -> bool
    ensures { result
        ≡ (is_some (charge_of setting.now.value) || is_some (radical_of setting.now.value)) }
{
    matches!(setting.value, Value::Charge(_) | Value::Radical(_))
}

fn last_values(settings: &[Setting]) -> Values
    requires { AllByRecursion (IsSetting MOST_ATOMS) settings.now }
    ensures charges { (a : ℕ) → a < MOST_ATOMS
        → slice_index_or result.charges a None ≡ last_set charge_of a settings.now }
    ensures radicals { (a : ℕ) → a < MOST_ATOMS
        → slice_index_or result.radicals a None ≡ last_set radical_of a settings.now }
    ensures isotopes { (a : ℕ) → a < MOST_ATOMS
        → slice_index_or result.isotopes a None ≡ last_set isotope_of a settings.now }
{
    let mut charges = [None; MOST_ATOMS];
    let mut radicals = [None; MOST_ATOMS];
    let mut isotopes = [None; MOST_ATOMS];
    for setting in settings {
        let place = usize::from(setting.atom);
        match setting.value {
            Value::Charge(charge) => charges[place] = Some(charge),
            Value::Radical(electrons) => radicals[place] = Some(electrons),
            Value::Isotope(isotope) => isotopes[place] = Some(isotope),
        }
    }
    Values {
        charges,
        radicals,
        isotopes,
    }
}

// The atom at a place; `charged`: a line sets charges or radicals.
fn made_atom(place: u16, atom: &AtomLine, charged: bool, values: &Values) -> SketchAtom
    requires { place < MOST_ATOMS }
    ensures { result ≡ made_atom place atom.now charged (slice_index_or values.now.charges place None)
        (slice_index_or values.now.radicals place None) (slice_index_or values.now.isotopes place None) }
{
    let at = usize::from(place);
    let charge = if charged {
        values.charges[at].unwrap_or(0)
    } else {
        field_charge(atom.charge)
    };
    let electrons = if charged {
        values.radicals[at].unwrap_or(0)
    } else {
        field_electrons(atom.charge)
    };
    SketchAtom {
        number: atom.number,
        isotope: values.isotopes[at].unwrap_or(atom.isotope),
        charge,
        lower: false,
        fill: fill_of(atom.valence, electrons),
        hydrogens: 0,
        written: place,
    }
}

// The charge of a charge field.
fn field_charge(field: u8) -> i8
    ensures { result ≡ field_charge field }
{
    match field {
        1 => 3,
        2 => 2,
        3 => 1,
        5 => -1,
        6 => -2,
        7 => -3,
        _ => 0,
    }
}

// The radical electrons of a charge field: 4 is a doublet.
fn field_electrons(field: u8) -> u8
    ensures { result ≡ field_electrons field }
{
    u8::from(field == 4)
}

// The source of the hydrogens: a valence field of 0 says nothing, and one of 15 says 0.
fn fill_of(field: u8, radicals: u8) -> Fill
    ensures { result ≡ fill_of field radicals }
{
    match field {
        0 => Fill::Table { radicals },
        15 => Fill::Fixed { valence: 0 },
        valence => Fill::Fixed { valence },
    }
}
