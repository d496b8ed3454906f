//! Atoms (OpenSMILES 1.0, section 3.1).

ghost use Rattle.std.specs.Prelude.{◌≡◌, ◌≢◌, [], ◌∷◌, MatchOption, option_map};
ghost use Rattle.chem_core.specs.Organic.{Organic, symbol_bytes, atomic_number};
ghost use Rattle.line_walk.specs.Follow.{Reads, AfterAtom};
ghost use Rattle.smiles_words.specs.Atom.{atom_text, IsAtomText, bare_atom, atom_of};
ghost use Rattle.smiles_words.specs.Parts.{IsAny, IsOrganic};
ghost use Rattle.smiles_words.specs.Words.{smiles_words};

use crate::bracket::bracket_at;
use crate::symbol::lower_letter_at;
use chem_core::{Fill, SketchAtom};

/// The atom that the bytes begin with, the longest, and the bytes after it. It is read as the first one of its text.
pub fn atom_at(bytes: &[u8]) -> Option<(SketchAtom, &[u8])>
    ensures { Reads atom_text IsAtomText atom_of (AfterAtom smiles_words) bytes.now
        (option_map (λ r. (r.0, r.1.now)) result) }
{
    match bytes {
        [b'[', rest @ ..] => bracket_at(rest),
        [b'*', rest @ ..] => Some((bare(0, false, Fill::Given), rest)),
        _ => organic_at(bytes),
    }
}

/// The atomic number of the element of the organic subset whose symbol is the one letter (OpenSMILES 1.0, section
/// 3.1.5).
pub fn organic_number(byte: u8) -> Option<u8>
    ensures { MatchOption result ((x : Organic) → symbol_bytes x ≢ byte ∷ [])
        (λ number. (x : Organic) × (symbol_bytes x ≡ byte ∷ []) × (number ≡ atomic_number x)) }
{
    match byte {
        b'C' => Some(6),
        b'N' => Some(7),
        b'O' => Some(8),
        b'S' => Some(16),
        b'F' => Some(9),
        b'P' => Some(15),
        b'I' => Some(53),
        b'B' => Some(5),
        _ => None,
    }
}

// The atom of the organic subset that the bytes begin with, and the bytes after it.
fn organic_at(bytes: &[u8]) -> Option<(SketchAtom, &[u8])>
    ensures { Reads atom_text IsOrganic atom_of (AfterAtom smiles_words) bytes.now
        (option_map (λ r. (r.0, r.1.now)) result) }
{
    match upper_at(bytes) {
        Some((number, rest)) => Some((bare(number, false, Fill::Organic), rest)),
        None => {
            let (number, rest) = lower_letter_at(bytes)?;
            Some((bare(number, true, Fill::Organic), rest))
        }
    }
}

// The element of the organic subset whose symbol the bytes begin with, and the bytes after it.
fn upper_at(bytes: &[u8]) -> Option<(u8, &[u8])>
    ensures { Reads symbol_bytes IsAny atomic_number (AfterAtom smiles_words) bytes.now
        (option_map (λ r. (r.0, r.1.now)) result) }
{
    match bytes {
        [b'C', b'l', rest @ ..] => Some((17, rest)),
        [b'B', b'r', rest @ ..] => Some((35, rest)),
        [first, rest @ ..] => {
            let number = organic_number(*first)?;
            Some((number, rest))
        }
        [] => None,
    }
}

// The atom without brackets.
fn bare(number: u8, lower: bool, fill: Fill) -> SketchAtom
    ensures { result ≡ bare_atom number lower fill }
{
    SketchAtom {
        number,
        isotope: 0,
        charge: 0,
        lower,
        fill,
        hydrogens: 0,
        written: 0,
    }
}
