//! Symbols in brackets, and those in lower case that are also written without, as the one-letter ones of SMARTS are.

ghost use Rattle.std.specs.Prelude.{◌≡◌, ◌≢◌, ℕ, List, ◌∷◌, [], ◌≤◌, IfSome, IfNone, Some, MatchOption, slice_get, option_map};
ghost use Rattle.chem_core.specs.Element.{symbols};
ghost use Rattle.line_walk.specs.Follow.{Reads, Anything};
ghost use Rattle.smiles_words.specs.Atom.{Lower, lower_bytes, lower_number, IsOrganicLower, symbol_text, IsSymbol};
ghost use Rattle.smiles_words.specs.Parts.{IsAny, element_text, IsElement, element_number, symbol_value};
ghost use Rattle.smiles_words.specs.Follow.{AfterSymbol};

use chem_core::number_of;

/// The number of the symbol that the bytes begin with, the longest, and whether it is in lower case. Then the bytes
/// after it.
pub fn symbol_at(bytes: &[u8]) -> Option<((u8, bool), &[u8])>
    ensures { Reads symbol_text IsSymbol symbol_value AfterSymbol bytes.now
        (option_map (λ r. (r.0, r.1.now)) result) }
{
    match lower_at(bytes) {
        Some((number, rest)) => Some(((number, true), rest)),
        None => {
            let (number, rest) = element_at(bytes)?;
            Some(((number, false), rest))
        }
    }
}

/// The number of the symbol of one letter in lower case that the bytes begin with, and the bytes after it.
pub fn lower_letter_at(bytes: &[u8]) -> Option<(u8, &[u8])>
    ensures { Reads lower_bytes IsOrganicLower lower_number Anything bytes.now
        (option_map (λ r. (r.0, r.1.now)) result) }
{
    let [first, rest @ ..] = bytes else {
        return None;
    };
    let number = lower_letter_number(*first)?;
    Some((number, rest))
}

/// The atomic number of the symbol of one letter in lower case that the byte is (OpenSMILES 1.0, section 3.5).
pub fn lower_letter_number(byte: u8) -> Option<u8>
    ensures { MatchOption result ((l : Lower) → IsOrganicLower l → lower_bytes l ≢ byte ∷ [])
        (λ number. (l : Lower) × IsOrganicLower l × (lower_bytes l ≡ byte ∷ []) × (number ≡ lower_number l)) }
{
    match byte {
        b'b' => Some(5),
        b'c' => Some(6),
        b'n' => Some(7),
        b'o' => Some(8),
        b'p' => Some(15),
        b's' => Some(16),
        _ => None,
    }
}

// The number of a symbol in lower case that the bytes begin with, the longest, and the bytes after it.
fn lower_at(bytes: &[u8]) -> Option<(u8, &[u8])>
    ensures { Reads lower_bytes IsAny lower_number AfterSymbol bytes.now
        (option_map (λ r. (r.0, r.1.now)) result) }
{
    match bytes {
        [b's', b'e', rest @ ..] => Some((34, rest)),
        [b'a', b's', rest @ ..] => Some((33, rest)),
        _ => lower_letter_at(bytes),
    }
}

// The element whose symbol the bytes begin with, the longest, or 0 for `*`, and the bytes after it.
fn element_at(bytes: &[u8]) -> Option<(u8, &[u8])>
    ensures { Reads element_text IsElement element_number AfterSymbol bytes.now
        (option_map (λ r. (r.0, r.1.now)) result) }
{
    match two_letters_at(bytes) {
        Some((number, rest)) => Some((number, rest)),
        None => {
            let (number, rest) = one_letter_at(bytes)?;
            Some((number, rest))
        }
    }
}

// The element whose symbol of two letters the bytes begin with, and the bytes after it.
fn two_letters_at(bytes: &[u8]) -> Option<(u8, &[u8])>
    ensures found { IfSome result (λ r. (a b : ℕ) × (slice_get symbols r.0 ≡ Some (a ∷ b ∷ []))
        × (bytes.now ≡ a ∷ b ∷ r.1.now)) }
    ensures range { IfSome result (λ r. r.0 ≤ 103) }
    ensures none { IfNone result ((a b n : ℕ) (rest : List ℕ) → bytes.now ≡ a ∷ b ∷ rest
        → slice_get symbols n ≢ Some (a ∷ b ∷ [])) }
{
    let [first, second, rest @ ..] = bytes else {
        return None;
    };
    // The second letter is in lower case: most symbols in brackets are of one letter, and need no look into the table.
    if *second < b'a' {
        return None;
    }
    let number = number_of(&[*first, *second])?;
    Some((number, rest))
}

// The element whose symbol of one letter the bytes begin with, or 0 for `*`, and the bytes after it.
fn one_letter_at(bytes: &[u8]) -> Option<(u8, &[u8])>
    ensures found { IfSome result (λ r. (a : ℕ) × (slice_get symbols r.0 ≡ Some (a ∷ [])) × (bytes.now ≡ a ∷ r.1.now)) }
    ensures range { IfSome result (λ r. r.0 ≤ 103) }
    ensures none { IfNone result ((a n : ℕ) (rest : List ℕ) → bytes.now ≡ a ∷ rest
        → slice_get symbols n ≢ Some (a ∷ [])) }
{
    let [first, rest @ ..] = bytes else {
        return None;
    };
    let number = number_of(&[*first])?;
    Some((number, rest))
}
