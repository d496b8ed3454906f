//! The contents of brackets (OpenSMILES 1.0, section 3.1).

ghost use Rattle.std.specs.Prelude.{◌≡◌, ◌≢◌, ℕ, ◌<◌, ◌≤◌, List, ◌∷◌, ◌++◌, replicate, IfSome, Some, MatchOption, option_map};
ghost use Rattle.std.specs.Fmt.{decimal};
ghost use Rattle.line_walk.specs.Follow.{Reads, Anything};
ghost use Rattle.smiles_words.specs.Atom.{ChiralClass, class_bytes, most_of, chiral_text, IsChiral, hydrogens_text, Sign, sign_byte, signed, charge_text, charge_value, IsCharge, class_text, IsClass, bracket_text, IsBracket, bracket_atom};
ghost use Rattle.smiles_words.specs.Parts.{dropped, IsUpTo, written_hydrogens, AreFew, front_text, IsFront, front_of, end_text, IsEnd, end_of};
ghost use Rattle.smiles_words.specs.Follow.{NoDigitFirst, AfterChiral, AfterHydrogens, AfterCharge, AfterClass};

use crate::digit::{digits_at, digits_value, short_number};
use crate::symbol::symbol_at;
use chem_core::{Fill, SketchAtom};

// The front of a bracket.
#[derive(Clone, Copy)]
struct Front {
    // 0 if it is not written.
    isotope: u16,
    number: u8,
    // True if the symbol is written in lower case.
    lower: bool,
}

// The end of a bracket.
#[derive(Clone, Copy)]
struct End {
    // `None` if no count is written.
    hydrogens: Option<u8>,
    charge: i8,
}

/// The atom whose bracket, after `[`, the bytes begin with, and the bytes after it.
pub fn bracket_at(bytes: &[u8]) -> Option<(SketchAtom, &[u8])>
    ensures { Reads bracket_text IsBracket bracket_atom Anything (91 ∷ bytes.now)
        (option_map (λ r. (r.0, r.1.now)) result) }
{
    let (front, rest) = front_at(bytes)?;
    let (end, rest) = end_at(rest)?;
    if front.number == 1 && end.hydrogens.is_some() {
        return None;
    }
    let atom = SketchAtom {
        number: front.number,
        isotope: front.isotope,
        charge: end.charge,
        lower: front.lower,
        fill: Fill::Given,
        hydrogens: end.hydrogens.unwrap_or(0),
        written: 0,
    };
    Some((atom, rest))
}

// The front of a bracket after `[`: isotope, symbol and chirality mark. Then the bytes after it.
fn front_at(bytes: &[u8]) -> Option<(Front, &[u8])>
    ensures { Reads front_text IsFront front_of AfterChiral bytes.now
        (option_map (λ r. (r.0, r.1.now)) result) }
{
    let (digits, rest) = digits_at(bytes);
    if digits.len() > 3 {
        return None;
    }
    let ((number, lower), rest) = symbol_at(rest)?;
    let rest = after_chiral(rest)?;
    let front = Front {
        isotope: digits_value(digits),
        number,
        lower,
    };
    Some((front, rest))
}

// The bytes after the chirality mark that the bytes begin with, if they begin with one. `None` if its number is out of
// range.
fn after_chiral(bytes: &[u8]) -> Option<&[u8]>
    ensures { Reads chiral_text IsChiral dropped AfterChiral bytes.now
        (option_map (λ r. (tt, r.now)) result) }
{
    let [b'@', rest @ ..] = bytes else {
        return Some(bytes);
    };
    if let [b'@', rest @ ..] = rest {
        return Some(rest);
    }
    match chiral_class_at(rest) {
        Some((most, rest)) => after_number(rest, most),
        None => Some(rest),
    }
}

// The greatest number of the class of chirality that the bytes begin with, and the bytes after the class.
fn chiral_class_at(bytes: &[u8]) -> Option<(u8, &[u8])>
    ensures { MatchOption result ((kind : ChiralClass) (rest : List ℕ) → bytes.now ≢ class_bytes kind ++ rest)
        (λ r. (kind : ChiralClass) × (bytes.now ≡ class_bytes kind ++ r.1.now) × (r.0 ≡ most_of kind)) }
{
    match bytes {
        [b'T', b'H', rest @ ..] | [b'A', b'L', rest @ ..] => Some((2, rest)),
        [b'S', b'P', rest @ ..] => Some((3, rest)),
        [b'T', b'B', rest @ ..] => Some((20, rest)),
        [b'O', b'H', rest @ ..] => Some((30, rest)),
        _ => None,
    }
}

// The bytes after the number that they begin with, if that is 1 to `most`, without a leading 0.
fn after_number(bytes: &[u8], most: u8) -> Option<&[u8]>
    requires { most ≤ 99 }
    ensures { Reads decimal (IsUpTo most) dropped NoDigitFirst bytes.now
        (option_map (λ r. (tt, r.now)) result) }
{
    let (digits, rest) = digits_at(bytes);
    let number = short_number(digits)?;
    if number == 0 || number > most {
        return None;
    }
    Some(rest)
}

// The end of a bracket, with `]`, and the bytes after it.
fn end_at(bytes: &[u8]) -> Option<(End, &[u8])>
    ensures { Reads end_text IsEnd end_of Anything bytes.now
        (option_map (λ r. (r.0, r.1.now)) result) }
{
    let (hydrogens, rest) = hydrogens_at(bytes);
    let (charge, rest) = charge_at(rest)?;
    let [b']', rest @ ..] = after_class(rest)? else {
        return None;
    };
    Some((End { hydrogens, charge }, rest))
}

// The count of hydrogens that the bytes begin with, if they begin with one, and the bytes after it.
fn hydrogens_at(bytes: &[u8]) -> (Option<u8>, &[u8])
    ensures { Reads hydrogens_text AreFew written_hydrogens AfterHydrogens bytes.now
        (Some (result.0, result.1.now)) }
{
    match bytes {
        [b'H', count, rest @ ..] if *count >= b'0' && *count <= b'9' => {
            (Some(*count - b'0'), rest)
        }
        [b'H', rest @ ..] => (Some(1), rest),
        _ => (None, bytes),
    }
}

// The charge that the bytes begin with, 0 without one, and the bytes after it. `None` if it is out of range.
fn charge_at(bytes: &[u8]) -> Option<(i8, &[u8])>
    ensures { Reads charge_text IsCharge charge_value AfterCharge bytes.now
        (option_map (λ r. (r.0, r.1.now)) result) }
{
    match bytes {
        [b'+', rest @ ..] => {
            let (amount, rest) = amount_at(rest, b'+')?;
            Some((amount as i8, rest))
        }
        [b'-', rest @ ..] => {
            let (amount, rest) = amount_at(rest, b'-')?;
            Some((-(amount as i8), rest))
        }
        _ => Some((0, bytes)),
    }
}

// The amount of a charge whose first sign precedes the bytes: digits, or more of that sign. Then the bytes after it.
fn amount_at(bytes: &[u8], sign: u8) -> Option<(u8, &[u8])>
    ensures reads { (s : Sign) → sign_byte s ≡ sign → Reads charge_text IsCharge charge_value AfterCharge
        (sign ∷ bytes.now) (option_map (λ r. (signed s r.0, r.1.now)) result) }
    ensures few { IfSome result (λ r. r.0 ≤ 15) }
{
    let (digits, rest) = digits_at(bytes);
    if digits.is_empty() {
        let (more, rest) = run_at(bytes, sign);
        if more > 14 {
            return None;
        }
        return Some((more + 1, rest));
    }
    if digits.len() > 2 {
        return None;
    }
    let amount = digits_value(digits);
    if amount > 15 {
        return None;
    }
    Some((amount as u8, rest))
}

// The length of the run of `sign` at the front, at most 15, and the bytes after it.
fn run_at(bytes: &[u8], sign: u8) -> (u8, &[u8])
    ensures found { bytes.now ≡ replicate result.0 sign ++ result.1.now }
    ensures few { result.0 ≤ 15 }
    ensures all { result.0 < 15 → (rest : List ℕ) → result.1.now ≢ sign ∷ rest }
{
    let mut count = 0;
    let mut rest = bytes;
    while count < 15
        && let [first, after @ ..] = rest
        && *first == sign
    {
        count += 1;
        rest = after;
    }
    (count, rest)
}

// The bytes after the class that the bytes begin with, if they begin with one. `None` if it has no digit.
fn after_class(bytes: &[u8]) -> Option<&[u8]>
    ensures { Reads class_text IsClass dropped AfterClass bytes.now
        (option_map (λ r. (tt, r.now)) result) }
{
    let [b':', rest @ ..] = bytes else {
        return Some(bytes);
    };
    let (digits, rest) = digits_at(rest);
    if digits.is_empty() {
        return None;
    }
    Some(rest)
}
