//! Numbers and signs.

ghost use Rattle.std.specs.Prelude.{◌≡◌, ◌≢◌, ◌⊎◌, ℕ, ◌<◌, ◌≤◌, ◌∷◌, ◌++◌, List, IfSome, IsSomeAnd, length, replicate, option_map};
ghost use Rattle.std.specs.List.{AllByRecursion};
ghost use Rattle.smiles_words.specs.Atom.{IsDigit, value_of, Sign, sign_byte, signed};
ghost use Rattle.smarts_words.specs.Prims.{IsNumber, NoDigit, number_of, Signs, signs_text, AreSigns, FollowsSigns, sign_of, charge_of, most_signs};
ghost use Rattle.smarts_words.specs.Follow.{Takes};

use smiles_words::{digits_at, digits_value};

// The most signs that a charge has; no text that is read has more.
const MOST_SIGNS: usize = 4096;

/// The number that the bytes begin with, if they begin with one, and the bytes after it; `None` if it has more than
/// three digits.
pub fn number_at(bytes: &[u8]) -> Option<(Option<u16>, &[u8])>
    ensures reads { Takes (λ (digits : List ℕ). digits) (λ digits. (length digits ≤ 3) × AllByRecursion IsDigit digits)
        (λ digits rest. NoDigit rest) number_of bytes.now (option_map (λ r. (r.0, r.1.now)) result) }
    ensures bound { IfSome result (λ r. IfSome r.0 (λ n. n ≤ 999)) }
{
    let (digits, rest) = digits_at(bytes);
    if digits.len() > 3 {
        return None;
    }
    if digits.is_empty() {
        return Some((None, rest));
    }
    Some((Some(digits_value(digits)), rest))
}

/// The number that the bytes begin with, and the bytes after it.
pub fn written_at(bytes: &[u8]) -> Option<(u16, &[u8])>
    ensures { Takes (λ (digits : List ℕ). digits) IsNumber (λ digits rest. NoDigit rest) value_of bytes.now
        (option_map (λ r. (r.0, r.1.now)) result) }
{
    match number_at(bytes) {
        Some((Some(number), rest)) => Some((number, rest)),
        _ => None,
    }
}

/// The charge that the bytes begin with, and the bytes after it; `None` if they begin with no sign, or a digit follows
/// several signs.
pub fn charge_at(bytes: &[u8]) -> Option<(i16, &[u8])>
    ensures { Takes signs_text AreSigns FollowsSigns charge_of bytes.now (option_map (λ r. (r.0, r.1.now)) result) }
{
    match bytes {
        [b'+', ..] => {
            let (amount, rest) = amount_at(bytes, b'+')?;
            Some((amount as i16, rest))
        }
        [b'-', ..] => {
            let (amount, rest) = amount_at(bytes, b'-')?;
            Some((-(amount as i16), rest))
        }
        _ => None,
    }
}

/// The bytes after the digits that the bytes begin with, at least one.
pub fn after_digits(bytes: &[u8]) -> Option<&[u8]>
    ensures found { IfSome result (λ rest. (digits : List ℕ) × (1 ≤ length digits) × AllByRecursion IsDigit digits
        × (bytes.now ≡ digits ++ rest.now)) }
    ensures only { (digits rest : List ℕ) → 1 ≤ length digits → AllByRecursion IsDigit digits → NoDigit rest
        → bytes.now ≡ digits ++ rest → IsSomeAnd result (λ r. r.now ≡ rest) }
{
    let (digits, rest) = digits_at(bytes);
    if digits.is_empty() {
        return None;
    }
    Some(rest)
}

/// The number of bytes at the front that are the sign, and the bytes after these.
pub fn run_at(bytes: &[u8], sign: u8) -> (usize, &[u8])
    ensures found { bytes.now ≡ replicate result.0 sign ++ result.1.now }
    ensures all { (rest : List ℕ) → result.1.now ≢ sign ∷ rest }
{
    let mut count = 0;
    let mut rest = bytes;
    while let [first, after @ ..] = rest
        && *first == sign
    {
        count += 1;
        rest = after;
    }
    (count, rest)
}

// The number of signs that the bytes begin with, or the number after one sign.
fn amount_at(bytes: &[u8], sign: u8) -> Option<(u16, &[u8])>
    ensures found { IfSome result (λ r. (s : Sign) → sign_byte s ≡ sign → (rest : List ℕ) → bytes.now ≡ sign ∷ rest
        → (x : Signs) × AreSigns x × (bytes.now ≡ signs_text x ++ r.1.now) × FollowsSigns x r.1.now
        × (signed s r.0 ≡ charge_of x)) }
    ensures few { IfSome result (λ r. r.0 ≤ most_signs) }
    ensures only { (x : Signs) (rest : List ℕ) → AreSigns x → FollowsSigns x rest → sign_of x ≡ sign
        → bytes.now ≡ signs_text x ++ rest → IsSomeAnd result (λ r. r.1.now ≡ rest) }
{
    let (count, after) = run_at(bytes, sign);
    let (number, rest) = number_at(after)?;
    match number {
        None if count <= MOST_SIGNS => Some((count as u16, rest)),
        Some(number) if count == 1 => Some((number, rest)),
        _ => None,
    }
}
