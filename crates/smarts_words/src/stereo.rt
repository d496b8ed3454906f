//! Configurations, which are read so that they can be refused.

ghost use Rattle.std.specs.Prelude.{◌≡◌, ◌≢◌, ℕ, Bool, false, List, ◌∷◌, ◌++◌, IfSome, IfNone, MatchOption};
ghost use Rattle.smiles_words.specs.Atom.{IsDigit, ChiralClass, class_bytes};
ghost use Rattle.smarts_words.specs.Prims.{Turn, Stereo, turn_text, mark_text, stereo_text, AreDigits, IsTurn, IsLongest};
ghost use Rattle.smarts_words.specs.Follow.{DigitsEnd, TurnEnds};

use smiles_words::is_digit;

/// The bytes after the configuration that they begin with, the longest; the `@` at its front is read already.
pub fn after_stereo(bytes: &[u8]) -> &[u8]
    ensures { (x : Stereo) × IsTurn x.turn × (64 ∷ bytes.now ≡ stereo_text x ++ result.now) × IsLongest x result.now }
{
    after_mark(after_turn(bytes))
}

// The bytes after a `?`, if they begin with one.
fn after_mark(bytes: &[u8]) -> &[u8]
    ensures { (unsure : Bool) × (bytes.now ≡ mark_text unsure ++ result.now)
        × (unsure ≡ false → (rest : List ℕ) → result.now ≢ 63 ∷ rest) }
{
    match bytes {
        [b'?', rest @ ..] => rest,
        _ => bytes,
    }
}

// The bytes after the second `@`, or after a class and its one or two digits, if they begin with these.
fn after_turn(bytes: &[u8]) -> &[u8]
    ensures { (turn : Turn) × IsTurn turn × (64 ∷ bytes.now ≡ turn_text turn ++ result.now) × TurnEnds turn result.now }
{
    if let [b'@', rest @ ..] = bytes {
        return rest;
    }
    let Some(rest) = after_class(bytes) else {
        return bytes;
    };
    match after_digits(rest) {
        Some(rest) => rest,
        None => bytes,
    }
}

// The bytes after the one or two digits that they begin with.
fn after_digits(bytes: &[u8]) -> Option<&[u8]>
    ensures found { IfSome result (λ rest. (digits : List ℕ) × AreDigits digits × (bytes.now ≡ digits ++ rest.now)
        × DigitsEnd digits rest.now) }
    ensures none { IfNone result ((digit : ℕ) (rest : List ℕ) → IsDigit digit → bytes.now ≢ digit ∷ rest) }
{
    let [first, rest @ ..] = bytes else {
        return None;
    };
    if !is_digit(*first) {
        return None;
    }
    let [second, left @ ..] = rest else {
        return Some(rest);
    };
    if !is_digit(*second) {
        return Some(rest);
    }
    Some(left)
}

// The bytes after the class of configurations that they begin with.
fn after_class(bytes: &[u8]) -> Option<&[u8]>
    ensures { MatchOption result ((kind : ChiralClass) (rest : List ℕ) → bytes.now ≢ class_bytes kind ++ rest)
        (λ rest. (kind : ChiralClass) × (bytes.now ≡ class_bytes kind ++ rest.now)) }
{
    match bytes {
        [b'T', b'H', rest @ ..]
        | [b'A', b'L', rest @ ..]
        | [b'S', b'P', rest @ ..]
        | [b'T', b'B', rest @ ..]
        | [b'O', b'H', rest @ ..] => Some(rest),
        _ => None,
    }
}
