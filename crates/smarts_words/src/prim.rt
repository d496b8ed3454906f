//! Primitives of atoms.

ghost use Rattle.std.specs.Prelude.{◌≡◌, ℕ, ◌+◌, ◌^◌, ◌<◌, ◌≤◌, ◌↔◌, List, [], ◌∷◌, ◌++◌, length, None, Some, IfSome, IfNone, IsSomeAnd, option_map};
ghost use Rattle.std.specs.Option.{option_to_list};
ghost use Rattle.smarts_words.specs.Prims.{Prim, prim_text, IsPrim, FollowsPrim, word_of, part_of, IsBalancedIn, signs_text, AreSigns, FollowsSigns, charge_of};
ghost use Rattle.smarts_words.specs.declared.word.AtomWord.TheVariants as words;
ghost use Rattle.smarts_words.specs.Follow.{Takes, IsWord, IsLettered, IsCountAt, PrimAt};

use crate::number::{charge_at, number_at, written_at};
use crate::stereo::after_stereo;
use crate::symbol::{letter_of, one_letter, two_letters_at};
use crate::word::{AtomWord, Letter};
use smiles_words::is_digit;

/// A primitive, and the text of the recursive part that it is.
#[derive(Clone, Copy)]
pub struct Found<'a> {
    pub word: AtomWord,
    pub part: Option<&'a [u8]>,
}

/// The primitive that the bytes begin with, and the bytes after it.
pub fn prim_at(bytes: &[u8]) -> Option<(Found, &[u8])>
    ensures reads { PrimAt bytes.now
        (option_map (λ r. ((r.0.word, option_to_list (option_map (λ p. p.now) r.0.part)), r.1.now)) result) }
    ensures shorter { IfSome result (λ r. length r.1.now < length bytes.now) }
{
    match bytes {
        [b'$', b'(', rest @ ..] => {
            let (part, rest) = part_at(rest)?;
            Some((recursive(part), rest))
        }
        _ => {
            let (word, rest) = word_at(bytes)?;
            Some((plain(word), rest))
        }
    }
}

// A recursive part.
fn recursive(part: &[u8]) -> Found
    ensures { (result.word ≡ words.Part) × (option_map (λ p. p.now) result.part ≡ Some part.now) }
{
    Found {
        word: AtomWord::Part,
        part: Some(part),
    }
}

// A primitive without a text of its own.
fn plain<'a>(word: AtomWord) -> Found<'a>
    ensures { (result.word ≡ word) × (result.part ≡ None) }
{
    Found { word, part: None }
}

// The primitive that the bytes begin with, if it is not a recursive part.
fn word_at(bytes: &[u8]) -> Option<(AtomWord, &[u8])>
    ensures { Takes prim_text (λ x. IsPrim x × IsWord x) FollowsPrim word_of bytes.now
        (option_map (λ r. (r.0, r.1.now)) result) }
{
    match bytes {
        [b'@', rest @ ..] => Some((AtomWord::Stereo, after_stereo(rest))),
        [b'#', rest @ ..] => {
            let (number, rest) = written_at(rest)?;
            Some((AtomWord::Number(number), rest))
        }
        [b'+', ..] => signs_at(bytes),
        [b'-', ..] => signs_at(bytes),
        [first, ..] if is_digit(*first) => {
            let (number, rest) = written_at(bytes)?;
            Some((AtomWord::Mass(number), rest))
        }
        _ => letters_at(bytes),
    }
}

// The charge that the bytes begin with.
fn signs_at(bytes: &[u8]) -> Option<(AtomWord, &[u8])>
    ensures { Takes signs_text AreSigns FollowsSigns (λ s. words.Charge (charge_of s)) bytes.now
        (option_map (λ r. (r.0, r.1.now)) result) }
{
    let (charge, rest) = charge_at(bytes)?;
    Some((AtomWord::Charge(charge), rest))
}

// The primitive that the bytes begin with, if a letter or `*` is first.
fn letters_at(bytes: &[u8]) -> Option<(AtomWord, &[u8])>
    ensures { Takes prim_text (λ x. IsPrim x × IsLettered x) FollowsPrim word_of bytes.now
        (option_map (λ r. (r.0, r.1.now)) result) }
{
    if let Some((word, rest)) = two_letters_at(bytes) {
        return Some((word, rest));
    }
    let [first, rest @ ..] = bytes else {
        return None;
    };
    match letter_of(*first) {
        Some(letter) => count_at(letter, rest),
        None => Some((one_letter(*first)?, rest)),
    }
}

// The primitive of a letter that these bytes follow, and the bytes after it.
fn count_at(letter: Letter, bytes: &[u8]) -> Option<(AtomWord, &[u8])>
    ensures { IsCountAt letter bytes.now (option_map (λ r. (r.0, r.1.now)) result) }
{
    let (number, rest) = number_at(bytes)?;
    Some((AtomWord::Count { letter, number }, rest))
}

// The bytes up to the `)` that closes the parenthesis before them, and the bytes after it.
fn part_at(bytes: &[u8]) -> Option<(&[u8], &[u8])>
    ensures found { IfSome result (λ r. IsBalancedIn 0 r.0.now × (bytes.now ≡ r.0.now ++ 41 ∷ r.1.now)) }
    ensures only { (text rest : List ℕ) → IsBalancedIn 0 text → bytes.now ≡ text ++ 41 ∷ rest
        → IsSomeAnd result (λ r. r.1.now ≡ rest) }
{
    let mut depth = 0;
    let mut count = 0;
    let mut rest = bytes;
    while let [first, after @ ..] = rest {
        let Some(next) = opened(*first, depth) else {
            return Some((&bytes[..count], after));
        };
        depth = next;
        count += 1;
        rest = after;
    }
    None
}

// The depth after the byte; `None` if it is a `)` at depth 0.
fn opened(byte: u8, depth: usize) -> Option<usize>
    requires { depth < 2 ^ 63 }
    ensures steps { IfSome result (λ next. (more : List ℕ)
        → IsBalancedIn next more ↔ IsBalancedIn depth (byte ∷ more)) }
    ensures bound { IfSome result (λ next. next ≤ depth + 1) }
    ensures closes { IfSome result (λ next. byte ≡ 41 → 1 ≤ depth) }
    ensures none { IfNone result ((byte ≡ 41) × (depth ≡ 0)) }
{
    match byte {
        b'(' => Some(depth + 1),
        b')' if depth == 0 => None,
        b')' => Some(depth - 1),
        _ => Some(depth),
    }
}
