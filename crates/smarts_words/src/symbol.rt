//! Symbols of elements, and other primitives of one letter.

ghost use Rattle.std.specs.Prelude.{◌≡◌, ◌≢◌, ℕ, ◌≤◌, ◌∷◌, [], List, Some, IfSome, IfNone, MatchOption, slice_get};
ghost use Rattle.chem_core.specs.Element.{symbols};
ghost use Rattle.smarts_words.specs.Prims.{Prim, prim_text, IsPrim, AreSymbol, letter_byte};
ghost use Rattle.smarts_words.specs.Follow.{IsBare, IsPair, IsSingle};
ghost use Rattle.smarts_words.specs.declared.word.Letter.{Letter};
ghost use Rattle.smarts_words.specs.declared.word.AtomWord.TheVariants as words;

use crate::word::{AtomWord, Letter};
use chem_core::number_of;
use smiles_words::lower_letter_number;

/// The symbol of two bytes that the bytes begin with, and the bytes after it.
pub fn two_letters_at(bytes: &[u8]) -> Option<(AtomWord, &[u8])>
    ensures found { IfSome result (λ r. (a b : ℕ) × (bytes.now ≡ a ∷ b ∷ r.1.now) × IsPair a b r.0) }
    ensures none { IfNone result ((a b : ℕ) (rest : List ℕ) → bytes.now ≡ a ∷ b ∷ rest → ¬ AreSymbol a b) }
{
    let [first, second, rest @ ..] = bytes else {
        return None;
    };
    Some((pair_word(*first, *second)?, rest))
}

/// The primitive of one byte that is a symbol, `*`, `a` or `A`. `H` is no symbol there.
pub fn one_letter(byte: u8) -> Option<AtomWord>
    ensures { MatchOption result ((x : Prim) → IsPrim x → IsBare x → prim_text x ≢ byte ∷ []) (IsSingle byte) }
{
    match byte {
        b'*' => Some(AtomWord::Any),
        b'a' => Some(AtomWord::Aromatic),
        b'A' => Some(AtomWord::Aliphatic),
        b'H' => None,
        _ => letter_symbol(byte),
    }
}

/// The count that the letter names.
pub fn letter_of(byte: u8) -> Option<Letter>
    ensures { MatchOption result ((letter : Letter) → letter_byte letter ≢ byte) (λ letter. letter_byte letter ≡ byte) }
{
    match byte {
        b'D' => Some(Letter::Degree),
        b'H' => Some(Letter::TotalH),
        b'h' => Some(Letter::ImplicitH),
        b'R' => Some(Letter::Rings),
        b'r' => Some(Letter::RingSize),
        b'v' => Some(Letter::Valence),
        b'X' => Some(Letter::Connect),
        b'x' => Some(Letter::RingBonds),
        _ => None,
    }
}

/// The word of an element's symbol.
pub fn symbol(number: u8, lower: bool) -> AtomWord
    ensures { result ≡ words.Symbol number lower }
{
    AtomWord::Symbol { number, lower }
}

// The symbol of two bytes.
fn pair_word(first: u8, second: u8) -> Option<AtomWord>
    ensures { MatchOption result (¬ AreSymbol first second) (IsPair first second) }
{
    match (first, second) {
        (b's', b'e') => Some(symbol(34, true)),
        (b'a', b's') => Some(symbol(33, true)),
        _ => Some(symbol(pair_element(first, second)?, false)),
    }
}

// The element whose symbol is of two bytes. The second is in lower case: most need no look into the table.
fn pair_element(first: u8, second: u8) -> Option<u8>
    ensures { MatchOption result ((number : ℕ) → slice_get symbols number ≢ Some (first ∷ second ∷ []))
        (λ number. (number ≤ 103) × (slice_get symbols number ≡ Some (first ∷ second ∷ []))) }
{
    if second < b'a' {
        return None;
    }
    number_of(&[first, second])
}

// The symbol of one byte that is not one of the letters above.
fn letter_symbol(byte: u8) -> Option<AtomWord>
    requires other { (byte ≢ 42) × (byte ≢ 72) × (byte ≢ 97) × (byte ≢ 65) }
    ensures { MatchOption result ((x : Prim) → IsPrim x → IsBare x → prim_text x ≢ byte ∷ []) (IsSingle byte) }
{
    match lower_letter_number(byte) {
        Some(number) => Some(symbol(number, true)),
        None => Some(symbol(number_of(&[byte])?, false)),
    }
}
