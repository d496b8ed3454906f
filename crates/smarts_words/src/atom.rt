//! Atoms.

ghost use Rattle.std.specs.Prelude.{◌≡◌, ◌≢◌, ℕ, [], ◌∷◌, ◌++◌, List, IfOk, IfSome, IsSomeAnd, MatchOption, option_map};
ghost use Rattle.line_walk.specs.Follow.{Reads, AfterAtom};
ghost use Rattle.smarts_words.specs.Bracket.{Atom, atom_text, IsAtom, value_of_atom};
ghost use Rattle.smarts_words.specs.Bracket as bracket;
ghost use Rattle.smarts_words.specs.Words.{smarts_words};
ghost use Rattle.smarts_words.specs.Follow.{IsBareAtom, IsBareRead};

use crate::bracket::bracket_at;
use crate::symbol::symbol;
use crate::value::PatternAtom;
use crate::word::{AtomWord, Step};
use smiles_words::{lower_letter_number, organic_number};
use std::alloc::{AllocError, Global};

/// The atom that the bytes begin with, and the bytes after it.
pub fn atom_at(alloc: Global, bytes: &[u8]) -> Result<Option<(PatternAtom, &[u8])>, AllocError>
    ensures { IfOk result (λ o. Reads atom_text IsAtom value_of_atom (AfterAtom smarts_words) bytes.now
        (option_map (λ r. (r.0, r.1.now)) o)) }
{
    if let [b'[', rest @ ..] = bytes {
        return bracket_at(alloc, rest);
    }
    match bare_at(bytes) {
        Some((word, rest)) => Ok(Some((single(alloc, word)?, rest))),
        None => Ok(None),
    }
}

// The primitive without brackets that the bytes begin with, and the bytes after it.
fn bare_at(bytes: &[u8]) -> Option<(AtomWord, &[u8])>
    ensures found { IfSome result (λ r. (x : Atom) × IsAtom x × IsBareAtom x × (bytes.now ≡ atom_text x ++ r.1.now)
        × (bracket.single r.0 ≡ value_of_atom x)) }
    ensures only { (x : Atom) (rest : List ℕ) → IsAtom x → IsBareAtom x → AfterAtom smarts_words rest
        → bytes.now ≡ atom_text x ++ rest → IsSomeAnd result (λ r. r.1.now ≡ rest) }
{
    match bytes {
        [b'C', b'l', rest @ ..] => Some((symbol(17, false), rest)),
        [b'B', b'r', rest @ ..] => Some((symbol(35, false), rest)),
        [first, rest @ ..] => Some((bare_word(*first)?, rest)),
        [] => None,
    }
}

// The primitive without brackets of one byte.
fn bare_word(byte: u8) -> Option<AtomWord>
    ensures { MatchOption result ((x : Atom) → IsAtom x → IsBareAtom x → atom_text x ≢ byte ∷ []) (IsBareRead byte) }
{
    match byte {
        b'*' => Some(AtomWord::Any),
        b'a' => Some(AtomWord::Aromatic),
        b'A' => Some(AtomWord::Aliphatic),
        _ => organic_word(byte),
    }
}

// The symbol without brackets of one byte.
fn organic_word(byte: u8) -> Option<AtomWord>
    requires other { (byte ≢ 42) × (byte ≢ 97) × (byte ≢ 65) }
    ensures { MatchOption result ((x : Atom) → IsAtom x → IsBareAtom x → atom_text x ≢ byte ∷ []) (IsBareRead byte) }
{
    match organic_number(byte) {
        Some(number) => Some(symbol(number, false)),
        None => Some(symbol(lower_letter_number(byte)?, true)),
    }
}

// The atom of one primitive.
fn single(alloc: Global, word: AtomWord) -> Result<PatternAtom, AllocError>
    ensures { IfOk result (λ atom. atom ≡ bracket.single word) }
{
    let mut steps = Vec::new(alloc);
    steps.push(Step::Prim(word))?;
    Ok(PatternAtom::new(steps, Vec::new(alloc)))
}
