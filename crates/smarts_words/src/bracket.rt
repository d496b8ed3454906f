//! Atoms in brackets.

ghost use Rattle.std.specs.Prelude.{◌≡◌, ℕ, ◌∷◌, ◌++◌, List, Option, Some, IfOk, OnOk, IfSome, IsSomeAnd, map, option_map};
ghost use Rattle.std.specs.Option.{option_to_list};
ghost use Rattle.line_walk.specs.Follow.{Reads, Anything};
ghost use Rattle.smiles_words.specs.Atom.{class_text, IsClass};
ghost use Rattle.smarts_words.specs.Bracket.{hydro_text, IsHydro, end_text, Bracket, bracket_text, IsBracket, inside_value, hydro};
ghost use Rattle.smarts_words.specs.Bracket as bracket;
ghost use Rattle.smarts_words.specs.State.{Holds, one_operand};
ghost use Rattle.smarts_words.specs.declared.word.Step.{Step};
ghost use Rattle.smarts_words.specs.declared.word.AtomWord.{AtomWord};
ghost use Rattle.smarts_words.specs.declared.word.AtomWord.TheVariants as words;
ghost use Rattle.smarts_words.specs.Follow.{BeginsEnd, IsHydroRead};

use crate::inside::inside_at;
use crate::number::{after_digits, charge_at, number_at};
use crate::postfix::{Postfix, finish, no_steps, operand};
use crate::symbol::symbol;
use crate::value::PatternAtom;
use crate::word::AtomWord;
use std::alloc::{AllocError, Global};

/// The atom that a bracket is, whose `[` is read already, and the bytes after it.
pub fn bracket_at(alloc: Global, bytes: &[u8]) -> Result<Option<(PatternAtom, &[u8])>, AllocError>
    ensures { IfOk result (λ o. Reads bracket_text IsBracket (λ b. inside_value b.inside) Anything (91 ∷ bytes.now)
        (option_map (λ r. (r.0, r.1.now)) o)) }
{
    if let Some((found, rest)) = hydro_at(bytes) {
        return Ok(Some((hydro_atom(alloc, found)?, rest)));
    }
    let Some((atom, rest)) = inside_at(alloc, bytes)? else {
        return Ok(None);
    };
    match after_end(rest) {
        Some(rest) => Ok(Some((atom, rest))),
        None => Ok(None),
    }
}

// A hydrogen atom, with its mass and its charge if they are written.
#[derive(Clone, Copy)]
pub(crate) struct Hydro {
    pub(crate) mass: Option<u16>,
    pub(crate) charge: Option<i16>,
}

// The atom.
fn hydro_atom(alloc: Global, found: Hydro) -> Result<PatternAtom, AllocError>
    ensures { IfOk result (λ atom. (h : bracket.Hydro) → IsHydroRead h found.mass found.charge
        → atom ≡ inside_value (hydro h)) }
{
    let mut postfix = no_steps(alloc);
    operand(&mut postfix, 0, symbol(1, false))?;
    some_operand(&mut postfix, mass_word(found.mass))?;
    some_operand(&mut postfix, charge_word(found.charge))?;
    Ok(PatternAtom::new(finish(postfix)?, Vec::new(alloc)))
}

// Reads an operand, if there is one.
fn some_operand(postfix: &mut Postfix<AtomWord>, word: Option<AtomWord>) -> Result<(), AllocError>
    ensures { OnOk result ((lows ors ands : List (List (Step AtomWord))) → Holds lows ors ands postfix.old
        → Holds lows ors (ands ++ map (λ w. one_operand 0 w) (option_to_list word)) postfix.new) }
{
    match word {
        Some(word) => operand(postfix, 0, word),
        None => Ok(()),
    }
}

fn mass_word(mass: Option<u16>) -> Option<AtomWord>
    ensures { result ≡ option_map (λ n. words.Mass n) mass }
{
    Some(AtomWord::Mass(mass?))
}

fn charge_word(charge: Option<i16>) -> Option<AtomWord>
    ensures { result ≡ option_map (λ n. words.Charge n) charge }
{
    Some(AtomWord::Charge(charge?))
}

// The hydrogen atom that the bracket is as a whole, and the bytes after it.
fn hydro_at(bytes: &[u8]) -> Option<(Hydro, &[u8])>
    ensures found { IfSome result (λ r. (h : bracket.Hydro) × (k : Option (List ℕ)) × IsHydro h × IsClass k
        × (bytes.now ≡ hydro_text h ++ (end_text k ++ r.1.now)) × IsHydroRead h r.0.mass r.0.charge) }
    ensures only { (h : bracket.Hydro) (k : Option (List ℕ)) (rest : List ℕ) → IsHydro h → IsClass k
        → bytes.now ≡ hydro_text h ++ (end_text k ++ rest) → IsSomeAnd result (λ r. r.1.now ≡ rest) }
{
    let (mass, rest) = number_at(bytes)?;
    let [b'H', rest @ ..] = rest else {
        return None;
    };
    let (charge, rest) = some_charge_at(rest);
    Some((Hydro { mass, charge }, after_end(rest)?))
}

// The charge that the bytes begin with, if they begin with one, and the bytes after it.
fn some_charge_at(bytes: &[u8]) -> (Option<i16>, &[u8])
    ensures { Reads bracket.charge_text bracket.IsCharge bracket.charge_value BeginsEnd bytes.now
        (Some (result.0, result.1.now)) }
{
    match charge_at(bytes) {
        Some((charge, rest)) => (Some(charge), rest),
        None => (None, bytes),
    }
}

// The bytes after the class, if there is one, and the `]`.
fn after_end(bytes: &[u8]) -> Option<&[u8]>
    ensures found { IfSome result (λ r. (k : Option (List ℕ)) × IsClass k × (bytes.now ≡ end_text k ++ r.now)) }
    ensures only { (k : Option (List ℕ)) (rest : List ℕ) → IsClass k → bytes.now ≡ end_text k ++ rest
        → IsSomeAnd result (λ r. r.now ≡ rest) }
{
    match after_class(bytes) {
        Some([b']', rest @ ..]) => Some(rest),
        _ => None,
    }
}

// The bytes after the class that the bytes begin with, if they begin with one; `None` if it has no digit.
fn after_class(bytes: &[u8]) -> Option<&[u8]>
    ensures found { IfSome result (λ r. (k : Option (List ℕ)) × IsClass k × (bytes.now ≡ class_text k ++ r.now)) }
    ensures only { (k : Option (List ℕ)) (rest : List ℕ) → IsClass k → bytes.now ≡ class_text k ++ 93 ∷ rest
        → IsSomeAnd result (λ r. r.now ≡ 93 ∷ rest) }
{
    match bytes {
        [b':', rest @ ..] => after_digits(rest),
        _ => Some(bytes),
    }
}
