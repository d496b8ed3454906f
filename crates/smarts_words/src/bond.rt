//! Bond expressions.

ghost use Rattle.std.specs.Prelude.{◌≡◌, ◌≢◌, ℕ, ◌<◌, ◌≤◌, List, [], ◌∷◌, ◌++◌, length, Bool, false, Some, None, IfOk, IfSome, IfNone, IsSomeAnd, IsTrue, ◌↔◌, MatchOption, option_map};
ghost use Rattle.smarts_words.specs.Expression.{Expression};
ghost use Rattle.smarts_words.specs.Bonds.{BondPrim, bond_prim_text, IsBondPrim, FollowsBondPrim, bond_word, bond_text, IsBondExpression, BeginsBond, bond_value, agreed_bond, same_steps, step_number, word_number};
ghost use Rattle.smarts_words.specs.State.{JoinsAt, EndsBond};
ghost use Rattle.smarts_words.specs.Follow.{Takes};

use crate::number::run_at;
use crate::postfix::{Joint, finish, join, no_steps, operand};
use crate::value::PatternBond;
use crate::word::{BondWord, Step};
use std::alloc::{AllocError, Global};

/// The bond expression that the bytes begin with, and the bytes after it.
pub fn bond_at(alloc: Global, bytes: &[u8]) -> Result<Option<(PatternBond, &[u8])>, AllocError>
    ensures found { IfOk result (λ o. IfSome o (λ r. (e : Expression BondPrim) × IsBondExpression e r.1.now
        × (bytes.now ≡ bond_text e ++ r.1.now) × (r.0 ≡ bond_value (Some e)))) }
    ensures only { IfOk result (λ o. (e : Expression BondPrim) (rest : List ℕ) → IsBondExpression e rest
        → EndsBond rest → bytes.now ≡ bond_text e ++ rest → IsSomeAnd o (λ r. r.1.now ≡ rest)) }
{
    let mut postfix = no_steps(alloc);
    let mut rest = bytes;
    'operands: loop {
        let (bangs, after) = run_at(rest, b'!');
        let Some((word, after)) = word_at(after) else {
            return Ok(None);
        };
        operand(&mut postfix, bangs, word)?;
        let Some((joint, after)) = joint_at(after) else {
            return Ok(Some((PatternBond::new(finish(postfix)?), after)));
        };
        join(&mut postfix, joint)?;
        rest = after;
    }
}

/// The bond of two ends, if they agree: it is written at one of them, or at both alike.
pub fn agree(first: PatternBond, second: PatternBond) -> Option<PatternBond>
    ensures agreed { result ≡ agreed_bond first second }
    ensures disagree { (result ≡ None) ↔ ((first ≢ []) × (second ≢ []) × (first ≢ second)) }
{
    if first.steps().is_empty() {
        return Some(second);
    }
    if second.steps().is_empty() || are_same(first.steps(), second.steps()) {
        return Some(first);
    }
    None
}

// The primitive that the bytes begin with, and the bytes after it.
fn word_at(bytes: &[u8]) -> Option<(BondWord, &[u8])>
    ensures reads { Takes bond_prim_text IsBondPrim FollowsBondPrim bond_word bytes.now
        (option_map (λ r. (r.0, r.1.now)) result) }
    ensures shorter { IfSome result (λ r. length r.1.now < length bytes.now) }
{
    match bytes {
        [b'/', b'?', rest @ ..] => Some((BondWord::Up, rest)),
        [b'\\', b'?', rest @ ..] => Some((BondWord::Down, rest)),
        [first, rest @ ..] => Some((word_of(*first)?, rest)),
        [] => None,
    }
}

// The primitive of one byte.
fn word_of(byte: u8) -> Option<BondWord>
    ensures { MatchOption result ((x : BondPrim) (rest : List ℕ) → bond_prim_text x ≢ byte ∷ rest)
        (λ word. (x : BondPrim) × (bond_prim_text x ≡ byte ∷ []) × (word ≡ bond_word x)) }
{
    match byte {
        b'-' => Some(BondWord::Single),
        b'=' => Some(BondWord::Double),
        b'#' => Some(BondWord::Triple),
        b'$' => Some(BondWord::Quad),
        b':' => Some(BondWord::Aromatic),
        b'~' => Some(BondWord::Any),
        b'@' => Some(BondWord::Ring),
        b'/' => Some(BondWord::Up),
        b'\\' => Some(BondWord::Down),
        _ => None,
    }
}

// The joint of the next primitive, and the bytes from it on; `None` if no primitive follows.
fn joint_at(bytes: &[u8]) -> Option<(Joint, &[u8])>
    ensures found { IfSome result (λ r. JoinsAt bytes.now r.0 r.1.now) }
    ensures goes { IfSome result (λ r. ¬ EndsBond bytes.now) }
    ensures shorter { IfSome result (λ r. length r.1.now ≤ length bytes.now) }
    ensures ends { IfNone result (EndsBond bytes.now) }
{
    match bytes {
        [b';', rest @ ..] => Some((Joint::Semicolon, rest)),
        [b',', rest @ ..] => Some((Joint::Comma, rest)),
        [b'&', rest @ ..] => Some((Joint::And, rest)),
        [first, ..] => {
            if begins_bond(*first) {
                return Some((Joint::And, bytes));
            }
            None
        }
        [] => None,
    }
}

// True if a bond expression may begin with the byte.
fn begins_bond(byte: u8) -> bool
    ensures { IsTrue result ↔ BeginsBond byte }
{
    byte == b'!'
        || byte == b'-'
        || byte == b'='
        || byte == b'#'
        || byte == b'$'
        || byte == b':'
        || byte == b'~'
        || byte == b'@'
        || byte == b'/'
        || byte == b'\\'
}

// True if both have equal steps.
fn are_same(first: &[Step<BondWord>], second: &[Step<BondWord>]) -> bool
    ensures { result ≡ same_steps first.now second.now }
{
    let mut xs = first;
    let mut ys = second;
    while let [x, after_x @ ..] = xs
        && let [y, after_y @ ..] = ys
    {
        if number_of_step(*x) != number_of_step(*y) {
            return false;
        }
        xs = after_x;
        ys = after_y;
    }
    xs.is_empty() && ys.is_empty()
}

fn number_of_step(step: Step<BondWord>) -> u8
    ensures { result ≡ step_number step }
{
    match step {
        Step::Prim(word) => number_of_word(word),
        Step::Not => 9,
        Step::And => 10,
        Step::Or => 11,
    }
}

fn number_of_word(word: BondWord) -> u8
    ensures { result ≡ word_number word }
{
    match word {
        BondWord::Single => 0,
        BondWord::Double => 1,
        BondWord::Triple => 2,
        BondWord::Quad => 3,
        BondWord::Aromatic => 4,
        BondWord::Any => 5,
        BondWord::Ring => 6,
        BondWord::Up => 7,
        BondWord::Down => 8,
    }
}
