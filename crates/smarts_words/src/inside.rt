//! Atom expressions in brackets.

ghost use Rattle.std.specs.Prelude.{◌≡◌, ℕ, ◌≤◌, List, ◌++◌, length, map, IfOk, OnOk, IfSome, IfNone, IsSomeAnd, option_map};
ghost use Rattle.std.specs.Option.{option_to_list};
ghost use Rattle.smarts_words.specs.Prims.{Prim};
ghost use Rattle.smarts_words.specs.Expression.{Expression};
ghost use Rattle.smarts_words.specs.Bracket.{expression_text, IsExpression};
ghost use Rattle.smarts_words.specs.State.{JoinsAt, EndsInside};
ghost use Rattle.smarts_words.specs.Follow.{IsInsideRead};

use crate::number::run_at;
use crate::postfix::{Joint, finish, join, no_steps, operand};
use crate::prim::prim_at;
use crate::value::PatternAtom;
use std::alloc::{AllocError, Global};

/// The expression that the bytes begin with, and the bytes after it.
pub fn inside_at(alloc: Global, bytes: &[u8]) -> Result<Option<(PatternAtom, &[u8])>, AllocError>
    ensures found { IfOk result (λ o. IfSome o (λ r. EndsInside r.1.now × IsInsideRead bytes.now r.0 r.1.now)) }
    ensures only { IfOk result (λ o. (e : Expression Prim) (rest : List ℕ) → IsExpression e rest → EndsInside rest
        → bytes.now ≡ expression_text e ++ rest → IsSomeAnd o (λ r. r.1.now ≡ rest)) }
{
    let mut postfix = no_steps(alloc);
    let mut parts = Vec::new(alloc);
    let mut rest = bytes;
    'operands: loop {
        let (bangs, after) = run_at(rest, b'!');
        let Some((found, after)) = prim_at(after) else {
            return Ok(None);
        };
        operand(&mut postfix, bangs, found.word)?;
        keep_part(alloc, &mut parts, found.part)?;
        let Some((joint, after)) = joint_at(after) else {
            return Ok(Some((PatternAtom::new(finish(postfix)?, parts), after)));
        };
        join(&mut postfix, joint)?;
        rest = after;
    }
}

// Keeps the text of a recursive part, if there is one.
fn keep_part(alloc: Global, parts: &mut Vec<Vec<u8>>, part: Option<&[u8]>) -> Result<(), AllocError>
    ensures { OnOk result (map (λ v. v.items) parts.new.items
        ≡ map (λ v. v.items) parts.old.items ++ option_to_list (option_map (λ p. p.now) part.entry)) }
{
    if let Some(part) = part {
        parts.push(part.to_vec(alloc)?)?;
    }
    Ok(())
}

// The joint of the next operand, and the bytes from it on; `None` if no operand follows.
fn joint_at(bytes: &[u8]) -> Option<(Joint, &[u8])>
    ensures found { IfSome result (λ r. JoinsAt bytes.now r.0 r.1.now) }
    ensures goes { IfSome result (λ r. ¬ EndsInside bytes.now) }
    ensures shorter { IfSome result (λ r. length r.1.now ≤ length bytes.now) }
    ensures ends { IfNone result (EndsInside bytes.now) }
{
    match bytes {
        [] => None,
        [b']', ..] => None,
        [b':', ..] => None,
        [b';', rest @ ..] => Some((Joint::Semicolon, rest)),
        [b',', rest @ ..] => Some((Joint::Comma, rest)),
        [b'&', rest @ ..] => Some((Joint::And, rest)),
        _ => Some((Joint::And, bytes)),
    }
}
