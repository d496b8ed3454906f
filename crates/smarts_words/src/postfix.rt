//! Expressions in postfix order, as they are read from left to right.

ghost use Rattle.std.specs.Prelude.{◌≡◌, ℕ, List, [], ◌∷◌, ◌++◌, replicate, true, false, IfOk, OnOk};
ghost use Rattle.smarts_words.specs.declared.word.Step.{Step};
ghost use Rattle.smarts_words.specs.declared.word.Step.TheVariants as steps;
ghost use Rattle.smarts_words.specs.declared.postfix.Joint.TheVariants as joints;
ghost use Rattle.smarts_words.specs.Expression.{joined};
ghost use Rattle.smarts_words.specs.State.{Holds, one_operand, ors_ended, lows_ended};

use crate::word::Step;
use std::alloc::{AllocError, Global};

/// The joint of the next operand.
#[derive(Clone, Copy, Debug, PartialEq, Eq)]
pub enum Joint {
    Semicolon,
    Comma,
    And,
}

/// The steps so far. `in_and`, `in_or` and `in_low`: an operand of the current `&` list, `,` list and `;` list is
/// there.
#[derive(Drop)]
pub struct Postfix<P> {
    pub(crate) steps: Vec<Step<P>>,
    pub(crate) in_and: bool,
    pub(crate) in_or: bool,
    pub(crate) in_low: bool,
}

/// Of no operand.
pub fn no_steps<P: Copy>(alloc: Global) -> Postfix<P>
    ensures { Holds [] [] [] result }
{
    Postfix {
        steps: Vec::new(alloc),
        in_and: false,
        in_or: false,
        in_low: false,
    }
}

/// Reads an operand: a primitive with `bangs` `!` before it.
pub fn operand<P: Copy>(postfix: &mut Postfix<P>, bangs: usize, prim: P) -> Result<(), AllocError>
    ensures { OnOk result ((lows ors ands : List (List (Step P))) → Holds lows ors ands postfix.old
        → Holds lows ors (ands ++ one_operand bangs prim ∷ []) postfix.new) }
{
    put_operand(&mut postfix.steps, bangs, prim)?;
    if postfix.in_and {
        postfix.steps.push(Step::And)?;
    }
    postfix.in_and = true;
    Ok(())
}

/// Reads the joint of the next operand.
pub fn join<P: Copy>(postfix: &mut Postfix<P>, joint: Joint) -> Result<(), AllocError>
    ensures semicolon { OnOk result (joint ≡ joints.Semicolon → (lows ors ands : List (List (Step P)))
        → Holds lows ors ands postfix.old → Holds (lows_ended lows ors ands) [] [] postfix.new) }
    ensures comma { OnOk result (joint ≡ joints.Comma → (lows ors ands : List (List (Step P)))
        → Holds lows ors ands postfix.old → Holds lows (ors_ended ors ands) [] postfix.new) }
    ensures and { OnOk result (joint ≡ joints.And → postfix.new ≡ postfix.old) }
{
    match joint {
        Joint::Semicolon => end_low(postfix),
        Joint::Comma => end_or(postfix),
        Joint::And => Ok(()),
    }
}

/// All steps.
pub fn finish<P: Copy>(postfix: Postfix<P>) -> Result<Vec<Step<P>>, AllocError>
    ensures { IfOk result (λ result. (lows ors ands : List (List (Step P))) → Holds lows ors ands postfix
        → result.items ≡ joined steps.And (lows_ended lows ors ands)) }
{
    let mut postfix = postfix;
    end_low(&mut postfix)?;
    let Postfix {
        steps,
        in_and: _,
        in_or: _,
        in_low: _,
    } = postfix;
    Ok(steps)
}

// Puts a primitive and the `!` before it.
fn put_operand<P: Copy>(steps: &mut Vec<Step<P>>, bangs: usize, prim: P) -> Result<(), AllocError>
    ensures { OnOk result (steps.new.items ≡ steps.old.items ++ one_operand bangs prim) }
{
    steps.push(Step::Prim(prim))?;
    for _ in 0..bangs {
        steps.push(Step::Not)?;
    }
    Ok(())
}

// Ends a part before `,`.
fn end_or<P: Copy>(postfix: &mut Postfix<P>) -> Result<(), AllocError>
    ensures { OnOk result ((lows ors ands : List (List (Step P))) → Holds lows ors ands postfix.old
        → Holds lows (ors_ended ors ands) [] postfix.new) }
{
    if postfix.in_or {
        postfix.steps.push(Step::Or)?;
    }
    postfix.in_or = true;
    postfix.in_and = false;
    Ok(())
}

// Ends a part before `;`.
fn end_low<P: Copy>(postfix: &mut Postfix<P>) -> Result<(), AllocError>
    ensures { OnOk result ((lows ors ands : List (List (Step P))) → Holds lows ors ands postfix.old
        → Holds (lows_ended lows ors ands) [] [] postfix.new) }
{
    end_or(postfix)?;
    if postfix.in_low {
        postfix.steps.push(Step::And)?;
    }
    postfix.in_low = true;
    postfix.in_or = false;
    Ok(())
}
