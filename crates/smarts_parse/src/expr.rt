//! From steps in postfix order to expressions.

ghost use Rattle.std.specs.Prelude.{◌≡◌, ◌≢◌, ◌+◌, ◌≤◌, List, [], ◌∷◌, ◌++◌, length, IfOk};
ghost use Rattle.smarts_words.specs.declared.word.AtomWord.{AtomWord as Word};
ghost use Rattle.smarts_words.specs.declared.word.AtomWord.TheVariants as words;
ghost use Rattle.smarts_words.specs.declared.word.Step.{Step as WordStep};
ghost use Rattle.smarts_words.specs.declared.word.Step.TheVariants as steps;
ghost use Rattle.smarts_parse.specs.Pattern.{term_of};
ghost use Rattle.smarts_parse.specs.Meaning as meaning;
ghost use Rattle.smarts_parse.specs.Meaning.{postfix, atom_steps, bond_steps};
ghost use Rattle.smarts_parse.specs.Steps.{operands, LeaveOne, stacked, part_count, AreAtomSteps};

use crate::pattern::{AtomPrim, BondPrim, Expr};
use smarts_words::{AtomWord, BondWord, Letter, Step};
use std::alloc::{AllocError, Global};

/// The expression of an atom; its recursive parts have these numbers, from left to right.
pub fn atom_expr(
    alloc: Global,
    steps: &[Step<AtomWord>],
    numbers: &[u16],
) -> Result<Expr<AtomPrim>, AllocError>
    requires { AreAtomSteps steps.now numbers.now }
    ensures { IfOk result (λ x. postfix (term_of x) ≡ atom_steps numbers.now steps.now) }
{
    let mut prims = Vec::new(alloc);
    let mut left = numbers;
    for step in steps {
        let (prim, others) = atom_step(*step, left);
        prims.push(prim)?;
        left = others;
    }
    expr(alloc, &prims)
}

/// The expression of a bond.
pub fn bond_expr(alloc: Global, steps: &[Step<BondWord>]) -> Result<Expr<BondPrim>, AllocError>
    requires { steps.now ≢ [] → LeaveOne 0 steps.now }
    ensures { IfOk result (λ x. postfix (term_of x) ≡ bond_steps steps.now) }
{
    if steps.is_empty() {
        return Ok(Expr::Prim(BondPrim::Unwritten));
    }
    let mut prims = Vec::new(alloc);
    for step in steps {
        prims.push(bond_step(*step))?;
    }
    expr(alloc, &prims)
}

// The expression that is written in postfix order.
fn expr<P: Copy>(alloc: Global, steps: &[Step<P>]) -> Result<Expr<P>, AllocError>
    requires { LeaveOne 0 steps.now }
    ensures { IfOk result (λ x. postfix (term_of x) ≡ steps.now) }
{
    let mut stack = Vec::new(alloc);
    for step in steps {
        let top = taken_by(alloc, &mut stack, *step)?;
        stack.push(top)?;
    }
    Ok(taken(&mut stack))
}

// The expression of a step, which takes its operands from the list.
fn taken_by<P: Copy>(
    alloc: Global,
    stack: &mut Vec<Expr<P>>,
    step: Step<P>,
) -> Result<Expr<P>, AllocError>
    requires { operands step ≤ length stack.old.items }
    ensures steps { IfOk result (λ x.
        stacked stack.new.items ++ postfix (term_of x) ≡ stacked stack.old.items ++ step ∷ []) }
    ensures count { IfOk result (λ x.
        length stack.new.items + operands step ≡ length stack.old.items) }
{
    match step {
        Step::Prim(prim) => Ok(Expr::Prim(prim)),
        Step::Not => Ok(Expr::Not(Box::new(alloc, taken(stack))?)),
        Step::And => {
            let right = Box::new(alloc, taken(stack))?;
            let left = Box::new(alloc, taken(stack))?;
            Ok(Expr::And(left, right))
        }
        Step::Or => {
            let right = Box::new(alloc, taken(stack))?;
            let left = Box::new(alloc, taken(stack))?;
            Ok(Expr::Or(left, right))
        }
    }
}

// The last expression.
fn taken<P: Copy>(stack: &mut Vec<Expr<P>>) -> Expr<P>
    requires { 1 ≤ length stack.old.items }
    ensures { stack.old.items ≡ stack.new.items ++ result ∷ [] }
{
    match stack.pop() {
        Some(expr) => expr,
        None => unreachable!(),
    }
}

// A step of an atom's expression. A recursive part takes the first of the numbers, and the others are left.
fn atom_step(step: Step<AtomWord>, numbers: &[u16]) -> (Step<AtomPrim>, &[u16])
    requires parts { part_count step ≤ length numbers.now }
    requires plain { step ≢ steps.Prim words.Stereo }
    ensures steps { (rest : List (WordStep Word))
        → result.0 ∷ atom_steps result.1.now rest ≡ atom_steps numbers.now (step ∷ rest) }
    ensures left { part_count step + length result.1.now ≡ length numbers.now }
{
    match step {
        Step::Not => (Step::Not, numbers),
        Step::And => (Step::And, numbers),
        Step::Or => (Step::Or, numbers),
        Step::Prim(AtomWord::Part) => match numbers {
            [number, left @ ..] => (Step::Prim(AtomPrim::Rec(*number)), left),
            [] => unreachable!(),
        },
        Step::Prim(word) => (Step::Prim(atom_prim(word)), numbers),
    }
}

// The meaning of a primitive of an atom, with the numbers that are not written.
fn atom_prim(word: AtomWord) -> AtomPrim
    requires part { word ≢ words.Part }
    requires stereo { word ≢ words.Stereo }
    ensures { result ≡ meaning.atom_prim 0 word }
{
    match word {
        AtomWord::Any => AtomPrim::Any,
        AtomWord::Aromatic => AtomPrim::Aromatic,
        AtomWord::Aliphatic => AtomPrim::Aliphatic,
        AtomWord::Symbol { number, lower } => AtomPrim::Symbol { number, lower },
        AtomWord::Number(number) => AtomPrim::Number(number),
        AtomWord::Count { letter, number } => count_prim(letter, number),
        AtomWord::Charge(charge) => AtomPrim::Charge(charge),
        AtomWord::Mass(number) => AtomPrim::Mass(number),
        AtomWord::Part => unreachable!(),
        AtomWord::Stereo => unreachable!(),
    }
}

// The meaning of a letter and its number.
fn count_prim(letter: Letter, number: Option<u16>) -> AtomPrim
    ensures { result ≡ meaning.count_prim letter number }
{
    match letter {
        Letter::Degree => AtomPrim::Degree(number.unwrap_or(1)),
        Letter::TotalH => AtomPrim::TotalH(number.unwrap_or(1)),
        Letter::ImplicitH => AtomPrim::ImplicitH(number),
        Letter::Valence => AtomPrim::Valence(number.unwrap_or(1)),
        Letter::Connect => AtomPrim::Connect(number.unwrap_or(1)),
        Letter::RingBonds => AtomPrim::RingBonds(number),
        Letter::Rings => match number {
            None => AtomPrim::Ring,
            Some(_) => AtomPrim::NoRing,
        },
        Letter::RingSize => match number {
            None => AtomPrim::Ring,
            Some(0) => AtomPrim::NoRing,
            Some(size) => AtomPrim::Small(size),
        },
    }
}

// A step of a bond's expression.
fn bond_step(step: Step<BondWord>) -> Step<BondPrim>
    ensures { result ≡ meaning.bond_step step }
{
    match step {
        Step::Not => Step::Not,
        Step::And => Step::And,
        Step::Or => Step::Or,
        Step::Prim(word) => Step::Prim(bond_prim(word)),
    }
}

// The meaning of a primitive of a bond. `/` and `\` are refused before.
fn bond_prim(word: BondWord) -> BondPrim
    ensures { result ≡ meaning.bond_prim word }
{
    match word {
        BondWord::Single | BondWord::Up | BondWord::Down => BondPrim::Single,
        BondWord::Double => BondPrim::Double,
        BondWord::Triple => BondPrim::Triple,
        BondWord::Quad => BondPrim::Quad,
        BondWord::Aromatic => BondPrim::Aromatic,
        BondWord::Any => BondPrim::Any,
        BondWord::Ring => BondPrim::Ring,
    }
}
