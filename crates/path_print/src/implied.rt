//! The facts that expressions imply of every atom and bond at which they are true.
ghost use Rattle.std.specs.Prelude.{◌≡◌};
ghost use Rattle.smarts_parse.specs.Pattern.{term_of};
ghost use Rattle.path_print.specs.Implied.{implied, implied_byte, both, common, prim_implies, prim_byte};

use crate::known::Known;
use smarts_parse::{AtomPrim, BondPrim, Expr};

/// The highest atomic number of an element.
const HIGHEST: u16 = 103;

/// The number and aromaticity that an atom expression implies.
pub fn implied(expr: &Expr<AtomPrim>) -> Known
    ensures { result ≡ implied (term_of expr.now) }
{
    match expr {
        Expr::Prim(prim) => implied_by_prim(*prim),
        Expr::Not(_) => Known::NOTHING,
        Expr::And(left, right) => both(implied(left), implied(right)),
        Expr::Or(left, right) => common(implied(left), implied(right)),
    }
}

/// The byte that a bond expression implies.
pub fn implied_byte(expr: &Expr<BondPrim>) -> Option<u8>
    ensures { result ≡ implied_byte (term_of expr.now) }
{
    match expr {
        Expr::Prim(prim) => byte_of_prim(*prim),
        Expr::Not(_) => None,
        Expr::And(left, right) => implied_byte(left).or(implied_byte(right)),
        Expr::Or(left, right) => {
            let byte = implied_byte(left);
            if byte == implied_byte(right) {
                byte
            } else {
                None
            }
        }
    }
}

fn both(left: Known, right: Known) -> Known
    ensures { result ≡ both left right }
{
    Known {
        number: left.number.or(right.number),
        aromatic: left.aromatic.or(right.aromatic),
    }
}

fn common(left: Known, right: Known) -> Known
    ensures { result ≡ common left right }
{
    Known {
        number: if left.number == right.number {
            left.number
        } else {
            None
        },
        aromatic: if left.aromatic == right.aromatic {
            left.aromatic
        } else {
            None
        },
    }
}

fn implied_by_prim(prim: AtomPrim) -> Known
    ensures { result ≡ prim_implies prim }
{
    match prim {
        AtomPrim::Symbol { number, lower } => Known {
            number: Some(number),
            aromatic: Some(lower),
        },
        AtomPrim::Number(number) => Known {
            number: if number <= HIGHEST {
                Some(number as u8)
            } else {
                None
            },
            aromatic: None,
        },
        AtomPrim::Aromatic => Known {
            number: None,
            aromatic: Some(true),
        },
        AtomPrim::Aliphatic => Known {
            number: None,
            aromatic: Some(false),
        },
        _ => Known::NOTHING,
    }
}

fn byte_of_prim(prim: BondPrim) -> Option<u8>
    ensures { result ≡ prim_byte prim }
{
    match prim {
        BondPrim::Single | BondPrim::Aromatic | BondPrim::Unwritten => Some(1),
        BondPrim::Double => Some(2),
        BondPrim::Triple => Some(3),
        BondPrim::Quad => Some(4),
        BondPrim::Any | BondPrim::Ring => None,
    }
}
