//! Atom symbols.
ghost use Rattle.std.specs.Prelude.{◌≡◌, ◌≤◌, IfSome};
ghost use Rattle.molfile_read.specs.Symbol.{is_query_symbol, hydrogen_isotope, element_of};

use chem_core::number_of;

/// True if only queries use the symbol.
pub(crate) fn is_query_symbol(symbol: &[u8]) -> bool
    ensures { result ≡ is_query_symbol symbol.now }
{
    matches!(symbol, b"A" | b"Q" | b"L" | b"LP" | b"R#")
}

/// The atomic number of the symbol, and its isotope; `None` for other bytes.
pub(crate) fn element_of(symbol: &[u8]) -> Option<(u8, u16)>
    ensures value { result ≡ element_of symbol.now }
    ensures number { IfSome result (λ r. r.0 ≤ 103) }
    ensures isotope { IfSome result (λ r. r.1 ≤ 3) }
{
    match number_of(symbol) {
        Some(number) => Some((number, 0)),
        None => hydrogen_isotope(symbol),
    }
}

// `D` and `T` are isotopes of hydrogen.
fn hydrogen_isotope(symbol: &[u8]) -> Option<(u8, u16)>
    ensures value { result ≡ hydrogen_isotope symbol.now }
    ensures number { IfSome result (λ r. r.0 ≤ 103) }
    ensures isotope { IfSome result (λ r. r.1 ≤ 3) }
{
    if matches!(symbol, b"D") {
        Some((1, 2))
    } else if matches!(symbol, b"T") {
        Some((1, 3))
    } else {
        None
    }
}
