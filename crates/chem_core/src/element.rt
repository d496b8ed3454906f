//! The chemical elements: their symbols and atomic numbers.
ghost use Rattle.std.specs.Prelude.{◌≡◌, ◌≢◌, ◌↔◌, ℕ, ◌≤◌, Some, IsSome, length, map, slice_get, option_map, IfSome, IfNone};
ghost use Rattle.chem_core.specs.Element.{symbols};

/// The symbol of an atomic number of 0 to 103; 0 is `*`, an atom of any element. `None` above 103.
pub fn symbol_of(number: u8) -> Option<&'static str>
    ensures value { option_map (λ s. s.now) result ≡ slice_get symbols number }
    ensures range { IsSome result ↔ (number ≤ 103) }
{
    table().get(usize::from(number)).copied()
}

/// The atomic number of a symbol, with its case as in the periodic table, and 0 for `*`. `None` if there is no such
/// symbol.
pub fn number_of(text: &[u8]) -> Option<u8>
    ensures some { IfSome result (λ number. slice_get symbols number ≡ Some text.now) }
    ensures range { IfSome result (λ number. number ≤ 103) }
    ensures none { IfNone result ((number : ℕ) → slice_get symbols number ≢ Some text.now) }
{
    for (number, symbol) in table().iter().enumerate() {
        if symbol.as_bytes() == text {
            return Some(number as u8);
        }
    }
    None
}

// The symbols by atomic number, with `*` at 0.
fn table() -> &'static [&'static str]
    ensures value { map (λ s. s.now) result.now ≡ symbols }
    ensures count { length result.now ≡ 104 }
{
    &[
        "*", "H", "He", "Li", "Be", "B", "C", "N", "O", "F", "Ne", "Na", "Mg", "Al", "Si", "P",
        "S", "Cl", "Ar", "K", "Ca", "Sc", "Ti", "V", "Cr", "Mn", "Fe", "Co", "Ni", "Cu", "Zn",
        "Ga", "Ge", "As", "Se", "Br", "Kr", "Rb", "Sr", "Y", "Zr", "Nb", "Mo", "Tc", "Ru", "Rh",
        "Pd", "Ag", "Cd", "In", "Sn", "Sb", "Te", "I", "Xe", "Cs", "Ba", "La", "Ce", "Pr", "Nd",
        "Pm", "Sm", "Eu", "Gd", "Tb", "Dy", "Ho", "Er", "Tm", "Yb", "Lu", "Hf", "Ta", "W", "Re",
        "Os", "Ir", "Pt", "Au", "Hg", "Tl", "Pb", "Bi", "Po", "At", "Rn", "Fr", "Ra", "Ac", "Th",
        "Pa", "U", "Np", "Pu", "Am", "Cm", "Bk", "Cf", "Es", "Fm", "Md", "No", "Lr",
    ]
}
