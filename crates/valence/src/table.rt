//! The tables of normal valences.
ghost use Rattle.std.specs.Prelude.{◌≡◌};
ghost use Rattle.valence.specs.Valence.{organic_valences, table_valences, cation_valences, anion_valences};

/// The valences of the organic subset, ascending (OpenSMILES 1.0, section 3.1.5); empty for every other element.
pub(crate) fn organic(number: u8) -> &'static [u8]
    ensures { result.now ≡ organic_valences number }
{
    match number {
        5 => &[3],
        6 => &[4],
        7 | 15 => &[3, 5],
        8 => &[2],
        16 => &[2, 4, 6],
        9 | 17 | 35 | 53 => &[1],
        _ => &[],
    }
}

/// The valences of molfile atoms, ascending, by element and charge (CTfile formats).
pub(crate) fn charged(number: u8, charge: i8) -> &'static [u8]
    ensures { result.now ≡ table_valences number charge }
{
    match charge {
        0 => organic(number),
        1 => cation(number),
        -1 => anion(number),
        _ => &[],
    }
}

fn cation(number: u8) -> &'static [u8]
    ensures { result.now ≡ cation_valences number }
{
    match number {
        5 => &[2],
        6 => &[3],
        7 | 15 => &[4],
        8 => &[3],
        16 => &[3, 5],
        _ => &[],
    }
}

fn anion(number: u8) -> &'static [u8]
    ensures { result.now ≡ anion_valences number }
{
    match number {
        5 => &[4],
        6 => &[3],
        7 | 15 => &[2],
        8 | 16 => &[1],
        _ => &[],
    }
}
