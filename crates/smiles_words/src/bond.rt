//! Bond symbols, and the agreement of the bonds of one ring number.

ghost use Rattle.std.specs.Prelude.{◌≡◌, ◌≢◌, ◌∷◌, [], MatchOption, option_map};
ghost use Rattle.line_walk.specs.Follow.{Reads, AfterBond};
ghost use Rattle.smiles_words.specs.Words.{BondText, IsBondText, bond_text, kind_of, agreed_kind, smiles_words};

use chem_core::SketchKind;

/// The bond symbol that the bytes begin with, and the bytes after it.
pub fn bond_at(bytes: &[u8]) -> Option<(SketchKind, &[u8])>
    ensures { Reads bond_text IsBondText kind_of (AfterBond smiles_words) bytes.now
        (option_map (λ r. (r.0, r.1.now)) result) }
{
    let [first, rest @ ..] = bytes else {
        return None;
    };
    let kind = kind_of_byte(*first)?;
    Some((kind, rest))
}

// The kind of the bond symbol that the byte is.
fn kind_of_byte(byte: u8) -> Option<SketchKind>
    ensures { MatchOption result ((bond : BondText) → bond_text bond ≢ byte ∷ [])
        (λ kind. (bond : BondText) × (bond_text bond ≡ byte ∷ []) × (kind ≡ kind_of bond)) }
{
    match byte {
        b'-' => Some(SketchKind::Single),
        b'/' => Some(SketchKind::Single),
        b'\\' => Some(SketchKind::Single),
        b'=' => Some(SketchKind::Double),
        b'#' => Some(SketchKind::Triple),
        b'$' => Some(SketchKind::Quad),
        b':' => Some(SketchKind::Colon),
        _ => None,
    }
}

/// The kind of a ring bond by the symbols at its ends: either, or both alike.
pub fn agreed(first: SketchKind, second: SketchKind) -> Option<SketchKind>
    ensures { result ≡ agreed_kind first second }
{
    match (first, second) {
        (SketchKind::Unwritten, kind) => Some(kind),
        (kind, SketchKind::Unwritten) => Some(kind),
        (SketchKind::Single, SketchKind::Single) => Some(SketchKind::Single),
        (SketchKind::Double, SketchKind::Double) => Some(SketchKind::Double),
        (SketchKind::Triple, SketchKind::Triple) => Some(SketchKind::Triple),
        (SketchKind::Quad, SketchKind::Quad) => Some(SketchKind::Quad),
        (SketchKind::Colon, SketchKind::Colon) => Some(SketchKind::Colon),
        _ => None,
    }
}
