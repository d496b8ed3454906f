//! The generated script.
ghost use Rattle.std.specs.Prelude.{◌≡◌, ◌<◌, ◌++◌, ◌∷◌, [], slice_index_or, IfOk, OnOk, codes, decimal};
ghost use Rattle.chem_gen.specs.Script.{fragments, patterns, picked, later, structure_text, after_structure, searches, script_of};

use crate::numbers::Numbers;
use chem_text::push_decimal;
use std::alloc::{AllocError, Global};

/// The number of patterns.
pub const PATTERNS: usize = 5;

/// The script: for each identifier from 1 to the count a registration, of a structure that follows from the seed, and
/// then the searches. Fails only for want of memory.
pub fn script(alloc: Global, seed: u32, count: u32) -> Result<Vec<u8>, AllocError>
    ensures { IfOk result (λ text. text.items ≡ script_of seed count) }
{
    let mut out = Vec::new(alloc);
    let mut numbers = Numbers { last: seed };
    for place in 0..count {
        push_registration(&mut out, u64::from(place) + 1, &mut numbers)?;
    }
    push_searches(&mut out)?;
    Ok(out)
}

/// The patterns of the searches, in their order.
pub fn pattern(place: usize) -> &'static [u8]
    requires { place < PATTERNS }
    ensures { result.now ≡ slice_index_or patterns place [] }
{
    match place {
        0 => b"C=O",
        1 => b"c1ccccc1",
        2 => b"[N;H1]",
        3 => b"[$(C(=O)N)]",
        _ => b"F",
    }
}

// The fragments of a structure.
fn fragment(place: u32) -> &'static [u8]
    requires { place < 8 }
    ensures { result.now ≡ slice_index_or fragments place [] }
{
    match place {
        0 => b"C",
        1 => b"N",
        2 => b"O",
        3 => b"C(=O)",
        4 => b"C(C)",
        5 => b"c1ccc(cc1)",
        6 => b"C(F)",
        _ => b"S",
    }
}

fn push_searches(out: &mut Vec<u8>) -> Result<(), AllocError>
    ensures { OnOk result (out.new.items ≡ out.old.items ++ searches) }
{
    for place in 0..PATTERNS {
        push_search(out, pattern(place))?;
    }
    Ok(())
}

fn push_search(out: &mut Vec<u8>, pattern: &[u8]) -> Result<(), AllocError>
    ensures { OnOk result (out.new.items ≡ out.old.items ++ (codes "search " ++ pattern.now ++ 10 ∷ [])) }
{
    out.extend_from_slice(b"search ")?;
    out.extend_from_slice(pattern)?;
    out.push(b'\n')?;
    Ok(())
}

fn push_registration(out: &mut Vec<u8>, id: u64, numbers: &mut Numbers) -> Result<(), AllocError>
    ensures text { OnOk result (out.new.items ≡ out.old.items
        ++ (codes "register " ++ decimal id ++ codes " " ++ structure_text numbers.old.last ++ 10 ∷ [])) }
    ensures numbers { OnOk result (numbers.new.last ≡ after_structure numbers.old.last) }
{
    out.extend_from_slice(b"register ")?;
    push_decimal(out, id)?;
    out.extend_from_slice(b" C")?;
    let count = 2 + numbers.pick(6);
    push_fragments(out, count, numbers)?;
    out.push(b'\n')?;
    Ok(())
}

fn push_fragments(out: &mut Vec<u8>, count: u32, numbers: &mut Numbers) -> Result<(), AllocError>
    ensures text { OnOk result (out.new.items ≡ out.old.items ++ picked count numbers.old.last) }
    ensures numbers { OnOk result (numbers.new.last ≡ later count numbers.old.last) }
{
    for _ in 0..count {
        out.extend_from_slice(fragment(numbers.pick(8)))?;
    }
    Ok(())
}
