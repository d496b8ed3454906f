//! Fingerprints of structures and needs of patterns, with bonds, worked out by a program in another language.
use chem_core::Print;
use mol_finish::{Format, structure};
use path_print::{need, print};
use smarts_parse::parse;
use std::test::Fail;

// True if the print has these bits and no others.
fn has(print: &Print, bits: &[u16]) -> bool {
    for bit in bits {
        if !print.has(*bit) {
            return false;
        }
    }
    print.count() as usize == bits.len()
}

const STRUCTURES: &[(&str, &[u16])] = &[
    ("CO", &[96, 98, 282, 358, 360, 486]),
    ("CC", &[20, 96, 98, 224]),
    ("CCO", &[20, 96, 98, 110, 224, 282, 358, 360, 486, 939]),
    ("c1ccccc1", &[20, 82, 97, 98, 122, 251, 727, 782, 872, 965]),
];

#[test]
fn bits_of_structures(rt: HostRuntime) -> Result<(), Fail> {
    for &(smiles, bits) in STRUCTURES {
        let print = print(&structure(rt.alloc(), Format::Smiles, smiles.as_bytes())?);
        assert!(rt; has(&print, bits), "{smiles}");
    }
    Ok(())
}

const PATTERNS: &[(&str, &[u16])] = &[
    ("C=O", &[50, 96, 98, 239, 358, 360]),
    ("[#6]~O", &[98, 358, 360]),
    ("[#1]", &[467]),
    ("[C,N]=O", &[358, 360]),
    ("[$(C=O)]", &[]),
    ("[!C]O", &[358, 360]),
];

#[test]
fn bits_that_patterns_need(rt: HostRuntime) -> Result<(), Fail> {
    for &(smarts, bits) in PATTERNS {
        let need = need(&parse(rt.alloc(), smarts.as_bytes())?);
        assert!(rt; has(&need, bits), "{smarts}");
    }
    Ok(())
}
