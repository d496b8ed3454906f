//! A record: a text under its identifier, with its structure and print.
ghost use Rattle.std.specs.Prelude.{◌≡◌, ◌≤◌, Err, IfErr, IfOk, length};
ghost use Rattle.std.specs.Arc.{arc_value};
ghost use Rattle.chem_core.specs.Bits.{set_bits};
ghost use Rattle.chem_core.specs.Molecule.{IsMolecule};
ghost use Rattle.mol_finish.specs.Structure.{HasMolecule, IsAnswer};
ghost use Rattle.store_machine.specs.History.{IsId};
ghost use Rattle.store_machine.specs.Structures.{IsPrintOf};
ghost use Rattle.store_core.specs.Records.{HasBits, IsRecord};

use bumpalo::Bump;
use chem_core::{Mol, Print};
use mol_finish::{Format, TextFault, structure_in};
use path_print::print;
use smallvec::SmallVec;
use std::alloc::Global;
use std::marker::Model;
use std::sync::Arc;

// The longest text that lies in the record, without a block of memory of its own: most SMILES texts of drug-like
// structures are no longer.
const SHORT: usize = 64;

/// A text that has a structure, under an identifier of 1 to 999,999,999. It is shared, never copied.
#[derive(Drop)]
pub struct Record {
    // Its structure lies beside the count that a page raises, and its text with its format after the fields that
    // searches read.
    id: u32,
    // the number of bits that are set in the print
    bits: u16,
    mol: Mol,
    print: Print,
    format: Format,
    text: SmallVec<u8, SHORT>,
}

impl Model for Record {
    ghost use Rattle.store_core.specs.Records.{HasBits, IsRecord, RecordTerm};

    ghost Value = { RecordTerm };

    ghost view = { λ r. record { id = r.id; format = r.format; text = r.text.items; mol = r.mol; print = r.print } };

    ghost invariant = { λ r. IsRecord (record
        { id = r.id; format = r.format; text = r.text.items; mol = r.mol; print = r.print })
        × HasBits r.print r.bits };
}

/// Makes records of one text after another, with working memory that is kept from one to the next.
#[derive(Drop)]
pub struct Recorder {
    alloc: Global,
    arena: Bump,
}

impl Record {
    /// The record of a text. It is refused as `structure` refuses the text.
    pub fn make(
        alloc: Global,
        id: u32,
        format: Format,
        text: &[u8],
    ) -> Result<Arc<Record>, TextFault>
        requires { IsId id }
        ensures id { IfOk result (λ r. (arc_value r).id ≡ id) }
        ensures format { IfOk result (λ r. (arc_value r).format ≡ format) }
        ensures text { IfOk result (λ r. (arc_value r).text ≡ text.now) }
        ensures fault { IfErr result (λ fault. IsAnswer format text.now (Err fault)) }
    {
        Recorder::new(alloc).record(id, format, text)
    }

    pub fn id(&self) -> u32
        ensures id { result ≡ self.now.id }
        ensures in_range { IsId result }
        ensures sound { IsRecord self.now }
    {
        self.id
    }

    pub fn format(&self) -> Format
        ensures { result ≡ self.now.format }
    {
        self.format
    }

    pub fn text(&self) -> &[u8]
        ensures { result.now ≡ self.now.text }
    {
        self.text.as_slice()
    }

    pub fn mol(&self) -> &Mol
        ensures mol { result.now ≡ self.now.mol }
        ensures structure { HasMolecule self.now.format self.now.text result.now }
    {
        &self.mol
    }

    pub fn print(&self) -> &Print
        ensures print { result.now ≡ self.now.print }
        ensures of_structure { IsPrintOf self.now.mol result.now }
    {
        &self.print
    }

    /// The number of bits that are set in its print. They were counted when it was made.
    pub fn bits(&self) -> u32
        ensures bits { result ≡ set_bits self.now.print }
        ensures few { result ≤ 1024 }
        ensures length { length self.now.print ≡ 1024 }
    {
        u32::from(self.bits)
    }
}

impl Recorder {
    /// Takes no memory.
    pub fn new(alloc: Global) -> Recorder {
        Recorder {
            alloc,
            arena: Bump::new(alloc),
        }
    }

    /// The record of a text. It is refused as `structure` refuses the text.
    pub fn record(&mut self, id: u32, format: Format, text: &[u8]) -> Result<Arc<Record>, TextFault>
        requires { IsId id }
        ensures id { IfOk result (λ r. (arc_value r).id ≡ id) }
        ensures format { IfOk result (λ r. (arc_value r).format ≡ format) }
        ensures text { IfOk result (λ r. (arc_value r).text ≡ text.now) }
        ensures fault { IfErr result (λ fault. IsAnswer format text.now (Err fault)) }
    {
        let made = structure_in(self.alloc, &self.arena, format, text);
        self.free();
        let mol = made?;
        let text = SmallVec::from_slice(self.alloc, text)?;
        let print = print_of(&mol);
        let record = Record {
            id,
            bits: bits_of(&print),
            mol,
            print,
            format,
            text,
        };
        match Arc::new(self.alloc, record) {
            Ok(record) => Ok(record),
            Err(_) => Err(TextFault::NoMemory),
        }
    }

    // Frees the working memory for the next text.
    fn free(&mut self) {
        if self.arena.reset().is_err() {
            self.arena = Bump::new(self.alloc);
        }
    }
}

// The print of a structure within the limits.
fn print_of(mol: &Mol) -> Print
    ensures print { IsPrintOf mol.now result }
    ensures molecule { IsMolecule mol.now }
{
    let _ = mol.atoms();
    print(mol)
}

// The number of bits that are set in a print.
fn bits_of(print: &Print) -> u16
    ensures { HasBits print.now result }
{
    print.count() as u16
}
