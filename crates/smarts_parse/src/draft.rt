//! A pattern as it is read: the atoms and bonds of a text and of its recursive parts, and their sizes.

ghost use Rattle.std.specs.Prelude.{◌≡◌, ◌⊎◌, ℕ, ◌+◌, ◌^◌, ◌<◌, ◌≤◌, ◌++◌, ◌↔◌, max, length, map, List, IsTrue, IfOk, IfErr, OnOk, IsErrOf};
ghost use Rattle.std.specs.List.{list_any};
ghost use Rattle.smarts_parse.specs.Whole.{Whole, IsWholeOf, part_texts};
ghost use Rattle.smarts_parse.specs.Reading.{most_bytes, is_stereo, is_ring_set};
ghost use Rattle.smarts_parse.specs.Draft.{IsDraftOf, any_atom, IsTaken, left_of, at_level};
ghost use Rattle.smarts_parse.specs.declared.fault.SmartsFault.TheVariants.{Syntax, NoMemory};

use crate::fault::SmartsFault;
use crate::items::{Read, read_items, read_plain};
use bumpalo::Bump;
use smarts_words::{AtomWord, Letter, PatternAtom, Step};
use std::alloc::{AllocError, Global};

/// The most atoms in all parts together.
const MOST_ATOMS: usize = 256;

/// The most recursive parts.
const MOST_PARTS: usize = 64;

/// The most recursive parts within one another.
const MOST_NESTING: usize = 8;

/// The most branches open at once.
const MOST_DEPTH: usize = 256;

/// A text that is in the grammar, before anything else of it is refused.
#[derive(Drop)]
pub struct Draft<'a> {
    /// Its items, without the contents of recursive parts.
    pub top: Read<'a>,
    /// The recursive parts: each before the parts in it, and a right one before those to the left of it. So their
    /// parentheses close in the opposite order.
    pub parts: Vec<Read<'a>>,
    /// For each atom of its items the number of its zero-level parentheses, from 1 on, or 0 outside of them.
    pub groups: Vec<u16>,
    pub sizes: Sizes,
}

/// The sizes of a text and its recursive parts that have a limit.
#[derive(Clone, Copy)]
pub struct Sizes {
    /// The atoms of all parts together.
    pub atoms: usize,
    /// The recursive parts.
    pub parts: usize,
    /// The recursive parts within one another, at most.
    pub nesting: usize,
    /// The branches that are open at once, at most.
    pub depth: usize,
}

impl Sizes {
    /// True if each is within its limit.
    pub fn are_within_limits(&self) -> bool
        ensures { IsTrue result ↔ ((self.now.atoms ≤ 256) × (self.now.parts ≤ 64)
            × (self.now.nesting ≤ 8) × (self.now.depth ≤ 256)) }
    {
        self.atoms <= MOST_ATOMS
            && self.parts <= MOST_PARTS
            && self.nesting <= MOST_NESTING
            && self.depth <= MOST_DEPTH
    }

    // Takes in the sizes of a reader whose text is within `level` recursive parts, itself included.
    fn take(&mut self, reader: &Read<'_>, level: usize)
        requires { self.old.atoms + length reader.now.atoms.items < 2 ^ 64 }
        ensures { IsTaken self.old self.new (length reader.now.atoms.items) reader.now.depth level }
    {
        self.atoms += reader.atoms.len();
        self.depth = self.depth.max(reader.depth);
        self.nesting = self.nesting.max(level);
    }
}

// A recursive part that is left to read, and the number of parts round it, itself included.
#[derive(Drop)]
struct Part {
    text: Vec<u8>,
    level: usize,
}

/// Reads a text and all its recursive parts, each once. `Syntax` if one of them has no tree.
pub fn read_draft<'a>(alloc: Global, arena: &'a Bump, text: &[u8]) -> Result<Draft<'a>, SmartsFault>
    requires { length text.now ≤ most_bytes }
    ensures found { IfOk result (λ d. (whole : Whole) × IsWholeOf text.now whole
        × IsDraftOf whole d) }
    ensures only { IsErrOf result SmartsFault.Syntax → (whole : Whole)
        → IsWholeOf text.now whole → ⊥ }
    ensures faults { IfErr result (λ e. (e ≡ Syntax) ⊎ (e ≡ NoMemory)) }
{
    let items = read_items(alloc, arena, text)?;
    let mut sizes = Sizes {
        atoms: 0,
        parts: 0,
        nesting: 0,
        depth: 0,
    };
    let mut left = Vec::new(alloc);
    put_parts(alloc, &items.reader.atoms, 1, &mut left)?;
    sizes.take(&items.reader, 0);
    let mut parts = Vec::new(alloc);
    'parts: while let Some(part) = left.pop() {
        let reader = read_plain(alloc, arena, &part.text)?;
        put_parts(alloc, &reader.atoms, part.level + 1, &mut left)?;
        sizes.take(&reader, part.level);
        sizes.parts += 1;
        parts.push(reader)?;
    }
    Ok(Draft {
        top: items.reader,
        parts,
        groups: items.groups,
        sizes,
    })
}

/// True if an atom of a draft has a configuration.
pub fn any_stereo(draft: &Draft<'_>) -> bool
    ensures { result ≡ any_atom (λ a. list_any is_stereo a.steps) draft.now }
{
    reads_stereo(&draft.top) || some_reads_stereo(&draft.parts)
}

/// True if an atom of a draft has a count of rings of a ring set.
pub fn any_ring_set(draft: &Draft<'_>) -> bool
    ensures { result ≡ any_atom (λ a. list_any is_ring_set a.steps) draft.now }
{
    reads_ring_set(&draft.top) || some_reads_ring_set(&draft.parts)
}

// Puts the recursive parts of atoms on the list.
fn put_parts(
    alloc: Global,
    atoms: &[PatternAtom],
    level: usize,
    left: &mut Vec<Part>,
) -> Result<(), AllocError>
    ensures { OnOk result (map left_of left.new.items
        ≡ map left_of left.old.items ++ at_level level (part_texts atoms.now)) }
{
    for atom in atoms {
        put_texts(alloc, atom.parts(), level, left)?;
    }
    Ok(())
}

// Puts recursive parts on the list.
fn put_texts(
    alloc: Global,
    texts: &[Vec<u8>],
    level: usize,
    left: &mut Vec<Part>,
) -> Result<(), AllocError>
    ensures { OnOk result (map left_of left.new.items
        ≡ map left_of left.old.items ++ at_level level (map (λ v. v.items) texts.now)) }
{
    for text in texts {
        let text = text.to_vec(alloc)?;
        left.push(Part { text, level })?;
    }
    Ok(())
}

fn some_reads_stereo(parts: &[Read<'_>]) -> bool
    ensures { result
        ≡ list_any (λ r. list_any (λ a. list_any is_stereo a.steps) r.atoms.items) parts.now }
{
    parts.iter().any(|part| reads_stereo(part))
}

fn reads_stereo(reader: &Read<'_>) -> bool
    ensures { result ≡ list_any (λ a. list_any is_stereo a.steps) reader.now.atoms.items }
{
    reader.atoms.iter().any(|atom| has_stereo(atom))
}

fn has_stereo(atom: &PatternAtom) -> bool
    ensures { result ≡ list_any is_stereo atom.now.steps }
{
    atom.steps().iter().any(|step| is_stereo(*step))
}

fn is_stereo(step: Step<AtomWord>) -> bool
    ensures { result ≡ is_stereo step }
{
    matches!(step, Step::Prim(AtomWord::Stereo))
}

fn some_reads_ring_set(parts: &[Read<'_>]) -> bool
    ensures { result
        ≡ list_any (λ r. list_any (λ a. list_any is_ring_set a.steps) r.atoms.items) parts.now }
{
    parts.iter().any(|part| reads_ring_set(part))
}

fn reads_ring_set(reader: &Read<'_>) -> bool
    ensures { result ≡ list_any (λ a. list_any is_ring_set a.steps) reader.now.atoms.items }
{
    reader.atoms.iter().any(|atom| has_ring_set(atom))
}

fn has_ring_set(atom: &PatternAtom) -> bool
    ensures { result ≡ list_any is_ring_set atom.now.steps }
{
    atom.steps().iter().any(|step| is_ring_set(*step))
}

fn is_ring_set(step: Step<AtomWord>) -> bool
    ensures { result ≡ is_ring_set step }
{
    matches!(
        step,
        Step::Prim(AtomWord::Count {
            letter: Letter::Rings,
            number: Some(1..)
        })
    )
}
