//! The items of a text: its parts without and with zero-level parentheses, whose atoms are a group.

ghost use Rattle.std.specs.Prelude.{◌≡◌, ◌⊎◌, ℕ, ◌+◌, ◌++◌, ◌-◌, ◌≤◌, cond, List, length, replicate, IfOk, IfErr, OnOk, MatchResult};
ghost use Rattle.line_walk.specs.Walk.{Holds, IsBetween, IsTreeRead};
ghost use Rattle.smarts_words.specs.Words.{smarts_words};
ghost use Rattle.smarts_parse.specs.Whole.{Tree, Nodes, Item, item_text, others_text, AreItems};
ghost use Rattle.smarts_parse.specs.Reading.{most_bytes};
ghost use Rattle.smarts_parse.specs.Draft.{IsItemOf, IsItemRead, AreItemsRead};
ghost use Rattle.smarts_parse.specs.declared.fault.SmartsFault.TheVariants.{Syntax, NoMemory};
ghost use Rattle.line_walk.specs.Tree as walk;

use crate::fault::SmartsFault;
use crate::smarts::Smarts;
use bumpalo::Bump;
use line_walk::{Notation, Reader, no_reader, read_part};
use std::alloc::{AllocError, Global};

/// A text as a whole, without its recursive parts.
pub type Read<'a> = Reader<'a, smarts_words::PatternAtom, smarts_words::PatternBond>;

/// The items of a text, all of them in one reader.
#[derive(Drop)]
pub struct Items<'a> {
    pub reader: Read<'a>,
    /// For each atom the number of its zero-level parentheses, from 1 on, or 0 outside of them.
    pub groups: Vec<u16>,
}

/// Reads the items of a text that is not too long for its groups to have numbers.
pub fn read_items<'a>(alloc: Global, arena: &'a Bump, text: &[u8]) -> Result<Items<'a>, SmartsFault>
    requires { length text.now ≤ most_bytes }
    ensures found { IfOk result (λ r. AreItemsRead text.now r.reader r.groups.items) }
    ensures only { (x : Item) (xs : List Item) → AreItems x xs → text.now ≡ item_text x ++ others_text xs
        → IfErr result (λ e. e ≡ NoMemory) }
    ensures faults { IfErr result (λ e. (e ≡ Syntax) ⊎ (e ≡ NoMemory)) }
{
    let mut reader = no_reader::<Smarts>(alloc, arena);
    let mut groups = Vec::new(alloc);
    let mut count = 0;
    let mut rest = text;
    'items: loop {
        let (is_group, after) = item(alloc, &mut reader, rest)?;
        let group = group_after(count, is_group);
        count = count.max(group);
        put_group(&mut groups, reader.atoms.len(), group)?;
        match after {
            [] => return Ok(Items { reader, groups }),
            [b'.', next @ ..] => rest = next,
            _ => return Err(SmartsFault::Syntax),
        }
    }
}

/// Reads a text of one item without parentheses.
pub fn read_plain<'a>(alloc: Global, arena: &'a Bump, text: &[u8]) -> Result<Read<'a>, SmartsFault>
    ensures found { IfOk result (λ r. IsTreeRead smarts_words text.now r) }
    ensures only { (tree : Tree) → walk.IsTreeOf smarts_words text.now tree → IfErr result (λ e. e ≡ NoMemory) }
    ensures faults { IfErr result (λ e. (e ≡ Syntax) ⊎ (e ≡ NoMemory)) }
{
    let mut reader = no_reader::<Smarts>(alloc, arena);
    let rest = read_part::<Smarts>(alloc, &mut reader, text)?;
    if !rest.is_empty() {
        return Err(SmartsFault::Syntax);
    }
    Ok(reader)
}

// The group of the item after `count` groups: the next number, or 0 without parentheses.
fn group_after(count: u16, is_group: bool) -> u16
    requires { count ≤ most_bytes }
    ensures { result ≡ cond is_group (count + 1) 0 }
{
    if is_group { count + 1 } else { 0 }
}

// Gives the group to each of the first `atoms` atoms that has no group yet.
fn put_group(groups: &mut Vec<u16>, atoms: usize, group: u16) -> Result<(), AllocError>
    requires { length groups.old.items ≤ atoms }
    ensures { OnOk result (groups.new.items
        ≡ groups.old.items ++ replicate (atoms - length groups.old.items) group) }
{
    groups.resize(atoms, group)
}

// Reads the item that the bytes begin with. Returns true if it is in parentheses, and the bytes after it.
fn item<'a>(
    alloc: Global,
    reader: &mut Read<'_>,
    bytes: &'a [u8],
) -> Result<(bool, &'a [u8]), SmartsFault>
    requires closed { IsBetween reader.old }
    requires held { (front : Nodes) × Holds smarts_words front reader.old }
    ensures found { IfOk result (λ r. (front : Nodes) → Holds smarts_words front reader.old
        → IsItemRead front reader.old reader.new bytes.now r.0 r.1.now) }
    ensures only { (x : Item) (rest : List ℕ) → IsItemOf bytes.now x rest
        → MatchResult result (λ r. r.1.now ≡ rest) (λ e. e ≡ NoMemory) }
    ensures closed { OnOk result (IsBetween reader.new) }
    ensures faults { IfErr result (λ e. (e ≡ Syntax) ⊎ (e ≡ NoMemory)) }
{
    let [b'(', inside @ ..] = bytes else {
        return Ok((false, read_part::<Smarts>(alloc, reader, bytes)?));
    };
    match read_part::<Smarts>(alloc, reader, inside)? {
        [b')', rest @ ..] => Ok((true, rest)),
        _ => Err(SmartsFault::Syntax),
    }
}
