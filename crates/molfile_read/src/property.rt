//! Property lines.
ghost use Rattle.std.specs.Prelude.{◌≡◌, ◌≢◌, ◌<◌, ◌≤◌, ◌∷◌, [], ℕ, slice_index, false, true, length, option_map, MatchOption, MatchResult, IfSome, IfOk, IfErr, OnOk, Ok, Err};
ghost use Rattle.std.specs.List.{AllByRecursion};
ghost use Rattle.molfile_read.specs.Properties.{words, value_in, electrons_of, place_in, setting_at, count_at, counted_pairs, tag_of, untagged, is_query_line, is_passed_over, passes_next, property_read, property_lines, is_ended, settings_read};
ghost use Rattle.molfile_read.specs.Parts.{IsSetting, IsValue, Appends, Adds, Stops};

use crate::bond::is_atom;
use crate::fault::MolfileFault;
use crate::field::{after_blanks, decimal, signed};
use crate::lines::Lines;
use crate::setting::{Setting, Tag, Value};
use bumpalo::Bump;
use std::alloc::AllocError;

/// The settings of the next property lines, up to the end, for `atoms` atoms.
pub(crate) fn read_properties<'a>(
    arena: &'a Bump,
    lines: &mut Lines,
    atoms: u16,
) -> Result<Vec<Setting, &'a Bump>, MolfileFault>
    ensures found { IfOk result (λ settings.
        (settings_read atoms (property_lines false lines.old) ≡ Ok settings.items)
        × (is_ended false lines.old ≡ true)) }
    ensures range { IfOk result (λ settings. AllByRecursion (IsSetting atoms) settings.items) }
    ensures fault { IfErr result
        (Stops (settings_read atoms (property_lines false lines.old)) (is_ended false lines.old)) }
{
    let mut settings = Vec::new(arena);
    while let Some((at, line)) = lines.next() {
        if line.starts_with(b"M  END") {
            return Ok(settings);
        }
        property(at, line, atoms, &mut settings)?;
        if passes_next(line) {
            lines.skip();
        }
    }
    Err(MolfileFault::Cut)
}

// Adds the settings of a property line.
fn property(
    at: u32,
    line: &[u8],
    atoms: u16,
    settings: &mut Vec<Setting, &Bump>,
) -> Result<(), MolfileFault>
    requires { AllByRecursion (IsSetting atoms) settings.old.items }
    ensures read { Appends (property_read atoms (at, line.now)) settings.old.items
        settings.new.items result }
    ensures range { OnOk result (AllByRecursion (IsSetting atoms) settings.new.items) }
{
    let Some(tag) = tag_of(line) else {
        return untagged(at, line);
    };
    if read_pairs(&line[6..], tag, atoms, settings)? {
        Ok(())
    } else {
        Err(MolfileFault::Columns(at))
    }
}

// The kind of values that a line sets, if it sets any.
fn tag_of(line: &[u8]) -> Option<Tag>
    ensures value { result ≡ tag_of line.now }
    ensures long { IfSome result (λ _. 6 ≤ length line.now) }
{
    if line.starts_with(b"M  CHG") {
        Some(Tag::Charge)
    } else if line.starts_with(b"M  RAD") {
        Some(Tag::Radical)
    } else if line.starts_with(b"M  ISO") {
        Some(Tag::Isotope)
    } else {
        None
    }
}

// Passes over a line that sets no values, or refuses it.
fn untagged(at: u32, line: &[u8]) -> Result<(), MolfileFault>
    ensures { MatchResult result (λ _. untagged (at, line.now) ≡ Ok [])
        (λ e. untagged (at, line.now) ≡ Err e) }
{
    if is_query_line(line) {
        Err(MolfileFault::Query(at))
    } else if is_passed_over(line) {
        Ok(())
    } else {
        Err(MolfileFault::Columns(at))
    }
}

fn is_query_line(line: &[u8]) -> bool
    ensures { result ≡ is_query_line line.now }
{
    line.starts_with(b"M  ALS")
        || line.starts_with(b"M  RBC")
        || line.starts_with(b"M  SUB")
        || line.starts_with(b"M  UNS")
        || line.starts_with(b"M  LIN")
        || line.starts_with(b"M  RGP")
        || line.starts_with(b"M  LOG")
}

fn is_passed_over(line: &[u8]) -> bool
    ensures { result ≡ is_passed_over line.now }
{
    line.starts_with(b"M  ") || line.starts_with(b"V  ") || passes_next(line)
}

// True if the line after it is passed over.
fn passes_next(line: &[u8]) -> bool
    ensures { result ≡ passes_next line.now }
{
    line.starts_with(b"A  ") || line.starts_with(b"G  ")
}

// Adds the values of a count and of that number of pairs; false if the text is anything else.
fn read_pairs(
    text: &[u8],
    tag: Tag,
    atoms: u16,
    settings: &mut Vec<Setting, &Bump>,
) -> Result<bool, AllocError>
    requires { AllByRecursion (IsSetting atoms) settings.old.items }
    ensures read { IfOk result
        (Adds (counted_pairs tag atoms (words text.now)) settings.old.items settings.new.items) }
    ensures range { OnOk result (AllByRecursion (IsSetting atoms) settings.new.items) }
{
    let Some((count, mut rest)) = counted(text) else {
        return Ok(false);
    };
    for _ in 0..count {
        let Some((setting, after)) = setting(rest, tag, atoms) else {
            return Ok(false);
        };
        settings.push(setting)?;
        rest = after;
    }
    Ok(next_word(rest).is_none())
}

// The count of 1 to 8 that the text begins with, and the text after it.
fn counted(text: &[u8]) -> Option<(u16, &[u8])>
    ensures value { option_map (λ r. (r.0, words r.1.now)) result ≡ count_at (words text.now) }
    ensures few { IfSome result (λ r. r.0 ≤ 8) }
{
    let (word, rest) = next_word(text)?;
    let count = decimal(word, 8)?;
    if count == 0 {
        return None;
    }
    Some((count, rest))
}

// The atom and the value that the text begins with, and the text after them.
fn setting(text: &[u8], tag: Tag, atoms: u16) -> Option<(Setting, &[u8])>
    ensures value { option_map (λ r. (r.0, words r.1.now)) result
        ≡ setting_at tag atoms (words text.now) }
    ensures range { IfSome result (λ r. IsSetting atoms r.0) }
{
    let (atom, rest) = next_word(text)?;
    let (value, rest) = next_word(rest)?;
    let atom = place(atom, atoms)?;
    let value = value_of(value, tag)?;
    Some((Setting { atom, value }, rest))
}

// The place of the atom that a word names.
fn place(word: &[u8], atoms: u16) -> Option<u16>
    ensures value { result ≡ place_in atoms word.now }
    ensures range { IfSome result (λ a. a < atoms) }
{
    let number = decimal(word, 999)?;
    if is_atom(atoms, number) {
        Some(number - 1)
    } else {
        None
    }
}

// The value that a word spells.
fn value_of(word: &[u8], tag: Tag) -> Option<Value>
    ensures value { result ≡ value_in tag word.now }
    ensures range { IfSome result IsValue }
{
    match tag {
        Tag::Charge => Some(Value::Charge(signed(word, 15)?)),
        Tag::Radical => Some(Value::Radical(electrons_of(decimal(word, 3)?))),
        Tag::Isotope => Some(Value::Isotope(decimal(word, 999)?)),
    }
}

// The electrons of a radical: 1 is a singlet, 2 a doublet, 3 a triplet.
fn electrons_of(radical: u16) -> u8
    ensures value { result ≡ electrons_of radical }
    ensures few { result ≤ 2 }
{
    match radical {
        0 => 0,
        2 => 1,
        _ => 2,
    }
}

// The next word, and the text after it.
fn next_word(text: &[u8]) -> Option<(&[u8], &[u8])>
    ensures { MatchOption result (words text.now ≡ [])
        (λ r. words text.now ≡ r.0.now ∷ words r.1.now) }
{
    let rest = after_blanks(text);
    if rest.is_empty() {
        return None;
    }
    Some(rest.split_at(before_blank(rest)))
}

// The number of bytes before the first blank, or before the end.
fn before_blank(bytes: &[u8]) -> usize
    ensures within { result ≤ length bytes.now }
    ensures before { (k : ℕ) → k < result → slice_index bytes.now k ≢ 32 }
    ensures blank { result < length bytes.now → slice_index bytes.now result ≡ 32 }
{
    for (place, byte) in bytes.iter().enumerate() {
        if *byte == b' ' {
            return place;
        }
    }
    bytes.len()
}
