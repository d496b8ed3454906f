//! The summary of a transcript.
ghost use Rattle.std.specs.Prelude.{◌≡◌, ◌==◌, true, false, ◌++◌, ◌∷◌, [], drop, length, IfOk, OnOk, MatchOption, codes};
ghost use Rattle.std.specs.List.{before_first, after_first};
ghost use Rattle.chem_gen.specs.Script.{patterns};
ghost use Rattle.chem_gen.specs.Summary.{lines_of, last_version, is_ending, outcome, outcomes, begins, endings_in, summary_of};

use crate::generate::{PATTERNS, pattern};
use chem_text::push_decimal;
use memchr::memchr;
use std::alloc::{AllocError, Global};

/// The summary of a transcript of the script of that seed and count: both, the last version, and the end of each
/// search. Fails only for want of memory.
pub fn summary(
    alloc: Global,
    seed: u32,
    count: u32,
    transcript: &[u8],
) -> Result<Vec<u8>, AllocError>
    ensures { IfOk result (λ text. text.items ≡ summary_of seed count transcript.now) }
{
    let mut out = Vec::new(alloc);
    out.extend_from_slice(b"bulk seed ")?;
    push_decimal(&mut out, u64::from(seed))?;
    out.extend_from_slice(b" count ")?;
    push_decimal(&mut out, u64::from(count))?;
    out.extend_from_slice(b"\nversion ")?;
    out.extend_from_slice(version(transcript))?;
    out.push(b'\n')?;
    push_outcomes(&mut out, after_lines(transcript, count))?;
    Ok(out)
}

// Writes a line for each search that has an ending in the text.
fn push_outcomes(out: &mut Vec<u8>, text: &[u8]) -> Result<(), AllocError>
    ensures { OnOk result (out.new.items ≡ out.old.items ++ outcomes patterns (endings_in (lines_of text.now))) }
{
    let mut rest = text;
    for place in 0..PATTERNS {
        let Some((ending, after)) = next_ending(rest) else {
            break;
        };
        push_outcome(out, pattern(place), ending)?;
        rest = after;
    }
    Ok(())
}

fn push_outcome(out: &mut Vec<u8>, pattern: &[u8], ending: &[u8]) -> Result<(), AllocError>
    ensures { OnOk result (out.new.items ≡ out.old.items
        ++ (codes "search " ++ pattern.now ++ codes " " ++ outcome ending.now ++ 10 ∷ [])) }
{
    out.extend_from_slice(b"search ")?;
    out.extend_from_slice(pattern)?;
    out.push(b' ')?;
    out.extend_from_slice(outcome_of(ending))?;
    out.push(b'\n')?;
    Ok(())
}

// The outcome of a search, in its ending.
fn outcome_of(ending: &[u8]) -> &[u8]
    ensures { result.now ≡ outcome ending.now }
{
    match after_word(ending, b"end at ") {
        Some(rest) => cut(rest, b' ').1,
        None => ending,
    }
}

// The version of the last line `ok V`; `0` without one.
fn version(text: &[u8]) -> &[u8]
    ensures { result.now ≡ last_version (lines_of text.now) }
{
    let mut version: &[u8] = b"0";
    let mut rest = text;
    while !rest.is_empty() {
        let (line, after) = cut(rest, b'\n');
        if let Some(number) = after_word(line, b"ok ") {
            version = number;
        }
        rest = after;
    }
    version
}

// The text after `count` lines.
fn after_lines(text: &[u8], count: u32) -> &[u8]
    ensures { endings_in (lines_of result.now) ≡ endings_in (drop count (lines_of text.now)) }
{
    let mut rest = text;
    for _ in 0..count {
        rest = cut(rest, b'\n').1;
    }
    rest
}

// The first line that ends a search, and the text after it.
fn next_ending(text: &[u8]) -> Option<(&[u8], &[u8])>
    ensures { MatchOption result (endings_in (lines_of text.now) ≡ [])
        (λ r. endings_in (lines_of text.now) ≡ r.0.now ∷ endings_in (lines_of r.1.now)) }
{
    let mut rest = text;
    while !rest.is_empty() {
        let (line, after) = cut(rest, b'\n');
        if is_search_end(line) {
            return Some((line, after));
        }
        rest = after;
    }
    None
}

fn is_search_end(line: &[u8]) -> bool
    ensures { result ≡ is_ending line.now }
{
    line.starts_with(b"end at ") || line.starts_with(b"fault memory")
}

// The rest of the line after the word, if the line begins with it.
fn after_word<'a>(line: &'a [u8], word: &[u8]) -> Option<&'a [u8]>
    ensures { MatchOption result (begins line.now word.now ≡ false)
        (λ rest. (begins line.now word.now ≡ true) × (rest.now ≡ drop (length word.now) line.now)) }
{
    if line.starts_with(word) {
        Some(&line[word.len()..])
    } else {
        None
    }
}

// The bytes before the first `byte` and those after it; all bytes and no byte if it does not occur.
fn cut(text: &[u8], byte: u8) -> (&[u8], &[u8])
    ensures before { result.0.now ≡ before_first (λ b. b == byte) text.now }
    ensures after { result.1.now ≡ after_first (λ b. b == byte) text.now }
{
    match memchr(byte, text) {
        Some(place) => (&text[..place], &text[place + 1..]),
        None => (text, &text[text.len()..]),
    }
}
