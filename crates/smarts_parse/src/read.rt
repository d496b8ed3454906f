//! Reading a pattern.

ghost use Rattle.std.specs.Prelude.{◌≡◌, ◌≢◌, ◌⊎◌, ◌↔◌, ℕ, true, List, Contains, IsTrue, IfOk, Result, Ok, Err};
ghost use Rattle.smarts_parse.specs.Pattern.{pattern_of, PatternTerm};
ghost use Rattle.smarts_parse.specs.Sound.{IsSoundPattern};
ghost use Rattle.smarts_parse.specs.Whole.{Whole, IsWholeOf};
ghost use Rattle.smarts_parse.specs.Reading.{is_stereo, NoLimit, IsReading, answer_of};
ghost use Rattle.smarts_parse.specs.Draft.{any_atom};
ghost use Rattle.std.specs.List.{list_any};
ghost use Rattle.smarts_parse.specs.declared.fault.SmartsFault.{SmartsFault};
ghost use Rattle.smarts_parse.specs.declared.fault.SmartsFault.TheVariants.{NoMemory};

use crate::build::pattern;
use crate::close::close;
use crate::draft::{Draft, any_ring_set, any_stereo, read_draft};
use crate::fault::SmartsFault;
use crate::pattern::Pattern;
use bumpalo::Bump;
use std::alloc::Global;

/// The longest text that is looked at, in bytes.
const MOST_BYTES: usize = 4096;

/// Reads a SMARTS pattern (Daylight Theory Manual, chapter SMARTS).
///
/// The first fault of this order is returned. `Limit`: more than 4,096 bytes. `Reaction`: a `>`. `Syntax`: a text that
/// is not in the grammar. `Stereo`: a configuration. `RingSet`: `R` with a number above 0. `Ring`: ring numbers that do
/// not pair. `Limit`: more than 256 atoms, 64 recursive parts, 8 of these within one another, or 256 branches open at
/// once. `NoMemory` may come at any text.
pub fn parse(alloc: Global, text: &[u8]) -> Result<Pattern, SmartsFault>
    ensures reading { IsReading text.now (answer_of result) }
    ensures sound { IfOk result (λ p. IsSoundPattern (pattern_of p)) }
{
    if text.len() > MOST_BYTES {
        return Err(SmartsFault::Limit);
    }
    if has_byte(text, b'>') {
        return Err(SmartsFault::Reaction);
    }
    let arena = Bump::new(alloc);
    let draft = read_draft(alloc, &arena, text)?;
    if has_stereo(&draft, text) {
        return Err(SmartsFault::Stereo);
    }
    if any_ring_set(&draft) {
        return Err(SmartsFault::RingSet);
    }
    let sizes = draft.sizes;
    let closed = close(alloc, draft)?;
    if !sizes.are_within_limits() {
        return Err(SmartsFault::Limit);
    }
    Ok(pattern(alloc, closed)?)
}

/// A law: a text has at most one tree.
pub fn one_tree()
    ensures { (text : List ℕ) (v w : Whole) → IsWholeOf text v → IsWholeOf text w → v ≡ w }
{}

/// A law: except for want of memory, a text has one answer.
pub fn one_answer()
    ensures { (text : List ℕ) (r s : Result PatternTerm SmartsFault) → IsReading text r → IsReading text s
        → r ≢ Err NoMemory → s ≢ Err NoMemory → r ≡ s }
{}

/// A law: a text that has no other fault is refused only for want of memory. It has a tree, no configuration, no count
/// of a ring set, ring numbers that pair, and is within the limits.
pub fn is_complete()
    ensures { (text : List ℕ) (whole : Whole) (r : Result PatternTerm SmartsFault)
        → NoLimit text whole → IsReading text r
        → (r ≡ Err NoMemory) ⊎ ((p : PatternTerm) × (r ≡ Ok p)) }
{}

// True if an atom or a bond has a configuration.
fn has_stereo(draft: &Draft<'_>, text: &[u8]) -> bool
    ensures { IsTrue result ↔ ((any_atom (λ a. list_any is_stereo a.steps) draft.now ≡ true)
        ⊎ Contains text.now 47 ⊎ Contains text.now 92) }
{
    any_stereo(draft) || has_byte(text, b'/') || has_byte(text, b'\\')
}

fn has_byte(text: &[u8], byte: u8) -> bool
    ensures { IsTrue result ↔ Contains text.now byte }
{
    text.contains(&byte)
}
