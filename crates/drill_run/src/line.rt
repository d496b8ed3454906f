//! The lines of a drill.
ghost use Rattle.std.specs.Prelude.{◌≡◌, ◌≢◌, ◌≤◌, IfNone, IfSome, decimal, option_map, ℕ};
ghost use Rattle.disk_pair.specs.declared.choice.Which.{Which};
ghost use Rattle.drill_run.specs.Lines.{IsLine, word_for};
ghost use Rattle.drill_run.specs.Views.{line_of};

use chem_text::decimal;
use disk_pair::Which;
use shell_lang::{are_same, split_at_space};

/// The number of sessions of a drill.
pub const SESSIONS: u32 = 16;

/// The greatest number of a call that fails, or of calls before a stop.
pub const MOST_CALLS: u32 = 1_000_000;

/// The greatest number of an image.
pub const LAST_IMAGE: u32 = u32::MAX;

/// A line of a drill.
#[derive(Clone, Copy, Debug)]
pub enum DrillLine<'a> {
    /// An empty line, which has no reply.
    Empty,
    /// `S LINE`: a script line for a session, from 1 on.
    Session { number: u32, line: &'a [u8] },
    /// `stop K`, and `stop-b K` for disk `b`: after `calls` calls of the disk each fails.
    Stop { disk: Which, calls: u32 },
    /// `fail K`, and `fail-b K` for disk `b`: the call of the disk of this number from now fails.
    Fail { disk: Which, call: u32 },
    /// `reopen N`: a crash that leaves the image of this number of each disk, and an opening.
    Reopen { image: u32 },
}

/// Reads a line, without its end. Numbers are decimals without leading zero. `None` if it is no line of a drill.
pub fn drill_line(line: &[u8]) -> Option<DrillLine<'_>>
    ensures { IsLine line.now (option_map line_of result) }
{
    if line.is_empty() {
        return Some(DrillLine::Empty);
    }
    let (first, rest) = split_at_space(line)?;
    if let Some(disk) = disk_of(first, b"stop", b"stop-b") {
        return Some(DrillLine::Stop {
            disk,
            calls: number(rest, MOST_CALLS)?,
        });
    }
    if let Some(disk) = disk_of(first, b"fail", b"fail-b") {
        return Some(DrillLine::Fail {
            disk,
            call: number_from_1(rest, MOST_CALLS)?,
        });
    }
    if are_same(first, b"reopen") {
        return Some(DrillLine::Reopen {
            image: number(rest, LAST_IMAGE)?,
        });
    }
    Some(DrillLine::Session {
        number: number_from_1(first, SESSIONS)?,
        line: rest,
    })
}

// The disk that a word is for, by the words for disk `a` and for disk `b`.
fn disk_of(word: &[u8], a: &[u8], b: &[u8]) -> Option<Which>
    ensures some { IfSome result (λ disk. word.now ≡ word_for disk a.now b.now) }
    ensures none { IfNone result ((disk : Which) → word.now ≢ word_for disk a.now b.now) }
{
    if are_same(word, a) {
        return Some(Which::First);
    }
    if are_same(word, b) {
        return Some(Which::Second);
    }
    None
}

// The number whose decimal the bytes are, if it is at most `most`.
fn number(bytes: &[u8], most: u32) -> Option<u32>
    ensures some { IfSome result (λ n. (n ≤ most) × (bytes.now ≡ decimal n)) }
    ensures none { IfNone result ((n : ℕ) → n ≤ most → bytes.now ≢ decimal n) }
{
    let number = decimal(bytes, u64::from(most))?;
    Some(number as u32)
}

// As `number`, but of a number that is not 0.
fn number_from_1(bytes: &[u8], most: u32) -> Option<u32>
    ensures some { IfSome result (λ n. (1 ≤ n) × (n ≤ most) × (bytes.now ≡ decimal n)) }
    ensures none { IfNone result ((n : ℕ) → 1 ≤ n → n ≤ most → bytes.now ≢ decimal n) }
{
    match number(bytes, most) {
        Some(number) if number >= 1 => Some(number),
        _ => None,
    }
}
