//! The texts of the molfiles and records that a line takes, or why there is no text. No more bytes of a text are kept
//! than a text with a structure may have, and no bytes of a line that is too long.
ghost use Rattle.std.specs.Prelude.{◌≡◌, ◌≤◌, ◌<◌, ◌++◌, ◌∷◌, [], ◌*◌, ◌+◌, length, List, min, not, OnErr, OnOk, Option, slice_get, Some, ℕ};
ghost use Rattle.io_edge.specs.Lines.{TextLine, TooLong, Whole};
ghost use Rattle.session_acts.specs.Records.{counted};
ghost use Rattle.dialogue.specs.Dialogue.{IsPrefixOf};
ghost use Rattle.session_run.specs.Taken.{AreTaken, IsKept, IsPart, IsRecordPart};
ghost use Rattle.shell_lang.specs.declared.command.TheConstants.{MOST_SD_RECORDS};

use mol_finish::TextFault;
use molfile_read::MolfileFault;
use session_acts::{MOST_COUNTED, MOST_SD_BYTES};
use shell_lang::Refusal;
use std::alloc::{AllocError, Global};

/// The part that was taken of the lines of a molfile or of a record.
#[derive(Clone, Copy, Debug, PartialEq, Eq)]
pub enum Part {
    /// Its text.
    Text,
    /// No text: a line of it is too long. Its lines count `size` bytes, at most `MOST_COUNTED`.
    Long { size: u64 },
    /// No text: it has more bytes than a text with a structure may have.
    Big,
    /// No text, though it has only `size` bytes: memory ran out, or no text is wanted.
    Lost { size: usize },
}

impl Part {
    /// The part with one more line.
    pub fn with_line(self, line: &[u8], text: &mut Vec<u8>) -> Part
        requires { (lines : List TextLine) × IsPart self lines text.old.items }
        ensures { (lines : List TextLine) → IsPart self lines text.old.items
            → IsPart result (lines ++ Whole line.now ∷ []) text.new.items }
    {
        match self {
            Part::Text => {
                let size = text.len() + line.len() + 1;
                if size >= MOST_COUNTED as usize {
                    return Part::Big;
                }
                match push_line(line, text) {
                    Ok(()) => Part::Text,
                    Err(_) => Part::Lost { size },
                }
            }
            Part::Lost { size } => {
                let size = size + line.len() + 1;
                if size >= MOST_COUNTED as usize {
                    return Part::Big;
                }
                Part::Lost { size }
            }
            Part::Long { size } => Part::Long {
                size: with_bytes(size, line.len() as u64),
            },
            Part::Big => Part::Big,
        }
    }

    /// The part with one more line that is too long, of `size` bytes.
    pub fn with_long(self, size: u64, text: &[u8]) -> Part
        requires { (lines : List TextLine) × IsPart self lines text.now }
        ensures { (lines : List TextLine) (any : List ℕ) → IsPart self lines text.now
            → IsPart result (lines ++ TooLong size ∷ []) any }
    {
        Part::Long {
            size: with_bytes(self.bytes(text), size),
        }
    }

    // The number of bytes that its lines count.
    fn bytes(self, text: &[u8]) -> u64
        ensures { (lines : List TextLine) → IsPart self lines text.now → result ≡ counted (Some lines) }
    {
        match self {
            Part::Text => text.len() as u64,
            Part::Long { size } => size,
            Part::Big => MOST_COUNTED,
            Part::Lost { size } => size as u64,
        }
    }
}

// The number of bytes counted with one more line, of `size` bytes and an LF; at most `MOST_COUNTED`.
fn with_bytes(before: u64, size: u64) -> u64
    requires { before ≤ MOST_COUNTED }
    ensures { result ≡ min (before + size + 1) MOST_COUNTED }
{
    if size < MOST_COUNTED - before {
        before + size + 1
    } else {
        MOST_COUNTED
    }
}

/// Appends a line and its LF.
pub fn push_line(line: &[u8], text: &mut Vec<u8>) -> Result<(), AllocError>
    ensures { OnOk result (text.new.items ≡ text.old.items ++ line.now ++ 10 ∷ []) }
{
    text.extend_from_slice(line)?;
    text.extend_from_slice(b"\n")
}

// The number of bytes that a record counts.
fn part_bytes(part: Option<Part>, text: &[u8]) -> u64
    ensures { (r : Option (List TextLine)) → IsRecordPart part r text.now → result ≡ counted r }
{
    match part {
        None => 0,
        Some(part) => part.bytes(text),
    }
}

/// The part of a record that is kept.
#[derive(Clone, Copy, Debug, PartialEq, Eq)]
pub enum Kept {
    /// Its text.
    Text,
    /// No text: the record is refused, whatever its identifier.
    Refused(Refusal),
    /// No text: memory ran out.
    Lost,
}

// The part of a record that is kept, if the texts up to and with it count `total` bytes.
fn kept_of(part: Option<Part>, total: u64) -> Kept
    ensures { (r : Option (List TextLine)) (text : List ℕ) → IsRecordPart part r text
        → IsKept total r result text }
{
    match part {
        None => Kept::Refused(Refusal::SdCut),
        Some(_) if total > MOST_SD_BYTES => Kept::Refused(Refusal::SdLimit),
        Some(Part::Text) => Kept::Text,
        Some(Part::Long { .. }) => Kept::Refused(Refusal::Long),
        Some(Part::Big) => { Kept::Refused(Refusal::Text(TextFault::Molfile(MolfileFault::Limit))) }
        Some(Part::Lost { .. }) => Kept::Lost,
    }
}

// A copy of the text, if it is kept and there is memory for it; else an empty text.
fn copied(alloc: Global, kept: Kept, text: &[u8]) -> (Kept, Vec<u8>)
    ensures { (total : ℕ) (r : Option (List TextLine)) → IsKept total r kept text.now
        → IsKept total r result.0 result.1.items }
{
    match kept {
        Kept::Text => match Vec::from_slice(alloc, text) {
            Ok(text) => (Kept::Text, text),
            Err(_) => (Kept::Lost, Vec::new(alloc)),
        },
        Kept::Refused(_) | Kept::Lost => (kept, Vec::new(alloc)),
    }
}

/// The records that a line takes, in order. If memory ran out for the lists, no more records are in them.
#[derive(Drop)]
pub struct SdTexts {
    pub alloc: Global,
    /// The kept part of each record.
    pub kept: Vec<Kept>,
    /// The text of each record; empty if no text is kept.
    pub texts: Vec<Vec<u8>>,
    /// The number of bytes that the records count.
    pub total: u64,
    /// No more records are kept.
    pub full: bool,
}

impl SdTexts {
    /// No records.
    pub fn new(alloc: Global) -> SdTexts
        ensures { AreTaken [] result }
    {
        SdTexts {
            alloc,
            kept: Vec::new(alloc),
            texts: Vec::new(alloc),
            total: 0,
            full: false,
        }
    }

    /// Forgets the records and frees their memory. If no text is `wanted`, no more records are kept.
    pub fn begin(&mut self, wanted: bool)
        ensures none { AreTaken [] self.new }
        ensures full { self.new.full ≡ not wanted }
    {
        self.kept = Vec::new(self.alloc);
        self.texts = Vec::new(self.alloc);
        self.total = 0;
        self.full = !wanted;
    }

    /// The beginning of the next record: `Lost` if no text of it would be kept.
    pub fn begun(&self) -> Part
        ensures { IsPart result [] [] }
    {
        if self.full || self.total > MOST_SD_BYTES {
            Part::Lost { size: 0 }
        } else {
            Part::Text
        }
    }

    /// Adds a record, by the part that was taken of it; `None` if no line of it was left.
    pub fn add(&mut self, part: Option<Part>, text: &[u8])
        requires few { self.old.total ≤ MOST_SD_RECORDS * MOST_COUNTED }
        requires part { (r : Option (List TextLine)) × IsRecordPart part r text.now }
        ensures { (records : List (Option (List TextLine))) (r : Option (List TextLine))
            → AreTaken records self.old → IsRecordPart part r text.now
            → AreTaken (records ++ r ∷ []) self.new }
    {
        self.total += part_bytes(part, text);
        if !self.full {
            let (kept, text) = copied(self.alloc, kept_of(part, self.total), text);
            self.full = self.push(kept, text).is_err();
        }
    }

    /// The kept part of the record at a place, if it is in the lists.
    pub fn kept_at(&self, place: u32) -> Option<Kept>
        ensures { result ≡ slice_get self.now.kept.items place }
    {
        self.kept.get(place as usize).copied()
    }

    // Adds a record to the lists.
    fn push(&mut self, kept: Kept, text: Vec<u8>) -> Result<(), AllocError>
        ensures ok { OnOk result ((self.new.kept.items ≡ self.old.kept.items ++ kept ∷ [])
            × (self.new.texts.items ≡ self.old.texts.items ++ text ∷ [])) }
        ensures err { OnErr result (self.new.kept.items ≡ self.old.kept.items) }
        ensures first { IsPrefixOf self.old.texts.items self.new.texts.items }
        ensures few { length self.new.texts.items ≤ length self.old.texts.items + 1 }
        ensures total { self.new.total ≡ self.old.total }
        ensures full { self.new.full ≡ self.old.full }
    {
        self.texts.push(text)?;
        self.kept.push(kept)?;
        Ok(())
    }
}
