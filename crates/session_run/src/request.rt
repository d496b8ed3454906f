//! The request under way: a line, with the lines of its molfile or of its records if it takes them.
ghost use Rattle.std.specs.Prelude.{◌≡◌, ◌≢◌, ◌↔◌, [], IsTrue, List, ℕ};
ghost use Rattle.dialogue.specs.Dialogue.{IsAsked};
ghost use Rattle.io_edge.specs.Lines.{TextLine, TooLong, Whole};
ghost use Rattle.session_acts.specs.Records.{records_in};
ghost use Rattle.session_acts.specs.Requests.{IsWhole, request_of};
ghost use Rattle.session_acts.specs.Talking.{sessions};
ghost use Rattle.session_run.specs.Taken.{AreTaken, IsPart};
ghost use Rattle.session_run.specs.Underway.{AddsLine, AddsRecordLine, Begins, EndsRecord, HoldsLines, HoldsRecords, IsNext, IsOpen};

use crate::records::{Part, SdTexts};
use sd_read::is_record_end;
use shell_lang::{LineRefusal, MolfileChange, TakenLines, ends_molfile, taken_lines};

/// The kind of the request under way.
#[derive(Clone, Copy, Debug, PartialEq, Eq)]
pub enum Next {
    /// No line was taken.
    End,
    /// A line that is too long.
    Long,
    /// A line that takes no lines.
    Line,
    /// A line that takes a molfile: its change, or why it is no command; and the molfile.
    WithMolfile {
        read: Result<MolfileChange, LineRefusal>,
        molfile: Part,
    },
    /// A line that takes `count` records: their first identifier, or why it is no command.
    WithRecords {
        count: u32,
        first: Result<u32, LineRefusal>,
    },
}

/// The state of the request under way. The text of its molfile or of its last record, and its records that are ended,
/// are kept elsewhere.
#[derive(Clone, Copy, Debug, PartialEq, Eq)]
pub struct Taking {
    pub next: Next,
    /// The number of its records that are not ended.
    pub left: u32,
    /// The part that was taken of the record under way; `None` if no line of it was taken.
    pub part: Option<Part>,
}

impl Taking {
    /// No line was taken.
    pub fn new() -> Taking
        ensures { (text : List ℕ) (records : _) → HoldsLines result [] text records }
    {
        Taking {
            next: Next::End,
            left: 0,
            part: None,
        }
    }

    /// Adds a line. Returns true if the request is whole with it.
    pub fn add(&mut self, line: &[u8], text: &mut Vec<u8>, records: &mut SdTexts) -> bool
        requires { (lines : List TextLine) × HoldsLines self.old lines text.old.items records.old × ¬ IsWhole lines }
        ensures { AddsLine self.old self.new text.old.items text.new.items records.old records.new
            (Whole line.now) result }
    {
        match self.next {
            Next::End => self.begin(line, text, records),
            Next::Long => true,
            Next::Line => true,
            Next::WithMolfile { read, molfile } => {
                let molfile = molfile.with_line(line, text);
                self.next = Next::WithMolfile { read, molfile };
                ends_molfile(line)
            }
            Next::WithRecords { .. } => {
                if is_record_end(line) {
                    self.end_record(text, records)
                } else {
                    self.add_to_record(line, text, records);
                    false
                }
            }
        }
    }

    /// Adds a line that is too long, of `size` bytes. Returns true if the request is whole with it.
    pub fn add_long(&mut self, size: u64, text: &[u8], records: &SdTexts) -> bool
        requires { (lines : List TextLine) × HoldsLines self.old lines text.now records.now × ¬ IsWhole lines }
        ensures { AddsLine self.old self.new text.now text.now records.now records.now (TooLong size) result }
    {
        match self.next {
            Next::End => {
                self.next = Next::Long;
                true
            }
            Next::Long => true,
            Next::Line => true,
            Next::WithMolfile { read, molfile } => {
                let molfile = molfile.with_long(size, text);
                self.next = Next::WithMolfile { read, molfile };
                false
            }
            Next::WithRecords { .. } => {
                self.part = Some(self.so_far(records).with_long(size, text));
                false
            }
        }
    }

    /// The kind of the request, which gets no more lines. A record without an end is added to its records, and each
    /// record of which no line was taken.
    pub fn finish(self, text: &[u8], records: &mut SdTexts) -> Next
        requires { (lines : List TextLine) × HoldsLines self lines text.now records.old }
        ensures { (lines : List TextLine) (line : List ℕ) → HoldsLines self lines text.now records.old
            → IsAsked sessions lines line → IsNext result (request_of lines) line text.now records.new }
    {
        match self.next {
            Next::WithRecords { .. } => {
                fill(self.left, self.part, text, records);
                self.next
            }
            Next::End => self.next,
            Next::Long => self.next,
            Next::Line => self.next,
            Next::WithMolfile { .. } => self.next,
        }
    }

    // Begins a request with a line.
    fn begin(&mut self, line: &[u8], text: &mut Vec<u8>, records: &mut SdTexts) -> bool
        ensures { Begins self.new text.new.items records.new line.now result }
    {
        text.clear();
        match taken_lines(line) {
            None => {
                self.next = Next::Line;
                true
            }
            Some(TakenLines::Molfile(read)) => {
                self.next = Next::WithMolfile {
                    read,
                    molfile: Part::Text,
                };
                false
            }
            Some(TakenLines::Records { count, first }) => {
                records.begin(first.is_ok());
                self.next = Next::WithRecords { count, first };
                self.left = count;
                self.part = None;
                false
            }
        }
    }

    // The part of the record under way.
    fn so_far(&self, records: &SdTexts) -> Part
        ensures { (tail : List TextLine) (text : List ℕ) → IsOpen self.now.part tail text → IsPart result tail text }
    {
        match self.part {
            Some(part) => part,
            None => records.begun(),
        }
    }

    // Adds the record under way, which is ended. Returns true if it was the last one.
    fn end_record(&mut self, text: &mut Vec<u8>, records: &mut SdTexts) -> bool
        requires { (count : ℕ) × (more : List TextLine)
            × HoldsRecords count more self.old.left self.old.part text.old.items records.old × (self.old.left ≢ 0) }
        ensures next { self.new.next ≡ self.old.next }
        ensures last { EndsRecord self.old.left self.old.part self.new.left self.new.part text.old.items text.new.items
            records.old records.new }
        ensures all { IsTrue result ↔ (self.new.left ≡ 0) }
    {
        let part = self.so_far(records);
        records.add(Some(part), text);
        text.clear();
        self.left -= 1;
        self.part = None;
        self.left == 0
    }

    // Adds a line to the record under way.
    fn add_to_record(&mut self, line: &[u8], text: &mut Vec<u8>, records: &SdTexts)
        requires { (tail : List TextLine) × IsOpen self.old.part tail text.old.items }
        ensures next { self.new.next ≡ self.old.next }
        ensures left { self.new.left ≡ self.old.left }
        ensures more { AddsRecordLine self.old.part self.new.part text.old.items text.new.items (Whole line.now) }
    {
        self.part = Some(self.so_far(records).with_line(line, text));
    }
}

// Adds the record under way and those of which no line was taken.
fn fill(left: u32, part: Option<Part>, text: &[u8], records: &mut SdTexts)
    requires { (count : ℕ) × (more : List TextLine) × HoldsRecords count more left part text.now records.old }
    ensures { (count : ℕ) (more : List TextLine) → HoldsRecords count more left part text.now records.old
        → AreTaken (records_in count more) records.new }
{
    let mut left = left;
    let mut part = part;
    while left > 0 {
        left -= 1;
        records.add(part, text);
        part = None;
    }
}
