//! Reply lines.
ghost use Rattle.std.specs.Prelude.{◌≡◌, ◌==◌, ◌≤◌, ◌∷◌, [], ◌++◌, OnOk, OnErr, length, count_by, if◌then◌else◌};
ghost use Rattle.std.specs.Fmt.{decimal};
ghost use Rattle.shell_lang.specs.Reply.{Data, ended, line_count, text_part, molfile_lines, record_words, like_words, scored_words, watching_words, watched_words, live_words, kept_words, count_words, reply_of, reply_line, text_words, smiles_words, molfile_words, pattern_words};
ghost use Rattle.shell_lang.specs.Written.{Extends};

use crate::command::LineRefusal;
use chem_text::push_decimal;
use mol_finish::{Format, TextFault};
use molfile_read::MolfileFault;
use smarts_parse::SmartsFault;
use smiles_read::SmilesFault;
use std::alloc::AllocError;
use std::sync::Arc;
use store_core::{Record, Stats};

/// A reply.
#[derive(Drop)]
pub enum Reply {
    /// A commit, and the version that it made.
    Accepted {
        version: u32,
    },
    /// A live record, and the version of the commit that made it so. The lines of a molfile follow.
    Shown {
        version: u32,
        entry: Arc<Record>,
    },
    /// An identifier that is withdrawn, and the version of the commit that withdrew it.
    Gone {
        id: u32,
        version: u32,
    },
    /// An identifier that a search lists.
    Hit {
        id: u32,
    },
    /// The end of a search: the version that it saw, the number of identifiers that its prints let through, and the
    /// number that it listed.
    End {
        version: u32,
        tried: u32,
        hits: u32,
    },
    /// An identifier that a search for similar structures lists, with the numbers of bits that are set in both prints,
    /// and in at least one.
    Like {
        id: u32,
        c: u32,
        u: u32,
    },
    /// The end of a search for similar structures: the version that it saw, the number of live identifiers there, and
    /// the number that it listed.
    Scored {
        version: u32,
        scored: u32,
        hits: u32,
    },
    /// A cursor, and the version that it sees.
    Opened {
        version: u32,
    },
    /// The end of a page that others follow.
    More,
    /// The cursor is closed.
    Closed,
    /// A pattern is watched from now on: the version that was searched, and the number of identifiers that match there.
    Watching {
        version: u32,
        hits: u32,
    },
    /// The end of the list of a watch: its version, the number of listed identifiers, and the number of listings that
    /// searched anew.
    EndWatched {
        version: u32,
        hits: u32,
        rebuilt: u32,
    },
    /// The pattern is no longer watched.
    Unwatched,
    /// The number of entries that a prune dropped.
    Pruned {
        count: u32,
    },
    /// A step of a compaction, and the number of items that are left.
    Compacting {
        left: u32,
    },
    /// The end of a compaction, and the generation of the store's disk from now on.
    Compacted {
        generation: u32,
    },
    /// Counts of the store.
    Counts(Stats),
    /// The command is refused, and nothing is done.
    Refused(Refusal),
    /// A disk failed in a commit, or in a step of a compaction, which is given up. With `doubt` a crash may yet show
    /// the change committed, or the compaction ended.
    DiskFault {
        doubt: bool,
    },
    /// Memory ran out, and the command did nothing. But a search may have listed some hits, and a step of a compaction
    /// may have written some items.
    MemoryFault,
}

/// Why a command is refused, in the order of the checks. A `register-new` pins a version before it looks for the same
/// structure there, so there `Pins` comes before `Same`. A `NoMemory` inside is written as `fault memory`.
#[derive(Clone, Copy, Debug, PartialEq, Eq)]
pub enum Refusal {
    /// The line, or a line of its molfile or record, exceeds 65,536 bytes.
    Long,
    /// The line spells no command.
    Line(LineRefusal),
    /// No line of the record was left: the input ended before it.
    SdCut,
    /// The texts of the records up to and with this one exceed 67,108,864 bytes.
    SdLimit,
    /// The text has no structure.
    Text(TextFault),
    /// The text is no pattern.
    Pattern(SmartsFault),
    /// No cursor has the name, or one has it already.
    Cursor,
    /// No watch has the name, or one has it already.
    Watch,
    /// The limit of 16 watched patterns is reached.
    Watches,
    /// A live record has the structure already, and `id` is the least of them.
    Same { id: u32 },
    /// The identifier was registered before.
    Known,
    /// The identifier was never registered.
    Absent,
    /// The identifier is withdrawn.
    Withdrawn,
    /// The record is no molfile, or has no data item of the name.
    Data,
    /// The store has reached its limit of commits.
    Full,
    /// The limit of 64 held pins is reached.
    Pins,
    /// No generation is left, so that no compaction may begin.
    Generation,
}

/// Appends the reply's lines, each with its LF. An `Err` changes nothing.
pub fn reply_text(reply: &Reply, out: &mut Vec<u8>) -> Result<(), AllocError>
    ensures ok { OnOk result (out.new.items ≡ out.old.items ++ reply_line (reply_of reply.now)) }
    ensures err { OnErr result (out.new.items ≡ out.old.items) }
{
    let len = out.len();
    let result = reply.push_lines(out);
    if result.is_err() {
        out.truncate(len);
    }
    result
}

/// Appends the lines of a data item: the number of lines of its data, and these, each with its LF. They lie in the
/// record's text, so no `Reply` owns a copy of them. An `Err` changes nothing.
pub fn data_text(id: u32, text: &[u8], out: &mut Vec<u8>) -> Result<(), AllocError>
    ensures ok { OnOk result (out.new.items ≡ out.old.items ++ reply_line (Data id text.now)) }
    ensures err { OnErr result (out.new.items ≡ out.old.items) }
{
    let len = out.len();
    let result = push_data(id, text, out);
    if result.is_err() {
        out.truncate(len);
    }
    result
}

// Appends the lines of a data item.
fn push_data(id: u32, text: &[u8], out: &mut Vec<u8>) -> Result<(), AllocError>
    ensures ok { OnOk result (out.new.items ≡ out.old.items ++ reply_line (Data id text.now)) }
    ensures err { OnErr result (Extends out.old.items out.new.items) }
{
    push_number(out, "data ", id)?;
    push(out, " ")?;
    push_decimal(out, lines_of(text))?;
    out.extend_from_slice(b"\n")?;
    push_ended(text, out)
}

impl Reply {
    ghost use Rattle.shell_lang.specs.Reply.{reply_words};

    // Appends the lines, each with its LF.
    fn push_lines(&self, out: &mut Vec<u8>) -> Result<(), AllocError>
        ensures ok { OnOk result (out.new.items ≡ out.old.items ++ reply_line (reply_of self.now)) }
        ensures err { OnErr result (Extends out.old.items out.new.items) }
    {
        self.push_words(out)?;
        out.extend_from_slice(b"\n")?;
        match self {
            Reply::Shown { entry, .. } => push_molfile(entry, out),
            _ => Ok(()),
        }
    }

    fn push_words(&self, out: &mut Vec<u8>) -> Result<(), AllocError>
        ensures ok { OnOk result (out.new.items
            ≡ out.old.items ++ reply_words (reply_of self.now)) }
        ensures err { OnErr result (Extends out.old.items out.new.items) }
    {
        match self {
            Reply::Accepted { version } => push_number(out, "ok ", *version),
            Reply::Shown { version, entry } => push_record(entry, *version, out),
            Reply::Gone { id, version } => {
                push_number(out, "withdrawn ", *id)?;
                push_number(out, " version ", *version)
            }
            Reply::Hit { id } => push_number(out, "hit ", *id),
            Reply::End {
                version,
                tried,
                hits,
            } => {
                push_number(out, "end at ", *version)?;
                push_number(out, " tried ", *tried)?;
                push_number(out, " hits ", *hits)
            }
            Reply::Like { id, c, u } => push_like(*id, *c, *u, out),
            Reply::Scored {
                version,
                scored,
                hits,
            } => push_scored(*version, *scored, *hits, out),
            Reply::Opened { version } => push_number(out, "opened ", *version),
            Reply::More => push(out, "more"),
            Reply::Closed => push(out, "closed"),
            Reply::Watching { version, hits } => push_watching(*version, *hits, out),
            Reply::EndWatched {
                version,
                hits,
                rebuilt,
            } => push_watched(*version, *hits, *rebuilt, out),
            Reply::Unwatched => push(out, "unwatched"),
            Reply::Pruned { count } => push_number(out, "pruned ", *count),
            Reply::Compacting { left } => push_number(out, "compacting ", *left),
            Reply::Compacted { generation } => push_number(out, "compacted ", *generation),
            Reply::Counts(stats) => push_stats(*stats, out),
            Reply::Refused(refusal) => refusal.push_words(out),
            Reply::DiskFault { doubt: true } => push(out, "fault disk doubt"),
            Reply::DiskFault { doubt: false } => push(out, "fault disk sure"),
            Reply::MemoryFault => push(out, "fault memory"),
        }
    }
}

impl Refusal {
    ghost use Rattle.shell_lang.specs.Reply.{refusal_words};

    fn push_words(self, out: &mut Vec<u8>) -> Result<(), AllocError>
        ensures ok { OnOk result (out.new.items ≡ out.old.items ++ refusal_words self) }
        ensures err { OnErr result (Extends out.old.items out.new.items) }
    {
        match self {
            Refusal::Long => push(out, "refused long"),
            Refusal::Line(LineRefusal::Syntax) => push(out, "refused syntax"),
            Refusal::Line(LineRefusal::Id) => push(out, "refused id"),
            Refusal::SdCut => push(out, "refused sd cut"),
            Refusal::SdLimit => push(out, "refused sd limit"),
            Refusal::Text(fault) => push_text_fault(fault, out),
            Refusal::Pattern(fault) => push(out, pattern_fault(fault)),
            Refusal::Cursor => push(out, "refused cursor"),
            Refusal::Watch => push(out, "refused watch"),
            Refusal::Watches => push(out, "refused watches"),
            Refusal::Same { id } => push_number(out, "refused same ", id),
            Refusal::Known => push(out, "refused known"),
            Refusal::Absent => push(out, "refused absent"),
            Refusal::Withdrawn => push(out, "refused withdrawn"),
            Refusal::Data => push(out, "refused data"),
            Refusal::Full => push(out, "refused full"),
            Refusal::Pins => push(out, "refused pins"),
            Refusal::Generation => push(out, "refused generation"),
        }
    }
}

// Appends a hit of a search for similar structures.
fn push_like(id: u32, c: u32, u: u32, out: &mut Vec<u8>) -> Result<(), AllocError>
    ensures ok { OnOk result (out.new.items ≡ out.old.items ++ like_words id c u) }
    ensures err { OnErr result (Extends out.old.items out.new.items) }
{
    push_number(out, "like ", id)?;
    push_number(out, " ", c)?;
    push_number(out, " ", u)
}

// Appends the end of a search for similar structures.
fn push_scored(version: u32, scored: u32, hits: u32, out: &mut Vec<u8>) -> Result<(), AllocError>
    ensures ok { OnOk result (out.new.items
        ≡ out.old.items ++ scored_words version scored hits) }
    ensures err { OnErr result (Extends out.old.items out.new.items) }
{
    push_number(out, "end at ", version)?;
    push_number(out, " scored ", scored)?;
    push_number(out, " hits ", hits)
}

// Appends a new watch.
fn push_watching(version: u32, hits: u32, out: &mut Vec<u8>) -> Result<(), AllocError>
    ensures ok { OnOk result (out.new.items ≡ out.old.items ++ watching_words version hits) }
    ensures err { OnErr result (Extends out.old.items out.new.items) }
{
    push_number(out, "watching ", version)?;
    push_number(out, " hits ", hits)
}

// Appends the end of the list of a watch.
fn push_watched(version: u32, hits: u32, rebuilt: u32, out: &mut Vec<u8>) -> Result<(), AllocError>
    ensures ok { OnOk result (out.new.items
        ≡ out.old.items ++ watched_words version hits rebuilt) }
    ensures err { OnErr result (Extends out.old.items out.new.items) }
{
    push_number(out, "end at ", version)?;
    push_number(out, " hits ", hits)?;
    push_number(out, " rebuilt ", rebuilt)
}

// Appends the words of a live record, without the lines of a molfile.
fn push_record(entry: &Record, version: u32, out: &mut Vec<u8>) -> Result<(), AllocError>
    ensures ok { OnOk result (out.new.items
        ≡ out.old.items ++ record_words entry.now.id version entry.now.format entry.now.text) }
    ensures err { OnErr result (Extends out.old.items out.new.items) }
{
    push_number(out, "record ", entry.id())?;
    push_number(out, " version ", version)?;
    push_text(entry.format(), entry.text(), out)
}

// Appends a SMILES, or the number of lines of a molfile.
fn push_text(format: Format, text: &[u8], out: &mut Vec<u8>) -> Result<(), AllocError>
    ensures ok { OnOk result (out.new.items ≡ out.old.items ++ text_part format text.now) }
    ensures err { OnErr result (Extends out.old.items out.new.items) }
{
    match format {
        Format::Smiles => {
            push(out, " smiles ")?;
            out.extend_from_slice(text)
        }
        Format::Molfile => {
            push(out, " molfile ")?;
            push_decimal(out, lines_of(text))
        }
    }
}

// Appends the lines of a molfile; of a SMILES nothing.
fn push_molfile(entry: &Record, out: &mut Vec<u8>) -> Result<(), AllocError>
    ensures ok { OnOk result (out.new.items
        ≡ out.old.items ++ molfile_lines entry.now.format entry.now.text) }
    ensures err { OnErr result (Extends out.old.items out.new.items) }
{
    match entry.format() {
        Format::Smiles => Ok(()),
        Format::Molfile => push_ended(entry.text(), out),
    }
}

// Appends a text, and an LF if its last line has none.
fn push_ended(text: &[u8], out: &mut Vec<u8>) -> Result<(), AllocError>
    ensures ok { OnOk result (out.new.items ≡ out.old.items ++ ended text.now) }
    ensures err { OnErr result (Extends out.old.items out.new.items) }
{
    out.extend_from_slice(text)?;
    if is_open(text) {
        out.extend_from_slice(b"\n")?;
    }
    Ok(())
}

// The number of lines of a text.
fn lines_of(text: &[u8]) -> u64
    ensures { result ≡ line_count text.now }
{
    let whole = line_ends(text) as u64;
    if is_open(text) { whole + 1 } else { whole }
}

// The number of LF of a text.
fn line_ends(text: &[u8]) -> usize
    ensures count { result ≡ count_by (λ b. b == 10) text.now }
    ensures within { result ≤ length text.now }
{
    text.iter().filter(|byte| **byte == b'\n').count()
}

// True if the last line of a text has no LF.
fn is_open(text: &[u8]) -> bool
    ensures { ended text.now ≡ text.now ++ (if result then 10 ∷ [] else []) }
{
    match text.last() {
        None => false,
        Some(byte) => *byte != b'\n',
    }
}

// Appends the counts of a store.
fn push_stats(stats: Stats, out: &mut Vec<u8>) -> Result<(), AllocError>
    ensures ok { OnOk result (out.new.items
        ≡ out.old.items
        ++ count_words stats.version stats.live stats.withdrawn stats.kept stats.pins) }
    ensures err { OnErr result (Extends out.old.items out.new.items) }
{
    push_live(stats, out)?;
    push_kept(stats, out)
}

fn push_live(stats: Stats, out: &mut Vec<u8>) -> Result<(), AllocError>
    ensures ok { OnOk result (out.new.items
        ≡ out.old.items ++ live_words stats.version stats.live) }
    ensures err { OnErr result (Extends out.old.items out.new.items) }
{
    push_number(out, "stats version ", stats.version)?;
    push_number(out, " live ", stats.live)
}

fn push_kept(stats: Stats, out: &mut Vec<u8>) -> Result<(), AllocError>
    ensures ok { OnOk result (out.new.items
        ≡ out.old.items ++ kept_words stats.withdrawn stats.kept stats.pins) }
    ensures err { OnErr result (Extends out.old.items out.new.items) }
{
    push_number(out, " withdrawn ", stats.withdrawn)?;
    push_number(out, " kept ", stats.kept)?;
    push_number(out, " pins ", stats.pins)
}

fn push_text_fault(fault: TextFault, out: &mut Vec<u8>) -> Result<(), AllocError>
    ensures ok { OnOk result (out.new.items ≡ out.old.items ++ text_words fault) }
    ensures err { OnErr result (Extends out.old.items out.new.items) }
{
    match fault {
        TextFault::Smiles(fault) => push_smiles_fault(fault, out),
        TextFault::Molfile(fault) => push_molfile_fault(fault, out),
        TextFault::NoMemory => push(out, "fault memory"),
    }
}

fn push_smiles_fault(fault: SmilesFault, out: &mut Vec<u8>) -> Result<(), AllocError>
    ensures ok { OnOk result (out.new.items ≡ out.old.items ++ smiles_words fault) }
    ensures err { OnErr result (Extends out.old.items out.new.items) }
{
    match fault {
        SmilesFault::Syntax => push(out, "refused smiles syntax"),
        SmilesFault::Ring => push(out, "refused smiles ring"),
        SmilesFault::Limit => push(out, "refused smiles limit"),
        SmilesFault::Aromatic(place) => {
            push_number(out, "refused smiles aromatic ", u32::from(place))
        }
        SmilesFault::NoMemory => push(out, "fault memory"),
    }
}

fn push_molfile_fault(fault: MolfileFault, out: &mut Vec<u8>) -> Result<(), AllocError>
    ensures ok { OnOk result (out.new.items ≡ out.old.items ++ molfile_words fault) }
    ensures err { OnErr result (Extends out.old.items out.new.items) }
{
    match fault {
        MolfileFault::Header => push(out, "refused molfile header"),
        MolfileFault::Columns(line) => push_number(out, "refused molfile columns ", line),
        MolfileFault::Bond(line) => push_number(out, "refused molfile bond ", line),
        MolfileFault::Query(line) => push_number(out, "refused molfile query ", line),
        MolfileFault::Limit => push(out, "refused molfile limit"),
        MolfileFault::Cut => push(out, "refused molfile cut"),
        MolfileFault::NoMemory => push(out, "fault memory"),
    }
}

fn pattern_fault(fault: SmartsFault) -> &'static str
    ensures { result.now ≡ pattern_words fault }
{
    match fault {
        SmartsFault::Reaction => "refused smarts reaction",
        SmartsFault::Syntax => "refused smarts syntax",
        SmartsFault::Stereo => "refused smarts stereo",
        SmartsFault::RingSet => "refused smarts ringset",
        SmartsFault::Ring => "refused smarts ring",
        SmartsFault::Limit => "refused smarts limit",
        SmartsFault::NoMemory => "fault memory",
    }
}

fn push(out: &mut Vec<u8>, words: &str) -> Result<(), AllocError>
    ensures ok { OnOk result (out.new.items ≡ out.old.items ++ words.now) }
    ensures err { OnErr result (Extends out.old.items out.new.items) }
{
    out.extend_from_slice(words.as_bytes())
}

// Appends a word and a number.
fn push_number(out: &mut Vec<u8>, word: &str, number: u32) -> Result<(), AllocError>
    ensures ok { OnOk result (out.new.items ≡ out.old.items ++ (word.now ++ decimal number)) }
    ensures err { OnErr result (Extends out.old.items out.new.items) }
{
    out.extend_from_slice(word.as_bytes())?;
    push_decimal(out, u64::from(number))
}
