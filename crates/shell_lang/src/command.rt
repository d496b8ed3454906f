//! Reads a line of a script: the command that it spells, or why it spells no command.
ghost use Rattle.std.specs.Prelude.{◌≡◌, ◌≢◌, ◌≤◌, ◌∷◌, ◌++◌, ℕ, List, All, Contains, codes, decimal, IfSome, IfNone, IfOk, IfErr, IsErrOf, IsTrue, Result, ◌↔◌};
ghost use Rattle.store_machine.specs.History.{IsId};
ghost use Rattle.shell_lang.specs.Command as spec;
ghost use Rattle.shell_lang.specs.Command.{AreIds, IsCount, IsNoFirst, IsNoIdentifier, IsNameByte, IsName, Spells, HasNoSpace, HasIdentifierPart, IsLine, EndsMolfile, TakesLines, molfile_command};
ghost use Rattle.shell_lang.specs.CommandView.{Takes, command_of, reading_of};
ghost use Rattle.shell_lang.specs.Word.{word_text};
ghost use Rattle.shell_lang.specs.Cut.{FirstPart, Follows, IsRest};
ghost use Rattle.shell_lang.specs.declared.word.Word.TheVariants as words;
ghost use Rattle.shell_lang.specs.declared.command.LineRefusal.{LineRefusal};
ghost use Rattle.shell_lang.specs.declared.command.LineRefusal.TheVariants.{Syntax};

use crate::word::{Word, are_same};
use chem_text::decimal;
use store_machine::LAST_IDENTIFIER;

/// The most bytes of the name of a cursor or of a watch.
pub const LONGEST_NAME: usize = 32;

/// The greatest Q of `similar`.
pub const LARGEST_DENOMINATOR: u32 = 1000;

/// The greatest K of `similar`: the most structures that it lists.
pub const MOST_SIMILAR: u32 = 256;

/// The most records that `register-sd` takes.
pub const MOST_SD_RECORDS: u32 = 4096;

/// A line of a script. An identifier is 1 to 999,999,999; a name has 1 to 32 letters of ASCII, digits or `_`.
#[derive(Clone, Copy, Debug)]
pub enum Command<'a> {
    /// An empty line, which has no reply.
    Empty,
    /// `register ID SMILES`
    Register {
        id: u32,
        text: &'a [u8],
    },
    /// `register-new ID SMILES`: only if no live record has the same structure.
    RegisterNew {
        id: u32,
        text: &'a [u8],
    },
    /// `revise ID SMILES`
    Revise {
        id: u32,
        text: &'a [u8],
    },
    /// `register-mol ID`; the lines of a molfile follow.
    RegisterMol {
        id: u32,
    },
    /// `revise-mol ID`; the lines of a molfile follow.
    ReviseMol {
        id: u32,
    },
    /// `register-sd ID COUNT`, `count` 1 to 4096; the lines of `count` records of an SD file follow, which get the
    /// identifiers from `id` on.
    RegisterSd {
        id: u32,
        count: u32,
    },
    /// `withdraw ID`
    Withdraw {
        id: u32,
    },
    /// `show ID`
    Show {
        id: u32,
    },
    /// `data ID NAME`: the data item of this name, which may be any bytes, of a record of an SD file.
    Data {
        id: u32,
        name: &'a [u8],
    },
    /// `search SMARTS`
    Search {
        pattern: &'a [u8],
    },
    /// `same SMILES`
    Same {
        text: &'a [u8],
    },
    /// `similar P Q K SMILES`: the `k` best of the structures that are alike by `p / q` at least. `q` is 1 to 1000, `p`
    /// 0 to `q`, and `k` 1 to 256.
    Similar {
        p: u32,
        q: u32,
        k: u32,
        text: &'a [u8],
    },
    /// `open NAME SMARTS`
    Start {
        name: &'a [u8],
        pattern: &'a [u8],
    },
    /// `next NAME`
    Next {
        name: &'a [u8],
    },
    /// `close NAME`
    Close {
        name: &'a [u8],
    },
    /// `watch NAME SMARTS`
    Watch {
        name: &'a [u8],
        text: &'a [u8],
    },
    /// `hits NAME`
    Hits {
        name: &'a [u8],
    },
    /// `unwatch NAME`
    Unwatch {
        name: &'a [u8],
    },
    /// `prune`
    Prune,
    /// `compact`
    Compact,
    /// `stats`
    Stats,
}

/// A change whose text is a molfile.
#[derive(Clone, Copy, Debug, PartialEq, Eq)]
pub enum MolfileChange {
    Register { id: u32 },
    Revise { id: u32 },
}

/// The lines that a line takes after it.
#[derive(Clone, Copy, Debug, PartialEq, Eq)]
pub enum TakenLines {
    /// Those of a molfile, by the change that is asked for, or why the line is no command.
    Molfile(Result<MolfileChange, LineRefusal>),
    /// Those of `count` records of an SD file, by the first identifier, or why the line is no command.
    Records {
        count: u32,
        first: Result<u32, LineRefusal>,
    },
}

/// Why a line spells no command.
#[derive(Clone, Copy, Debug, PartialEq, Eq)]
pub enum LineRefusal {
    /// An unknown word, a wrong number of parts, an invalid name, or a malformed or out-of-range number of `similar` or
    /// of records.
    Syntax,
    /// The part for an identifier is invalid, or the last identifier of the records would be out of range.
    Id,
}

/// Reads a line, without its end. Parts are separated by exactly one space; a SMILES and a SMARTS are the rest of their
/// line and may be any bytes, even none.
pub fn read_command(line: &[u8]) -> Result<Command<'_>, LineRefusal>
    ensures { IsLine line.now (reading_of result) }
{
    let Some((first, rest)) = split_at_space(line) else {
        return alone(line);
    };
    let Some(word) = Word::of_bytes(first) else {
        return Err(LineRefusal::Syntax);
    };
    with_rest(word, rest)
}

/// The lines that a line takes after it. A line whose first part is `register-mol` or `revise-mol` takes those of a
/// molfile, even if it is refused. A line of three parts, `register-sd`, any bytes and a number of records, takes those
/// of that many records. `None` of any other line.
pub fn taken_lines(line: &[u8]) -> Option<TakenLines>
    ensures some { IfSome result (λ taken. Takes taken line.now) }
    ensures none { IfNone result (¬ TakesLines line.now) }
{
    let Some((first, rest)) = split_at_space(line) else {
        return taken_alone(line);
    };
    if Word::RegisterMol.is_spelled(first) {
        return Some(TakenLines::Molfile(registration(rest)));
    }
    if Word::ReviseMol.is_spelled(first) {
        return Some(TakenLines::Molfile(revision(rest)));
    }
    if Word::RegisterSd.is_spelled(first) {
        return taken_records(rest);
    }
    None
}

/// True if a line ends a molfile: it begins `M  END`.
pub fn ends_molfile(line: &[u8]) -> bool
    ensures { IsTrue result ↔ EndsMolfile line.now }
{
    line.starts_with(b"M  END")
}

/// A law: a line is read in one way.
pub fn one_reading()
    ensures { (line : List ℕ) (a b : Result spec.Command LineRefusal)
        → IsLine line a → IsLine line b → a ≡ b }
{}

// A line without a space.
fn alone(line: &[u8]) -> Result<Command<'_>, LineRefusal>
    requires { HasNoSpace line.now }
    ensures { IsLine line.now (reading_of result) }
{
    if line.is_empty() {
        return Ok(Command::Empty);
    }
    if are_same(line, b"prune") {
        return Ok(Command::Prune);
    }
    if are_same(line, b"compact") {
        return Ok(Command::Compact);
    }
    if are_same(line, b"stats") {
        return Ok(Command::Stats);
    }
    Err(LineRefusal::Syntax)
}

// A line with this first word and this rest.
fn with_rest(word: Word, rest: &[u8]) -> Result<Command<'_>, LineRefusal>
    ensures { IsRest word rest.now (reading_of result) }
{
    match word {
        Word::Register => {
            let (id, text) = identifier_and_text(rest)?;
            Ok(Command::Register { id, text })
        }
        Word::RegisterNew => {
            let (id, text) = identifier_and_text(rest)?;
            Ok(Command::RegisterNew { id, text })
        }
        Word::Revise => {
            let (id, text) = identifier_and_text(rest)?;
            Ok(Command::Revise { id, text })
        }
        Word::RegisterMol => Ok(Command::RegisterMol {
            id: identifier_alone(rest)?,
        }),
        Word::ReviseMol => Ok(Command::ReviseMol {
            id: identifier_alone(rest)?,
        }),
        Word::RegisterSd => {
            let (id, count) = first_and_count(rest)?;
            Ok(Command::RegisterSd { id, count })
        }
        Word::Withdraw => Ok(Command::Withdraw {
            id: identifier_alone(rest)?,
        }),
        Word::Show => Ok(Command::Show {
            id: identifier_alone(rest)?,
        }),
        Word::Data => {
            let (id, name) = identifier_and_text(rest)?;
            Ok(Command::Data { id, name })
        }
        Word::Search => Ok(Command::Search { pattern: rest }),
        Word::Same => Ok(Command::Same { text: rest }),
        Word::Similar => similar(rest).ok_or(LineRefusal::Syntax),
        Word::Open => {
            let (name, pattern) = name_and_text(rest)?;
            Ok(Command::Start { name, pattern })
        }
        Word::Next => Ok(Command::Next {
            name: name_alone(rest)?,
        }),
        Word::Close => Ok(Command::Close {
            name: name_alone(rest)?,
        }),
        Word::Watch => {
            let (name, text) = name_and_text(rest)?;
            Ok(Command::Watch { name, text })
        }
        Word::Hits => Ok(Command::Hits {
            name: name_alone(rest)?,
        }),
        Word::Unwatch => Ok(Command::Unwatch {
            name: name_alone(rest)?,
        }),
    }
}

// An identifier, a space, and a text.
fn identifier_and_text(rest: &[u8]) -> Result<(u32, &[u8]), LineRefusal>
    ensures ok { IfOk result (λ r. IsId r.0 × (rest.now ≡ decimal r.0 ++ 32 ∷ r.1.now)) }
    ensures id { IsErrOf result LineRefusal.Id → (part : List ℕ) × HasNoSpace part
        × ((text : List ℕ) × (rest.now ≡ part ++ 32 ∷ text)) × IsNoIdentifier part }
    ensures syntax { IsErrOf result LineRefusal.Syntax → HasNoSpace rest.now }
{
    let (digits, text) = split_at_space(rest).ok_or(LineRefusal::Syntax)?;
    let id = identifier(digits).ok_or(LineRefusal::Id)?;
    Ok((id, text))
}

// An identifier and nothing more.
fn identifier_alone(rest: &[u8]) -> Result<u32, LineRefusal>
    ensures ok { IfOk result (λ id. IsId id × (rest.now ≡ decimal id)) }
    ensures id { IsErrOf result LineRefusal.Id → HasNoSpace rest.now × IsNoIdentifier rest.now }
    ensures syntax { IsErrOf result LineRefusal.Syntax → Contains rest.now 32 }
{
    if rest.contains(&b' ') {
        return Err(LineRefusal::Syntax);
    }
    identifier(rest).ok_or(LineRefusal::Id)
}

// The rest of a `similar` line.
fn similar(rest: &[u8]) -> Option<Command<'_>>
    ensures some { IfSome result (λ command. Follows words.Similar rest.now (command_of command)) }
    ensures none { IfNone result ((command : spec.Command) → ¬ Follows words.Similar rest.now command) }
{
    let (p, rest) = number_and_rest(rest, LARGEST_DENOMINATOR)?;
    let (q, rest) = number_and_rest(rest, LARGEST_DENOMINATOR)?;
    let (k, text) = number_and_rest(rest, MOST_SIMILAR)?;
    if q >= 1 && p <= q && k >= 1 {
        Some(Command::Similar { p, q, k, text })
    } else {
        None
    }
}

// A number of at most `most`, a space, and the rest.
fn number_and_rest(bytes: &[u8], most: u32) -> Option<(u32, &[u8])>
    ensures some { IfSome result (λ r. (r.0 ≤ most) × (bytes.now ≡ decimal r.0 ++ 32 ∷ r.1.now)) }
    ensures none { IfNone result ((n : ℕ) (rest : List ℕ)
        → n ≤ most → bytes.now ≢ decimal n ++ 32 ∷ rest) }
{
    let (digits, rest) = split_at_space(bytes)?;
    let number = decimal(digits, u64::from(most))?;
    Some((number as u32, rest))
}

// A line without a space. If it is the word of a molfile's line, the identifier is missing.
fn taken_alone(line: &[u8]) -> Option<TakenLines>
    requires { HasNoSpace line.now }
    ensures some { IfSome result (λ taken. Takes taken line.now) }
    ensures none { IfNone result (¬ TakesLines line.now) }
{
    if Word::RegisterMol.is_spelled(line) || Word::ReviseMol.is_spelled(line) {
        return Some(TakenLines::Molfile(Err(LineRefusal::Syntax)));
    }
    None
}

// The records that a line takes, by the rest after `register-sd`.
fn taken_records(rest: &[u8]) -> Option<TakenLines>
    ensures some { IfSome result (λ taken. Takes taken (codes "register-sd" ++ 32 ∷ rest.now)) }
    ensures none { IfNone result ((part : List ℕ) (count : ℕ)
        → ¬ FirstPart words.RegisterSd rest.now part count) }
{
    let (part, count) = part_and_count(rest)?;
    let first = first_of(part, count).ok_or(LineRefusal::Id);
    Some(TakenLines::Records { count, first })
}

// The rest of a `register-sd` line: the first identifier and the number of records.
fn first_and_count(rest: &[u8]) -> Result<(u32, u32), LineRefusal>
    ensures ok { IfOk result (λ r. IsCount r.1 × AreIds r.0 r.1
        × (rest.now ≡ decimal r.0 ++ 32 ∷ decimal r.1)) }
    ensures id { IsErrOf result LineRefusal.Id → (part : List ℕ) × (count : ℕ)
        × FirstPart words.RegisterSd rest.now part count × IsNoFirst part count }
    ensures syntax { IsErrOf result LineRefusal.Syntax → (part : List ℕ) (count : ℕ)
        → ¬ FirstPart words.RegisterSd rest.now part count }
{
    let (part, count) = part_and_count(rest).ok_or(LineRefusal::Syntax)?;
    let first = first_of(part, count).ok_or(LineRefusal::Id)?;
    Ok((first, count))
}

// A part for the first identifier, and a number of records.
fn part_and_count(rest: &[u8]) -> Option<(&[u8], u32)>
    ensures some { IfSome result (λ r. FirstPart words.RegisterSd rest.now r.0.now r.1) }
    ensures none { IfNone result ((part : List ℕ) (count : ℕ)
        → ¬ FirstPart words.RegisterSd rest.now part count) }
{
    let (part, digits) = split_at_space(rest)?;
    match decimal(digits, u64::from(MOST_SD_RECORDS)) {
        Some(count) if count >= 1 => Some((part, count as u32)),
        _ => None,
    }
}

// The first of `count` identifiers, if the bytes are one.
fn first_of(bytes: &[u8], count: u32) -> Option<u32>
    requires { IsCount count }
    ensures some { IfSome result (λ id. (bytes.now ≡ decimal id) × AreIds id count) }
    ensures none { IfNone result (IsNoFirst bytes.now count) }
{
    let first = identifier(bytes)?;
    let last = first + (count - 1);
    if last <= LAST_IDENTIFIER {
        Some(first)
    } else {
        None
    }
}

// The rest of a `register-mol` line.
fn registration(rest: &[u8]) -> Result<MolfileChange, LineRefusal>
    ensures { IsRest words.RegisterMol rest.now (molfile_command result) }
{
    let id = identifier_alone(rest)?;
    Ok(MolfileChange::Register { id })
}

// The rest of a `revise-mol` line.
fn revision(rest: &[u8]) -> Result<MolfileChange, LineRefusal>
    ensures { IsRest words.ReviseMol rest.now (molfile_command result) }
{
    let id = identifier_alone(rest)?;
    Ok(MolfileChange::Revise { id })
}

// A name, a space, and a text.
fn name_and_text(rest: &[u8]) -> Result<(&[u8], &[u8]), LineRefusal>
    ensures ok { IfOk result (λ r. IsName r.0.now × (rest.now ≡ r.0.now ++ 32 ∷ r.1.now)) }
    ensures err { IfErr result (λ e. (e ≡ Syntax)
        × ((name text : List ℕ) → IsName name → rest.now ≢ name ++ 32 ∷ text)) }
{
    let Some((name, text)) = split_at_space(rest) else {
        return Err(LineRefusal::Syntax);
    };
    if is_name(name) {
        Ok((name, text))
    } else {
        Err(LineRefusal::Syntax)
    }
}

// A name and nothing more.
fn name_alone(rest: &[u8]) -> Result<&[u8], LineRefusal>
    ensures ok { IfOk result (λ r. IsName rest.now × (r.now ≡ rest.now)) }
    ensures err { IfErr result (λ e. (e ≡ Syntax) × ¬ IsName rest.now) }
{
    if is_name(rest) {
        Ok(rest)
    } else {
        Err(LineRefusal::Syntax)
    }
}

// The identifier that the bytes are.
fn identifier(bytes: &[u8]) -> Option<u32>
    ensures some { IfSome result (λ id. (bytes.now ≡ decimal id) × IsId id) }
    ensures none { IfNone result (IsNoIdentifier bytes.now) }
{
    match decimal(bytes, u64::from(LAST_IDENTIFIER)) {
        Some(id) if id >= 1 => Some(id as u32),
        _ => None,
    }
}

fn is_name(bytes: &[u8]) -> bool
    ensures { IsTrue result ↔ IsName bytes.now }
{
    (1..=LONGEST_NAME).contains(&bytes.len()) && are_name_bytes(bytes)
}

fn are_name_bytes(bytes: &[u8]) -> bool
    ensures { IsTrue result ↔ All IsNameByte bytes.now }
{
    bytes.iter().all(|byte| is_name_byte(*byte))
}

fn is_name_byte(byte: u8) -> bool
    ensures { IsTrue result ↔ IsNameByte byte }
{
    byte.is_ascii_alphanumeric() || byte == b'_'
}

/// The bytes before the first space, and those after it. `None` if there is no space.
pub fn split_at_space(bytes: &[u8]) -> Option<(&[u8], &[u8])>
    ensures parts { IfSome result (λ parts. bytes.now ≡ parts.0.now ++ 32 ∷ parts.1.now) }
    ensures first { IfSome result (λ parts. HasNoSpace parts.0.now) }
    ensures none { IfNone result (HasNoSpace bytes.now) }
{
    let place = bytes.iter().position(|byte| *byte == b' ')?;
    Some((&bytes[..place], &bytes[place + 1..]))
}
