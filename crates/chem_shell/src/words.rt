//! The words of the command line: their plan, or the word that is wrong.
ghost use Rattle.std.specs.Prelude.{◌≡◌, ◌≢◌, ◌≤◌, ◌⊎◌, ℕ, [], None, Some, ◌∷◌, false, option_map, IfErr, IfOk, IsErrOf, IsNone, IsSome, OnErr, OnOk, List, All, length};
ghost use Rattle.clap.specs.Words.{Text, app_of, fault_of, found_of, kind_of, matches_of, rows_of, rule_of};
ghost use Rattle.serve_ends.specs.declared.serve.TheConstants.{MOST_ENDS};
ghost use Rattle.chem_shell.specs.declared.request.Plan.{Plan as ThePlan};
ghost use Rattle.chem_shell.specs.Words.{args_of, chemdb_app, option_rule, texts, AreCommits, AreSizes, Asks, AsksFor, IsBulk, IsFile, IsInMemory, IsInit, IsNumber, IsRunOf, IsServe, IsSetting, AreFileAndScripts};

use crate::fault::WordFault;
use crate::request::{Plan, PlanFault, Verb};
use chem_text::decimal;
use clap::error::ErrorKind;
use clap::{Arg, ArgMatches, Command, Error};
use serve_ends::MOST_ENDS;
use std::alloc::{AllocError, Global};
use store_core::MOST_COMMITS;

/// The largest seed of a generated script.
pub const LAST_SEED: u32 = 2_147_483_646;

/// The most structures that a generated script registers.
pub const MOST_STRUCTURES: u32 = 100_000;

/// Reads the words: by `clap`, and then by the table of commands. `Usage` if they have no plan; `NoMemory` if memory
/// ran out first.
pub fn plan<'w>(alloc: Global, words: &'w [&'w str]) -> Result<Plan<'w>, PlanFault>
    ensures ok { IfOk result (AsksFor (texts words.now)) }
    ensures scripts { IfOk result (λ plan. plan.command ≡ Verb.Serve → plan.ends ≡ length plan.scripts.items) }
    ensures usage { IsErrOf result PlanFault.Usage → ¬ Asks (texts words.now) }
{
    match read(alloc, words) {
        Ok(plan) => Ok(plan),
        Err(WordFault::NoMemory) => Err(PlanFault::NoMemory),
        Err(_) => Err(PlanFault::Usage),
    }
}

/// The word that is wrong and why, in one line; `None` if the words have a plan. Fails only for want of memory.
pub fn word_fault(alloc: Global, words: &[&str]) -> Result<Option<String>, AllocError>
    ensures some { IfOk result (λ fault. IsSome fault → ¬ Asks (texts words.now)) }
    ensures none { IfOk result (λ fault. IsNone fault → Asks (texts words.now)) }
{
    match read(alloc, words) {
        Ok(_) => Ok(None),
        Err(WordFault::NoMemory) => Err(AllocError),
        Err(fault) => Ok(Some(format!(in alloc; "{fault}")?)),
    }
}

// The plan of the words, or their fault.
fn read<'w>(alloc: Global, words: &'w [&'w str]) -> Result<Plan<'w>, WordFault<'w>>
    ensures ok { IfOk result (AsksFor (texts words.now)) }
    ensures err { IfErr result (λ fault. (fault ≡ WordFault.NoMemory) ⊎ ¬ Asks (texts words.now)) }
{
    let found = matches(alloc, words)?;
    match found.get_str("command") {
        Some("mem") => in_memory(alloc, Verb::Mem, "mem", &found),
        Some("init") => init(alloc, &found),
        Some("run") => run(alloc, &found),
        Some("serve") => serve(alloc, &found),
        Some("bulk") => bulk(alloc, &found),
        Some("drill") => in_memory(alloc, Verb::Drill, "drill", &found),
        Some(word) => Err(WordFault::UnknownCommand(word)),
        None => Err(WordFault::NoCommand),
    }
}

// The command by which the words are read.
fn command<'w>(alloc: Global) -> Result<Command<'w>, AllocError>
    ensures { IfOk result (λ command. app_of command ≡ chemdb_app) }
{
    let command = Arg::new(alloc, "command").required(true);
    let args = Arg::new(alloc, "args").num_args(..);
    Command::new(alloc, "chemdb")
        .no_binary_name(true)
        .disable_help_flag(true)
        .disable_version_flag(true)
        .arg(command)?
        .arg(args)?
        .arg(option(alloc, "workers"))?
        .arg(option(alloc, "page"))?
        .arg(option(alloc, "commits"))
}

// An option of one value, by its long name.
fn option<'w>(alloc: Global, name: &'w str) -> Arg<'w>
    ensures rule { rule_of result ≡ option_rule name.now }
    ensures local { result.global ≡ false }
{
    Arg::new(alloc, name).long(name)
}

// The matches of that command in the words. Contracts of an `Ok` cite `fault_of`, the test of `takes` from the other
// side.
fn matches<'w>(alloc: Global, words: &'w [&'w str]) -> Result<ArgMatches<'w>, WordFault<'w>>
    ensures ok { IfOk result (λ found. (fault_of chemdb_app (texts words.now) ≡ [])
        × (rows_of (found_of found) ≡ matches_of chemdb_app (texts words.now))) }
    ensures err { IfErr result (λ fault. (fault ≡ WordFault.NoMemory) ⊎ (fault_of chemdb_app (texts words.now) ≢ [])) }
{
    match command(alloc)?.try_get_matches_from(words) {
        Ok(found) => Ok(found),
        Err(error) => Err(refused(alloc, &error)),
    }
}

// The fault of the words, if `clap` answers this error.
fn refused<'w>(alloc: Global, error: &Error) -> WordFault<'w>
    ensures { (result ≡ WordFault.NoMemory) ⊎ (kind_of error.now ≢ ErrorKind.OutOfMemory) }
{
    match error.kind() {
        ErrorKind::OutOfMemory => WordFault::NoMemory,
        ErrorKind::MissingRequiredArgument => WordFault::NoCommand,
        _ => match reason(alloc, error) {
            Ok(text) => WordFault::Refused(text),
            Err(AllocError) => WordFault::NoMemory,
        },
    }
}

// The first line of an error's text, without the word `error`.
fn reason(alloc: Global, error: &Error) -> Result<String, AllocError> {
    let text = format!(in alloc; "{error}")?;
    let line = text.lines().next().unwrap_or("");
    String::from_str(alloc, line.strip_prefix("error: ").unwrap_or(line))
}

// The plan of a command on a store in memory, if the match is its row.
fn in_memory<'w>(
    alloc: Global,
    verb: Verb,
    command: &'static str,
    found: &ArgMatches<'w>,
) -> Result<Plan<'w>, WordFault<'w>>
    ensures ok { IfOk result (IsInMemory verb (rows_of (found_of found.now))) }
    ensures err { OnErr result ((plan : ThePlan) → ¬ IsInMemory verb (rows_of (found_of found.now)) plan) }
{
    no_args(command, found.get_raw("args"))?;
    let (workers, page) = sizes(found)?;
    let commits = commits(found)?;
    Ok(Plan {
        command: verb,
        file: None,
        scripts: Vec::new(alloc),
        ends: 1,
        workers,
        page,
        commits,
        seed: 0,
        count: 0,
    })
}

// The plan of `init`, if the match is its row.
fn init<'w>(alloc: Global, found: &ArgMatches<'w>) -> Result<Plan<'w>, WordFault<'w>>
    ensures ok { IfOk result (IsInit (rows_of (found_of found.now))) }
    ensures err { OnErr result ((plan : ThePlan) → ¬ IsInit (rows_of (found_of found.now)) plan) }
{
    let file = one_file("init", found.get_raw("args"))?;
    unused("--workers", found.get_str("workers"))?;
    unused("--page", found.get_str("page"))?;
    unused("--commits", found.get_str("commits"))?;
    Ok(Plan {
        command: Verb::Init,
        file: Some(file),
        scripts: Vec::new(alloc),
        ends: 0,
        workers: 1,
        page: 256,
        commits: MOST_COMMITS,
        seed: 0,
        count: 0,
    })
}

// The plan of `run`, if the match is its row.
fn run<'w>(alloc: Global, found: &ArgMatches<'w>) -> Result<Plan<'w>, WordFault<'w>>
    ensures ok { IfOk result (IsRunOf (rows_of (found_of found.now))) }
    ensures err { OnErr result ((plan : ThePlan) → ¬ IsRunOf (rows_of (found_of found.now)) plan) }
{
    let file = one_file("run", found.get_raw("args"))?;
    let (workers, page) = sizes(found)?;
    let commits = commits(found)?;
    Ok(Plan {
        command: Verb::Run,
        file: Some(file),
        scripts: Vec::new(alloc),
        ends: 1,
        workers,
        page,
        commits,
        seed: 0,
        count: 0,
    })
}

// The plan of `serve`, if the match is its row.
fn serve<'w>(alloc: Global, found: &ArgMatches<'w>) -> Result<Plan<'w>, WordFault<'w>>
    ensures ok { IfOk result (IsServe (rows_of (found_of found.now))) }
    ensures err { IfErr result (λ fault. (fault ≡ WordFault.NoMemory)
        ⊎ ((plan : ThePlan) → ¬ IsServe (rows_of (found_of found.now)) plan)) }
{
    let (file, words) = file_and_scripts(found.get_raw("args"))?;
    let (workers, page) = sizes(found)?;
    let commits = commits(found)?;
    let scripts = words.iter().copied().collect::<Vec<_>>(alloc)?;
    let ends = scripts.len() as u32;
    Ok(Plan {
        command: Verb::Serve,
        file: Some(file),
        scripts,
        ends,
        workers,
        page,
        commits,
        seed: 0,
        count: 0,
    })
}

// The plan of `bulk`, if the match is its row.
fn bulk<'w>(alloc: Global, found: &ArgMatches<'w>) -> Result<Plan<'w>, WordFault<'w>>
    ensures ok { IfOk result (IsBulk (rows_of (found_of found.now))) }
    ensures err { OnErr result ((plan : ThePlan) → ¬ IsBulk (rows_of (found_of found.now)) plan) }
{
    let (seed, count) = two_words(found.get_raw("args"))?;
    let seed = number("SEED", seed, 1, LAST_SEED)?;
    let count = number("COUNT", count, 0, MOST_STRUCTURES)?;
    let (workers, page) = sizes(found)?;
    if found.get_str("commits").is_some() {
        return Err(WordFault::UnusedOption {
            command: "bulk",
            name: "--commits",
        });
    }
    Ok(Plan {
        command: Verb::Bulk,
        file: None,
        scripts: Vec::new(alloc),
        ends: 1,
        workers,
        page,
        commits: MOST_COMMITS,
        seed,
        count,
    })
}

// The number of workers, and of records in a page.
fn sizes<'w>(found: &ArgMatches<'w>) -> Result<(u32, u32), WordFault<'w>>
    ensures ok { IfOk result (λ sizes. AreSizes (rows_of (found_of found.now)) sizes.0 sizes.1) }
    ensures err { OnErr result ((workers page : ℕ) → ¬ AreSizes (rows_of (found_of found.now)) workers page) }
{
    let workers = setting("--workers", found.get_str("workers"), 16, 1)?;
    let page = setting("--page", found.get_str("page"), 256, 256)?;
    Ok((workers, page))
}

// The number of commits that a store may have.
fn commits<'w>(found: &ArgMatches<'w>) -> Result<u32, WordFault<'w>>
    ensures ok { IfOk result (AreCommits (rows_of (found_of found.now))) }
    ensures err { OnErr result ((n : ℕ) → ¬ AreCommits (rows_of (found_of found.now)) n) }
{
    setting(
        "--commits",
        found.get_str("commits"),
        MOST_COMMITS,
        MOST_COMMITS,
    )
}

// A command on a store in memory takes no words.
fn no_args<'w>(command: &'static str, args: Option<&[&'w str]>) -> Result<(), WordFault<'w>>
    ensures ok { OnOk result (args.entry ≡ None) }
    ensures err { OnErr result (args.entry ≢ None) }
{
    match args {
        None => Ok(()),
        Some(words) => Err(WordFault::SurplusWord {
            command,
            word: words.first().copied().unwrap_or(""),
        }),
    }
}

// The one word of a command on a file.
fn one_file<'w>(command: &'static str, args: Option<&[&'w str]>) -> Result<&'w str, WordFault<'w>>
    ensures ok { IfOk result (λ file. IsFile (args_of args.entry) file.now) }
    ensures err { OnErr result ((file : Text) → ¬ IsFile (args_of args.entry) file) }
{
    match args {
        Some([file]) if !file.is_empty() => Ok(*file),
        Some([_, word, ..]) => Err(WordFault::SurplusWord {
            command,
            word: *word,
        }),
        _ => Err(WordFault::MissingWord {
            command,
            name: "a FILE",
        }),
    }
}

// The words of `serve`: a file, and 1 to 16 scripts.
fn file_and_scripts<'a, 'w>(
    args: Option<&'a [&'w str]>,
) -> Result<(&'w str, &'a [&'w str]), WordFault<'w>>
    ensures ok { IfOk result (λ words. AreFileAndScripts (args_of args.entry) words.0.now (texts words.1.now)) }
    ensures err { OnErr result ((file : Text) (scripts : List Text)
        → ¬ AreFileAndScripts (args_of args.entry) file scripts) }
{
    match args {
        Some([file, scripts @ ..]) if !file.is_empty() => Ok((*file, are_scripts(scripts)?)),
        _ => Err(WordFault::MissingWord {
            command: "serve",
            name: "a FILE",
        }),
    }
}

// The words, if they are 1 to 16 names of scripts.
fn are_scripts<'a, 'w>(words: &'a [&'w str]) -> Result<&'a [&'w str], WordFault<'w>>
    ensures ok { IfOk result (λ scripts. (scripts.now ≡ words.now)
        × (1 ≤ length words.now) × (length words.now ≤ MOST_ENDS)
        × All (λ script. script ≢ []) (texts words.now)) }
    ensures err { OnErr result ((1 ≤ length words.now) → (length words.now ≤ MOST_ENDS)
        → All (λ script. script ≢ []) (texts words.now) → ⊥) }
{
    for word in words {
        if word.is_empty() {
            return Err(no_script());
        }
    }
    match words.get(MOST_ENDS) {
        Some(word) => Err(WordFault::SurplusWord {
            command: "serve",
            word: *word,
        }),
        None if words.is_empty() => Err(no_script()),
        None => Ok(words),
    }
}

// `serve` lacks a script's name.
fn no_script<'w>() -> WordFault<'w> {
    WordFault::MissingWord {
        command: "serve",
        name: "a SCRIPT",
    }
}

// `init` takes no options.
fn unused<'w>(name: &'static str, value: Option<&'w str>) -> Result<(), WordFault<'w>>
    ensures ok { OnOk result (value.entry ≡ None) }
    ensures err { OnErr result (value.entry ≢ None) }
{
    match value {
        None => Ok(()),
        Some(_) => Err(WordFault::UnusedOption {
            command: "init",
            name,
        }),
    }
}

// The two words of `bulk`.
fn two_words<'w>(args: Option<&[&'w str]>) -> Result<(&'w str, &'w str), WordFault<'w>>
    ensures ok { IfOk result (λ words. args_of args.entry ≡ Some (words.0.now ∷ words.1.now ∷ [])) }
    ensures err { OnErr result ((first second : Text) → args_of args.entry ≢ Some (first ∷ second ∷ [])) }
{
    match args {
        Some([seed, count]) => Ok((*seed, *count)),
        Some([_, _, word, ..]) => Err(WordFault::SurplusWord {
            command: "bulk",
            word: *word,
        }),
        Some([_]) => Err(WordFault::MissingWord {
            command: "bulk",
            name: "a COUNT",
        }),
        _ => Err(WordFault::MissingWord {
            command: "bulk",
            name: "a SEED",
        }),
    }
}

// The number of an option, if it is a decimal from 1 to `most`, or the default if the option is not given.
fn setting<'w>(
    name: &'static str,
    text: Option<&'w str>,
    most: u32,
    default: u32,
) -> Result<u32, WordFault<'w>>
    ensures ok { IfOk result (IsSetting (option_map (λ t. t.now) text.entry) most default) }
    ensures err { OnErr result ((n : ℕ) → ¬ IsSetting (option_map (λ t. t.now) text.entry) most default n) }
{
    match text {
        None => Ok(default),
        Some(text) => number(name, text, 1, most),
    }
}

// The number of a word, if it is a decimal of this range.
fn number<'w>(
    name: &'static str,
    word: &'w str,
    least: u32,
    most: u32,
) -> Result<u32, WordFault<'w>>
    ensures ok { IfOk result (IsNumber word.now least most) }
    ensures err { OnErr result ((n : ℕ) → ¬ IsNumber word.now least most n) }
{
    match decimal(word.as_bytes(), u64::from(most)) {
        Some(number) if number >= u64::from(least) => Ok(number as u32),
        _ => Err(WordFault::NotInRange {
            name,
            least,
            most,
            word,
        }),
    }
}
