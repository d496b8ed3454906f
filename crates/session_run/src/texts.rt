//! Texts of a script: patterns, and the records of structures.
ghost use Rattle.std.specs.Prelude.{◌≡◌, ◌≢◌, IfErr, IfOk};
ghost use Rattle.path_print.specs.Prints.{IsPrint};
ghost use Rattle.smarts_parse.specs.Pattern.{pattern_of};
ghost use Rattle.smarts_parse.specs.Sound.{IsSoundPattern};
ghost use Rattle.smarts_parse.specs.declared.fault.SmartsFault.TheVariants.{NoMemory};
ghost use Rattle.store_core.specs.Records.{IsRecord};
ghost use Rattle.session_acts.specs.Texts.{IsPatternFault, IsPatternOf};

use smarts_parse::{Pattern, SmartsFault, parse};
use std::alloc::Global;
use store_core::Record;

/// The pattern of a text.
pub fn read_pattern(alloc: Global, text: &[u8]) -> Result<Pattern, SmartsFault>
    ensures pattern { IfOk result (λ p. IsPatternOf text.now (pattern_of p)) }
    ensures sound { IfOk result (λ p. IsSoundPattern (pattern_of p)) }
    ensures fault { IfErr result (λ fault. fault ≢ NoMemory → IsPatternFault text.now fault) }
{
    parse(alloc, text)
}

/// A law: a record has the structure of its text, and the structure's print.
pub fn record_is_sound(entry: &Record)
    ensures record { IsRecord entry.now }
    ensures print { IsPrint entry.now.mol entry.now.print }
{
    let _ = entry.id();
    let _ = entry.print().has(0);
}
