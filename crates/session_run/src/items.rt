//! Data items of records.
ghost use Rattle.std.specs.Prelude.{◌≡◌, ◌⊎◌, List, MatchOption, None, Some, ℕ};
ghost use Rattle.shell_lang.specs.Reply as line;
ghost use Rattle.session_acts.specs.Acts.{Answers, MayFind, item_line};
ghost use Rattle.session_acts.specs.Cursors.{Cursor};
ghost use Rattle.session_acts.specs.Records.{data_of};
ghost use Rattle.session_run.specs.Made.{AnsweredBy, Tells};

use crate::say::say;
use dialogue::Stop;
use mol_finish::Format;
use sd_read::item;
use shell_lang::{Refusal, Reply, data_text};
use store_core::{CallFault, Look, Record, Service};

/// The data item of a name, of the record under an identifier.
pub fn find_data<S: Service>(
    service: &mut S,
    id: u32,
    name: &[u8],
    out: &mut Vec<u8>,
) -> Result<(), Stop>
    ensures { (size : ℕ) (cursors : List Cursor) → AnsweredBy S.Service service.old service.new
        (Answers size (MayFind id name.now) cursors) out.old.items out.new.items cursors result }
{
    match service.look(id) {
        Ok(Look::Live { entry, .. }) => say_item(id, item_of(&entry, name), out),
        Ok(Look::Absent) => say(&Reply::Refused(Refusal::Absent), out),
        Ok(Look::Withdrawn { .. }) => say(&Reply::Refused(Refusal::Withdrawn), out),
        Err(CallFault::NoMemory) => say(&Reply::MemoryFault, out),
        Err(CallFault::Worn) => Err(Stop::Worn),
    }
}

// The data of the first item of a name in a record's text; `None` if there is no such item.
fn item_of<'a>(entry: &'a Record, name: &[u8]) -> Option<&'a [u8]>
    ensures { MatchOption result (data_of entry.now.format entry.now.text name.now ≡ None)
        (λ r. data_of entry.now.format entry.now.text name.now ≡ Some r.now) }
{
    match entry.format() {
        Format::Smiles => None,
        Format::Molfile => {
            let text = entry.text();
            let (from, to) = item(text, name)?;
            Some(&text[from..to])
        }
    }
}

// Writes the data of an item; if there is no room for them, the line says that memory ran out.
fn say_item(id: u32, found: Option<&[u8]>, out: &mut Vec<u8>) -> Result<(), Stop>
    ensures { MatchOption found.entry (Tells (item_line id None) out.old.items out.new.items result)
        (λ text. Tells (item_line id (Some text.now)) out.old.items out.new.items result
        ⊎ Tells line.MemoryFault out.old.items out.new.items result) }
{
    let Some(text) = found else {
        return say(&Reply::Refused(Refusal::Data), out);
    };
    if data_text(id, text, out).is_ok() {
        return Ok(());
    }
    say(&Reply::MemoryFault, out)
}
