//! Changes as payloads of the journal, and back; and the entries of a base, as they are read.

ghost use Rattle.std.specs.Prelude.{◌≡◌, ◌≢◌, ◌≤◌, IfErr, IfOk, IfSome, OnOk};
ghost use Rattle.std.specs.Arc.{arc_value};
ghost use Rattle.commit_log.specs.Change.{IsInRange};
ghost use Rattle.commit_log.specs.Change as logged;
ghost use Rattle.commit_log.specs.Entry.{entry_of};
ghost use Rattle.journal_core.specs.Records.{IsShort};
ghost use Rattle.mol_finish.specs.declared.fault.TextFault.TheVariants.{NoMemory};
ghost use Rattle.store_core.specs.Copied.{state_of};
ghost use Rattle.store_core.specs.Kept.{status_in};
ghost use Rattle.store_core.specs.Replies.{change_of};
ghost use Rattle.store_machine.specs.History.{HasText, IsId, IsValid};
ghost use Rattle.store_disk.specs.Payloads.{base_payload, logged_format, payload, stored_format, told, told_entry};

use commit_log::{
    BaseEntry, BaseState, Wire, encode_register, encode_revise, encode_withdraw, write_live,
    write_withdrawn,
};
use mol_finish::{Format, TextFault};
use std::alloc::{AllocError, Global};
use std::sync::Arc;
use store_core::{Change, IdState, Record, Recorder};

/// The change of a commit, or why its text has no structure.
pub(crate) type ReadChange = Result<Change, TextFault>;

/// The record of a base entry, if it has a text, or why the text has no structure.
pub(crate) type ReadRecord = Result<Option<Arc<Record>>, TextFault>;

/// The payload of a change. A record's text is short.
pub(crate) fn payload_of(alloc: Global, change: &Change) -> Result<Vec<u8>, AllocError>
    ensures payload { IfOk result (λ v. v.items ≡ payload (change_of change.now)) }
    ensures short { IfOk result (λ v. IsShort v.items) }
{
    let _ = change.id();
    match change {
        Change::Register(record) => {
            encode_register(
                alloc,
                record.id(),
                logged_format(record.format()),
                record.text(),
            )
        }
        Change::Revise(record) => {
            encode_revise(
                alloc,
                record.id(),
                logged_format(record.format()),
                record.text(),
            )
        }
        Change::Withdraw(id) => encode_withdraw(alloc, *id),
    }
}

/// The change that was logged, with the structure of its text. It is refused as the text is.
pub(crate) fn change_from(recorder: &mut Recorder, wire: &Wire) -> ReadChange
    requires { IsInRange (logged.change_of wire.now) }
    ensures change { IfOk result (λ c. change_of c ≡ told (logged.change_of wire.now)) }
    ensures fault { IfErr result (λ fault. fault ≢ NoMemory → ¬ IsValid (told (logged.change_of wire.now))) }
{
    mol_finish::one_answer();
    match wire {
        Wire::Register { id, format, text } => {
            let record = recorder.record(*id, stored_format(*format), text)?;
            Ok(Change::Register(record))
        }
        Wire::Revise { id, format, text } => {
            let record = recorder.record(*id, stored_format(*format), text)?;
            Ok(Change::Revise(record))
        }
        Wire::Withdraw { id } => Ok(Change::Withdraw(*id)),
    }
}

/// The record of a base's entry, with the structure of its text, and none where the identifier was withdrawn. It is
/// refused as the text is.
pub(crate) fn record_from(recorder: &mut Recorder, entry: &BaseEntry) -> ReadRecord
    requires { IsId entry.now.id }
    ensures status { IfOk result (λ r. status_in entry.now.version r
        ≡ (told_entry (entry_of entry.now)).1) }
    ensures own { IfOk result (λ r. IfSome r (λ own. (arc_value own).id ≡ entry.now.id)) }
    ensures fault { IfErr result (λ fault. fault ≢ NoMemory
        → ¬ HasText (told_entry (entry_of entry.now)).1) }
{
    mol_finish::one_answer();
    match &entry.state {
        BaseState::Live { format, text } => {
            let record = recorder.record(entry.id, stored_format(*format), text)?;
            Ok(Some(record))
        }
        BaseState::Withdrawn => Ok(None),
    }
}

/// Writes the payload of a base record in place of what the buffer has.
pub(crate) fn write_base_payload(
    payload: &mut Vec<u8>,
    state: &IdState<'_>,
) -> Result<(), AllocError>
    ensures payload { OnOk result (payload.new.items ≡ base_payload (state_of state.now)) }
    ensures short { OnOk result (IsShort payload.new.items) }
{
    match state.entry {
        Some(record) => {
            let _ = record.id();
            let format = logged_format(record.format());
            write_live(payload, state.id, state.made_at, format, record.text())
        }
        None => write_withdrawn(payload, state.id, state.made_at),
    }
}

fn logged_format(format: Format) -> commit_log::Format
    ensures { result ≡ logged_format format }
{
    match format {
        Format::Smiles => commit_log::Format::Smiles,
        Format::Molfile => commit_log::Format::Molfile,
    }
}

fn stored_format(format: commit_log::Format) -> Format
    ensures { result ≡ stored_format format }
{
    match format {
        commit_log::Format::Smiles => Format::Smiles,
        commit_log::Format::Molfile => Format::Molfile,
    }
}
