//! A change is written, and an entry of a base.

ghost use Rattle.std.specs.Prelude.{◌≡◌, ◌∷◌, ◌++◌, IfOk, OnOk};
ghost use Rattle.std.specs.Int.{to_le_bytes, w32};
ghost use Rattle.commit_log.specs.Entry as base;
ghost use Rattle.commit_log.specs.Entry.{entry_of, live, tail};
ghost use Rattle.commit_log.specs.Change.{change_of, format_byte, registered, revised, withdrawn, written};

use crate::base::{BaseEntry, BaseState, LIVE, WITHDRAWN};
use crate::change::{Format, REGISTER, REVISE, WITHDRAW, Wire};
use std::alloc::{AllocError, Global};

/// The payload of a change.
pub fn encode(alloc: Global, change: &Wire) -> Result<Vec<u8>, AllocError>
    ensures { IfOk result (λ payload. payload.items ≡ written (change_of change.now)) }
{
    match change {
        Wire::Register { id, format, text } => encode_register(alloc, *id, *format, text),
        Wire::Revise { id, format, text } => encode_revise(alloc, *id, *format, text),
        Wire::Withdraw { id } => encode_withdraw(alloc, *id),
    }
}

/// The payload of a registration.
pub fn encode_register(
    alloc: Global,
    id: u32,
    format: Format,
    text: &[u8],
) -> Result<Vec<u8>, AllocError>
    ensures { IfOk result (λ payload. payload.items ≡ written (registered id format text.now)) }
{
    with_text(alloc, REGISTER, id, format, text)
}

/// The payload of a revision.
pub fn encode_revise(
    alloc: Global,
    id: u32,
    format: Format,
    text: &[u8],
) -> Result<Vec<u8>, AllocError>
    ensures { IfOk result (λ payload. payload.items ≡ written (revised id format text.now)) }
{
    with_text(alloc, REVISE, id, format, text)
}

/// The payload of a withdrawal.
pub fn encode_withdraw(alloc: Global, id: u32) -> Result<Vec<u8>, AllocError>
    ensures { IfOk result (λ payload. payload.items ≡ written (withdrawn id)) }
{
    with_id(alloc, WITHDRAW, id, 0)
}

/// The payload of an entry of a base.
pub fn encode_base(alloc: Global, entry: &BaseEntry) -> Result<Vec<u8>, AllocError>
    ensures { IfOk result (λ payload. payload.items ≡ base.written (entry_of entry.now)) }
{
    let mut payload = Vec::new(alloc);
    match &entry.state {
        BaseState::Live { format, text } => write_live(
            &mut payload,
            entry.id,
            entry.version,
            *format,
            text,
        )?,
        BaseState::Withdrawn => write_withdrawn(&mut payload, entry.id, entry.version)?,
    }
    Ok(payload)
}

/// Writes the payload of a live entry of a base in place of what the buffer has. Its memory is kept, and more is taken
/// if that is too little.
pub fn write_live(
    payload: &mut Vec<u8>,
    id: u32,
    version: u32,
    format: Format,
    text: &[u8],
) -> Result<(), AllocError>
    ensures { OnOk result (payload.new.items
        ≡ base.written (record { id = id; version = version; state = live format text.now })) }
{
    payload.clear();
    payload.reserve(text.len().saturating_add(10))?;
    begin(payload, LIVE, id, version)?;
    payload.push(byte_of(format))?;
    payload.extend_from_slice(text)
}

/// As `write_live`, but of an entry whose identifier was withdrawn.
pub fn write_withdrawn(payload: &mut Vec<u8>, id: u32, version: u32) -> Result<(), AllocError>
    ensures { OnOk result (payload.new.items
        ≡ base.written (record { id = id; version = version; state = base.withdrawn })) }
{
    payload.clear();
    begin(payload, WITHDRAWN, id, version)
}

// Appends the kind of an entry, its identifier and its version.
fn begin(payload: &mut Vec<u8>, kind: u8, id: u32, version: u32) -> Result<(), AllocError>
    ensures { OnOk result (payload.new.items
        ≡ payload.old.items ++ kind ∷ (to_le_bytes w32 id ++ to_le_bytes w32 version)) }
{
    payload.push(kind)?;
    payload.extend_from_slice(&id.to_le_bytes())?;
    payload.extend_from_slice(&version.to_le_bytes())
}

// A kind, an identifier, a format and a text.
fn with_text(
    alloc: Global,
    kind: u8,
    id: u32,
    format: Format,
    text: &[u8],
) -> Result<Vec<u8>, AllocError>
    ensures { IfOk result
        (λ v. v.items ≡ kind ∷ (to_le_bytes w32 id ++ format_byte format ∷ text.now)) }
{
    let mut payload = with_id(alloc, kind, id, text.len())?;
    payload.push(byte_of(format))?;
    payload.extend_from_slice(text)?;
    Ok(payload)
}

// A kind and an identifier, with room for a text.
fn with_id(alloc: Global, kind: u8, id: u32, room: usize) -> Result<Vec<u8>, AllocError>
    ensures { IfOk result (λ v. v.items ≡ kind ∷ to_le_bytes w32 id) }
{
    let mut payload = Vec::with_capacity(alloc, room.saturating_add(6))?;
    payload.push(kind)?;
    payload.extend_from_slice(&id.to_le_bytes())?;
    Ok(payload)
}

fn byte_of(format: Format) -> u8
    ensures { result ≡ format_byte format }
{
    match format {
        Format::Smiles => 1,
        Format::Molfile => 2,
    }
}
