//! A change is read from its payload, and an entry of a base.

ghost use Rattle.std.specs.Prelude.{◌≡◌, ◌≤◌, ◌<◌, ◌^◌, ◌∷◌, ◌++◌, ℕ, List, IfOk, IfSome, IfNone};
ghost use Rattle.std.specs.Int.{to_le_bytes, w32};
ghost use Rattle.commit_log.specs.Change.{IsInRange, IsNoChange, change_of, format_byte, written};
ghost use Rattle.commit_log.specs.Entry as base;
ghost use Rattle.commit_log.specs.Entry.{IsNoEntry, entry_of};
ghost use Rattle.commit_log.specs.declared.change.Format.{Format};

use crate::base::{BaseEntry, BaseState, LIVE, WITHDRAWN};
use crate::change::{Format, GREATEST_ID, REGISTER, REVISE, WITHDRAW, Wire};
use std::alloc::{AllocError, Global};

/// The change that the payload is written for. `None` if no change with an identifier of 1 to 999,999,999 is written
/// so.
pub fn decode(alloc: Global, payload: &[u8]) -> Result<Option<Wire>, AllocError>
    ensures some { IfOk result (λ found. IfSome found
        (λ wire. IsInRange (change_of wire) × (payload.now ≡ written (change_of wire)))) }
    ensures none { IfOk result (λ found. IfNone found (IsNoChange payload.now)) }
{
    let Some((kind, behind)) = payload.split_first() else {
        return Ok(None);
    };
    let Some((id, rest)) = id_at(behind) else {
        return Ok(None);
    };
    match *kind {
        REGISTER => match text_of(alloc, rest)? {
            Some((format, text)) => Ok(Some(Wire::Register { id, format, text })),
            None => Ok(None),
        },
        REVISE => match text_of(alloc, rest)? {
            Some((format, text)) => Ok(Some(Wire::Revise { id, format, text })),
            None => Ok(None),
        },
        WITHDRAW if rest.is_empty() => Ok(Some(Wire::Withdraw { id })),
        _ => Ok(None),
    }
}

/// The entry of a base that the payload is written for. `None` if no entry with an identifier of 1 to 999,999,999 is
/// written so.
pub fn decode_base(alloc: Global, payload: &[u8]) -> Result<Option<BaseEntry>, AllocError>
    ensures some { IfOk result (λ found. IfSome found
        (λ e. base.IsInRange (entry_of e) × (payload.now ≡ base.written (entry_of e)))) }
    ensures none { IfOk result (λ found. IfNone found (IsNoEntry payload.now)) }
{
    let Some((kind, behind)) = payload.split_first() else {
        return Ok(None);
    };
    let Some((id, numbered)) = id_at(behind) else {
        return Ok(None);
    };
    let Some((version, rest)) = number_at(numbered) else {
        return Ok(None);
    };
    match *kind {
        LIVE => match text_of(alloc, rest)? {
            Some((format, text)) => Ok(Some(BaseEntry {
                id,
                version,
                state: BaseState::Live { format, text },
            })),
            None => Ok(None),
        },
        WITHDRAWN if rest.is_empty() => Ok(Some(BaseEntry {
            id,
            version,
            state: BaseState::Withdrawn,
        })),
        _ => Ok(None),
    }
}

// The identifier of the first four bytes, and the bytes after them.
fn id_at(bytes: &[u8]) -> Option<(u32, &[u8])>
    ensures some { IfSome result (λ found. (1 ≤ found.0) × (found.0 ≤ 999999999)
        × (bytes.now ≡ to_le_bytes w32 found.0 ++ found.1.now)) }
    ensures none { IfNone result ((id : ℕ) (rest : List ℕ) → 1 ≤ id → id ≤ 999999999
        → bytes.now ≡ to_le_bytes w32 id ++ rest → ⊥) }
{
    let (id, rest) = number_at(bytes)?;
    if id == 0 || id > GREATEST_ID {
        return None;
    }
    Some((id, rest))
}

// The number of the first four bytes (little-endian), and the bytes after them.
fn number_at(bytes: &[u8]) -> Option<(u32, &[u8])>
    ensures some { IfSome result (λ found. (found.0 < 2 ^ 32)
        × (bytes.now ≡ to_le_bytes w32 found.0 ++ found.1.now)) }
    ensures none { IfNone result ((n : ℕ) (rest : List ℕ)
        → bytes.now ≡ to_le_bytes w32 n ++ rest → ⊥) }
{
    let (field, rest) = bytes.split_first_chunk::<4>()?;
    Some((u32::from_le_bytes(*field), rest))
}

// The format of the first byte, and a copy of the text after it.
fn text_of(alloc: Global, bytes: &[u8]) -> Result<Option<(Format, Vec<u8>)>, AllocError>
    ensures some { IfOk result (λ found. IfSome found
        (λ written. bytes.now ≡ format_byte written.0 ∷ written.1.items)) }
    ensures none { IfOk result (λ found. IfNone found ((format : Format) (text : List ℕ)
        → bytes.now ≡ format_byte format ∷ text → ⊥)) }
{
    match bytes {
        [1, text @ ..] => Ok(Some((Format::Smiles, text.to_vec(alloc)?))),
        [2, text @ ..] => Ok(Some((Format::Molfile, text.to_vec(alloc)?))),
        _ => Ok(None),
    }
}
