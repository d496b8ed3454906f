//! Replies with the number of their session.
ghost use Rattle.std.specs.Prelude.{◌≡◌, ◌++◌, ◌∷◌, [], OnOk, decimal};
ghost use Rattle.drill_run.specs.Numbers.{numbered};

use chem_text::push_decimal;
use std::alloc::AllocError;

/// Appends the lines of a text, each with a number before it.
pub fn push_numbered(number: u32, text: &[u8], out: &mut Vec<u8>) -> Result<(), AllocError>
    ensures { OnOk result (out.new.items ≡ out.old.items ++ numbered number text.now) }
{
    let mut begins = true;
    for byte in text {
        if begins {
            push_number(number, out)?;
        }
        out.push(*byte)?;
        begins = *byte == b'\n';
    }
    Ok(())
}

// Appends a number and a space.
fn push_number(number: u32, out: &mut Vec<u8>) -> Result<(), AllocError>
    ensures { OnOk result (out.new.items ≡ out.old.items ++ decimal number ++ 32 ∷ []) }
{
    push_decimal(out, u64::from(number))?;
    out.push(b' ')?;
    Ok(())
}
