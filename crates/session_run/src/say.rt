//! Reply lines, as handlers write them.
ghost use Rattle.std.specs.Prelude.{◌⊎◌};
ghost use Rattle.shell_lang.specs.Reply as line;
ghost use Rattle.shell_lang.specs.Reply.{reply_of};
ghost use Rattle.session_run.specs.Made.{Tells, Writes, without_room};

use dialogue::Stop;
use shell_lang::{Reply, reply_text};

/// Writes a line.
pub fn say(reply: &Reply, out: &mut Vec<u8>) -> Result<(), Stop>
    ensures { Tells (reply_of reply.now) out.old.items out.new.items result }
{
    reply_text(reply, out)?;
    Ok(())
}

/// Writes a line, if the service gave one.
pub fn say_given(given: Result<Reply, Stop>, out: &mut Vec<u8>) -> Result<(), Stop>
    ensures { Writes given out.old.items out.new.items result }
{
    match given {
        Ok(reply) => say(&reply, out),
        Err(stop) => Err(stop),
    }
}

/// As `say_given`, of a line that may be long: if there is no room for it, the line says that memory ran out.
pub fn say_long(given: Result<Reply, Stop>, out: &mut Vec<u8>) -> Result<(), Stop>
    ensures { Writes given out.old.items out.new.items result
        ⊎ Writes (without_room given) out.old.items out.new.items result }
{
    match given {
        Ok(reply) => say_or_fault(&reply, out),
        Err(stop) => Err(stop),
    }
}

// Writes a line; if there is no room for it, the line says that memory ran out.
fn say_or_fault(reply: &Reply, out: &mut Vec<u8>) -> Result<(), Stop>
    ensures { Tells (reply_of reply.now) out.old.items out.new.items result
        ⊎ Tells line.MemoryFault out.old.items out.new.items result }
{
    if reply_text(reply, out).is_ok() {
        return Ok(());
    }
    say(&Reply::MemoryFault, out)
}
