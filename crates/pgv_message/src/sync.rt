//! Messages without a body: Sync, Flush and Terminate.

ghost use Rattle.pgv_characters.specs.Characters.{upper_h, upper_s, upper_x};
ghost use Rattle.pgv_message.specs.Messages.{bare_message};
ghost use Rattle.pgv_message.specs.MessageWriting.{Sends};

use crate::error::MessageError;
use crate::pieces::push_message;

/// Appends a message of this tag without a body.
#[tactic(auto, unfolding(crate::specs::Messages::bare_message))]
pub(crate) fn write_bare(out: &mut Vec<u8>, tag: u8) -> Result<(), MessageError>
    ensures { Sends (bare_message tag) out.old.items out.new.items result }
{
    push_message(out, &[tag], &[])
}

/// Appends Sync (PostgreSQL: "Message Formats", Sync): the server ends what was begun, and answers with ReadyForQuery.
/// It is `53 00000004`. A refused call leaves the buffer as it was.
pub fn write_sync(out: &mut Vec<u8>) -> Result<(), MessageError>
    ensures { Sends (bare_message upper_s) out.old.items out.new.items result }
{
    write_bare(out, b'S')
}

/// Appends Flush (PostgreSQL: "Message Formats", Flush): the server sends what it has answered so far. It is
/// `48 00000004`. A refused call leaves the buffer as it was.
pub fn write_flush(out: &mut Vec<u8>) -> Result<(), MessageError>
    ensures { Sends (bare_message upper_h) out.old.items out.new.items result }
{
    write_bare(out, b'H')
}

/// Appends Terminate (PostgreSQL: "Message Formats", Terminate): the session ends. It is `58 00000004`. A refused call
/// leaves the buffer as it was.
pub fn write_terminate(out: &mut Vec<u8>) -> Result<(), MessageError>
    ensures { Sends (bare_message upper_x) out.old.items out.new.items result }
{
    write_bare(out, b'X')
}
