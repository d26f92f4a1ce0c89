//! COPY: its data, its end and its failure.

ghost use Rattle.pgv_characters.specs.Characters.{lower_c};
ghost use Rattle.pgv_message.specs.Messages.{bare_message, copy_data, copy_fail};
ghost use Rattle.pgv_message.specs.MessageWriting.{Sends};

use crate::error::MessageError;
use crate::pieces::{Piece, push_message};
use crate::query::write_text;
use crate::sync::write_bare;

/// Appends CopyData (PostgreSQL: "Message Formats", CopyData): bytes of a COPY stream, which may be cut anywhere.
///
/// More than 2147483643 bytes are refused. A refused call leaves the buffer as it was.
///
/// The trailer of a stream in binary: `64 00000006 ffff`.
#[tactic(auto, unfolding(crate::specs::Messages::copy_data))]
pub fn write_copy_data(out: &mut Vec<u8>, bytes: &[u8]) -> Result<(), MessageError>
    ensures { Sends (copy_data bytes.now) out.old.items out.new.items result }
{
    push_message(out, b"d", &[Piece::Bytes(bytes)])
}

/// Appends CopyDone (PostgreSQL: "Message Formats", CopyDone): the stream has ended. It is `63 00000004`. A refused
/// call leaves the buffer as it was.
pub fn write_copy_done(out: &mut Vec<u8>) -> Result<(), MessageError>
    ensures { Sends (bare_message lower_c) out.old.items out.new.items result }
{
    write_bare(out, b'c')
}

/// Appends CopyFail (PostgreSQL: "Message Formats", CopyFail): the stream is given up, for this reason.
///
/// A zero byte in the reason and a body of more than 2147483643 bytes are refused. A refused call leaves the buffer as
/// it was.
///
/// For `no`: `66 00000007 6e6f00`.
pub fn write_copy_fail(out: &mut Vec<u8>, reason: &str) -> Result<(), MessageError>
    ensures { Sends (copy_fail reason.now) out.old.items out.new.items result }
{
    write_text(out, b'f', reason)
}
