//! Execute: a portal is run.

ghost use Rattle.pgv_message.specs.Messages.{execute};
ghost use Rattle.pgv_message.specs.MessageWriting.{Sends};

use crate::error::MessageError;
use crate::pieces::{Piece, push_message, text_piece};

/// Appends Execute (PostgreSQL: "Message Formats", Execute): the server is to run a portal, and to stop after this many
/// rows, or after the last one where the number is 0.
///
/// A zero byte in the name and a body of more than 2147483643 bytes are refused. A refused call leaves the buffer as it
/// was.
///
/// The unnamed portal, all rows: `45 00000009 00 00000000`.
#[tactic(auto, unfolding(crate::specs::Messages::execute))]
pub fn write_execute(out: &mut Vec<u8>, portal: &str, rows: u32) -> Result<(), MessageError>
    ensures { Sends (execute portal.now rows) out.old.items out.new.items result }
{
    let portal = text_piece(portal)?;
    push_message(out, b"E", &[portal, Piece::Number(rows)])
}
