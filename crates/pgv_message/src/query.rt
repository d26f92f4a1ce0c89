//! Query: the simple query.

ghost use Rattle.pgv_message.specs.Messages.{one_text, query};
ghost use Rattle.pgv_message.specs.MessageWriting.{Sends};

use crate::error::MessageError;
use crate::pieces::{push_message, text_piece};

/// Appends a message under this tag whose body is one text.
#[tactic(auto, unfolding(crate::specs::Messages::one_text))]
pub(crate) fn write_text(out: &mut Vec<u8>, tag: u8, text: &str) -> Result<(), MessageError>
    ensures { Sends (one_text tag text.now) out.old.items out.new.items result }
{
    let text = text_piece(text)?;
    push_message(out, &[tag], &[text])
}

/// Appends Query (PostgreSQL: "Message Formats", Query): the server is to run one or more statements of a text, whose
/// results come in text.
///
/// A zero byte in the text and a body of more than 2147483643 bytes are refused. A refused call leaves the buffer as it
/// was.
///
/// `BEGIN`: `51 0000000a 424547494e00`.
pub fn write_query(out: &mut Vec<u8>, sql: &str) -> Result<(), MessageError>
    ensures { Sends (query sql.now) out.old.items out.new.items result }
{
    write_text(out, b'Q', sql)
}
