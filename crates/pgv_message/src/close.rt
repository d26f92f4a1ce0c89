//! Close: a statement or a portal is given up.

ghost use Rattle.pgv_message.specs.Messages.{close};
ghost use Rattle.pgv_message.specs.MessageWriting.{Sends};

use crate::describe::{Prepared, write_about};
use crate::error::MessageError;

/// Appends Close (PostgreSQL: "Message Formats", Close): the server is to forget a statement or a portal. One that
/// isn't there is no error.
///
/// A zero byte in the name and a body of more than 2147483643 bytes are refused. A refused call leaves the buffer as it
/// was.
///
/// The unnamed portal: `43 00000006 50 00`.
pub fn write_close(out: &mut Vec<u8>, kind: Prepared, name: &str) -> Result<(), MessageError>
    ensures { Sends (close kind name.now) out.old.items out.new.items result }
{
    write_about(out, b'C', kind, name)
}
