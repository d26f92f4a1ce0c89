//! Describe: the server is to describe a statement or a portal.

ghost use Rattle.std.specs.Prelude.{◌≡◌};
ghost use Rattle.pgv_message.specs.Messages.{about, describe, kind_byte};
ghost use Rattle.pgv_message.specs.MessageWriting.{Sends};

use crate::error::MessageError;
use crate::pieces::{Piece, push_message, text_piece};

/// What a message is about.
#[derive(Clone, Copy, Debug, PartialEq, Eq)]
pub enum Prepared {
    /// A prepared statement.
    Statement,
    /// A portal: a statement with its parameters bound.
    Portal,
}

impl Prepared {
    /// The byte that names it: `S` or `P`.
    fn byte(self) -> u8
        ensures { result ≡ kind_byte self }
    {
        match self {
            Prepared::Statement => b'S',
            Prepared::Portal => b'P',
        }
    }
}

/// Appends a message under this tag about a statement or a portal.
#[tactic(auto, unfolding(crate::specs::Messages::about))]
pub(crate) fn write_about(
    out: &mut Vec<u8>,
    tag: u8,
    kind: Prepared,
    name: &str,
) -> Result<(), MessageError>
    ensures { Sends (about tag kind name.now) out.old.items out.new.items result }
{
    let name = text_piece(name)?;
    push_message(out, &[tag], &[Piece::Byte(kind.byte()), name])
}

/// Appends Describe (PostgreSQL: "Message Formats", Describe): the server is to answer with a statement's
/// ParameterDescription and the description of its rows, or with that of a portal's rows.
///
/// A zero byte in the name and a body of more than 2147483643 bytes are refused. A refused call leaves the buffer as it
/// was.
///
/// The unnamed statement: `44 00000006 53 00`.
pub fn write_describe(out: &mut Vec<u8>, kind: Prepared, name: &str) -> Result<(), MessageError>
    ensures { Sends (describe kind name.now) out.old.items out.new.items result }
{
    write_about(out, b'D', kind, name)
}
