//! Parse: a query becomes a prepared statement.

ghost use Rattle.pgv_message.specs.Messages.{parse_message};
ghost use Rattle.pgv_message.specs.MessageWriting.{Sends};

use crate::error::MessageError;
use crate::pieces::{Piece, count_piece, push_message, text_piece};
use pgv_types::Oid;

/// Appends Parse (PostgreSQL: "Message Formats", Parse): a query under a statement's name, with the types of its
/// parameters, 0 where the server is to find one.
///
/// A zero byte in the name or the query, more than 65535 types, and a body of more than 2147483643 bytes are refused. A
/// refused call leaves the buffer as it was.
///
/// `SELECT $1` as the unnamed statement, the parameter an `int4`: `50 00000015 00 53454c45435420243100 0001 00000017`.
#[tactic(auto, unfolding(crate::specs::Messages::parse_message))]
pub fn write_parse<'a>(
    out: &mut Vec<u8>,
    statement: &'a str,
    query: &'a str,
    oids: &'a [Oid],
) -> Result<(), MessageError>
    ensures { Sends (parse_message statement.now query.now oids.now)
        out.old.items out.new.items result }
{
    let statement = text_piece(statement)?;
    let query = text_piece(query)?;
    let types = count_piece(oids.len())?;
    push_message(out, b"P", &[statement, query, types, Piece::Oids(oids)])
}
