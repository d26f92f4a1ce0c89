//! Bind: a statement and its parameters become a portal.

ghost use Rattle.std.specs.Prelude.{[], ◌∷◌, codes, flat_map};
ghost use Rattle.std.specs.Int.{to_be_bytes, w16};
ghost use Rattle.pgv_copy.specs.CopyPieces.{joined};
ghost use Rattle.pgv_message.specs.Messages.{bind};
ghost use Rattle.pgv_message.specs.MessageWriting.{Sends, whole_message};
ghost use Rattle.pgv_message.specs.Pieces.{format_bytes, piece_bytes};

use crate::error::MessageError;
use crate::pieces::{Piece, count_piece, push_message, text_piece};
use pgv_value::PgValueFormat;
use pgv_wire::PgArguments;

/// The code of the binary format.
const BINARY: u16 = 1;

/// Appends Bind (PostgreSQL: "Message Formats", Bind): the arguments become the parameters of a portal, all in binary.
/// The formats of the result's columns are an empty list, where all are in text, one format for all, or one for each.
///
/// A zero byte in a name, more than 65535 arguments or formats, and a body of more than 2147483643 bytes are refused. A
/// refused call leaves the buffer as it was. No memory is asked for but what the buffer takes.
///
/// The unnamed portal of the unnamed statement with one argument, `int4` 7, and results in binary:
/// `42 00000018 00 00 0001 0001 0001 00000004 00000007 0001 0001`.
#[tactic(auto, unfolding(crate::specs::Messages::bind))]
pub fn write_bind<'a>(
    out: &mut Vec<u8>,
    portal: &'a str,
    statement: &'a str,
    arguments: &'a PgArguments,
    results: &'a [PgValueFormat],
) -> Result<(), MessageError>
    ensures { Sends (bind portal.now statement.now arguments.now results.now)
        out.old.items out.new.items result }
{
    let portal = text_piece(portal)?;
    let statement = text_piece(statement)?;
    let parameters = count_piece(arguments.len())?;
    let formats = count_piece(results.len())?;
    let frames = arguments.buffer().as_slice();
    push_bind(out, portal, statement, parameters, frames, formats, results)
}

/// Appends Bind of a portal, a statement, a number of parameters, their frames, a number of formats and these.
fn push_bind<'a>(
    out: &mut Vec<u8>,
    portal: Piece<'a>,
    statement: Piece<'a>,
    parameters: Piece<'a>,
    frames: &'a [u8],
    formats: Piece<'a>,
    results: &'a [PgValueFormat],
) -> Result<(), MessageError>
    ensures { Sends (whole_message (codes "B") (joined (piece_bytes portal.entry
        ∷ piece_bytes statement.entry ∷ to_be_bytes w16 1 ∷ to_be_bytes w16 1 ∷ piece_bytes parameters.entry
        ∷ frames.now ∷ piece_bytes formats.entry ∷ flat_map format_bytes results.now ∷ [])))
        out.old.items out.new.items result }
{
    push_message(
        out,
        b"B",
        &[
            portal,
            statement,
            Piece::Count(1),
            Piece::Count(BINARY),
            parameters,
            Piece::Bytes(frames),
            formats,
            Piece::Formats(results),
        ],
    )
}
