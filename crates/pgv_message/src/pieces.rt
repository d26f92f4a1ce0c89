//! Messages as pieces that are appended one after another.

ghost use Rattle.std.specs.Prelude.{◌≡◌, ◌<◌, ◌≤◌, ◌++◌, [], ◌∷◌, length, flat_map, is_ok, MatchResult};
ghost use Rattle.std.specs.Int.{to_be_bytes, w32};
ghost use Rattle.pgv_message.specs.MessageWriting.{GivesPart, Sends, appended, ended_text, count_of, whole_message, max_body};
ghost use Rattle.pgv_message.specs.Pieces.{piece_bytes, joined_pieces, format_bytes, format_codes, oid_bytes};
ghost use Rattle.pgv_message.specs.declared.error.MessageError.TheVariants.{TooLong};

use crate::error::MessageError;
use pgv_types::Oid;
use pgv_value::PgValueFormat;
use std::alloc::AllocError;

/// The largest length of a body: with its own four bytes it is 2147483647.
const MAX_BODY: usize = 2147483643;

/// A piece of a message.
#[derive(Clone, Copy)]
pub enum Piece<'a> {
    /// One byte.
    Byte(u8),
    /// A number of two bytes.
    Count(u16),
    /// A number of four bytes.
    Number(u32),
    /// A text and the zero byte that ends it.
    Text(&'a str),
    /// Bytes as they are.
    Bytes(&'a [u8]),
    /// OIDs, of four bytes each.
    Oids(&'a [Oid]),
    /// Formats, of two bytes each.
    Formats(&'a [PgValueFormat]),
}

/// A text as a piece. A zero byte in it is refused.
#[tactic(auto, unfolding(crate::specs::MessageWriting::ended_text))]
pub fn text_piece(text: &str) -> Result<Piece<'_>, MessageError>
    ensures { GivesPart piece_bytes (ended_text text.now) result }
{
    if text.as_bytes().contains(&0) {
        return Err(MessageError::ZeroByte);
    }
    Ok(Piece::Text(text))
}

/// A number of what is counted in two bytes. More than 65535 are refused.
#[tactic(auto, unfolding(crate::specs::MessageWriting::count_of))]
pub fn count_piece<'a>(number: usize) -> Result<Piece<'a>, MessageError>
    ensures { GivesPart piece_bytes (count_of number) result }
{
    match u16::try_from(number) {
        Ok(count) => Ok(Piece::Count(count)),
        Err(_) => Err(MessageError::TooMany(number)),
    }
}

/// How many bytes a piece has.
#[tactic(auto, using(crate::proofs::Sizes::oids_size, crate::proofs::Sizes::formats_size))]
fn piece_size(piece: &Piece<'_>) -> usize
    ensures { result ≡ length (piece_bytes piece.now) }
{
    match piece {
        Piece::Byte(_) => 1,
        Piece::Count(_) => 2,
        Piece::Number(_) => 4,
        Piece::Text(text) => text.len() + 1,
        Piece::Bytes(bytes) => bytes.len(),
        Piece::Oids(oids) => 4 * oids.len(),
        Piece::Formats(formats) => 2 * formats.len(),
    }
}

/// How many bytes all pieces have. More than a body may have are refused.
fn body_size(pieces: &[Piece<'_>]) -> Result<usize, MessageError>
    ensures { MatchResult result
        (λ n. (n ≡ length (flat_map piece_bytes pieces.now)) × (n ≤ max_body))
        (λ e. (e ≡ TooLong) × (max_body < length (flat_map piece_bytes pieces.now))) }
{
    let mut size: usize = 0;
    for piece in pieces {
        let length = piece_size(piece);
        if length > MAX_BODY - size {
            return Err(MessageError::TooLong);
        }
        size += length;
    }
    Ok(size)
}

/// Appends OIDs. A refused call leaves all as it was.
fn push_oids(out: &mut Vec<u8>, oids: &[Oid]) -> Result<(), AllocError>
    ensures { out.new.items ≡ appended (is_ok result) out.old.items (flat_map oid_bytes oids.now) }
{
    let mark = out.len();
    for oid in oids {
        if out.extend_from_slice(&oid.0.to_be_bytes()).is_err() {
            out.truncate(mark);
            return Err(AllocError);
        }
    }
    Ok(())
}

/// A format as a message has it.
fn format_code(format: PgValueFormat) -> [u8; 2]
    ensures { result ≡ format_bytes format }
{
    match format {
        PgValueFormat::Text => [0, 0],
        PgValueFormat::Binary => [0, 1],
    }
}

/// Appends formats. A refused call leaves all as it was.
fn push_formats(out: &mut Vec<u8>, formats: &[PgValueFormat]) -> Result<(), AllocError>
    ensures { out.new.items ≡ appended (is_ok result) out.old.items (format_codes formats.now) }
{
    let mark = out.len();
    for format in formats {
        if out.extend_from_slice(&format_code(*format)).is_err() {
            out.truncate(mark);
            return Err(AllocError);
        }
    }
    Ok(())
}

/// Appends a text and a zero byte. A refused call leaves all as it was.
fn push_text(out: &mut Vec<u8>, text: &str) -> Result<(), AllocError>
    ensures { out.new.items ≡ appended (is_ok result) out.old.items (text.now ++ 0 ∷ []) }
{
    let mark = out.len();
    out.extend_from_slice(text.as_bytes())?;
    if out.extend_from_slice(&[0]).is_err() {
        out.truncate(mark);
        return Err(AllocError);
    }
    Ok(())
}

/// Appends a piece. A refused call leaves all as it was.
fn push_piece(out: &mut Vec<u8>, piece: &Piece<'_>) -> Result<(), AllocError>
    ensures { out.new.items ≡ appended (is_ok result) out.old.items (piece_bytes piece.now) }
{
    match piece {
        Piece::Byte(byte) => out.extend_from_slice(&[*byte]),
        Piece::Count(number) => out.extend_from_slice(&number.to_be_bytes()),
        Piece::Number(number) => out.extend_from_slice(&number.to_be_bytes()),
        Piece::Text(text) => push_text(out, text),
        Piece::Bytes(bytes) => out.extend_from_slice(bytes),
        Piece::Oids(oids) => push_oids(out, oids),
        Piece::Formats(formats) => push_formats(out, formats),
    }
}

/// Appends pieces one after another. A refused call leaves all as it was.
fn push_pieces(out: &mut Vec<u8>, pieces: &[Piece<'_>]) -> Result<(), AllocError>
    ensures { out.new.items ≡ appended (is_ok result) out.old.items (joined_pieces pieces.now) }
{
    let mark = out.len();
    for piece in pieces {
        if push_piece(out, piece).is_err() {
            out.truncate(mark);
            return Err(AllocError);
        }
    }
    Ok(())
}

/// Appends a tag, a length and pieces. A refused call leaves all as it was.
fn push_parts(
    out: &mut Vec<u8>,
    tag: &[u8],
    length: u32,
    pieces: &[Piece<'_>],
) -> Result<(), AllocError>
    ensures { out.new.items ≡ appended (is_ok result) out.old.items
        (tag.now ++ (to_be_bytes w32 length ++ joined_pieces pieces.now)) }
{
    let mark = out.len();
    out.extend_from_slice(tag)?;
    if push_piece(out, &Piece::Number(length)).is_err() || push_pieces(out, pieces).is_err() {
        out.truncate(mark);
        return Err(AllocError);
    }
    Ok(())
}

/// Appends the message under a tag whose body is these pieces; room for all of it is made first. A refused call leaves
/// all as it was.
#[tactic(auto, unfolding(crate::specs::MessageWriting::whole_message))]
pub fn push_message(out: &mut Vec<u8>, tag: &[u8], pieces: &[Piece<'_>]) -> Result<(), MessageError>
    ensures { Sends (whole_message tag.now (joined_pieces pieces.now))
        out.old.items out.new.items result }
{
    let length = body_size(pieces)? + 4;
    out.reserve(length + 1)?;
    push_parts(out, tag, length as u32, pieces)?;
    Ok(())
}
