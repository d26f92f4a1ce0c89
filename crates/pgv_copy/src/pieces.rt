//! Rows of a COPY stream that comes in pieces.

ghost use Rattle.std.specs.Prelude.{◌≡◌, ◌<◌, ◌≤◌, Ok, Err, None, IfOk, MatchOption, MatchResult, drop, length, option_map, false, true};
ghost use Rattle.pgv_value.specs.Outcome.{Gives};
ghost use Rattle.pgv_value.specs.Parsed.{GivesExactly};
ghost use Rattle.pgv_value.specs.declared.error.CodecError.TheVariants.{Memory};
ghost use Rattle.pgv_copy.specs.CopyBinary.{reader_ended, fields};
ghost use Rattle.pgv_copy.specs.declared.pieces.PgCopyNext.TheVariants.{Row};
ghost use Rattle.pgv_copy.specs.CopyPieces.{Advances, IsRowIn, after_begin, next_of, nothing_came, rest_after, row_lent, with_more};

use crate::reader::{after_count, after_header, read_fields};
use pgv_types::PgTypeInfo;
use pgv_value::{CodecError, PgValueRef, part_in_front};
use std::marker::Model;

/// What a call of [`PgCopyPieces::advance`] found in the bytes that have come.
#[derive(Clone, Copy, Debug, PartialEq, Eq)]
pub enum PgCopyNext {
    /// A row, which [`PgCopyPieces::row`] lends.
    Row,
    /// The bytes end before the next row or the end does: more has to come.
    More,
    /// The end of the stream.
    End,
}

/// The rows of a COPY stream in binary that comes in pieces, which may be cut anywhere: the data of CopyData messages
/// (PostgreSQL, "COPY Operations"). What comes is kept until it is read.
///
/// ```text
/// reader.feed(data)?;
/// while reader.advance()? == PgCopyNext::Row { .. reader.row()? .. }
/// ```
#[derive(Drop)]
pub struct PgCopyPieces {
    types: Vec<PgTypeInfo>,
    held: Vec<u8>,
    in_header: bool,
    is_ended: bool,
    has_row: bool,
    row: usize,
    next: usize,
}

impl Model for PgCopyPieces {
    ghost use Rattle.std.specs.Prelude.{drop};
    ghost use Rattle.pgv_copy.specs.CopyPieces.{AreHeld, Pieces, pieces_code, row_at};

    ghost Value = { Pieces };

    ghost coded = { pieces_code };

    ghost view = { λ r. record { types = r.types.items; in_header = r.in_header; is_ended = r.is_ended; left = drop r.next r.held.items; row = row_at r.has_row r.types.items (drop r.row r.held.items) } };

    ghost invariant = { λ r. AreHeld r.has_row r.types.items r.row r.next r.held.items };
}

/// What comes after the header, where it is still to come.
fn after_beginning(bytes: &[u8], in_header: bool) -> Result<&[u8], CodecError>
    ensures { GivesExactly (λ rest. rest.now) (after_begin in_header bytes.now) result }
{
    if in_header {
        after_header(bytes)
    } else {
        Ok(bytes)
    }
}

/// What comes after a frame for each type.
#[tactic(auto, using(crate::proofs::Ends::field_at, crate::proofs::Ends::no_field_at, crate::proofs::Ends::no_front, crate::proofs::FieldLoop::field_of))]
fn after_fields<'r>(types: &[PgTypeInfo], bytes: &'r [u8]) -> Result<&'r [u8], CodecError>
    ensures { GivesExactly (λ rest. rest.now) (rest_after (fields types.now bytes.now)) result }
{
    let mut rest = bytes;
    for _type_info in types {
        let (_part, after) = part_in_front(rest)?;
        rest = after;
    }
    Ok(rest)
}

/// Where the fields of the next row begin, and where they end; or none at the end of the stream.
#[tactic(auto, using(crate::proofs::Ends::at_end, crate::proofs::Ends::no_count, crate::proofs::Ends::no_field, crate::proofs::Ends::row_there))]
fn next_row_in<'r>(
    types: &[PgTypeInfo],
    bytes: &'r [u8],
    in_header: bool,
) -> Result<Option<(&'r [u8], &'r [u8])>, CodecError>
    ensures { let next = next_of types.now in_header bytes.now in
        MatchResult result (λ found. MatchOption found (next ≡ Ok (None, reader_ended types.now))
        (λ p. IsRowIn types.now in_header bytes.now p.0.now p.1.now)) (λ e. next ≡ Err e) }
{
    let rest = after_beginning(bytes, in_header)?;
    let Some(row) = after_count(rest, types.len())? else {
        return Ok(None);
    };
    let after = after_fields(types, row)?;
    Ok(Some((row, after)))
}

/// Forgets as many bytes in front.
fn forget_front(held: &mut Vec<u8>, count: usize)
    requires { count ≤ length held.old.items }
    ensures { held.new.items ≡ drop count held.old.items }
{
    let left = held.len() - count;
    held.rotate_left(count);
    held.truncate(left);
}

impl PgCopyPieces {
    /// A reader of a stream whose columns have these types, to which nothing has come. It takes no memory yet.
    pub fn new(types: Vec<PgTypeInfo>) -> PgCopyPieces
        ensures { result ≡ nothing_came types.items }
    {
        let held = Vec::new(*types.allocator());
        PgCopyPieces {
            types,
            held,
            in_header: true,
            is_ended: false,
            has_row: false,
            row: 0,
            next: 0,
        }
    }

    /// Takes a piece of the stream. The row that was read last can't be lent any more, and its bytes are forgotten.
    ///
    /// Where the bytes can't be kept it is refused with [`Memory`](CodecError::Memory) (C1), and the reader is as it
    /// was. After the end bytes don't count, and it asks for no memory.
    pub fn feed(&mut self, piece: &[u8]) -> Result<(), CodecError>
        ensures { MatchResult result (λ _. self.new ≡ with_more self.old piece.now)
            (λ e. (e ≡ Memory) × (self.old.is_ended ≡ false) × (self.new ≡ self.old)) }
    {
        if self.is_ended {
            return Ok(());
        }
        self.held.extend_from_slice(piece)?;
        forget_front(&mut self.held, self.next);
        self.has_row = false;
        self.row = 0;
        self.next = 0;
        Ok(())
    }

    /// Reads the next row of the bytes that have come, so that [`PgCopyPieces::row`] lends it. It asks for no memory.
    ///
    /// [`PgCopyNext::More`] where the bytes end before the row does, and [`PgCopyNext::End`] at the end of the stream
    /// and from then on. A header or a row that is refused is refused as by [`PgCopyReader`](crate::PgCopyReader), and
    /// the reader is as it was.
    pub fn advance(&mut self) -> Result<PgCopyNext, CodecError>
        ensures found { Advances self.old result self.new }
        // Each row takes bytes, so a loop over the rows ends.
        ensures shorter { IfOk result (λ next. next ≡ Row
            → length self.new.left < length self.old.left) }
    {
        if self.is_ended {
            return Ok(PgCopyNext::End);
        }
        let bytes = &self.held.as_slice()[self.next..];
        let found = match next_row_in(self.types.as_slice(), bytes, self.in_header) {
            Ok(found) => found,
            Err(CodecError::Short) => return Ok(PgCopyNext::More),
            Err(error) => return Err(error),
        };
        let Some((row, rest)) = found else {
            self.held.clear();
            self.row = 0;
            self.next = 0;
            self.in_header = false;
            self.has_row = false;
            self.is_ended = true;
            return Ok(PgCopyNext::End);
        };
        let row = self.held.len() - row.len();
        let next = self.held.len() - rest.len();
        self.row = row;
        self.next = next;
        self.in_header = false;
        self.has_row = true;
        Ok(PgCopyNext::Row)
    }

    /// The values of the row that was read last, or none where none was read since bytes came. They borrow from the
    /// bytes that are kept.
    ///
    /// The list and the copy of each custom type take memory: where there is none left it is refused with
    /// [`Memory`](CodecError::Memory) (C1). Where there is no row it asks for none.
    pub fn row(&self) -> Result<Option<Vec<PgValueRef<'_>>>, CodecError>
        ensures { Gives (λ found. option_map (λ row. row.items) found)
            (row_lent self.now.row) result }
    {
        if !self.has_row {
            return Ok(None);
        }
        let mut bytes = &self.held.as_slice()[self.row..];
        let mut row = Vec::new(*self.types.allocator());
        read_fields(self.types.as_slice(), &mut bytes, &mut row)?;
        Ok(Some(row))
    }
}
