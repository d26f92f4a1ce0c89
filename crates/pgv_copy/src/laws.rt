//! Laws of COPY streams in binary: each is the contract of a function that does nothing. They speak of `step`; the
//! contract of [`PgCopyReader::next_row`](crate::PgCopyReader::next_row) says that a call is one step.

ghost use Rattle.std.specs.Prelude.{◌≡◌, Ok, Err, IfOk, IfErr};
ghost use Rattle.pgv_copy.specs.CopyPieces.{WhatCameStays, PiecesAreOneStream, CopyInPiecesIsItsRows};
ghost use Rattle.pgv_copy.specs.CopyStream.{CopyIsItsRows, RowsAreOfACopy, CutCopyIsShort, CutHeaderIsShort};
ghost use Rattle.pgv_copy.specs.CutFrames.{got, CutFramesAreShort};

use pgv_types::PgTypeInfo;
use pgv_value::{CodecError, PgValueFormat, PgValueRef};

/// A stream, whatever its rows, its extension and the bytes after its end, is read as exactly its rows, and each later
/// call returns `None`.
#[tactic(auto, using(crate::proofs::StreamParts::copy_is_its_rows))]
pub fn copy_is_its_rows()
    ensures { CopyIsItsRows }
{}

/// Bytes from which a reader returns rows and then the end are a stream of exactly these rows.
#[tactic(auto, using(crate::proofs::Streams::rows_are_of_a_copy))]
pub fn rows_are_of_a_copy()
    ensures { RowsAreOfACopy }
{}

/// A header that is cut off anywhere is refused with [`Short`](CodecError::Short) (C15).
#[tactic(auto, using(crate::proofs::CutStreams::cut_header_is_short))]
pub fn cut_header_is_short()
    ensures { CutHeaderIsShort }
{}

/// A stream that is cut off anywhere is refused with [`Short`](CodecError::Short) (C15) in its header, or rows of it
/// are returned, from the first on, and each call after them is refused with [`Short`](CodecError::Short) (C15).
#[tactic(auto, using(crate::proofs::CutStreams::cut_copy_is_short))]
pub fn cut_copy_is_short()
    ensures { CutCopyIsShort }
{}

/// A call of [`PgValueRef::get`] returns the part in front and moves the slice past it, or refuses and leaves the
/// slice, exactly as `got` says.
///
/// The law about calls one after another is stated with `got`.
pub fn get_is_got<'r>(
    bytes: &mut &'r [u8],
    format: PgValueFormat,
    type_info: PgTypeInfo,
) -> Result<PgValueRef<'r>, CodecError>
    ensures found { IfOk result (λ v. got bytes.old.now ≡ (Ok v.bytes, bytes.new.now)) }
    ensures refused { IfErr result (λ e. got bytes.old.now ≡ (Err e, bytes.new.now)) }
{
    PgValueRef::get(bytes, format, type_info)
}

/// From frames that are cut off anywhere, the parts of some first frames, and not of all, are returned, and each call
/// after them is refused with [`Short`](CodecError::Short) (C15).
#[tactic(auto, using(crate::proofs::CutStreams::cut_frames))]
pub fn cut_frames_are_short()
    ensures { CutFramesAreShort }
{}

/// What [`PgCopyPieces::advance`](crate::PgCopyPieces::advance) finds in the bytes that have come, a row, the end, or a
/// refusal other than [`Short`](CodecError::Short) (C15), it would find there whatever comes after them.
#[tactic(auto, using(crate::proofs::Stays::what_came_stays))]
pub fn what_came_stays()
    ensures { WhatCameStays }
{}

/// Rows that are read after each piece of a stream, in whatever pieces it comes, are the rows of the joined pieces.
#[tactic(auto, using(crate::proofs::PieceRows::pieces_are))]
pub fn pieces_are_one_stream()
    ensures { PiecesAreOneStream }
{}

/// A stream that comes in pieces, in whatever pieces, is read as exactly its rows and then its end, where after each
/// piece the rows are read that are there.
#[tactic(auto, using(crate::proofs::PieceRows::in_pieces))]
pub fn copy_in_pieces_is_its_rows()
    ensures { CopyInPiecesIsItsRows }
{}
