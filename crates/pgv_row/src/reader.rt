//! Rows that are read in one pass, each straight into a tuple.

ghost use Rattle.std.specs.Prelude.{◌-◌, ◌≤◌, length};
ghost use Rattle.pgv_value.specs.Parsed.{GivesExactly, GivesFront};
ghost use Rattle.pgv_row.specs.DataRow.{frames_front};
ghost use Rattle.pgv_row.specs.OnePass.{Fits, IsRowRefused, one_pass, passed_over};
ghost use Rattle.pgv_row.specs.Tuples.{GivesFields, index_of};

use crate::column::{PgColumn, PgColumns};
use crate::error::ColumnError;
use crate::place::check_count;
use crate::tuple::FromRow;
use pgv_value::{CodecError, part_in_front};
use std::alloc::Global;

/// The frames of the body of a row that has as many columns.
#[inline(always)]
fn frames_of(body: &[u8], width: usize) -> Result<&[u8], CodecError>
    ensures { GivesExactly (λ frames. frames.now) (frames_front width body.now) result }
{
    check_count(body, width)?;
    let (_count, frames) = body.split_at(2);
    Ok(frames)
}

/// The rest after the frames of the columns from a place on.
#[inline(always)]
pub(crate) fn pass_over(
    bytes: &[u8],
    place: usize,
    width: usize,
) -> Result<&[u8], ColumnError<usize>>
    ensures { GivesFront (GivesFields (λ rest. rest.now) (passed_over (width - place) bytes.now)
        (λ e. place ≤ index_of e)) (λ rest. length rest.now ≤ length bytes.now) result }
{
    let mut rest = bytes;
    for at in place..width {
        match part_in_front(rest) {
            Ok((_part, after)) => rest = after,
            Err(source) => {
                return Err(ColumnError::Decode {
                    index: at,
                    place: at,
                    source,
                });
            }
        }
    }
    Ok(rest)
}

/// What `T` reads from the body of a row in one pass.
#[inline(always)]
#[tactic(auto, unfolding(crate::specs::OnePass::one_pass))]
fn read_body<T: FromRow>(
    alloc: Global,
    columns: &[PgColumn<'_>],
    body: &[u8],
) -> Result<T, ColumnError<usize>>
    ensures { GivesFields T.view (one_pass T.in_front columns.now body.now)
        (IsRowRefused T.in_front T.refused_in_front columns.now body.now) result }
{
    let width = columns.len();
    let frames = match frames_of(body, width) {
        Ok(frames) => frames,
        Err(source) => {
            return Err(ColumnError::Decode {
                index: 0,
                place: 0,
                source,
            });
        }
    };
    let mut further = frames;
    let (value, next) = match T::read_frames(alloc, columns, &mut further) {
        Ok(read) => read,
        Err(error) => return Err(error),
    };
    let rest = match pass_over(further, next, width) {
        Ok(rest) => rest,
        Err(error) => return Err(error),
    };
    if !rest.is_empty() {
        return Err(ColumnError::Decode {
            index: width,
            place: width,
            source: CodecError::WrongLength(body.len()),
        });
    }
    Ok(value)
}

impl<'d> PgColumns<'d> {
    /// Tests once, for all rows of these columns, that they can be read into tuples of a type by
    /// [`PgColumns::read_row`]: `columns.check::<(i32, Option<String>)>()?`. Null is no exception, as it is at
    /// [`PgRow::try_get`](crate::PgRow::try_get): its column's type is tested too.
    ///
    /// A field that there is no column for is `NotFound`, and one that isn't read under its column's type `Decode` with
    /// [`MismatchedTypes`](CodecError::MismatchedTypes) (C27), as at `try_get`: the first one is the error.
    pub fn check<T: FromRow>(&self) -> Result<(), ColumnError<usize>>
        ensures exact { Fits (T.fits self.now) result }
    {
        T::check_columns(self.as_slice())
    }

    /// The fields of a row as a tuple, read in one pass over the body of its DataRow (PostgreSQL, "Message Formats",
    /// DataRow): `let row: (i32, Option<String>) = columns.read_row(alloc, body)?`. No room for places is needed. Of
    /// `0002 00000001 37 ffffffff` under columns of `int4` in text and of `text` it is `(7, None)`.
    ///
    /// The types of the columns are not tested here: [`PgColumns::check`] does that, once for all rows. Where it
    /// succeeds, a row is read, or refused, as [`PgRow::as_tuple`](crate::PgRow::as_tuple) does it. Where it doesn't,
    /// each field still reads its value under the type of its column, and may misread or refuse it.
    ///
    /// Another number of columns is refused with [`FieldCount`](CodecError::FieldCount) (C12), bytes that end too early
    /// with [`Short`](CodecError::Short) (C15), a negative length but the -1 of null with
    /// [`NegativeLength`](CodecError::NegativeLength) (C16), and bytes after the last column with
    /// [`WrongLength`](CodecError::WrongLength) (C17); a value with what its type refuses it with. Of several refusals
    /// the one that comes first in the bytes is the error, so that a value's may come before that of a later frame. The
    /// error's place is the column's that was read; 0 of the number of columns, and that number of bytes after the last
    /// one. Memory is asked for only for the values, and for a copy of a custom type.
    #[inline(always)]
    pub fn read_row<T: FromRow>(&self, alloc: Global, body: &[u8]) -> Result<T, ColumnError<usize>>
        ensures { GivesFields T.view (one_pass T.in_front self.now body.now)
            (IsRowRefused T.in_front T.refused_in_front self.now body.now) result }
    {
        read_body(alloc, self.as_slice(), body)
    }
}
