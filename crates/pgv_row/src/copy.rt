//! Rows of a COPY stream in binary, each read straight into a tuple.

ghost use Rattle.std.specs.Prelude.{◌≡◌, ◌-◌, ◌<◌, ◌≤◌, length, option_map, IfOk, OnErr, OnSome};
ghost use Rattle.pgv_value.specs.Parsed.{GivesExactly, GivesFront};
ghost use Rattle.pgv_row.specs.CopyRows.{AreFramesRefused, IsCopyRowRefused, bytes_left, copy_opened, copy_row, frames_read};
ghost use Rattle.pgv_row.specs.Tuples.{GivesFields};

use crate::column::{PgColumn, PgColumns};
use crate::error::ColumnError;
use crate::reader::pass_over;
use crate::tuple::FromRow;
use pgv_copy::{after_count, after_header};
use pgv_value::CodecError;
use std::alloc::Global;
use std::marker::Model;

/// The rows of a COPY stream in binary (PostgreSQL, "COPY", "Binary Format"), each read straight into a tuple: what
/// `COPY .. TO STDOUT (FORMAT binary)` sends. [`PgColumns::copy_rows`] makes it.
#[derive(Drop)]
pub struct PgCopyRows<'c, 'r> {
    columns: &'c [PgColumn<'c>],
    left: Option<&'r [u8]>,
}

impl<'c, 'r> Model for PgCopyRows<'c, 'r> {
    ghost use Rattle.std.specs.Option.{option_copied};
    ghost use Rattle.pgv_row.specs.CopyRows.{CopyRows, copy_rows_code};

    ghost Value = { CopyRows };

    ghost coded = { copy_rows_code };

    ghost view = { λ r. record { columns = r.columns.now; left = option_copied r.left } };
}

impl<'d> PgColumns<'d> {
    /// The rows of a COPY stream in binary of these columns. A stream that doesn't begin with the header is refused as
    /// by `PgCopyReader::new`. It takes no memory.
    pub fn copy_rows<'r>(&self, bytes: &'r [u8]) -> Result<PgCopyRows<'_, 'r>, CodecError>
        ensures { GivesExactly (λ rows. rows) (copy_opened self.now bytes.now) result }
    {
        let left = after_header(bytes)?;
        Ok(PgCopyRows {
            columns: self.as_slice(),
            left: Some(left),
        })
    }
}

/// What `T` reads from the frames of a row, and the rest after them.
#[inline(always)]
#[tactic(auto, unfolding(crate::specs::CopyRows::frames_read))]
fn read_frames<'r, T: FromRow>(
    alloc: Global,
    columns: &[PgColumn<'_>],
    frames: &'r [u8],
) -> Result<(T, &'r [u8]), ColumnError<usize>>
    ensures { GivesFront (GivesFields (λ x. (T.view x.0, x.1.now))
        (frames_read T.in_front columns.now frames.now)
        (AreFramesRefused T.in_front T.refused_in_front columns.now frames.now))
        (λ x. length x.1.now ≤ length frames.now) result }
{
    let mut further = frames;
    match T::read_frames(alloc, columns, &mut further) {
        Ok((value, next)) => match pass_over(further, next, columns.len()) {
            Ok(rest) => Ok((value, rest)),
            Err(error) => Err(error),
        },
        Err(error) => Err(error),
    }
}

impl<'c, 'r> PgCopyRows<'c, 'r> {
    /// What the fields of `T` read from the next row, each from the column at its place, as `rows.next_row_as::<(i32,
    /// Option<String>)>(alloc)`; `None` at the end of the stream and from then on. Further columns are passed over.
    /// Types are not tested: [`PgColumns::check`] does that, once for all rows.
    ///
    /// Bytes that end before the stream does are refused with [`Short`](CodecError::Short) (C15), a negative number of
    /// fields but the -1 of the end, and a negative length of a field but the -1 of null, with
    /// [`NegativeLength`](CodecError::NegativeLength) (C16), and another number than that of the columns with
    /// [`FieldCount`](CodecError::FieldCount) (C12); a value is refused with what its type refuses it with. Of several
    /// refusals the one that comes first in the bytes is the error; its place is the column's, and 0 of the number of
    /// fields. A refused call leaves the reader as it was. Memory is asked for only for the values, and for a copy of a
    /// custom type.
    #[inline(always)]
    #[tactic(auto, unfolding(crate::specs::CopyRows::row_from, crate::specs::CopyRows::row_or_end))]
    pub fn next_row_as<T: FromRow>(
        &mut self,
        alloc: Global,
    ) -> Result<Option<T>, ColumnError<usize>>
        ensures read { GivesFields (λ found. (option_map T.view found, self.new))
            (copy_row T.in_front self.old)
            (IsCopyRowRefused T.in_front T.refused_in_front self.old) result }
        ensures unmoved { OnErr result (self.new ≡ self.old) }
        // Each row takes bytes, so a loop over the rows ends.
        ensures shorter { IfOk result (λ found. OnSome found
            (bytes_left self.new < bytes_left self.old)) }
    {
        let Some(bytes) = self.left else {
            return Ok(None);
        };
        let frames = match after_count(bytes, self.columns.len()) {
            Ok(Some(frames)) => frames,
            Ok(None) => {
                self.left = None;
                return Ok(None);
            }
            Err(source) => {
                return Err(ColumnError::Decode {
                    index: 0,
                    place: 0,
                    source,
                });
            }
        };
        match read_frames(alloc, self.columns, frames) {
            Ok((value, rest)) => {
                self.left = Some(rest);
                Ok(Some(value))
            }
            Err(error) => Err(error),
        }
    }
}
