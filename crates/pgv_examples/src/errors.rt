//! Refusals as an error of one's own, which says the column and the number.

ghost use Rattle.pgv_examples.specs.Reasons.{reason_of};

use pgv::row::{ColumnError, PgRow};
use std::alloc::Global;

/// Why a column was not read, which was asked for by its name or place.
#[derive(Debug, Drop, PartialEq, Eq)]
pub enum Reason<I> {
    /// There is no such column.
    Missing(I),
    /// The value of the column is null.
    Null(I),
    /// The value of the column was refused: C and this number.
    Refused(I, u8),
    /// A request for memory was refused, which is not the row's fault.
    Memory,
}

impl<I: Drop> From<ColumnError<I>> for Reason<I> {
    ghost use Rattle.std.specs.Prelude.{◌≡◌};

    ghost from_gives = { λ error reason. reason ≡ reason_of error };

    fn from(error: ColumnError<I>) -> Reason<I> {
        match error {
            ColumnError::NotFound { index, place: _ } => Reason::Missing(index),
            ColumnError::Decode {
                index,
                place: _,
                source,
            } => match source.code() {
                1 => Reason::Memory,
                13 => Reason::Null(index),
                number => Reason::Refused(index, number),
            },
        }
    }
}

/// The name in a row, a `text` that may not be null.
pub fn name_in(alloc: Global, row: &PgRow<'_>) -> Result<String, Reason<&'static str>> {
    Ok(row.try_get(alloc, "name")?)
}
