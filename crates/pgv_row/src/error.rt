//! Why a column of a row was not read.

ghost use Rattle.std.specs.Prelude.{◌≡◌};
ghost use Rattle.pgv_row.specs.Errors.{codec_error};

use pgv_value::CodecError;
use std::fmt::Display;
use thiserror::Error;

/// Why a column was not read: it carries the place or the name that was asked for. The wording of its text is not part
/// of the product.
#[derive(Debug, Drop, Error)]
#[error_bound(I: Display)]
pub enum ColumnError<I> {
    /// No column has this place or name. `place` is the place that was asked for, and for a name the number of columns.
    #[error("there is no column {index}")]
    NotFound {
        /// What was asked for.
        index: I,
        /// The place, or the number of columns.
        place: usize,
    },
    /// The value of the column was refused.
    #[error("column {index}: {source}")]
    Decode {
        /// What was asked for.
        index: I,
        /// The column's place.
        place: usize,
        /// Why it was refused: [`Memory`](CodecError::Memory) (C1) where memory ran out,
        /// [`MismatchedTypes`](CodecError::MismatchedTypes) (C27) where the column's type is not one that the Rust type
        /// is read under.
        source: CodecError,
    },
}

/// A column that isn't there is [`NoField`](CodecError::NoField) (C25), and a value that was refused is what it was
/// refused with.
impl<I: Drop> From<ColumnError<I>> for CodecError {
    ghost from_gives = { λ error codec. codec ≡ codec_error error };

    fn from(error: ColumnError<I>) -> CodecError {
        match error {
            ColumnError::NotFound { index: _, place } => CodecError::NoField(place),
            ColumnError::Decode {
                index: _,
                place: _,
                source,
            } => source,
        }
    }
}
