//! Arrays, and arrays with nulls in them, written and read.

ghost use Rattle.std.specs.Prelude.{List, OnOk};
ghost use Rattle.pgv.specs.Words.{Added, Argument, Gives, argument_frame, builtin};

use pgv::{CodecError, Decode, Encode, PgArguments, PgValueRef};
use std::alloc::Global;

/// Adds two lists of `int4`. In the second a score may be null.
pub fn add_lists(
    arguments: &mut PgArguments,
    places: Vec<i32>,
    scores: Vec<Option<i32>>,
) -> Result<(), CodecError>
    ensures { OnOk result ((one : List Argument)
        × Added (argument_frame (⟦<Vec<i32> as Encode>⟧.encoding places)) (builtin 1007)
        arguments.old one × Added (argument_frame (⟦<Vec<Option<i32>> as Encode>⟧.encoding scores))
        (builtin 1007) one arguments.new) }
{
    arguments.add(places)?;
    arguments.add(scores)?;
    Ok(())
}

/// The scores of a column, each a number or null. A null in place of the list is refused with
/// [`UnexpectedNull`](CodecError::UnexpectedNull) (C13).
pub fn scores(alloc: Global, column: PgValueRef<'_>) -> Result<Vec<Option<i32>>, CodecError>
    ensures { Gives ⟦<Vec<Option<i32>> as Decode>⟧.view
        (⟦<Vec<Option<i32>> as Decode>⟧.parse column.entry) result }
{
    Vec::decode(alloc, column)
}
