//! Reads a row column by column: values, values that may be null, and one that is kept after the row is gone.

ghost use Rattle.std.specs.Prelude.{◌≡◌, ℕ, List, None, Ok, IfOk};
ghost use Rattle.pgv.specs.Words.{Binary, Given, Reads, builtin, front, value_front};

use pgv::{CodecError, Decode, PgType, PgTypeInfo, PgValue, PgValueFormat, PgValueRef};
use std::alloc::Global;

/// The next column of a row in binary. Without a frame in front ([`Short`](CodecError::Short), C15, or
/// [`NegativeLength`](CodecError::NegativeLength), C16) the row stays where it was.
pub fn column<'r, T: Decode>(
    alloc: Global,
    row: &mut &'r [u8],
    type_info: PgTypeInfo,
) -> Result<T, CodecError>
    ensures ok { IfOk result (λ v.
        (given : Given) × (value_front type_info Binary row.old.now ≡ Ok (given, row.new.now))
        × Reads T.parse given (T.view v)) }
    ensures stays { front row.old.now ≡ None → row.new.now ≡ row.old.now }
{
    let value = PgValueRef::get(row, PgValueFormat::Binary, type_info)?;
    T::decode(alloc, value)
}

/// What is read from a row.
#[derive(Drop)]
pub struct Person {
    /// The first column, an `int4`.
    pub id: i32,
    /// The second column, a `text` that may be null.
    pub name: Option<String>,
}

/// A row of an `int4` and a `text` that may be null; more columns may follow.
pub fn read_person(alloc: Global, row: &[u8]) -> Result<Person, CodecError>
    ensures { IfOk result (λ person.
        (id : Given) × (rest : List ℕ) × (name : Given) × (more : List ℕ)
        × (value_front (builtin 23) Binary row.now ≡ Ok (id, rest))
        × (value_front (builtin 25) Binary rest ≡ Ok (name, more))
        × Reads ⟦<i32 as Decode>⟧.parse id person.id
        × Reads ⟦<Option<String> as Decode>⟧.parse name
        (⟦<Option<String> as Decode>⟧.view person.name)) }
{
    let mut rest = row;
    let id: i32 = column(alloc, &mut rest, PgTypeInfo(PgType::Int4))?;
    let name: Option<String> = column(alloc, &mut rest, PgTypeInfo(PgType::Text))?;
    Ok(Person { id, name })
}

/// The next column of a row, kept as it is after the row is gone.
pub fn keep(alloc: Global, row: &mut &[u8], type_info: PgTypeInfo) -> Result<PgValue, CodecError>
    ensures { IfOk result (λ value. value_front type_info Binary row.old.now
        ≡ Ok (value, row.new.now)) }
{
    let value = PgValueRef::get(row, PgValueFormat::Binary, type_info)?;
    value.to_owned(alloc)
}
