//! Rows as tuples: each column in order is a field.

ghost use Rattle.std.specs.Prelude.{◌≡◌, ◌+◌, ◌≤◌, ℕ, List, length, Ok, IfSome, OnOk};
ghost use Rattle.std.specs.Option.{option_copied};
ghost use Rattle.pgv_value.specs.Outcome.{Gives, Outcome};
ghost use Rattle.pgv_row.specs.ColumnView.{Column};
ghost use Rattle.pgv_row.specs.OnePass.{Fit, Fits, FitsAt, column_fits, columns_fit, ColumnsLeft, value_of_part, value_in_front, column_in_front, columns_in_front, IsRefusedInFront, IsFirstInFront, InOnePass};
ghost use Rattle.pgv_row.specs.OnePassLemmas.{last_in_one_pass, further_in_one_pass};
ghost use Rattle.pgv_row.specs.RowView.{Row};
ghost use Rattle.pgv_row.specs.Tuples.{column_parse, columns_parse, GivesField, GivesFields, IsFirstRefused, IsRefused};
ghost use Rattle.pgv_row.specs.declared.error.ColumnError.{ColumnError as Error};

use crate::column::PgColumn;
use crate::error::ColumnError;
use crate::row::PgRow;
use pgv_codec::{Decode, Type};
use pgv_value::{CodecError, PgValueFormat, PgValueRef, part_in_front, part_of_length};
use std::alloc::Global;

/// A value that is read from a row. Tuples are: of n fields the first n columns are read, and further ones are ignored.
pub trait FromRow: Sized + Drop {
    /// What the fields say.
    ghost View: { Type 0 };

    /// What the fields say.
    ghost view: { Self → View };

    /// What is read from a row.
    ghost parse: { Row → Outcome View };

    /// The errors that a row may be refused with.
    ghost refused: { Row → Error ℕ → Type 0 };

    /// Whether the columns are there, and the fields are read under their types, or why not.
    ghost fits: { List Column → Fit };

    /// What is read from the frames of a row, and what is left of them.
    ghost in_front: { List Column → List ℕ → Outcome (View × ColumnsLeft) };

    /// The errors that the frames may be refused with.
    ghost refused_in_front: { List Column → List ℕ → Error ℕ → Type 0 };

    /// The value that a row is read as. The first column that is refused refuses it, and the error names its place.
    fn from_row(alloc: Global, row: &PgRow<'_>) -> Result<Self, ColumnError<usize>>
        ensures { GivesFields view (parse row.now) (refused row.now) result };

    /// That there is a column for each field, under whose type the field is read. The error is that of the first one
    /// where it is not so.
    fn check_columns(columns: &[PgColumn<'_>]) -> Result<(), ColumnError<usize>>
        ensures { Fits (fits columns.now) result };

    /// The values of the first columns, whose frames are in front, and the place of the next column; the bytes then go
    /// on from its frame. Types are not tested. A refusal may have moved the bytes.
    fn read_frames<'r>(
        alloc: Global,
        columns: &[PgColumn<'_>],
        bytes: &mut &'r [u8],
    ) -> Result<(Self, usize), ColumnError<usize>>
        ensures read { GivesFields (λ x. (view x.0, (x.1, bytes.new.now)))
            (in_front columns.now bytes.old.now)
            (refused_in_front columns.now bytes.old.now) result }
        ensures within { OnOk result (length bytes.new.now ≤ length bytes.old.now) };

    /// The same is read from the frames as from the row.
    ghost in_one_pass: { InOnePass 0 fits parse refused in_front refused_in_front };
}

/// Columns one after another, as nested pairs that end in a tuple of one: `(A, (B, (C,)))`. Every tuple is read through
/// such a list, so that what is proved of one column and of the rest holds for tuples of any length.
pub trait ColumnList: Sized + Drop {
    /// What the values say.
    ghost View: { Type 0 };

    /// What the values say.
    ghost view: { Self → View };

    /// What is read from the columns from a place on.
    ghost parse: { Row → ℕ → Outcome View };

    /// The errors that these columns may be refused with.
    ghost refused: { Row → ℕ → Error ℕ → Type 0 };

    /// Whether the columns from a place on are there, and the values are read under their types, or why not.
    ghost fits: { List Column → ℕ → Fit };

    /// What is read from the frames of the columns from a place on, and what is left of them.
    ghost in_front: { List Column → ℕ → List ℕ → Outcome (View × ColumnsLeft) };

    /// The errors that these frames may be refused with.
    ghost refused_in_front: { List Column → ℕ → List ℕ → Error ℕ → Type 0 };

    /// The values of the columns from a place on.
    fn read(alloc: Global, row: &PgRow<'_>, place: usize) -> Result<Self, ColumnError<usize>>
        ensures { GivesFields view (parse row.now place) (refused row.now place) result };

    /// That there is a column for each value from a place on, under whose type the value is read.
    fn check_columns(columns: &[PgColumn<'_>], place: usize) -> Result<(), ColumnError<usize>>
        ensures { Fits (fits columns.now place) result };

    /// The values of the columns from a place on, whose frames are in front, and the place of the next column; the
    /// bytes then go on from its frame. Types are not tested. A refusal may have moved the bytes.
    fn read_frames<'r>(
        alloc: Global,
        columns: &[PgColumn<'_>],
        place: usize,
        bytes: &mut &'r [u8],
    ) -> Result<(Self, usize), ColumnError<usize>>
        ensures read { GivesFields (λ x. (view x.0, (x.1, bytes.new.now)))
            (in_front columns.now place bytes.old.now)
            (refused_in_front columns.now place bytes.old.now) result }
        ensures within { OnOk result (length bytes.new.now ≤ length bytes.old.now) };

    /// The same is read from the frames as from the row.
    ghost in_one_pass: { (place : ℕ) → InOnePass place (λ columns. fits columns place) (λ row. parse row place) (λ row. refused row place) (λ columns. in_front columns place) (λ columns. refused_in_front columns place) };
}

/// The value of the column at a place, and the place after it.
#[tactic(auto, unfolding(crate::specs::Tuples::column_parse))]
fn next_column<T: Type + Decode>(
    alloc: Global,
    row: &PgRow<'_>,
    place: usize,
) -> Result<(T, usize), ColumnError<usize>>
    ensures { GivesField T.view (column_parse T.accepts T.parse row.now place)
        (IsRefused (column_parse T.accepts T.parse) row.now place) place result }
{
    if place >= row.len() {
        return Err(ColumnError::NotFound {
            index: place,
            place,
        });
    }
    match row.value_at(alloc, place) {
        Ok(value) => Ok((value, place + 1)),
        Err(source) => Err(ColumnError::Decode {
            index: place,
            place,
            source,
        }),
    }
}

/// That there is a column at a place, under whose type `T` is read; it answers the place after it.
#[tactic(auto, unfolding(crate::specs::OnePass::column_fits))]
fn check_column<T: Type>(
    columns: &[PgColumn<'_>],
    place: usize,
) -> Result<usize, ColumnError<usize>>
    ensures { FitsAt (column_fits T.accepts columns.now place) place result }
{
    let Some(column) = columns.get(place) else {
        return Err(ColumnError::NotFound {
            index: place,
            place,
        });
    };
    if !T::compatible(column.type_info()) {
        return Err(ColumnError::Decode {
            index: place,
            place,
            source: CodecError::MismatchedTypes,
        });
    }
    Ok(place + 1)
}

/// The value of a frame in front in binary, if it is read at once, whatever its type is, and the rest. It is for speed
/// alone.
#[inline(always)]
#[tactic(auto, unfolding(crate::specs::OnePass::value_of_part, crate::specs::OnePass::value_in_front))]
fn value_at_once<'r, T: Decode>(column: &PgColumn<'_>, bytes: &'r [u8]) -> Option<(T, &'r [u8])>
    ensures { IfSome result (λ x.
        ((value_in_front T.parse column.now bytes.now).answer ≡ Ok (T.view x.0, x.1.now))
        × (length x.1.now ≤ length bytes.now)) }
{
    let width = T::width_at_once();
    if width == 0 || bytes.len() < 4 + width {
        return None;
    }
    let (part, rest) = part_of_length(bytes, width)?;
    match column.format() {
        PgValueFormat::Binary => Some((T::decode_at_once(part)?, rest)),
        PgValueFormat::Text => None,
    }
}

/// What `T` reads from a part, or from null, under a copy of its column's type.
#[cold]
#[inline(never)]
#[tactic(auto, unfolding(crate::specs::OnePass::value_of_part))]
fn decode_part<T: Decode>(
    alloc: Global,
    column: &PgColumn<'_>,
    part: Option<&[u8]>,
) -> Result<T, CodecError>
    ensures { Gives T.view (value_of_part T.parse column.now (option_copied part.entry)) result }
{
    let type_info = column.type_info().clone()?;
    T::decode(alloc, PgValueRef::new(part, type_info, column.format()))
}

/// What `T` reads from a part, or from null: under its own type where the column has this built-in one, so that none is
/// copied.
#[inline(always)]
#[tactic(auto, unfolding(crate::specs::OnePass::value_of_part))]
fn read_under_own_type<T: Type + Decode>(
    alloc: Global,
    column: &PgColumn<'_>,
    part: Option<&[u8]>,
) -> Result<T, CodecError>
    ensures { Gives T.view (value_of_part T.parse column.now (option_copied part.entry)) result }
{
    let own = T::type_info();
    if column.type_info().is_same_built_in(&own) {
        return T::decode(alloc, PgValueRef::new(part, own, column.format()));
    }
    decode_part(alloc, column, part)
}

/// What `T` reads from a part, or from null, under its column's type and in its format.
#[inline(always)]
#[tactic(auto, unfolding(crate::specs::OnePass::value_of_part))]
fn read_part<T: Type + Decode>(
    alloc: Global,
    column: &PgColumn<'_>,
    part: Option<&[u8]>,
) -> Result<T, CodecError>
    ensures { Gives T.view (value_of_part T.parse column.now (option_copied part.entry)) result }
{
    if T::width_at_once() > 0 && part.is_some() {
        return decode_part(alloc, column, part);
    }
    read_under_own_type(alloc, column, part)
}

/// What `T` reads from the frame in front as a value of a column; the bytes then go on after it.
#[inline(always)]
#[tactic(auto, unfolding(crate::specs::OnePass::value_in_front))]
fn front_value<'r, T: Type + Decode>(
    alloc: Global,
    column: &PgColumn<'_>,
    bytes: &mut &'r [u8],
) -> Result<T, CodecError>
    ensures read { Gives (λ v. (T.view v, bytes.new.now)) (value_in_front T.parse column.now
        bytes.old.now) result }
    ensures within { OnOk result (length bytes.new.now ≤ length bytes.old.now) }
{
    let all: &'r [u8] = *bytes;
    if let Some((value, rest)) = value_at_once(column, all) {
        *bytes = rest;
        return Ok(value);
    }
    let (part, rest) = part_in_front(all)?;
    *bytes = rest;
    // A result of its own: what is read at once then needs no room in memory.
    match read_part(alloc, column, part) {
        Ok(value) => Ok(value),
        Err(error) => Err(error),
    }
}

/// What `T` reads from the frame in front as the value of the column at a place, and the place after it; the bytes then
/// go on after the frame.
#[inline(always)]
#[tactic(auto, unfolding(crate::specs::OnePass::column_in_front))]
fn front_column<'r, T: Type + Decode>(
    alloc: Global,
    columns: &[PgColumn<'_>],
    place: usize,
    bytes: &mut &'r [u8],
) -> Result<(T, usize), ColumnError<usize>>
    ensures read { GivesFields (λ x. (T.view x.0, (x.1, bytes.new.now)))
        (column_in_front T.parse columns.now place bytes.old.now)
        (IsRefusedInFront (column_in_front T.parse) columns.now place bytes.old.now) result }
    ensures within { OnOk result (length bytes.new.now ≤ length bytes.old.now) }
{
    let Some(column) = columns.get(place) else {
        return Err(ColumnError::NotFound {
            index: place,
            place,
        });
    };
    match front_value(alloc, column, bytes) {
        Ok(value) => Ok((value, place + 1)),
        Err(source) => Err(ColumnError::Decode {
            index: place,
            place,
            source,
        }),
    }
}

/// The last column.
impl<A: Type + Decode> ColumnList for (A,) {
    ghost View = { A.View };

    ghost view = { λ list. A.view list.0 };

    ghost parse = { column_parse A.accepts A.parse };

    ghost refused = { IsRefused (column_parse A.accepts A.parse) };

    ghost fits = { column_fits A.accepts };

    ghost in_front = { column_in_front A.parse };

    ghost refused_in_front = { IsRefusedInFront (column_in_front A.parse) };

    fn read(alloc: Global, row: &PgRow<'_>, place: usize) -> Result<(A,), ColumnError<usize>> {
        match next_column(alloc, row, place) {
            Ok((value, _next)) => Ok((value,)),
            Err(error) => Err(error),
        }
    }

    fn check_columns(columns: &[PgColumn<'_>], place: usize) -> Result<(), ColumnError<usize>> {
        match check_column::<A>(columns, place) {
            Ok(_next) => Ok(()),
            Err(error) => Err(error),
        }
    }

    #[inline(always)]
    fn read_frames<'r>(
        alloc: Global,
        columns: &[PgColumn<'_>],
        place: usize,
        bytes: &mut &'r [u8],
    ) -> Result<((A,), usize), ColumnError<usize>> {
        match front_column(alloc, columns, place, bytes) {
            Ok((value, next)) => Ok(((value,), next)),
            Err(error) => Err(error),
        }
    }

    ghost in_one_pass = { last_in_one_pass A.accepts A.parse };
}

/// A column and the rest.
impl<A: Type + Decode, Rest: ColumnList> ColumnList for (A, Rest) {
    ghost View = { A.View × Rest.View };

    ghost view = { λ list. (A.view list.0, Rest.view list.1) };

    ghost parse = { columns_parse ⟦<(A,) as ColumnList>⟧.parse Rest.parse };

    ghost refused = { IsFirstRefused ⟦<(A,) as ColumnList>⟧.parse Rest.refused };

    ghost fits = { columns_fit (column_fits A.accepts) Rest.fits };

    ghost in_front = { columns_in_front (column_in_front A.parse) Rest.in_front };

    ghost refused_in_front = { IsFirstInFront (column_in_front A.parse) Rest.refused_in_front };

    #[tactic(auto, unfolding(crate::specs::Tuples::columns_parse))]
    fn read(alloc: Global, row: &PgRow<'_>, place: usize) -> Result<(A, Rest), ColumnError<usize>> {
        match next_column(alloc, row, place) {
            Ok((first, next)) => match Rest::read(alloc, row, next) {
                Ok(rest) => Ok((first, rest)),
                Err(error) => Err(error),
            },
            Err(error) => Err(error),
        }
    }

    #[tactic(auto, unfolding(crate::specs::OnePass::columns_fit))]
    fn check_columns(columns: &[PgColumn<'_>], place: usize) -> Result<(), ColumnError<usize>> {
        match check_column::<A>(columns, place) {
            Ok(next) => Rest::check_columns(columns, next),
            Err(error) => Err(error),
        }
    }

    #[inline(always)]
    #[tactic(auto, unfolding(crate::specs::OnePass::columns_in_front))]
    fn read_frames<'r>(
        alloc: Global,
        columns: &[PgColumn<'_>],
        place: usize,
        bytes: &mut &'r [u8],
    ) -> Result<((A, Rest), usize), ColumnError<usize>> {
        match front_column(alloc, columns, place, bytes) {
            Ok((first, next)) => match Rest::read_frames(alloc, columns, next, bytes) {
                Ok((rest, next)) => Ok(((first, rest), next)),
                Err(error) => Err(error),
            },
            Err(error) => Err(error),
        }
    }

    ghost in_one_pass = { further_in_one_pass A.accepts A.parse Rest.in_one_pass };
}

/// A tuple of columns: its fields are the values of the first columns.
pub trait ColumnTuple: Sized + Drop {
    /// The fields, as nested pairs that end in a tuple of one.
    type List: ColumnList;

    /// The fields of a tuple.
    ghost list_of: { Self → Self.List };

    /// The tuple of these fields.
    fn of_list(list: Self::List) -> Self
        ensures { list_of result ≡ list };
}

/// A tuple is read through the list of its fields.
impl<T: ColumnTuple> FromRow for T {
    ghost View = { T.List.View };

    ghost view = { λ tuple. T.List.view (T.list_of tuple) };

    ghost parse = { λ row. T.List.parse row 0 };

    ghost refused = { λ row. T.List.refused row 0 };

    ghost fits = { λ columns. T.List.fits columns 0 };

    ghost in_front = { λ columns. T.List.in_front columns 0 };

    ghost refused_in_front = { λ columns. T.List.refused_in_front columns 0 };

    fn from_row(alloc: Global, row: &PgRow<'_>) -> Result<T, ColumnError<usize>> {
        match T::List::read(alloc, row, 0) {
            Ok(list) => Ok(T::of_list(list)),
            Err(error) => Err(error),
        }
    }

    fn check_columns(columns: &[PgColumn<'_>]) -> Result<(), ColumnError<usize>> {
        T::List::check_columns(columns, 0)
    }

    #[inline(always)]
    fn read_frames<'r>(
        alloc: Global,
        columns: &[PgColumn<'_>],
        bytes: &mut &'r [u8],
    ) -> Result<(T, usize), ColumnError<usize>> {
        match T::List::read_frames(alloc, columns, 0, bytes) {
            Ok((list, next)) => Ok((T::of_list(list), next)),
            Err(error) => Err(error),
        }
    }

    ghost in_one_pass = { T.List.in_one_pass 0 };
}

// The impls below are written by tools/tuples.

/// The first column.
impl<A: Type + Decode> ColumnTuple for (A,) {
    type List = (A,);

    ghost list_of = { λ v. record { 0 = v.0 } };

    #[inline(always)]
    fn of_list((a,): Self::List) -> Self {
        (a,)
    }
}

/// The first two columns.
impl<A: Type + Decode, B: Type + Decode> ColumnTuple for (A, B) {
    type List = (A, (B,));

    ghost list_of = { λ v. (v.0, record { 0 = v.1 }) };

    #[inline(always)]
    fn of_list((a, (b,)): Self::List) -> Self {
        (a, b)
    }
}

/// The first three columns.
impl<A: Type + Decode, B: Type + Decode, C: Type + Decode> ColumnTuple for (A, B, C) {
    type List = (A, (B, (C,)));

    ghost list_of = { λ v. (v.0, (v.1, record { 0 = v.2 })) };

    #[inline(always)]
    fn of_list((a, (b, (c,))): Self::List) -> Self {
        (a, b, c)
    }
}

/// The first four columns.
impl<A: Type + Decode, B: Type + Decode, C: Type + Decode, D: Type + Decode> ColumnTuple
    for (A, B, C, D) {
    type List = (A, (B, (C, (D,))));

    ghost list_of = { λ v. (v.0, (v.1, (v.2, record { 0 = v.3 }))) };

    #[inline(always)]
    fn of_list((a, (b, (c, (d,)))): Self::List) -> Self {
        (a, b, c, d)
    }
}

/// The first five columns.
impl<
    A: Type + Decode,
    B: Type + Decode,
    C: Type + Decode,
    D: Type + Decode,
    E: Type + Decode,
> ColumnTuple for (A, B, C, D, E) {
    type List = (A, (B, (C, (D, (E,)))));

    ghost list_of = { λ v. (v.0, (v.1, (v.2, (v.3, record { 0 = v.4 })))) };

    #[inline(always)]
    fn of_list((a, (b, (c, (d, (e,))))): Self::List) -> Self {
        (a, b, c, d, e)
    }
}

/// The first six columns.
impl<
    A: Type + Decode,
    B: Type + Decode,
    C: Type + Decode,
    D: Type + Decode,
    E: Type + Decode,
    F: Type + Decode,
> ColumnTuple for (A, B, C, D, E, F) {
    type List = (A, (B, (C, (D, (E, (F,))))));

    ghost list_of = { λ v. (v.0, (v.1, (v.2, (v.3, (v.4, record { 0 = v.5 }))))) };

    #[inline(always)]
    fn of_list((a, (b, (c, (d, (e, (f,)))))): Self::List) -> Self {
        (a, b, c, d, e, f)
    }
}

/// The first seven columns.
impl<
    A: Type + Decode,
    B: Type + Decode,
    C: Type + Decode,
    D: Type + Decode,
    E: Type + Decode,
    F: Type + Decode,
    G: Type + Decode,
> ColumnTuple for (A, B, C, D, E, F, G) {
    type List = (A, (B, (C, (D, (E, (F, (G,)))))));

    ghost list_of = { λ v. (v.0, (v.1, (v.2, (v.3, (v.4, (v.5, record { 0 = v.6 })))))) };

    #[inline(always)]
    fn of_list((a, (b, (c, (d, (e, (f, (g,))))))): Self::List) -> Self {
        (a, b, c, d, e, f, g)
    }
}

/// The first eight columns.
impl<
    A: Type + Decode,
    B: Type + Decode,
    C: Type + Decode,
    D: Type + Decode,
    E: Type + Decode,
    F: Type + Decode,
    G: Type + Decode,
    H: Type + Decode,
> ColumnTuple for (A, B, C, D, E, F, G, H) {
    type List = (A, (B, (C, (D, (E, (F, (G, (H,))))))));

    ghost list_of = { λ v. (v.0, (v.1, (v.2, (v.3, (v.4, (v.5, (v.6, record { 0 = v.7 }))))))) };

    #[inline(always)]
    fn of_list((a, (b, (c, (d, (e, (f, (g, (h,)))))))): Self::List) -> Self {
        (a, b, c, d, e, f, g, h)
    }
}

/// The first nine columns.
impl<
    A: Type + Decode,
    B: Type + Decode,
    C: Type + Decode,
    D: Type + Decode,
    E: Type + Decode,
    F: Type + Decode,
    G: Type + Decode,
    H: Type + Decode,
    I: Type + Decode,
> ColumnTuple for (A, B, C, D, E, F, G, H, I) {
    type List = (A, (B, (C, (D, (E, (F, (G, (H, (I,)))))))));

    ghost list_of = { λ v. (v.0, (v.1, (v.2, (v.3, (v.4, (v.5, (v.6, (v.7, record { 0 = v.8 })))))))) };

    #[inline(always)]
    fn of_list((a, (b, (c, (d, (e, (f, (g, (h, (i,))))))))): Self::List) -> Self {
        (a, b, c, d, e, f, g, h, i)
    }
}
