//! Rows: the values of the columns, one DataRow after another.

ghost use Rattle.std.specs.Prelude.{◌≡◌, ◌≢◌, ◌≤◌, ◌==◌, true, length, IfOk, MatchResult};
ghost use Rattle.std.specs.Borrow.{sem};
ghost use Rattle.pgv_value.specs.declared.error.CodecError.TheVariants.{FieldCount};
ghost use Rattle.pgv_row.specs.Errors.{GivesColumn};
ghost use Rattle.pgv_row.specs.declared.error.ColumnError.TheVariants.{NotFound};
ghost use Rattle.pgv_value.specs.Outcome.{Gives, after, done};
ghost use Rattle.pgv_value.specs.ValueView.{given};
ghost use Rattle.pgv_row.specs.Places.{are_within, part_at, IsWithin};
ghost use Rattle.pgv_row.specs.RowParts.{body_of, capacity};
ghost use Rattle.pgv_row.specs.RowView.{column_there};
ghost use Rattle.pgv_row.specs.Tuples.{GivesFields};
ghost use Rattle.pgv_row.specs.RowValues.{column_value, raw_value, unchecked_value};

use crate::column::{PgColumn, PgColumns};
use crate::error::ColumnError;
use crate::index::ColumnIndex;
use crate::place::{Place, find_places};
use crate::tuple::FromRow;
use bytes::Bytes;
use pgv_codec::{Decode, Type};
use pgv_types::PgTypeInfo;
use pgv_value::{CodecError, PgValueFormat, PgValueRef};
use std::alloc::{AllocError, Global};
use std::marker::Model;

/// Room for the places of a row's parts, which serves one row after another.
#[derive(Drop)]
pub struct PgPlaces {
    list: Vec<Option<Place>>,
}

impl PgPlaces {
    ghost use Rattle.pgv_row.specs.RowReading.{found_row, HasRoomThen, ReadsRow};

    /// Room for no place. It takes no memory yet.
    pub fn new(alloc: Global) -> PgPlaces
        ensures { capacity result ≡ 0 }
    {
        PgPlaces {
            list: Vec::new(alloc),
        }
    }

    /// Room for as many places as there are columns, so that reading a row in it asks for no memory.
    pub fn with_columns(alloc: Global, columns: &PgColumns<'_>) -> Result<PgPlaces, AllocError>
        ensures { IfOk result (λ room. length columns.now ≤ capacity room) }
    {
        let list = Vec::with_capacity(alloc, columns.len())?;
        Ok(PgPlaces { list })
    }

    /// Finds the parts of the row that is the body of a DataRow, as [`PgRow::read`] does, whose row is then
    /// [`row`](PgFoundRow::row): `let row = room.find(&columns, body)?.row();`. It is refused as that is, and its
    /// contract also says what room there is when the row is gone: no less than before, and after a row enough for all
    /// rows of these columns. So of rows that are found in the same room only the first asks for memory.
    #[inline(always)]
    pub fn find<'a>(
        &'a mut self,
        columns: &'a PgColumns<'a>,
        body: &'a [u8],
    ) -> Result<PgFoundRow<'a>, CodecError>
        ensures read { ReadsRow found_row columns.now body.now (capacity self.old) result }
        ensures* room { sem 𝓛 (HasRoomThen self.entry (length columns.now) result) }
    {
        let columns = columns.as_slice();
        find_places(&mut self.list, body, columns.len())?;
        Ok(PgFoundRow {
            columns,
            bytes: RowBytes::Borrowed(body),
            places: self.list.as_slice(),
        })
    }

    /// The same of a body that is shared, as [`PgRow::read_shared`] reads it.
    #[inline(always)]
    pub fn find_shared<'a>(
        &'a mut self,
        columns: &'a PgColumns<'a>,
        body: &'a Bytes,
    ) -> Result<PgFoundRow<'a>, CodecError>
        ensures read { ReadsRow found_row columns.now body.now (capacity self.old) result }
        ensures* room { sem 𝓛 (HasRoomThen self.entry (length columns.now) result) }
    {
        let columns = columns.as_slice();
        find_places(&mut self.list, body.as_slice(), columns.len())?;
        Ok(PgFoundRow {
            columns,
            bytes: RowBytes::Shared(body),
            places: self.list.as_slice(),
        })
    }
}

/// A row whose parts were found. It is a type of its own, since a contract that says what room is left when its row is
/// gone can't be had where the row is returned.
#[derive(Drop)]
pub struct PgFoundRow<'a> {
    columns: &'a [PgColumn<'a>],
    bytes: RowBytes<'a>,
    places: &'a [Option<Place>],
    ghost within: { are_within (body_of bytes) places.now ≡ true },
}

impl<'a> PgFoundRow<'a> {
    ghost use Rattle.pgv_row.specs.RowReading.{found_row};

    /// The row.
    #[inline(always)]
    pub fn row(self) -> PgRow<'a>
        ensures { result ≡ found_row self.entry }
    {
        let PgFoundRow {
            columns,
            bytes,
            places,
        } = self;
        PgRow {
            columns,
            bytes,
            places,
        }
    }
}

/// A row: for each column null or the bytes of its value, which are borrowed from the message.
#[derive(Drop)]
pub struct PgRow<'a> {
    columns: &'a [PgColumn<'a>],
    bytes: RowBytes<'a>,
    places: &'a [Option<Place>],
}

/// The bytes of a row.
#[derive(Clone, Copy, Drop)]
enum RowBytes<'a> {
    /// They are borrowed from the message.
    Borrowed(&'a [u8]),
    /// They are shared with the values that are kept of them.
    Shared(&'a Bytes),
}

impl<'a> Model for PgRow<'a> {
    ghost use Rattle.pgv_row.specs.Places.{parts_at, AreWithin};
    ghost use Rattle.pgv_row.specs.RowParts.{body_of};
    ghost use Rattle.pgv_row.specs.RowView.{Row, row_code};

    ghost Value = { Row };

    ghost coded = { row_code };

    ghost view = { λ r. record { columns = r.columns.now; parts = parts_at (body_of r.bytes) r.places.now } };

    ghost invariant = { λ r. AreWithin (body_of r.bytes) r.places.now };
}

/// The value whose part is at a place in the bytes of a row, or null.
#[inline(always)]
fn value_in<'a>(
    bytes: RowBytes<'a>,
    place: Option<Place>,
    type_info: PgTypeInfo,
    format: PgValueFormat,
) -> PgValueRef<'a>
    requires { IsWithin (body_of bytes) place }
    ensures { result ≡ given type_info format (part_at (body_of bytes.entry) place) }
{
    let Some(place) = place else {
        return PgValueRef::new(None, type_info, format);
    };
    match bytes {
        RowBytes::Borrowed(bytes) => {
            PgValueRef::new(Some(&bytes[place.start..place.end]), type_info, format)
        }
        RowBytes::Shared(bytes) => {
            PgValueRef::from_row(bytes, place.start, place.end, type_info, format)
        }
    }
}

impl<'a> PgRow<'a> {
    ghost use Rattle.pgv_row.specs.RowReading.{ReadsRow};

    /// The row that is the body of a DataRow (PostgreSQL, "Message Formats", DataRow), under these columns. It lasts
    /// until the next one is read with the same room. `0002 00000001 37 ffffffff` is a row of two columns, `7` and
    /// null.
    ///
    /// Another number of columns is refused with [`FieldCount`](CodecError::FieldCount) (C12), bytes that end too early
    /// with [`Short`](CodecError::Short) (C15), a negative length but the -1 of null with
    /// [`NegativeLength`](CodecError::NegativeLength) (C16), and bytes after the last column with
    /// [`WrongLength`](CodecError::WrongLength) (C17). It is refused with [`Memory`](CodecError::Memory) (C1) only
    /// where the room has fewer places than there are columns.
    #[inline(always)]
    pub fn read(
        columns: &'a PgColumns<'a>,
        room: &'a mut PgPlaces,
        body: &'a [u8],
    ) -> Result<Self, CodecError>
        ensures { ReadsRow (λ row. row) columns.now body.now (capacity room.old) result }
    {
        let columns = columns.as_slice();
        find_places(&mut room.list, body, columns.len())?;
        let places = room.list.as_slice();
        Ok(PgRow {
            columns,
            bytes: RowBytes::Borrowed(body),
            places,
        })
    }

    /// The same of a body that is shared: the values that are kept of the row ([`PgValueRef::to_owned`]) share its
    /// bytes.
    #[inline(always)]
    pub fn read_shared(
        columns: &'a PgColumns<'a>,
        room: &'a mut PgPlaces,
        body: &'a Bytes,
    ) -> Result<Self, CodecError>
        ensures { ReadsRow (λ row. row) columns.now body.now (capacity room.old) result }
    {
        let columns = columns.as_slice();
        find_places(&mut room.list, body.as_slice(), columns.len())?;
        let places = room.list.as_slice();
        Ok(PgRow {
            columns,
            bytes: RowBytes::Shared(body),
            places,
        })
    }

    /// The row with bytes of its own, or with those that it shares, which outlives the message and the room; or
    /// [`Memory`](CodecError::Memory) (C1).
    pub fn to_owned(&self, alloc: Global) -> Result<PgOwnedRow, CodecError>
        ensures { Gives (λ row. row) (after true (done self.now.parts)) result }
    {
        let body = match self.bytes {
            RowBytes::Borrowed(bytes) => Bytes::copy_from_slice(alloc, bytes)?,
            RowBytes::Shared(bytes) => bytes.clone()?,
        };
        let places = Vec::from_slice(alloc, self.places)?;
        Ok(PgOwnedRow { body, places })
    }

    /// How many columns there are.
    pub fn len(&self) -> usize
        ensures { result ≡ length self.now.columns }
    {
        self.columns.len()
    }

    /// Whether there is no column.
    pub fn is_empty(&self) -> bool
        ensures { result ≡ (length self.now.columns == 0) }
    {
        self.columns.is_empty()
    }

    /// The columns.
    pub fn columns(&self) -> &'a [PgColumn<'a>]
        ensures { result.now ≡ self.now.columns }
    {
        self.columns
    }

    /// The column at a place or of a name.
    #[inline(always)]
    pub fn try_column<I: ColumnIndex>(&self, index: I) -> Result<&'a PgColumn<'a>, ColumnError<I>>
        ensures { GivesColumn (λ c. c.now) I.place I.missing index self.now column_there result }
    {
        let Some(place) = index.index(self.columns) else {
            return Err(self.not_found(index));
        };
        match self.columns.get(place) {
            Some(column) => Ok(column),
            None => Err(ColumnError::Decode {
                index,
                place,
                source: CodecError::NoField(place),
            }),
        }
    }

    /// The refusal of an index that no column is meant by.
    fn not_found<I: ColumnIndex>(&self, index: I) -> ColumnError<I>
        ensures { result ≡ NotFound index (I.missing index self.now.columns) }
    {
        ColumnError::NotFound {
            index,
            place: index.missing_place(self.columns),
        }
    }

    /// The value of the column at a place, as the row has it.
    #[inline(always)]
    #[tactic(auto, unfolding(crate::specs::RowValues::raw_value))]
    fn raw_at(&self, place: usize) -> Result<PgValueRef<'a>, CodecError>
        ensures { Gives (λ value. value) (raw_value self.now place) result }
    {
        let Some(column) = self.columns.get(place) else {
            return Err(CodecError::NoField(place));
        };
        let Some(part) = self.places.get(place) else {
            return Err(CodecError::NoField(place));
        };
        let type_info = column.type_info().clone()?;
        Ok(value_in(self.bytes, *part, type_info, column.format()))
    }

    /// What `T` reads from the column at a place, whatever its type is.
    #[inline(always)]
    #[tactic(auto, unfolding(crate::specs::RowValues::unchecked_value))]
    fn unchecked_at<T: Decode>(&self, alloc: Global, place: usize) -> Result<T, CodecError>
        ensures { Gives T.view (unchecked_value T.parse self.now place) result }
    {
        T::decode(alloc, self.raw_at(place)?)
    }

    /// What `T` reads from the column at a place under its type. The type is tested before it is copied.
    #[inline(always)]
    #[tactic(auto, unfolding(crate::specs::RowValues::column_value, crate::specs::RowValues::raw_value))]
    pub(crate) fn value_at<T: Type + Decode>(
        &self,
        alloc: Global,
        place: usize,
    ) -> Result<T, CodecError>
        ensures { Gives T.view (column_value T.accepts T.parse self.now place) result }
    {
        let Some(column) = self.columns.get(place) else {
            return Err(CodecError::NoField(place));
        };
        let Some(part) = self.places.get(place) else {
            return Err(CodecError::NoField(place));
        };
        if part.is_some() && !T::compatible(column.type_info()) {
            return Err(CodecError::MismatchedTypes);
        }
        let type_info = column.type_info().clone()?;
        T::decode(
            alloc,
            value_in(self.bytes, *part, type_info, column.format()),
        )
    }

    /// The value of a column, as the row has it. [`Memory`](CodecError::Memory) (C1) comes only from the copy of a
    /// custom type.
    #[inline(always)]
    pub fn try_get_raw<I: ColumnIndex>(&self, index: I) -> Result<PgValueRef<'a>, ColumnError<I>>
        ensures { GivesColumn (λ value. value) I.place I.missing index self.now raw_value result }
    {
        let Some(place) = index.index(self.columns) else {
            return Err(self.not_found(index));
        };
        match self.raw_at(place) {
            Ok(value) => Ok(value),
            Err(source) => Err(ColumnError::Decode {
                index,
                place,
                source,
            }),
        }
    }

    /// The value of a column: what `T` reads from it. Null is read or refused by `T` whatever the column's type is,
    /// where [`pgv_codec::PgRecordDecoder`] asks for the type of null too. Any other value is refused with
    /// [`MismatchedTypes`](CodecError::MismatchedTypes) (C27) where `T` isn't read under the column's type, and else
    /// with what `T` refuses it with.
    #[inline(always)]
    pub fn try_get<T: Type + Decode, I: ColumnIndex>(
        &self,
        alloc: Global,
        index: I,
    ) -> Result<T, ColumnError<I>>
        ensures { GivesColumn T.view I.place I.missing index self.now
            (column_value T.accepts T.parse) result }
    {
        let Some(place) = index.index(self.columns) else {
            return Err(self.not_found(index));
        };
        match self.value_at(alloc, place) {
            Ok(value) => Ok(value),
            Err(source) => Err(ColumnError::Decode {
                index,
                place,
                source,
            }),
        }
    }

    /// The value of a column: what `T` reads from it, whatever the column's type is.
    #[inline(always)]
    pub fn try_get_unchecked<T: Decode, I: ColumnIndex>(
        &self,
        alloc: Global,
        index: I,
    ) -> Result<T, ColumnError<I>>
        ensures { GivesColumn T.view I.place I.missing index self.now
            (unchecked_value T.parse) result }
    {
        let Some(place) = index.index(self.columns) else {
            return Err(self.not_found(index));
        };
        match self.unchecked_at(alloc, place) {
            Ok(value) => Ok(value),
            Err(source) => Err(ColumnError::Decode {
                index,
                place,
                source,
            }),
        }
    }

    /// The columns in order as the fields of a tuple of one to nine, each read as [`PgRow::try_get`] reads it. Further
    /// columns are ignored, as in sqlx. The first column that is refused refuses the tuple, and the error names its
    /// place.
    pub fn as_tuple<T: FromRow>(&self, alloc: Global) -> Result<T, ColumnError<usize>>
        ensures { GivesFields T.view (T.parse self.now) (T.refused self.now) result }
    {
        T::from_row(alloc, self)
    }
}

/// A row that has its bytes, and so outlives the message that it was read from.
#[derive(Drop)]
pub struct PgOwnedRow {
    body: Bytes,
    places: Vec<Option<Place>>,
}

impl Model for PgOwnedRow {
    ghost use Rattle.std.specs.Prelude.{List};
    ghost use Rattle.std.specs.Coded.{coded_list, coded_option, coded_ℕ};
    ghost use Rattle.pgv_value.specs.FrameBinary.{Part};
    ghost use Rattle.pgv_row.specs.Places.{parts_at, AreWithin};

    ghost Value = { List Part };

    ghost coded = { coded_list (coded_option (coded_list coded_ℕ)) };

    ghost view = { λ r. parts_at r.body r.places.items };

    ghost invariant = { λ r. AreWithin r.body r.places.items };
}

impl PgOwnedRow {
    /// The row under its columns. Another number of columns is refused with [`FieldCount`](CodecError::FieldCount)
    /// (C12). Values that are kept of it share its bytes.
    pub fn as_row<'a>(&'a self, columns: &'a PgColumns<'a>) -> Result<PgRow<'a>, CodecError>
        ensures { MatchResult result (λ row. (row ≡ record
            { columns = columns.now; parts = self.now }) × (length columns.now ≡ length self.now))
            (λ e. (e ≡ FieldCount) × (length columns.now ≢ length self.now)) }
    {
        let columns = columns.as_slice();
        let places = self.places.as_slice();
        if columns.len() != places.len() {
            return Err(CodecError::FieldCount);
        }
        Ok(PgRow {
            columns,
            bytes: RowBytes::Shared(&self.body),
            places,
        })
    }
}
