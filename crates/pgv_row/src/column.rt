//! The columns of a statement's result, as a RowDescription describes them.

ghost use Rattle.std.specs.Prelude.{◌≡◌, ◌==◌, ◌++◌, ◌∷◌, [], true, length, map};
ghost use Rattle.std.specs.Option.{option_copied};
ghost use Rattle.pgv_row.specs.Description.{column_front, column_of_type, description, in_format, IsDescription};
ghost use Rattle.pgv_value.specs.Outcome.{Gives, GivesWhole, after, done};
ghost use Rattle.pgv_row.specs.RowView.{column_at};
ghost use Rattle.pgv_value.specs.Several.{several};

use crate::catalog::{PgCatalog, type_of_oid};
use crate::index::ColumnIndex;
use pgv_types::{Oid, PgTypeInfo};
use pgv_value::{
    CodecError, PgValueFormat, i16_in_front, name_in_front, u16_in_front, u32_in_front,
};
use std::alloc::Global;
use std::marker::Model;

/// A column of a statement's result. Its name is borrowed from the bytes of the description.
#[derive(Drop)]
pub struct PgColumn<'d> {
    name: &'d str,
    table: Oid,
    attribute: i16,
    type_oid: Oid,
    size: i16,
    modifier: i32,
    format: PgValueFormat,
    type_info: PgTypeInfo,
}

impl<'d> Model for PgColumn<'d> {
    ghost use Rattle.pgv_row.specs.ColumnView.{Column, column_code};

    ghost Value = { Column };

    ghost coded = { column_code };

    ghost view = { λ c. record { name = c.name.now; table = c.table.0; attribute = c.attribute; type_oid = c.type_oid.0; size = c.size; modifier = c.modifier; format = c.format; type_info = c.type_info } };
}

impl<'d> PgColumn<'d> {
    /// The name of the column (PostgreSQL, "Message Formats", RowDescription: "The field name"), borrowed from the
    /// description.
    pub fn name(&self) -> &'d str
        ensures { result.now ≡ self.now.name }
    {
        self.name
    }

    /// The OID of the table that has the column (`pg_class.oid`), where a table is known to have it; otherwise 0.
    pub fn table(&self) -> Oid
        ensures { result.0 ≡ self.now.table }
    {
        self.table
    }

    /// The attribute number of the column in its table (`pg_attribute.attnum`), from 1 on, where a table has it;
    /// otherwise 0.
    pub fn attribute(&self) -> i16
        ensures { result ≡ self.now.attribute }
    {
        self.attribute
    }

    /// The OID of the column's data type (`pg_type.oid`): 23 for `int4`.
    pub fn type_oid(&self) -> Oid
        ensures { result.0 ≡ self.now.type_oid }
    {
        self.type_oid
    }

    /// The column's data type: the built-in one of the OID, or else what the catalogue has of it, or else known by its
    /// OID alone.
    #[inline(always)]
    pub fn type_info(&self) -> &PgTypeInfo
        ensures { result.now ≡ self.now.type_info }
    {
        &self.type_info
    }

    /// The data type size in bytes (`pg_type.typlen`): 4 for `int4`. A negative one is that of a type of variable
    /// width, as -1 for `text`.
    pub fn size(&self) -> i16
        ensures { result ≡ self.now.size }
    {
        self.size
    }

    /// The type modifier (`pg_attribute.atttypmod`), whose meaning is the type's own, as 14 for `varchar(10)`; -1 where
    /// there is none.
    pub fn modifier(&self) -> i32
        ensures { result ≡ self.now.modifier }
    {
        self.modifier
    }

    /// The format of the values: text (code 0) or binary (code 1). In a description that comes before Bind it is not
    /// known, and text.
    #[inline(always)]
    pub fn format(&self) -> PgValueFormat
        ensures { result ≡ self.now.format }
    {
        self.format
    }

    /// A column of a type alone, without a name, whose values are in binary.
    fn of_type(type_info: PgTypeInfo) -> PgColumn<'d>
        ensures { result ≡ column_of_type type_info }
    {
        let type_oid = match type_info.oid() {
            Some(oid) => oid,
            None => Oid(0),
        };
        PgColumn {
            name: "",
            table: Oid(0),
            attribute: 0,
            type_oid,
            size: -1,
            modifier: -1,
            format: PgValueFormat::Binary,
            type_info,
        }
    }

    /// Says in which format the values are.
    fn set_format(&mut self, format: PgValueFormat)
        ensures { self.new ≡ in_format format self.old }
    {
        self.format = format;
    }
}

/// The column in front, and the rest.
#[tactic(auto, unfolding(crate::specs::Description::column_front))]
fn column_in_front<'d, C: PgCatalog>(
    bytes: &'d [u8],
    catalog: &C,
) -> Result<(PgColumn<'d>, &'d [u8]), CodecError>
    ensures { Gives (λ x. (x.0, x.1.now)) (column_front (C.known catalog.now) bytes.now) result }
{
    let (name, rest) = name_in_front(bytes)?;
    let (table, rest) = u32_in_front(rest)?;
    let (attribute, rest) = i16_in_front(rest)?;
    let (oid, rest) = u32_in_front(rest)?;
    let (size, rest) = i16_in_front(rest)?;
    let (modifier, rest) = u32_in_front(rest)?;
    let (code, rest) = u16_in_front(rest)?;
    let format = PgValueFormat::from_code(code)?;
    let type_oid = Oid(oid);
    let column = PgColumn {
        name,
        table: Oid(table),
        attribute,
        type_oid,
        size,
        modifier: modifier.cast_signed(),
        format,
        type_info: type_of_oid(catalog, type_oid)?,
    };
    Ok((column, rest))
}

/// As many columns, and the rest.
fn columns_in_front<'d, C: PgCatalog>(
    alloc: Global,
    bytes: &'d [u8],
    count: u16,
    catalog: &C,
) -> Result<(Vec<PgColumn<'d>>, &'d [u8]), CodecError>
    ensures { let columns = several (column_front (C.known catalog.now)) count bytes.now in
        Gives (λ x. (x.0.items, x.1.now)) (after true columns) result }
{
    let mut columns = Vec::new(alloc);
    let mut rest = bytes;
    for _ in 0..count {
        let (column, after) = column_in_front(rest, catalog)?;
        columns.push(column)?;
        rest = after;
    }
    Ok((columns, rest))
}

/// The columns of the body of a RowDescription.
#[tactic(auto, unfolding(crate::specs::Description::description))]
fn described<'d, C: PgCatalog>(
    alloc: Global,
    body: &'d [u8],
    catalog: &C,
) -> Result<Vec<PgColumn<'d>>, CodecError>
    ensures { Gives (λ list. list.items) (description (C.known catalog.now) body.now) result }
{
    let (count, rest) = u16_in_front(body)?;
    let (list, rest) = columns_in_front(alloc, rest, count, catalog)?;
    if !rest.is_empty() {
        return Err(CodecError::WrongLength(body.len()));
    }
    Ok(list)
}

/// The columns of a statement's result, in order. Their names are borrowed from the description that they were read
/// from.
#[derive(Drop)]
pub struct PgColumns<'d> {
    list: Vec<PgColumn<'d>>,
}

impl<'d> Model for PgColumns<'d> {
    ghost use Rattle.std.specs.Prelude.{List};
    ghost use Rattle.std.specs.Coded.{coded_list};
    ghost use Rattle.pgv_row.specs.ColumnView.{Column, column_code};

    ghost Value = { List Column };

    ghost coded = { coded_list column_code };

    ghost view = { λ c. c.list.items };
}

impl<'d> PgColumns<'d> {
    /// The columns that the body of a RowDescription describes (PostgreSQL, "Message Formats", RowDescription). A type
    /// that isn't built in is looked up in the catalogue.
    ///
    /// Bytes that end too early are refused with [`Short`](CodecError::Short) (C15), a name that isn't UTF-8 with
    /// [`Utf8`](CodecError::Utf8) (C14), another format than 0 and 1 with [`OutOfRange`](CodecError::OutOfRange) (C30),
    /// and bytes after the last column with [`WrongLength`](CodecError::WrongLength) (C17).
    pub fn read<C: PgCatalog>(
        alloc: Global,
        body: &'d [u8],
        catalog: &C,
    ) -> Result<Self, CodecError>
        // What is answered is what the body describes, and nothing but memory keeps a description from being answered.
        ensures { GivesWhole (λ columns. columns) (description (C.known catalog.now) body.now)
            (IsDescription (C.known catalog.now) body.now) result }
    {
        let list = described(alloc, body, catalog)?;
        Ok(PgColumns { list })
    }

    /// No column: [`PgColumns::with_type`] adds those of a COPY stream. It takes no memory.
    pub fn new(alloc: Global) -> Self
        ensures { result ≡ [] }
    {
        PgColumns {
            list: Vec::new(alloc),
        }
    }

    /// These columns and one more, without a name, of this type, whose values are in binary, as the fields of a COPY
    /// stream are: `PgColumns::new(alloc).with_type(int4)?.with_type(text)?`. It is refused only for memory (C1).
    pub fn with_type(self, type_info: PgTypeInfo) -> Result<Self, CodecError>
        ensures { Gives (λ columns. columns)
            (after true (done (self.entry ++ (column_of_type type_info ∷ [])))) result }
    {
        let mut list = self.list;
        list.push(PgColumn::of_type(type_info))?;
        Ok(PgColumns { list })
    }

    /// How many columns there are.
    pub fn len(&self) -> usize
        ensures { result ≡ length self.now }
    {
        self.list.len()
    }

    /// Whether there is no column.
    pub fn is_empty(&self) -> bool
        ensures { result ≡ (length self.now == 0) }
    {
        self.list.is_empty()
    }

    /// All columns, in order.
    pub fn as_slice(&self) -> &[PgColumn<'d>]
        ensures { result.now ≡ self.now }
    {
        self.list.as_slice()
    }

    /// The column at a place or of a name; `None` where there is none.
    pub fn get<I: ColumnIndex>(&self, index: I) -> Option<&PgColumn<'d>>
        ensures { option_copied result ≡ column_at self.now (I.place index self.now) }
    {
        self.list.get(self.find(index)?)
    }

    /// The place of the column that is meant by an index: the first one that has a name.
    pub fn find<I: ColumnIndex>(&self, index: I) -> Option<usize>
        ensures { result ≡ I.place index self.now }
    {
        index.index(self.list.as_slice())
    }

    /// Says in which format all values are: that which was asked for in Bind. A description that comes before Bind says
    /// text.
    pub fn set_format(&mut self, format: PgValueFormat)
        ensures { self.new ≡ map (in_format format) self.old }
    {
        for column in self.list.iter_mut() {
            column.set_format(format);
        }
    }
}
