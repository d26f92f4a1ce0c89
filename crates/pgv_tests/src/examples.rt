//! What the examples bind, read and keep, a short test each. They are here since a crate with tests is proved once more
//! for them. The examples' types are tested by the rows of `pgv_calls` too.

use hex::{decode, encode};
use pgv::catalog::{CatalogError, PgCatalogRows, PgServerTypes, PgTypeClass, PgTypeRow};
use pgv::row::{PgColumns, PgPlaces, PgRow};
use pgv::types::{PgLTree, PgRange};
use pgv::{
    CodecError, Decode, Encode, Oid, PgArguments, PgComposite, PgCopyReader, PgDomain, PgEnum,
    PgNewtype, PgPlain, PgType, PgTypeInfo, PgTypeKind, PgValue, PgValueFormat, PgValueRef, Type,
};
use pgv_examples::arrays::{add_lists, scores};
use pgv_examples::bind::{arguments_of_search, parameters_of_bind};
use pgv_examples::copied::{columns, read_item, read_items};
use pgv_examples::email::Email;
use pgv_examples::errors::{Reason, name_in};
use pgv_examples::float8::Float8;
use pgv_examples::holes::fill;
use pgv_examples::in_list::{add_all, push_in};
use pgv_examples::json::Json;
use pgv_examples::mood::Mood;
use pgv_examples::page::Page;
use pgv_examples::row::{column, keep, read_person};
use pgv_examples::server_types::{columns_by, fill_by, types_of};
use pgv_examples::shipment::Shipment;
use pgv_examples::statement::{check_rows, columns_of};
use pgv_examples::user_id::UserId;
use std::alloc::{AllocError, Global};
use std::test::Fail;

/// `{7,NULL}` as the server writes it: with the flag 1, since there is a null. We write the flag 0.
const SEVEN_NULL: &[u8] =
    b"\0\0\0\x01\0\0\0\x01\0\0\0\x17\0\0\0\x02\0\0\0\x01\0\0\0\x04\0\0\0\x07\xff\xff\xff\xff";

/// The bytes of arguments, in hex.
fn in_hex(alloc: Global, arguments: &PgArguments) -> Result<String, CodecError> {
    Ok(encode(alloc, arguments.buffer().as_slice())?)
}

/// What is sent of one value, in hex, its holes open.
fn sent<T: Encode + Type + Drop>(alloc: Global, value: T) -> Result<String, CodecError> {
    let mut arguments = PgArguments::new(alloc);
    arguments.add(value)?;
    in_hex(alloc, &arguments)
}

/// The value that is read from a text of its own type.
fn of_text<T: Decode + Type>(alloc: Global, text: &[u8]) -> Result<T, CodecError> {
    let value = PgValueRef::new(Some(text), T::type_info(), PgValueFormat::Text);
    T::decode(alloc, value)
}

/// Adds places and the scores of that column.
fn add_scores(alloc: Global, arguments: &mut PgArguments) -> Result<(), CodecError> {
    let int4s = PgTypeInfo(PgType::Int4Array);
    let column = PgValueRef::new(Some(SEVEN_NULL), int4s, PgValueFormat::Binary);
    let scores = scores(alloc, column)?;
    add_lists(arguments, [1, 2].to_vec(alloc)?, scores)
}

/// Places and the scores of that column, added.
fn added(alloc: Global) -> Result<String, CodecError> {
    let mut arguments = PgArguments::new(alloc);
    add_scores(alloc, &mut arguments)?;
    in_hex(alloc, &arguments)
}

#[test]
fn lists_are_read_and_written(rt: HostRuntime) -> Result<(), CodecError> {
    let found = added(rt.alloc())?;
    assert_eq!(rt;
        found.as_str(),
        "0000002400000001000000000000001700000002000000010000000400000001000000040000000200000020000000010000000000000017000000020000000100000004\
         00000007ffffffff"
    );
    Ok(())
}

/// Fills the arguments of a search with what a server reported.
fn fill_search(
    alloc: Global,
    arguments: &mut PgArguments,
    known: &[PgTypeInfo],
) -> Result<(), CodecError> {
    let parameters = [
        PgTypeInfo(PgType::Int4),
        PgTypeInfo(PgType::Text),
        PgTypeInfo::array_of("mood"),
    ];
    fill(alloc, arguments, &parameters, known)
}

/// The types that a server describes: `email` has the OID 16602 and `mood` 16600.
fn known_types(alloc: Global) -> Result<[PgTypeInfo; 2], AllocError> {
    let email = PgTypeInfo::custom(alloc, Oid(16602), "email", PgTypeKind::Simple)?;
    let mood = PgTypeInfo::custom(alloc, Oid(16600), "mood", PgTypeKind::Simple)?;
    Ok([email, mood])
}

/// The parameters of a search for one mood. Until the type of a hole is known, nothing is filled.
fn bound(alloc: Global) -> Result<String, CodecError> {
    let moods = [PgEnum(Mood::Fine)].to_vec(alloc)?;
    let name = String::from_str(alloc, "seven")?;
    let mut arguments = arguments_of_search(alloc, 7, name, moods)?;
    if fill_search(alloc, &mut arguments, &[]).is_ok() {
        return Ok(String::from_str(alloc, "filled without a type")?);
    }
    fill_search(alloc, &mut arguments, &known_types(alloc)?)?;
    let message = parameters_of_bind(alloc, &arguments)?;
    Ok(encode(alloc, message.as_slice())?)
}

#[test]
fn a_search_is_bound(rt: HostRuntime) -> Result<(), CodecError> {
    let shown = bound(rt.alloc())?;
    assert_eq!(rt;
        shown.as_str(),
        "0003000000040000000700000005736576656e0000001a0000000100000000000040d80000000100000001000000026f6b"
    );
    Ok(())
}

/// A list of moods and a list of addresses. The types of their holes are known in the other order.
fn two_holes(alloc: Global) -> Result<String, CodecError> {
    let mut arguments = one_mood(alloc)?;
    let address = String::from_str(alloc, "a@b")?;
    arguments.add(Vec::from_array(alloc, [PgDomain(Email(address))])?)?;
    let parameters = [PgTypeInfo::array_of("mood"), PgTypeInfo::array_of("email")];
    fill(alloc, &mut arguments, &parameters, &known_types(alloc)?)?;
    in_hex(alloc, &arguments)
}

#[test]
fn two_holes_are_filled(rt: HostRuntime) -> Result<(), CodecError> {
    let shown = two_holes(rt.alloc())?;
    assert_eq!(rt;
        shown.as_str(),
        "0000001a0000000100000000000040d80000000100000001000000026f6b\
         0000001b0000000100000000000040da000000010000000100000003614062"
    );
    Ok(())
}

/// `(1, 'bolt', '{3,4}')` and `(2, null, '{}')`.
const STREAM: &[u8] = b"PGCOPY\n\xff\r\n\0\0\0\0\0\0\0\0\0\
    \0\x03\0\0\0\x04\0\0\0\x01\0\0\0\x04bolt\0\0\0\x24\0\0\0\x01\0\0\0\0\0\0\0\x17\0\0\0\x02\0\0\0\x01\0\0\0\x04\0\0\0\x03\0\0\0\x04\0\0\0\x04\
    \0\x03\0\0\0\x04\0\0\0\x02\xff\xff\xff\xff\0\0\0\x0c\0\0\0\0\0\0\0\0\0\0\0\x17\
    \xff\xff";

/// The rows of a stream, each on a line.
fn copied(alloc: Global) -> Result<String, CodecError> {
    let mut text = String::new(alloc);
    for item in read_items(alloc, STREAM)? {
        let line = format!(in alloc; "{} {:?} {:?}\n", item.id, item.name, item.sizes)?;
        text.push_str(line.as_str())?;
    }
    Ok(text)
}

/// The number of the first row, read once the third is refused, since the stream is cut off there.
fn kept_of_cut(alloc: Global) -> Result<Option<i32>, CodecError> {
    let mut reader = PgCopyReader::new(&STREAM[..STREAM.len() - 1], columns(alloc)?)?;
    let first = reader.next_row()?;
    reader.next_row()?;
    if reader.next_row().is_ok() {
        return Ok(None);
    }
    match first {
        Some(row) => Ok(Some(read_item(alloc, row.as_slice())?.id)),
        None => Ok(None),
    }
}

#[test]
fn a_stream_is_copied(rt: HostRuntime) -> Result<(), CodecError> {
    let rows = copied(rt.alloc())?;
    assert_eq!(rt; rows.as_str(), "1 Some(\"bolt\") [3, 4]\n2 None []\n");
    assert_eq!(rt; kept_of_cut(rt.alloc())?, Some(1));
    Ok(())
}

/// The arrays of moods, as a server describes them.
fn moods_type(alloc: Global) -> Result<PgTypeInfo, AllocError> {
    let mood = PgTypeInfo::custom(alloc, Oid(16600), "mood", PgTypeKind::Simple)?;
    PgTypeInfo::custom(alloc, Oid(16601), "_mood", PgTypeKind::Array(mood))
}

/// A user and moods, added, filled and read back.
fn read_back(alloc: Global) -> Result<(PgNewtype<UserId>, Vec<Option<PgEnum<Mood>>>), CodecError> {
    let mut arguments = PgArguments::new(alloc);
    arguments.add(PgNewtype(UserId(7)))?;
    arguments.add([Some(PgEnum(Mood::Fine)), None].to_vec(alloc)?)?;
    let parameters = [PgTypeInfo(PgType::Int4), moods_type(alloc)?];
    arguments.apply_patches(&parameters, &[Oid(16600)])?;
    let mut rest = arguments.buffer().as_slice();
    let user = column(alloc, &mut rest, PgTypeInfo(PgType::Int4))?;
    Ok((user, column(alloc, &mut rest, moods_type(alloc)?)?))
}

#[test]
fn a_user_and_moods_come_back(rt: HostRuntime) -> Result<(), CodecError> {
    let (user, moods) = read_back(rt.alloc())?;
    assert_eq!(rt; user, PgNewtype(UserId(7)));
    assert_eq!(rt;
        moods.as_slice(),
        [Some(PgEnum(Mood::Fine)), None].as_slice()
    );
    Ok(())
}

/// The number 7 and the text `seven`.
const SEVEN: &[u8] = b"\0\0\0\x04\0\0\0\x07\0\0\0\x05seven";

/// A person of these bytes.
fn person(alloc: Global, row: &[u8]) -> Result<String, CodecError> {
    let person = read_person(alloc, row)?;
    Ok(format!(in alloc; "{} {:?}", person.id, person.name)?)
}

/// The number of a value that is kept.
fn kept_number(alloc: Global, value: &PgValue) -> Result<i32, CodecError> {
    i32::decode(alloc, value.as_ref()?)
}

/// The number of a row that is kept, and the text after it.
fn kept(alloc: Global) -> Result<String, CodecError> {
    let mut rest = SEVEN;
    let value = keep(alloc, &mut rest, PgTypeInfo(PgType::Int4))?;
    let name: String = column(alloc, &mut rest, PgTypeInfo(PgType::Text))?;
    let number = kept_number(alloc, &value)?;
    Ok(format!(in alloc; "{number} {name} {}", rest.len())?)
}

#[test]
fn rows_of_persons(rt: HostRuntime) -> Result<(), CodecError> {
    let unnamed = b"\0\0\0\x04\0\0\0\x07\xff\xff\xff\xff".as_slice();
    for (row, shown) in [(SEVEN, "7 Some(\"seven\")"), (unnamed, "7 None")] {
        let person = person(rt.alloc(), row)?;
        assert_eq!(rt; person.as_str(), shown);
    }
    let kept = kept(rt.alloc())?;
    assert_eq!(rt; kept.as_str(), "7 seven 0");
    let null = person(rt.alloc(), b"\xff\xff\xff\xff\0\0\0\x05seven");
    assert!(rt; matches!(null, Err(CodecError::UnexpectedNull)));
    Ok(())
}

/// The arguments of a query for these keys, each added twice, in hex, and how many were refused the second time.
fn keys_sent(alloc: Global, query: &mut String, keys: &[i64]) -> Result<String, CodecError> {
    let mut arguments = PgArguments::new(alloc);
    push_in(&mut arguments, query, keys)?;
    let refused = add_all(alloc, &mut arguments, keys)?;
    let sent = in_hex(alloc, &arguments)?;
    Ok(format!(in alloc; "{sent} {refused}")?)
}

/// A query for these keys, and what is sent of them.
fn listed(alloc: Global, keys: &[i64]) -> Result<String, CodecError> {
    let mut query = String::from_str(alloc, "where id")?;
    let sent = keys_sent(alloc, &mut query, keys)?;
    Ok(format!(in alloc; "{query} {sent}")?)
}

#[test]
fn keys_are_listed(rt: HostRuntime) -> Result<(), CodecError> {
    let two = listed(rt.alloc(), &[5, -1])?;
    assert_eq!(rt;
        two.as_str(),
        "where id in ($1, $2) 00000008000000000000000500000008ffffffffffffffff00000008000000000000000500000008ffffffffffffffff 0"
    );
    let none = listed(rt.alloc(), &[])?;
    assert_eq!(rt; none.as_str(), "where id in (null)  0");
    Ok(())
}

/// The bits of a `float8` in this format, or the number of its refusal.
fn float_read(alloc: Global, bytes: Option<&[u8]>, format: PgValueFormat) -> Result<i64, u8> {
    let value = PgValueRef::new(bytes, PgTypeInfo(PgType::Float8), format);
    match PgPlain::<Float8>::decode(alloc, value) {
        Ok(PgPlain(number)) => Ok(number.0),
        Err(error) => Err(error.code()),
    }
}

#[test]
fn floats_by_their_bits(rt: HostRuntime) -> Result<(), CodecError> {
    let sent = sent(rt.alloc(), PgPlain(Float8(4_607_182_418_800_017_408)))?;
    assert_eq!(rt; sent.as_str(), "000000083ff0000000000000");
    let one = b"\x3f\xf0\0\0\0\0\0\0".as_slice();
    let found = [
        float_read(rt.alloc(), Some(one), PgValueFormat::Binary),
        float_read(rt.alloc(), Some(&one[1..]), PgValueFormat::Binary),
        float_read(rt.alloc(), Some(b"1"), PgValueFormat::Text),
        float_read(rt.alloc(), None, PgValueFormat::Text),
    ];
    assert_eq!(rt;
        found,
        [Ok(4_607_182_418_800_017_408), Err(17), Err(18), Err(13)]
    );
    Ok(())
}

/// Why the name in the row of a body is not read.
fn reason_in(
    alloc: Global,
    columns: &PgColumns<'_>,
    room: &mut PgPlaces,
    body: &[u8],
) -> Result<Option<Reason<&'static str>>, CodecError> {
    let row = PgRow::read(columns, room, body)?;
    Ok(name_in(alloc, &row).err())
}

/// The bytes of hex digits.
pub fn bytes_of(alloc: Global, digits: &[u8]) -> Result<Vec<u8>, CodecError> {
    match decode(alloc, digits) {
        Ok(bytes) => Ok(bytes),
        Err(_) => Err(CodecError::Syntax),
    }
}

/// Why the name in a row of one null is not read, under this description.
fn unnamed(alloc: Global, described: &[u8]) -> Result<Option<Reason<&'static str>>, CodecError> {
    let described = bytes_of(alloc, described)?;
    let columns = columns_of(alloc, described.as_slice())?;
    let mut room = PgPlaces::new(alloc);
    reason_in(alloc, &columns, &mut room, b"\0\x01\xff\xff\xff\xff")
}

#[test]
fn reasons_name_the_column(rt: HostRuntime) -> Result<(), CodecError> {
    let null = unnamed(
        rt.alloc(),
        b"00016e616d6500000000000000000000190000000000000000",
    )?;
    assert_eq!(rt; null, Some(Reason::Null("name")));
    let missing = unnamed(
        rt.alloc(),
        b"00016c616d6500000000000000000000190000000000000000",
    )?;
    assert_eq!(rt; missing, Some(Reason::Missing("name")));
    Ok(())
}

/// Whether all bodies are rows of one column of type `text`, and none has another number of columns.
fn are_rows(alloc: Global, bodies: &[&[u8]]) -> Result<bool, CodecError> {
    let described = b"00016e616d6500000000000000000000190000000000000000";
    let described = bytes_of(alloc, described)?;
    let columns = columns_of(alloc, described.as_slice())?;
    let mut room = PgPlaces::new(alloc);
    match check_rows(&columns, &mut room, bodies) {
        Ok(()) => Ok(true),
        Err(CodecError::FieldCount) => Ok(false),
        Err(error) => Err(error),
    }
}

#[test]
fn rows_are_tested_in_one_room(rt: HostRuntime) -> Result<(), CodecError> {
    let null: &[u8] = b"\0\x01\xff\xff\xff\xff";
    let two: &[u8] = b"\0\x02\xff\xff\xff\xff\xff\xff\xff\xff";
    assert!(rt; are_rows(rt.alloc(), &[null, null])?);
    assert!(rt; !are_rows(rt.alloc(), &[null, two])?);
    Ok(())
}

/// The types of a server that has `mood` alone, under the OID 16600.
fn server_of_moods(alloc: Global) -> Result<PgServerTypes, CatalogError> {
    let mut rows = PgCatalogRows::new(alloc);
    rows.types.push(PgTypeRow {
        oid: Oid(16600),
        schema: String::from_str(alloc, "public")?,
        name: String::from_str(alloc, "mood")?,
        is_visible: true,
        class: PgTypeClass::Enum,
        part: Oid(0),
    })?;
    types_of(alloc, &rows)
}

/// A list of one mood, added.
fn one_mood(alloc: Global) -> Result<PgArguments, CodecError> {
    let mut arguments = PgArguments::new(alloc);
    arguments.add([PgEnum(Mood::Fine)].to_vec(alloc)?)?;
    Ok(arguments)
}

/// What is sent of that list to a server with these types.
fn mood_sent(alloc: Global, types: &PgServerTypes) -> Result<String, CatalogError> {
    let mut arguments = one_mood(alloc)?;
    let parameters = [PgTypeInfo::array_of("mood")];
    fill_by(alloc, &mut arguments, &parameters, types)?;
    Ok(in_hex(alloc, &arguments)?)
}

/// The name of the type of the first column.
fn first_type(alloc: Global, columns: &PgColumns<'_>) -> Result<String, CatalogError> {
    let Some(column) = columns.get(0usize) else {
        return Ok(String::new(alloc));
    };
    let type_info = column.type_info();
    Ok(format!(in alloc; "{}", type_info.name())?)
}

/// The type of the column `mood` that a server with these types describes.
fn mood_described(alloc: Global, types: &PgServerTypes) -> Result<String, CatalogError> {
    let body = bytes_of(alloc, b"00016d6f6f6400000000000000000040d80000000000000000")?;
    let columns = columns_by(alloc, body.as_slice(), types)?;
    first_type(alloc, &columns)
}

/// Both, by a catalogue.
fn by_catalogue(alloc: Global) -> Result<[String; 2], CatalogError> {
    let types = server_of_moods(alloc)?;
    Ok([mood_sent(alloc, &types)?, mood_described(alloc, &types)?])
}

#[test]
fn a_catalogue_fills_and_describes(rt: HostRuntime) -> Result<(), CodecError> {
    let Ok([sent, described]) = by_catalogue(rt.alloc()) else {
        return Err(CodecError::Syntax);
    };
    assert_eq!(rt;
        sent.as_str(),
        "0000001a0000000100000000000040d80000000100000001000000026f6b"
    );
    assert_eq!(rt; described.as_str(), "mood");
    Ok(())
}

/// What is sent of the document `{}` to a parameter of this type, in hex, and what is read from it.
fn document_shown(alloc: Global, parameter: PgType) -> Result<String, CodecError> {
    let mut arguments = PgArguments::new(alloc);
    let text = String::from_str(alloc, "{}")?;
    arguments.add(PgPlain(Json(text)))?;
    arguments.apply_patches(&[PgTypeInfo(parameter)], &[])?;
    let sent = arguments.buffer().as_slice();
    let column = PgTypeInfo(PgType::Jsonb);
    let value = PgValueRef::new(sent.get(4..), column, PgValueFormat::Binary);
    let PgPlain(read) = PgPlain::<Json>::decode(alloc, value)?;
    Ok(format!(in alloc; "{} {}", encode(alloc, sent)?, read.0)?)
}

/// A shipment without a note.
fn shipment(alloc: Global) -> Result<PgComposite<Shipment>, CodecError> {
    let path = PgLTree::from_str(alloc, "a.b")?;
    let page = PgComposite(Page { id: 1, path });
    Ok(PgComposite(Shipment { page, note: None }))
}

/// What is sent of that shipment, in hex, its holes open.
fn shipment_sent(alloc: Global) -> Result<String, CodecError> {
    sent(alloc, shipment(alloc)?)
}

/// The text `("(1,a.b)",)` read as a shipment.
fn shipment_read(alloc: Global) -> Result<String, CodecError> {
    let PgComposite(read) = of_text::<PgComposite<Shipment>>(alloc, b"(\"(1,a.b)\",)")?;
    Ok(format!(in alloc; "{} {} {:?}", read.page.0.id, read.page.0.path, read.note)?)
}

/// What is sent of the range from one number of bits to another.
fn range_sent(alloc: Global) -> Result<PgArguments, CodecError> {
    let mut arguments = PgArguments::new(alloc);
    let range = PgRange::from(PgPlain(Float8(1))..PgPlain(Float8(2)));
    arguments.add(range)?;
    Ok(arguments)
}

/// The bounds of the range in a frame, and the type that arrays of such ranges have.
fn range_read(alloc: Global, frame: &[u8]) -> Result<String, CodecError> {
    let over = PgTypeKind::Range(PgTypeInfo(PgType::Float8));
    let column = PgTypeInfo::custom(alloc, Oid(16700), "floatrange", over)?;
    let value = PgValueRef::new(frame.get(4..), column, PgValueFormat::Binary);
    let range = PgRange::<PgPlain<Float8>>::decode(alloc, value)?;
    let arrays = Vec::<PgRange<PgPlain<Float8>>>::type_info();
    Ok(format!(in alloc; "{range:?} in {}", arrays.name())?)
}

#[test]
fn types_of_ones_own(rt: HostRuntime) -> Result<(), CodecError> {
    let range = range_sent(rt.alloc())?;
    let shown = [
        document_shown(rt.alloc(), PgType::Json)?,
        document_shown(rt.alloc(), PgType::Jsonb)?,
        shipment_sent(rt.alloc())?,
        shipment_read(rt.alloc())?,
        encode(rt.alloc(), range.buffer().as_slice())?,
        range_read(rt.alloc(), range.buffer().as_slice())?,
    ];
    let expected = [
        "00000003207b7d {}",
        "00000003017b7d {}",
        "0000003000000002000000000000001c00000002000000170000000400000001000000000000000401612e6200000019ffffffff",
        "1 a.b None",
        "0000001902000000080000000000000001000000080000000000000002",
        "Bounds { start: Included(PgPlain(Float8(1))), end: Excluded(PgPlain(Float8(2))) } in floatrange[]",
    ];
    for (found, expected) in shown.iter().zip(expected) {
        assert_eq!(rt; found.as_str(), expected);
    }
    Ok(())
}
