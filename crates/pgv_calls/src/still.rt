//! Rows of calls that take no memory: what they need is made by the row `make`, which stands first.

use crate::{made, tokens};
use bytes::Bytes;
use jiff::civil::{Date, DateTime, Time};
use jiff::{SignedDuration, Timestamp};
use pgv::text::{Parts, TextForm, date, date_time, instant, time, time_tz};
use pgv::types::{
    BitVec, IpNetwork, Ipv4Network, Ipv6Network, MacAddress, PgByteaArray, PgInterval, PgLQuery,
    PgLTree, PgMoney, PgTimeTz,
};
use pgv::{
    CodecError, Decode, Oid, PgArgumentBuffer, PgArguments, PgRecordEncoder, PgType, PgTypeInfo,
    PgValue, PgValueFormat, PgValueRef, Tokens, Type, name_eq, read_bool, read_date,
    read_date_time, read_i8, read_i16, read_i32, read_i64, read_instant, read_interval,
    read_ip_address, read_ip_network, read_oid, read_time, read_uuid,
};
use pgv_fixtures::{Again, Called, EmptyObject};
use std::alloc::Global;
use std::net::{IpAddr, Ipv4Addr, Ipv6Addr};
use std::time::Duration;
use uuid::Uuid;

/// A value in binary under a type.
fn binary(bytes: &[u8], built_in: PgType) -> PgValueRef<'_> {
    PgValueRef::new(Some(bytes), PgTypeInfo(built_in), PgValueFormat::Binary)
}

/// A value in text under a type.
fn text(text: &str, built_in: PgType) -> PgValueRef<'_> {
    PgValueRef::new(
        Some(text.as_bytes()),
        PgTypeInfo(built_in),
        PgValueFormat::Text,
    )
}

/// Types that are made, looked up and compared.
fn types() -> bool {
    let array = PgTypeInfo::array_of("mood");
    let named = PgTypeInfo::with_name("_mood");
    let int4 = PgTypeInfo::try_from_oid(Oid(23));
    matches!(&int4, Some(found) if found.oid() == Some(Oid(23)))
        && array.type_compatible(&named)
        && array.type_eq(&named)
        && array.array_element().is_some()
        && PgTypeInfo(PgType::Int4Array).kind().is_some()
        && named.name().text() == "_mood"
        && name_eq("foo", "FOO")
        && PgTypeInfo::with_oid(Oid(1)).oid() == Some(Oid(1))
        && PgTypeInfo(PgType::Void).is_void()
}

/// Whether a value is this text.
fn is_text(value: &PgValueRef<'_>, wanted: &str) -> bool {
    matches!(value.as_str(), Ok(text) if text == wanted)
}

/// Whether a value is these bytes.
fn is_bytes(value: &PgValueRef<'_>, wanted: &[u8]) -> bool {
    matches!(value.as_bytes(), Ok(bytes) if bytes == wanted)
}

/// Frames that are read from the front, and values that are lent.
fn values() -> bool {
    let mut rest = b"\0\0\0\x01a\xff\xff\xff\xff".as_slice();
    let info = PgTypeInfo(PgType::Text);
    let first = PgValueRef::get(&mut rest, PgValueFormat::Text, info);
    let info = PgTypeInfo(PgType::Text);
    let second = PgValueRef::get(&mut rest, PgValueFormat::Text, info);
    matches!(&first, Ok(value) if is_text(value, "a"))
        && matches!(&second, Ok(value) if value.is_null())
        && is_bytes(&binary(b"ab", PgType::Bytea), b"ab")
}

/// Plain readers.
fn readers() -> bool {
    matches!(read_bool(&text("t", PgType::Bool)), Ok(true))
        && matches!(read_i16(&binary(b"\0\x07", PgType::Int2)), Ok(7))
        && matches!(read_i32(&text("-7", PgType::Int4)), Ok(-7))
        && matches!(read_i64(&binary(&[0; 8], PgType::Int8)), Ok(0))
        && matches!(read_oid(&text("7", PgType::Oid)), Ok(Oid(7)))
        && read_uuid(&binary(&[9; 16], PgType::Uuid)).is_ok()
        && read_interval(&binary(&[0; 16], PgType::Interval)).is_ok()
}

/// Plain readers of times.
fn readers_of_times() -> bool {
    read_date(&text("2000-01-01", PgType::Date)).is_ok()
        && read_time(&binary(&[0; 8], PgType::Time)).is_ok()
        && read_date_time(&text("2000-01-01 00:00:00", PgType::Timestamp)).is_ok()
        && read_instant(&binary(&[0; 8], PgType::Timestamptz)).is_ok()
}

/// Plain readers of times, of addresses and of `"char"`.
fn more_readers() -> bool {
    matches!(read_i8(&binary(b"\x07", PgType::Char)), Ok(7))
        && read_ip_network(&text("10.0.0.0/8", PgType::Inet)).is_ok()
        && read_ip_address(&text("10.0.0.1", PgType::Inet)).is_ok()
        && readers_of_times()
}

/// Whole texts that are read.
fn texts() -> bool {
    date("2000-01-01").is_some()
        && time("24:00:00").is_some()
        && date_time("2000-01-01 00:00:00").is_some()
        && instant("2000-01-01 00:00:00+00").is_some()
        && time_tz("00:00:00+01").is_some()
        && matches!(IpNetwork::from_str("10.0.0.0/8"), Some(found) if found.prefix() == 8)
        && IpNetwork::from_str("10.0.0.0/33").is_none()
}

/// Decoders of numbers that take no memory.
fn numbers(alloc: Global) -> bool {
    matches!(bool::decode(alloc, text("t", PgType::Bool)), Ok(true))
        && matches!(i8::decode(alloc, text("\\101", PgType::Char)), Ok(65))
        && matches!(i16::decode(alloc, text("-7", PgType::Int2)), Ok(-7))
        && matches!(i64::decode(alloc, text("7", PgType::Int8)), Ok(7))
        && matches!(Oid::decode(alloc, binary(&[0; 4], PgType::Oid)), Ok(Oid(0)))
        && Uuid::decode(alloc, binary(&[9; 16], PgType::Uuid)).is_ok()
        && PgInterval::decode(alloc, binary(&[0; 16], PgType::Interval)).is_ok()
}

/// Decoders of moments and addresses that take no memory.
fn moments(alloc: Global) -> bool {
    DateTime::decode(alloc, binary(&[0; 8], PgType::Timestamp)).is_ok()
        && Timestamp::decode(alloc, binary(&[0; 8], PgType::Timestamptz)).is_ok()
        && IpNetwork::decode(alloc, text("10.0.0.0/8", PgType::Inet)).is_ok()
        && IpAddr::decode(alloc, text("::1", PgType::Inet)).is_ok()
        && PgTimeTz::decode(alloc, binary(&[0; 12], PgType::Timetz)).is_ok()
        && MacAddress::decode(alloc, binary(&[0; 6], PgType::Macaddr)).is_ok()
}

/// Decoders that take no memory.
fn decoders(alloc: Global) -> bool {
    matches!(
        i32::decode(alloc, binary(b"\0\0\0\x07", PgType::Int4)),
        Ok(7)
    ) && Date::decode(alloc, text("2000-01-01", PgType::Date)).is_ok()
        && Time::decode(alloc, binary(&[0; 8], PgType::Time)).is_ok()
        && PgTimeTz::decode(alloc, text("00:00:00+01", PgType::Timetz)).is_ok()
        && matches!(
            PgMoney::decode(alloc, binary(&[0; 8], PgType::Money)),
            Ok(PgMoney(0))
        )
        && PgByteaArray::<2>::decode(alloc, binary(b"ab", PgType::Bytea)).is_ok()
        && MacAddress::decode(alloc, text("08:00:2b:01:02:03", PgType::Macaddr)).is_ok()
        && <()>::decode(alloc, binary(b"", PgType::Void)).is_ok()
}

/// An array that promises more elements than there are bytes: no room is made for them.
fn short_array(alloc: Global) -> bool {
    let bytes = b"\0\0\0\x01\0\0\0\0\0\0\0\x17\x7f\xff\xff\xff\0\0\0\x01".as_slice();
    let found = Vec::<i32>::decode(alloc, binary(bytes, PgType::Int4Array));
    matches!(found, Err(CodecError::Short))
}

/// Durations, and the parts of a text.
fn durations() -> bool {
    let interval = PgInterval::try_from(Duration::from_secs(1));
    let signed = PgInterval::try_from(SignedDuration::from_secs(-1));
    matches!(&interval, Ok(found) if found.microseconds == 1_000_000)
        && matches!(&signed, Ok(found) if found.microseconds == -1_000_000)
        && matches!(Parts::new(TextForm::Array, "{a,b}"), Some(parts) if parts.len() == 2 && !parts.is_empty())
}

/// Networks of an address and a prefix.
fn networks() -> bool {
    let local = Ipv6Addr::from_octets([0; 16]);
    let four = Ipv4Network::new(Ipv4Addr::from_octets([10, 0, 0, 0]), 8);
    let six = IpNetwork::new(IpAddr::V6(local), 128);
    matches!(four, Some(found) if found.prefix() == 8)
        && Ipv6Network::new(local, 129).is_none()
        && matches!(six, Some(found) if found.prefix() == 128 && found.is_ipv6() && !found.is_ipv4())
}

/// A record of one field.
fn write_record(buffer: &mut PgArgumentBuffer) -> Result<(), CodecError> {
    let mut record = PgRecordEncoder::new(buffer)?;
    record.encode(7)?;
    record.finish();
    Ok(())
}

/// Whether a value that is kept is the bytes `ro`.
fn is_ro(value: &PgValue) -> bool {
    matches!(&value.as_ref(), Ok(value) if is_bytes(value, b"ro"))
}

/// A tree that is filled and emptied again.
fn make_tree(alloc: Global) -> Result<PgLTree, CodecError> {
    Ok(PgLTree::from_str(alloc, "a.b")?)
}

/// A query of one level.
fn make_query(alloc: Global) -> Result<PgLQuery, CodecError> {
    Ok(PgLQuery::from_str(alloc, "a")?)
}

/// A buffer of one byte, with room for more.
fn make_buffer(alloc: Global) -> Result<PgArgumentBuffer, CodecError> {
    let mut buffer = PgArgumentBuffer::new(alloc);
    buffer.reserve(128)?;
    buffer.push(1)?;
    Ok(buffer)
}

/// Arguments with a hole and a slot.
fn make_arguments(alloc: Global) -> Result<PgArguments, CodecError> {
    let mut arguments = PgArguments::new(alloc);
    arguments.add(PgLTree::new(alloc))?;
    arguments.add(None::<PgLTree>)?;
    arguments.add([make_tree(alloc)?])?;
    arguments.add(EmptyObject { alloc })?;
    Ok(arguments)
}

/// What rows of this kind call.
#[derive(Drop)]
pub struct Still {
    arguments: PgArguments,
    tree: PgLTree,
    query: PgLQuery,
    tokens: Tokens,
    buffer: PgArgumentBuffer,
    row: Option<Bytes>,
    text: String,
    list: Vec<i32>,
    bits: BitVec,
}

impl Still {
    /// Nothing yet.
    pub fn new(alloc: Global) -> Still {
        Still {
            arguments: PgArguments::new(alloc),
            tree: PgLTree::new(alloc),
            query: PgLQuery::new(alloc),
            tokens: Tokens::new(alloc),
            buffer: PgArgumentBuffer::new(alloc),
            row: None,
            text: String::new(alloc),
            list: Vec::new(alloc),
            bits: BitVec::new(alloc),
        }
    }

    /// Makes values.
    fn make_values(&mut self, alloc: Global) -> Result<(), CodecError> {
        self.tree = make_tree(alloc)?;
        self.query = make_query(alloc)?;
        self.tokens = tokens::roomy(alloc)?;
        self.row = Some(Bytes::copy_from_slice(alloc, b"row")?);
        self.text = String::from_str(alloc, "hi")?;
        self.list = Vec::from_slice(alloc, &[7])?;
        self.bits = BitVec::from_bytes(alloc, &[0xa0])?;
        Ok(())
    }

    /// Makes values, and a buffer and arguments.
    fn make(&mut self, alloc: Global) -> Result<(), CodecError> {
        self.make_values(alloc)?;
        self.buffer = make_buffer(alloc)?;
        self.arguments = make_arguments(alloc)?;
        Ok(())
    }

    /// Fills the arguments.
    fn fill(&mut self) -> bool {
        let types = [
            PgLTree::type_info(),
            PgLTree::type_info(),
            PgTypeInfo::array_of("ltree"),
            PgTypeInfo(PgType::Jsonb),
        ];
        !self.arguments.is_empty()
            && self.arguments.apply_patches(&types, &[Oid(16500)]).is_ok()
            && self.arguments.apply_patches(&types, &[]).is_err()
    }

    /// Goes back to the end of the buffer, where it is, and clears it.
    fn clear(&mut self) -> bool {
        let mark = self.buffer.mark();
        self.buffer.back(mark);
        let whole = self.buffer.len() == 1;
        self.buffer.clear();
        whole && self.buffer.is_empty()
    }

    /// Writes a record and values where there is room for them: nothing is copied before it is written.
    fn write(&mut self) -> bool {
        write_record(&mut self.buffer).is_ok()
            && self.buffer.encode(&self.text).is_ok()
            && self.buffer.encode(&self.list).is_ok()
            && self.buffer.encode(&self.bits).is_ok()
            && self.buffer.len() == 63
    }

    /// The first two bytes of the row.
    fn part(&self) -> Option<PgValueRef<'_>> {
        let row = self.row.as_ref()?;
        if row.as_slice().len() < 2 {
            return None;
        }
        let info = PgTypeInfo(PgType::Bytea);
        Some(PgValueRef::from_row(row, 0, 2, info, PgValueFormat::Binary))
    }

    /// Lends a part of the row.
    fn lend(&self) -> bool {
        matches!(&self.part(), Some(part) if is_bytes(part, b"ro"))
    }

    /// Keeps a part of the row, which shares its bytes.
    fn keep(&self, alloc: Global) -> bool {
        let Some(part) = self.part() else {
            return false;
        };
        match part.to_owned(alloc) {
            Ok(value) => !value.is_null() && is_ro(&value),
            Err(_) => false,
        }
    }

    /// Takes the labels, the level and a bit off.
    fn empty(&mut self) -> bool {
        self.tree.pop().is_some()
            && self.tree.pop().is_some()
            && self.tree.pop().is_none()
            && self.query.pop().is_some()
            && self.query.pop().is_none()
            && self.bits.pop() == Some(false)
    }

    /// What a call of this name on what was made answers.
    fn called(&mut self, alloc: Global, call: &str) -> Result<bool, Again> {
        match call {
            "fill" => Ok(self.fill()),
            "clear" => Ok(self.clear()),
            "record" => Ok(self.write()),
            "lend" => Ok(self.lend()),
            "keep" => Ok(self.keep(alloc)),
            "pop" => Ok(self.empty()),
            "tokens" => Ok(tokens::used(&mut self.tokens)?),
            _ => Ok(false),
        }
    }
}

impl Called for Still {
    fn holds(&mut self, alloc: Global, call: &str, _wanted: &str) -> Result<bool, Again> {
        match call {
            "make" => match self.make(alloc) {
                Ok(()) => Ok(true),
                Err(_) => Err(Again),
            },
            "types" => Ok(types()),
            "values" => Ok(values()),
            "readers" => Ok(readers()),
            "more readers" => Ok(more_readers()),
            "texts" => Ok(texts()),
            "numbers" => Ok(numbers(alloc)),
            "moments" => Ok(moments(alloc)),
            "decoders" => Ok(decoders(alloc)),
            "short array" => Ok(short_array(alloc)),
            "durations" => Ok(durations()),
            "networks" => Ok(networks()),
            "empty values" => Ok(made::empty_values(alloc)),
            "money" => Ok(made::money()),
            "identifiers" => Ok(made::identifiers()),
            "names" => Ok(made::names()),
            "nulls" => Ok(made::nulls()),
            "addresses" => Ok(made::addresses()),
            _ => self.called(alloc, call),
        }
    }
}
