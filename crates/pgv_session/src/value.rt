//! What is asked of a value of a TYPE.

ghost use Rattle.std.specs.Prelude.{◌≡◌, ◌≢◌, Some, None, IfOk, is_some, false, string_bytes};
ghost use Rattle.std.specs.Option.{option_copied};
ghost use Rattle.pgv_value.specs.Codes.{code_of};
ghost use Rattle.pgv_value.specs.Outcome.{reading_of, why_of};
ghost use Rattle.pgv_value.specs.declared.error.CodecError.TheVariants.{Memory};
ghost use Rattle.pgv_value.specs.declared.value.PgValueFormat.TheVariants.{Binary as InBinary};
ghost use Rattle.pgv_codec.specs.Encoding.{frame};
ghost use Rattle.pgv_session.specs.RequestsView.{ask_seen};
ghost use Rattle.pgv_session.specs.Session.{RespondsBy, AddsLine, AddsText, ReadsLinePart, Shows, IsRefusal, refused, placeholder as placeholder_of};
ghost use Rattle.pgv_session.specs.ToldView.{told_text, is_said, ShowsBytes, Tells};
ghost use Rattle.pgv_session.specs.Types.{framed_as, line_type, row_named, row_of, types};

use crate::line::Ask;
use crate::type_name::{TypeName, type_name};
use jiff::Timestamp;
use jiff::civil::{Date, DateTime, Time};
use pgv_codec::{Codec, Encode, PgArgumentBuffer, Type};
use pgv_ltree::{PgLQuery, PgLTree};
use pgv_more::{BitVec, MacAddress, PgBytea, PgCiText, PgHstore, PgMoney, PgNumeric, PgTimeTz};
use pgv_range::PgRange;
use pgv_scalar_text::IpNetwork;
use pgv_types::{Oid, PgTypeInfo};
use pgv_value::{CodecError, PgInterval, PgValueFormat, PgValueRef};
use pgv_wire::PgArguments;
use std::alloc::{AllocError, Global};
use uuid::Uuid;

/// What bytes are shown as.
#[derive(Drop)]
pub enum Told {
    /// What was asked for.
    Said(String),
    /// Why it is refused.
    Refused(String),
}

impl Told {
    /// The text of either.
    pub fn into_text(self) -> String
        ensures { string_bytes result ≡ told_text self }
    {
        match self {
            Told::Said(text) | Told::Refused(text) => text,
        }
    }
}

/// A call of a function of one type parameter with the Rust type of a TYPE: the one table of these types.
macro_rules! by_type {
    ($name:expr, $call:ident($($given:expr),*)) => {
        match $name {
            TypeName::Bool => $call::<bool>($($given),*),
            TypeName::Char => $call::<i8>($($given),*),
            TypeName::Int2 => $call::<i16>($($given),*),
            TypeName::Int4 => $call::<i32>($($given),*),
            TypeName::Int8 => $call::<i64>($($given),*),
            TypeName::Oid => $call::<Oid>($($given),*),
            TypeName::Text => $call::<String>($($given),*),
            TypeName::Uuid => $call::<Uuid>($($given),*),
            TypeName::Date => $call::<Date>($($given),*),
            TypeName::Time => $call::<Time>($($given),*),
            TypeName::Timestamp => $call::<DateTime>($($given),*),
            TypeName::Timestamptz => $call::<Timestamp>($($given),*),
            TypeName::Timetz => $call::<PgTimeTz>($($given),*),
            TypeName::Interval => $call::<PgInterval>($($given),*),
            TypeName::Varbit => $call::<BitVec>($($given),*),
            TypeName::Inet => $call::<IpNetwork>($($given),*),
            TypeName::Macaddr => $call::<MacAddress>($($given),*),
            TypeName::Bytea => $call::<PgBytea>($($given),*),
            TypeName::Citext => $call::<PgCiText>($($given),*),
            TypeName::Money => $call::<PgMoney>($($given),*),
            TypeName::Numeric => $call::<PgNumeric>($($given),*),
            TypeName::Hstore => $call::<PgHstore>($($given),*),
            TypeName::Int4Range => $call::<PgRange<i32>>($($given),*),
            TypeName::Int8Range => $call::<PgRange<i64>>($($given),*),
            TypeName::DateRange => $call::<PgRange<Date>>($($given),*),
            TypeName::Ltree => $call::<PgLTree>($($given),*),
            TypeName::Lquery => $call::<PgLQuery>($($given),*),
            TypeName::Int4Array => $call::<Vec<Option<i32>>>($($given),*),
            TypeName::TextArray => $call::<Vec<Option<String>>>($($given),*),
            TypeName::DateArray => $call::<Vec<Option<Date>>>($($given),*),
            TypeName::LtreeArray => $call::<Vec<Option<PgLTree>>>($($given),*),
        }
    };
}

/// The type that a TYPE has.
pub fn type_of(name: TypeName) -> PgTypeInfo
    ensures { result ≡ (row_of name).info }
{
    by_type!(name, info_of())
}

/// The type that a Rust type has.
fn info_of<T: Type>() -> PgTypeInfo
    ensures { result ≡ T.info }
{
    T::type_info()
}

/// Answers what is asked of a value of the TYPE of this name, if there is one.
pub fn respond_by(
    alloc: Global,
    arguments: &mut PgArguments,
    name: &[u8],
    ask: Ask,
) -> Result<String, AllocError>
    ensures { IfOk result (λ text.
        RespondsBy (row_named types name.now) (ask_seen ask.entry)
        arguments.old (string_bytes text) arguments.new) }
{
    match type_name(name) {
        Some(name) => respond(alloc, arguments, name, ask),
        None => String::from_str(alloc, "refused line"),
    }
}

/// Answers what is asked of a value of a TYPE.
fn respond(
    alloc: Global,
    arguments: &mut PgArguments,
    name: TypeName,
    ask: Ask,
) -> Result<String, AllocError>
    ensures { IfOk result (λ text.
        RespondsBy (Some (row_of name)) (ask_seen ask.entry)
        arguments.old (string_bytes text) arguments.new) }
{
    by_type!(name, respond_as(alloc, arguments, ask))
}

/// Answers what is asked of a value of a Rust type that does not read null.
fn respond_as<T: Codec>(
    alloc: Global,
    arguments: &mut PgArguments,
    ask: Ask,
) -> Result<String, AllocError>
    requires { reading_of T.parse T.info InBinary None ≡ None }
    ensures { IfOk result (λ text.
        RespondsBy (Some (line_type T.info T.parse T.written)) (ask_seen ask.entry)
        arguments.old (string_bytes text) arguments.new) }
{
    match ask {
        Ask::Add(text) => add::<T>(alloc, arguments, text),
        Ask::Null => add_value(alloc, arguments, &None::<T>),
        Ask::Read(part) => {
            let told = match &part {
                Some(bytes) => read::<T>(alloc, Some(bytes.as_slice()))?,
                None => read::<T>(alloc, None)?,
            };
            Ok(told.into_text())
        }
    }
}

/// Reads bytes under a TYPE, and shows the frame that the value writes, in hex; or why it is refused.
pub fn show(alloc: Global, name: TypeName, bytes: &[u8]) -> Result<Told, AllocError>
    ensures { IfOk result (ShowsBytes (row_of name) bytes.now) }
{
    by_type!(name, read(alloc, Some(bytes)))
}

/// Adds the value that a text is.
fn add<T: Codec>(
    alloc: Global,
    arguments: &mut PgArguments,
    text: &[u8],
) -> Result<String, AllocError>
    ensures { IfOk result (λ answer.
        AddsText (line_type T.info T.parse T.written) text.now
        arguments.old (string_bytes answer) arguments.new) }
{
    match T::decode(
        alloc,
        PgValueRef::new(Some(text), T::type_info(), PgValueFormat::Text),
    ) {
        Ok(value) => add_value(alloc, arguments, &value),
        Err(error) => refusal(alloc, &error),
    }
}

/// Adds a value: its place, or why it is refused.
fn add_value<T: Encode + Type>(
    alloc: Global,
    arguments: &mut PgArguments,
    value: &T,
) -> Result<String, AllocError>
    ensures { IfOk result (λ answer.
        AddsLine (framed_as T.info (T.encoding value.now))
        (why_of (frame (T.encoding value.now)).answer)
        arguments.old (string_bytes answer) arguments.new) }
{
    match arguments.add_by_ref(value) {
        Ok(()) => placeholder(alloc, arguments),
        Err(error) => refusal(alloc, &error),
    }
}

/// The place of the last argument.
fn placeholder(alloc: Global, arguments: &PgArguments) -> Result<String, AllocError>
    ensures { IfOk result (λ text. string_bytes text ≡ placeholder_of arguments.now) }
{
    let mut text = String::new(alloc);
    match arguments.format_placeholder(&mut text) {
        Ok(()) => Ok(text),
        Err(_) => Err(AllocError),
    }
}

/// The frame that the value of null or bytes writes, in hex.
fn read<T: Codec>(alloc: Global, part: Option<&[u8]>) -> Result<Told, AllocError>
    requires { reading_of T.parse T.info InBinary None ≡ None }
    ensures { IfOk result (λ told.
        ReadsLinePart (line_type T.info T.parse T.written) (option_copied part.entry)
        (told_text told)
        × Tells (line_type T.info T.parse T.written) (option_copied part.entry) told) }
{
    match T::decode(
        alloc,
        PgValueRef::new(part, T::type_info(), PgValueFormat::Binary),
    ) {
        Ok(value) => frame_text(alloc, &value),
        Err(error) => told_refusal(alloc, &error),
    }
}

/// The frame that a value writes, in hex, or why it is refused.
fn frame_text<T: Encode + Type>(alloc: Global, value: &T) -> Result<Told, AllocError>
    ensures { IfOk result (λ told.
        Shows (framed_as T.info (T.encoding value.now))
        (why_of (frame (T.encoding value.now)).answer) (told_text told)
        × (is_said told ≡ is_some (framed_as T.info (T.encoding value.now)))) }
{
    let mut buffer = PgArgumentBuffer::new(alloc);
    match buffer.encode(value) {
        Ok(()) => Ok(Told::Said(hex::encode(alloc, buffer.as_slice())?)),
        Err(error) => told_refusal(alloc, &error),
    }
}

/// `refused Cn`. Out of memory (C1) is not a refusal of a session.
pub fn refusal(alloc: Global, error: &CodecError) -> Result<String, AllocError>
    ensures refused { IfOk result (λ text. IsRefusal (string_bytes text)) }
    ensures told { IfOk result (λ _. error.now ≢ Memory) }
    ensures number { IfOk result (λ text. string_bytes text ≡ refused (code_of error.now)) }
{
    if let CodecError::Memory = error {
        return Err(AllocError);
    }
    let number = error.code();
    format!(in alloc; "refused C{number}")
}

/// The same, as the response to what is asked of a value.
fn told_refusal(alloc: Global, error: &CodecError) -> Result<Told, AllocError>
    ensures refused { IfOk result (λ told. IsRefusal (told_text told)) }
    ensures told { IfOk result (λ _. error.now ≢ Memory) }
    ensures number { IfOk result (λ told. told_text told ≡ refused (code_of error.now)) }
    ensures none { IfOk result (λ told. is_said told ≡ false) }
{
    Ok(Told::Refused(refusal(alloc, error)?))
}
