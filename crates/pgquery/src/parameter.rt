//! Parameters: the values that texts or bytes are under their types.

use crate::fault::Fault;
use crate::options::{Options, Shown};
use crate::source::{Given, Source};
use jiff::Timestamp;
use jiff::civil::{Date, DateTime, Time};
use pgv::catalog::{PgServerTypes, fill};
use pgv::row::PgCatalog;
use pgv::types::{
    BitVec, IpNetwork, MacAddress, PgBytea, PgCiText, PgHstore, PgInterval, PgLQuery, PgLTree,
    PgMoney, PgNumeric, PgRange, PgTimeTz,
};
use pgv::{
    CodecError, Decode, Encode, Oid, PgArguments, PgComposite, PgHasArrayType, PgTypeInfo,
    PgTypeKindRef, PgValueFormat, Type,
};
use pgv_examples::page::Page;
use std::alloc::{AllocError, Global};
use uuid::Uuid;

/// What is bound to the parameters of a statement: values in binary, or texts.
#[derive(Drop)]
pub struct Bindings {
    /// The values.
    pub arguments: PgArguments,
    /// The format of all of them.
    pub format: PgValueFormat,
}

/// Whether all types are built in.
pub fn are_built_in(oids: &[Oid]) -> bool {
    oids.iter()
        .all(|oid| PgTypeInfo::try_from_oid(*oid).is_some())
}

/// The type of an OID: built in, or made on the server, or else known by its OID alone.
fn type_of(known: &PgServerTypes, oid: Oid) -> Result<PgTypeInfo, AllocError> {
    if let Some(type_info) = PgTypeInfo::try_from_oid(oid) {
        return Ok(type_info);
    }
    match known.type_of(oid) {
        Some(type_info) => type_info.clone(),
        None => Ok(PgTypeInfo::with_oid(oid)),
    }
}

/// Adds a value as `T` reads it, or as an array of these.
fn add_as<T: Decode + Encode + PgHasArrayType + Type + Drop>(
    alloc: Global,
    arguments: &mut PgArguments,
    given: &Given<'_>,
) -> Result<(), CodecError> {
    if given.is_array {
        return arguments.add(given.value::<Vec<Option<T>>>(alloc)?);
    }
    arguments.add(given.value::<T>(alloc)?)
}

/// Adds a value under its type.
pub fn add_value(
    alloc: Global,
    arguments: &mut PgArguments,
    type_info: &PgTypeInfo,
    source: Source<'_>,
) -> Result<(), CodecError> {
    let type_info = type_info.under_domains();
    let given = Given {
        type_info,
        is_array: type_info.array_element().is_some(),
        source,
    };
    match type_info.array_element() {
        Some(element) => add_element(alloc, arguments, element.as_ref(), &given),
        None => add_element(alloc, arguments, type_info, &given),
    }
}

/// The same, by the type of the value itself or of an array's elements.
fn add_element(
    alloc: Global,
    arguments: &mut PgArguments,
    element: &PgTypeInfo,
    given: &Given<'_>,
) -> Result<(), CodecError> {
    match element.oid() {
        Some(Oid(16)) => add_as::<bool>(alloc, arguments, given),
        Some(Oid(17)) => add_as::<PgBytea>(alloc, arguments, given),
        Some(Oid(18)) => add_as::<i8>(alloc, arguments, given),
        Some(Oid(20)) => add_as::<i64>(alloc, arguments, given),
        Some(Oid(21)) => add_as::<i16>(alloc, arguments, given),
        Some(Oid(23)) => add_as::<i32>(alloc, arguments, given),
        Some(Oid(25)) => add_as::<String>(alloc, arguments, given),
        Some(Oid(26)) => add_as::<Oid>(alloc, arguments, given),
        Some(Oid(790)) => add_as::<PgMoney>(alloc, arguments, given),
        Some(Oid(829)) => add_as::<MacAddress>(alloc, arguments, given),
        Some(Oid(869)) => add_as::<IpNetwork>(alloc, arguments, given),
        Some(Oid(1082)) => add_as::<Date>(alloc, arguments, given),
        Some(Oid(1083)) => add_as::<Time>(alloc, arguments, given),
        Some(Oid(1114)) => add_as::<DateTime>(alloc, arguments, given),
        Some(Oid(1184)) => add_as::<Timestamp>(alloc, arguments, given),
        Some(Oid(1186)) => add_as::<PgInterval>(alloc, arguments, given),
        Some(Oid(1266)) => add_as::<PgTimeTz>(alloc, arguments, given),
        Some(Oid(1562)) => add_as::<BitVec>(alloc, arguments, given),
        Some(Oid(1700)) => add_as::<PgNumeric>(alloc, arguments, given),
        Some(Oid(2950)) => add_as::<Uuid>(alloc, arguments, given),
        Some(Oid(3904)) => add_as::<PgRange<i32>>(alloc, arguments, given),
        Some(Oid(3908)) => add_as::<PgRange<DateTime>>(alloc, arguments, given),
        Some(Oid(3910)) => add_as::<PgRange<Timestamp>>(alloc, arguments, given),
        Some(Oid(3912)) => add_as::<PgRange<Date>>(alloc, arguments, given),
        Some(Oid(3926)) => add_as::<PgRange<i64>>(alloc, arguments, given),
        _ => add_named(alloc, arguments, element, given),
    }
}

/// The same of a type that is known by its name. An enum's value is its label; any other type isn't here.
fn add_named(
    alloc: Global,
    arguments: &mut PgArguments,
    element: &PgTypeInfo,
    given: &Given<'_>,
) -> Result<(), CodecError> {
    match element.name().text() {
        "citext" => add_as::<PgCiText>(alloc, arguments, given),
        "hstore" => add_as::<PgHstore>(alloc, arguments, given),
        "lquery" => add_as::<PgLQuery>(alloc, arguments, given),
        "ltree" => add_as::<PgLTree>(alloc, arguments, given),
        "page" => add_as::<PgComposite<Page>>(alloc, arguments, given),
        _ => match (element.kind(), given.is_array) {
            (Some(PgTypeKindRef::Enum(_)), false) => add_as::<String>(alloc, arguments, given),
            _ => Err(CodecError::MismatchedTypes),
        },
    }
}

/// Adds the value that the text of a parameter is.
fn add_text(
    alloc: Global,
    arguments: &mut PgArguments,
    type_info: &PgTypeInfo,
    text: &Option<String>,
) -> Result<(), CodecError> {
    match text {
        Some(text) => add_value(
            alloc,
            arguments,
            type_info,
            Source::Part(text.as_bytes(), PgValueFormat::Text),
        ),
        None => arguments.add(None::<String>),
    }
}

/// Adds the value that the bytes of a parameter are, in hex.
fn add_bytes(
    alloc: Global,
    arguments: &mut PgArguments,
    type_info: &PgTypeInfo,
    digits: &Option<String>,
) -> Result<(), CodecError> {
    let Some(digits) = digits else {
        return arguments.add(None::<String>);
    };
    let bytes = hex::decode(alloc, digits.as_bytes()).or(Err(CodecError::Syntax))?;
    add_value(
        alloc,
        arguments,
        type_info,
        Source::Part(bytes.as_slice(), PgValueFormat::Binary),
    )
}

/// The texts themselves, which the server reads.
fn texts_of(alloc: Global, texts: &[Option<String>]) -> Result<Bindings, Fault> {
    let mut arguments = PgArguments::new(alloc);
    for text in texts {
        arguments.add_by_ref(text)?;
    }
    Ok(Bindings {
        arguments,
        format: PgValueFormat::Text,
    })
}

/// Adds the parameter that a word is: its bytes in hex, or its text.
fn add_word(
    alloc: Global,
    arguments: &mut PgArguments,
    type_info: &PgTypeInfo,
    word: &Option<String>,
    is_binary: bool,
) -> Result<(), CodecError> {
    if is_binary {
        add_bytes(alloc, arguments, type_info, word)
    } else {
        add_text(alloc, arguments, type_info, word)
    }
}

/// Adds the parameters that the words are, and their types; whether the codec reads all these from text.
fn add_words(
    alloc: Global,
    oids: &[Oid],
    options: &Options,
    known: &PgServerTypes,
    arguments: &mut PgArguments,
    types: &mut Vec<PgTypeInfo>,
) -> Result<bool, Fault> {
    let is_binary = matches!(options.shown, Shown::Frames);
    for (oid, word) in oids.iter().zip(options.parameters.as_slice()) {
        let type_info = type_of(known, *oid)?;
        match add_word(alloc, arguments, &type_info, word, is_binary) {
            Ok(()) => types.push(type_info)?,
            Err(CodecError::TextUnsupported | CodecError::MismatchedTypes) if !is_binary => {
                return Ok(false);
            }
            Err(error) => return Err(Fault::Parameter(types.len().saturating_add(1), error)),
        }
    }
    Ok(true)
}

/// What is bound to parameters of these OIDs, with the holes filled. Where the codec doesn't read the type of one from
/// text, all are bound as their texts.
pub fn bound(
    alloc: Global,
    oids: &[Oid],
    options: &Options,
    known: &PgServerTypes,
) -> Result<Bindings, Fault> {
    if oids.len() != options.parameters.len() {
        return Err(Fault::Parameters(oids.len()));
    }
    let mut arguments = PgArguments::new(alloc);
    let mut types = Vec::new(alloc);
    if !add_words(alloc, oids, options, known, &mut arguments, &mut types)? {
        return texts_of(alloc, options.parameters.as_slice());
    }
    fill(alloc, &mut arguments, types.as_slice(), known)?;
    Ok(Bindings {
        arguments,
        format: PgValueFormat::Binary,
    })
}
