//! Rows that are read at a Rust type: `RUST | TYPE | PART => ANSWER`. PART is `b` and hex, `t` and a text, `x` and a
//! text in hex, `null`, or `null text`. ANSWER is the value as `Debug` shows it, or what it is written as where its
//! Rust type has no `Debug`, or the number of the refusal.

use pgv::{Decode, Encode, PgTypeInfo, PgValueFormat, PgValueRef, Type};
use pgv_fixtures::{Again, AtType, Called, at_type, bytes_of, read_again, read_shown, type_of};
use std::alloc::Global;
use std::fmt::Debug;

/// What is read, in words.
#[derive(Drop)]
struct InWords;

impl AtType for InWords {
    type Answer = Result<String, Again>;

    fn shown<T: Decode + Encode + Type + Debug>(
        &self,
        alloc: Global,
        value: PgValueRef<'_>,
    ) -> Result<String, Again> {
        read_shown::<T>(alloc, value)
    }

    fn whole<T: Decode + Encode + Type>(
        &self,
        alloc: Global,
        value: PgValueRef<'_>,
    ) -> Result<String, Again> {
        read_again::<T>(alloc, value)
    }

    fn part<T: Decode + Encode>(
        &self,
        alloc: Global,
        value: PgValueRef<'_>,
    ) -> Result<String, Again> {
        read_again::<T>(alloc, value)
    }

    fn read<T: Decode + Debug>(
        &self,
        alloc: Global,
        value: PgValueRef<'_>,
    ) -> Result<String, Again> {
        read_shown::<T>(alloc, value)
    }
}

/// What is read from bytes under a type.
fn shown_of(
    alloc: Global,
    name: &str,
    type_info: PgTypeInfo,
    bytes: Option<&[u8]>,
    format: PgValueFormat,
) -> Result<String, Again> {
    let value = PgValueRef::new(bytes, type_info, format);
    match at_type(&InWords, alloc, name, value) {
        Some(answer) => answer,
        None => Ok(String::from_str(alloc, "no type of this name")?),
    }
}

/// What is read from a part of a row.
fn shown_part(
    alloc: Global,
    name: &str,
    type_info: PgTypeInfo,
    part: &str,
) -> Result<String, Again> {
    if let Some(text) = part.strip_prefix("t ") {
        let bytes = Some(text.as_bytes());
        return shown_of(alloc, name, type_info, bytes, PgValueFormat::Text);
    }
    let (format, digits) = match part {
        "null" => (PgValueFormat::Binary, None),
        "null text" => (PgValueFormat::Text, None),
        _ if part.starts_with('x') => (PgValueFormat::Text, part.strip_prefix("x ")),
        _ => (PgValueFormat::Binary, part.strip_prefix("b ")),
    };
    let Some(digits) = digits else {
        return shown_of(alloc, name, type_info, None, format);
    };
    let bytes = bytes_of(alloc, digits)?;
    shown_of(alloc, name, type_info, Some(bytes.as_slice()), format)
}

/// What rows of this kind call.
#[derive(Drop)]
pub struct Readings;

impl Called for Readings {
    fn holds(&mut self, alloc: Global, call: &str, wanted: &str) -> Result<bool, Again> {
        let (name, rest) = call.split_once(" | ").unwrap_or((call, ""));
        let (type_name, part) = rest.split_once(" | ").unwrap_or((rest, ""));
        let found = shown_part(alloc, name, type_of(alloc, type_name)?, part)?;
        Ok(found.as_str() == wanted)
    }
}
