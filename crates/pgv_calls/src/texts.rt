//! Rows of calls that read a text: `FORM TEXT => ANSWER`. The parts of a nest are in brackets, or `null`; after the
//! bounds of a range comes whether its brackets include them.

use pgv::text::{Parts, RangeText, TextForm, array_elements, range_parts, record_fields};
use pgv::types::{
    PgCiText, PgLQuery, PgLQueryLevel, PgLQueryParseError, PgLQueryVariant, PgLTree, PgLTreeLabel,
};
use pgv::{CodecError, PgRecordDecoder, PgType, PgTypeInfo, PgValueFormat, PgValueRef};
use pgv_fixtures::{Again, Called, Tries, same};
use std::alloc::{AllocError, Global};

/// A part in brackets, or `null`, with a space in front but for the first.
fn push_part(out: &mut String, part: Option<&str>) -> Result<(), AllocError> {
    if !out.is_empty() {
        out.push(' ')?;
    }
    match part {
        None => out.push_str("null"),
        Some(part) => {
            out.push('[')?;
            out.push_str(part)?;
            out.push(']')
        }
    }
}

/// The parts of a list, or `refused`.
fn parts(alloc: Global, found: Option<Vec<Option<String>>>) -> Result<String, AllocError> {
    let Some(found) = found else {
        return String::from_str(alloc, "refused");
    };
    let mut text = String::new(alloc);
    for part in &found {
        push_part(&mut text, part.as_deref())?;
    }
    Ok(text)
}

/// Whether a bound belongs to its range.
fn included(included: bool) -> &'static str {
    if included { " in" } else { " out" }
}

/// The bounds of a range, and whether each bracket includes its bound; or `empty`, or `refused`.
fn bounds(alloc: Global, found: Option<RangeText>) -> Result<String, AllocError> {
    match found {
        None => String::from_str(alloc, "refused"),
        Some(RangeText::Empty) => String::from_str(alloc, "empty"),
        Some(
            RangeText::Parts {
                lower,
                upper,
                lower_included,
                upper_included,
            },
        ) => {
            let mut out = String::new(alloc);
            push_part(&mut out, lower.as_deref())?;
            push_part(&mut out, upper.as_deref())?;
            out.push_str(included(lower_included))?;
            out.push_str(included(upper_included))?;
            Ok(out)
        }
    }
}

/// The parts of an array one by one, each in a text that is used again.
fn one_by_one(alloc: Global, array: &str) -> Result<String, AllocError> {
    let mut out = String::new(alloc);
    let mut text = String::new(alloc);
    let Some(mut parts) = Parts::new(TextForm::Array, array) else {
        return String::from_str(alloc, "refused");
    };
    for _ in 0..parts.len() {
        let present = parts.next_into(&mut text)? == Some(true);
        push_part(&mut out, if present { Some(text.as_str()) } else { None })?;
    }
    let ended = parts.next_into(&mut text)?.is_none();
    out.push_str(if ended { " end" } else { " more" })?;
    Ok(out)
}

/// Whether the text of a range is that of the empty one, how many parts it has, and whether its brackets include them.
fn about_range(alloc: Global, range: &str) -> Result<String, AllocError> {
    let Some(parts) = Parts::new(TextForm::Range, range) else {
        return String::from_str(alloc, "refused");
    };
    let (lower, upper) = parts.includes();
    let (empty, count) = (parts.is_empty_range(), parts.len());
    format!(in alloc; "{empty} {count} {lower} {upper}")
}

/// The first part of an array, and how many come after it.
fn first_and_list(alloc: Global, array: &str) -> Result<String, AllocError> {
    let Some(mut parts) = Parts::new(TextForm::Array, array) else {
        return String::from_str(alloc, "refused");
    };
    let mut out = String::new(alloc);
    if let Some(first) = parts.next_part(alloc)? {
        push_part(&mut out, first.as_deref())?;
    }
    let rest = parts.list(alloc)?;
    format!(in alloc; "{out} and {}", rest.len())
}

/// The next field of a record. Out of memory it leaves the record as it was, so it is read once more.
fn field(tries: &Tries, record: &mut PgRecordDecoder<'_>) -> Result<Option<String>, CodecError> {
    match record.try_decode::<Option<String>>() {
        Err(CodecError::Memory) => {
            tries.count();
            record.try_decode::<Option<String>>()
        }
        answer => answer,
    }
}

/// Appends the next field of a record, which is a text.
fn push_field(
    tries: &Tries,
    record: &mut PgRecordDecoder<'_>,
    out: &mut String,
) -> Result<(), CodecError> {
    let field = field(tries, record)?;
    Ok(push_part(out, field.as_deref())?)
}

/// The first two fields of a record, which are texts.
fn two_fields(alloc: Global, tries: &Tries, text: &str) -> Result<String, CodecError> {
    let info = PgTypeInfo(PgType::Record);
    let value = PgValueRef::new(Some(text.as_bytes()), info, PgValueFormat::Text);
    let mut record = PgRecordDecoder::new(alloc, value)?;
    let mut out = String::new(alloc);
    push_field(tries, &mut record, &mut out)?;
    push_field(tries, &mut record, &mut out)?;
    Ok(out)
}

/// What is printed of the level of a text.
fn level(alloc: Global, text: &str) -> Result<String, CodecError> {
    let level = PgLQueryLevel::from_str(alloc, text)?;
    Ok(format!(in alloc; "{level}")?)
}

/// What is printed of the variant of a text.
fn variant(alloc: Global, text: &str) -> Result<String, CodecError> {
    let variant = PgLQueryVariant::from_str(alloc, text)?;
    Ok(format!(in alloc; "{variant}")?)
}

/// What is printed of the tree of a text.
fn tree(alloc: Global, text: &str) -> Result<String, CodecError> {
    let tree = PgLTree::from_str(alloc, text)?;
    Ok(format!(in alloc; "{tree}")?)
}

/// What is printed of the label of a text.
fn label(alloc: Global, text: &str) -> Result<String, CodecError> {
    let label = PgLTreeLabel::from_str(alloc, text)?;
    Ok(format!(in alloc; "{label}")?)
}

/// What is printed of the query of a text, or the text of the refusal where it is fixed.
fn query(alloc: Global, text: &str) -> Result<String, CodecError> {
    match PgLQuery::from_str(alloc, text) {
        Ok(query) => Ok(format!(in alloc; "{query}")?),
        Err(PgLQueryParseError::Memory) => Err(CodecError::Memory),
        Err(PgLQueryParseError::ParseIntError) => Ok(String::from_str(alloc, "ParseIntError")?),
        Err(error) => Ok(format!(in alloc; "{error}")?),
    }
}

/// A text without case, through a copy.
fn without_case(alloc: Global, text: &str) -> Result<String, AllocError> {
    let text = PgCiText::from_str(alloc, text)?.clone()?;
    format!(in alloc; "{text}")
}

/// What is found in the text of a nest.
fn nest(alloc: Global, form: &str, text: &str) -> Result<String, AllocError> {
    match form {
        "array" => parts(alloc, array_elements(alloc, text)?),
        "record" => parts(alloc, record_fields(alloc, text)?),
        "range" => bounds(alloc, range_parts(alloc, text)?),
        "parts" => one_by_one(alloc, text),
        "first" => first_and_list(alloc, text),
        "about" => about_range(alloc, text),
        "citext" => without_case(alloc, text),
        _ => String::from_str(alloc, "no such form"),
    }
}

/// What is printed of the part of a query, or of what is found in the text of a nest.
fn found(alloc: Global, tries: &Tries, form: &str, text: &str) -> Result<String, CodecError> {
    match form {
        "fields" => two_fields(alloc, tries, text),
        "query" => query(alloc, text),
        "level" => level(alloc, text),
        "variant" => variant(alloc, text),
        "tree" => tree(alloc, text),
        "label" => label(alloc, text),
        _ => Ok(nest(alloc, form, text)?),
    }
}

/// What rows of this kind call.
#[derive(Drop)]
pub struct Texts<'a>(pub &'a Tries);

impl Called for Texts<'_> {
    fn holds(&mut self, alloc: Global, call: &str, wanted: &str) -> Result<bool, Again> {
        let (form, text) = call.split_once(' ').unwrap_or((call, ""));
        same(found(alloc, self.0, form, text), wanted)
    }
}
