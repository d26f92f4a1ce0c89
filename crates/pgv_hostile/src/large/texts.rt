//! Texts, bytes, bits and lines of 4 MB (4,194,304 bytes), and a long name.

use super::back::{comes_back, read_text, repeated};
use pgv::types::{BitVec, PgBytea};
use pgv::{CodecError, Oid, PgTypeInfo, PgTypeKind};
use pgv_runner::run;
use std::alloc::Global;

/// Eight characters, of which 524,288 are 4 MB.
const EIGHT: &str = "10110110";

/// A text, in both formats.
pub fn characters(alloc: Global) -> Result<bool, CodecError> {
    let text = repeated(alloc, EIGHT, 524_288)?;
    Ok(read_text::<String>(alloc, text.as_str())? == text && comes_back(alloc, &text)?)
}

/// Bytes, in both formats: in text `\x` and 8 MB of digits.
pub fn bytes(alloc: Global) -> Result<bool, CodecError> {
    let mut text = String::from_str(alloc, "\\x")?;
    text.push_str(repeated(alloc, EIGHT, 1_048_576)?.as_str())?;
    let bytes = read_text::<PgBytea>(alloc, text.as_str())?;
    Ok(bytes.0.len() == 4_194_304 && comes_back(alloc, &bytes)?)
}

/// Bits: of 4 MB of text, and as many bytes.
pub fn bits(alloc: Global) -> Result<bool, CodecError> {
    let text = repeated(alloc, EIGHT, 524_288)?;
    let read = read_text::<BitVec>(alloc, text.as_str())?;
    let bits = BitVec::from_bytes(alloc, text.as_bytes())?;
    Ok(read.len() == 4_194_304 && bits.len() == 33_554_432 && comes_back(alloc, &bits)?)
}

/// A line of a session.
pub fn line(alloc: Global) -> Result<bool, CodecError> {
    let mut line = String::from_str(alloc, "add text ")?;
    line.push_str(repeated(alloc, EIGHT, 524_288)?.as_str())?;
    let mut lines = line.as_bytes();
    let mut answers = Vec::new(alloc);
    let outcome = run(alloc, &mut lines, &mut answers);
    Ok(outcome.is_ok() && answers.as_slice() == b"$1\n".as_slice())
}

/// The name of a type.
pub fn name(alloc: Global) -> Result<bool, CodecError> {
    let name = repeated(alloc, EIGHT, 125)?;
    let info = PgTypeInfo::custom(alloc, Oid(16600), name.as_str(), PgTypeKind::Simple)?;
    Ok(info.name().text() == name.as_str())
}
