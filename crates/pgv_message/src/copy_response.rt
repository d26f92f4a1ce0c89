//! CopyOutResponse and CopyInResponse: the formats of a COPY.

ghost use Rattle.pgv_value.specs.Outcome.{Gives};
ghost use Rattle.pgv_message.specs.CopyFormats.{format_front, formats_front, copy_formats};

use crate::end::check_end;
use pgv_value::{CodecError, PgValueFormat, u16_in_front};
use std::alloc::Global;

/// The formats of a COPY.
#[derive(Drop)]
pub struct PgCopyFormats {
    /// Whether all of it is in text or in binary.
    pub format: PgValueFormat,
    /// The format of each column.
    pub columns: Vec<PgValueFormat>,
}

/// The format in front, in two bytes, and the rest.
#[tactic(auto, unfolding(crate::specs::CopyFormats::format_front))]
fn format_in_front(bytes: &[u8]) -> Result<(PgValueFormat, &[u8]), CodecError>
    ensures { Gives (λ x. (x.0, x.1.now)) (format_front bytes.now) result }
{
    let (code, rest) = u16_in_front(bytes)?;
    let format = PgValueFormat::from_code(code)?;
    Ok((format, rest))
}

/// As many formats, and the rest.
fn formats_in_front(
    alloc: Global,
    bytes: &[u8],
    count: u16,
) -> Result<(Vec<PgValueFormat>, &[u8]), CodecError>
    ensures { Gives (λ x. (x.0.items, x.1.now)) (formats_front count bytes.now) result }
{
    let mut formats = Vec::new(alloc);
    let mut rest = bytes;
    for _ in 0..count {
        let (format, after) = format_in_front(rest)?;
        formats.push(format)?;
        rest = after;
    }
    Ok((formats, rest))
}

/// The formats in the body of a CopyOutResponse or a CopyInResponse (PostgreSQL: "Message Formats", CopyInResponse):
/// one for all in one byte, the number of columns in two, and one for each column in two. Bytes that end too early are
/// refused with [`Short`](CodecError::Short) (C15), a format other than 0 and 1 with
/// [`OutOfRange`](CodecError::OutOfRange) (C30), and bytes after the last format with
/// [`WrongLength`](CodecError::WrongLength) (C17).
///
/// `01 0001 0001` is one column in binary.
#[tactic(auto, unfolding(crate::specs::CopyFormats::copy_formats))]
pub fn copy_formats_of(alloc: Global, body: &[u8]) -> Result<PgCopyFormats, CodecError>
    ensures { Gives (λ f. (f.format, f.columns.items)) (copy_formats body.now) result }
{
    let Some((code, rest)) = body.split_first() else {
        return Err(CodecError::Short);
    };
    let format = PgValueFormat::from_code(u16::from(*code))?;
    let (count, rest) = u16_in_front(rest)?;
    let (columns, rest) = formats_in_front(alloc, rest, count)?;
    check_end(body, rest)?;
    Ok(PgCopyFormats { format, columns })
}
