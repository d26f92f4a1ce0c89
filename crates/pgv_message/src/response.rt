//! ErrorResponse and NoticeResponse: what a server reports.

ghost use Rattle.std.specs.Prelude.{◌≡◌, map, option_map};
ghost use Rattle.pgv_value.specs.Outcome.{Gives, GivesWhole};
ghost use Rattle.pgv_message.specs.Notice.{field_view, fields_of_notice, fields_front, notice, IsNotice, text_by};

use crate::end::check_end;
use pgv_value::{CodecError, name_in_front};
use std::alloc::Global;

/// A field of an error or a notice (PostgreSQL: "Error and Notice Message Fields").
#[derive(Clone, Copy)]
pub struct PgField<'a> {
    /// The byte that names it: `M` for the message.
    pub code: u8,
    /// Its text.
    pub text: &'a str,
}

/// An error or a notice: all its fields, in order.
#[derive(Drop)]
pub struct PgNotice<'a> {
    fields: Vec<PgField<'a>>,
}

/// The fields up to a zero byte, and the rest.
fn fields_in_front<'a>(
    alloc: Global,
    bytes: &'a [u8],
) -> Result<(Vec<PgField<'a>>, &'a [u8]), CodecError>
    ensures { Gives (λ x. (map field_view x.0.items, x.1.now)) (fields_front bytes.now) result }
{
    let mut fields = Vec::new(alloc);
    let mut rest = bytes;
    while let Some((code, after)) = rest.split_first() {
        if *code == 0 {
            return Ok((fields, after));
        }
        let (text, after) = name_in_front(after)?;
        fields.push(PgField { code: *code, text })?;
        rest = after;
    }
    Err(CodecError::Short)
}

/// All fields of a body, after which nothing is left.
#[tactic(auto, unfolding(crate::specs::Notice::notice_fields))]
fn all_fields<'a>(alloc: Global, body: &'a [u8]) -> Result<Vec<PgField<'a>>, CodecError>
    ensures { Gives (λ fields. map field_view fields.items) (notice body.now) result }
{
    let (fields, rest) = fields_in_front(alloc, body)?;
    check_end(body, rest)?;
    Ok(fields)
}

impl<'a> PgNotice<'a> {
    /// The fields in the body of an ErrorResponse or a NoticeResponse (PostgreSQL: "Message Formats", ErrorResponse):
    /// each a byte that is not 0 and a text that a zero byte ends; then a zero byte. Bytes that end too early are
    /// refused with [`Short`](CodecError::Short) (C15), a text that isn't UTF-8 with [`Utf8`](CodecError::Utf8) (C14),
    /// and bytes after the last zero byte with [`WrongLength`](CodecError::WrongLength) (C17).
    ///
    /// `5345525200 4332323031320000` has the severity `ERR` and the code `22012`.
    pub fn read(alloc: Global, body: &'a [u8]) -> Result<PgNotice<'a>, CodecError>
        // What is answered is what the body has, and nothing but memory keeps fields from being answered.
        ensures { GivesWhole fields_of_notice (notice body.now) (IsNotice body.now) result }
    {
        let fields = all_fields(alloc, body)?;
        Ok(PgNotice { fields })
    }

    /// All fields, in order.
    pub fn fields(&self) -> &[PgField<'a>]
        ensures { map field_view result.now ≡ fields_of_notice self.now }
    {
        self.fields.as_slice()
    }

    /// The text of the first field that a byte names, as `M` names the message.
    pub fn get(&self, code: u8) -> Option<&'a str>
        ensures { option_map (λ t. t.now) result ≡ text_by code (fields_of_notice self.now) }
    {
        for field in &self.fields {
            if field.code == code {
                return Some(field.text);
            }
        }
        None
    }

    /// How severe it is: `ERROR`, `FATAL`, `WARNING` and others, maybe translated.
    pub fn severity(&self) -> Option<&'a str>
        ensures { option_map (λ t. t.now) result ≡ text_by 83 (fields_of_notice self.now) }
    {
        self.get(b'S')
    }

    /// The SQLSTATE, as `22012` (PostgreSQL: "PostgreSQL Error Codes").
    pub fn code(&self) -> Option<&'a str>
        ensures { option_map (λ t. t.now) result ≡ text_by 67 (fields_of_notice self.now) }
    {
        self.get(b'C')
    }

    /// What happened, in a line.
    pub fn message(&self) -> Option<&'a str>
        ensures { option_map (λ t. t.now) result ≡ text_by 77 (fields_of_notice self.now) }
    {
        self.get(b'M')
    }

    /// More of what happened.
    pub fn detail(&self) -> Option<&'a str>
        ensures { option_map (λ t. t.now) result ≡ text_by 68 (fields_of_notice self.now) }
    {
        self.get(b'D')
    }

    /// What may be done about it.
    pub fn hint(&self) -> Option<&'a str>
        ensures { option_map (λ t. t.now) result ≡ text_by 72 (fields_of_notice self.now) }
    {
        self.get(b'H')
    }

    /// The place in the query, a decimal number of characters, of which the first is 1.
    pub fn position(&self) -> Option<&'a str>
        ensures { option_map (λ t. t.now) result ≡ text_by 80 (fields_of_notice self.now) }
    {
        self.get(b'P')
    }
}
