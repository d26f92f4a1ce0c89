//! Documents of `json` and `jsonb` as texts (PostgreSQL, "JSON Types"). In binary the values of `jsonb` begin with the
//! version 1: a slot writes it where the parameter is `jsonb`, and else a space, which means nothing in a document. A
//! value is written and read as a [`PgPlain<Json>`](pgv::PgPlain).

use crate::slot::{after_version, push_version};
use pgv::{
    CodecError, IsNull, PgArgumentBuffer, PgType, PgTypeInfo, PgValueFormat, PgValueRef, Plain,
    PlainCodec,
};
use std::alloc::Global;

/// A document, as `{"a":1}`. That its text is one is left to the server.
#[derive(Drop)]
pub struct Json(pub String);

/// Written as its text after a slot: `{}` to a parameter of `jsonb` as `017b7d`. Read in either format; what isn't
/// UTF-8 is refused with [`Utf8`](CodecError::Utf8) (C14), and null with
/// [`UnexpectedNull`](CodecError::UnexpectedNull) (C13). It comes back under each type.
impl PlainCodec for Json {
    ghost use Rattle.pgv_examples.specs.Jsons.{json_rules};

    ghost rules = { json_rules };

    fn type_info() -> PgTypeInfo {
        PgTypeInfo(PgType::Json)
    }

    fn compatible(type_info: &PgTypeInfo) -> bool {
        type_info.type_compatible(&PgTypeInfo(PgType::Json))
            || type_info.type_compatible(&PgTypeInfo(PgType::Jsonb))
    }

    fn array_type_info() -> PgTypeInfo {
        PgTypeInfo(PgType::JsonArray)
    }

    fn write(&self, out: &mut PgArgumentBuffer) -> Result<IsNull, CodecError> {
        push_version(*self.0.allocator(), out)?;
        out.extend_from_slice(self.0.as_bytes())?;
        Ok(IsNull::No)
    }

    fn read(alloc: Global, value: &PgValueRef<'_>) -> Result<Json, CodecError> {
        let bytes = after_version(value.as_bytes()?);
        let text = PgTypeInfo(PgType::Text);
        let part = PgValueRef::new(Some(bytes), text, PgValueFormat::Text);
        Ok(Json(String::read(alloc, &part)?))
    }
}
