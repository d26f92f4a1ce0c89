//! Queries of label trees, written and read (PostgreSQL, "ltree", lquery).

ghost use Rattle.std.specs.Prelude.{List, refl};
ghost use Rattle.pgv_types.specs.Relations.{softly};
ghost use Rattle.pgv_value.specs.Outcome.{Gives};
ghost use Rattle.pgv_codec.specs.Encoding.{plainly, writes};
ghost use Rattle.pgv_ltree.specs.Queries.{Level};
ghost use Rattle.pgv_ltree.specs.QueryCodec.{lquery, lquery_array, query_image, query_in_binary, query_in_text, parse_query};

use super::{PgLQuery, print_levels};
use crate::text_after_version;
use crate::version::VERSION;
use pgv_codec::{Codec, Decode, Encode, IsNull, PgArgumentBuffer, PgHasArrayType, ReadBack, Type};
use pgv_types::PgTypeInfo;
use pgv_value::{CodecError, PgLQueryParseError, PgValueFormat, PgValueRef};
use std::alloc::{AllocError, Global};

/// `lquery`, of which only the name is known until its OID is given. It is read under each type of this name, and under
/// a type declared by its OID.
impl Type for PgLQuery {
    ghost info = { lquery };

    ghost accepts = { λ t. softly t lquery };

    fn type_info() -> PgTypeInfo {
        PgTypeInfo::with_name("lquery")
    }

    fn compatible(type_info: &PgTypeInfo) -> bool {
        type_info.type_compatible(&Self::type_info())
    }
}

/// An array of them is `_lquery`, by its name too.
impl PgHasArrayType for PgLQuery {
    ghost array_info = { lquery_array };

    ghost accepts_array = { λ t. softly t lquery_array };

    fn array_type_info() -> PgTypeInfo {
        PgTypeInfo::with_name("_lquery")
    }

    fn array_compatible(type_info: &PgTypeInfo) -> bool {
        type_info.type_compatible(&Self::array_type_info())
    }
}

/// Written as the byte 01 and the printed text, piece after piece: `a@*` is `01612a40`.
impl Encode for PgLQuery {
    ghost encoding = { λ query. plainly (writes (query_image query)) };

    fn encode_by_ref(&self, out: &mut PgArgumentBuffer) -> Result<IsNull, CodecError> {
        out.push(VERSION)?;
        print_levels(self.as_slice(), out)?;
        Ok(IsNull::No)
    }

    fn size_hint(&self) -> usize {
        0
    }

    fn produces(&self) -> Result<Option<PgTypeInfo>, AllocError> {
        Ok(None)
    }
}

/// The query of a text. Another text is refused with [`LQuery`](CodecError::LQuery) (C37).
fn read_text(alloc: Global, text: &str) -> Result<PgLQuery, CodecError>
    ensures { Gives (λ query. query) (query_in_text text.now) result }
{
    Ok(PgLQuery::from_str(alloc, text)?)
}

/// The query of a version and a text.
fn read_binary(alloc: Global, form: &[u8]) -> Result<PgLQuery, CodecError>
    ensures { Gives (λ query. query) (query_in_binary form.now) result }
{
    let wrong_version = CodecError::LQuery(PgLQueryParseError::InvalidLqueryVersion);
    let text = text_after_version(form, wrong_version)?;
    read_text(alloc, text)
}

/// The query in either format.
#[inline(always)]
fn read_query(alloc: Global, value: &PgValueRef<'_>) -> Result<PgLQuery, CodecError>
    ensures { Gives (λ query. query) (parse_query value.now) result }
{
    match value.format() {
        PgValueFormat::Binary => read_binary(alloc, value.as_bytes()?),
        PgValueFormat::Text => read_text(alloc, value.as_str()?),
    }
}

/// Read in binary from the byte 01 and a text: no bytes are refused with [`Short`](CodecError::Short) (C15), another
/// first byte with [`LQuery`](CodecError::LQuery) (C37), what isn't UTF-8 with [`Utf8`](CodecError::Utf8) (C14), and an
/// invalid text of a query with [`LQuery`](CodecError::LQuery) (C37). In text the bytes are the query's text. Null is
/// refused with [`UnexpectedNull`](CodecError::UnexpectedNull) (C13).
impl Decode for PgLQuery {
    ghost View = { List Level };

    ghost view = { λ query. query };

    ghost parse = { parse_query };

    ghost written = { λ _ m. plainly (writes (query_image m)) };

    ghost null = { λ _ _. (refl, refl) };

    fn decode(alloc: Global, value: PgValueRef<'_>) -> Result<PgLQuery, CodecError> {
        read_query(alloc, &value)
    }
}

impl Codec for PgLQuery {
    ghost agrees = { λ _. refl };
}

/// A query is read back as it was written if it has a level, each level that is not a star has a variant, and no
/// `NonStar` begins with an empty label. Others print a text that is read as something else, or not at all.
impl ReadBack for PgLQuery {
    ghost use Rattle.pgv_ltree.specs.QueryBackLemmas.{query_back, query_fits};

    ghost kept = { λ query. query };

    ghost fits = { query_fits };

    ghost reads_back = { query_back };
}
