//! Parts of arrays and records as values.

ghost use Rattle.std.specs.Prelude.{◌≡◌, Some};
ghost use Rattle.std.specs.Option.{option_copied};
ghost use Rattle.pgv_value.specs.Outcome.{Gives};
ghost use Rattle.pgv_value.specs.ValueView.{given};
ghost use Rattle.pgv_value.specs.declared.value.PgValueFormat.TheVariants.{Binary, Text};

use crate::traits::Decode;
use pgv_types::PgTypeInfo;
use pgv_value::{CodecError, PgValueFormat, PgValueRef};
use std::alloc::Global;

/// A part in text, or null where there is none, read under a type.
#[inline(always)]
pub(crate) fn read_part<T: Decode>(
    alloc: Global,
    type_info: PgTypeInfo,
    part: Option<&str>,
) -> Result<T, CodecError>
    ensures { Gives T.view (T.parse (given type_info Text (option_copied part.entry))) result }
{
    T::decode(alloc, PgValueRef::of_text(part, type_info))
}

/// Bytes in binary as a value of a type.
#[inline(always)]
pub(crate) fn binary_value(bytes: &[u8], type_info: PgTypeInfo) -> PgValueRef<'_>
    ensures { result ≡ given type_info Binary (Some bytes.now) }
{
    PgValueRef::new(Some(bytes), type_info, PgValueFormat::Binary)
}
