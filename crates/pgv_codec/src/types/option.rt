//! Values that may be null.

ghost use Rattle.std.specs.Prelude.{Option, option_map, Some, None, refl};
ghost use Rattle.pgv_codec.specs.Encoding.{option_encoding};
ghost use Rattle.pgv_codec.specs.Nullable.{nullable};
ghost use Rattle.pgv_codec.specs.Back.{option_kept, option_fits};
ghost use Rattle.pgv_codec.specs.NestBackLemmas.{option_back};

use crate::buffer::{IsNull, PgArgumentBuffer};
use crate::traits::{Codec, Decode, Encode, PgHasArrayType, ReadBack, Type};
use pgv_types::PgTypeInfo;
use pgv_value::{CodecError, PgValueRef};
use std::alloc::{AllocError, Global};

/// The type of `T`, read under the types of `T`.
impl<T: Type> Type for Option<T> {
    ghost info = { T.info };

    ghost accepts = { T.accepts };

    #[inline(always)]
    fn type_info() -> PgTypeInfo {
        T::type_info()
    }

    #[inline(always)]
    fn compatible(type_info: &PgTypeInfo) -> bool {
        T::compatible(type_info)
    }
}

/// An array of them is one of `T`: null is a value of every type.
impl<T: PgHasArrayType> PgHasArrayType for Option<T> {
    ghost array_info = { T.array_info };

    ghost accepts_array = { T.accepts_array };

    fn array_type_info() -> PgTypeInfo {
        T::array_type_info()
    }

    fn array_compatible(type_info: &PgTypeInfo) -> bool {
        T::array_compatible(type_info)
    }
}

/// `None` is written as null, the length `ffffffff` without bytes after it, and `Some` as its value.
impl<T: Encode + Type> Encode for Option<T> {
    ghost encoding = { option_encoding T.info T.encoding };

    #[inline(always)]
    fn encode_by_ref(&self, out: &mut PgArgumentBuffer) -> Result<IsNull, CodecError> {
        match self {
            None => Ok(IsNull::Yes),
            Some(value) => value.encode_by_ref(out),
        }
    }

    #[inline(always)]
    fn size_hint(&self) -> usize {
        match self {
            None => 0,
            Some(value) => value.size_hint(),
        }
    }

    #[inline(always)]
    fn produces(&self) -> Result<Option<PgTypeInfo>, AllocError> {
        match self {
            None => Ok(Some(T::type_info())),
            Some(value) => value.produces(),
        }
    }

    #[inline(always)]
    #[tactic(auto, using(crate::proofs::OneFrame::null_at_once))]
    fn encode_at_once(&self, out: &mut PgArgumentBuffer) -> Result<bool, CodecError> {
        match self {
            Some(value) => value.encode_at_once(out),
            None => out.push_null(),
        }
    }
}

/// Null is read as `None`, and anything else as `Some` of what the type reads.
impl<T: Decode> Decode for Option<T> {
    ghost View = { Option T.View };

    ghost view = { option_map T.view };

    ghost parse = { nullable T.parse };

    ghost written = { λ info. option_encoding info (T.written info) };

    ghost null = { λ _ _. tt };

    #[inline(always)]
    fn decode(alloc: Global, value: PgValueRef<'_>) -> Result<Option<T>, CodecError> {
        if value.is_null() {
            return Ok(None);
        }
        Ok(Some(T::decode(alloc, value)?))
    }

    #[inline(always)]
    fn decode_by_ref(alloc: Global, value: &PgValueRef<'_>) -> Result<Option<T>, CodecError> {
        if value.is_null() {
            return Ok(None);
        }
        Ok(Some(T::decode_by_ref(alloc, value)?))
    }

    #[inline(always)]
    fn width_at_once() -> usize {
        T::width_at_once()
    }

    #[inline(always)]
    fn decode_at_once(bytes: &[u8]) -> Option<Option<T>> {
        match T::decode_at_once(bytes) {
            Some(value) => Some(Some(value)),
            None => None,
        }
    }
}

/// `None` is read back, and so is `Some` if its value is; but a value that is written as null is read back as `None`.
impl<T: ReadBack + Type> ReadBack for Option<T> {
    ghost kept = { option_kept T.encoding T.kept };

    ghost fits = { option_fits T.fits };

    ghost reads_back = { option_back T.info T.encoding T.parse T.view T.kept T.fits T.reads_back };
}

impl<T: Codec> Codec for Option<T> {
    ghost agrees = { elim [ None ↦ refl | Some v ↦ T.agrees v ] };
}
