//! References: written as what they refer to, so that a caller's encoder can write the fields of `self`.

use crate::buffer::{IsNull, PgArgumentBuffer};
use crate::traits::{Encode, PgHasArrayType, Type};
use pgv_types::PgTypeInfo;
use pgv_value::CodecError;
use std::alloc::AllocError;

/// The type of what it refers to.
impl<T: Type> Type for &T {
    ghost info = { T.info };

    ghost accepts = { T.accepts };

    fn type_info() -> PgTypeInfo {
        T::type_info()
    }

    #[inline(always)]
    fn compatible(type_info: &PgTypeInfo) -> bool {
        T::compatible(type_info)
    }
}

/// The arrays of what it refers to.
impl<T: PgHasArrayType> PgHasArrayType for &T {
    ghost array_info = { T.array_info };

    ghost accepts_array = { T.accepts_array };

    fn array_type_info() -> PgTypeInfo {
        T::array_type_info()
    }

    fn array_compatible(type_info: &PgTypeInfo) -> bool {
        T::array_compatible(type_info)
    }
}

/// Written as what it refers to.
impl<T: Encode> Encode for &T {
    ghost encoding = { λ r. T.encoding r.now };

    fn encode_by_ref(&self, out: &mut PgArgumentBuffer) -> Result<IsNull, CodecError> {
        (**self).encode_by_ref(out)
    }

    fn size_hint(&self) -> usize {
        (**self).size_hint()
    }

    fn produces(&self) -> Result<Option<PgTypeInfo>, AllocError> {
        (**self).produces()
    }

    #[inline(always)]
    fn encode_at_once(&self, out: &mut PgArgumentBuffer) -> Result<bool, CodecError> {
        (**self).encode_at_once(out)
    }
}
