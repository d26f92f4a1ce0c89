//! Nothing: the type of a call that answers no value (PostgreSQL, "Pseudo-Types", void). It isn't written.

ghost use Rattle.pgv_codec.specs.Encoding.{unwritten};

use crate::traits::{Decode, Type};
use pgv_types::{PgType, PgTypeInfo};
use pgv_value::{CodecError, PgValueRef};
use std::alloc::Global;

/// `void` (OID 2278), read under `void` and `record`. It is never written.
impl Type for () {
    ghost use Rattle.pgv_types.specs.Ty.{builtin};
    ghost use Rattle.pgv_codec.specs.ScalarImage.{is_void_or_record};

    ghost info = { builtin 2278 };

    ghost accepts = { is_void_or_record };

    fn type_info() -> PgTypeInfo {
        PgTypeInfo(PgType::Void)
    }

    fn compatible(type_info: &PgTypeInfo) -> bool {
        type_info.type_compatible(&PgTypeInfo(PgType::Void))
            || type_info.type_compatible(&PgTypeInfo(PgType::Record))
    }
}

/// Decodes any value, null too, to `()`; the bytes are ignored (PostgreSQL, "Pseudo-Types", void).
impl Decode for () {
    ghost use Rattle.std.specs.Prelude.{⊤};
    ghost use Rattle.pgv_codec.specs.Nullable.{anything};

    ghost View = { ⊤ };

    ghost view = { λ _. tt };

    ghost parse = { anything };

    ghost written = { λ _ _. unwritten };

    ghost null = { λ _ _. tt };

    fn decode(_alloc: Global, value: PgValueRef<'_>) -> Result<(), CodecError> {
        Ok(())
    }
}
