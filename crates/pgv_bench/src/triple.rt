//! A composite type of three fields.

use pgv_codec::{Encode, IsNull, PgArgumentBuffer, Type, WrittenList, encode_record};
use pgv_types::PgTypeInfo;
use pgv_value::CodecError;
use std::alloc::AllocError;

/// A number, a text and a truth value.
#[derive(Drop)]
pub struct Triple {
    /// The first field, an `int4`.
    pub id: i32,
    /// The second field, a `text`.
    pub name: String,
    /// The third field, a `bool`.
    pub on: bool,
}

impl Type for Triple {
    ghost use Rattle.std.specs.Prelude.{codes};
    ghost use Rattle.pgv_types.specs.Ty.{named};
    ghost use Rattle.pgv_types.specs.Relations.{softly};

    ghost info = { named (codes "triple") };

    ghost accepts = { λ t. softly t (named (codes "triple")) };

    fn type_info() -> PgTypeInfo {
        PgTypeInfo::with_name("triple")
    }

    fn compatible(type_info: &PgTypeInfo) -> bool {
        type_info.type_compatible(&Self::type_info())
    }
}

impl Encode for Triple {
    ghost use Rattle.pgv_codec.specs.Encoding.{plainly, record_image};

    ghost encoding = { λ v. plainly (record_image (⟦<(i32, (String, (bool,))) as WrittenList>⟧.fields (v.id, (v.name, record { 0 = v.on })))) };

    fn encode_by_ref(&self, out: &mut PgArgumentBuffer) -> Result<IsNull, CodecError> {
        encode_record(&(&self.id, (&self.name, (&self.on,))), out)
    }

    fn size_hint(&self) -> usize {
        0
    }

    fn produces(&self) -> Result<Option<PgTypeInfo>, AllocError> {
        Ok(None)
    }
}
