//! Empty objects of `json` and `jsonb`: a type with a slot, whose bytes depend on the type of the parameter.

use pgv::{
    CodecError, Encode, IsNull, PgArgumentBuffer, PgType, PgTypeInfo, PgValueRef, Plain, Type,
};
use pgv_examples::slot::push_version;
use std::alloc::{AllocError, Global};

/// An empty object, of `json` or of `jsonb`.
#[derive(Drop)]
pub struct EmptyObject {
    /// What the cases of its slot are allocated by.
    pub alloc: Global,
}

impl Type for EmptyObject {
    ghost use Rattle.pgv.specs.Words.{builtin, softly};

    ghost info = { builtin 114 };

    ghost accepts = { λ t. softly t (builtin 114) };

    fn type_info() -> PgTypeInfo {
        PgTypeInfo(PgType::Json)
    }

    fn compatible(type_info: &PgTypeInfo) -> bool {
        type_info.type_compatible(&Self::type_info())
    }
}

impl Encode for EmptyObject {
    ghost use Rattle.std.specs.Prelude.{Some};
    ghost use Rattle.pgv.specs.Words.{image_of, plainly, writes};
    ghost use Rattle.pgv_fixtures.specs.Objects.{object_image};

    ghost encoding = { λ _. plainly (writes (Some (image_of object_image))) };

    fn encode_by_ref(&self, out: &mut PgArgumentBuffer) -> Result<IsNull, CodecError> {
        push_version(self.alloc, out)?;
        out.extend_from_slice(b"{}")?;
        Ok(IsNull::No)
    }

    fn size_hint(&self) -> usize {
        0
    }

    fn produces(&self) -> Result<Option<PgTypeInfo>, AllocError> {
        Ok(None)
    }
}

/// An empty object, whatever byte is in front of its braces, in either format. Other bytes are refused with
/// [`Syntax`](CodecError::Syntax) (C29), and null with [`UnexpectedNull`](CodecError::UnexpectedNull) (C13). An object
/// comes back, whichever case its slot shows.
impl Plain for EmptyObject {
    ghost use Rattle.std.specs.Prelude.{⊤, Some, refl};
    ghost use Rattle.pgv.specs.Words.{image_of, plainly, without_memory, writes};
    ghost use Rattle.pgv_fixtures.specs.Objects.{object_back, object_image, parse_object};

    ghost View = { ⊤ };

    ghost view = { λ _. tt };

    ghost parse = { without_memory parse_object };

    ghost null = { λ _ _. refl };

    ghost written = { λ _ _. plainly (writes (Some (image_of object_image))) };

    fn read(alloc: Global, value: &PgValueRef<'_>) -> Result<EmptyObject, CodecError> {
        let bytes = value.as_bytes()?;
        if bytes.len() == 3 && bytes[1] == b'{' && bytes[2] == b'}' {
            return Ok(EmptyObject { alloc });
        }
        Err(CodecError::Syntax)
    }

    ghost reads_back = { object_back };

    ghost agrees = { λ _. refl };
}
