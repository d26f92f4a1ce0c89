//! A plain type by how its bytes are written and read (PostgreSQL, "Base Types"), and ranges of it.

ghost use Rattle.std.specs.Prelude.{◌≡◌, List, ℕ, OnErr};
ghost use Rattle.pgv_value.specs.Outcome.{Gives};
ghost use Rattle.pgv_codec.specs.Appending.{Encodes, Extends};
ghost use Rattle.pgv_user_types.specs.Plains.{PlainRules};

use pgv_codec::{Encode, IsNull, PgArgumentBuffer, PgHasArrayType, Plain, Type};
use pgv_range::PgHasRangeType;
use pgv_types::PgTypeInfo;
use pgv_value::{CodecError, PgValueRef};
use std::alloc::{AllocError, Global};

/// A Rust type whose values are not made of others, as a number or a text, and which says how they are written and
/// read.
pub trait PlainCodec: Sized + Drop {
    /// Its types, what is written of a value, what is read, and the proof that it is read back.
    ghost rules: { PlainRules Self };

    /// The type of its values.
    fn type_info() -> PgTypeInfo
        ensures { result ≡ rules.info };

    /// Whether its values are read under this type.
    fn compatible(type_info: &PgTypeInfo) -> bool
        ensures { result ≡ rules.accepts type_info.now };

    /// The type of arrays of its values. They are read under it and domains over it.
    fn array_type_info() -> PgTypeInfo
        ensures { result ≡ rules.array_info };

    /// Appends the value's image: what [`Encode::encode_by_ref`] does.
    fn write(&self, out: &mut PgArgumentBuffer) -> Result<IsNull, CodecError>
        ensures encodes { Encodes (rules.image (rules.view self.now)) out.old out.new result }
        ensures appended { OnErr result (Extends out.old out.new) };

    /// The value that is read: what [`Decode::decode`](pgv_codec::Decode::decode) answers.
    fn read(alloc: Global, value: &PgValueRef<'_>) -> Result<Self, CodecError>
        ensures { Gives rules.view (rules.parse value.now) result };
}

/// A value of a plain type, written and read as the type says: one of `float8` that is 1.0 is `3ff0000000000000`.
#[derive(Clone, Copy, Debug, PartialEq, Eq)]
pub struct PgPlain<T>(pub T);

/// The type that it says.
impl<T: PlainCodec> Type for PgPlain<T> {
    ghost info = { T.rules.info };

    ghost accepts = { T.rules.accepts };

    fn type_info() -> PgTypeInfo {
        T::type_info()
    }

    fn compatible(type_info: &PgTypeInfo) -> bool {
        T::compatible(type_info)
    }
}

/// The array type that it says.
impl<T: PlainCodec> PgHasArrayType for PgPlain<T> {
    ghost use Rattle.pgv_types.specs.Relations.{softly};

    ghost array_info = { T.rules.array_info };

    ghost accepts_array = { λ t. softly t T.rules.array_info };

    fn array_type_info() -> PgTypeInfo {
        T::array_type_info()
    }

    fn array_compatible(type_info: &PgTypeInfo) -> bool {
        type_info.type_compatible(&Self::array_type_info())
    }
}

/// Written as it says, without a size hint.
impl<T: PlainCodec> Encode for PgPlain<T> {
    ghost use Rattle.pgv_codec.specs.Encoding.{plainly};

    ghost encoding = { λ v. plainly (T.rules.image (T.rules.view v.0)) };

    fn encode_by_ref(&self, out: &mut PgArgumentBuffer) -> Result<IsNull, CodecError> {
        self.0.write(out)
    }

    fn size_hint(&self) -> usize {
        0
    }

    fn produces(&self) -> Result<Option<PgTypeInfo>, AllocError> {
        Ok(None)
    }
}

/// Read as it says, and read back under every type.
impl<T: PlainCodec> Plain for PgPlain<T> {
    ghost use Rattle.std.specs.Prelude.{refl};
    ghost use Rattle.pgv_codec.specs.Encoding.{plainly};

    ghost View = { T.rules.View };

    ghost view = { λ v. T.rules.view v.0 };

    ghost parse = { T.rules.parse };

    ghost null = { T.rules.null };

    ghost written = { λ _ view. plainly (T.rules.image view) };

    fn read(alloc: Global, value: &PgValueRef<'_>) -> Result<PgPlain<T>, CodecError> {
        Ok(PgPlain(T::read(alloc, value)?))
    }

    ghost reads_back = { λ v. T.rules.back v.0 };

    ghost agrees = { λ _. refl };
}

/// A plain type of which the server has ranges, known by the name of their type.
pub trait PlainRange: PlainCodec {
    /// The name of the range type.
    ghost range_name: { List ℕ };

    /// The name of the range type, as the server has it.
    fn range_name() -> &'static str
        ensures { result.now ≡ range_name };
}

/// Ranges have the type of this name, and arrays of them the array of that type.
impl<T: PlainRange> PgHasRangeType for PgPlain<T> {
    ghost use Rattle.pgv_types.specs.Ty.{array_of, named};
    ghost use Rattle.pgv_types.specs.Relations.{softly};

    ghost range_info = { named T.range_name };

    ghost accepts_range = { λ t. softly t (named T.range_name) };

    ghost range_array_info = { array_of T.range_name };

    fn range_type_info() -> PgTypeInfo {
        PgTypeInfo::with_name(T::range_name())
    }

    fn range_compatible(type_info: &PgTypeInfo) -> bool {
        type_info.type_compatible(&Self::range_type_info())
    }

    fn range_array_type_info() -> PgTypeInfo {
        PgTypeInfo::array_of(T::range_name())
    }
}
