//! A newtype by what it holds.

ghost use Rattle.std.specs.Prelude.{◌≡◌};

use pgv_codec::{Codec, Decode, Encode, IsNull, PgArgumentBuffer, PgHasArrayType, ReadBack, Type};
use pgv_types::PgTypeInfo;
use pgv_value::{CodecError, PgValueRef};
use std::alloc::{AllocError, Global};

/// A Rust type that holds one value of another, as `struct UserId(i32)` or `struct Tags(Vec<String>)` does, and is that
/// type on the server.
pub trait Newtype: Sized + Drop {
    /// The type that it holds.
    type Base: ReadBack;

    /// What a value holds.
    ghost base: { Self → Self.Base };

    /// The value that holds this.
    ghost made: { Self.Base → Self };

    /// A value that is made of this holds it.
    ghost made_of: { (held : Self.Base) → base (made held) ≡ held };

    /// What the value holds.
    fn as_base(&self) -> &Self::Base
        ensures { result.now ≡ base self.now };

    /// The value that holds this.
    fn from_base(held: Self::Base) -> Self
        ensures { base result ≡ held };
}

/// A newtype's value, written and read as what it holds: one that holds the `int4` 7 is `00000007`.
#[derive(Clone, Copy, Debug, PartialEq, Eq)]
pub struct PgNewtype<T>(pub T);

/// The type of what it holds.
impl<T: Newtype> Type for PgNewtype<T>
where
    T::Base: Type,
{
    ghost info = { T.Base.info };

    ghost accepts = { T.Base.accepts };

    fn type_info() -> PgTypeInfo {
        T::Base::type_info()
    }

    fn compatible(type_info: &PgTypeInfo) -> bool {
        T::Base::compatible(type_info)
    }
}

/// The array type of what it holds.
impl<T: Newtype> PgHasArrayType for PgNewtype<T>
where
    T::Base: PgHasArrayType,
{
    ghost array_info = { T.Base.array_info };

    ghost accepts_array = { T.Base.accepts_array };

    fn array_type_info() -> PgTypeInfo {
        T::Base::array_type_info()
    }

    fn array_compatible(type_info: &PgTypeInfo) -> bool {
        T::Base::array_compatible(type_info)
    }
}

/// Written as what it holds.
impl<T: Newtype> Encode for PgNewtype<T> {
    ghost encoding = { λ v. T.Base.encoding (T.base v.0) };

    fn encode_by_ref(&self, out: &mut PgArgumentBuffer) -> Result<IsNull, CodecError> {
        self.0.as_base().encode_by_ref(out)
    }

    fn size_hint(&self) -> usize {
        self.0.as_base().size_hint()
    }

    fn produces(&self) -> Result<Option<PgTypeInfo>, AllocError> {
        self.0.as_base().produces()
    }
}

/// Read as what it holds.
impl<T: Newtype> Decode for PgNewtype<T> {
    ghost View = { T.Base.View };

    ghost view = { λ v. T.Base.view (T.base v.0) };

    ghost parse = { T.Base.parse };

    ghost null = { T.Base.null };

    ghost written = { T.Base.written };

    fn decode(alloc: Global, value: PgValueRef<'_>) -> Result<PgNewtype<T>, CodecError> {
        Ok(PgNewtype(T::from_base(T::Base::decode(alloc, value)?)))
    }

    fn decode_by_ref(alloc: Global, value: &PgValueRef<'_>) -> Result<PgNewtype<T>, CodecError> {
        Ok(PgNewtype(T::from_base(T::Base::decode_by_ref(alloc, value)?)))
    }
}

/// Read back where what it holds is.
impl<T: Newtype> ReadBack for PgNewtype<T> {
    ghost use Rattle.pgv_user_types.specs.Newtypes.{newtype_back};

    ghost kept = { λ v. record { 0 = T.made (T.Base.kept (T.base v.0)) } };

    ghost fits = { λ v. T.Base.fits (T.base v.0) };

    ghost reads_back = { λ v. newtype_back T.base T.made T.Base.encoding T.Base.parse T.Base.view
        T.Base.kept T.Base.fits T.made_of T.Base.reads_back v.0 };
}

/// Written by what it says alone, where what it holds is.
impl<T: Newtype> Codec for PgNewtype<T>
where
    T::Base: Codec,
{
    ghost agrees = { λ v. T.Base.agrees (T.base v.0) };
}
