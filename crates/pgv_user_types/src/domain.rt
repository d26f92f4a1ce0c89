//! A domain by its name and the type that it is over (PostgreSQL, "Domain Types").

ghost use Rattle.std.specs.Prelude.{◌≡◌, List, ℕ};

use crate::newtype::Newtype;
use pgv_codec::{Codec, Decode, Encode, IsNull, PgArgumentBuffer, PgHasArrayType, ReadBack, Type};
use pgv_types::PgTypeInfo;
use pgv_value::{CodecError, PgValueRef};
use std::alloc::{AllocError, Global};

/// A Rust type of a domain of the server, which is known by its name and is over the type of what a value holds.
pub trait Domain: Newtype {
    /// The name of the domain.
    ghost name: { List ℕ };

    /// The name of the domain, as the server has it.
    fn name() -> &'static str
        ensures { result.now ≡ name };
}

/// A value of a domain, written and read as what it holds, and sent as the domain: one over `text` that holds `a` is
/// `61`.
#[derive(Clone, Copy, Debug, PartialEq, Eq)]
pub struct PgDomain<T>(pub T);

/// The type of this name. A value is read under it, and under each type under which what it holds is read, since the
/// server describes a column of a domain by the type under it.
impl<T: Domain> Type for PgDomain<T>
where
    T::Base: Type,
{
    ghost use Rattle.std.specs.Prelude.{◌||◌};
    ghost use Rattle.pgv_types.specs.Ty.{named};
    ghost use Rattle.pgv_types.specs.Relations.{softly};

    ghost info = { named T.name };

    ghost accepts = { λ t. softly t (named T.name) || T.Base.accepts t };

    fn type_info() -> PgTypeInfo {
        PgTypeInfo::with_name(T::name())
    }

    fn compatible(type_info: &PgTypeInfo) -> bool {
        type_info.type_compatible(&Self::type_info()) || T::Base::compatible(type_info)
    }
}

/// The array of the type of this name.
impl<T: Domain> PgHasArrayType for PgDomain<T> {
    ghost use Rattle.pgv_types.specs.Ty.{array_of};
    ghost use Rattle.pgv_types.specs.Relations.{softly};

    ghost array_info = { array_of T.name };

    ghost accepts_array = { λ t. softly t (array_of T.name) };

    fn array_type_info() -> PgTypeInfo {
        PgTypeInfo::array_of(T::name())
    }

    fn array_compatible(type_info: &PgTypeInfo) -> bool {
        type_info.type_compatible(&Self::array_type_info())
    }
}

/// Written as what it holds.
impl<T: Domain> Encode for PgDomain<T> {
    ghost encoding = { λ v. T.Base.encoding (T.base v.0) };

    fn encode_by_ref(&self, out: &mut PgArgumentBuffer) -> Result<IsNull, CodecError> {
        self.0.as_base().encode_by_ref(out)
    }

    fn size_hint(&self) -> usize {
        self.0.as_base().size_hint()
    }

    fn produces(&self) -> Result<Option<PgTypeInfo>, AllocError> {
        self.0.as_base().produces()
    }
}

/// Read as what it holds.
impl<T: Domain> Decode for PgDomain<T>
where
    T::Base: Type,
{
    ghost View = { T.Base.View };

    ghost view = { λ v. T.Base.view (T.base v.0) };

    ghost parse = { T.Base.parse };

    ghost null = { T.Base.null };

    ghost written = { λ _. T.Base.written T.Base.info };

    fn decode(alloc: Global, value: PgValueRef<'_>) -> Result<PgDomain<T>, CodecError> {
        Ok(PgDomain(T::from_base(T::Base::decode(alloc, value)?)))
    }

    fn decode_by_ref(alloc: Global, value: &PgValueRef<'_>) -> Result<PgDomain<T>, CodecError> {
        Ok(PgDomain(T::from_base(T::Base::decode_by_ref(alloc, value)?)))
    }
}

/// Read back where what it holds is.
impl<T: Domain> ReadBack for PgDomain<T>
where
    T::Base: Type,
{
    ghost use Rattle.pgv_user_types.specs.Newtypes.{newtype_back};

    ghost kept = { λ v. record { 0 = T.made (T.Base.kept (T.base v.0)) } };

    ghost fits = { λ v. T.Base.fits (T.base v.0) };

    ghost reads_back = { λ v. newtype_back T.base T.made T.Base.encoding T.Base.parse T.Base.view
        T.Base.kept T.Base.fits T.made_of T.Base.reads_back v.0 };
}

/// Written by what it says alone, where what it holds is.
impl<T: Domain> Codec for PgDomain<T>
where
    T::Base: Codec,
{
    ghost agrees = { λ v. T.Base.agrees (T.base v.0) };
}
