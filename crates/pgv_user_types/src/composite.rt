//! A composite by its fields (PostgreSQL, "Composite Types").

ghost use Rattle.std.specs.Prelude.{◌≡◌, List, ℕ, OnErr};
ghost use Rattle.pgv_codec.specs.Appending.{Encodes, Extends};
ghost use Rattle.pgv_codec.specs.Encoding.{record_image};

use pgv_codec::{
    Codec, CodecList, Decode, Encode, FieldList, IsNull, KeptList, PgArgumentBuffer,
    PgHasArrayType, PgRecordDecoder, ReadBack, Type,
};
use pgv_types::PgTypeInfo;
use pgv_value::{CodecError, PgValueRef};
use std::alloc::{AllocError, Global};

/// A Rust struct that is a composite of the server, which is known by its name, by the list of its fields.
pub trait Composite: Sized + Drop {
    /// The fields, in nested pairs that end in a tuple of one: `(i32, (PgLTree,))`.
    type Fields: KeptList;

    /// The name of the type.
    ghost name: { List ℕ };

    /// The fields of a value.
    ghost fields_of: { Self → Self.Fields };

    /// The value of fields.
    ghost made: { Self.Fields → Self };

    /// A value that is made of fields has these.
    ghost made_of: { (fields : Self.Fields) → fields_of (made fields) ≡ fields };

    /// The name of the type, as the server has it.
    fn name() -> &'static str
        ensures { result.now ≡ name };

    /// Writes the fields, by [`encode_record`](pgv_codec::encode_record):
    /// `encode_record(&(&self.id, (&self.path,)), out)`.
    fn encode_fields(&self, out: &mut PgArgumentBuffer) -> Result<IsNull, CodecError>
        ensures encodes { Encodes (record_image (Self.Fields.fields (fields_of self.now)))
            out.old out.new result }
        ensures appended { OnErr result (Extends out.old out.new) };

    /// The value of fields.
    fn from_fields(fields: Self::Fields) -> Self
        ensures { fields_of result ≡ fields };
}

/// A value of a composite, written and read as a record of its fields. The `int4` 7 and the `text` `a` are
/// `00000002 00000017 00000004 00000007 00000019 00000001 61`. It is read under the composite's type, where this names
/// its fields, and under `record`; a type of which only the name is known is refused with
/// [`NotARecord`](CodecError::NotARecord) (C24).
#[derive(Clone, Copy, Debug, PartialEq, Eq)]
pub struct PgComposite<T>(pub T);

/// The type of this name.
impl<T: Composite> Type for PgComposite<T> {
    ghost use Rattle.pgv_types.specs.Ty.{named};
    ghost use Rattle.pgv_types.specs.Relations.{softly};

    ghost info = { named T.name };

    ghost accepts = { λ t. softly t (named T.name) };

    fn type_info() -> PgTypeInfo {
        PgTypeInfo::with_name(T::name())
    }

    fn compatible(type_info: &PgTypeInfo) -> bool {
        type_info.type_compatible(&Self::type_info())
    }
}

/// The array of the type of this name.
impl<T: Composite> PgHasArrayType for PgComposite<T> {
    ghost use Rattle.pgv_types.specs.Ty.{array_of};
    ghost use Rattle.pgv_types.specs.Relations.{softly};

    ghost array_info = { array_of T.name };

    ghost accepts_array = { λ t. softly t (array_of T.name) };

    fn array_type_info() -> PgTypeInfo {
        PgTypeInfo::array_of(T::name())
    }

    fn array_compatible(type_info: &PgTypeInfo) -> bool {
        type_info.type_compatible(&Self::array_type_info())
    }
}

/// Written as a record of its fields, and refused as the first that can't be written.
impl<T: Composite> Encode for PgComposite<T> {
    ghost use Rattle.pgv_codec.specs.Encoding.{plainly};

    ghost encoding = { λ v. plainly (record_image (T.Fields.fields (T.fields_of v.0))) };

    fn encode_by_ref(&self, out: &mut PgArgumentBuffer) -> Result<IsNull, CodecError> {
        self.0.encode_fields(out)
    }

    fn size_hint(&self) -> usize {
        0
    }

    fn produces(&self) -> Result<Option<PgTypeInfo>, AllocError> {
        Ok(None)
    }
}

/// Read, and refused, as the first fields of a record, under each type that names a field for each; further fields are
/// ignored.
impl<T: Composite> Decode for PgComposite<T> {
    ghost use Rattle.std.specs.Prelude.{refl};
    ghost use Rattle.pgv_codec.specs.Encoding.{plainly, record_image};
    ghost use Rattle.pgv_codec.specs.RecordGrammar.{parse_record};

    ghost View = { T.Fields.View };

    ghost view = { λ v. T.Fields.view (T.fields_of v.0) };

    ghost parse = { parse_record T.Fields.step };

    ghost written = { λ _ says. plainly (record_image (T.Fields.written_fields says)) };

    ghost null = { λ _ _. (refl, refl) };

    fn decode(alloc: Global, value: PgValueRef<'_>) -> Result<PgComposite<T>, CodecError> {
        let mut fields = PgRecordDecoder::new(alloc, value)?;
        let list = T::Fields::read(&mut fields)?;
        Ok(PgComposite(T::from_fields(list)))
    }
}

/// Read back where each field is, as the list of its fields says.
impl<T: Composite> ReadBack for PgComposite<T> {
    ghost use Rattle.pgv_user_types.specs.Composites.{composite_back};

    ghost kept = { λ v. record { 0 = T.made (T.Fields.kept (T.fields_of v.0)) } };

    ghost fits = { λ v t oids. T.Fields.fits (T.fields_of v.0) t 0 oids };

    ghost reads_back = { λ v. composite_back T.fields_of T.made T.Fields.fields T.Fields.step
        T.Fields.view T.Fields.kept T.Fields.fits T.made_of T.Fields.reads_back v.0 };
}

/// Written by what it says alone, where each field is.
impl<T: Composite> Codec for PgComposite<T>
where
    T::Fields: CodecList,
{
    ghost use Rattle.pgv_user_types.specs.Composites.{record_agrees};

    ghost agrees = { λ v. record_agrees (T.Fields.agrees (T.fields_of v.0)) };
}
