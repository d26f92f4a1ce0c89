//! A record of any fields (PostgreSQL, "Composite Types": `record`).

use pgv_codec::{
    Codec, CodecList, Decode, Encode, FieldList, IsNull, KeptList, PgArgumentBuffer,
    PgHasArrayType, PgRecordDecoder, ReadBack, Type, WrittenList, encode_record,
};
use pgv_types::{PgType, PgTypeInfo};
use pgv_value::{CodecError, PgValueRef};
use std::alloc::{AllocError, Global};

/// Values of any types as one `record`, in nested pairs that end in a tuple of one: `PgRecord((7, ("a",)))`. A tuple of
/// Rust is read as a record, and this is written too: as `00000002 00000017 00000004 00000007 00000019 00000001 61`.
#[derive(Clone, Copy, Debug, PartialEq, Eq)]
pub struct PgRecord<Fields>(pub Fields);

/// `record` (OID 2249).
impl<Fields> Type for PgRecord<Fields> {
    ghost use Rattle.pgv_types.specs.Ty.{builtin};
    ghost use Rattle.pgv_types.specs.Relations.{softly};

    ghost info = { builtin 2249 };

    ghost accepts = { λ t. softly t (builtin 2249) };

    fn type_info() -> PgTypeInfo {
        PgTypeInfo(PgType::Record)
    }

    fn compatible(type_info: &PgTypeInfo) -> bool {
        type_info.type_compatible(&Self::type_info())
    }
}

/// `record[]` (OID 2287).
impl<Fields> PgHasArrayType for PgRecord<Fields> {
    ghost use Rattle.pgv_types.specs.Ty.{builtin};
    ghost use Rattle.pgv_types.specs.Relations.{softly};

    ghost array_info = { builtin 2287 };

    ghost accepts_array = { λ t. softly t (builtin 2287) };

    fn array_type_info() -> PgTypeInfo {
        PgTypeInfo(PgType::RecordArray)
    }

    fn array_compatible(type_info: &PgTypeInfo) -> bool {
        type_info.type_compatible(&Self::array_type_info())
    }
}

/// Written as its fields, and refused as the first that can't be written.
impl<Fields: WrittenList> Encode for PgRecord<Fields> {
    ghost use Rattle.pgv_codec.specs.Encoding.{plainly, record_image};

    ghost encoding = { λ v. plainly (record_image (Fields.fields v.0)) };

    fn encode_by_ref(&self, out: &mut PgArgumentBuffer) -> Result<IsNull, CodecError> {
        encode_record(&self.0, out)
    }

    fn size_hint(&self) -> usize {
        0
    }

    fn produces(&self) -> Result<Option<PgTypeInfo>, AllocError> {
        Ok(None)
    }
}

/// Read, and refused, as the first fields of a record, under each type that names a field for each; further fields are
/// ignored.
impl<Fields: FieldList> Decode for PgRecord<Fields> {
    ghost use Rattle.std.specs.Prelude.{refl};
    ghost use Rattle.pgv_codec.specs.Encoding.{plainly, record_image};
    ghost use Rattle.pgv_codec.specs.RecordGrammar.{parse_record};

    ghost View = { Fields.View };

    ghost view = { λ v. Fields.view v.0 };

    ghost parse = { parse_record Fields.step };

    ghost written = { λ _ says. plainly (record_image (Fields.written_fields says)) };

    ghost null = { λ _ _. (refl, refl) };

    fn decode(alloc: Global, value: PgValueRef<'_>) -> Result<PgRecord<Fields>, CodecError> {
        let mut fields = PgRecordDecoder::new(alloc, value)?;
        Ok(PgRecord(Fields::read(&mut fields)?))
    }
}

/// Read back where each field is, as the list of its fields says.
impl<Fields: KeptList> ReadBack for PgRecord<Fields> {
    ghost use Rattle.std.specs.Prelude.{refl};
    ghost use Rattle.pgv_user_types.specs.Composites.{composite_back};

    ghost kept = { λ v. record { 0 = Fields.kept v.0 } };

    ghost fits = { λ v t oids. Fields.fits v.0 t 0 oids };

    ghost reads_back = { λ v. composite_back (λ list. list) (λ list. list) Fields.fields Fields.step
        Fields.view Fields.kept Fields.fits (λ _. refl) Fields.reads_back v.0 };
}

/// Written by what it says alone, where each field is.
impl<Fields: CodecList> Codec for PgRecord<Fields> {
    ghost use Rattle.pgv_user_types.specs.Composites.{record_agrees};

    ghost agrees = { λ v. record_agrees (Fields.agrees v.0) };
}
