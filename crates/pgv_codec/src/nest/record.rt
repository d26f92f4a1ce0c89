//! The fields of records in binary, up to their frames (PostgreSQL, "Composite Types"; record_send).

ghost use Rattle.std.specs.Prelude.{◌≡◌, ◌+◌, None, length, slice_get, option_map};
ghost use Rattle.pgv_types.specs.Facts.{domain_base};
ghost use Rattle.pgv_value.specs.Outcome.{Gives};
ghost use Rattle.pgv_value.specs.Parsed.{GivesFront};
ghost use Rattle.pgv_codec.specs.RecordGrammar.{by_own_oid, field_head, field_type};
ghost use Rattle.pgv_codec.specs.RecordGrammar as spec;

use pgv_types::{Oid, PgBuiltIn, PgType, PgTypeInfo, PgTypeKindRef};
use pgv_value::{CodecError, u32_in_front};
use std::rc::RcStr;

/// The OID of the type `record`.
const RECORD: Oid = Oid(2249);

/// The type of the next field of a record, the one at `place`, and the bytes after its OID. Where no byte is left, or a
/// composite type has no field at this place, it is refused with [`NoField`](CodecError::NoField) (C25), bytes that end
/// too early with [`Short`](CodecError::Short) (C15), another OID than the composite's field has with
/// [`FieldOid`](CodecError::FieldOid) (C26), an OID that is no built-in type's under `record` with
/// [`FieldTypeUnknown`](CodecError::FieldTypeUnknown) (C28), and a type that is not a record with
/// [`NotARecord`](CodecError::NotARecord) (C24). Out of memory (C1) comes only from a field of a custom type, which is
/// copied.
#[tactic(auto, unfolding(crate::specs::RecordGrammar::field_head))]
pub fn field_head_of<'r>(
    type_info: &PgTypeInfo,
    place: usize,
    bytes: &'r [u8],
) -> Result<(PgTypeInfo, &'r [u8]), CodecError>
    ensures { GivesFront (Gives (λ h. (h.0, h.1.now)) (field_head type_info.now place bytes.now))
        (λ h. length h.1.now + 4 ≡ length bytes.now) result }
{
    if bytes.is_empty() {
        return Err(CodecError::NoField(place));
    }
    let (oid, rest) = u32_in_front(bytes)?;
    Ok((field_type_of(type_info, place, Oid(oid))?, rest))
}

/// The type of the field at a place that has this OID.
#[tactic(auto, using(crate::proofs::FieldTypes::type_under))]
fn field_type_of(type_info: &PgTypeInfo, place: usize, oid: Oid) -> Result<PgTypeInfo, CodecError>
    ensures { Gives (λ t. t) (field_type type_info.now place oid.0) result }
{
    field_type_under(type_info.under_domains(), place, oid)
}

/// The same of a type that is no domain.
fn field_type_under(base: &PgTypeInfo, place: usize, oid: Oid) -> Result<PgTypeInfo, CodecError>
    requires { domain_base base.now ≡ None }
    ensures { Gives (λ t. t) (field_type base.now place oid.0) result }
{
    match &base.0 {
        PgType::BuiltIn(PgBuiltIn::Record) => by_own_oid_of(RECORD, oid),
        PgType::Custom(custom) => match custom.kind() {
            PgTypeKindRef::Simple => by_own_oid_of(custom.oid(), oid),
            PgTypeKindRef::Composite(fields) => composite_field(fields, place, oid),
            // It is no record: what is under all domains.
            PgTypeKindRef::Domain(_base) => Err(CodecError::NotARecord),
            _ => Err(CodecError::NotARecord),
        },
        _ => Err(CodecError::NotARecord),
    }
}

/// The type of a field of a record whose type says nothing of its fields.
fn by_own_oid_of(own: Oid, oid: Oid) -> Result<PgTypeInfo, CodecError>
    ensures { Gives (λ t. t) (by_own_oid own.0 oid.0) result }
{
    if own != RECORD {
        return Err(CodecError::NotARecord);
    }
    match PgTypeInfo::try_from_oid(oid) {
        Some(type_info) => Ok(type_info),
        None => Err(CodecError::FieldTypeUnknown(oid)),
    }
}

/// The type of the field at a place of a composite type, if it has this OID.
fn composite_field(
    fields: &[(RcStr, PgTypeInfo)],
    place: usize,
    oid: Oid,
) -> Result<PgTypeInfo, CodecError>
    ensures { let named = option_map (λ field. field.1) (slice_get fields.now place) in
        Gives (λ t. t) (spec.composite_field place named oid.0) result }
{
    let Some((_name, type_info)) = fields.get(place) else {
        return Err(CodecError::NoField(place));
    };
    if !type_info.has_oid(oid) {
        return Err(CodecError::FieldOid);
    }
    Ok(type_info.clone()?)
}
