//! The heads of arrays in binary (PostgreSQL, "Arrays"; array_send).

ghost use Rattle.std.specs.Prelude.{◌≤◌, length, IfSome, option_map};
ghost use Rattle.pgv_types.specs.LentParts.{ref_type};
ghost use Rattle.pgv_value.specs.Outcome.{Gives, copied_type};
ghost use Rattle.pgv_value.specs.Parsed.{GivesFront, GivesOr};
ghost use Rattle.pgv_value.specs.declared.error.CodecError.TheVariants.{ElementType};
ghost use Rattle.pgv_codec.specs.ArrayGrammar.{element_type, head, one_dimension};
ghost use Rattle.pgv_codec.specs.HeadsView.{head_shown};

use pgv_types::{Oid, PgTypeInfo, PgTypeRef};
use pgv_value::{CodecError, MAX_LENGTH, u32_in_front};

/// What comes before the frames of an array's elements, and these frames.
#[derive(Drop)]
pub struct ArrayHead<'a> {
    /// The type of the elements.
    pub element: PgTypeInfo,
    /// How many elements there are; at most 2147483647.
    pub count: u32,
    /// The frames of the elements, and whatever comes after them.
    pub frames: &'a [u8],
}

/// The head of an array; `None` if the array has no dimensions and so no elements. Bytes that end too early are refused
/// with [`Short`](CodecError::Short) (C15), a negative number of elements with
/// [`NegativeLength`](CodecError::NegativeLength) (C16), more dimensions than one with
/// [`Dimensions`](CodecError::Dimensions) (C19), a lower bound other than 1 with [`LowerBound`](CodecError::LowerBound)
/// (C20), and elements of a type that neither the OID nor the array's type gives with
/// [`ElementType`](CodecError::ElementType) (C21). Out of memory (C1) comes only where the elements are of a custom
/// type, which is copied.
#[tactic(auto, unfolding(crate::specs::ArrayGrammar::head))]
pub fn array_head_of<'a>(
    type_info: &PgTypeInfo,
    bytes: &'a [u8],
) -> Result<Option<ArrayHead<'a>>, CodecError>
    ensures { GivesFront (Gives (option_map head_shown) (head type_info.now bytes.now))
        (λ found. IfSome found (λ h. length h.frames.now ≤ length bytes.now)) result }
{
    let (dimensions, rest) = u32_in_front(bytes)?;
    match dimensions {
        0 => Ok(None),
        1 => Ok(Some(one_dimension_of(type_info, rest)?)),
        _ => Err(CodecError::Dimensions(dimensions.cast_signed())),
    }
}

/// The head after the number of dimensions, where that is one.
#[tactic(auto, unfolding(crate::specs::ArrayGrammar::one_dimension))]
fn one_dimension_of<'a>(
    type_info: &PgTypeInfo,
    bytes: &'a [u8],
) -> Result<ArrayHead<'a>, CodecError>
    ensures { GivesFront (Gives head_shown (one_dimension type_info.now bytes.now))
        (λ h. length h.frames.now ≤ length bytes.now) result }
{
    let (_flags, rest) = u32_in_front(bytes)?;
    let (oid, rest) = u32_in_front(rest)?;
    let element = element_type_of(type_info, Oid(oid))?;
    let (count, rest) = u32_in_front(rest)?;
    if count > MAX_LENGTH {
        return Err(CodecError::NegativeLength(count.cast_signed()));
    }
    let (lower_bound, frames) = u32_in_front(rest)?;
    if lower_bound != 1 {
        return Err(CodecError::LowerBound(lower_bound.cast_signed()));
    }
    Ok(ArrayHead {
        element: owned(element)?,
        count,
        frames,
    })
}

/// The type of the elements: the built-in type of the OID, else the element of the array's type.
fn element_type_of(type_info: &PgTypeInfo, oid: Oid) -> Result<PgTypeRef<'_>, CodecError>
    ensures { GivesOr ref_type (element_type type_info.now oid.0) (ElementType oid) result }
{
    if let Some(element) = PgTypeInfo::try_from_oid(oid) {
        return Ok(PgTypeRef::Owned(element));
    }
    match type_info.array_element() {
        Some(element) => Ok(element),
        None => Err(CodecError::ElementType(oid)),
    }
}

/// The type itself. One that is borrowed is copied.
fn owned(type_ref: PgTypeRef<'_>) -> Result<PgTypeInfo, CodecError>
    ensures { Gives (λ t. t) (copied_type (ref_type type_ref.entry)) result }
{
    match type_ref {
        PgTypeRef::Owned(type_info) => Ok(type_info),
        PgTypeRef::Borrowed(type_info) => Ok(type_info.clone()?),
    }
}
