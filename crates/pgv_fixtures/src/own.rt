//! Types of a caller's own for the tests: one that refuses after a byte, a hole and a slot, a range over lists of it,
//! one with a hint that no frame has room for, and one whose values have another type than it says.

use pgv::types::PgRange;
use pgv::{
    CodecError, Decode, Encode, IsNull, Labelled, PgArgumentBuffer, PgEnum, PgHasArrayType, PgType,
    PgTypeInfo, PgValueRef, Type, encode_text,
};
use pgv_examples::mood::Mood;
use pgv_examples::slot::push_version;
use std::alloc::{AllocError, Global};

/// A number of a type that is known by its name alone. Zero is refused with [`Caller(38)`](CodecError::Caller) (C38),
/// after a byte, a hole and a slot.
#[derive(Drop)]
pub struct Size {
    /// What the cases of its slot are allocated by.
    pub alloc: Global,
    /// The number that is written.
    pub number: i32,
}

/// A list of one size.
pub fn sizes(alloc: Global, number: i32) -> Result<Vec<Size>, CodecError> {
    let mut sizes = Vec::new(alloc);
    sizes.push(Size { alloc, number })?;
    Ok(sizes)
}

impl Type for Size {
    ghost use Rattle.std.specs.Prelude.{codes};
    ghost use Rattle.pgv.specs.Words.{named, softly};

    ghost info = { named (codes "size") };

    ghost accepts = { λ t. softly t (named (codes "size")) };

    fn type_info() -> PgTypeInfo {
        PgTypeInfo::with_name("size")
    }

    fn compatible(type_info: &PgTypeInfo) -> bool {
        type_info.type_compatible(&Self::type_info())
    }
}

impl PgHasArrayType for Size {
    ghost use Rattle.std.specs.Prelude.{codes};
    ghost use Rattle.pgv.specs.Words.{array_of, softly};

    ghost array_info = { array_of (codes "size") };

    ghost accepts_array = { λ t. softly t (array_of (codes "size")) };

    fn array_type_info() -> PgTypeInfo {
        PgTypeInfo::array_of("size")
    }

    fn array_compatible(type_info: &PgTypeInfo) -> bool {
        type_info.type_compatible(&Self::array_type_info())
    }
}

impl Encode for Size {
    ghost use Rattle.std.specs.Prelude.{if◌then◌else◌, pos, None};
    ghost use Rattle.std.specs.Ordering.{int_eq};
    ghost use Rattle.std.specs.Int.{w32};
    ghost use Rattle.pgv.specs.Words.{plainly, signed_image, writes};

    ghost encoding = { λ size. plainly (writes (if int_eq size.number (pos 0) then None else signed_image w32 size.number)) };

    fn encode_by_ref(&self, out: &mut PgArgumentBuffer) -> Result<IsNull, CodecError> {
        if self.number == 0 {
            out.push(0)?;
            out.push_hole(PgTypeInfo::with_name("size"))?;
            push_version(self.alloc, out)?;
            return Err(CodecError::Caller(38));
        }
        self.number.encode_by_ref(out)
    }

    fn size_hint(&self) -> usize {
        0
    }

    fn produces(&self) -> Result<Option<PgTypeInfo>, AllocError> {
        Ok(None)
    }
}

impl Decode for Size {
    ghost use Rattle.std.specs.Prelude.{ℤ, refl};
    ghost use Rattle.pgv.specs.Words.{unwritten};

    ghost View = { ℤ };

    ghost view = { λ size. size.number };

    ghost parse = { ⟦<i32 as Decode>⟧.parse };

    ghost written = { λ _ _. unwritten };

    ghost null = { λ _ _. (refl, refl) };

    fn decode(alloc: Global, value: PgValueRef<'_>) -> Result<Size, CodecError> {
        Ok(Size {
            alloc,
            number: i32::decode(alloc, value)?,
        })
    }
}

/// A range of lists of sizes: a type of its own, since an array wants its elements' types, `PgRange` has those that its
/// bounds state, and lists are of another crate.
#[derive(Drop)]
pub struct SizeRange {
    /// The range.
    pub range: PgRange<Vec<Size>>,
}

/// A list of the range from a list of the size 1 to one of the size 2.
pub fn size_ranges(alloc: Global) -> Result<Vec<SizeRange>, CodecError> {
    let mut ranges = Vec::new(alloc);
    ranges.push(SizeRange {
        range: PgRange::from(sizes(alloc, 1)?..=sizes(alloc, 2)?),
    })?;
    Ok(ranges)
}

impl Type for SizeRange {
    ghost use Rattle.std.specs.Prelude.{codes};
    ghost use Rattle.pgv.specs.Words.{named, softly};

    ghost info = { named (codes "sizerange") };

    ghost accepts = { λ t. softly t (named (codes "sizerange")) };

    fn type_info() -> PgTypeInfo {
        PgTypeInfo::with_name("sizerange")
    }

    fn compatible(type_info: &PgTypeInfo) -> bool {
        type_info.type_compatible(&Self::type_info())
    }
}

impl PgHasArrayType for SizeRange {
    ghost use Rattle.std.specs.Prelude.{codes};
    ghost use Rattle.pgv.specs.Words.{array_of, softly};

    ghost array_info = { array_of (codes "sizerange") };

    ghost accepts_array = { λ t. softly t (array_of (codes "sizerange")) };

    fn array_type_info() -> PgTypeInfo {
        PgTypeInfo::array_of("sizerange")
    }

    fn array_compatible(type_info: &PgTypeInfo) -> bool {
        type_info.type_compatible(&Self::array_type_info())
    }
}

impl Encode for SizeRange {
    ghost encoding = { λ v. ⟦<PgRange<Vec<Size>> as Encode>⟧.encoding v.range };

    fn encode_by_ref(&self, out: &mut PgArgumentBuffer) -> Result<IsNull, CodecError> {
        self.range.encode_by_ref(out)
    }

    fn size_hint(&self) -> usize {
        0
    }

    fn produces(&self) -> Result<Option<PgTypeInfo>, AllocError> {
        Ok(None)
    }
}

impl Decode for SizeRange {
    ghost use Rattle.pgv.specs.Words.{unwritten};

    ghost View = { ⟦<PgRange<Vec<Size>> as Decode>⟧.View };

    ghost view = { λ v. ⟦<PgRange<Vec<Size>> as Decode>⟧.view v.range };

    ghost parse = { ⟦<PgRange<Vec<Size>> as Decode>⟧.parse };

    ghost written = { λ _ _. unwritten };

    ghost null = { ⟦<PgRange<Vec<Size>> as Decode>⟧.null };

    fn decode(alloc: Global, value: PgValueRef<'_>) -> Result<SizeRange, CodecError> {
        Ok(SizeRange {
            range: PgRange::decode(alloc, value)?,
        })
    }
}

/// One byte that says to need more than a frame has room for.
#[derive(Drop)]
pub struct Huge;

impl Type for Huge {
    ghost use Rattle.pgv.specs.Words.{builtin, softly};

    ghost info = { builtin 25 };

    ghost accepts = { λ t. softly t (builtin 25) };

    fn type_info() -> PgTypeInfo {
        PgTypeInfo(PgType::Text)
    }

    fn compatible(type_info: &PgTypeInfo) -> bool {
        type_info.type_compatible(&Self::type_info())
    }
}

impl Encode for Huge {
    ghost use Rattle.std.specs.Prelude.{Some, [], ◌∷◌};
    ghost use Rattle.pgv.specs.Words.{byte, image_of, with_hint, writes};

    ghost encoding = { λ _. with_hint 2147483648 (writes (Some (image_of (byte 97 ∷ [])))) };

    fn encode_by_ref(&self, out: &mut PgArgumentBuffer) -> Result<IsNull, CodecError> {
        out.push(97)?;
        Ok(IsNull::No)
    }

    fn size_hint(&self) -> usize {
        2147483648
    }

    fn produces(&self) -> Result<Option<PgTypeInfo>, AllocError> {
        Ok(None)
    }
}

/// A mood among texts: the type is `text`, and each value is a `mood`.
#[derive(Drop)]
pub struct MoodText {
    /// The mood, which says what is written.
    pub mood: Mood,
}

impl Type for MoodText {
    ghost use Rattle.pgv.specs.Words.{builtin, softly};

    ghost info = { builtin 25 };

    ghost accepts = { λ t. softly t (builtin 25) };

    fn type_info() -> PgTypeInfo {
        PgTypeInfo(PgType::Text)
    }

    fn compatible(type_info: &PgTypeInfo) -> bool {
        type_info.type_compatible(&Self::type_info())
    }
}

impl PgHasArrayType for MoodText {
    ghost use Rattle.pgv.specs.Words.{builtin, softly};

    ghost array_info = { builtin 1009 };

    ghost accepts_array = { λ t. softly t (builtin 1009) };

    fn array_type_info() -> PgTypeInfo {
        PgTypeInfo(PgType::TextArray)
    }

    fn array_compatible(type_info: &PgTypeInfo) -> bool {
        type_info.type_compatible(&Self::array_type_info())
    }
}

impl Encode for MoodText {
    ghost use Rattle.std.specs.Prelude.{Some, codes};
    ghost use Rattle.pgv.specs.Words.{named, text_image, writes};

    ghost encoding = { λ text. record { size_hint = 0; produced = Some (named (codes "mood")); image = writes (text_image (⟦<Mood as Labelled>⟧.label_of text.mood)) } };

    fn encode_by_ref(&self, out: &mut PgArgumentBuffer) -> Result<IsNull, CodecError> {
        encode_text(self.mood.label(), out)
    }

    fn size_hint(&self) -> usize {
        0
    }

    fn produces(&self) -> Result<Option<PgTypeInfo>, AllocError> {
        Ok(Some(PgEnum::<Mood>::type_info()))
    }
}
