//! The traits of values that can be written and read, and of their types.

ghost use Rattle.std.specs.Prelude.{◌≡◌, ◌≤◌, ℕ, Bool, true, List, None, IfOk, IfErr, IfSome, OnErr};
ghost use Rattle.pgv_types.specs.Relations.{softly};
ghost use Rattle.pgv_types.specs.Ty.{Ty};
ghost use Rattle.pgv_value.specs.Outcome.{Outcome, Gives, fails, reading_of};
ghost use Rattle.pgv_codec.specs.Lent.{lent};
ghost use Rattle.pgv_value.specs.ValueView.{Given, given};
ghost use Rattle.pgv_codec.specs.Nullable.{IsOfNull, refused_null};
ghost use Rattle.pgv_value.specs.declared.error.CodecError.{CodecError};
ghost use Rattle.pgv_value.specs.declared.error.CodecError.TheVariants.{Memory, UnexpectedNull};
ghost use Rattle.pgv_value.specs.declared.value.PgValueFormat.{PgValueFormat as Format};
ghost use Rattle.pgv_types.specs.declared.oid.Oid.{Oid};
ghost use Rattle.pgv_codec.specs.Back.{ReadsBack, always};
ghost use Rattle.pgv_codec.specs.Encoding.{Encoding, Image, frame, is_copied, with_hint};
ghost use Rattle.pgv_codec.specs.Appending.{AtOnce, Encodes, Extends};
ghost use Rattle.pgv_codec.specs.AtOnce.{IsBinaryOf, WritesFirst};

use crate::buffer::{IsNull, PgArgumentBuffer};
use pgv_types::PgTypeInfo;
use pgv_value::{CodecError, PgValueRef};
use std::alloc::{AllocError, Global};
use std::marker::PhantomData;

/// A Rust type whose values have a type of PostgreSQL.
pub trait Type {
    /// The type of its values, unless a value produces another.
    ghost info: { Ty };

    /// The types under which its values are read.
    ghost accepts: { Ty → Bool };

    /// The type of its values, unless a value produces another.
    fn type_info() -> PgTypeInfo
        ensures { result ≡ info };

    /// Whether its values are read under this type.
    fn compatible(type_info: &PgTypeInfo) -> bool
        ensures { result ≡ accepts type_info.now };
}

/// A Rust type of which arrays are made.
pub trait PgHasArrayType {
    /// The type of such an array.
    ghost array_info: { Ty };

    /// The types under which such arrays are read.
    ghost accepts_array: { Ty → Bool };

    /// The type of such an array.
    fn array_type_info() -> PgTypeInfo
        ensures { result ≡ array_info };

    /// Whether such arrays are read under this type.
    fn array_compatible(type_info: &PgTypeInfo) -> bool
        ensures { result ≡ accepts_array type_info.now };
}

/// A value that can be written.
///
/// An encoder appends exactly the image that it states, says that the value is null, or refuses as it states. If it
/// refuses, it may have appended something: the caller goes back to its mark.
pub trait Encode {
    /// What a value is written as: a number of bytes that it says it needs (a frame is refused if that is above
    /// 2147483647), the type of this value, where it isn't the one that its Rust type has, and its image, or why it has
    /// none and whether memory may be asked for by then.
    ghost encoding: { Self → Encoding };

    /// Appends the value's image. `Yes` says that it is null, and then nothing was appended.
    fn encode_by_ref(&self, out: &mut PgArgumentBuffer) -> Result<IsNull, CodecError>
        ensures encodes { Encodes (encoding self.now).image out.old out.new result }
        ensures appended { OnErr result (Extends out.old out.new) };

    /// A number of bytes that the value says it needs; 0 if it doesn't say.
    fn size_hint(&self) -> usize
        ensures { result ≡ (encoding self.now).size_hint };

    /// The type of this value, where it isn't the one that its Rust type has. Only the copy of a custom type may fail.
    fn produces(&self) -> Result<Option<PgTypeInfo>, AllocError>
        ensures ok { IfOk result (λ t. t ≡ (encoding self.now).produced) }
        ensures err { OnErr result (is_copied (encoding self.now).produced ≡ true) };

    /// Appends the value's frame, where its length is known before its image is written. `false` says that nothing was
    /// appended, and [`PgArgumentBuffer::encode`] then writes the frame by [`encode_by_ref`](Encode::encode_by_ref).
    /// Out of memory (C1) may have appended something. It is for speed alone.
    #[inline(always)]
    fn encode_at_once(&self, out: &mut PgArgumentBuffer) -> Result<bool, CodecError>
        ensures ok { IfOk result (λ done. AtOnce done (frame (encoding self.now)) out.old out.new) }
        ensures err { IfErr result (λ e. e ≡ Memory) }
        ensures appended { OnErr result (Extends out.old out.new) }
    {
        let _ = out;
        Ok(false)
    }

    /// Appends the frames of the first values of a list, as many as are written in one loop, and says how many they
    /// are: none, if the type has no such loop. Out of memory (C1) may have appended something. It is for speed alone.
    #[inline(always)]
    #[tactic(auto, unfolding(crate::specs::Encoding::frames))]
    fn encode_first(values: &[Self], out: &mut PgArgumentBuffer) -> Result<usize, CodecError>
        ensures ok { IfOk result (λ n. WritesFirst encoding values.now n out.old out.new) }
        ensures err { IfErr result (λ e. e ≡ Memory) }
        ensures appended { OnErr result (Extends out.old out.new) }
    {
        let _ = values;
        let _ = out;
        Ok(0)
    }
}

/// A value that can be read from null or bytes.
///
/// A decoder returns a value exactly where the grammar that it states has one, and it refuses, unless memory runs
/// out (C1), exactly where the grammar has none.
pub trait Decode: Sized + Drop {
    /// What a value says, without where it lies in memory.
    ghost View: { Type 0 };

    /// What a value says.
    ghost view: { Self → View };

    /// What null or bytes are read as under a type and in a format, or why they are refused, and whether memory may be
    /// asked for by then: a fault that is seen before the first request for memory is returned as itself. A plain type
    /// that is given bytes never returns [`UnexpectedNull`](CodecError::UnexpectedNull) (C13); an array, a range or a
    /// record passes on the refusal of its part.
    ghost parse: { Given → Outcome View };

    /// What is written of what a value says, by a Rust type of this type, where values are written too (see [`Codec`]),
    /// and else no image.
    ghost written: { Ty → View → Encoding };

    /// Null is read, or refused with [`UnexpectedNull`](CodecError::UnexpectedNull) (C13) and without memory.
    ghost null: { (t : Ty) (format : Format) → IsOfNull (parse (given t format None)) };

    /// The value that is read.
    fn decode(alloc: Global, value: PgValueRef<'_>) -> Result<Self, CodecError>
        ensures { Gives view (parse value.entry) result };

    /// Reads a value that stays where it is, as in a list of a row's fields: what [`decode`](Decode::decode) reads of a
    /// copy. So it is refused as that is, or where a custom type has too many copies (C1).
    #[inline(always)]
    #[tactic(auto, using(crate::proofs::StepOutcomes::read_of_copy))]
    fn decode_by_ref(alloc: Global, value: &PgValueRef<'_>) -> Result<Self, CodecError>
        ensures { Gives view (lent parse value.now) result }
    {
        Self::decode(alloc, value.clone()?)
    }

    /// How many bytes [`decode_at_once`](Decode::decode_at_once) reads in binary; 0 if it reads none.
    #[inline(always)]
    fn width_at_once() -> usize
        ensures { result ≤ 16 }
    {
        0
    }

    /// The value of bytes in binary, whatever their type is, if it can be read at once. `None` says that it has to be
    /// read by [`decode`](Decode::decode). It is for speed alone.
    #[inline(always)]
    fn decode_at_once(bytes: &[u8]) -> Option<Self>
        ensures { IfSome result (λ v. IsBinaryOf parse bytes.now (view v)) }
    {
        let _ = bytes;
        None
    }
}

/// A value that is read back as what it keeps.
///
/// The law holds whatever the type of the parameter, also before a filling, when each slot is at its default, and with
/// all OIDs in the holes. A value of a type that is made of others is read back by their laws.
pub trait ReadBack: Encode + Decode {
    /// The value as it is read back.
    ghost kept: { Self → Self };

    /// Whether a value is read back under a type, with these OIDs in its holes, in order.
    ghost fits: { Self → Ty → List Oid → Type 0 };

    /// What is written of a value is read in binary as what it keeps, under each type that fits.
    ghost reads_back: { ReadsBack Self.encoding (reading_of Self.parse) (λ v. Self.view (kept v)) fits };
}

/// A value that can be written and read, and is written by what it says alone: two values of one view are written
/// alike.
pub trait Codec: Type + Encode + Decode {
    /// What an encoder states for a value is what is written for the value's view.
    ghost agrees: { (v : Self) → Self.encoding v ≡ Self.written Self.info (Self.view v) };
}

/// A value that is not made of others, as a number, a text or a date: it is read in the same way under every type, and
/// what was written is read back under every type. From this one impl it has [`Decode`], [`ReadBack`] and [`Codec`].
pub trait Plain: Type + Encode + Sized + Drop {
    /// What a value says, without where it lies in memory.
    ghost View: { Type 0 };

    /// What a value says.
    ghost view: { Self → View };

    /// What null or bytes are read as under a type and in a format, or why they are refused, and whether memory may be
    /// asked for by then.
    ghost parse: { Given → Outcome View };

    /// Null is refused with [`UnexpectedNull`](CodecError::UnexpectedNull) (C13), and without memory.
    ghost null: { (t : Ty) (format : Format) → parse (given t format None) ≡ fails UnexpectedNull };

    /// What is written of what a value says, by a Rust type of this type.
    ghost written: { Ty → View → Encoding };

    /// The value as it is read back: by default, as it is.
    ghost kept: { Self → Self } = { λ v. v };

    /// The value that is read: what [`Decode::decode`] answers.
    fn read(alloc: Global, value: &PgValueRef<'_>) -> Result<Self, CodecError>
        ensures { Gives view (parse value.now) result };

    /// How many bytes [`read_at_once`](Plain::read_at_once) reads in binary: what [`Decode::width_at_once`] says.
    #[inline(always)]
    fn width() -> usize
        ensures { result ≤ 16 }
    {
        0
    }

    /// The value of bytes in binary, or `None`: what [`Decode::decode_at_once`] answers.
    #[inline(always)]
    fn read_at_once(bytes: &[u8]) -> Option<Self>
        ensures { IfSome result (λ v. IsBinaryOf parse bytes.now (view v)) }
    {
        let _ = bytes;
        None
    }

    /// What is written of a value is read in binary as what it keeps, under every type.
    ghost reads_back: { ReadsBack Self.encoding (reading_of parse) (λ v. view (kept v)) always };

    /// What an encoder states for a value is what is written for the value's view.
    ghost agrees: { (v : Self) → Self.encoding v ≡ written Self.info (view v) };
}

impl<T: Plain> Decode for T {
    ghost View = { T.View };

    ghost view = { T.view };

    ghost parse = { T.parse };

    ghost written = { T.written };

    ghost null = { λ t format. refused_null (T.parse (given t format None)) (T.null t format) };

    #[inline(always)]
    fn decode(alloc: Global, value: PgValueRef<'_>) -> Result<T, CodecError> {
        T::read(alloc, &value)
    }

    #[inline(always)]
    #[tactic(auto, using(crate::proofs::StepOutcomes::read_of_copy))]
    fn decode_by_ref(alloc: Global, value: &PgValueRef<'_>) -> Result<T, CodecError> {
        T::read(alloc, value)
    }

    #[inline(always)]
    fn width_at_once() -> usize {
        T::width()
    }

    #[inline(always)]
    fn decode_at_once(bytes: &[u8]) -> Option<T> {
        T::read_at_once(bytes)
    }
}

/// A plain value is read back under every type.
impl<T: Plain> ReadBack for T {
    ghost kept = { T.kept };

    ghost fits = { always };

    ghost reads_back = { T.reads_back };
}

impl<T: Plain> Codec for T {
    ghost agrees = { T.agrees };
}

/// Carries the [`BuiltIn`] of `T`. If `T` itself had it, the impls that follow from it would overlap with those for
/// `&T`.
pub struct Of<T>(PhantomData<T>);

/// Marks that `Of<Self>` has a [`BuiltIn`]. Crates above this one can't mark their own types: there all impls are
/// written out.
pub trait HasBuiltIn {}

/// The built-in type of the values of `T`, and the type of their arrays, for an `Of<T>`: each is read under it and
/// domains over it. From this one impl `T` has [`Type`] and [`PgHasArrayType`].
pub trait BuiltIn {
    /// The type of the values.
    ghost INFO: { Ty };

    /// The type of their arrays.
    ghost ARRAY_INFO: { Ty };

    /// The type of the values.
    const INFO: PgTypeInfo;

    /// The type of their arrays.
    const ARRAY_INFO: PgTypeInfo;
}

/// A value of a [`BuiltIn`] type that is written with one size hint and never as of another type. From this one impl it
/// has [`Encode`].
pub trait Scalar {
    /// A number of bytes that a value says it needs.
    ghost SIZE: { ℕ };

    /// A value's image, or why it has none and whether memory may be asked for by then.
    ghost image: { Self → Outcome Image };

    /// A number of bytes that a value says it needs.
    const SIZE: usize;

    /// Appends the value's image: what [`Encode::encode_by_ref`] does.
    fn write(&self, out: &mut PgArgumentBuffer) -> Result<IsNull, CodecError>
        ensures encodes { Encodes (image self.now) out.old out.new result }
        ensures appended { OnErr result (Extends out.old out.new) };

    /// Appends the value's frame, or nothing: what [`Encode::encode_at_once`] does.
    #[inline(always)]
    fn write_at_once(&self, out: &mut PgArgumentBuffer) -> Result<bool, CodecError>
        ensures ok { IfOk result (λ done. AtOnce done
            (frame (with_hint SIZE (image self.now))) out.old out.new) }
        ensures err { IfErr result (λ e. e ≡ Memory) }
        ensures appended { OnErr result (Extends out.old out.new) }
    {
        let _ = out;
        Ok(false)
    }

    /// Appends the frames of the first values of a list: what [`Encode::encode_first`] does.
    #[inline(always)]
    #[tactic(auto, unfolding(crate::specs::Encoding::frames))]
    fn write_first(values: &[Self], out: &mut PgArgumentBuffer) -> Result<usize, CodecError>
        ensures ok { IfOk result (λ n. WritesFirst (λ v. with_hint SIZE (image v)) values.now n
            out.old out.new) }
        ensures err { IfErr result (λ e. e ≡ Memory) }
        ensures appended { OnErr result (Extends out.old out.new) }
    {
        let _ = values;
        let _ = out;
        Ok(0)
    }
}

impl<T: HasBuiltIn> Type for T
where
    Of<T>: BuiltIn,
{
    ghost info = { ⟦<Of<T> as BuiltIn>⟧.INFO };

    ghost accepts = { λ t. softly t ⟦<Of<T> as BuiltIn>⟧.INFO };

    #[inline(always)]
    fn type_info() -> PgTypeInfo {
        Of::<T>::INFO
    }

    #[inline(always)]
    fn compatible(type_info: &PgTypeInfo) -> bool {
        type_info.type_compatible(&Of::<T>::INFO)
    }
}

impl<T: HasBuiltIn> PgHasArrayType for T
where
    Of<T>: BuiltIn,
{
    ghost array_info = { ⟦<Of<T> as BuiltIn>⟧.ARRAY_INFO };

    ghost accepts_array = { λ t. softly t ⟦<Of<T> as BuiltIn>⟧.ARRAY_INFO };

    fn array_type_info() -> PgTypeInfo {
        Of::<T>::ARRAY_INFO
    }

    fn array_compatible(type_info: &PgTypeInfo) -> bool {
        type_info.type_compatible(&Of::<T>::ARRAY_INFO)
    }
}

impl<T: Scalar> Encode for T
where
    Of<T>: BuiltIn,
{
    ghost encoding = { λ v. with_hint T.SIZE (T.image v) };

    #[inline(always)]
    fn encode_by_ref(&self, out: &mut PgArgumentBuffer) -> Result<IsNull, CodecError> {
        self.write(out)
    }

    #[inline(always)]
    fn size_hint(&self) -> usize {
        T::SIZE
    }

    #[inline(always)]
    fn produces(&self) -> Result<Option<PgTypeInfo>, AllocError> {
        Ok(None)
    }

    #[inline(always)]
    fn encode_at_once(&self, out: &mut PgArgumentBuffer) -> Result<bool, CodecError> {
        self.write_at_once(out)
    }

    #[inline(always)]
    fn encode_first(values: &[T], out: &mut PgArgumentBuffer) -> Result<usize, CodecError> {
        T::write_first(values, out)
    }
}
