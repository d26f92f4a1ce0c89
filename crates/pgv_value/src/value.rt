//! A value of a row: null or bytes, with its type and its format.

ghost use Rattle.std.specs.Prelude.{◌≡◌, ◌<◌, ◌≤◌, slice_range, length, Some, None, OnOk, OnErr, is_none};
ghost use Rattle.std.specs.Option.{option_copied};
ghost use Rattle.pgv_types.specs.Facts.{IsNotCustom};
ghost use Rattle.pgv_value.specs.Fronts.{format_of_code, value_front};
ghost use Rattle.pgv_value.specs.Outcome.{Gives, lent_value, owned_value};
ghost use Rattle.pgv_value.specs.Parsed.{GivesExactly, GivesOr};
ghost use Rattle.pgv_value.specs.PartOfRow.{held_bytes};
ghost use Rattle.pgv_value.specs.Text.{GivesText};
ghost use Rattle.pgv_value.specs.ValueView.{given};
ghost use Rattle.pgv_value.specs.declared.error.CodecError.TheVariants.{UnexpectedNull};
ghost use Rattle.pgv_value.specs.declared.value.PgValueFormat.TheVariants.{Text};

use crate::error::CodecError;
use crate::frame::part_in_front;
use bytes::Bytes;
use pgv_types::PgTypeInfo;
use std::alloc::{AllocError, Global};
use std::marker::Model;

/// How a value is written: as the text that a person reads, or in PostgreSQL's binary form.
#[derive(Clone, Copy, Debug, PartialEq, Eq)]
pub enum PgValueFormat {
    /// The text form.
    Text = 0,
    /// The binary form.
    Binary = 1,
}

/// A message has a format as this number (PostgreSQL, "Message Formats", Bind).
const _: () = prove!(PgValueFormat::Text as u8 == 0 && PgValueFormat::Binary as u8 == 1);

impl PgValueFormat {
    /// The format of a code in a message: 0 is text and 1 binary. Any other is refused with
    /// [`OutOfRange`](CodecError::OutOfRange) (C30).
    pub fn from_code(code: u16) -> Result<PgValueFormat, CodecError>
        ensures { GivesExactly (λ format. format) (format_of_code code) result }
    {
        match code {
            0 => Ok(PgValueFormat::Text),
            1 => Ok(PgValueFormat::Binary),
            _ => Err(CodecError::OutOfRange),
        }
    }
}

/// A value that has its own bytes, or shares those of its row, and so outlives the reference that it was made
/// from. It is made by [`PgValueRef::to_owned`] and read through [`PgValue::as_ref`].
#[derive(Drop)]
pub struct PgValue {
    bytes: Option<Bytes>,
    type_info: PgTypeInfo,
    format: PgValueFormat,
}

impl Model for PgValue {
    ghost use Rattle.pgv_value.specs.ValueView.{Given, given_code};

    ghost Value = { Given };

    ghost coded = { given_code };

    ghost view = { λ v. record { bytes = v.bytes; type_info = v.type_info; format = v.format } };
}

impl PgValue {
    /// The value by reference, as decoders take it. It clones the type, so it is refused only for memory (C1), and only
    /// if the type is a custom one.
    pub fn as_ref(&self) -> Result<PgValueRef<'_>, CodecError>
        ensures { Gives (λ v. v) (lent_value self.now) result }
    {
        let value = match &self.bytes {
            Some(bytes) => Some(bytes.as_slice()),
            None => None,
        };
        Ok(PgValueRef::new(value, self.type_info.clone()?, self.format))
    }

    /// The type that the value was given with.
    #[inline(always)]
    pub fn type_info(&self) -> &PgTypeInfo
        ensures { result.now ≡ self.now.type_info }
    {
        &self.type_info
    }

    /// Whether the value is null.
    #[inline(always)]
    pub fn is_null(&self) -> bool
        ensures { result ≡ is_none self.now.bytes }
    {
        self.bytes.is_none()
    }
}

/// A copy shares the bytes. Null of a type that isn't custom is copied without memory.
impl Clone for PgValue {
    ghost is_clone = { λ v copy. copy ≡ v };

    ghost is_infallible = { λ v. IsNotCustom v.type_info × (v.bytes ≡ None) };

    fn clone(&self) -> Result<PgValue, AllocError> {
        let bytes = match &self.bytes {
            Some(bytes) => Some(bytes.clone()?),
            None => None,
        };
        Ok(PgValue {
            bytes,
            type_info: self.type_info.clone()?,
            format: self.format,
        })
    }
}

/// The row that a value is a part of.
#[derive(Clone, Copy)]
struct RowPart<'r> {
    bytes: &'r Bytes,
    start: usize,
    end: usize,
}

/// What a value has.
#[derive(Clone, Copy, Drop)]
enum Held<'r> {
    /// It is null.
    Null,
    /// Bytes of any kind.
    Bytes(&'r [u8]),
    /// Text, which isn't tested again.
    Text(&'r str),
}

impl<'r> Held<'r> {
    /// The bytes; `None` for null.
    #[inline(always)]
    fn bytes(self) -> Option<&'r [u8]>
        ensures { option_copied result ≡ held_bytes self.entry }
    {
        match self {
            Held::Null => None,
            Held::Bytes(bytes) => Some(bytes),
            Held::Text(text) => Some(text.as_bytes()),
        }
    }
}

/// A value of a row: null or bytes, its type and its format. The bytes are borrowed from the row, and what
/// [`PgValueRef::as_bytes`] and [`PgValueRef::as_str`] return lives as long as the row.
pub struct PgValueRef<'r> {
    row: Option<RowPart<'r>>,
    held: Held<'r>,
    type_info: PgTypeInfo,
    format: PgValueFormat,
}

/// Its parts go. It is written out since a derived one is proved again in each crate above.
impl<'r> Drop for PgValueRef<'r> {
    #[inline(always)]
    fn drop(self) {
        let PgValueRef {
            row: _,
            held: _,
            type_info: _,
            format: _,
        } = self;
    }
}

impl<'r> Model for PgValueRef<'r> {
    ghost use Rattle.pgv_value.specs.PartOfRow.{IsOfRow, held_bytes};
    ghost use Rattle.pgv_value.specs.ValueView.{Given, given_code};

    ghost Value = { Given };

    ghost coded = { given_code };

    ghost view = { λ v. record { bytes = held_bytes v.held; type_info = v.type_info; format = v.format } };

    ghost invariant = { λ v. IsOfRow v.row (held_bytes v.held) };
}

impl<'r> PgValueRef<'r> {
    /// A value of these bytes, or null.
    #[inline(always)]
    pub fn new(value: Option<&'r [u8]>, type_info: PgTypeInfo, format: PgValueFormat) -> Self
        ensures { result ≡ given type_info format (option_copied value.entry) }
    {
        let held = match value {
            Some(bytes) => Held::Bytes(bytes),
            None => Held::Null,
        };
        PgValueRef {
            row: None,
            held,
            type_info,
            format,
        }
    }

    /// A value in text format of this text, or null. [`PgValueRef::as_str`] returns the text without testing its bytes.
    #[inline(always)]
    pub fn of_text(text: Option<&'r str>, type_info: PgTypeInfo) -> Self
        ensures { result ≡ given type_info Text (option_copied text.entry) }
    {
        let held = match text {
            Some(text) => Held::Text(text),
            None => Held::Null,
        };
        PgValueRef {
            row: None,
            held,
            type_info,
            format: PgValueFormat::Text,
        }
    }

    /// The value whose bytes are those of a row from `start` to `end`. [`PgValueRef::to_owned`] then shares the row's
    /// bytes.
    #[inline(always)]
    pub fn from_row(
        row: &'r Bytes,
        start: usize,
        end: usize,
        type_info: PgTypeInfo,
        format: PgValueFormat,
    ) -> Self
        requires start_le_end { start ≤ end }
        requires in_row { end ≤ length row.now }
        ensures { result ≡ given type_info format (Some (slice_range row.now start end)) }
    {
        PgValueRef {
            row: Some(RowPart {
                bytes: row,
                start,
                end,
            }),
            held: Held::Bytes(&row.as_slice()[start..end]),
            type_info,
            format,
        }
    }

    /// Reads the frame at the front of a slice, returns its part and moves the slice past it (PostgreSQL, "Message
    /// Formats", DataRow: a signed length of four bytes, the highest first, and that many bytes; -1 is null). A slice
    /// that ends too early is refused with [`Short`](CodecError::Short) (C15) and any other negative length with
    /// [`NegativeLength`](CodecError::NegativeLength) (C16); the slice then stays where it was.
    ///
    /// Of `00000004 00000007 ff` the part is `00000007`, and `ff` is left; `ffffffff` is null.
    #[inline(always)]
    pub fn get(
        bytes: &mut &'r [u8],
        format: PgValueFormat,
        type_info: PgTypeInfo,
    ) -> Result<Self, CodecError>
        // What is answered is the part of the frame in front, and the slice goes on after it; refused, it stays.
        ensures exact { GivesExactly (λ v. (v, bytes.new.now))
            (value_front type_info format bytes.old.now) result }
        ensures shorter { OnOk result (length bytes.new.now < length bytes.old.now) }
        ensures unmoved { OnErr result (bytes.new.now ≡ bytes.old.now) }
    {
        let all: &'r [u8] = *bytes;
        let (part, rest) = part_in_front(all)?;
        *bytes = rest;
        Ok(PgValueRef::new(part, type_info, format))
    }

    /// The format that the value is written in.
    #[inline(always)]
    pub fn format(&self) -> PgValueFormat
        ensures { result ≡ self.now.format }
    {
        self.format
    }

    /// The type that the value was given with.
    #[inline(always)]
    pub fn type_info(&self) -> &PgTypeInfo
        ensures { result.now ≡ self.now.type_info }
    {
        &self.type_info
    }

    /// The type, moved out of the value, so that a reader of parts keeps it without a clone.
    pub fn into_type_info(self) -> PgTypeInfo
        ensures { result ≡ self.entry.type_info }
    {
        let PgValueRef {
            row: _,
            held: _,
            type_info,
            format: _,
        } = self;
        type_info
    }

    /// Whether the value is null.
    #[inline(always)]
    pub fn is_null(&self) -> bool
        ensures { result ≡ is_none self.now.bytes }
    {
        self.held.bytes().is_none()
    }

    /// The bytes, in either format, which live as long as the row. Null is refused with
    /// [`UnexpectedNull`](CodecError::UnexpectedNull) (C13).
    #[inline(always)]
    pub fn as_bytes(&self) -> Result<&'r [u8], CodecError>
        ensures { GivesOr (λ b. b.now) self.now.bytes UnexpectedNull result }
    {
        match self.held.bytes() {
            Some(bytes) => Ok(bytes),
            None => Err(CodecError::UnexpectedNull),
        }
    }

    /// The bytes as text, in either format, which lives as long as the row. Null is refused with
    /// [`UnexpectedNull`](CodecError::UnexpectedNull) (C13), and bytes that are not UTF-8 with
    /// [`Utf8`](CodecError::Utf8) (C14).
    #[inline(always)]
    #[tactic(auto, using(crate::proofs::Fronts::whole_text))]
    pub fn as_str(&self) -> Result<&'r str, CodecError>
        ensures { GivesText (λ s. s.now) self.now.bytes result }
    {
        if let Held::Text(text) = self.held {
            return Ok(text);
        }
        let bytes = self.as_bytes()?;
        match str::from_utf8(bytes) {
            Ok(text) => Ok(text),
            Err(_) => Err(CodecError::Utf8),
        }
    }

    /// The value without a borrow. If it was made by [`from_row`](PgValueRef::from_row), it shares that part of the
    /// row's bytes; else its bytes are copied. It is refused only for memory (C1), and only if it has bytes or its type
    /// is a custom one.
    pub fn to_owned(&self, alloc: Global) -> Result<PgValue, CodecError>
        ensures { Gives (λ v. v) (owned_value self.now) result }
    {
        let bytes = match self.row {
            Some(part) => Some(part.bytes.slice(part.start..part.end)?),
            None => match self.held.bytes() {
                Some(bytes) => Some(Bytes::copy_from_slice(alloc, bytes)?),
                None => None,
            },
        };
        Ok(PgValue {
            bytes,
            type_info: self.type_info.clone()?,
            format: self.format,
        })
    }
}

/// A copy refers to the same bytes, and takes no memory. It can fail only at a custom type with too many copies.
impl<'r> Clone for PgValueRef<'r> {
    ghost is_clone = { λ v copy. copy ≡ v };

    ghost is_infallible = { λ v. IsNotCustom v.type_info };

    #[inline(always)]
    fn clone(&self) -> Result<PgValueRef<'r>, AllocError> {
        Ok(PgValueRef {
            row: self.row,
            held: self.held,
            type_info: self.type_info.clone()?,
            format: self.format,
        })
    }
}
