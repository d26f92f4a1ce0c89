//! Records: composite types, field by field.

ghost use Rattle.std.specs.Prelude.{IfErr, OnErr, ◌≡◌, ◌<◌, length, IfOk};
ghost use Rattle.std.specs.Borrow.{sem, RestsIfErr};
ghost use Rattle.pgv_value.specs.Outcome.{Gives};
ghost use Rattle.pgv_value.specs.Parsed.{GivesFront};
ghost use Rattle.pgv_value.specs.declared.error.CodecError.TheVariants.{Memory};
ghost use Rattle.pgv_codec.specs.FieldsLeftView.{left_in_text};
ghost use Rattle.pgv_codec.specs.RecordGrammar.{field_in_binary, fields_in_text, begin_fields, next_field};
ghost use Rattle.pgv_codec.specs.Encoding.{field, counted_field};
ghost use Rattle.pgv_codec.specs.Appending.{Appends, Extends};
ghost use Rattle.pgv_codec.specs.Record.{IsOpen, begun, so_far, WritesField};
ghost use Rattle.pgv_codec.specs.contracts.buffer.PgArgumentBuffer.{the_row};

use super::part::read_part;
use crate::buffer::PgArgumentBuffer;
use crate::nest::field_head_of;
use crate::traits::{Decode, Encode, Type};
use crate::types::array::type_of_value;
use pgv_buf::Mark;
use pgv_text::{Parts, TextForm};
use pgv_types::{Oid, PgTypeInfo};
use pgv_value::{CodecError, PgValueFormat, PgValueRef, u32_in_front};
use std::alloc::Global;
use std::marker::Model;

/// Writes a record field by field, at the end of a buffer.
#[derive(Drop)]
pub struct PgRecordEncoder<'a> {
    out: &'a mut PgArgumentBuffer,
    mark: Mark,
    count: u32,
    ghost open: { IsOpen mark count out.now },
}

impl<'a> PgRecordEncoder<'a> {
    ghost use Rattle.pgv_codec.specs.WrittenView.{buffer, written};

    /// Begins a record after what the buffer has. Out of memory (C1) leaves the buffer as it was. The number of fields
    /// comes first: `00000000` as long as there are none.
    pub fn new(out: &'a mut PgArgumentBuffer) -> Result<PgRecordEncoder<'a>, CodecError>
        ensures same_reference { IfOk result (λ e. e.out.ghost_name ≡ out.entry.ghost_name) }
        ensures begun { IfOk result (λ e. written e ≡ begun out.old) }
        ensures so_far { IfOk result (λ e. buffer e ≡ so_far (written e)) }
        ensures err { IfErr result (λ e. e ≡ Memory) }
        ensures* refused { sem 𝓛 (RestsIfErr the_row out.entry (λ e. e.out.ghost_name) result
            (λ n. n ≡ out.old)) }
    {
        let mark = out.mark();
        out.push_u32(0)?;
        Ok(PgRecordEncoder {
            out,
            mark,
            count: 0,
        })
    }

    /// Writes a field: its type and its frame. A refused one is taken back; [`FieldCount`](CodecError::FieldCount)
    /// (C12) after 4294967295 fields.
    pub fn encode<T: Encode + Type + Drop>(&mut self, value: T) -> Result<(), CodecError>
        ensures same_reference { self.new.out.ghost_name ≡ self.old.out.ghost_name }
        ensures exact { WritesField (counted_field (written self.old).count
            (field T.info (T.encoding value))) (written self.old) (written self.new) result }
        ensures unchanged { OnErr result (written self.new ≡ written self.old) }
        ensures so_far { buffer self.new ≡ so_far (written self.new) }
    {
        if self.count == u32::MAX {
            return Err(CodecError::FieldCount);
        }
        let mark = self.out.mark();
        if let Err(error) = encode_field(self.out, &value) {
            self.out.back(mark);
            return Err(error);
        }
        self.count += 1;
        self.out.put_u32(self.mark, self.count);
        Ok(())
    }

    /// Ends the record, and with it the borrow of the buffer. It writes nothing: each accepted field has put the count
    /// in its place already.
    pub fn finish(self)
        ensures { self.exit.0.now ≡ so_far (written self.entry) }
    {}
}

/// One field: its type, and its frame.
fn encode_field<T: Encode + Type>(out: &mut PgArgumentBuffer, value: &T) -> Result<(), CodecError>
    ensures exact { Appends (field T.info (T.encoding value.now)) out.old out.new result }
    ensures appended { OnErr result (Extends out.old out.new) }
{
    let field_type = type_of_value(value)?;
    out.push_type(field_type)?;
    out.encode(value)?;
    Ok(())
}

/// The fields of a record that are left, read one after another (PostgreSQL, "Composite Types").
#[derive(Drop)]
pub struct PgRecordDecoder<'r> {
    alloc: Global,
    left: FieldsLeft<'r>,
}

impl<'r> Model for PgRecordDecoder<'r> {
    ghost use Rattle.pgv_codec.specs.FieldsLeftView.{left_of, IsInPlace};
    ghost use Rattle.pgv_codec.specs.RecordGrammar.{Left, left_code};

    ghost Value = { Left };

    ghost coded = { left_code };

    ghost view = { λ d. left_of d.left };

    ghost invariant = { λ d. IsInPlace d.left };
}

/// The fields that are left, by the record's format.
#[derive(Drop)]
enum FieldsLeft<'r> {
    Binary(BinaryFields<'r>),
    Text(TextFields<'r>),
}

/// The record's type, the place of the next field, and the bytes from it on.
#[derive(Drop)]
struct BinaryFields<'r> {
    type_info: PgTypeInfo,
    place: usize,
    rest: &'r [u8],
}

/// The fields of a text that are left, how many it has in all, and the text that those that are copied are read from.
#[derive(Drop)]
struct TextFields<'r> {
    parts: Parts<'r>,
    count: usize,
    text: String,
}

impl<'r> PgRecordDecoder<'r> {
    /// The fields of a record. In binary the number of fields is passed over, or refused with
    /// [`Short`](CodecError::Short) (C15) if it isn't there; a text is read whole ([`Utf8`](CodecError::Utf8) (C14) if
    /// it is not UTF-8, [`Syntax`](CodecError::Syntax) (C29) if it is not a record text). Null is refused with
    /// [`UnexpectedNull`](CodecError::UnexpectedNull) (C13), and nothing else is.
    #[inline(always)]
    pub fn new(alloc: Global, value: PgValueRef<'r>) -> Result<Self, CodecError>
        ensures { Gives (λ d. d) (begin_fields value.entry) result }
    {
        let left = match value.format() {
            PgValueFormat::Text => FieldsLeft::Text(text_fields_of(alloc, value.as_str()?)?),
            PgValueFormat::Binary => {
                let (_count, rest) = u32_in_front(value.as_bytes()?)?;
                FieldsLeft::Binary(BinaryFields {
                    type_info: value.into_type_info(),
                    place: 0,
                    rest,
                })
            }
        };
        Ok(PgRecordDecoder { alloc, left })
    }

    /// The next field. Where it is refused the decoder is as before.
    ///
    /// In binary: without a byte left, or without a field at this place of a composite type, it is
    /// [`NoField`](CodecError::NoField) (C25), bytes that end too early are [`Short`](CodecError::Short) (C15), a field
    /// of another OID than that of the composite's field [`FieldOid`](CodecError::FieldOid) (C26), an OID that is no
    /// built-in type's under `record` [`FieldTypeUnknown`](CodecError::FieldTypeUnknown) (C28), a type that is no
    /// record [`NotARecord`](CodecError::NotARecord) (C24), and a field's type that isn't compatible with `T`
    /// [`MismatchedTypes`](CodecError::MismatchedTypes) (C27). In text a field is read without a type, and without a
    /// field left it is [`NoField`](CodecError::NoField) (C25).
    #[inline(always)]
    pub fn try_decode<T: Type + Decode>(&mut self) -> Result<T, CodecError>
        ensures exact { Gives (λ v. (T.view v, self.new))
            (next_field T.accepts T.parse self.old) result }
        ensures unmoved { OnErr result (self.new ≡ self.old) }
    {
        match &mut self.left {
            FieldsLeft::Binary(fields) => {
                let (value, rest) = read_field::<T>(
                    self.alloc,
                    &fields.type_info,
                    fields.place,
                    fields.rest,
                )?;
                fields.rest = rest;
                fields.place += 1;
                Ok(value)
            }
            FieldsLeft::Text(fields) => {
                let mut parts = fields.parts;
                let Some(part) = parts.next_borrowed(&mut fields.text)? else {
                    return Err(CodecError::NoField(fields.count));
                };
                let value = read_part::<T>(
                    self.alloc,
                    PgTypeInfo::with_oid(Oid(0)),
                    part.in_text(fields.text.as_str()),
                )?;
                fields.parts = parts;
                Ok(value)
            }
        }
    }
}

/// The fields of a record text.
#[inline(always)]
fn text_fields_of(alloc: Global, text: &str) -> Result<TextFields<'_>, CodecError>
    ensures { Gives left_in_text (fields_in_text text.now) result }
{
    match Parts::new(TextForm::Record, text) {
        None => Err(CodecError::Syntax),
        Some(parts) => Ok(TextFields {
            parts,
            count: parts.len(),
            text: String::new(alloc),
        }),
    }
}

/// The next field in binary, and the bytes after it.
#[tactic(auto, unfolding(crate::specs::RecordGrammar::field_in_binary))]
fn read_field<'r, T: Type + Decode>(
    alloc: Global,
    type_info: &PgTypeInfo,
    place: usize,
    bytes: &'r [u8],
) -> Result<(T, &'r [u8]), CodecError>
    ensures { GivesFront (Gives (λ x. (T.view x.0, x.1.now))
        (field_in_binary T.accepts T.parse type_info.now place bytes.now))
        (λ x. length x.1.now < length bytes.now) result }
{
    let (type_info, mut rest) = field_head_of(type_info, place, bytes)?;
    if !T::compatible(&type_info) {
        return Err(CodecError::MismatchedTypes);
    }
    let part = PgValueRef::get(&mut rest, PgValueFormat::Binary, type_info)?;
    let value = T::decode(alloc, part)?;
    Ok((value, rest))
}
