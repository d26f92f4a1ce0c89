//! A reader of rows.

ghost use Rattle.std.specs.Prelude.{◌≡◌, ◌<◌, ◌≤◌, [], length, true, vec_capacity, IfOk, OnOk, OnErr, IfSome, OnSome, option_map};
ghost use Rattle.std.specs.Option.{option_copied};
ghost use Rattle.pgv_value.specs.Parsed.{GivesExactly, GivesFront};
ghost use Rattle.pgv_value.specs.Outcome.{Gives};
ghost use Rattle.pgv_copy.specs.CopyBinary.{after_header, after_signature as signature_passed, after_flags as flags_passed, after_extension as extension_passed, after_count as count_passed, filled, listed, next_row as next_row_of, next_row_in, opened, bytes_left};

use pgv_types::PgTypeInfo;
use pgv_value::{CodecError, MAX_LENGTH, PgValueFormat, PgValueRef, i16_in_front, u32_in_front};
use std::marker::Model;

/// What a stream begins with.
const SIGNATURE: [u8; 11] = *b"PGCOPY\n\xff\r\n\0";
/// The largest number of which the flags that a reader has to know, bits 16 to 31, are clear.
const MAX_FLAGS: u32 = 0xffff;
/// The number of fields that means that no row follows.
const TRAILER: i16 = -1;

/// The rows of a COPY stream in binary (PostgreSQL, "COPY", "Binary Format"): what `COPY .. TO STDOUT (FORMAT binary)`
/// sends.
///
/// The stream is a header, then for each row the number of its fields and a frame for each, and at the end the number
/// -1. Of `5047434f50590aff0d0a00 00000000 00000000`, the header, `0002 00000004 00000001 ffffffff`, a row, and `ffff`,
/// with the types int4 and text, the one row is `00000001` and null.
#[derive(Drop)]
pub struct PgCopyReader<'r> {
    types: Vec<PgTypeInfo>,
    left: Option<&'r [u8]>,
}

impl<'r> Model for PgCopyReader<'r> {
    ghost use Rattle.std.specs.Option.{option_copied};
    ghost use Rattle.pgv_copy.specs.CopyView.{Copying, copying_code};

    ghost Value = { Copying };

    ghost coded = { copying_code };

    ghost view = { λ r. record { types = r.types.items; left = option_copied r.left } };
}

impl<'r> PgCopyReader<'r> {
    /// A reader of the rows of a stream whose columns have these types. The header is read: its flags 0 to 15 and its
    /// extension are passed over.
    ///
    /// A wrong signature, even where it is cut off, and a set flag of 16 to 31 (16 means that rows have OIDs) are
    /// refused with [`Syntax`](CodecError::Syntax) (C29), bytes that end within a header with
    /// [`Short`](CodecError::Short) (C15), and a negative length of the extension with
    /// [`NegativeLength`](CodecError::NegativeLength) (C16).
    pub fn new(bytes: &'r [u8], types: Vec<PgTypeInfo>) -> Result<Self, CodecError>
        ensures { GivesExactly (λ reader. reader) (opened types.items bytes.now) result }
    {
        let left = after_header(bytes)?;
        Ok(PgCopyReader {
            types,
            left: Some(left),
        })
    }

    /// The next row, a value in binary format for each column; `None` at the end of the stream and from then on; bytes
    /// after the end are ignored. The values live as long as the bytes of the stream.
    ///
    /// Bytes that end before the stream does are refused with [`Short`](CodecError::Short) (C15), a negative number of
    /// fields but the -1 of the end, and a negative length of a field but the -1 of null, with
    /// [`NegativeLength`](CodecError::NegativeLength) (C16), and another number than that of the columns with
    /// [`FieldCount`](CodecError::FieldCount) (C12). A refused call leaves the reader as it was. Only the list, from
    /// the allocator of the types, and the copy of a custom type take memory: so [`Memory`](CodecError::Memory) (C1)
    /// comes only where the fields of a row are read, and not at the trailer or after it.
    #[inline(always)]
    pub fn next_row(&mut self) -> Result<Option<Vec<PgValueRef<'r>>>, CodecError>
        ensures exact { Gives (λ found. (option_map (λ row. row.items) found, self.new))
            (next_row_of self.old) result }
        ensures unmoved { OnErr result (self.new ≡ self.old) }
        // Each row takes bytes, so a loop over the rows ends.
        ensures shorter { IfOk result (λ found. OnSome found
            (bytes_left self.new < bytes_left self.old)) }
    {
        let mut row = Vec::new(*self.types.allocator());
        if self.next_row_into(&mut row)? {
            Ok(Some(row))
        } else {
            Ok(None)
        }
    }

    /// The next row into a list that the caller keeps, in place of what is in it: whether there is one. It is read, and
    /// refused, as by [`PgCopyReader::next_row`]; a refused call may leave some values of the row in the list.
    ///
    /// No memory is asked for where the list has room for a value of each column, as it has after a row, and no
    /// column's type is custom.
    ///
    /// The values are read where they lie, as by `i32::decode_by_ref(alloc, &row[0])`, or taken from the last one on,
    /// by `row.pop()`: `row.drain(..)` turns the list round first.
    #[inline(always)]
    #[tactic(auto, unfolding(crate::specs::CopyBinary::step))]
    pub fn next_row_into(&mut self, row: &mut Vec<PgValueRef<'r>>) -> Result<bool, CodecError>
        ensures exact { Gives (λ there. (filled there row.new.items, self.new))
            (next_row_in (vec_capacity row.old) self.old) result }
        ensures unmoved { OnErr result (self.new ≡ self.old) }
        ensures shorter { IfOk result (λ there. there ≡ true
            → bytes_left self.new < bytes_left self.old) }
        ensures room { vec_capacity row.old ≤ vec_capacity row.new }
        ensures enough { IfOk result (λ there. there ≡ true
            → length self.old.types ≤ vec_capacity row.new) }
    {
        row.clear();
        let Some(bytes) = self.left else {
            return Ok(false);
        };
        let Some(mut rest) = after_count(bytes, self.types.len())? else {
            self.left = None;
            return Ok(false);
        };
        read_fields(self.types.as_slice(), &mut rest, row)?;
        self.left = Some(rest);
        Ok(true)
    }
}

/// What comes after the header of a stream: the signature, the flags, and the extension, which is passed over.
pub fn after_header(bytes: &[u8]) -> Result<&[u8], CodecError>
    ensures { GivesExactly (λ rest. rest.now) (after_header bytes.now) result }
{
    after_extension(after_flags(after_signature(bytes)?)?)
}

/// What comes after the signature.
#[tactic(auto, unfolding(crate::specs::CopyBinary::after_signature))]
fn after_signature(bytes: &[u8]) -> Result<&[u8], CodecError>
    ensures { GivesExactly (λ rest. rest.now) (signature_passed bytes.now) result }
{
    if bytes.len() < SIGNATURE.len() {
        return Err(if bytes == &SIGNATURE[..bytes.len()] {
            CodecError::Short
        } else {
            CodecError::Syntax
        });
    }
    let (front, rest) = bytes.split_at(SIGNATURE.len());
    if front != SIGNATURE.as_slice() {
        return Err(CodecError::Syntax);
    }
    Ok(rest)
}

/// What comes after the flags.
#[tactic(auto, unfolding(crate::specs::CopyBinary::after_flags))]
fn after_flags(bytes: &[u8]) -> Result<&[u8], CodecError>
    ensures { GivesExactly (λ rest. rest.now) (flags_passed bytes.now) result }
{
    let (flags, rest) = u32_in_front(bytes)?;
    if flags > MAX_FLAGS {
        return Err(CodecError::Syntax);
    }
    Ok(rest)
}

/// What comes after the extension, which is passed over.
#[tactic(auto, unfolding(crate::specs::CopyBinary::after_extension))]
fn after_extension(bytes: &[u8]) -> Result<&[u8], CodecError>
    ensures { GivesExactly (λ rest. rest.now) (extension_passed bytes.now) result }
{
    let (length, rest) = u32_in_front(bytes)?;
    if length > MAX_LENGTH {
        return Err(CodecError::NegativeLength(length.cast_signed()));
    }
    let length = length as usize;
    if rest.len() < length {
        return Err(CodecError::Short);
    }
    Ok(&rest[length..])
}

/// What comes after the number of a row's fields, which has to be this one, or none at the trailer.
#[inline(always)]
#[tactic(auto, unfolding(crate::specs::CopyBinary::after_count))]
pub fn after_count(bytes: &[u8], width: usize) -> Result<Option<&[u8]>, CodecError>
    ensures { GivesFront (GivesExactly option_copied (count_passed width bytes.now))
        (λ found. IfSome found (λ rest. length rest.now < length bytes.now)) result }
{
    let (count, rest) = i16_in_front(bytes)?;
    if count == TRAILER {
        return Ok(None);
    }
    if count < 0 {
        return Err(CodecError::NegativeLength(i32::from(count)));
    }
    if count as usize != width {
        return Err(CodecError::FieldCount);
    }
    Ok(Some(rest))
}

/// A field of each type, into an empty list. The bytes are moved on after those that were read.
#[inline(always)]
pub fn read_fields<'r>(
    types: &[PgTypeInfo],
    bytes: &mut &'r [u8],
    row: &mut Vec<PgValueRef<'r>>,
) -> Result<(), CodecError>
    requires { row.old.items ≡ [] }
    ensures exact { Gives (λ _. (row.new.items, bytes.new.now))
        (listed (vec_capacity row.old) types.now bytes.old.now) result }
    ensures within { OnOk result (length bytes.new.now ≤ length bytes.old.now) }
    ensures room { vec_capacity row.old ≤ vec_capacity row.new }
    ensures enough { OnOk result (length types.now ≤ vec_capacity row.new) }
{
    row.reserve(types.len())?;
    for type_info in types {
        let type_info = type_info.clone()?;
        row.push_reserved(PgValueRef::get(bytes, PgValueFormat::Binary, type_info)?);
    }
    Ok(())
}
