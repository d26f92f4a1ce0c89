//! Maps of texts, written and read (PostgreSQL, appendix F, hstore).

ghost use Rattle.std.specs.Prelude.{true, List, OnErr, Some, refl, string_bytes, option_map, [], codes, map};
ghost use Rattle.pgv_types.specs.Ty.{array_of, named};
ghost use Rattle.pgv_types.specs.Relations.{softly};
ghost use Rattle.pgv_value.specs.Outcome.{Gives, after};
ghost use Rattle.pgv_value.specs.Parsed.{GivesExactly};
ghost use Rattle.pgv_codec.specs.Appending.{Appends, Extends};
ghost use Rattle.pgv_codec.specs.Encoding.{plainly};
ghost use Rattle.pgv_more.specs.Hstore.{Pair, pair_of, pairs_of, hstore_image, hstore_in_binary, key_at, size_form, part_written, pair_written, pairs_written, parse_hstore, put_read, text_at, map_value};

use super::{PgHstore, put_pair};
use pgv_codec::{Encode, IsNull, PgArgumentBuffer, PgHasArrayType, Plain, Type};
use pgv_types::PgTypeInfo;
use pgv_value::{
    CodecError, MAX_LENGTH, NULL_LENGTH, PgValueFormat, PgValueRef, length_bytes, part_in_front,
    u32_in_front,
};
use std::alloc::{AllocError, Global};
use std::collections::BTreeMap;

/// `hstore`, of which only the name is known.
impl Type for PgHstore {
    ghost info = { named (codes "hstore") };

    ghost accepts = { λ t. softly t (named (codes "hstore")) };

    fn type_info() -> PgTypeInfo {
        PgTypeInfo::with_name("hstore")
    }

    fn compatible(type_info: &PgTypeInfo) -> bool {
        type_info.type_compatible(&Self::type_info())
    }
}

/// An array of them is the array of the type of this name.
impl PgHasArrayType for PgHstore {
    ghost array_info = { array_of (codes "hstore") };

    ghost accepts_array = { λ t. softly t (array_of (codes "hstore")) };

    fn array_type_info() -> PgTypeInfo {
        PgTypeInfo::array_of("hstore")
    }

    fn array_compatible(type_info: &PgTypeInfo) -> bool {
        type_info.type_compatible(&Self::array_type_info())
    }
}

/// A number of pairs, or a length, in four bytes. More than 2147483647 are refused with
/// [`HstoreLength`](CodecError::HstoreLength) (C9).
#[inline(always)]
#[tactic(auto, unfolding(crate::specs::Hstore::size_form))]
fn number_of(count: usize) -> Result<[u8; 4], CodecError>
    ensures { GivesExactly (λ number. number) (size_form count) result }
{
    length_bytes(count).ok_or(CodecError::HstoreLength((count as u64).cast_signed()))
}

/// Appends a key, or a value that isn't null: its length and its bytes. A longer one is refused with
/// [`HstoreLength`](CodecError::HstoreLength) (C9).
#[inline(always)]
#[tactic(auto, unfolding(crate::specs::Hstore::part_written))]
fn write_text(text: &String, out: &mut PgArgumentBuffer) -> Result<(), CodecError>
    ensures exact { Appends (part_written (Some (string_bytes text.now))) out.old out.new result }
    ensures appended { OnErr result (Extends out.old out.new) }
{
    let text = text.as_bytes();
    let number = number_of(text.len())?;
    out.extend_from_slice(&number)?;
    out.extend_from_slice(text)?;
    Ok(())
}

/// Appends a value, or null.
#[inline(always)]
#[tactic(auto, unfolding(crate::specs::Hstore::part_written))]
fn write_value(value: &Option<String>, out: &mut PgArgumentBuffer) -> Result<(), CodecError>
    ensures exact { Appends (part_written (option_map string_bytes value.now))
        out.old out.new result }
    ensures appended { OnErr result (Extends out.old out.new) }
{
    match value {
        Some(text) => write_text(text, out),
        None => Ok(out.extend_from_slice(&NULL_LENGTH.to_be_bytes())?),
    }
}

/// Appends a key and its value.
#[inline(always)]
#[tactic(auto, unfolding(crate::specs::Hstore::pair_written))]
fn write_pair(
    key: &String,
    value: &Option<String>,
    out: &mut PgArgumentBuffer,
) -> Result<(), CodecError>
    ensures exact { Appends (pair_written (pair_of (key.now, value.now))) out.old out.new result }
    ensures appended { OnErr result (Extends out.old out.new) }
{
    write_text(key, out)?;
    write_value(value, out)?;
    Ok(())
}

/// Appends the pairs, in the order of the keys.
#[inline(always)]
fn write_pairs(
    hstore: &BTreeMap<String, Option<String>>,
    out: &mut PgArgumentBuffer,
) -> Result<(), CodecError>
    ensures exact { Appends (after true (pairs_written (map pair_of hstore.now.entries)))
        out.old out.new result }
    ensures appended { OnErr result (Extends out.old out.new) }
{
    for (key, value) in hstore {
        write_pair(key, value, out)?;
    }
    Ok(())
}

/// Written as the number of pairs, and for each in the order of the keys its key and its value, each with its length in
/// front, -1 for null: `a => null` as `00000001 00000001 61 ffffffff`. More than 2147483647 pairs, or bytes of a key or
/// value, are refused with [`HstoreLength`](CodecError::HstoreLength) (C9).
impl Encode for PgHstore {
    ghost encoding = { λ h. plainly (hstore_image (pairs_of h)) };

    #[inline(always)]
    #[tactic(auto, unfolding(crate::specs::Hstore::hstore_image))]
    fn encode_by_ref(&self, out: &mut PgArgumentBuffer) -> Result<IsNull, CodecError> {
        let number = number_of(self.0.len())?;
        out.extend_from_slice(&number)?;
        write_pairs(&self.0, out)?;
        Ok(IsNull::No)
    }

    fn size_hint(&self) -> usize {
        0
    }

    fn produces(&self) -> Result<Option<PgTypeInfo>, AllocError> {
        Ok(None)
    }
}

/// A text of bytes, where they are UTF-8, else [`Utf8`](CodecError::Utf8) (C14).
#[tactic(auto, using(pgv_value::proofs::Fronts::whole_text))]
fn text_of(alloc: Global, form: &[u8]) -> Result<String, CodecError>
    ensures { Gives (λ text. string_bytes text) (text_at form.now) result }
{
    match str::from_utf8(form) {
        Ok(text) => Ok(String::from_str(alloc, text)?),
        Err(_) => Err(CodecError::Utf8),
    }
}

/// The key in front, and the rest. Null is refused with [`HstoreNullKey`](CodecError::HstoreNullKey) (C35).
fn key_in_front(alloc: Global, form: &[u8]) -> Result<(String, &[u8]), CodecError>
    ensures { Gives (λ p. (string_bytes p.0, p.1.now)) (key_at form.now) result }
{
    match part_in_front(form)? {
        (Some(part), rest) => Ok((text_of(alloc, part)?, rest)),
        (None, _) => Err(CodecError::HstoreNullKey),
    }
}

/// The value in front, and the rest.
fn value_in_front(alloc: Global, form: &[u8]) -> Result<(Option<String>, &[u8]), CodecError>
    ensures { Gives (λ p. (option_map string_bytes p.0, p.1.now)) (map_value form.now) result }
{
    match part_in_front(form)? {
        (Some(part), rest) => Ok((Some(text_of(alloc, part)?), rest)),
        (None, rest) => Ok((None, rest)),
    }
}

/// This number of pairs, each put into the map. Room is taken pair by pair, whatever the number says.
fn read_pairs(alloc: Global, count: u32, form: &[u8]) -> Result<PgHstore, CodecError>
    ensures { Gives pairs_of (put_read [] count form.now) result }
{
    let mut map = BTreeMap::new(alloc);
    let mut rest = form;
    for _ in 0..count {
        let (key, after) = key_in_front(alloc, rest)?;
        let (value, after) = value_in_front(alloc, after)?;
        put_pair(&mut map, key, value)?;
        rest = after;
    }
    Ok(PgHstore(map))
}

/// The map of bytes.
fn of_bytes(alloc: Global, form: &[u8]) -> Result<PgHstore, CodecError>
    ensures { Gives pairs_of (hstore_in_binary form.now) result }
{
    let (count, rest) = u32_in_front(form)?;
    if count > MAX_LENGTH {
        return Err(CodecError::HstoreLength(count.cast_signed() as i64));
    }
    read_pairs(alloc, count, rest)
}

/// Read as it is written, with pairs in any order and whatever comes after them; at a repeated key the last value is
/// kept. Fewer than four bytes, or pairs that end too early, are refused with [`Short`](CodecError::Short) (C15), a
/// negative number of pairs with [`HstoreLength`](CodecError::HstoreLength) (C9), a negative length but the -1 of a
/// null value with [`NegativeLength`](CodecError::NegativeLength) (C16), a null key with
/// [`HstoreNullKey`](CodecError::HstoreNullKey) (C35), and a key or value that isn't UTF-8 with
/// [`Utf8`](CodecError::Utf8) (C14). A text is refused with [`TextUnsupported`](CodecError::TextUnsupported) (C18), and
/// null with [`UnexpectedNull`](CodecError::UnexpectedNull) (C13). A map is read back as it was written.
impl Plain for PgHstore {
    ghost use Rattle.pgv_more.specs.HstoreBackLemmas.{hstore_back};

    ghost View = { List Pair };

    ghost view = { pairs_of };

    ghost parse = { parse_hstore };

    ghost null = { λ _ _. refl };

    ghost written = { λ _ ps. plainly (hstore_image ps) };

    fn read(alloc: Global, value: &PgValueRef<'_>) -> Result<PgHstore, CodecError> {
        let bytes = value.as_bytes()?;
        match value.format() {
            PgValueFormat::Binary => of_bytes(alloc, bytes),
            PgValueFormat::Text => Err(CodecError::TextUnsupported),
        }
    }

    ghost reads_back = { hstore_back };

    ghost agrees = { λ _. refl };
}
