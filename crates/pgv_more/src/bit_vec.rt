//! Lists of bits (PostgreSQL, "Bit String Types"), kept as bytes, eight bits to a byte, the first of them the highest.

ghost use Rattle.std.specs.Prelude.{◌≡◌, ◌≢◌, ◌↔◌, ◌++◌, ◌+◌, ◌*◌, ◌%◌, ◌^◌, ◌<◌, ◌≤◌, ◌==◌, Bool, false, List, [], ◌∷◌, length, take, map, slice_get, IfOk, MatchResult, OnOk, OnErr, IsOk, IsSome, option_to_list};
ghost use Rattle.pgv_value.specs.Reading.{has_items};
ghost use Rattle.pgv_more.specs.Bits.{bits_of, byte_count, low_bits, number_of, packed};
ghost use Rattle.std.specs.List.{list_all};
ghost use Rattle.pgv_more.specs.BitsText.{bits_in_text, is_bit_digit, is_one};

mod codec;

use crate::bytea::copy_of;
use std::alloc::{AllocError, Global};
use std::marker::Model;

/// A list of bits, such as `101`.
///
/// A contract sees it as a list of truth values, the first bit first. It is kept as bytes; in the last of them what is
/// after the last bit is zero.
#[derive(Debug)]
pub struct BitVec {
    bytes: Vec<u8>,
    count: usize,
}

/// Its parts go. It is written out since a derived one is proved again in each crate above.
impl Drop for BitVec {
    #[inline(always)]
    fn drop(self) {
        let BitVec { bytes: _, count: _ } = self;
    }
}

impl Model for BitVec {
    ghost use Rattle.std.specs.Prelude.{◌≡◌, ◌*◌, ◌≤◌, Bool, List, length, take};
    ghost use Rattle.pgv_more.specs.Bits.{bits_of, packed};

    ghost Value = { List Bool };

    ghost view = { λ b. take b.count (bits_of b.bytes.items) };

    ghost invariant = { λ b. (b.count ≤ 8 * length b.bytes.items) × (b.bytes.items ≡ packed (take b.count (bits_of b.bytes.items))) };
}

impl BitVec {
    /// No bits. It takes no memory yet.
    #[tactic(auto, using(crate::proofs::Kept::no_bytes))]
    pub fn new(alloc: Global) -> BitVec
        ensures { result ≡ [] }
    {
        BitVec {
            bytes: Vec::new(alloc),
            count: 0,
        }
    }

    /// The list of these bits, in their order: `[true, false, true]` is `101`. For no bits no memory is asked for.
    pub fn from_bits(alloc: Global, bits: Vec<bool>) -> Result<BitVec, AllocError>
        ensures { MatchResult result (λ b. b ≡ bits.items) (λ _. bits.items ≢ []) }
    {
        Ok(BitVec {
            bytes: bytes_of(alloc, bits.as_slice())?,
            count: bits.len(),
        })
    }

    /// All bits of these bytes: `ff80` gives `11111111 10000000`. For no bytes no memory is asked for.
    pub fn from_bytes(alloc: Global, bytes: &[u8]) -> Result<BitVec, AllocError>
        ensures { MatchResult result (λ b. b ≡ bits_of bytes.now) (λ _. bytes.now ≢ []) }
    {
        let Some(count) = bytes.len().checked_mul(8) else {
            return Err(AllocError);
        };
        Ok(BitVec {
            bytes: copy_of(alloc, bytes)?,
            count,
        })
    }

    /// The first `count` bits of bytes, which are as many as these bits need. For no bits no memory is asked for.
    pub(crate) fn from_packed(
        alloc: Global,
        bytes: &[u8],
        count: usize,
    ) -> Result<BitVec, AllocError>
        requires { length bytes.now ≡ byte_count count }
        ensures { MatchResult result (λ b. b ≡ take count (bits_of bytes.now)) (λ _. count ≢ 0) }
    {
        let mut bytes = copy_of(alloc, bytes)?;
        cut(&mut bytes, count);
        Ok(BitVec { bytes, count })
    }

    /// The bits of digits `0` and `1`, where there are only these, which is seen before memory is asked for. For no
    /// bits none is.
    pub(crate) fn from_digits(alloc: Global, digits: &[u8]) -> Result<Option<BitVec>, AllocError>
        ensures { MatchResult result (λ b. b ≡ bits_in_text digits.now)
            (λ _. has_items (bits_in_text digits.now) ≢ false) }
    {
        if !are_digits(digits) {
            return Ok(None);
        }
        Ok(Some(BitVec {
            bytes: bytes_of(alloc, digits)?,
            count: digits.len(),
        }))
    }

    /// The bits in bytes, eight to a byte, the first of them the highest; what is after the last bit is zero. `101` is
    /// `a0`.
    pub fn to_bytes(&self) -> Result<Vec<u8>, AllocError>
        ensures { IfOk result (λ v. v.items ≡ packed self.now) }
    {
        self.bytes.clone()
    }

    /// The bytes of [`to_bytes`](BitVec::to_bytes), as they are kept.
    pub(crate) fn as_bytes(&self) -> &[u8]
        ensures { result.now ≡ packed self.now }
    {
        self.bytes.as_slice()
    }

    /// How many bits there are.
    #[tactic(auto, using(crate::proofs::Kept::kept_count))]
    pub fn len(&self) -> usize
        ensures { result ≡ length self.now }
    {
        self.count
    }

    /// Whether there is no bit.
    #[tactic(auto, using(crate::proofs::Kept::kept_count))]
    pub fn is_empty(&self) -> bool
        ensures { result ≡ (length self.now == 0) }
    {
        self.count == 0
    }

    /// The bit at this place, from 0 on; `None` after the last. In `101` the bit at 1 is false, and at 3 it is `None`.
    pub fn get(&self, index: usize) -> Option<bool>
        ensures { result ≡ slice_get self.now index }
    {
        if index >= self.count {
            return None;
        }
        Some(self.bytes[index / 8] >> (7 - index % 8) & 1 == 1)
    }

    /// Appends a bit. If memory runs out, the bits stay as they were. Only the first bit of a new byte may ask for
    /// memory.
    pub fn push(&mut self, bit: bool) -> Result<(), AllocError>
        ensures ok { OnOk result (self.new ≡ self.old ++ bit ∷ []) }
        ensures err { OnErr result (self.new ≡ self.old) }
        ensures in_begun_byte { 0 < length self.old % 8
            → length self.old + 1 < 2 ^ 64 → IsOk result }
    {
        let Some(more) = self.count.checked_add(1) else {
            return Err(AllocError);
        };
        append_bit(&mut self.bytes, self.count, bit)?;
        self.count = more;
        Ok(())
    }

    /// Removes the last bit and returns it, if there is one.
    pub fn pop(&mut self) -> Option<bool>
        ensures bits { self.old ≡ self.new ++ option_to_list result }
        ensures variant { IsSome result ↔ (0 < length self.old) }
    {
        let last = self.count.checked_sub(1)?;
        let bit = self.get(last);
        cut(&mut self.bytes, last);
        self.count = last;
        bit
    }
}

/// Two lists of bits are equal iff they have the same bits.
impl PartialEq for BitVec {
    ghost use Rattle.pgv_more.specs.SameBits.{same_bits, same_bits_per};

    ghost eq = { same_bits };

    ghost laws = { same_bits_per };

    fn eq(&self, other: &BitVec) -> bool {
        self.count == other.count && self.bytes == other.bytes
    }
}

impl Eq for BitVec {
    ghost use Rattle.pgv_more.specs.SameBits.{same_bits_equiv};

    ghost laws = { same_bits_equiv };
}

/// The byte with one more bit, at this place from the front.
#[tactic(auto, using(crate::proofs::BitsOfByte::bit_set, crate::proofs::BitsOfByte::bit_unset))]
fn with_bit(byte: u8, place: usize, bit: bool) -> u8
    requires { place < 8 }
    ensures { (bits : List Bool) → length bits ≡ place → byte ≡ number_of 8 bits
        → result ≡ number_of 8 (bits ++ bit ∷ []) }
{
    if bit { byte | 0x80 >> place } else { byte }
}

/// The first `many` bits of a byte, with zeros after them.
#[tactic(auto, using(crate::proofs::BitsOfByte::first_is))]
fn first_of_byte(byte: u8, many: usize) -> u8
    requires { (0 < many) × (many ≤ 8) }
    ensures { result ≡ number_of 8 (take many (low_bits 8 byte)) }
{
    byte & 0xff << (8 - many)
}

/// A value that represents a bit: a truth value, or a digit, which is set if it is `1`.
trait Bit: Copy {
    /// Whether the bit is set.
    ghost set: { Self → Bool };

    /// Whether the bit is set.
    fn is_set(self) -> bool
        ensures { result ≡ set self };
}

impl Bit for bool {
    ghost set = { λ bit. bit };

    fn is_set(self) -> bool {
        self
    }
}

impl Bit for u8 {
    ghost set = { is_one };

    fn is_set(self) -> bool {
        self == b'1'
    }
}

/// The byte of at most eight bits.
#[tactic(auto, unfolding(crate::specs::Bits::number_of))]
fn byte_of<B: Bit>(bits: &[B]) -> u8
    requires { length bits.now ≤ 8 }
    ensures { result ≡ number_of 8 (map B.set bits.now) }
{
    let mut byte = 0;
    for place in 0..bits.len() {
        byte = with_bit(byte, place, bits[place].is_set());
    }
    byte
}

/// The bytes of bits. For no bits no memory is asked for.
fn bytes_of<B: Bit>(alloc: Global, bits: &[B]) -> Result<Vec<u8>, AllocError>
    ensures { MatchResult result (λ v. v.items ≡ packed (map B.set bits.now))
        (λ _. bits.now ≢ []) }
{
    let mut bytes = Vec::with_capacity(alloc, bits.len().div_ceil(8))?;
    for chunk in bits.chunks(8) {
        bytes.push(byte_of(chunk))?;
    }
    Ok(bytes)
}

/// Whether there are only digits `0` and `1`.
fn are_digits(text: &[u8]) -> bool
    ensures { result ≡ list_all is_bit_digit text.now }
{
    text.iter().all(|digit| *digit == b'0' || *digit == b'1')
}

/// Appends a bit to the bytes of `count` bits. Refused, it leaves them.
fn append_bit(bytes: &mut Vec<u8>, count: usize, bit: bool) -> Result<(), AllocError>
    requires { length bytes.old.items ≡ byte_count count }
    ensures ok { OnOk result ((bits : List Bool) → count ≡ length bits
        → bytes.old.items ≡ packed bits → bytes.new.items ≡ packed (bits ++ bit ∷ [])) }
    ensures err { OnErr result (bytes.new.items ≡ bytes.old.items) }
    ensures in_begun_byte { 0 < count % 8 → IsOk result }
{
    let place = count % 8;
    if place == 0 {
        bytes.push(with_bit(0, 0, bit))?;
    } else {
        bytes[count / 8] = with_bit(bytes[count / 8], place, bit);
    }
    Ok(())
}

/// Cuts bytes to their first `count` bits, with zeros after them in the last byte.
fn cut(bytes: &mut Vec<u8>, count: usize)
    requires { count ≤ 8 * length bytes.old.items }
    ensures { bytes.new.items ≡ packed (take count (bits_of bytes.old.items)) }
{
    bytes.truncate(count.div_ceil(8));
    let place = count % 8;
    if place > 0 {
        bytes[count / 8] = first_of_byte(bytes[count / 8], place);
    }
}
