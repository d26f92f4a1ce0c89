//! Frames: a length and that many bytes, or null.

ghost use Rattle.std.specs.Prelude.{◌≡◌, ◌≢◌, ◌+◌, ◌<◌, ◌≤◌, length, MatchOption};
ghost use Rattle.std.specs.Int.{w32, to_be_bytes};
ghost use Rattle.std.specs.Option.{option_copied};
ghost use Rattle.pgv_value.specs.FrameBinary.{front, frame_fault, front_length, max_length, IsPartOfLength};
ghost use Rattle.pgv_value.specs.Parsed.{GivesFront, GivesOr};

use crate::error::CodecError;

/// The length that means null: -1, as an unsigned number.
pub const NULL_LENGTH: u32 = 0xffff_ffff;
/// The largest length of a part, and the largest number of elements, of pairs or of bits: 2147483647.
pub const MAX_LENGTH: u32 = 0x7fff_ffff;

/// The part of the frame in front, null or bytes, and the rest: of `0000000161ff` it is `61`, and the rest is `ff`.
/// Bytes that end too early are refused with [`Short`](CodecError::Short) (C15), and a negative length but -1, which is
/// null, with [`NegativeLength`](CodecError::NegativeLength) (C16).
#[inline(always)]
#[tactic(auto, unfolding(crate::specs::FrameBinary::front))]
pub fn part_in_front(bytes: &[u8]) -> Result<(Option<&[u8]>, &[u8]), CodecError>
    ensures { GivesFront
        (GivesOr (λ p. (option_copied p.0, p.1.now)) (front bytes.now) (frame_fault bytes.now))
        (λ p. length p.1.now < length bytes.now) result }
{
    if bytes.len() < 4 {
        return Err(CodecError::Short);
    }
    let length = length_in_front(bytes);
    let (_length, rest) = bytes.split_at(4);
    if length == NULL_LENGTH {
        return Ok((None, rest));
    }
    if length > MAX_LENGTH {
        return Err(CodecError::NegativeLength(length.cast_signed()));
    }
    let length = length as usize;
    if rest.len() < length {
        return Err(CodecError::Short);
    }
    let (part, rest) = rest.split_at(length);
    Ok((Some(part), rest))
}

/// The part of the frame in front and the rest, if it has this length, and else `None`: of `0000000161ff` and 1 it is
/// `61`, and the rest is `ff`. A value whose length is known, as a number's, is found by one comparison so.
#[tactic(auto, using(crate::proofs::Fronts::front_of_size))]
#[inline(always)]
pub fn part_of_length(bytes: &[u8], size: usize) -> Option<(&[u8], &[u8])>
    requires short { size ≤ 16 }
    requires there { 4 + size ≤ length bytes.now }
    ensures { MatchOption result (front_length bytes.now ≢ size)
        (λ p. IsPartOfLength bytes.now size p.0.now p.1.now) }
{
    if length_in_front(bytes) as usize != size {
        return None;
    }
    let (_length, rest) = bytes.split_at(4);
    Some(rest.split_at(size))
}

/// The length in front, as it is written.
#[inline(always)]
fn length_in_front(bytes: &[u8]) -> u32
    requires { 4 ≤ length bytes.now }
    ensures { result ≡ front_length bytes.now }
{
    u32::from_be_bytes([bytes[0], bytes[1], bytes[2], bytes[3]])
}

/// The length of a part as the four bytes in front of it, or `None` if it is above 2147483647. They are turned round
/// before that is asked: where LLVM knows that the highest bit is 0, it takes five instructions in place of one.
#[inline(always)]
pub fn length_bytes(length: usize) -> Option<[u8; 4]>
    ensures { MatchOption result (max_length < length)
        (λ bytes. (length ≤ max_length) × (bytes ≡ to_be_bytes w32 length)) }
{
    let turned = ((length % 0x1_0000_0000) as u32).swap_bytes();
    if length > MAX_LENGTH as usize {
        return None;
    }
    Some(turned.to_le_bytes())
}
