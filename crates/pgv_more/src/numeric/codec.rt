//! Numbers with any number of digits, written and read (PostgreSQL, "Numeric Types", numeric).

ghost use Rattle.std.specs.Prelude.{◌≡◌, ◌+◌, ◌≤◌, length, drop, OnErr, refl};
ghost use Rattle.pgv_types.specs.Ty.{builtin};
ghost use Rattle.pgv_types.specs.Relations.{softly};
ghost use Rattle.pgv_value.specs.Outcome.{Gives};
ghost use Rattle.pgv_codec.specs.Appending.{Appends, Encodes, Extends};
ghost use Rattle.pgv_codec.specs.Encoding.{plainly};
ghost use Rattle.pgv_more.specs.Numeric.{Numeric, digit_written, digits_after, digits_written, head_form, number, numeric_image, numeric_in_binary, numeric_of, parse_numeric, sign_of as sign_of_word, sign_word as sign_as_word, signed_word, unsigned_word};

use super::{PgNumeric, PgNumericSign};
use byteorder::{BigEndian, ByteOrder};
use pgv_codec::{Encode, IsNull, PgArgumentBuffer, PgHasArrayType, Plain, Type};
use pgv_types::{PgType, PgTypeInfo};
use pgv_value::{CodecError, PgValueFormat, PgValueRef};
use std::alloc::{AllocError, Global};

/// How many digits may be written.
const DIGIT_LIMIT: usize = 32_767;

/// The sign of a number that is not below zero.
const POSITIVE: u16 = 0;

/// The sign of a number below zero.
const NEGATIVE: u16 = 0x4000;

/// The word in place of the sign for NaN.
const NOT_A_NUMBER: u16 = 0xc000;

/// `numeric` (OID 1700), read under `numeric` and domains over it.
impl Type for PgNumeric {
    ghost info = { builtin 1700 };

    ghost accepts = { λ t. softly t (builtin 1700) };

    fn type_info() -> PgTypeInfo {
        PgTypeInfo(PgType::Numeric)
    }

    fn compatible(type_info: &PgTypeInfo) -> bool {
        type_info.type_compatible(&Self::type_info())
    }
}

/// An array of them is `numeric[]` (OID 1231).
impl PgHasArrayType for PgNumeric {
    ghost array_info = { builtin 1231 };

    ghost accepts_array = { λ t. softly t (builtin 1231) };

    fn array_type_info() -> PgTypeInfo {
        PgTypeInfo(PgType::NumericArray)
    }

    fn array_compatible(type_info: &PgTypeInfo) -> bool {
        type_info.type_compatible(&Self::array_type_info())
    }
}

/// Appends a digit, as a word of two bytes. One outside 0 to 9999 is refused with
/// [`NumericDigit`](CodecError::NumericDigit) (C8).
fn write_digit(digit: &i16, out: &mut PgArgumentBuffer) -> Result<(), CodecError>
    ensures exact { Appends (digit_written digit.now) out.old out.new result }
    ensures appended { OnErr result (Extends out.old out.new) }
{
    if !PgNumeric::is_valid_digit(*digit) {
        return Err(CodecError::NumericDigit(*digit));
    }
    let form = digit.to_be_bytes();
    out.extend_from_slice(&form)?;
    Ok(())
}

/// Appends the digits, a word each. One outside 0 to 9999 is refused with [`NumericDigit`](CodecError::NumericDigit)
/// (C8).
fn write_digits(digits: &[i16], out: &mut PgArgumentBuffer) -> Result<(), CodecError>
    ensures exact { Appends (digits_written digits.now) out.old out.new result }
    ensures appended { OnErr result (Extends out.old out.new) }
{
    for digit in digits {
        write_digit(digit, out)?;
    }
    Ok(())
}

/// The words in front of the digits.
fn head_of(count: u16, weight: i16, sign: u16, scale: i16) -> [u8; 8]
    ensures { result ≡ head_form count weight sign scale }
{
    let mut head = [0u8; 8];
    BigEndian::write_u16(&mut head[0..], count);
    BigEndian::write_i16(&mut head[2..], weight);
    BigEndian::write_u16(&mut head[4..], sign);
    BigEndian::write_i16(&mut head[6..], scale);
    head
}

/// Appends a number. More than 32767 digits are refused with [`NumericDigits`](CodecError::NumericDigits) (C7).
fn write_number(
    sign: PgNumericSign,
    digits: &[i16],
    weight: i16,
    scale: i16,
    out: &mut PgArgumentBuffer,
) -> Result<IsNull, CodecError>
    ensures encodes { Encodes (numeric_image (number sign digits.now weight scale))
        out.old out.new result }
    ensures appended { OnErr result (Extends out.old out.new) }
{
    let count = digits.len();
    if count > DIGIT_LIMIT {
        return Err(CodecError::NumericDigits(count));
    }
    let head = head_of(count as u16, weight, sign_word(sign), scale);
    out.reserve(8 + 2 * count)?;
    out.extend_from_slice(&head)?;
    write_digits(digits, out)?;
    Ok(IsNull::No)
}

/// How a sign is written.
fn sign_word(sign: PgNumericSign) -> u16
    ensures { result ≡ sign_as_word sign }
{
    match sign {
        PgNumericSign::Positive => POSITIVE,
        PgNumericSign::Negative => NEGATIVE,
    }
}

/// Written as words of two bytes: the number of digits, the weight, the sign, the scale, and the digits: 123.45 as
/// `0002 0000 0000 0002 007b 1194`, and `NaN` as `0000 0000 c000 0000`. More than 32767 digits are refused with
/// [`NumericDigits`](CodecError::NumericDigits) (C7), and a digit outside 0 to 9999 with
/// [`NumericDigit`](CodecError::NumericDigit) (C8).
impl Encode for PgNumeric {
    ghost encoding = { λ n. plainly (numeric_image (numeric_of n)) };

    fn encode_by_ref(&self, out: &mut PgArgumentBuffer) -> Result<IsNull, CodecError> {
        match self {
            PgNumeric::NotANumber => {
                out.extend_from_slice(&head_of(0, 0, NOT_A_NUMBER, 0))?;
                Ok(IsNull::No)
            }
            PgNumeric::Number {
                sign,
                digits,
                weight,
                scale,
            } => write_number(*sign, digits.as_slice(), *weight, *scale, out),
        }
    }

    fn size_hint(&self) -> usize {
        0
    }

    fn produces(&self) -> Result<Option<PgTypeInfo>, AllocError> {
        Ok(None)
    }
}

/// The number without a sign of the two bytes at a place.
fn unsigned_at(form: &[u8], place: usize) -> u16
    requires { place + 2 ≤ length form.now }
    ensures { result ≡ unsigned_word (drop place form.now) }
{
    BigEndian::read_u16(&form[place..])
}

/// The signed number of the two bytes at a place.
fn signed_at(form: &[u8], place: usize) -> i16
    requires { place + 2 ≤ length form.now }
    ensures { result ≡ signed_word (drop place form.now) }
{
    BigEndian::read_i16(&form[place..])
}

/// This number of digits, of any value, whatever comes after them.
#[inline(always)]
fn read_digits(alloc: Global, count: u16, form: &[u8]) -> Result<Vec<i16>, CodecError>
    ensures { Gives (λ v. v.items) (digits_after count form.now) result }
{
    let count = count as usize;
    if form.len() < 2 * count {
        return Err(CodecError::Short);
    }
    let mut digits = Vec::with_capacity(alloc, count)?;
    for place in 0..count {
        digits.push(signed_at(form, 2 * place))?;
    }
    Ok(digits)
}

/// The sign of a word.
fn sign_of(word: u16) -> Option<PgNumericSign>
    ensures { result ≡ sign_of_word word }
{
    match word {
        POSITIVE => Some(PgNumericSign::Positive),
        NEGATIVE => Some(PgNumericSign::Negative),
        _ => None,
    }
}

/// The number of bytes.
#[inline(always)]
fn of_bytes(alloc: Global, form: &[u8]) -> Result<PgNumeric, CodecError>
    ensures { Gives numeric_of (numeric_in_binary form.now) result }
{
    if form.len() < 8 {
        return Err(CodecError::Short);
    }
    let (_, rest) = form.split_at(8);
    let word = unsigned_at(form, 4);
    if word == NOT_A_NUMBER {
        return Ok(PgNumeric::NotANumber);
    }
    let Some(sign) = sign_of(word) else {
        return Err(CodecError::NumericSign(word));
    };
    Ok(PgNumeric::Number {
        sign,
        digits: read_digits(alloc, unsigned_at(form, 0), rest)?,
        weight: signed_at(form, 2),
        scale: signed_at(form, 6),
    })
}

/// Read from words as they are written, with digits of any value, and whatever comes after them. The sign `c000` is
/// `NaN`, whatever the other words are; another sign is refused with [`NumericSign`](CodecError::NumericSign) (C34),
/// and bytes that end too early with [`Short`](CodecError::Short) (C15). A text is refused with
/// [`TextUnsupported`](CodecError::TextUnsupported) (C18), and null with [`UnexpectedNull`](CodecError::UnexpectedNull)
/// (C13). Memory is asked for only by the digits: `NaN`, and a number without digits, are never refused as out of
/// memory. A number is read back as it is.
impl Plain for PgNumeric {
    ghost use Rattle.pgv_more.specs.NumericBackLemmas.{numeric_back};

    ghost View = { Numeric };

    ghost view = { numeric_of };

    ghost parse = { parse_numeric };

    ghost null = { λ _ _. refl };

    ghost written = { λ _ m. plainly (numeric_image m) };

    #[inline(always)]
    fn read(alloc: Global, value: &PgValueRef<'_>) -> Result<PgNumeric, CodecError> {
        let bytes = value.as_bytes()?;
        match value.format() {
            PgValueFormat::Binary => of_bytes(alloc, bytes),
            PgValueFormat::Text => Err(CodecError::TextUnsupported),
        }
    }

    ghost reads_back = { numeric_back };

    ghost agrees = { λ _. refl };
}
