//! Texts of whole numbers and of the type "char".

ghost use Rattle.std.specs.Prelude.{◌≡◌, ◌↔◌, IsTrue, EachIndex, slice_index, if◌then◌else◌};
ghost use Rattle.std.specs.Int.{IsInRange};
ghost use Rattle.std.specs.Str.Parse.{IsNumeral, without_leading_plus, without_leading_sign};
ghost use Rattle.pgv_scalar_text.specs.IntText.{IsComputed, IsUnsignedComputed};
ghost use Rattle.pgv_scalar_text.specs.ScalarText.{char_value, octal_byte};

/// Why a text is not a number of its type.
#[derive(Debug, Clone, Copy, PartialEq, Eq, Drop)]
pub enum NumberFault {
    /// It is not written as a number.
    Syntax,
    /// It is a number outside the type.
    OutOfRange,
}

fn without_plus(bytes: &[u8]) -> &[u8]
    ensures { result.now ≡ without_leading_plus bytes.now }
{
    match bytes {
        [b'+', rest @ ..] => rest,
        _ => bytes,
    }
}

fn without_sign(bytes: &[u8]) -> &[u8]
    ensures { result.now ≡ without_leading_sign bytes.now }
{
    match bytes {
        [b'+' | b'-', rest @ ..] => rest,
        _ => bytes,
    }
}

fn are_digits(bytes: &[u8]) -> bool
    ensures { IsTrue result ↔ EachIndex bytes.now (λ k. IsInRange 48 57 (slice_index bytes.now k)) }
{
    bytes.iter().all(|byte| byte.is_ascii_digit())
}

/// Whether there is one digit or more, and nothing else.
#[tactic(auto, using(crate::proofs::ParsedInts::by_index, crate::proofs::ParsedInts::each_digit))]
fn is_numeral(bytes: &[u8]) -> bool
    ensures { IsTrue result ↔ IsNumeral 10 bytes.now }
{
    !bytes.is_empty() && are_digits(bytes)
}

fn fault_of(is_number: bool) -> NumberFault
    ensures { result ≡ (if is_number then NumberFault.OutOfRange else NumberFault.Syntax) }
{
    if is_number {
        NumberFault::OutOfRange
    } else {
        NumberFault::Syntax
    }
}

/// The number of a text: perhaps `+` or `-`, and one or more digits, as PostgreSQL writes `int2`, `int4` and `int8`. A
/// refusal says whether the text is not a number, or a number that does not fit in 64 bits.
#[inline(always)]
pub fn number_of(text: &str) -> Result<i64, NumberFault>
    ensures { IsComputed text.now result }
{
    match text.parse::<i64>() {
        Ok(number) => Ok(number),
        Err(_) => Err(fault_of(is_numeral(without_sign(text.as_bytes())))),
    }
}

/// The number of a text without a minus: perhaps `+`, and one or more digits, as PostgreSQL writes `oid`. A refusal
/// says whether the text is not such a number, or one that does not fit in 64 bits.
pub fn unsigned_number_of(text: &str) -> Result<u64, NumberFault>
    ensures { IsUnsignedComputed text.now result }
{
    match text.parse::<u64>() {
        Ok(number) => Ok(number),
        Err(_) => Err(fault_of(is_numeral(without_plus(text.as_bytes())))),
    }
}

/// The byte of three octal digits up to 377.
fn octal_byte_of(digits: &[u8]) -> Option<u8>
    ensures { result ≡ octal_byte digits.now }
{
    match digits {
        [high @ b'0'..=b'3', middle @ b'0'..=b'7', low @ b'0'..=b'7'] => Some(
            (high - b'0') * 64 + (middle - b'0') * 8 + (low - b'0'),
        ),
        _ => None,
    }
}

/// The value of a text of the type "char", a byte that is read as a signed one: nothing is 0, `\`
/// alone is itself, `\` and three octal digits up to 377 is their byte, and a text that begins
/// otherwise its first byte. `None` for other texts that begin with `\`.
pub fn char_of(text: &str) -> Option<i8>
    ensures { result ≡ char_value text.now }
{
    match text.as_bytes() {
        [] => Some(0),
        [b'\\'] => Some(92),
        [b'\\', digits @ ..] => octal_byte_of(digits).map(|byte| byte.cast_signed()),
        [first, ..] => Some(first.cast_signed()),
    }
}
