//! What the texts of dates, times and offsets are made of: fields of digits, separators, and the fraction of a second.
//! Each function reads the front of a text, and gives the text after it.

ghost use Rattle.std.specs.Prelude.{◌≡◌, ◌≤◌};
ghost use Rattle.std.specs.Option.{option_copied};
ghost use Rattle.pgv_scalar_text.specs.FieldText as spec;

/// The text after this byte.
pub(crate) fn after(text: &[u8], byte: u8) -> Option<&[u8]>
    ensures { option_copied result ≡ spec.after_byte byte text.now }
{
    match text {
        [first, rest @ ..] if *first == byte => Some(rest),
        _ => None,
    }
}

/// The number of two digits.
pub(crate) fn two(text: &[u8]) -> Option<(u8, &[u8])>
    ensures { spec.IsFrontBelow 100 (spec.two text.now) result }
{
    match text {
        [high @ b'0'..=b'9', low @ b'0'..=b'9', rest @ ..] => {
            Some(((high - b'0') * 10 + (low - b'0'), rest))
        }
        _ => None,
    }
}

/// The number of two digits, if it is below the limit.
pub(crate) fn two_below(text: &[u8], limit: u8) -> Option<(u8, &[u8])>
    ensures { spec.IsFrontBelow limit (spec.two_below limit text.now) result }
{
    let (number, rest) = two(text)?;
    if number < limit {
        Some((number, rest))
    } else {
        None
    }
}

/// The number of four digits.
pub(crate) fn four(text: &[u8]) -> Option<(u16, &[u8])>
    ensures { spec.IsFrontBelow 10_000 (spec.four text.now) result }
{
    let (high, text) = two(text)?;
    let (low, text) = two(text)?;
    Some((high as u16 * 100 + low as u16, text))
}

/// What the digits at the front are worth, the first of them this unit and each other a tenth of the one before it,
/// down to 1.
fn worth(text: &[u8], unit: u32) -> (u32, &[u8])
    requires { unit ≤ 100_000 }
    ensures { spec.AreWorth unit text.now result.0 result.1.now }
{
    match text {
        [digit @ b'0'..=b'9', rest @ ..] if unit > 0 => {
            let (less, rest) = worth(rest, unit / 10);
            ((digit - b'0') as u32 * unit + less, rest)
        }
        _ => (0, text),
    }
}

/// The nanoseconds of a fraction of a second, of one to six digits, or 0 where the text does not begin with `.`.
pub(crate) fn fraction(text: &[u8]) -> Option<(u32, &[u8])>
    ensures { spec.IsFrontBelow 1_000_000_000 (spec.fraction text.now) result }
{
    match text {
        [b'.', b'0'..=b'9', ..] => {
            let (micros, rest) = worth(&text[1..], 100_000);
            Some((micros * 1000, rest))
        }
        [b'.', ..] => None,
        _ => Some((0, text)),
    }
}
