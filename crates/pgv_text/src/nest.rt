//! The texts of arrays, of ranges and of records, as lists. What is computed of a text is what it denotes, by the laws
//! [`array_is_its_values`](crate::laws::array_is_its_values),
//! [`record_is_its_values`](crate::laws::record_is_its_values) and
//! [`range_is_computed`](crate::laws::range_is_computed).

ghost use Rattle.std.specs.Prelude.{◌≡◌, ◌≢◌, [], Some, IfOk, MatchResult, is_some, length, true};
ghost use Rattle.std.specs.Option.{option_map};
ghost use Rattle.std.specs.Str.{chars};
ghost use Rattle.pgv_text.specs.ContentText.{empty, parts as parts_of, range_content};
ghost use Rattle.pgv_text.specs.PartsLeftView.{or_none};
ghost use Rattle.pgv_text.specs.PartsView.{nest};
ghost use Rattle.pgv_text.specs.RangeTextView.{range_of};
ghost use Rattle.pgv_text.specs.Values.{array_values, record_values, values_of};

use super::parts::Parts;
use super::scanner::TextForm;
use std::alloc::{AllocError, Global};

/// The elements of an array text of one dimension, as `{a,"b c",NULL}`; `None` if it is not an array text.
pub fn array_elements(alloc: Global, text: &str) -> Result<Option<Vec<Option<String>>>, AllocError>
    // Memory is asked for only where there are elements.
    ensures { MatchResult result (λ found. option_map values_of found ≡ array_values text.now)
        (λ _. or_none (array_values text.now) ≢ []) }
{
    match Parts::new(TextForm::Array, text) {
        None => Ok(None),
        Some(parts) => Ok(Some(parts.list(alloc)?)),
    }
}

/// The fields of a record text, as `(a,"b c",)`; `None` if it is not a record text.
pub fn record_fields(alloc: Global, text: &str) -> Result<Option<Vec<Option<String>>>, AllocError>
    // Memory is asked for only where there are fields.
    ensures { MatchResult result (λ found. option_map values_of found ≡ record_values text.now)
        (λ _. or_none (record_values text.now) ≢ []) }
{
    match Parts::new(TextForm::Record, text) {
        None => Ok(None),
        Some(parts) => Ok(Some(parts.list(alloc)?)),
    }
}

/// The range that a text denotes.
#[derive(Drop)]
pub enum RangeText {
    /// No value at all: the text is `empty`, in upper or lower case.
    Empty,
    /// Two bounds between brackets.
    Parts {
        /// The lower bound, where there is one.
        lower: Option<String>,
        /// The upper bound, where there is one.
        upper: Option<String>,
        /// Whether the opening bracket is a square one, which includes the lower bound.
        lower_included: bool,
        /// Whether the closing bracket is a square one, which includes the upper bound.
        upper_included: bool,
    },
}

/// The bounds of a range text, as `["a b",)`, and whether its brackets include them, or that the range is empty; `None`
/// if it is not a range text.
pub fn range_parts(alloc: Global, text: &str) -> Result<Option<RangeText>, AllocError>
    // Memory is asked for only where there are bounds.
    ensures { MatchResult result
        (λ found. option_map range_of found ≡ range_content (chars text.now))
        (λ _. (is_some (range_content (chars text.now)) ≡ true)
        × (range_content (chars text.now) ≢ Some empty)) }
{
    let Some(parts) = Parts::new(TextForm::Range, text) else {
        return Ok(None);
    };
    if parts.is_empty_range() {
        return Ok(Some(RangeText::Empty));
    }
    bounds_of(alloc, parts)
}

/// The two bounds of these parts; `None` where there are fewer.
fn bounds_of(alloc: Global, parts: Parts<'_>) -> Result<Option<RangeText>, AllocError>
    ensures two { IfOk result (λ found. length (nest parts.entry).values ≡ 2
        → option_map range_of found ≡ Some (parts_of (nest parts.entry))) }
{
    let (lower_included, upper_included) = parts.includes();
    let mut parts = parts;
    let Some(lower) = parts.next_part(alloc)? else {
        return Ok(None);
    };
    let Some(upper) = parts.next_part(alloc)? else {
        return Ok(None);
    };
    Ok(Some(RangeText::Parts {
        lower,
        upper,
        lower_included,
        upper_included,
    }))
}
