//! A range by its bounds.

ghost use Rattle.std.specs.Prelude.{◌≡◌, Some, false};
ghost use Rattle.std.specs.Fmt.{DisplaysOnOk};
ghost use Rattle.std.specs.Option.{option_map};
ghost use Rattle.std.specs.Range.Bound.{bound_map};
ghost use Rattle.pgv_range.specs.RangeShown.{end_text, start_text};
ghost use Rattle.pgv_range.specs.declared.range.PgRange.TheVariants.{Bounds, Empty};

use std::fmt;
use std::ops::{Bound, Range, RangeFrom, RangeInclusive, RangeTo, RangeToInclusive};

/// A range of PostgreSQL ("Range Types"): no value at all, or all from a lower to an upper bound. The bounds may be
/// any, so the lower one may be above the upper one, and `10..10` is a range of bounds, although for a server it has no
/// value.
#[derive(Clone, Copy, PartialEq, Eq, Debug)]
pub enum PgRange<T> {
    /// The empty range, which has no bounds.
    Empty,
    /// From a bound to a bound.
    Bounds {
        /// The lower bound.
        start: Bound<T>,
        /// The upper bound.
        end: Bound<T>,
    },
}

impl<T> PgRange<T> {
    ghost use Rattle.pgv_range.specs.RangeView.{bounds_of, is_empty as is_empty_range, lower_of, upper_of};

    /// The empty range.
    pub fn empty() -> PgRange<T>
        ensures { result ≡ Empty }
    {
        PgRange::Empty
    }

    /// Whether the range is the empty one. A range of bounds is not, whatever values are between them.
    pub fn is_empty(&self) -> bool
        ensures { result ≡ is_empty_range self.now }
    {
        match self {
            PgRange::Empty => true,
            PgRange::Bounds { .. } => false,
        }
    }

    /// The lower and the upper bound, by reference; `None` for the empty range.
    pub fn bounds(&self) -> Option<(Bound<&T>, Bound<&T>)>
        ensures { option_map (λ b. (bound_map (λ x. x.now) b.0, bound_map (λ x. x.now) b.1)) result
            ≡ bounds_of self.now }
    {
        match self {
            PgRange::Empty => None,
            PgRange::Bounds { start, end } => Some((start.as_ref(), end.as_ref())),
        }
    }

    /// The lower bound, by reference. It must not be called on the empty range, which has none: test with `is_empty`.
    pub fn start_bound(&self) -> Bound<&T>
        requires { is_empty_range self.now ≡ false }
        ensures { lower_of self.now ≡ Some (bound_map (λ x. x.now) result) }
    {
        match self {
            PgRange::Empty => unreachable!(),
            PgRange::Bounds { start, .. } => start.as_ref(),
        }
    }

    /// The upper bound, by reference. It must not be called on the empty range, which has none: test with `is_empty`.
    pub fn end_bound(&self) -> Bound<&T>
        requires { is_empty_range self.now ≡ false }
        ensures { upper_of self.now ≡ Some (bound_map (λ x. x.now) result) }
    {
        match self {
            PgRange::Empty => unreachable!(),
            PgRange::Bounds { end, .. } => end.as_ref(),
        }
    }
}

/// The lower bound and the upper one.
impl<T: Copy> From<[Bound<T>; 2]> for PgRange<T> {
    ghost use Rattle.pgv_range.specs.RangeView.{HasBothBounds};

    ghost from_gives = { HasBothBounds };

    fn from(bounds: [Bound<T>; 2]) -> PgRange<T> {
        PgRange::Bounds {
            start: bounds[0],
            end: bounds[1],
        }
    }
}

/// The lower bound and the upper one.
impl<T> From<(Bound<T>, Bound<T>)> for PgRange<T> {
    ghost from_gives = { λ bounds r. r ≡ Bounds bounds.0 bounds.1 };

    fn from(bounds: (Bound<T>, Bound<T>)) -> PgRange<T> {
        let (start, end) = bounds;
        PgRange::Bounds { start, end }
    }
}

/// `1..10` is from 1 to 10 without 10.
impl<T> From<Range<T>> for PgRange<T> {
    ghost use Rattle.std.specs.declared.ops.Bound.TheVariants.{Included, Excluded};

    ghost from_gives = { λ range r. r ≡ Bounds (Included range.start) (Excluded range.end) };

    fn from(range: Range<T>) -> PgRange<T> {
        PgRange::Bounds {
            start: Bound::Included(range.start),
            end: Bound::Excluded(range.end),
        }
    }
}

/// `1..` is from 1 on.
impl<T> From<RangeFrom<T>> for PgRange<T> {
    ghost use Rattle.std.specs.declared.ops.Bound.TheVariants.{Included, Unbounded};

    ghost from_gives = { λ range r. r ≡ Bounds (Included range.start) Unbounded };

    fn from(range: RangeFrom<T>) -> PgRange<T> {
        PgRange::Bounds {
            start: Bound::Included(range.start),
            end: Bound::Unbounded,
        }
    }
}

/// `1..=10` is from 1 to 10, also where it was iterated.
impl<T> From<RangeInclusive<T>> for PgRange<T> {
    ghost use Rattle.std.specs.Range.{range_inclusive_start, range_inclusive_end};
    ghost use Rattle.std.specs.declared.ops.Bound.TheVariants.{Included};

    ghost from_gives = { λ range r. r ≡ Bounds (Included (range_inclusive_start range)) (Included (range_inclusive_end range)) };

    fn from(range: RangeInclusive<T>) -> PgRange<T> {
        let (start, end) = range.into_inner();
        PgRange::Bounds {
            start: Bound::Included(start),
            end: Bound::Included(end),
        }
    }
}

/// `..10` is all below 10.
impl<T> From<RangeTo<T>> for PgRange<T> {
    ghost use Rattle.std.specs.declared.ops.Bound.TheVariants.{Excluded, Unbounded};

    ghost from_gives = { λ range r. r ≡ Bounds Unbounded (Excluded range.end) };

    fn from(range: RangeTo<T>) -> PgRange<T> {
        PgRange::Bounds {
            start: Bound::Unbounded,
            end: Bound::Excluded(range.end),
        }
    }
}

/// `..=10` is all up to 10.
impl<T> From<RangeToInclusive<T>> for PgRange<T> {
    ghost use Rattle.std.specs.declared.ops.Bound.TheVariants.{Included, Unbounded};

    ghost from_gives = { λ range r. r ≡ Bounds Unbounded (Included range.end) };

    fn from(range: RangeToInclusive<T>) -> PgRange<T> {
        PgRange::Bounds {
            start: Bound::Unbounded,
            end: Bound::Included(range.end),
        }
    }
}

/// `empty`; or `(` or `[`, the lower bound, `,`, the upper bound, `)` or `]`: square where the bound is included. A
/// bound that is missing prints nothing, and a round bracket. `1..10` prints `[1,10)`. Values are printed as they are,
/// without quotes.
impl<T: fmt::Display> fmt::Display for PgRange<T> {
    ghost use Rattle.pgv_range.specs.RangeShown.{range_text};

    ghost output = { range_text T.output };

    fn fmt<W: fmt::Write>(&self, f: &mut fmt::Formatter<W>) -> fmt::Result {
        match self {
            PgRange::Empty => f.write_str("empty"),
            PgRange::Bounds { start, end } => {
                write_start(start, f)?;
                f.write_str(",")?;
                write_end(end, f)
            }
        }
    }
}

/// The bracket of a lower bound, and its value.
fn write_start<T: fmt::Display, W: fmt::Write>(
    start: &Bound<T>,
    f: &mut fmt::Formatter<W>,
) -> fmt::Result
    ensures { DisplaysOnOk W.write_str_gives f.old result (start_text T.output start.now) f.new }
{
    match start {
        Bound::Unbounded => f.write_str("("),
        Bound::Excluded(value) => write!(f, "({value}"),
        Bound::Included(value) => write!(f, "[{value}"),
    }
}

/// The value of an upper bound, and its bracket.
fn write_end<T: fmt::Display, W: fmt::Write>(
    end: &Bound<T>,
    f: &mut fmt::Formatter<W>,
) -> fmt::Result
    ensures { DisplaysOnOk W.write_str_gives f.old result (end_text T.output end.now) f.new }
{
    match end {
        Bound::Unbounded => f.write_str(")"),
        Bound::Excluded(value) => write!(f, "{value})"),
        Bound::Included(value) => write!(f, "{value}]"),
    }
}
