//! The flag byte of a range in binary (PostgreSQL's source, rangetypes.h).

ghost use Rattle.std.specs.Prelude.{◌≡◌};
ghost use Rattle.pgv_range.specs.FlagByte.{form_of_flags, flags_of, lower_flag, side_of, upper_flag};

use bitflags::{Flag, Flags, bitflag_items};
use std::ops::Bound;

/// A flag byte. Bits that have no name say nothing, and are ignored.
#[derive(Clone, Copy, PartialEq, Eq, Debug)]
pub(crate) struct RangeFlags(u8);

bitflag_items! {
    impl RangeFlags: u8 {
        const EMPTY = 1;
        const LB_INC = 2;
        const UB_INC = 4;
        const LB_INF = 8;
        const UB_INF = 16;
    }
}

impl Flags for RangeFlags {
    ghost use Rattle.std.specs.Prelude.{⊤, [], ◌∷◌, codes};

    type Bits = u8;

    ghost exact = { ⊤ };

    ghost table = { (codes "EMPTY", 1) ∷ (codes "LB_INC", 2) ∷ (codes "UB_INC", 4) ∷ (codes "LB_INF", 8) ∷ (codes "UB_INF", 16) ∷ [] };

    ghost set_of = { λ flags. flags.0 };

    fn flags<'a>() -> &'a [Flag<RangeFlags>] {
        RangeFlags::FLAGS
    }

    fn bits(&self) -> u8 {
        self.0
    }

    fn from_bits_retain(bits: u8) -> RangeFlags {
        RangeFlags(bits)
    }
}

/// What a flag byte says about a bound.
#[derive(Clone, Copy, Drop)]
pub(crate) enum Side {
    /// There is no bound.
    Infinite,
    /// It is included.
    Inclusive,
    /// It is not included.
    Exclusive,
}

/// What a flag byte says about a range.
#[derive(Clone, Copy, Drop)]
pub(crate) enum RangeForm {
    /// It is empty.
    Empty,
    /// It has a lower and an upper side.
    Sides(Side, Side),
}

impl RangeFlags {
    /// The flags of a range of these bounds.
    #[inline(always)]
    pub(crate) fn of<T>(start: &Bound<T>, end: &Bound<T>) -> RangeFlags
        ensures { result.0 ≡ flags_of start.now end.now }
    {
        let mut flags = RangeFlags::of_lower(start);
        flags.insert(RangeFlags::of_upper(end));
        flags
    }

    /// The flags of a lower bound.
    #[inline(always)]
    fn of_lower<T>(bound: &Bound<T>) -> RangeFlags
        ensures { result.0 ≡ lower_flag bound.now }
    {
        match bound {
            Bound::Included(_) => RangeFlags::LB_INC,
            Bound::Excluded(_) => RangeFlags(0),
            Bound::Unbounded => RangeFlags::LB_INF,
        }
    }

    /// The flags of an upper bound.
    #[inline(always)]
    fn of_upper<T>(bound: &Bound<T>) -> RangeFlags
        ensures { result.0 ≡ upper_flag bound.now }
    {
        match bound {
            Bound::Included(_) => RangeFlags::UB_INC,
            Bound::Excluded(_) => RangeFlags(0),
            Bound::Unbounded => RangeFlags::UB_INF,
        }
    }

    /// What the flags say of the range. The flag of the empty range comes before all others.
    pub(crate) fn form(self) -> RangeForm
        ensures { result ≡ form_of_flags self.0 }
    {
        if self.contains(RangeFlags::EMPTY) {
            return RangeForm::Empty;
        }
        RangeForm::Sides(
            self.side(RangeFlags::LB_INF, RangeFlags::LB_INC),
            self.side(RangeFlags::UB_INF, RangeFlags::UB_INC),
        )
    }

    /// What two flags say of a bound. If there is no bound, it does not matter whether it is included.
    fn side(self, infinite: RangeFlags, included: RangeFlags) -> Side
        ensures { result ≡ side_of self.0 infinite.0 included.0 }
    {
        if self.contains(infinite) {
            Side::Infinite
        } else if self.contains(included) {
            Side::Inclusive
        } else {
            Side::Exclusive
        }
    }
}
