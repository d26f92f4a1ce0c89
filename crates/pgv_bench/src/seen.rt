//! What is counted of a value that was read, so that both sides of a comparison have something to compare.

use jiff::Timestamp;
use jiff::civil::{Date, DateTime, Time};
use pgv_ltree::{PgLQuery, PgLTree};
use pgv_more::{BitVec, MacAddress, PgBytea, PgCiText, PgHstore, PgMoney, PgNumeric, PgTimeTz};
use pgv_range::PgRange;
use pgv_scalar_text::IpNetwork;
use pgv_value::PgInterval;
use std::ops::Bound;
use uuid::Uuid;

/// What is counted of a value.
pub trait Seen {
    /// A number that the value determines.
    fn seen(&self) -> usize;
}

impl Seen for i32 {
    fn seen(&self) -> usize {
        self.cast_unsigned() as usize
    }
}

impl Seen for i64 {
    fn seen(&self) -> usize {
        self.cast_unsigned() as usize
    }
}

impl Seen for bool {
    fn seen(&self) -> usize {
        *self as usize
    }
}

impl Seen for Uuid {
    fn seen(&self) -> usize {
        self.as_bytes()[0] as usize
    }
}

impl Seen for String {
    fn seen(&self) -> usize {
        self.len()
    }
}

/// The sum of what is seen of the fields.
impl<A: Seen, B: Seen, C: Seen, D: Seen, E: Seen> Seen for (A, B, C, D, E) {
    fn seen(&self) -> usize {
        let (a, b, c, d, e) = self;
        let front = a.seen().wrapping_add(b.seen()).wrapping_add(c.seen());
        front.wrapping_add(d.seen()).wrapping_add(e.seen())
    }
}

impl<T: Seen> Seen for Option<T> {
    fn seen(&self) -> usize {
        match self {
            Some(value) => value.seen(),
            None => 0,
        }
    }
}

impl<T: Seen> Seen for Vec<T> {
    fn seen(&self) -> usize {
        match self.last() {
            Some(value) => self.len().wrapping_add(value.seen()),
            None => 0,
        }
    }
}

impl<A: Seen, B: Seen> Seen for (A, B) {
    fn seen(&self) -> usize {
        self.0.seen().wrapping_add(self.1.seen())
    }
}

impl Seen for Date {
    fn seen(&self) -> usize {
        self.day().cast_unsigned() as usize
    }
}

impl Seen for Time {
    fn seen(&self) -> usize {
        self.second().cast_unsigned() as usize
    }
}

impl Seen for DateTime {
    fn seen(&self) -> usize {
        self.second().cast_unsigned() as usize
    }
}

impl Seen for Timestamp {
    fn seen(&self) -> usize {
        self.as_second().cast_unsigned() as usize
    }
}

impl Seen for PgTimeTz {
    fn seen(&self) -> usize {
        self.offset.seconds().cast_unsigned() as usize
    }
}

impl Seen for PgInterval {
    fn seen(&self) -> usize {
        self.days.cast_unsigned() as usize
    }
}

impl Seen for IpNetwork {
    fn seen(&self) -> usize {
        self.prefix() as usize
    }
}

impl Seen for MacAddress {
    fn seen(&self) -> usize {
        self.bytes()[5] as usize
    }
}

impl Seen for BitVec {
    fn seen(&self) -> usize {
        self.len()
    }
}

impl Seen for PgBytea {
    fn seen(&self) -> usize {
        self.0.len()
    }
}

impl Seen for PgCiText {
    fn seen(&self) -> usize {
        self.0.len()
    }
}

impl Seen for PgHstore {
    fn seen(&self) -> usize {
        self.0.len()
    }
}

impl Seen for PgMoney {
    fn seen(&self) -> usize {
        self.0.cast_unsigned() as usize
    }
}

impl Seen for PgNumeric {
    fn seen(&self) -> usize {
        match self {
            PgNumeric::NotANumber => 0,
            PgNumeric::Number { digits, .. } => digits.len(),
        }
    }
}

impl Seen for PgRange<i32> {
    fn seen(&self) -> usize {
        match self {
            PgRange::Empty => 0,
            PgRange::Bounds { start, .. } => match start {
                Bound::Included(start) => start.seen(),
                Bound::Excluded(start) => start.seen(),
                Bound::Unbounded => 0,
            },
        }
    }
}

impl Seen for PgLTree {
    fn seen(&self) -> usize {
        self.as_slice().len()
    }
}

impl Seen for PgLQuery {
    fn seen(&self) -> usize {
        self.as_slice().len()
    }
}
