//! A range type of one's own: `create type floatrange as range (subtype = float8)`.
//!
//! It is a [`PgRange`](pgv::types::PgRange) of the Rust type of its bounds, which states the name. So the range is
//! written, read and read back, and there are arrays of it.

use crate::float8::Float8;
use pgv::PlainRange;

/// A `PgRange<PgPlain<Float8>>` is a `floatrange`, and an array of them a `floatrange[]`, known by its name.
impl PlainRange for Float8 {
    ghost use Rattle.std.specs.Prelude.{codes};

    ghost range_name = { codes "floatrange" };

    fn range_name() -> &'static str {
        "floatrange"
    }
}
