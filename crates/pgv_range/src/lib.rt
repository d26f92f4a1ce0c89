//! Ranges: the empty one, or two bounds of a type, each included, excluded or missing, with what they are written as
//! and read from. Every type that can be written or read can be the type of the bounds.
#![tactic(auto)]

mod codec;
mod flags;
pub mod laws;
pub mod range;
mod types;

pub use range::PgRange;
pub use types::{PgHasRangeType, range_compatible};
