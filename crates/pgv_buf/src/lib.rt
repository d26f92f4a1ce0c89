//! Bytes with holes and slots: what the argument buffer is made of.
//!
//! A value is written as a list of *tokens*: a byte, a hole that names a type whose OID isn't known yet, or a slot that
//! depends on the type of the parameter that it is bound to. [`Tokens`] keeps such a list as one flat run of bytes,
//! which can be sent as it is, and beside it the distances from hole to hole and from slot to slot. Contracts see the
//! list alone, each token with the bytes that it shows.
#![tactic(auto)]

mod fill;
mod mark;
mod places;
mod tokens;

pub use mark::Mark;
pub use tokens::Tokens;
