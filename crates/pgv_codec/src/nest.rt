//! What is read from arrays and records in binary without knowing what their parts are: the head of an array, and the
//! type of a record's field. The codecs read the parts.
//!
//! The module [`laws`] proves that these readers follow the grammar of whole arrays and records.

pub mod array;
pub mod laws;
pub mod record;

pub use array::{ArrayHead, array_head_of};
pub use record::field_head_of;
