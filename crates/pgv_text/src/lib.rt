//! Readers of the texts that PostgreSQL writes for values that are made of others: the lists of optional texts in
//! arrays, ranges and records. They know no types and no wire format, and each returns a value exactly where the text
//! is in its grammar.
#![tactic(auto)]

pub mod elements;
pub mod laws;
pub mod nest;
pub mod parts;
pub mod scanner;

pub use elements::{Elements, Next};
pub use nest::{RangeText, array_elements, range_parts, record_fields};
pub use parts::{Part, Parts};
pub use scanner::TextForm;
