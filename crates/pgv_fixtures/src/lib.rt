//! What tests, programs of calls and benches share: types by the names that their rows have for them, types of a
//! caller's own that no example has, rows of calls with the blocks that they are in, and how an answer is printed. Its
//! functions have no contracts: the checker proves that they are safe.
#![tactic(auto)]

mod again;
mod blocks;
mod called;
mod empty_object;
mod fault;
mod input;
mod own;
mod rust_types;
mod tries;
mod types;
mod values;

pub use again::{Again, refused, same, told};
pub use blocks::{Blocks, serve};
pub use called::{Called, differing};
pub use empty_object::EmptyObject;
pub use fault::Fault;
pub use own::{Huge, MoodText, Size, SizeRange, size_ranges, sizes};
pub use rust_types::{AtType, at_type};
pub use tries::Tries;
pub use types::type_of;
pub use values::{bytes_of, read_again, read_shown, written};
