//! Sessions over the codec, line by line: what each line asks for is answered by what the codec writes and reads
//! ([`answer`]). The module [`laws`] says what lines and inputs are.
#![tactic(auto)]

mod copied;
pub mod laws;
mod line;
mod session;
mod type_name;
mod value;

pub use line::split_at_byte;
pub use session::answer;
