//! The program: it reads lines and writes an answer for each, over the session that answers them.
//!
//! [`run`] reads the lines of any reader and writes the answers to any writer, so a test double that shows the bytes of
//! a statement's parameters takes it as it is. [`serve`] does so over standard input and output.
#![tactic(auto)]

mod runner;
mod standard;

pub use runner::{MayWait, RunFault, fault_text, run};
pub use standard::serve;
