//! `pgv_hostile`: changes the bytes of each row of standard input in every small way, and reads what comes of it. Each
//! answer has to be a refusal, or a value whose frame is read as the same value. Values that have no frame of their own
//! are only read: tuples, `()`, lists of tuples and lists of arrays. It prints how many mutants there were, and what
//! came of them. Then it makes the calls of [`large`], and prints a line for each.
//!
//! A row is a line of `pgvalue`, `read TYPE HEX`, `add TYPE TEXT` or `copy HEX TYPE ..`, whose answers come of
//! [`pgv_runner::run`]; or `RUST | TYPE | PART`, which is read by calls at a Rust type, as the readings of
//! `pgv_calls` are: PART is `b` and hex, `t` and a text, or `x` and a text in hex.
#![tactic(auto)]

mod calls;
mod fault;
mod large;
mod mutants;
mod rows;
mod sessions;
mod tally;
mod trial;

use crate::fault::Fault;
use crate::rows::tried;
use std::io::BufReader;
use std::process::ExitCode;

fn main(rt: HostRuntime) -> ExitCode {
    match printed(&rt) {
        Ok(()) => ExitCode::SUCCESS,
        Err(fault) => {
            let _told = eprintln!(rt; "pgv_hostile: {}", fault.text());
            ExitCode::FAILURE
        }
    }
}

/// Prints what comes of the rows of standard input, and of the large calls.
fn printed(rt: &(impl AllocGlobal + Input + Print)) -> Result<(), Fault> {
    let mut reader = BufReader::new(rt.alloc(), rt.reader()).or(Err(Fault::Memory))?;
    let text = tried(rt.alloc(), &mut reader)?;
    print!(rt; "{text}").or(Err(Fault::Write))?;
    large::print(rt).or(Err(Fault::Write))
}
