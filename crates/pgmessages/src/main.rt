//! `pgmessages`: shows what recorded sessions with a server are. A line of standard input is `NAME sent HEX`, what a
//! driver sent, or `NAME came HEX`, what the server sent. Each message is shown on a line of its own: of what was sent
//! whether this library writes the same bytes, of what came its parts, and of rows each value under its column's type.
//! The rows of the session `catalog` are those of the server's catalogue: they make the types of the sessions after it.
//! What is refused ends its session, with the refusal on a line of its own.
#![tactic(auto)]

mod body;
mod came;
mod fault;
mod lines;
mod sent;
mod show;

use crate::fault::Fault;
use crate::lines::shown;
use std::io::BufReader;
use std::process::ExitCode;

fn main(rt: HostRuntime) -> ExitCode {
    match printed(&rt) {
        Ok(()) => ExitCode::SUCCESS,
        Err(fault) => {
            let _told = eprintln!(rt; "pgmessages: {fault}");
            ExitCode::FAILURE
        }
    }
}

/// Prints what the lines of standard input show.
fn printed(rt: &(impl AllocGlobal + Input + Print)) -> Result<(), Fault> {
    let mut reader = BufReader::new(rt.alloc(), rt.reader()).or(Err(Fault::Memory))?;
    let text = shown(rt.alloc(), &mut reader)?;
    print!(rt; "{text}").or(Err(Fault::Write))
}
