//! A session over standard input and output, which is all that a program over this crate is.

use crate::runner::{RunFault, fault_text, run};
use std::env::{self, Env};
use std::io::{self, BufReader, BufWriter, ErrorKind};
use std::process::ExitCode;

/// What is printed where the program is given an argument: it takes none.
const USAGE: &str =
    "usage: pgvalue, with lines on standard input, as in: printf 'add int4 7\\nwire\\n' | pgvalue";

/// Answers the lines of standard input on standard output, each before it waits for the next. A fault is named on
/// standard error, and then the status is 1. With an argument nothing is read: the status is 2, and standard error says
/// how the program is used.
pub fn serve(rt: &(impl AllocGlobal + Env + Input + Print + Eprint)) -> ExitCode {
    match serve_lines(rt) {
        Ok(true) => ExitCode::SUCCESS,
        Ok(false) => {
            let _told = eprintln!(rt; "{USAGE}");
            ExitCode::from(2)
        }
        Err(fault) => {
            let _told = eprintln!(rt; "{}", fault_text(&fault));
            ExitCode::FAILURE
        }
    }
}

/// Whether the lines were answered, since there is no argument; with the fault as it is.
fn serve_lines(rt: &(impl AllocGlobal + Env + Input + Print)) -> Result<bool, RunFault> {
    if has_arguments(rt)? {
        return Ok(false);
    }
    serve_buffered(rt)?;
    Ok(true)
}

/// Whether the program was given an argument, one that isn't UTF-8 too.
fn has_arguments(rt: &(impl AllocGlobal + Env)) -> Result<bool, RunFault> {
    match env::args(rt) {
        Ok(words) => Ok(words.len() > 1),
        Err(error) => match error.kind() {
            ErrorKind::OutOfMemory => Err(RunFault::Memory),
            _ => Ok(true),
        },
    }
}

/// Answers the lines of standard input.
fn serve_buffered(rt: &(impl AllocGlobal + Input + Print)) -> Result<(), RunFault> {
    let Ok(mut reader) = BufReader::new(rt.alloc(), rt.reader()) else {
        return Err(RunFault::Memory);
    };
    let Ok(mut writer) = BufWriter::new(rt.alloc(), io::writer(rt)) else {
        return Err(RunFault::Memory);
    };
    run(rt.alloc(), &mut reader, &mut writer)
}
