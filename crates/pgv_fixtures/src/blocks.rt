//! The blocks of standard input.

use crate::fault::Fault;
use crate::input::read_all;
use crate::tries::Tries;
use std::alloc::Global;
use std::process::ExitCode;

/// What the blocks of a program are.
pub trait Blocks {
    /// The first row that doesn't hold of a block of this kind, if there is one; the kind, where the program has none
    /// such.
    fn first_differing<'a>(
        &self,
        alloc: Global,
        tries: &Tries,
        kind: &'a str,
        rows: &'a str,
    ) -> Option<&'a str>;
}

/// The first row of a block that doesn't hold, if there is one.
fn first_of<'a, B: Blocks>(
    alloc: Global,
    tries: &Tries,
    blocks: &B,
    block: &'a str,
) -> Option<&'a str> {
    match block.split_once('\n') {
        Some((kind, rows)) => blocks.first_differing(alloc, tries, kind, rows),
        None => Some(block),
    }
}

/// Prints that all rows hold, and how many calls were made again, if any.
fn print_ok(tries: &Tries, rt: &impl Print) -> Result<(), Fault> {
    match tries.again() {
        0 => println!(rt; "ok").or(Err(Fault::Write)),
        again => println!(rt; "ok again {again}").or(Err(Fault::Write)),
    }
}

/// Compares all blocks of standard input, and prints what differs, or `ok`. Whether all rows hold.
fn compared<B: Blocks>(blocks: &B, rt: &(impl AllocGlobal + Input + Print)) -> Result<bool, Fault> {
    let tries = Tries::new();
    let read = read_all(rt.alloc(), &tries, &mut rt.reader())?;
    let mut all = true;
    for block in read.text()?.split("====\n") {
        if let Some(row) = first_of(rt.alloc(), &tries, blocks, block) {
            all = false;
            println!(rt; "{row}").or(Err(Fault::Write))?;
        }
    }
    if all {
        print_ok(&tries, rt)?;
    }
    Ok(all)
}

/// All that a program of rows does: it compares them, and its status is 1 where one doesn't hold. A fault is named on
/// standard error.
pub fn serve<B: Blocks>(
    blocks: &B,
    name: &str,
    rt: &(impl AllocGlobal + Input + Print + Eprint),
) -> ExitCode {
    match compared(blocks, rt) {
        Ok(true) => ExitCode::SUCCESS,
        Ok(false) => ExitCode::FAILURE,
        Err(fault) => {
            let _told = eprintln!(rt; "{name}: {}", fault.text());
            ExitCode::FAILURE
        }
    }
}
