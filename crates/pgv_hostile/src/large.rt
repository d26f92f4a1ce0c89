//! Calls at sizes past every bound at which a body could give up. There is enough memory, so each has to succeed.

mod arguments;
mod back;
mod lists;
mod pushes;
mod rows;
mod texts;
mod trees;

use pgv::CodecError;
use std::alloc::Global;
use std::io;

/// How many calls there are.
const CALLS: u32 = 20;

/// A call of arguments, lists and texts: what it is, and what came of it.
fn flat(alloc: Global, place: u32) -> (&'static str, Result<bool, CodecError>) {
    match place {
        0 => ("70,000 arguments", arguments::numbers(alloc)),
        1 => ("70,000 arguments at once", arguments::each(alloc)),
        2 => ("100,000 holes", arguments::holes(alloc)),
        3 => ("2,000,000 elements", lists::in_binary(alloc)),
        4 => ("2,000,000 elements in text", lists::in_text(alloc)),
        5 => ("a text of 4 MB", texts::characters(alloc)),
        6 => ("bytes of 4 MB", texts::bytes(alloc)),
        7 => ("bits of 4 MB", texts::bits(alloc)),
        8 => ("a line of 4 MB", texts::line(alloc)),
        9 => ("a name of 1,000 characters", texts::name(alloc)),
        _ => nested(alloc, place),
    }
}

/// A call of what is made of parts.
fn nested(alloc: Global, place: u32) -> (&'static str, Result<bool, CodecError>) {
    match place {
        10 => ("a composite of 1,700 fields", rows::composite(alloc)),
        11 => ("a record text of 1,700 fields", rows::in_text(alloc)),
        12 => ("a COPY row of 1,700 fields", rows::copied(alloc)),
        13 => ("32,767 digits", trees::digits(alloc)),
        14 => ("a tree of 65,535 labels", trees::tree(alloc)),
        15 => ("a query of 65,535 levels", trees::query(alloc)),
        16 => ("a map of 100,000 pairs", trees::map(alloc)),
        17 => ("100,000 labels, pushed", pushes::labels(alloc)),
        18 => ("100,000 levels, pushed", pushes::levels(alloc)),
        _ => ("1,200,000 bits, pushed", pushes::bits(alloc)),
    }
}

/// A word for what came of a call.
fn word(made: &Result<bool, CodecError>) -> &'static str {
    match made {
        Ok(true) => "ok",
        Ok(false) => "another value",
        Err(_) => "refused",
    }
}

/// Prints what came of each call: a line `WHAT: ok`, and else what it was.
pub fn print(rt: &(impl AllocGlobal + Print)) -> io::Result<()> {
    for place in 0..CALLS {
        let (what, made) = flat(rt.alloc(), place);
        let word = word(&made);
        println!(rt; "{what}: {word}")?;
    }
    Ok(())
}
