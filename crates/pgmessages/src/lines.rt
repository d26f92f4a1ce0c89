//! The lines of an input.

use crate::came::Came;
use crate::fault::Fault;
use crate::sent::{requests_of, written};
use pgv::catalog::PgServerTypes;
use pgv::message::PgExchange;
use std::alloc::Global;
use std::io::BufRead;

/// The line in front of its line feed.
fn without_line_feed(line: &[u8]) -> &[u8] {
    match line {
        [front @ .., b'\n'] => front,
        _ => line,
    }
}

/// The word in front of the first space, and what comes after it.
fn split_word(line: &str) -> Result<(&str, &str), Fault> {
    line.split_once(' ').ok_or(Fault::Line)
}

/// The text of a line.
fn text_of(line: &[u8]) -> Result<&str, Fault> {
    str::from_utf8(without_line_feed(line)).or(Err(Fault::Line))
}

/// What the lines of a reader show.
pub fn shown<R: BufRead>(alloc: Global, reader: &mut R) -> Result<String, Fault> {
    let mut out = String::new(alloc);
    let mut known = PgServerTypes::new(alloc);
    let mut exchange = PgExchange::new(alloc);
    let mut line = Vec::new(alloc);
    for _ in 0..u64::MAX {
        line.clear();
        match reader.read_until(b'\n', &mut line) {
            Ok(0) => return Ok(out),
            Ok(_) => {}
            Err(_) => return Err(Fault::Read),
        }
        let text = text_of(line.as_slice())?;
        show_line(alloc, text, &mut known, &mut exchange, &mut out)?;
    }
    Err(Fault::Read)
}

/// Appends what a line shows.
fn show_line(
    alloc: Global,
    line: &str,
    known: &mut PgServerTypes,
    exchange: &mut PgExchange,
    out: &mut String,
) -> Result<(), Fault> {
    let (name, rest) = split_word(line)?;
    let (direction, digits) = split_word(rest)?;
    let bytes = hex::decode(alloc, digits.as_bytes()).or(Err(Fault::Line))?;
    match direction {
        "sent" => {
            *exchange = PgExchange::new(alloc);
            show_sent(alloc, name, bytes.as_slice(), exchange, out)
        }
        "came" => show_came(alloc, name, bytes.as_slice(), known, exchange, out),
        _ => Err(Fault::Line),
    }
}

/// Appends whether this library writes what was sent, and notes its requests.
fn show_sent(
    alloc: Global,
    name: &str,
    bytes: &[u8],
    exchange: &mut PgExchange,
    out: &mut String,
) -> Result<(), Fault> {
    let ours = written(alloc, name)?;
    let is_same = ours.as_slice() == bytes;
    out.push_str(name)?;
    out.push_str(if is_same {
        ": sent as written here\n"
    } else {
        ": sent otherwise\n"
    })?;
    requests_of(bytes, exchange)
}

/// Appends what came, or what came up to what is refused, and the refusal.
fn show_came(
    alloc: Global,
    name: &str,
    bytes: &[u8],
    known: &mut PgServerTypes,
    exchange: &mut PgExchange,
    out: &mut String,
) -> Result<(), Fault> {
    out.push_str(name)?;
    out.push('\n')?;
    match show_session(alloc, name, bytes, known, exchange, out) {
        Err(Fault::Memory) => Err(Fault::Memory),
        Err(fault) => Ok(write!(out, "\n  refused: {fault}\n")?),
        Ok(()) => Ok(()),
    }
}

/// Appends what came, and whether all was answered, and keeps the types of the catalogue.
fn show_session(
    alloc: Global,
    name: &str,
    bytes: &[u8],
    known: &mut PgServerTypes,
    exchange: &mut PgExchange,
    out: &mut String,
) -> Result<(), Fault> {
    let mut came = Came::new(alloc, name == "catalog");
    came.show(alloc, bytes, known, exchange, out)?;
    if !exchange.is_idle() {
        out.push_str("  answers are still awaited\n")?;
    }
    came.finish(alloc, known)
}
