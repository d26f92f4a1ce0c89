//! The rows of an input, and what came of them.

use crate::fault::Fault;
use crate::tally::Tally;
use crate::{calls, sessions};
use std::alloc::{AllocError, Global};
use std::io::BufRead;

/// What came of the rows of each form.
#[derive(Clone, Copy)]
struct Tallies {
    read: Tally,
    add: Tally,
    copy: Tally,
    calls: Tally,
}

impl Tallies {
    fn new() -> Tallies {
        Tallies {
            read: Tally::new(),
            add: Tally::new(),
            copy: Tally::new(),
            calls: Tally::new(),
        }
    }

    /// A line for each form.
    fn text(&self, alloc: Global) -> Result<String, AllocError> {
        let mut out = String::new(alloc);
        self.read.push_line(alloc, "read", &mut out)?;
        self.add.push_line(alloc, "add", &mut out)?;
        self.copy.push_line(alloc, "copy", &mut out)?;
        self.calls.push_line(alloc, "calls", &mut out)?;
        Ok(out)
    }
}

/// The line in front of its line feed.
fn without_line_feed(line: &[u8]) -> &[u8] {
    match line {
        [front @ .., b'\n'] => front,
        _ => line,
    }
}

/// The word in front of the first space, and what comes after it.
fn split_word(line: &[u8]) -> Option<(&[u8], &[u8])> {
    let place = line.iter().position(|byte| *byte == b' ')?;
    let (word, rest) = line.split_at(place);
    Some((word, rest.get(1..)?))
}

/// The bytes of hex digits.
fn bytes_of(alloc: Global, digits: &[u8]) -> Result<Vec<u8>, Fault> {
    hex::decode(alloc, digits).or(Err(Fault::Row))
}

/// One row.
fn row(alloc: Global, line: &[u8], tallies: &mut Tallies) -> Result<(), Fault> {
    let (form, rest) = split_word(line).ok_or(Fault::Row)?;
    let (first, second) = split_word(rest).ok_or(Fault::Row)?;
    match form {
        b"read" => {
            let bytes = bytes_of(alloc, second)?;
            sessions::read(alloc, first, bytes.as_slice(), &mut tallies.read)
        }
        b"add" => sessions::add(alloc, first, second, &mut tallies.add),
        b"copy" => {
            let bytes = bytes_of(alloc, first)?;
            sessions::copy(alloc, bytes.as_slice(), second, &mut tallies.copy)
        }
        _ => match str::from_utf8(line) {
            Ok(line) => calls::call(alloc, line, &mut tallies.calls),
            Err(_) => Err(Fault::Row),
        },
    }
}

/// What comes of the rows of a reader: a line for each form of rows.
pub fn tried<R: BufRead>(alloc: Global, reader: &mut R) -> Result<String, Fault> {
    let mut tallies = Tallies::new();
    let mut line = Vec::new(alloc);
    for _ in 0..u64::MAX {
        line.clear();
        match reader.read_until(b'\n', &mut line) {
            Ok(0) => return Ok(tallies.text(alloc)?),
            Ok(_) => {}
            Err(_) => return Err(Fault::Read),
        }
        row(alloc, without_line_feed(line.as_slice()), &mut tallies)?;
    }
    Err(Fault::Read)
}
