//! Lines of the program `pgvalue`, run as one session.

use pgv_fixtures::{Again, Tries, bytes_of};
use pgv_runner::{RunFault, run};
use std::alloc::Global;
use std::io::{self, Write};

/// A writer that takes no memory: it compares what is written with what is expected.
#[derive(Drop)]
struct Compared<'a> {
    left: &'a [u8],
    same: bool,
}

impl Write for Compared<'_> {
    fn write(&mut self, buf: &[u8]) -> io::Result<usize> {
        match self.left.strip_prefix(buf) {
            Some(left) => self.left = left,
            None => self.same = false,
        }
        Ok(buf.len())
    }

    fn flush(&mut self) -> io::Result<()> {
        Ok(())
    }
}

/// Whether the lines are answered so. Where memory was refused, a beginning of the answers was written.
fn answered(alloc: Global, lines: &[u8], wanted: &[u8]) -> Result<bool, Again> {
    let mut writer = Compared {
        left: wanted,
        same: true,
    };
    let mut reader = lines;
    match run(alloc, &mut reader, &mut writer) {
        Ok(()) => Ok(writer.same && writer.left.is_empty()),
        Err(RunFault::Memory) if writer.same => Err(Again),
        Err(_) => Ok(false),
    }
}

/// Whether the lines are answered so, where both stand in hex.
fn answered_in_hex(alloc: Global, lines: &str, wanted: &str) -> Result<bool, Again> {
    let lines = bytes_of(alloc, lines.trim_ascii_end())?;
    let wanted = bytes_of(alloc, wanted.trim_ascii_end())?;
    answered(alloc, lines.as_slice(), wanted.as_slice())
}

/// Whether the lines are answered so, which stand as they are or in hex.
fn answered_in(alloc: Global, lines: &str, wanted: &str, in_hex: bool) -> Result<bool, Again> {
    if in_hex {
        return answered_in_hex(alloc, lines, wanted);
    }
    answered(alloc, lines.as_bytes(), wanted.as_bytes())
}

/// Whether the lines of a session are answered so. When memory ran out they are run once more.
fn held(alloc: Global, tries: &Tries, lines: &str, wanted: &str, in_hex: bool) -> bool {
    match answered_in(alloc, lines, wanted, in_hex) {
        Ok(held) => held,
        Err(Again) => {
            tries.count();
            answered_in(alloc, lines, wanted, in_hex) == Ok(true)
        }
    }
}

/// The lines of a session that isn't answered as it has to be.
pub fn differing<'a>(
    alloc: Global,
    tries: &Tries,
    session: &'a str,
    in_hex: bool,
) -> Option<&'a str> {
    let Some((lines, wanted)) = session.split_once("=>\n") else {
        return Some(session);
    };
    if held(alloc, tries, lines, wanted, in_hex) {
        None
    } else {
        Some(lines)
    }
}
