//! Answers as texts, which rows are compared with.

use pgv::{CodecError, Decode, Encode, PgArgumentBuffer, PgValueRef};
use std::alloc::{AllocError, Global};
use std::fmt::{Debug, Display};

/// A refusal by its number, as in `C15`.
pub fn refused(alloc: Global, error: &CodecError) -> Result<String, AllocError> {
    let number = error.code();
    format!(in alloc; "C{number}")
}

/// What is written of a value, in hex, or the refusal.
pub fn written<T: Encode>(alloc: Global, value: &T) -> Result<String, AllocError> {
    let mut out = PgArgumentBuffer::new(alloc);
    match value.encode_by_ref(&mut out) {
        Ok(_) => hex::encode(alloc, out.as_slice()),
        Err(error) => refused(alloc, &error),
    }
}

/// The value that is read as `Debug` shows it, or the refusal by its number and as `Debug` shows it.
pub fn debug<T: Decode + Debug>(
    alloc: Global,
    value: PgValueRef<'_>,
) -> Result<String, AllocError> {
    match T::decode(alloc, value) {
        Ok(value) => format!(in alloc; "{value:?}"),
        Err(error) => {
            let number = error.code();
            format!(in alloc; "C{number} {error:?}")
        }
    }
}

/// A text and a line feed, after what is there.
pub fn push_line(out: &mut String, line: &str) -> Result<(), AllocError> {
    out.push_str(line)?;
    out.push('\n')
}

/// Answers, each on a line. Out of memory is reported at the end, so that a line needs no `?`.
#[derive(Drop)]
pub struct Lines {
    alloc: Global,
    text: String,
    whole: bool,
}

impl Lines {
    /// No line yet.
    pub fn new(alloc: Global) -> Lines {
        Lines {
            alloc,
            text: String::new(alloc),
            whole: true,
        }
    }

    /// A line, after those that are there.
    pub fn push(&mut self, line: Result<String, AllocError>) {
        let pushed = match line {
            Ok(line) => push_line(&mut self.text, line.as_str()),
            Err(error) => Err(error),
        };
        if pushed.is_err() {
            self.whole = false;
        }
    }

    /// What is printed of a value.
    pub fn shown<T: Display>(&mut self, value: &T) {
        self.push(format!(in self.alloc; "{value}"))
    }

    /// What is written of a value, in hex, or the refusal.
    pub fn written<T: Encode>(&mut self, value: &T) {
        self.push(written(self.alloc, value))
    }

    /// Whether something holds.
    pub fn holds(&mut self, holds: bool) {
        let line = if holds { "yes" } else { "no" };
        self.push(String::from_str(self.alloc, line))
    }

    /// All lines.
    pub fn text(self) -> Result<String, AllocError> {
        if self.whole {
            Ok(self.text)
        } else {
            Err(AllocError)
        }
    }
}
