//! A session over a reader and a writer.

ghost use Rattle.std.specs.Prelude.{◌≡◌, ◌++◌, ◌∷◌, [], List, ℕ, IfSome, OnOk};
ghost use Rattle.std.specs.Io.KnownBytes.{Appends, IsAtEnd, Keeps};
ghost use Rattle.pgv_session.specs.Session.{AnswersLine, IsSession, lines_of};
ghost use Rattle.pgv_session.specs.Lines.{text_before};
ghost use Rattle.pgv_runner.specs.Faults.{text_of_fault};

use pgv_session::{answer, split_at_byte};
use pgv_wire::PgArguments;
use std::alloc::{Allocator, Global};
use std::io::{BufRead, BufReader, Error, ErrorKind, Read, Write};

/// Why a session ended before its input did. It does not say what was written before.
#[derive(Clone, Copy, PartialEq, Eq, Debug)]
pub enum RunFault {
    /// Reading failed.
    Read,
    /// Writing failed.
    Write,
    /// A request for memory was refused.
    Memory,
}

/// A reader that says whether reading on may have to wait for whoever writes the lines.
pub trait MayWait {
    /// Whether no byte that has come is still to be read.
    fn may_wait(&self) -> bool;
}

/// All bytes are there.
impl MayWait for &[u8] {
    fn may_wait(&self) -> bool {
        false
    }
}

/// It waits where its buffer is empty.
impl<R: Read, A: Allocator> MayWait for BufReader<R, A> {
    fn may_wait(&self) -> bool {
        self.buffer().is_empty()
    }
}

/// What the program prints at a fault.
pub fn fault_text(fault: &RunFault) -> &'static str
    ensures { result.now ≡ text_of_fault fault.now }
{
    match fault {
        RunFault::Read => "pgvalue: read failed",
        RunFault::Write => "pgvalue: write failed",
        RunFault::Memory => "pgvalue: out of memory",
    }
}

/// Reads lines to the end of the input, and writes one answer for each. The writer is flushed where the reader may have
/// to wait, so that each answer is seen before the next line is asked for; at the end; and at a fault, so that what was
/// answered before it is written.
pub fn run<R: BufRead + MayWait, W: Write>(
    alloc: Global,
    reader: &mut R,
    writer: &mut W,
) -> Result<(), RunFault>
    ensures end { OnOk result (IfSome (R.remaining reader.old)
        (λ input. IsAtEnd (R.remaining reader.new))) }
    ensures session { OnOk result (IfSome (R.remaining reader.old) (λ input.
        (output : List ℕ) × Appends (W.contents writer.old) (W.contents writer.new) output
        × IsSession [] (lines_of input) output)) }
{
    let done = answer_lines(alloc, reader, writer);
    match writer.flush() {
        Ok(()) => done,
        Err(_) => done.and(Err(RunFault::Write)),
    }
}

/// The answers of all lines, which a writer may still hold.
fn answer_lines<R: BufRead + MayWait, W: Write>(
    alloc: Global,
    reader: &mut R,
    writer: &mut W,
) -> Result<(), RunFault>
    ensures end { OnOk result (IfSome (R.remaining reader.old)
        (λ input. IsAtEnd (R.remaining reader.new))) }
    ensures session { OnOk result (IfSome (R.remaining reader.old) (λ input.
        (output : List ℕ) × Appends (W.contents writer.old) (W.contents writer.new) output
        × IsSession [] (lines_of input) output)) }
{
    let mut arguments = PgArguments::new(alloc);
    let mut line = Vec::new(alloc);
    for _ in 0..u64::MAX {
        show_answers(reader, writer)?;
        line.clear();
        match reader.read_until(b'\n', &mut line) {
            Ok(0) => return Ok(()),
            Ok(_) => {}
            Err(error) => return Err(read_fault(&error)),
        }
        respond(alloc, &mut arguments, line.as_slice(), writer)?;
    }
    Err(RunFault::Read)
}

/// Writes what the writer still holds, where the reader may have to wait.
fn show_answers<R: MayWait, W: Write>(reader: &R, writer: &mut W) -> Result<(), RunFault>
    ensures { OnOk result (Keeps (W.contents writer.old) (W.contents writer.new)) }
{
    if reader.may_wait() && writer.flush().is_err() {
        return Err(RunFault::Write);
    }
    Ok(())
}

fn read_fault(error: &Error) -> RunFault {
    match error.kind() {
        ErrorKind::OutOfMemory => RunFault::Memory,
        _ => RunFault::Read,
    }
}

/// Answers one line, which may end with its line feed.
fn respond<W: Write>(
    alloc: Global,
    arguments: &mut PgArguments,
    line: &[u8],
    writer: &mut W,
) -> Result<(), RunFault>
    ensures { OnOk result ((text : List ℕ) × AnswersLine (text_before 10 line.now)
        arguments.old text arguments.new × Appends (W.contents writer.old) (W.contents writer.new) (text ++ 10 ∷ [])) }
{
    let (line, _) = split_at_byte(line, b'\n');
    let Ok(mut text) = answer(alloc, arguments, line) else {
        return Err(RunFault::Memory);
    };
    if text.push('\n').is_err() {
        return Err(RunFault::Memory);
    }
    if writer.write_all(text.as_bytes()).is_err() {
        return Err(RunFault::Write);
    }
    Ok(())
}
