//! Readers and writers that fail at a call, and what `run` answers then.

use pgv_runner::{MayWait, RunFault, fault_text, run};
use std::alloc::Global;
use std::io::{self, BufRead, Error, ErrorKind, Read, Write};

/// Calls that succeed, as many as are left, and then one that fails.
#[derive(Drop)]
struct Countdown {
    calls: u32,
    met: bool,
    kind: ErrorKind,
}

impl Countdown {
    fn new(calls: u32, kind: ErrorKind) -> Countdown {
        Countdown {
            calls,
            met: false,
            kind,
        }
    }

    fn step(&mut self) -> io::Result<()> {
        if self.calls == 0 {
            self.met = true;
            return Err(Error::from(self.kind));
        }
        self.calls -= 1;
        Ok(())
    }
}

/// A reader that fails at a call.
#[derive(Drop)]
struct FailingReader<'a> {
    bytes: &'a [u8],
    left: Countdown,
}

impl Read for FailingReader<'_> {
    fn read(&mut self, buf: &mut [u8]) -> io::Result<usize> {
        self.left.step()?;
        let Some((first, rest)) = self.bytes.split_first() else {
            return Ok(0);
        };
        if buf.is_empty() {
            return Ok(0);
        }
        buf[0] = *first;
        self.bytes = rest;
        Ok(1)
    }
}

impl BufRead for FailingReader<'_> {
    fn fill_buf(&mut self) -> io::Result<&[u8]> {
        self.left.step()?;
        let shown = if self.bytes.len() < 3 {
            self.bytes.len()
        } else {
            3
        };
        Ok(&self.bytes[..shown])
    }

    fn consume(&mut self, amount: usize) {
        if amount <= self.bytes.len() {
            self.bytes = &self.bytes[amount..];
        }
    }
}

/// Every read may have to wait, so answers are flushed line by line.
impl MayWait for FailingReader<'_> {
    fn may_wait(&self) -> bool {
        true
    }
}

/// A writer that fails at a call, `flush` among them, and compares what is written with the answers. It holds what was
/// written since the last `flush`.
#[derive(Drop)]
struct FailingWriter {
    answers: &'static [u8],
    same: bool,
    held: bool,
    left: Countdown,
}

impl Write for FailingWriter {
    fn write(&mut self, buf: &[u8]) -> io::Result<usize> {
        self.left.step()?;
        self.held = true;
        match self.answers.strip_prefix(buf) {
            Some(answers) => self.answers = answers,
            None => self.same = false,
        }
        Ok(buf.len())
    }

    fn flush(&mut self) -> io::Result<()> {
        self.left.step()?;
        self.held = false;
        Ok(())
    }
}

/// Three lines.
const LINES: &[u8] = b"add int4 7\nwire\nwhat";

/// The answers of these lines.
const ANSWERS: &[u8] = b"$1\n0000000400000007\nrefused line\n";

/// A reader of the lines that fails after these calls.
fn reader(calls: u32, kind: ErrorKind) -> FailingReader<'static> {
    FailingReader {
        bytes: LINES,
        left: Countdown::new(calls, kind),
    }
}

/// A writer of the answers that fails after these calls.
fn writer(calls: u32) -> FailingWriter {
    FailingWriter {
        answers: ANSWERS,
        same: true,
        held: false,
        left: Countdown::new(calls, ErrorKind::Other),
    }
}

/// What `run` has to answer where a failure is met, and where none is.
fn wanted(met: bool, fault: RunFault) -> Result<(), RunFault> {
    if met { Err(fault) } else { Ok(()) }
}

/// Whether `run` answers the fault exactly where its reader fails, after a beginning of the answers of which the writer
/// holds nothing back; and whether it does.
fn read_failing(alloc: Global, calls: u32, kind: ErrorKind, fault: RunFault) -> (bool, bool) {
    let mut reader = reader(calls, kind);
    let mut writer = writer(u32::MAX);
    let done = run(alloc, &mut reader, &mut writer);
    let met = reader.left.met;
    let whole = met || writer.answers.is_empty();
    let flushed = !writer.held;
    (
        done == wanted(met, fault) && writer.same && whole && flushed,
        met,
    )
}

/// The same where its writer fails.
fn write_failing(alloc: Global, calls: u32) -> (bool, bool) {
    let mut reader = reader(u32::MAX, ErrorKind::Other);
    let mut writer = writer(calls);
    let done = run(alloc, &mut reader, &mut writer);
    let met = writer.left.met;
    (done == wanted(met, RunFault::Write) && writer.same, met)
}

#[test]
fn failing_readers(rt: HostRuntime) {
    for calls in 0..100u32 {
        let (told, met) = read_failing(rt.alloc(), calls, ErrorKind::Other, RunFault::Read);
        assert!(rt; told, "{calls}");
        if !met {
            return;
        }
    }
    assert!(rt; false);
}

#[test]
fn failing_writers(rt: HostRuntime) {
    for calls in 0..100u32 {
        let (told, met) = write_failing(rt.alloc(), calls);
        assert!(rt; told, "{calls}");
        if !met {
            return;
        }
    }
    assert!(rt; false);
}

#[test]
fn faults_are_told(rt: HostRuntime) {
    let kind = ErrorKind::OutOfMemory;
    let (told, met) = read_failing(rt.alloc(), 1, kind, RunFault::Memory);
    assert!(rt; told && met);
    for (fault, text) in [
        (RunFault::Read, "pgvalue: read failed"),
        (RunFault::Write, "pgvalue: write failed"),
        (RunFault::Memory, "pgvalue: out of memory"),
    ] {
        assert_eq!(rt; fault_text(&fault), text);
    }
}
