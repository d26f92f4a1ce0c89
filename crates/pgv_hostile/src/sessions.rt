//! Rows as lines of a session of the program `pgvalue`.

use crate::fault::Fault;
use crate::mutants::{fronts, mutants};
use crate::tally::{Outcome, Tally};
use pgv_runner::run;
use std::alloc::{AllocError, Global};

/// What a session answers to lines.
fn answers(alloc: Global, lines: &[u8]) -> Result<String, Fault> {
    let mut reader = lines;
    let mut written: Vec<u8> = Vec::new(alloc);
    run(alloc, &mut reader, &mut written)?;
    match String::from_utf8(written) {
        Ok(text) => Ok(text),
        Err(_) => Err(Fault::Write),
    }
}

/// The number of a refusal, as in `refused C15`.
fn refusal(answer: &str) -> Option<u8> {
    answer.strip_prefix("refused C")?.parse::<u8>().ok()
}

/// Appends the line `read TYPE HEX`.
fn push_reading(lines: &mut Vec<u8>, type_name: &[u8], hex: &[u8]) -> Result<(), AllocError> {
    lines.extend_from_slice(b"read ")?;
    lines.extend_from_slice(type_name)?;
    lines.push(b' ')?;
    lines.extend_from_slice(hex)?;
    Ok(lines.push(b'\n')?)
}

/// Frames that were answered, each on a line, and the lines that read them.
#[derive(Drop)]
struct Frames {
    frames: String,
    lines: Vec<u8>,
}

impl Frames {
    fn new(alloc: Global) -> Frames {
        Frames {
            frames: String::new(alloc),
            lines: Vec::new(alloc),
        }
    }

    /// A frame in hex: its length has eight digits.
    fn push(&mut self, type_name: &[u8], frame: &str) -> Result<(), AllocError> {
        self.frames.push_str(frame)?;
        self.frames.push('\n')?;
        let part = frame.as_bytes().get(8..).unwrap_or(b"?");
        push_reading(&mut self.lines, type_name, part)
    }

    /// Whether each is answered by itself.
    fn stay(&self, alloc: Global) -> Result<bool, Fault> {
        let answers = answers(alloc, self.lines.as_slice())?;
        Ok(answers == self.frames)
    }

    /// Reads them all. Each has to be answered by itself.
    fn count(&self, alloc: Global, tally: &mut Tally) -> Result<(), Fault> {
        let answers = answers(alloc, self.lines.as_slice())?;
        let mut found = answers.lines();
        for frame in self.frames.lines() {
            let same = matches!(found.next(), Some(answer) if answer == frame);
            tally.count(if same {
                Outcome::Read
            } else {
                Outcome::Differs
            });
        }
        Ok(())
    }
}

/// Counts refusals, and keeps the frames.
fn sort_answers(
    type_name: &[u8],
    answers: &str,
    frames: &mut Frames,
    tally: &mut Tally,
) -> Result<(), AllocError> {
    for answer in answers.lines() {
        match refusal(answer) {
            Some(number) => tally.count(Outcome::Refused(number)),
            None => frames.push(type_name, answer)?,
        }
    }
    Ok(())
}

/// The mutants of bytes that are read under a TYPE.
pub fn read(alloc: Global, type_name: &[u8], bytes: &[u8], tally: &mut Tally) -> Result<(), Fault> {
    let mut lines = Vec::new(alloc);
    for mutant in mutants(alloc, bytes)? {
        let digits = hex::encode(alloc, mutant.as_slice())?;
        push_reading(&mut lines, type_name, digits.as_bytes())?;
    }
    let answers = answers(alloc, lines.as_slice())?;
    let mut frames = Frames::new(alloc);
    sort_answers(type_name, answers.as_str(), &mut frames, tally)?;
    frames.count(alloc, tally)
}

/// The lines that add a text and show its frame.
fn adding(alloc: Global, type_name: &[u8], text: &[u8]) -> Result<Vec<u8>, AllocError> {
    let mut lines = b"add ".to_vec(alloc)?;
    lines.extend_from_slice(type_name)?;
    lines.push(b' ')?;
    lines.extend_from_slice(text)?;
    lines.extend_from_slice(b"\nwire\n")?;
    Ok(lines)
}

/// The fronts of a text that is added under a TYPE.
pub fn add(alloc: Global, type_name: &[u8], text: &[u8], tally: &mut Tally) -> Result<(), Fault> {
    let mut frames = Frames::new(alloc);
    for front in fronts(alloc, text)? {
        let lines = adding(alloc, type_name, front.as_slice())?;
        let answers = answers(alloc, lines.as_slice())?;
        let (answer, wire) = answers.split_once('\n').ok_or(Fault::Write)?;
        match refusal(answer) {
            Some(number) => tally.count(Outcome::Refused(number)),
            None => frames.push(type_name, wire.trim_ascii_end())?,
        }
    }
    frames.count(alloc, tally)
}

/// Appends the line `copy HEX TYPE ..`.
fn push_copy(lines: &mut Vec<u8>, digits: &str, types: &[u8]) -> Result<(), AllocError> {
    lines.extend_from_slice(b"copy ")?;
    lines.extend_from_slice(digits.as_bytes())?;
    lines.push(b' ')?;
    lines.extend_from_slice(types)?;
    Ok(lines.push(b'\n')?)
}

/// The frames of a row's fields, which are of these TYPEs.
fn push_fields(frames: &mut Frames, row: &str, types: &[u8]) -> Result<(), AllocError> {
    let mut names = types.split(|byte| *byte == b' ');
    for field in row.split(' ') {
        let name = names.next().unwrap_or(b"?");
        if field != "null" {
            frames.push(name, field)?;
        }
    }
    Ok(())
}

/// Whether each field of the rows of an answer is read as itself.
fn fields_stay(alloc: Global, answer: &str, types: &[u8]) -> Result<bool, Fault> {
    let mut frames = Frames::new(alloc);
    if answer != "none" {
        for row in answer.split(" / ") {
            push_fields(&mut frames, row, types)?;
        }
    }
    frames.stay(alloc)
}

/// What comes of a stream: the refusal, or rows whose fields are read as themselves.
fn stream(alloc: Global, answer: &str, types: &[u8]) -> Result<Outcome, Fault> {
    if let Some(number) = refusal(answer) {
        return Ok(Outcome::Refused(number));
    }
    if fields_stay(alloc, answer, types)? {
        Ok(Outcome::Read)
    } else {
        Ok(Outcome::Differs)
    }
}

/// A line for each mutant of a stream of COPY with rows of these TYPEs.
fn copy_lines(alloc: Global, bytes: &[u8], types: &[u8]) -> Result<Vec<u8>, Fault> {
    let mut lines = Vec::new(alloc);
    for mutant in mutants(alloc, bytes)? {
        let digits = hex::encode(alloc, mutant.as_slice())?;
        push_copy(&mut lines, digits.as_str(), types)?;
    }
    Ok(lines)
}

/// The mutants of a stream of COPY with rows of these TYPEs.
pub fn copy(alloc: Global, bytes: &[u8], types: &[u8], tally: &mut Tally) -> Result<(), Fault> {
    let lines = copy_lines(alloc, bytes, types)?;
    let answers = answers(alloc, lines.as_slice())?;
    for answer in answers.lines() {
        tally.count(stream(alloc, answer, types)?);
    }
    Ok(())
}
