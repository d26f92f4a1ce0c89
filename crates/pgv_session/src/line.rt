//! What a line asks for.

ghost use Rattle.std.specs.Prelude.{◌≡◌, option_map, bytes_eq, IfOk};
ghost use Rattle.std.specs.Option.{option_copied};
ghost use Rattle.hex.specs.Hex.{decode_of};
ghost use Rattle.pgv_scalar_text.specs.IntText.{unsigned_value};
ghost use Rattle.pgv_session.specs.Lines.{text_before, text_after, first_word, after_word, words, starts_with_plus, spelled_oid, oid_named, oids_named, request, given_bytes as bytes_given, alone as alone_by, add_line as added_by, null_line as null_by, resolve_line as resolve_by, read_line as read_by, copy_line as copy_by, hex_bytes as hex_given};
ghost use Rattle.pgv_session.specs.RequestsView.{request_seen};
ghost use Rattle.pgv_session.specs.Spelled.{Asks};

use hex::FromHexError;
use pgv_scalar_text::unsigned_number_of;
use pgv_types::Oid;
use std::alloc::{AllocError, Global};

/// What is asked of a value of a TYPE.
#[derive(Drop)]
pub enum Ask<'a> {
    /// `add TYPE TEXT`: the text is read under the type, and the value is added.
    Add(&'a [u8]),
    /// `null TYPE`: a null is added.
    Null,
    /// `read TYPE HEX`: the bytes, or null, are read under the type and written again.
    Read(Option<Vec<u8>>),
}

/// What a line asks for.
#[derive(Drop)]
pub enum Request<'a> {
    /// Something of a value of the TYPE of this name, if there is one.
    Of(&'a [u8], Ask<'a>),
    /// `holes`: the names of the types whose OIDs are missing.
    Holes,
    /// `resolve OID ..`: the holes are filled.
    Resolve(Vec<Oid>),
    /// `wire`: the bytes of the buffer.
    Wire,
    /// `copy HEX TYPE ..`: the rows of a COPY stream; the names of the TYPEs are still one text.
    Copy(Vec<u8>, &'a [u8]),
}

/// The bytes before the first `mark`, and those after it, if there is one.
pub fn split_at_byte(line: &[u8], mark: u8) -> (&[u8], Option<&[u8]>)
    ensures { (result.0.now ≡ text_before mark line.now)
        × (option_copied result.1 ≡ text_after mark line.now) }
{
    for (place, byte) in line.iter().enumerate() {
        if *byte == mark {
            return (&line[..place], Some(&line[place + 1..]));
        }
    }
    (line, None)
}

/// A line's first word, and what comes after the space that ends it, where one does.
pub fn split_word(line: &[u8]) -> (&[u8], Option<&[u8]>)
    ensures { (result.0.now ≡ first_word line.now)
        × (option_copied result.1 ≡ after_word line.now) }
{
    split_at_byte(line, b' ')
}

/// Whether a word is this name.
pub fn is_word(word: &[u8], name: &str) -> bool
    ensures { result ≡ bytes_eq word.now name.now }
{
    word == name.as_bytes()
}

/// Digits up to 4294967295.
#[tactic(auto, using(pgv_value::proofs::Fronts::whole_text))]
fn oid(word: &[u8]) -> Option<Oid>
    ensures { result ≡ oid_named word.now }
{
    let text = str::from_utf8(word).ok()?;
    if is_plus_first(text) {
        return None;
    }
    oid_in_digits(text)
}

fn is_plus_first(text: &str) -> bool
    ensures { result ≡ starts_with_plus text.now }
{
    match text.as_bytes() {
        [first, ..] => *first == b'+',
        [] => false,
    }
}

/// The OID that digits up to 4294967295 are.
fn oid_in_digits(text: &str) -> Option<Oid>
    ensures { result ≡ spelled_oid (unsigned_value text.now) }
{
    let number = unsigned_number_of(text).ok()?;
    let oid = u32::try_from(number).ok()?;
    Some(Oid(oid))
}

/// OIDs with one space between them.
fn oids(alloc: Global, text: &[u8]) -> Result<Option<Vec<Oid>>, AllocError>
    ensures { IfOk result (λ found. option_map (λ v. v.items) found ≡ oids_named (words text.now)) }
{
    let mut oids = Vec::new(alloc);
    let mut left = Some(text);
    while let Some(text) = left {
        let (word, rest) = split_word(text);
        let Some(oid) = oid(word) else {
            return Ok(None);
        };
        oids.push(oid)?;
        left = rest;
    }
    Ok(Some(oids))
}

/// Hex digits.
fn hex_bytes(alloc: Global, text: &[u8]) -> Result<Option<Vec<u8>>, AllocError>
    ensures { IfOk result (λ found. option_map (λ v. v.items) found
        ≡ hex_given (decode_of text.now)) }
{
    match hex::decode(alloc, text) {
        Ok(bytes) => Ok(Some(bytes)),
        Err(FromHexError::OutOfMemory) => Err(AllocError),
        Err(_) => Ok(None),
    }
}

/// `null`, or hex digits.
fn given_bytes(alloc: Global, text: &[u8]) -> Result<Option<Option<Vec<u8>>>, AllocError>
    ensures { IfOk result (λ found. option_map (option_map (λ v. v.items)) found
        ≡ bytes_given text.now) }
{
    if is_word(text, "null") {
        return Ok(Some(None));
    }
    match hex_bytes(alloc, text)? {
        Some(bytes) => Ok(Some(Some(bytes))),
        None => Ok(None),
    }
}

/// What a line asks for, if anything.
pub fn parse<'a>(alloc: Global, line: &'a [u8]) -> Result<Option<Request<'a>>, AllocError>
    ensures { IfOk result (λ found. Asks line.now (option_map request_seen found)) }
{
    let (verb, rest) = split_word(line);
    if is_word(verb, "add") {
        return Ok(add_line(rest));
    }
    if is_word(verb, "null") {
        return Ok(null_line(rest));
    }
    if is_word(verb, "holes") {
        return Ok(alone(Request::Holes, rest));
    }
    if is_word(verb, "resolve") {
        return resolve_line(alloc, rest);
    }
    if is_word(verb, "wire") {
        return Ok(alone(Request::Wire, rest));
    }
    if is_word(verb, "read") {
        return read_line(alloc, rest);
    }
    if is_word(verb, "copy") {
        return copy_line(alloc, rest);
    }
    Ok(None)
}

fn alone<'a>(request: Request<'a>, rest: Option<&[u8]>) -> Option<Request<'a>>
    ensures { option_map request_seen result ≡ alone_by (request_seen request.entry)
        (option_copied rest.entry) }
{
    match rest {
        None => Some(request),
        Some(_) => None,
    }
}

fn add_line<'a>(rest: Option<&'a [u8]>) -> Option<Request<'a>>
    ensures { option_map request_seen result ≡ added_by (option_copied rest.entry) }
{
    let (name, text) = split_word(rest?);
    Some(Request::Of(name, Ask::Add(text?)))
}

fn null_line<'a>(rest: Option<&'a [u8]>) -> Option<Request<'a>>
    ensures { option_map request_seen result ≡ null_by (option_copied rest.entry) }
{
    let (name, rest) = split_word(rest?);
    alone(Request::Of(name, Ask::Null), rest)
}

fn resolve_line<'a>(
    alloc: Global,
    rest: Option<&'a [u8]>,
) -> Result<Option<Request<'a>>, AllocError>
    ensures { IfOk result (λ found. option_map request_seen found
        ≡ resolve_by (option_copied rest.entry)) }
{
    let Some(rest) = rest else {
        return Ok(Some(Request::Resolve(Vec::new(alloc))));
    };
    match oids(alloc, rest)? {
        Some(oids) => Ok(Some(Request::Resolve(oids))),
        None => Ok(None),
    }
}

fn read_line<'a>(alloc: Global, rest: Option<&'a [u8]>) -> Result<Option<Request<'a>>, AllocError>
    ensures { IfOk result (λ found. option_map request_seen found
        ≡ read_by (option_copied rest.entry)) }
{
    let Some(rest) = rest else {
        return Ok(None);
    };
    let (name, text) = split_word(rest);
    let Some(text) = text else {
        return Ok(None);
    };
    match given_bytes(alloc, text)? {
        Some(bytes) => Ok(Some(Request::Of(name, Ask::Read(bytes)))),
        None => Ok(None),
    }
}

fn copy_line<'a>(alloc: Global, rest: Option<&'a [u8]>) -> Result<Option<Request<'a>>, AllocError>
    ensures { IfOk result (λ found. option_map request_seen found
        ≡ copy_by (option_copied rest.entry)) }
{
    let Some(rest) = rest else {
        return Ok(None);
    };
    let (digits, names) = split_word(rest);
    let Some(bytes) = hex_bytes(alloc, digits)? else {
        return Ok(None);
    };
    match names {
        Some(names) => Ok(Some(Request::Copy(bytes, names))),
        None => Ok(None),
    }
}
