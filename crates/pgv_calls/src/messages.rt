//! Rows of calls that append a message: `CALL => HEX`.

use pgv::message::{
    MessageError, PgSetting, Prepared, write_bind, write_close, write_copy_data, write_copy_done,
    write_copy_fail, write_describe, write_execute, write_flush, write_parse, write_query,
    write_startup, write_sync, write_terminate,
};
use pgv::{CodecError, Oid, PgArguments, PgValueFormat};
use pgv_fixtures::{Again, Called, bytes_of};
use std::alloc::Global;

/// The settings of a session.
const SETTINGS: [PgSetting<'static>; 1] = [PgSetting {
    name: "user",
    value: "me",
}];

/// A number and a text.
fn two_arguments(alloc: Global) -> Result<PgArguments, CodecError> {
    let mut arguments = PgArguments::new(alloc);
    arguments.add(7i32)?;
    arguments.add(String::from_str(alloc, "x")?)?;
    Ok(arguments)
}

/// Appends Bind.
fn bind(alloc: Global, out: &mut Vec<u8>) -> Result<(), MessageError> {
    let Ok(arguments) = two_arguments(alloc) else {
        return Err(MessageError::Memory);
    };
    write_bind(out, "", "s", &arguments, &[PgValueFormat::Binary])
}

/// Appends a message with a body.
fn write(alloc: Global, out: &mut Vec<u8>, call: &str) -> Result<(), MessageError> {
    match call {
        "startup" => write_startup(out, &SETTINGS),
        "parse" => write_parse(out, "s", "SELECT $1", &[Oid(23)]),
        "bind" => bind(alloc, out),
        "describe" => write_describe(out, Prepared::Statement, "s"),
        "execute" => write_execute(out, "", 0),
        "close" => write_close(out, Prepared::Portal, ""),
        "query" => write_query(out, "BEGIN"),
        "copy data" => write_copy_data(out, b"\xff\xff"),
        "copy fail" => write_copy_fail(out, "no"),
        _ => write_bare(out, call),
    }
}

/// Appends a message without a body.
fn write_bare(out: &mut Vec<u8>, call: &str) -> Result<(), MessageError> {
    match call {
        "copy done" => write_copy_done(out),
        "flush" => write_flush(out),
        "terminate" => write_terminate(out),
        _ => write_sync(out),
    }
}

/// Whether these bytes were appended to those before.
fn is_appended(now: &[u8], before: &[u8], bytes: &[u8]) -> bool {
    match now.strip_prefix(before) {
        Some(rest) => rest == bytes,
        None => false,
    }
}

/// Messages that rows append.
#[derive(Drop)]
pub struct Messages(pub Vec<u8>);

impl Called for Messages {
    fn holds(&mut self, alloc: Global, call: &str, wanted: &str) -> Result<bool, Again> {
        let out = &mut self.0;
        let before = out.as_slice().to_vec(alloc)?;
        let bytes = bytes_of(alloc, wanted)?;
        match write(alloc, out, call) {
            Ok(()) => Ok(is_appended(out.as_slice(), before.as_slice(), bytes.as_slice())),
            Err(MessageError::Memory) if out.as_slice() == before.as_slice() => Err(Again),
            Err(_) => Ok(false),
        }
    }
}
