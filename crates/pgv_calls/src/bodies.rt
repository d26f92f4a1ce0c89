//! Rows of calls that read the body of a message: `NAME HEX => ANSWER`.

use pgv::CodecError;
use pgv::message::{
    PgNotice, authentication_of, backend_key, changed_setting, command_tag, copy_formats_of,
    message_in_front, notification_of, parameter_oids, transaction_status,
};
use pgv_fixtures::{Again, Called, bytes_of, same};
use std::alloc::{AllocError, Global};

/// Two texts with a space between them.
fn joined(alloc: Global, first: &str, second: &str) -> Result<String, AllocError> {
    let mut text = String::from_str(alloc, first)?;
    text.push(' ')?;
    text.push_str(second)?;
    Ok(text)
}

/// The types of parameters.
fn parameters(alloc: Global, body: &[u8]) -> Result<String, CodecError> {
    let oids = parameter_oids(alloc, body)?;
    Ok(format!(in alloc; "{oids:?}")?)
}

/// The format of a COPY, and the number of its columns.
fn formats(alloc: Global, body: &[u8]) -> Result<String, CodecError> {
    let formats = copy_formats_of(alloc, body)?;
    let (format, count) = (formats.format, formats.columns.len());
    Ok(format!(in alloc; "{format:?} {count}")?)
}

/// The code and the message of an error.
fn notice(alloc: Global, body: &[u8]) -> Result<String, CodecError> {
    let notice = PgNotice::read(alloc, body)?;
    let code = notice.code().unwrap_or("");
    Ok(joined(alloc, code, notice.message().unwrap_or(""))?)
}

/// What is in front, by its tag and the lengths of its body and of the rest.
fn front(alloc: Global, bytes: &[u8]) -> Result<String, CodecError> {
    match message_in_front(bytes) {
        Ok(Some(message)) => {
            let (tag, size, rest) = (message.tag, message.body.len(), message.rest.len());
            Ok(format!(in alloc; "{tag} {size} {rest}")?)
        }
        Ok(None) => Ok(String::from_str(alloc, "cut")?),
        Err(_) => Ok(String::from_str(alloc, "refused")?),
    }
}

/// The texts of a body.
fn texts(alloc: Global, name: &str, body: &[u8]) -> Result<String, CodecError> {
    match name {
        "setting" => {
            let setting = changed_setting(body)?;
            Ok(joined(alloc, setting.name, setting.value)?)
        }
        "notification" => {
            let told = notification_of(body)?;
            Ok(joined(alloc, told.channel, told.payload)?)
        }
        _ => Ok(String::from_str(alloc, command_tag(body)?.text)?),
    }
}

/// What a body has.
fn found(alloc: Global, name: &str, body: &[u8]) -> Result<String, CodecError> {
    match name {
        "parameters" => parameters(alloc, body),
        "formats" => formats(alloc, body),
        "notice" => notice(alloc, body),
        "front" => front(alloc, body),
        "authentication" => {
            let code = authentication_of(body)?.code;
            Ok(format!(in alloc; "{code}")?)
        }
        "key" => {
            let process = backend_key(body)?.process;
            Ok(format!(in alloc; "{process}")?)
        }
        "status" => {
            let status = transaction_status(body)?;
            Ok(format!(in alloc; "{status:?}")?)
        }
        _ => texts(alloc, name, body),
    }
}

/// What rows of this kind call.
#[derive(Drop)]
pub struct Bodies;

impl Called for Bodies {
    fn holds(&mut self, alloc: Global, call: &str, wanted: &str) -> Result<bool, Again> {
        let (name, digits) = call.split_once(' ').unwrap_or((call, ""));
        let body = bytes_of(alloc, digits)?;
        same(found(alloc, name, body.as_slice()), wanted)
    }
}
