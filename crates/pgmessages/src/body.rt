//! The bodies of messages without rows.

use crate::fault::Fault;
use pgv::message::{
    PgNotice, PgTransactionStatus, authentication_of, backend_key, changed_setting, command_tag,
    copy_formats_of, notification_of, parameter_oids, transaction_status,
};
use std::alloc::{AllocError, Global};

/// Appends what a server asks for before the session.
pub fn show_authentication(body: &[u8], out: &mut String) -> Result<(), Fault> {
    let code = authentication_of(body)?.code;
    Ok(write!(out, "authentication {code}")?)
}

/// Appends a parameter of the session.
pub fn show_setting(body: &[u8], out: &mut String) -> Result<(), Fault> {
    let setting = changed_setting(body)?;
    out.push_str("setting ")?;
    out.push_str(setting.name)?;
    out.push_str(" = ")?;
    Ok(out.push_str(setting.value)?)
}

/// Appends the process of the session.
pub fn show_process(body: &[u8], out: &mut String) -> Result<(), Fault> {
    let process = backend_key(body)?.process;
    Ok(write!(out, "process {process}")?)
}

/// Appends whether the server is ready.
pub fn show_status(body: &[u8], out: &mut String) -> Result<(), Fault> {
    let text = match transaction_status(body)? {
        PgTransactionStatus::Idle => "ready",
        PgTransactionStatus::Transaction => "ready in a transaction",
        PgTransactionStatus::Failed => "ready in a failed transaction",
    };
    Ok(out.push_str(text)?)
}

/// Appends what a command did.
pub fn show_command(body: &[u8], out: &mut String) -> Result<(), Fault> {
    let tag = command_tag(body)?;
    out.push_str("complete ")?;
    out.push_str(tag.text)?;
    match tag.rows() {
        Some(rows) => Ok(write!(out, ": {rows} rows")?),
        None => Ok(()),
    }
}

/// Appends a notification.
pub fn show_notification(body: &[u8], out: &mut String) -> Result<(), Fault> {
    let told = notification_of(body)?;
    out.push_str("notification ")?;
    out.push_str(told.channel)?;
    out.push(' ')?;
    Ok(out.push_str(told.payload)?)
}

/// Appends the types of a statement's parameters.
pub fn show_parameters(alloc: Global, body: &[u8], out: &mut String) -> Result<(), Fault> {
    let oids = parameter_oids(alloc, body)?;
    Ok(write!(out, "parameters {oids:?}")?)
}

/// Appends the format of a COPY, and answers how many columns it has.
pub fn show_copy_formats(alloc: Global, body: &[u8], out: &mut String) -> Result<usize, Fault> {
    let formats = copy_formats_of(alloc, body)?;
    let (format, width) = (formats.format, formats.columns.len());
    write!(out, "copy {format:?} of {width} columns")?;
    Ok(width)
}

/// Appends an error or a notice.
pub fn show_notice(alloc: Global, kind: &str, body: &[u8], out: &mut String) -> Result<(), Fault> {
    let notice = PgNotice::read(alloc, body)?;
    out.push_str(kind)?;
    Ok(push_notice(&notice, out)?)
}

/// Appends the code, the message and the place of an error or a notice.
fn push_notice(notice: &PgNotice<'_>, out: &mut String) -> Result<(), AllocError> {
    out.push_str(notice.code().unwrap_or(""))?;
    out.push_str(": ")?;
    out.push_str(notice.message().unwrap_or(""))?;
    match notice.position() {
        Some(position) => push_place(position, out),
        None => Ok(()),
    }
}

/// Appends the place in a query.
fn push_place(position: &str, out: &mut String) -> Result<(), AllocError> {
    out.push_str(" at ")?;
    out.push_str(position)
}
