//! What a server sends.

use crate::body::{
    show_authentication, show_command, show_copy_formats, show_notice, show_notification,
    show_parameters, show_process, show_setting, show_status,
};
use crate::fault::Fault;
use crate::show::{show_copy, show_row};
use pgv::PgValueFormat;
use pgv::catalog::{PgCatalogRows, PgServerTypes};
use pgv::message::{PgExchange, PgMessage, message_in_front};
use pgv::row::{PgColumn, PgColumns, PgPlaces, PgRow};
use pgv_examples::server_types::{keep, types_of};
use std::alloc::{AllocError, Global};

/// What came of a session so far.
#[derive(Drop)]
pub struct Came {
    /// Whether its rows are those of the server's catalogue.
    is_catalog: bool,
    /// Whether the server was ready once, after the start.
    is_started: bool,
    /// Whether parameters were bound since the last description: then results are in binary.
    is_bound: bool,
    /// How many descriptions of rows have come.
    statements: usize,
    /// The last of them.
    description: Vec<u8>,
    /// How many columns a COPY has.
    width: usize,
    /// The stream of the COPY.
    stream: Vec<u8>,
    /// The rows of the catalogue.
    rows: PgCatalogRows,
}

/// The message in front, all of which has to be there.
pub fn whole_message(bytes: &[u8]) -> Result<PgMessage<'_>, Fault> {
    match message_in_front(bytes)? {
        Some(message) => Ok(message),
        None => Err(Fault::Cut),
    }
}

impl Came {
    /// Nothing yet.
    pub fn new(alloc: Global, is_catalog: bool) -> Came {
        Came {
            is_catalog,
            is_started: false,
            is_bound: false,
            statements: 0,
            description: Vec::new(alloc),
            width: 0,
            stream: Vec::new(alloc),
            rows: PgCatalogRows::new(alloc),
        }
    }

    /// Appends a line for each message.
    pub fn show(
        &mut self,
        alloc: Global,
        bytes: &[u8],
        known: &PgServerTypes,
        exchange: &mut PgExchange,
        out: &mut String,
    ) -> Result<(), Fault> {
        let is_simple = exchange.is_idle();
        let mut rest = bytes;
        for _ in 0..bytes.len() {
            if rest.is_empty() {
                return Ok(());
            }
            let message = whole_message(rest)?;
            if self.is_started && !is_simple {
                exchange.step(message.tag)?;
            }
            self.show_line(alloc, &message, known, out)?;
            rest = message.rest;
        }
        Ok(())
    }

    /// Appends a line for a message.
    fn show_line(
        &mut self,
        alloc: Global,
        message: &PgMessage<'_>,
        known: &PgServerTypes,
        out: &mut String,
    ) -> Result<(), Fault> {
        out.push_str("  ")?;
        self.show_message(alloc, message, known, out)?;
        Ok(out.push('\n')?)
    }

    /// Appends what a message is.
    fn show_message(
        &mut self,
        alloc: Global,
        message: &PgMessage<'_>,
        known: &PgServerTypes,
        out: &mut String,
    ) -> Result<(), Fault> {
        match message.tag {
            b'T' => {
                self.keep_description(message.body)?;
                show_columns(alloc, message.body, known, out)
            }
            b'D' => {
                let statement = self.statement();
                show_values(
                    alloc,
                    self.description.as_slice(),
                    self.is_bound,
                    message.body,
                    known,
                    statement,
                    &mut self.rows,
                    out,
                )
            }
            b'H' => {
                self.width = show_copy_formats(alloc, message.body, out)?;
                Ok(())
            }
            b'd' => {
                self.stream.extend_from_slice(message.body)?;
                Ok(out.push_str("data of a copy")?)
            }
            b'c' => show_copy(alloc, self.stream.as_slice(), self.width, out),
            b'2' => {
                self.is_bound = true;
                Ok(out.push_str("bound")?)
            }
            b'Z' => {
                self.is_started = true;
                show_status(message.body, out)
            }
            _ => show_other(alloc, message, out),
        }
    }

    /// Keeps a description.
    fn keep_description(&mut self, body: &[u8]) -> Result<(), AllocError> {
        self.statements = self.statements.saturating_add(1);
        self.is_bound = false;
        self.description.clear();
        self.description.extend_from_slice(body)
    }

    /// Which statement of the catalogue gave a row, counted from 1; 0 where none did.
    fn statement(&self) -> usize {
        if self.is_catalog { self.statements } else { 0 }
    }

    /// Makes the types of the catalogue's rows, where these were its rows.
    pub fn finish(&self, alloc: Global, known: &mut PgServerTypes) -> Result<(), Fault> {
        if self.is_catalog {
            *known = types_of(alloc, &self.rows)?;
        }
        Ok(())
    }
}

/// Appends the name and the type of a column.
fn show_column(column: &PgColumn<'_>, out: &mut String) -> Result<(), AllocError> {
    out.push(' ')?;
    out.push_str(column.name())?;
    out.push(':')?;
    write!(out, "{}", column.type_info())
}

/// Appends the columns of a description.
fn show_columns(
    alloc: Global,
    body: &[u8],
    known: &PgServerTypes,
    out: &mut String,
) -> Result<(), Fault> {
    let columns = PgColumns::read(alloc, body, known)?;
    out.push_str("columns")?;
    for column in columns.as_slice() {
        show_column(column, out)?;
    }
    Ok(())
}

/// The columns of a description, in binary where parameters were bound.
fn columns_of<'d>(
    alloc: Global,
    description: &'d [u8],
    is_bound: bool,
    known: &PgServerTypes,
) -> Result<PgColumns<'d>, Fault> {
    let mut columns = PgColumns::read(alloc, description, known)?;
    if is_bound {
        columns.set_format(PgValueFormat::Binary);
    }
    Ok(columns)
}

/// Appends the values of a row under a description, in binary where parameters were bound, and keeps it where it is one
/// of a statement of the catalogue.
fn show_values(
    alloc: Global,
    description: &[u8],
    is_bound: bool,
    body: &[u8],
    known: &PgServerTypes,
    statement: usize,
    rows: &mut PgCatalogRows,
    out: &mut String,
) -> Result<(), Fault> {
    let columns = columns_of(alloc, description, is_bound, known)?;
    let mut room = PgPlaces::with_columns(alloc, &columns)?;
    show_under(alloc, &columns, &mut room, body, statement, rows, out)
}

/// The same under these columns.
fn show_under(
    alloc: Global,
    columns: &PgColumns<'_>,
    room: &mut PgPlaces,
    body: &[u8],
    statement: usize,
    rows: &mut PgCatalogRows,
    out: &mut String,
) -> Result<(), Fault> {
    let row = PgRow::read(columns, room, body)?;
    show_and_keep(alloc, &row, statement, rows, out)
}

/// The same of a row.
fn show_and_keep(
    alloc: Global,
    row: &PgRow<'_>,
    statement: usize,
    rows: &mut PgCatalogRows,
    out: &mut String,
) -> Result<(), Fault> {
    out.push_str("row")?;
    show_row(alloc, row, out)?;
    match statement.checked_sub(1) {
        Some(place) => Ok(keep(alloc, place, row, rows)?),
        None => Ok(()),
    }
}

/// Appends a message that changes nothing here.
fn show_other(alloc: Global, message: &PgMessage<'_>, out: &mut String) -> Result<(), Fault> {
    let body = message.body;
    match message.tag {
        b'R' => show_authentication(body, out),
        b'S' => show_setting(body, out),
        b'K' => show_process(body, out),
        b'C' => show_command(body, out),
        b'A' => show_notification(body, out),
        b't' => show_parameters(alloc, body, out),
        b'E' => show_notice(alloc, "error ", body, out),
        b'N' => show_notice(alloc, "notice ", body, out),
        b'1' => Ok(out.push_str("parsed")?),
        b'n' => Ok(out.push_str("no rows")?),
        tag => Ok(write!(out, "message {tag}")?),
    }
}
