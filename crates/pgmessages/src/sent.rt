//! What a driver sends.

use crate::came::whole_message;
use crate::fault::Fault;
use pgv::message::{
    MessageError, PgExchange, PgMessage, PgRequest, PgSetting, Prepared, write_bind,
    write_describe, write_execute, write_parse, write_query, write_startup, write_sync,
};
use pgv::{CodecError, Oid, PgArguments, PgValueFormat};
use pgv_examples::server_types::STATEMENTS;
use std::alloc::Global;

/// How many bytes the message of start-up has.
const STARTUP: usize = 76;

/// The settings of each session.
const SETTINGS: [PgSetting<'static>; 4] = [
    PgSetting {
        name: "user",
        value: "postgres",
    },
    PgSetting {
        name: "database",
        value: "postgres",
    },
    PgSetting {
        name: "client_encoding",
        value: "UTF8",
    },
    PgSetting {
        name: "DateStyle",
        value: "ISO",
    },
];

/// The statement of the session `people`.
const PEOPLE: &str =
    "select id, name, mood, sizes, born from people where id >= $1 and name is distinct from $2 \
     order by id";

/// The statement of the session `orders`.
const ORDERS: &str = "select id, items, first from orders where id = any($1) order by id";

/// The simple query of the session `copy`.
const COPY: &str = "copy people to stdout (format binary)";

/// The simple query of the session `asynchronous`.
const ASYNCHRONOUS: &str =
    "listen news; notify news, 'today'; do $$ begin raise notice 'look: %', 7; end $$; \
     set timezone to 'Europe/Paris'; select";

/// Appends what prepares a statement without a name, and asks what it is.
fn prepare(out: &mut Vec<u8>, query: &str, oids: &[Oid]) -> Result<(), MessageError> {
    write_parse(out, "", query, oids)?;
    write_describe(out, Prepared::Statement, "")?;
    write_sync(out)
}

/// Appends what runs it, its results in binary.
fn run(out: &mut Vec<u8>, arguments: &PgArguments) -> Result<(), MessageError> {
    write_bind(out, "", "", arguments, &[PgValueFormat::Binary])?;
    write_execute(out, "", 0)?;
    write_sync(out)
}

/// The arguments of the session `people`.
fn people_arguments(alloc: Global) -> Result<PgArguments, CodecError> {
    let mut arguments = PgArguments::new(alloc);
    arguments.add(1)?;
    arguments.add(String::from_str(alloc, "x")?)?;
    Ok(arguments)
}

/// The arguments of the session `orders`.
fn orders_arguments(alloc: Global) -> Result<PgArguments, CodecError> {
    let mut arguments = PgArguments::new(alloc);
    arguments.add(Vec::from_slice(alloc, &[5i64, 6])?)?;
    Ok(arguments)
}

/// The arguments of the session `errors`.
fn errors_arguments(alloc: Global) -> Result<PgArguments, CodecError> {
    let mut arguments = PgArguments::new(alloc);
    arguments.add(0)?;
    Ok(arguments)
}

/// Appends a statement that is run once.
fn write_statement(
    out: &mut Vec<u8>,
    query: &str,
    oids: &[Oid],
    arguments: &PgArguments,
) -> Result<(), Fault> {
    prepare(out, query, oids)?;
    Ok(run(out, arguments)?)
}

/// Appends the three statements of the catalogue.
fn write_catalog(alloc: Global, out: &mut Vec<u8>) -> Result<(), Fault> {
    let arguments = PgArguments::new(alloc);
    for query in STATEMENTS {
        write_statement(out, query, &[], &arguments)?;
    }
    Ok(())
}

/// Appends the statement of the session `people`.
fn write_people(alloc: Global, out: &mut Vec<u8>) -> Result<(), Fault> {
    write_statement(out, PEOPLE, &[], &people_arguments(alloc)?)
}

/// Appends the statement of the session `orders`.
fn write_orders(alloc: Global, out: &mut Vec<u8>) -> Result<(), Fault> {
    write_statement(out, ORDERS, &[Oid(1016)], &orders_arguments(alloc)?)
}

/// Appends a statement that is refused, and one that fails.
fn write_errors(alloc: Global, out: &mut Vec<u8>) -> Result<(), Fault> {
    prepare(out, "select 1 / nothing", &[])?;
    write_statement(out, "select 1 / $1::int4", &[], &errors_arguments(alloc)?)
}

/// Appends a simple query.
fn write_simple(out: &mut Vec<u8>, query: &str) -> Result<(), Fault> {
    Ok(write_query(out, query)?)
}

/// Appends what follows the start of the session of a name.
fn write_session(alloc: Global, name: &str, out: &mut Vec<u8>) -> Result<(), Fault> {
    match name {
        "catalog" => write_catalog(alloc, out),
        "people" => write_people(alloc, out),
        "orders" => write_orders(alloc, out),
        "errors" => write_errors(alloc, out),
        "copy" => write_simple(out, COPY),
        "asynchronous" => write_simple(out, ASYNCHRONOUS),
        _ => Ok(()),
    }
}

/// What this library writes in the session of a name.
pub fn written(alloc: Global, name: &str) -> Result<Vec<u8>, Fault> {
    let mut out = Vec::new(alloc);
    write_startup(&mut out, &SETTINGS)?;
    write_session(alloc, name, &mut out)?;
    Ok(out)
}

/// Notes the requests of a session, which begins with the message of start-up. Of a simple query nothing is noted.
pub fn requests_of(bytes: &[u8], exchange: &mut PgExchange) -> Result<(), Fault> {
    let mut rest = bytes.get(STARTUP..).ok_or(Fault::Cut)?;
    for _ in 0..bytes.len() {
        if rest.is_empty() {
            return Ok(());
        }
        let message = whole_message(rest)?;
        if let Some(request) = request_of(&message) {
            exchange.sent(request)?;
        }
        rest = message.rest;
    }
    Ok(())
}

/// What a message asks for.
fn request_of(message: &PgMessage<'_>) -> Option<PgRequest> {
    match message.tag {
        b'P' => Some(PgRequest::Parse),
        b'B' => Some(PgRequest::Bind),
        b'D' if message.body.starts_with(b"S") => Some(PgRequest::DescribeStatement),
        b'D' => Some(PgRequest::DescribePortal),
        b'E' => Some(PgRequest::Execute),
        b'C' => Some(PgRequest::Close),
        b'S' => Some(PgRequest::Sync),
        _ => None,
    }
}
