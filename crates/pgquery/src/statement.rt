//! A statement: it is prepared, its parameters are bound, and its rows are shown.

ghost use Rattle.std.specs.Prelude.{◌≡◌, ◌==◌, OnOk, IfOk, string_bytes};
ghost use Rattle.pgv_characters.specs.Characters.{upper_d};
ghost use Rattle.pgquery.specs.RowLines.{ShowsAnswer, ShowsBody, Writes};
ghost use Rattle.pgquery.specs.Statement.{Describes, Prepares, PreparesAtLast, Runs, ShowsAnswers, described, executing};
ghost use Rattle.pgquery.specs.Statement as statement;
ghost use Rattle.pgquery.specs.Talks.{Converses, SendsMessages};

use crate::connection::Connection;
use crate::fault::Fault;
use crate::options::{Options, Shown};
use crate::parameter::{Bindings, are_built_in, bound};
use crate::show::{push_frames, push_object, push_values};
use pgv::catalog::{PgCatalogRows, PgServerTypes};
use pgv::message::{self, PgMessage, PgRequest, Prepared};
use pgv::row::{PgColumns, PgPlaces, PgRow};
use pgv::{Oid, PgArguments, PgTypeInfo, PgValueFormat};
use pgv_examples::server_types::{STATEMENTS, keep, types_of};
use std::alloc::Global;
use std::io::{Read, Write};

/// How a server describes a statement.
#[derive(Drop)]
struct Described {
    /// The OIDs of its parameters.
    parameters: Vec<Oid>,
    /// The body of its RowDescription; of a statement without rows that of no column.
    rows: Vec<u8>,
}

impl Described {
    /// Notes what an answer says.
    fn note(&mut self, alloc: Global, tag: u8, body: &[u8]) -> Result<(), Fault>
        ensures { OnOk result (self.new.rows.items
            ≡ described self.old.rows.items (record { tag = tag; body = body.now })) }
    {
        match tag {
            b't' => self.parameters = message::parameter_oids(alloc, body)?,
            b'T' => self.rows = Vec::from_slice(alloc, body)?,
            _ => {}
        }
        Ok(())
    }
}

/// Prepares a statement, and asks what it is.
fn prepare<R: Read, W: Write>(
    alloc: Global,
    connection: &mut Connection<R, W>,
    sql: &str,
) -> Result<Described, Fault>
    ensures { IfOk result (λ d. Prepares R.remaining W.contents sql.now
        connection.old connection.new d.rows.items) }
{
    let mut out = Vec::new(alloc);
    message::write_parse(&mut out, "", sql, &[])?;
    message::write_describe(&mut out, Prepared::Statement, "")?;
    message::write_sync(&mut out)?;
    let requests = [
        PgRequest::Parse,
        PgRequest::DescribeStatement,
        PgRequest::Sync,
    ];
    connection.send(out.as_slice(), &requests)?;
    description(alloc, connection)
}

/// What the server answers to a statement that is prepared.
fn description<R: Read, W: Write>(
    alloc: Global,
    connection: &mut Connection<R, W>,
) -> Result<Described, Fault>
    ensures { IfOk result (λ d. Describes R.remaining W.contents connection.old connection.new
        d.rows.items) }
{
    let mut described = Described {
        parameters: Vec::new(alloc),
        rows: Vec::from_slice(alloc, &[0, 0])?,
    };
    for _ in 0..u64::MAX {
        let tag = connection.answer(alloc)?;
        if tag == b'Z' {
            return Ok(described);
        }
        described.note(alloc, tag, connection.last()?.body)?;
    }
    Err(Fault::End)
}

/// Says in a Bind of the statement without a name in which format its parameters are: their one format code comes after
/// the tag, the length, two empty names and the number of codes.
fn set_format(bind: &mut [u8], format: PgValueFormat)
    ensures { bind.new ≡ statement.with_format format bind.old }
{
    if format == PgValueFormat::Text && bind.len() > 10 {
        bind[10] = 0;
    }
}

/// Binds the prepared statement, and has all its rows sent in a format.
fn execute<R: Read, W: Write>(
    alloc: Global,
    connection: &mut Connection<R, W>,
    bindings: &Bindings,
    format: PgValueFormat,
) -> Result<(), Fault>
    ensures { OnOk result (SendsMessages R.remaining W.contents
        (executing bindings.now.arguments bindings.now.format format)
        connection.old connection.new) }
{
    let mut out = Vec::new(alloc);
    message::write_bind(&mut out, "", "", &bindings.arguments, &[format])?;
    set_format(out.as_mut_slice(), bindings.format);
    message::write_execute(&mut out, "", 0)?;
    message::write_sync(&mut out)?;
    let requests = [PgRequest::Bind, PgRequest::Execute, PgRequest::Sync];
    connection.send(out.as_slice(), &requests)
}

/// Keeps the rows of one of the statements of the catalogue.
fn keep_rows<R: Read, W: Write>(
    alloc: Global,
    connection: &mut Connection<R, W>,
    place: usize,
    sql: &str,
    rows: &mut PgCatalogRows,
) -> Result<(), Fault>
    ensures { OnOk result (Converses R.remaining W.contents connection.old connection.new) }
{
    let described = prepare(alloc, connection, sql)?;
    let no_types: &[PgTypeInfo] = &[];
    let mut columns = PgColumns::read(alloc, described.rows.as_slice(), &no_types)?;
    columns.set_format(PgValueFormat::Binary);
    let none = Bindings {
        arguments: PgArguments::new(alloc),
        format: PgValueFormat::Binary,
    };
    execute(alloc, connection, &none, PgValueFormat::Binary)?;
    keep_answers(alloc, connection, &columns, place, rows)
}

/// Keeps the rows that come.
fn keep_answers<R: Read, W: Write>(
    alloc: Global,
    connection: &mut Connection<R, W>,
    columns: &PgColumns<'_>,
    place: usize,
    rows: &mut PgCatalogRows,
) -> Result<(), Fault>
    ensures { OnOk result (Converses R.remaining W.contents connection.old connection.new) }
{
    let mut room = PgPlaces::with_columns(alloc, columns)?;
    for _ in 0..u64::MAX {
        let tag = connection.answer(alloc)?;
        if tag == b'Z' {
            return Ok(());
        }
        if tag == b'D' {
            let row = PgRow::read(columns, &mut room, connection.last()?.body)?;
            keep(alloc, place, &row, rows)?;
        }
    }
    Err(Fault::End)
}

/// The types that were made on the server.
fn server_types<R: Read, W: Write>(
    alloc: Global,
    connection: &mut Connection<R, W>,
) -> Result<PgServerTypes, Fault>
    ensures { OnOk result (Converses R.remaining W.contents connection.old connection.new) }
{
    let mut rows = PgCatalogRows::new(alloc);
    for (place, sql) in STATEMENTS.iter().enumerate() {
        keep_rows(alloc, connection, place, sql, &mut rows)?;
    }
    Ok(types_of(alloc, &rows)?)
}

/// Prepares a statement, and has the types of the server that its parameters want: none where all are built in. Looking
/// these up ends the statement, so it is prepared again.
fn prepare_at_last<R: Read, W: Write>(
    alloc: Global,
    connection: &mut Connection<R, W>,
    sql: &str,
) -> Result<(Described, PgServerTypes), Fault>
    ensures { IfOk result (λ d. PreparesAtLast R.remaining W.contents sql.now
        connection.old connection.new d.0.rows.items) }
{
    let described = prepare(alloc, connection, sql)?;
    if are_built_in(described.parameters.as_slice()) {
        return Ok((described, PgServerTypes::new(alloc)));
    }
    let known = server_types(alloc, connection)?;
    let described = prepare(alloc, connection, sql)?;
    Ok((described, known))
}

/// The format in which results are asked for.
fn results_of(shown: Shown) -> PgValueFormat
    ensures { result ≡ statement.results_of shown }
{
    match shown {
        Shown::Frames => PgValueFormat::Binary,
        _ => PgValueFormat::Text,
    }
}

/// Runs the statement, and writes a line for each row.
pub fn run<R: Read, W: Write, S: Write>(
    alloc: Global,
    connection: &mut Connection<R, W>,
    options: &Options,
    lines: &mut S,
) -> Result<(), Fault>
    ensures { OnOk result (Writes (S.contents lines.old) (S.contents lines.new)
        (Runs R.remaining W.contents (string_bytes options.now.sql) options.now.shown
        connection.old connection.new)) }
{
    let (described, known) = prepare_at_last(alloc, connection, options.sql.as_str())?;
    let bindings = bound(alloc, described.parameters.as_slice(), options, &known)?;
    let mut columns = PgColumns::read(alloc, described.rows.as_slice(), &known)?;
    let format = results_of(options.shown);
    columns.set_format(format);
    execute(alloc, connection, &bindings, format)?;
    show_rows(alloc, connection, &columns, &known, options.shown, lines)
}

/// Writes a line for each row that comes.
fn show_rows<R: Read, W: Write, S: Write>(
    alloc: Global,
    connection: &mut Connection<R, W>,
    columns: &PgColumns<'_>,
    known: &PgServerTypes,
    shown: Shown,
    lines: &mut S,
) -> Result<(), Fault>
    ensures { OnOk result (Writes (S.contents lines.old) (S.contents lines.new)
        (ShowsAnswers R.remaining W.contents shown columns.now connection.old connection.new)) }
{
    let mut room = PgPlaces::with_columns(alloc, columns)?;
    let mut line = Vec::new(alloc);
    for _ in 0..u64::MAX {
        let tag = connection.answer(alloc)?;
        if tag == b'Z' {
            return Ok(());
        }
        let answer = connection.last()?;
        set_line(alloc, columns, known, shown, &mut room, &answer, &mut line)?;
        lines.write_all(line.as_slice()).or(Err(Fault::Write))?;
    }
    Err(Fault::End)
}

/// The line of an answer: that of a row, where it is one, and else none.
fn set_line(
    alloc: Global,
    columns: &PgColumns<'_>,
    known: &PgServerTypes,
    shown: Shown,
    room: &mut PgPlaces,
    answer: &PgMessage<'_>,
    line: &mut Vec<u8>,
) -> Result<(), Fault>
    ensures { OnOk result (ShowsAnswer (answer.now.tag == upper_d) shown columns.now
        answer.now.body.now line.new.items) }
{
    line.clear();
    if answer.tag != b'D' {
        return Ok(());
    }
    push_row(alloc, columns, known, shown, room, answer.body, line)
}

/// Appends the line of the row of a body.
fn push_row(
    alloc: Global,
    columns: &PgColumns<'_>,
    known: &PgServerTypes,
    shown: Shown,
    room: &mut PgPlaces,
    body: &[u8],
    line: &mut Vec<u8>,
) -> Result<(), Fault>
    ensures { OnOk result (ShowsBody shown columns.now body.now line.old.items line.new.items) }
{
    let row = PgRow::read(columns, room, body)?;
    match shown {
        Shown::Objects => push_object(&row, line),
        Shown::Frames => push_frames(alloc, &row, known, line),
        _ => push_values(&row, line),
    }
}
