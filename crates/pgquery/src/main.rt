//! `pgquery`: runs a statement on a PostgreSQL server that reads its standard output and writes its standard input, as
//! `tools/with_server` ties them to a server's socket. Rows go to standard error, a line each, and so does an error.
//!
//! `pgquery [--json | --binary | --copy] SQL [PARAMETER ..]`: a parameter is a text of the type that the server says it
//! has, and `\N` is null. A row is its values with a tab between two, as `COPY` writes them in text (PostgreSQL,
//! "COPY", "Text Format"), or with `--json` an object. With `--binary` a parameter is the bytes of a value in hex, and
//! a row the frames that the codec writes of what it read. `--copy` runs a `COPY .. TO STDOUT (FORMAT binary)`, and
//! shows the bytes of each field in hex. The user and the database are `PGUSER` and `PGDATABASE`, or `postgres`.
#![tactic(auto)]

mod connection;
mod copied;
mod fault;
mod inbox;
mod options;
mod parameter;
mod show;
mod source;
mod statement;

use crate::connection::Connection;
use crate::fault::Fault;
use crate::options::{Asked, Options, Shown, variable_or};
use std::io::{self, BufWriter, Write};
use std::process::ExitCode;

/// What `--help` says.
const HELP: &str = "usage: pgquery [--json | --binary | --copy] SQL [PARAMETER ..]\n\
    Runs a statement on the PostgreSQL server that standard input and output are tied to:\n\
    tools/with_server crates/pgquery/out/pgquery 'select $1::int4[] || 4' '{1,2,3}'\n\
    A parameter is a text of its type, and \\N is null. Rows go to standard error, tab-separated, or with --json an object each.\n\
    With --binary parameters and rows are bytes in hex, as the codec reads and writes them.\n\
    --copy runs a COPY .. TO STDOUT (FORMAT binary), and shows its fields in hex.\n\
    PGUSER and PGDATABASE name the user and the database, else postgres.";

/// What `--version` says.
const VERSION: &str = "pgquery 0.9.0";

fn main(rt: HostRuntime) -> ExitCode {
    match asked(&rt) {
        Ok(code) => code,
        Err(fault) => {
            let _told = eprintln!(rt; "pgquery: {fault}");
            ExitCode::from(if matches!(fault, Fault::Usage) { 2 } else { 1 })
        }
    }
}

/// Does what the arguments ask for.
fn asked(rt: &HostRuntime) -> Result<ExitCode, Fault> {
    match Options::read(rt)? {
        Asked::Help => eprintln!(rt; "{HELP}").or(Err(Fault::Write))?,
        Asked::Version => eprintln!(rt; "{VERSION}").or(Err(Fault::Write))?,
        Asked::Run(options) => run(rt, &options)?,
    }
    Ok(ExitCode::SUCCESS)
}

/// Starts a session, and runs the statement.
fn run(rt: &HostRuntime, options: &Options) -> Result<(), Fault> {
    let alloc = rt.alloc();
    let mut rows = BufWriter::new(alloc, rt.stderr()).or(Err(Fault::Memory))?;
    let user = variable_or(rt, "PGUSER", "postgres")?;
    let database = variable_or(rt, "PGDATABASE", "postgres")?;
    let mut connection = Connection::new(alloc, rt.reader(), io::writer(rt));
    connection.start(alloc, user.as_str(), database.as_str())?;
    let done = match options.shown {
        Shown::Copied => copied::run(alloc, &mut connection, options.sql.as_str(), &mut rows),
        _ => statement::run(alloc, &mut connection, options, &mut rows),
    };
    rows.flush().or(Err(Fault::Write))?;
    done?;
    connection.end(alloc)
}
