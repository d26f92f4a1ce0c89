//! `pgv_calls`: makes the calls of the rows of standard input, compares each answer with that of its row, and prints
//! `ok`, or the first row of each block that doesn't hold. After `ok` comes how many calls were made again, if any.
//!
//! A call that is refused for want of memory has to leave its object as it was; then it is made once more. So where one
//! request for memory is refused, whichever it is, this program prints `ok again 1`, or `ok` if another refusal comes
//! before that of the request: `tools/refuse_memory` runs it with each of its requests refused in turn.
//!
//! The calls are those on arguments and buffers, on values, and on rows of a server, messages and its catalogue.
//!
//! Blocks are separated by lines `====`. The first line of a block says what its rows are; each row is
//! `CALL => ANSWER`, but for `run`, whose block is the lines of a session, a line `=>`, and the answers, and
//! `run in hex`, where both stand in hex.
#![tactic(auto)]

mod arguments;
mod bits;
mod bodies;
mod buffers;
mod catalog;
mod exchange;
mod first;
mod made;
mod maps;
mod messages;
mod own;
mod pieces;
mod queries;
mod reading;
mod readings;
mod rows;
mod sessions;
mod still;
mod texts;
mod tokens;
mod trees;
mod values;

use crate::arguments::Arguments;
use crate::bits::Bits;
use crate::bodies::Bodies;
use crate::buffers::Buffer;
use crate::catalog::Catalog;
use crate::exchange::Exchange;
use crate::maps::Map;
use crate::messages::Messages;
use crate::pieces::Pieces;
use crate::queries::Query;
use crate::readings::Readings;
use crate::rows::Rows;
use crate::still::Still;
use crate::texts::Texts;
use crate::trees::Tree;
use crate::values::Values;
use pgv::message::PgExchange;
use pgv::types::{BitVec, PgHstore, PgLQuery, PgLTree};
use pgv::{PgArgumentBuffer, PgArguments};
use pgv_fixtures::{Blocks, Tries, differing, serve};
use std::alloc::Global;
use std::process::ExitCode;

/// Calls of every kind.
struct Calls;

impl Blocks for Calls {
    fn first_differing<'a>(
        &self,
        alloc: Global,
        tries: &Tries,
        kind: &'a str,
        rows: &'a str,
    ) -> Option<&'a str> {
        match kind {
            "arguments" => differing(alloc, tries, Arguments(PgArguments::new(alloc)), rows),
            "buffer" => differing(alloc, tries, Buffer(PgArgumentBuffer::new(alloc)), rows),
            "still" => differing(alloc, tries, Still::new(alloc), rows),
            "run" => sessions::differing(alloc, tries, rows, false),
            "run in hex" => sessions::differing(alloc, tries, rows, true),
            _ => differing_value(alloc, tries, kind, rows),
        }
    }
}

/// The first row of a block of calls on values that doesn't hold.
fn differing_value<'a>(
    alloc: Global,
    tries: &Tries,
    kind: &'a str,
    rows: &'a str,
) -> Option<&'a str> {
    match kind {
        "readings" => differing(alloc, tries, Readings, rows),
        "texts" => differing(alloc, tries, Texts(tries), rows),
        "values" => differing(alloc, tries, Values(tries), rows),
        "tree" => differing(alloc, tries, Tree(PgLTree::new(alloc)), rows),
        "query" => differing(alloc, tries, Query(PgLQuery::new(alloc)), rows),
        "map" => differing(alloc, tries, Map(PgHstore::new(alloc)), rows),
        "bits" => differing(alloc, tries, Bits(BitVec::new(alloc)), rows),
        _ => differing_row(alloc, tries, kind, rows),
    }
}

/// The first row of a block of calls on rows, messages and a catalogue that doesn't hold; the kind where there is none
/// such.
fn differing_row<'a>(
    alloc: Global,
    tries: &Tries,
    kind: &'a str,
    rows: &'a str,
) -> Option<&'a str> {
    match kind {
        "rows" => differing(alloc, tries, Rows::new(alloc), rows),
        "messages" => differing(alloc, tries, Messages(Vec::new(alloc)), rows),
        "bodies" => differing(alloc, tries, Bodies, rows),
        "exchange" => differing(alloc, tries, Exchange(PgExchange::new(alloc)), rows),
        "catalog" => differing(alloc, tries, Catalog, rows),
        "pieces" => match pieces::reader_again(alloc) {
            Some(reader) => differing(alloc, tries, Pieces(reader), rows),
            None => Some(kind),
        },
        _ => Some(kind),
    }
}

fn main(rt: HostRuntime) -> ExitCode {
    serve(&Calls, "pgv_calls", &rt)
}
