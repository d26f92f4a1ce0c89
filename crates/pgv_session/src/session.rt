//! What a line does, and what it answers.

ghost use Rattle.std.specs.Prelude.{◌≡◌, ◌++◌, IfOk, OnOk, length, ◌==◌, string_bytes, option_map};
ghost use Rattle.pgv_types.specs.Facts.{display_of};
ghost use Rattle.pgv_buf.specs.Tokens.{hole_count};
ghost use Rattle.pgv_wire.specs.Arguments.{all_cells};
ghost use Rattle.pgv_session.specs.RequestsView.{request_seen};
ghost use Rattle.pgv_session.specs.Session.{AnswersLine, RespondsTo, Resolves, names_shown};

use crate::copied::copied;
use crate::line::{Request, parse};
use crate::value::{refusal, respond_by};
use pgv_types::{Oid, PgTypeInfo};
use pgv_value::CodecError;
use pgv_wire::PgArguments;
use std::alloc::{AllocError, Global};

/// Answers a line. Only out of memory is an error, and then nothing is promised of the arguments.
pub fn answer(alloc: Global, arguments: &mut PgArguments, line: &[u8]) -> Result<String, AllocError>
    ensures { IfOk result (λ text. AnswersLine line.now arguments.old
        (string_bytes text) arguments.new) }
{
    let request = parse(alloc, line)?;
    respond_to(alloc, arguments, request)
}

/// Answers what is asked for, if anything.
fn respond_to(
    alloc: Global,
    arguments: &mut PgArguments,
    request: Option<Request>,
) -> Result<String, AllocError>
    ensures { IfOk result (λ text. RespondsTo (option_map request_seen request.entry) arguments.old
        (string_bytes text) arguments.new) }
{
    let Some(request) = request else {
        return String::from_str(alloc, "refused line");
    };
    match request {
        Request::Of(name, ask) => respond_by(alloc, arguments, name, ask),
        Request::Holes => names(alloc, arguments.hole_types()),
        Request::Resolve(oids) => resolve(alloc, arguments, oids.as_slice()),
        Request::Copy(bytes, names) => copied(alloc, bytes.as_slice(), names),
        Request::Wire => hex::encode(alloc, arguments.buffer().as_slice()),
    }
}

/// Fills the holes. Each argument's parameter type is its own. The number of OIDs is tested before the types are
/// copied.
fn resolve(alloc: Global, arguments: &mut PgArguments, oids: &[Oid]) -> Result<String, AllocError>
    ensures { IfOk result (λ answer. Resolves
        (length oids.now == hole_count (all_cells arguments.old)) oids.now arguments.old
        (string_bytes answer) arguments.new) }
{
    if oids.len() != arguments.hole_types().len() {
        return refusal(alloc, &CodecError::HoleCount);
    }
    let types = arguments.types().to_vec(alloc)?;
    match arguments.apply_patches(types.as_slice(), oids) {
        Ok(()) => String::from_str(alloc, "ok"),
        Err(error) => refusal(alloc, &error),
    }
}

/// The names of the types whose OIDs are missing, or `none`.
fn names(alloc: Global, types: &[PgTypeInfo]) -> Result<String, AllocError>
    ensures { IfOk result (λ text. string_bytes text ≡ names_shown types.now) }
{
    let Some((first, rest)) = types.split_first() else {
        return String::from_str(alloc, "none");
    };
    let mut text = String::new(alloc);
    push_name(&mut text, first)?;
    for hole_type in rest {
        text.push(' ')?;
        push_name(&mut text, hole_type)?;
    }
    Ok(text)
}

fn push_name(text: &mut String, hole_type: &PgTypeInfo) -> Result<(), AllocError>
    ensures { OnOk result (string_bytes text.new
        ≡ string_bytes text.old ++ display_of hole_type.now) }
{
    let name = hole_type.name();
    text.push_str(name.text())?;
    text.push_str(name.suffix())?;
    Ok(())
}
