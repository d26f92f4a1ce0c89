//! `in ($1, $2, ..)`: as many parameters as there are keys. (With one parameter, `= any($1)` takes a list: `arrays`.)

ghost use Rattle.std.specs.Prelude.{◌≡◌, ◌+◌, length, OnOk};

use pgv::{CodecError, PgArguments};
use std::alloc::Global;

/// Adds each key as an argument, and appends their placeholders to a query, as ` in ($1, $2)`; of no keys ` in (null)`,
/// which no row matches. A refusal leaves what was added and appended before.
pub fn push_in(
    arguments: &mut PgArguments,
    query: &mut String,
    keys: &[i64],
) -> Result<(), CodecError>
    ensures { OnOk result (length arguments.new ≡ length arguments.old + length keys.now) }
{
    query.push_str(" in (")?;
    if keys.is_empty() {
        query.push_str("null")?;
    }
    let mut is_first = true;
    for key in keys {
        push_key(arguments, query, *key, is_first)?;
        is_first = false;
    }
    Ok(query.push(')')?)
}

/// Adds a key, and appends its placeholder, after the first with a comma in front.
fn push_key(
    arguments: &mut PgArguments,
    query: &mut String,
    key: i64,
    is_first: bool,
) -> Result<(), CodecError>
    ensures { OnOk result (length arguments.new ≡ length arguments.old + 1) }
{
    arguments.add(key)?;
    if !is_first {
        query.push_str(", ")?;
    }
    arguments.format_placeholder(query)
}

/// Adds those keys that can be written, and answers how many could not. A key that is refused changes nothing.
pub fn add_all(
    alloc: Global,
    arguments: &mut PgArguments,
    keys: &[i64],
) -> Result<usize, CodecError> {
    let outcomes = arguments.add_each(alloc, keys)?;
    Ok(outcomes.iter().filter(|outcome| outcome.is_err()).count())
}
