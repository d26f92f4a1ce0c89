//! Binds the values of a statement: adds them, and gives the bytes that are sent once their holes are filled
//! ([`holes`](crate::holes)).

ghost use Rattle.std.specs.Prelude.{◌≡◌, ◌++◌, ◌<◌, ◌⊎◌, List, [], length, IfOk, IfErr, codes};
ghost use Rattle.std.specs.Int.{w16, to_be_bytes};
ghost use Rattle.pgv.specs.Words.{Added, Argument, builtin, argument_frame, array_of, shown, all_cells};

use crate::mood::Mood;
use pgv::{CodecError, Encode, PgArguments, PgEnum};
use std::alloc::Global;

/// The arguments of `select .. where id = $1 and name = $2 and mood = any($3)`: the three frames. Their types are
/// `int4`, `text` and `mood[]`; of the last only the name is known here, so there is a hole for its element's OID.
pub fn arguments_of_search(
    alloc: Global,
    id: i32,
    name: String,
    moods: Vec<PgEnum<Mood>>,
) -> Result<PgArguments, CodecError>
    ensures { IfOk result (λ arguments. (one : List Argument) × (two : List Argument)
        × Added (argument_frame (⟦<i32 as Encode>⟧.encoding id)) (builtin 23) [] one
        × Added (argument_frame (⟦<String as Encode>⟧.encoding name)) (builtin 25) one two
        × Added (argument_frame (⟦<Vec<PgEnum<Mood>> as Encode>⟧.encoding moods))
        (array_of (codes "mood")) two arguments) }
{
    let mut arguments = PgArguments::new(alloc);
    arguments.add(id)?;
    arguments.add(name)?;
    arguments.add(moods)?;
    Ok(arguments)
}

/// What the message Bind has of its parameters (PostgreSQL, "Message Formats"): their number in two bytes, and their
/// frames. More than 65535 are refused with [`ParameterCount`](CodecError::ParameterCount) (C10).
pub fn parameters_of_bind(alloc: Global, arguments: &PgArguments) -> Result<Vec<u8>, CodecError>
    ensures ok { IfOk result (λ message. message.items
        ≡ to_be_bytes w16 (length arguments.now) ++ shown (all_cells arguments.now)) }
    ensures err { IfErr result (λ e. (e ≡ CodecError.Memory)
        ⊎ ((e ≡ CodecError.ParameterCount) × (65535 < length arguments.now))) }
{
    let Ok(count) = u16::try_from(arguments.len()) else {
        return Err(CodecError::ParameterCount);
    };
    let count = count.to_be_bytes();
    let mut message = Vec::new(alloc);
    message.extend_from_slice(&count)?;
    message.extend_from_slice(arguments.buffer().as_slice())?;
    Ok(message)
}
