//! Arguments: their number, and the number of their holes.

use pgv::{CodecError, Oid, PgArguments, PgEnum, PgTypeInfo};
use pgv_examples::mood::Mood;
use std::alloc::Global;

/// The number of holes.
const HOLES: u32 = 100_000;

/// A frame of eight bytes for each number.
pub fn numbers(alloc: Global) -> Result<bool, CodecError> {
    let mut arguments = PgArguments::new(alloc);
    for number in 0..70_000 {
        arguments.add(number)?;
    }
    Ok(arguments.buffer().len() == 560_000 && placeholder(alloc, &arguments)?.as_str() == "$70000")
}

/// The placeholder of the last argument.
fn placeholder(alloc: Global, arguments: &PgArguments) -> Result<String, CodecError> {
    let mut text = String::new(alloc);
    arguments.format_placeholder(&mut text)?;
    Ok(text)
}

/// The numbers from 0 on.
fn list_of_numbers(alloc: Global) -> Result<Vec<i32>, CodecError> {
    let mut numbers = Vec::new(alloc);
    for number in 0..70_000 {
        numbers.push(number)?;
    }
    Ok(numbers)
}

/// Whether each was taken.
fn are_taken(outcomes: &[Result<(), CodecError>]) -> bool {
    for outcome in outcomes {
        if outcome.is_err() {
            return false;
        }
    }
    true
}

/// Adds the same numbers at once; whether each was taken.
fn add_numbers(alloc: Global, arguments: &mut PgArguments) -> Result<bool, CodecError> {
    let numbers = list_of_numbers(alloc)?;
    let outcomes = arguments.add_each(alloc, numbers.as_slice())?;
    Ok(are_taken(outcomes.as_slice()))
}

/// The same numbers at once, and a copy of them.
pub fn each(alloc: Global) -> Result<bool, CodecError> {
    let mut arguments = PgArguments::new(alloc);
    Ok(add_numbers(alloc, &mut arguments)? && arguments.clone()?.buffer().len() == 560_000)
}

/// An array without elements for each hole.
fn empty_lists(alloc: Global) -> Result<PgArguments, CodecError> {
    let mut arguments = PgArguments::new(alloc);
    for _ in 0..HOLES {
        arguments.add(Vec::<PgEnum<Mood>>::new(alloc))?;
    }
    Ok(arguments)
}

/// As many types of moods.
fn types_of_lists(alloc: Global) -> Result<Vec<PgTypeInfo>, CodecError> {
    let mut types = Vec::new(alloc);
    for _ in 0..HOLES {
        types.push(PgTypeInfo::array_of("mood"))?;
    }
    Ok(types)
}

/// The OIDs from 0 on.
fn oids_of_holes(alloc: Global) -> Result<Vec<Oid>, CodecError> {
    let mut oids = Vec::new(alloc);
    for number in 0..HOLES {
        oids.push(Oid(number))?;
    }
    Ok(oids)
}

/// Fills the holes with these OIDs.
fn fill_holes(alloc: Global, arguments: &mut PgArguments) -> Result<(), CodecError> {
    let types = types_of_lists(alloc)?;
    let oids = oids_of_holes(alloc)?;
    arguments.apply_patches(types.as_slice(), oids.as_slice())
}

/// An array without elements for each OID, 24 bytes of which the OID is four.
pub fn holes(alloc: Global) -> Result<bool, CodecError> {
    let mut arguments = empty_lists(alloc)?;
    fill_holes(alloc, &mut arguments)?;
    match arguments.buffer().as_slice().get(2_399_988..2_399_992) {
        Some(bytes) => Ok(bytes == 99_999u32.to_be_bytes().as_slice()),
        None => Ok(false),
    }
}
