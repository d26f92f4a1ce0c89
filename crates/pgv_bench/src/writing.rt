//! Values that are written.

use crate::rows::binds;
use crate::triple::Triple;
use pgv_codec::{Encode, PgArgumentBuffer, Type};
use pgv_examples::mood::Mood;
use pgv_fixtures::EmptyObject;
use pgv_types::{Oid, PgType, PgTypeInfo};
use pgv_user_types::PgEnum;
use pgv_value::CodecError;
use pgv_wire::PgArguments;
use std::alloc::Global;
use uuid::Uuid;

fn add_once<T: Encode + Type>(alloc: Global, values: &[T]) -> Result<usize, CodecError> {
    let mut arguments = PgArguments::new(alloc);
    for value in values {
        arguments.add_by_ref(value)?;
    }
    Ok(arguments.buffer().len())
}

fn encode_once<T: Encode>(alloc: Global, values: &[T]) -> Result<usize, CodecError> {
    let mut buffer = PgArgumentBuffer::new(alloc);
    for value in values {
        buffer.encode(value)?;
    }
    Ok(buffer.len())
}

/// Writes all values, this number of times: by `add` where `how` is 0, else by `encode`.
pub fn write_all<T: Encode + Type>(
    alloc: Global,
    values: &[T],
    rounds: u32,
    how: u32,
) -> Result<usize, CodecError> {
    let mut sum = 0usize;
    for _ in 0..rounds {
        let len = if how == 0 {
            add_once(alloc, values)?
        } else {
            encode_once(alloc, values)?
        };
        sum = sum.wrapping_add(len);
    }
    Ok(sum)
}

/// Writes truth values as [`write_all`] does: those of numbers above 0 are true.
pub fn write_bools(
    alloc: Global,
    values: &[i32],
    rounds: u32,
    how: u32,
) -> Result<usize, CodecError> {
    let mut made = Vec::new(alloc);
    for value in values {
        made.push(*value > 0)?;
    }
    write_all(alloc, made.as_slice(), rounds, how)
}

/// Writes UUIDs of sixteen bytes each.
pub fn write_ids(alloc: Global, bytes: &[u8], rounds: u32, how: u32) -> Result<usize, CodecError> {
    let mut made = Vec::new(alloc);
    for part in bytes.chunks(16) {
        if let Ok(id) = Uuid::from_slice(part) {
            made.push(id)?;
        }
    }
    write_all(alloc, made.as_slice(), rounds, how)
}

/// The texts of these lengths, one after another.
fn texts_of(alloc: Global, blob: &[u8], lens: &[u32]) -> Result<Vec<String>, CodecError> {
    let mut made = Vec::new(alloc);
    let mut rest = blob;
    for len in lens {
        let (front, behind) = rest.split_at((*len as usize).min(rest.len()));
        rest = behind;
        let text = match str::from_utf8(front) {
            Ok(text) => text,
            Err(_) => "",
        };
        made.push(String::from_str(alloc, text)?)?;
    }
    Ok(made)
}

/// Writes texts of these lengths, one after another in `blob`.
pub fn write_texts(
    alloc: Global,
    blob: &[u8],
    lens: &[u32],
    rounds: u32,
    how: u32,
) -> Result<usize, CodecError> {
    let made = texts_of(alloc, blob, lens)?;
    write_all(alloc, made.as_slice(), rounds, how)
}

/// Writes arrays of `per` numbers each.
pub fn write_lists(
    alloc: Global,
    values: &[i32],
    per: usize,
    rounds: u32,
    how: u32,
) -> Result<usize, CodecError> {
    let mut made = Vec::new(alloc);
    for part in values.chunks(per.max(1)) {
        made.push(part.to_vec(alloc)?)?;
    }
    write_all(alloc, made.as_slice(), rounds, how)
}

fn options_of(alloc: Global, part: &[i32]) -> Result<Vec<Option<i32>>, CodecError> {
    let mut list = Vec::new(alloc);
    for value in part {
        let option = if *value % 4 == 3 { None } else { Some(*value) };
        list.push(option)?;
    }
    Ok(list)
}

/// Writes arrays of `per` numbers, some of them null.
pub fn write_options(
    alloc: Global,
    values: &[i32],
    per: usize,
    rounds: u32,
    how: u32,
) -> Result<usize, CodecError> {
    let mut made = Vec::new(alloc);
    for part in values.chunks(per.max(1)) {
        made.push(options_of(alloc, part)?)?;
    }
    write_all(alloc, made.as_slice(), rounds, how)
}

/// Writes arrays of `per` texts each.
pub fn write_text_lists(
    alloc: Global,
    blob: &[u8],
    lens: &[u32],
    per: usize,
    rounds: u32,
    how: u32,
) -> Result<usize, CodecError> {
    let mut made = Vec::new(alloc);
    let mut rest = blob;
    for part in lens.chunks(per.max(1)) {
        made.push(texts_of(alloc, rest, part)?)?;
        for len in part {
            rest = rest.split_at((*len as usize).min(rest.len())).1;
        }
    }
    write_all(alloc, made.as_slice(), rounds, how)
}

/// Writes records of a number, a text and a truth value.
pub fn write_records(
    alloc: Global,
    blob: &[u8],
    lens: &[u32],
    rounds: u32,
    how: u32,
) -> Result<usize, CodecError> {
    let mut made = Vec::new(alloc);
    for name in texts_of(alloc, blob, lens)? {
        let id = 7 + (name.len() % 1000) as i32;
        made.push(Triple { id, name, on: true })?;
    }
    write_all(alloc, made.as_slice(), rounds, how)
}

fn statement(alloc: Global, name: &String) -> Result<usize, CodecError> {
    let mut arguments = PgArguments::new(alloc);
    arguments.add(7i32)?;
    arguments.add_by_ref(name)?;
    arguments.add(true)?;
    arguments.add(9i64)?;
    Ok(arguments.buffer().len())
}

/// Adds the arguments of a statement for each name, `rounds` times; the sum of their bytes.
pub fn statements(
    alloc: Global,
    blob: &[u8],
    lens: &[u32],
    rounds: u32,
) -> Result<usize, CodecError> {
    let names = texts_of(alloc, blob, lens)?;
    let mut sum = 0usize;
    for _ in 0..rounds {
        for name in &names {
            sum = sum.wrapping_add(statement(alloc, name)?);
        }
    }
    Ok(sum)
}

/// Writes a Bind for each name, `rounds` times.
pub fn bindings(
    alloc: Global,
    blob: &[u8],
    lens: &[u32],
    rounds: u32,
) -> Result<usize, CodecError> {
    let names = texts_of(alloc, blob, lens)?;
    binds(alloc, names.as_slice(), rounds)
}

fn own_types(alloc: Global, arguments: &PgArguments) -> Result<Vec<PgTypeInfo>, CodecError> {
    Ok(arguments.types().to_vec(alloc)?)
}

/// As many lists of one mood.
fn lists_of_moods(alloc: Global, n: u32) -> Result<PgArguments, CodecError> {
    let mut arguments = PgArguments::new(alloc);
    let moods = Vec::from_array(alloc, [PgEnum(Mood::Fine)])?;
    for _ in 0..n {
        arguments.add_by_ref(&moods)?;
    }
    Ok(arguments)
}

/// As many OIDs.
fn oids_of_moods(alloc: Global, n: u32) -> Result<Vec<Oid>, CodecError> {
    let mut oids = Vec::new(alloc);
    for _ in 0..n {
        oids.push(Oid(16500))?;
    }
    Ok(oids)
}

/// Fills all holes and slots, `rounds` times. How many bytes there are.
fn filled(
    arguments: &mut PgArguments,
    types: &[PgTypeInfo],
    oids: &[Oid],
    rounds: u32,
) -> Result<usize, CodecError> {
    for _ in 0..rounds {
        arguments.apply_patches(types, oids)?;
    }
    Ok(arguments.buffer().len())
}

/// Fills the holes of `n` arrays of a type that is known by its name, `rounds` times.
pub fn patches(alloc: Global, n: u32, rounds: u32) -> Result<usize, CodecError> {
    let mut arguments = lists_of_moods(alloc, n)?;
    let types = own_types(alloc, &arguments)?;
    let oids = oids_of_moods(alloc, n)?;
    filled(&mut arguments, types.as_slice(), oids.as_slice(), rounds)
}

/// As many objects.
fn objects(alloc: Global, n: u32) -> Result<PgArguments, CodecError> {
    let mut arguments = PgArguments::new(alloc);
    for _ in 0..n {
        arguments.add_by_ref(&EmptyObject { alloc })?;
    }
    Ok(arguments)
}

/// As many types.
fn types_of_objects(alloc: Global, n: u32) -> Result<Vec<PgTypeInfo>, CodecError> {
    let mut types = Vec::new(alloc);
    for _ in 0..n {
        types.push(PgTypeInfo(PgType::Jsonb))?;
    }
    Ok(types)
}

/// Fills the slots of `n` objects, `rounds` times.
pub fn slots(alloc: Global, n: u32, rounds: u32) -> Result<usize, CodecError> {
    let mut arguments = objects(alloc, n)?;
    let types = types_of_objects(alloc, n)?;
    filled(&mut arguments, types.as_slice(), &[], rounds)
}
