//! ParameterDescription: the types of a statement's parameters.

ghost use Rattle.pgv_value.specs.Outcome.{Gives, GivesWhole};
ghost use Rattle.pgv_message.specs.Counted.{oid_front, parameters, AreParameters, oids_front};

use pgv_types::Oid;
use pgv_value::{CodecError, u16_in_front, u32_in_front};
use std::alloc::Global;

/// The OID in front, and the rest.
#[tactic(auto, unfolding(crate::specs::Counted::oid_front))]
fn oid_in_front(bytes: &[u8]) -> Result<(Oid, &[u8]), CodecError>
    ensures { Gives (λ x. (x.0, x.1.now)) (oid_front bytes.now) result }
{
    let (oid, rest) = u32_in_front(bytes)?;
    Ok((Oid(oid), rest))
}

/// As many OIDs, and the rest.
fn oids_in_front(alloc: Global, bytes: &[u8], count: u16) -> Result<(Vec<Oid>, &[u8]), CodecError>
    ensures { Gives (λ x. (x.0.items, x.1.now)) (oids_front count bytes.now) result }
{
    let mut oids = Vec::new(alloc);
    let mut rest = bytes;
    for _ in 0..count {
        let (oid, after) = oid_in_front(rest)?;
        oids.push(oid)?;
        rest = after;
    }
    Ok((oids, rest))
}

/// The OIDs of a body, after which nothing is left.
#[tactic(auto, unfolding(crate::specs::Counted::counted))]
fn all_oids(alloc: Global, body: &[u8]) -> Result<Vec<Oid>, CodecError>
    ensures { Gives (λ oids. oids.items) (parameters body.now) result }
{
    let (count, rest) = u16_in_front(body)?;
    let (oids, rest) = oids_in_front(alloc, rest, count)?;
    if !rest.is_empty() {
        return Err(CodecError::WrongLength(body.len()));
    }
    Ok(oids)
}

/// The OIDs of the types of a statement's parameters, from the body of a ParameterDescription (PostgreSQL: "Message
/// Formats", ParameterDescription): the number of parameters in two bytes, and four bytes for each. Bytes that end too
/// early are refused with [`Short`](CodecError::Short) (C15), and bytes after the last OID with
/// [`WrongLength`](CodecError::WrongLength) (C17).
///
/// `0001 00000017` is one parameter, an `int4`.
pub fn parameter_oids(alloc: Global, body: &[u8]) -> Result<Vec<Oid>, CodecError>
    // What is answered is what the body describes, and nothing but memory keeps a description from being answered.
    ensures { GivesWhole (λ oids. oids.items) (parameters body.now)
        (AreParameters body.now) result }
{
    let oids = all_oids(alloc, body)?;
    Ok(oids)
}
