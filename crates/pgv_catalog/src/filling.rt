//! OIDs of a catalogue, put into the holes of arguments.

ghost use Rattle.std.specs.Prelude.{◌≡◌, IfErr, MatchResult, OnOk, OnErr};
ghost use Rattle.pgv_catalog.specs.Filling.{AreNamed, FillRefused, IsFilled, OidsRefused};

use crate::error::CatalogError;
use crate::names::PgNames;
use pgv_types::{Oid, PgTypeInfo};
use pgv_value::CodecError;
use pgv_wire::PgArguments;
use std::alloc::Global;

/// Puts into each hole of arguments the OID that the catalogue has for its type, and fills each slot by the parameter
/// types that the server named, one for each argument.
///
/// It is refused with [`ParameterCount`](CodecError::ParameterCount) (C10) where there are not as many types as
/// arguments, else with [`CatalogError::Unknown`] for the first hole whose type is not in the catalogue. A refusal
/// changes nothing.
pub fn fill<N: PgNames>(
    alloc: Global,
    arguments: &mut PgArguments,
    parameters: &[PgTypeInfo],
    catalog: &N,
) -> Result<(), CatalogError>
    ensures written { OnOk result (IsFilled (N.named catalog.now) arguments.old
        parameters.now arguments.new) }
    ensures refused { IfErr result (FillRefused (N.named catalog.now)
        arguments.old parameters.now) }
    ensures unchanged { OnErr result (arguments.new ≡ arguments.old) }
{
    if parameters.len() != arguments.len() {
        return Err(CatalogError::Codec(CodecError::ParameterCount));
    }
    let oids = oids_of(alloc, arguments.hole_types(), catalog)?;
    arguments.apply_patches(parameters, oids.as_slice())?;
    Ok(())
}

/// The OID of each type, in order.
fn oids_of<N: PgNames>(
    alloc: Global,
    holes: &[PgTypeInfo],
    catalog: &N,
) -> Result<Vec<Oid>, CatalogError>
    ensures { MatchResult result (λ oids. AreNamed (N.named catalog.now) holes.now oids.items)
        (OidsRefused (N.named catalog.now) holes.now) }
{
    let mut oids = Vec::new(alloc);
    let mut place: usize = 0;
    for hole in holes {
        let Some(oid) = catalog.oid_for(hole) else {
            return Err(CatalogError::Unknown(place));
        };
        oids.push(oid)?;
        place += 1;
    }
    Ok(oids)
}
