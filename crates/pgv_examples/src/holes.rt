//! Fills the holes of arguments by the types that a server described.

ghost use Rattle.std.specs.Prelude.{◌≡◌, List, IfOk, OnOk, OnErr};
ghost use Rattle.pgv.specs.Words.{Oid, hole_types_of, shown, all_cells, framed, early};
ghost use Rattle.pgv_examples.specs.Known.{AreKnownOids, IsKnownOid};

use pgv::{CodecError, Oid, PgArguments, PgTypeInfo};
use std::alloc::Global;

/// Fills every hole by the types that the server described: the OID of a type is looked up by its name. It is refused
/// with [`Caller(1)`](CodecError::Caller) (C38) where a type is not among them, and with
/// [`ParameterCount`](CodecError::ParameterCount) (C10) where there are not as many parameters as arguments; then
/// nothing was changed.
pub fn fill(
    alloc: Global,
    arguments: &mut PgArguments,
    parameters: &[PgTypeInfo],
    known: &[PgTypeInfo],
) -> Result<(), CodecError>
    // Each OID is that of a known type which its hole's is softly equal to.
    ensures written { OnOk result ((oids : List Oid)
        × AreKnownOids known.now (hole_types_of (all_cells arguments.old)) oids
        × (shown (all_cells arguments.new) ≡ early (framed arguments.old) parameters.now oids)) }
    ensures unchanged { OnErr result (arguments.new ≡ arguments.old) }
{
    let oids = oids_among(alloc, known, arguments.hole_types())?;
    arguments.apply_patches(parameters, oids.as_slice())
}

/// The OID of the type of each name; [`Caller(1)`](CodecError::Caller) (C38) where no type has one of them.
fn oids_among(
    alloc: Global,
    known: &[PgTypeInfo],
    holes: &[PgTypeInfo],
) -> Result<Vec<Oid>, CodecError>
    ensures { IfOk result (λ oids. AreKnownOids known.now holes.now oids.items) }
{
    let mut oids = Vec::new(alloc);
    for hole in holes {
        oids.push(oid_among(known, hole)?)?;
    }
    Ok(oids)
}

/// The OID of the type of this name; [`Caller(1)`](CodecError::Caller) (C38) where no type has it.
fn oid_among(known: &[PgTypeInfo], wanted: &PgTypeInfo) -> Result<Oid, CodecError>
    ensures { IfOk result (λ oid. IsKnownOid known.now wanted.now oid) }
{
    for type_info in known {
        if type_info.type_compatible(wanted) {
            let Some(oid) = type_info.oid() else {
                return Err(CodecError::Caller(1));
            };
            return Ok(oid);
        }
    }
    Err(CodecError::Caller(1))
}
