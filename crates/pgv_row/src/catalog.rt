//! The types of a server that are not built in.

ghost use Rattle.std.specs.Prelude.{◌≡◌, ℕ, Option, option_map};
ghost use Rattle.pgv_types.specs.Ty.{Ty};
ghost use Rattle.pgv_value.specs.Outcome.{Gives, copied_type};
ghost use Rattle.pgv_row.specs.Catalog.{with_oid};
ghost use Rattle.pgv_row.specs.Description.{type_by};

use pgv_types::{Oid, PgTypeInfo};
use pgv_value::CodecError;

/// What a caller knows of the types of a server, by their OIDs.
pub trait PgCatalog {
    /// The type of an OID, where it is known.
    ghost known: { Self → ℕ → Option Ty };

    /// The type of an OID, where it is known.
    fn type_of(&self, oid: Oid) -> Option<&PgTypeInfo>
        ensures { option_map (λ t. t.now) result ≡ known self.now oid.0 };
}

/// A list of types: the first that has the OID.
impl PgCatalog for &[PgTypeInfo] {
    ghost known = { λ types oid. with_oid oid types.now };

    fn type_of(&self, oid: Oid) -> Option<&PgTypeInfo> {
        let types: &[PgTypeInfo] = *self;
        for type_info in types {
            if type_info.has_oid(oid) {
                return Some(type_info);
            }
        }
        None
    }
}

/// The type of an OID: the built-in one, or else what the catalogue has, or else a type of which only the OID is known.
/// Only the copy of a custom type may be refused (C1).
#[tactic(auto, unfolding(crate::specs::Description::type_by))]
pub fn type_of_oid<C: PgCatalog>(catalog: &C, oid: Oid) -> Result<PgTypeInfo, CodecError>
    ensures { Gives (λ t. t) (copied_type (type_by (C.known catalog.now) oid.0)) result }
{
    if let Some(built_in) = PgTypeInfo::try_from_oid(oid) {
        return Ok(built_in);
    }
    match catalog.type_of(oid) {
        Some(known) => Ok(known.clone()?),
        None => Ok(PgTypeInfo::with_oid(oid)),
    }
}
