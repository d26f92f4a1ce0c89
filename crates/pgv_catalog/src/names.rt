//! OIDs of types that are known by name alone.

ghost use Rattle.std.specs.Prelude.{◌≡◌, ℕ, Option, option_map};
ghost use Rattle.pgv_types.specs.Ty.{Ty};
ghost use Rattle.pgv_catalog.specs.Entries.{oid_by_name};

use crate::server_types::PgServerTypes;
use pgv_types::{Oid, PgType, PgTypeInfo};

/// What a caller knows of the types of a server, by their names: whose OID goes into the hole of a type.
pub trait PgNames {
    /// The OID of a type that may be known by name alone, where it is known.
    ghost named: { Self → Ty → Option ℕ };

    /// The OID of a type that may be known by name alone, where it is known.
    fn oid_for(&self, wanted: &PgTypeInfo) -> Option<Oid>
        ensures { option_map (λ oid. oid.0) result ≡ named self.now wanted.now };
}

/// A type that is known by its name has the OID of the first type of that name; an array that is known by its element's
/// name that of the first array over it; any other its own.
impl PgNames for PgServerTypes {
    ghost named = { oid_by_name };

    fn oid_for(&self, wanted: &PgTypeInfo) -> Option<Oid> {
        match &wanted.0 {
            PgType::DeclareWithName(name) => self.find(name.as_str())?.oid(),
            PgType::DeclareArrayOf(array) => {
                let element = self.find(array.elem_name())?.oid()?;
                self.array_of(element)?.oid()
            }
            _ => wanted.oid(),
        }
    }
}
