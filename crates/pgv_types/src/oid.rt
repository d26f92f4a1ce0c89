//! The numbers by which a server knows its types.

/// The OID of a type: an unsigned number of four bytes (PostgreSQL, "Object Identifier Types").
///
/// The server gives one to each of its types. Those of the built-in types never change, and those
/// of other types differ from one database to the next.
#[derive(Clone, Copy, PartialEq, Eq, Hash, Debug)]
pub struct Oid(pub u32);

/// The OID 0, which no type has.
impl Default for Oid {
    ghost use Rattle.std.specs.Prelude.{◌≡◌};

    ghost is_default = { λ oid. oid.0 ≡ 0 };

    fn default() -> Oid {
        Oid(0)
    }
}
