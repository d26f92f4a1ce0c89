//! Types that the server described, and arrays that are declared by their element's name.
ghost use Rattle.std.specs.Prelude.{◌≡◌};
ghost use Rattle.pgv_types.specs.Shown.{custom_oid, custom_name, custom_kind, element_name_of};
ghost use Rattle.pgv_types.specs.LentParts.{kind_lent};

use crate::{Oid, PgTypeKind, PgTypeKindRef, StaticText};
use std::alloc::AllocError;
use std::rc::RcStr;

/// A type that the server described, as its catalogue has it (PostgreSQL, "pg_type").
#[derive(Drop)]
#[cycle(types)]
pub struct PgCustomType {
    pub(crate) oid: Oid,
    pub(crate) name: RcStr,
    pub(crate) kind: PgTypeKind,
}

impl PgCustomType {
    /// The type's own OID, of a domain too. For the type that `custom(alloc, Oid(16600), "mood", ..)` made it is 16600.
    pub fn oid(&self) -> Oid
        ensures { result.0 ≡ custom_oid self.now }
    {
        self.oid
    }

    /// The name, as the catalogue has it.
    pub fn name(&self) -> &str
        ensures { result.now ≡ custom_name self.now }
    {
        self.name.as_str()
    }

    /// The kind, with its parts by reference.
    pub fn kind(&self) -> PgTypeKindRef<'_>
        ensures { kind_lent result ≡ custom_kind self.now }
    {
        self.kind.lend()
    }
}

/// Two custom types are equal iff their OIDs are, whatever their names and kinds.
impl PartialEq for PgCustomType {
    ghost use Rattle.pgv_types.specs.SameOid.{same_custom_oid, same_oid_per};

    ghost eq = { same_custom_oid };

    ghost laws = { same_oid_per };

    fn eq(&self, other: &PgCustomType) -> bool {
        self.oid == other.oid
    }
}

impl Eq for PgCustomType {
    ghost use Rattle.pgv_types.specs.SameOid.{same_oid_equiv};

    ghost laws = { same_oid_equiv };
}

/// A copy has the same OID, name and kind.
impl Clone for PgCustomType {
    ghost use Rattle.pgv_types.specs.Shown.{IsSameCustom};

    ghost is_clone = { IsSameCustom };

    fn clone(&self) -> Result<PgCustomType, AllocError> {
        Ok(PgCustomType {
            oid: self.oid,
            name: self.name.clone()?,
            kind: self.kind.clone()?,
        })
    }
}

/// An array that is declared by its element's name.
#[derive(Drop)]
pub struct PgArrayOf {
    elem_name: StaticText,
}

impl PgArrayOf {
    pub(crate) fn new(elem_name: &'static str) -> PgArrayOf
        ensures { element_name_of result ≡ elem_name.now }
    {
        PgArrayOf {
            elem_name: StaticText::new(elem_name),
        }
    }

    /// The element's name, as it was declared.
    pub fn elem_name(&self) -> &'static str
        ensures { result.now ≡ element_name_of self.now }
    {
        self.elem_name.as_str()
    }
}

/// A copy has the same element's name. It takes no memory.
impl Clone for PgArrayOf {
    ghost use Rattle.std.specs.Prelude.{◌≡◌};
    ghost use Rattle.pgv_types.specs.Shown.{element_name_of};

    ghost is_clone = { λ a copy. element_name_of copy ≡ element_name_of a };

    ghost use Rattle.std.specs.Prelude.{⊤};

    ghost is_infallible = { λ _. ⊤ };

    fn clone(&self) -> Result<PgArrayOf, AllocError> {
        Ok(PgArrayOf::new(self.elem_name()))
    }
}
