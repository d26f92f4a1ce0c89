//! When two types are softly or exactly the same.
ghost use Rattle.std.specs.Prelude.{◌≡◌, ◌&&◌, ◌||◌, option_map};
ghost use Rattle.pgv_types.specs.Agree.{agree};
ghost use Rattle.pgv_types.specs.Facts.{base_oid, name_of};
ghost use Rattle.pgv_types.specs.LentParts.{ref_type, IsHeld};
ghost use Rattle.pgv_types.specs.Relations.{softly, exactly, related, rest_related, levels, common_base, is_by_oid};
ghost use Rattle.pgv_types.specs.Shown.{type_of};

use crate::{Oid, PgType, PgTypeInfo, PgTypeKind, PgTypeRef};

impl PgType {
    /// The OID, or that of the type under a domain.
    #[inline(always)]
    fn base_oid(&self) -> Option<Oid>
        ensures { option_map (λ o. o.0) result ≡ base_oid (type_of self.now) }
    {
        match self {
            PgType::Custom(custom) => match &custom.kind {
                PgTypeKind::Domain(info) => info.oid(),
                _ => Some(custom.oid),
            },
            _ => self.oid(),
        }
    }

    /// Whether the base OIDs are equal, where both are known.
    #[inline(always)]
    fn same_base(&self, other: &PgType) -> Option<bool>
        ensures { result ≡ common_base (base_oid (type_of self.now)) (base_oid (type_of other.now)) }
    {
        let first = self.base_oid()?;
        let second = other.base_oid()?;
        Some(first == second)
    }

    /// Whether the soft relation asks no more, since one of the two is declared by its OID.
    #[inline(always)]
    fn is_open(&self, other: &PgType, soft: bool) -> bool
        ensures { result ≡ (soft && (is_by_oid (type_of self.now) || is_by_oid (type_of other.now))) }
    {
        soft && (self.is_by_oid() || other.is_by_oid())
    }

    /// Whether the catalogue names agree.
    fn names_agree(&self, other: &PgType) -> bool
        ensures { result ≡ agree (name_of (type_of self.now)) (name_of (type_of other.now)) }
    {
        self.name().agrees(&other.name())
    }

    /// The last rule: two elements in the same way, else the catalogue names.
    fn rest_related(&self, other: &PgType, soft: bool) -> bool
        ensures { result ≡ rest_related soft (type_of self.now) (type_of other.now) }
    {
        let Some(first) = self.array_element() else {
            return self.names_agree(other);
        };
        let Some(second) = other.array_element() else {
            return self.names_agree(other);
        };
        elements_related(first, second, soft)
    }

    /// Whether the two are softly, or else exactly, the same.
    #[inline(always)]
    fn is_related(&self, other: &PgType, soft: bool) -> bool
        ensures { result ≡ related soft (levels (type_of self.now)) (levels (type_of other.now)) }
    {
        if let Some(same) = self.same_base(other) {
            return same;
        }
        if self.is_open(other, soft) {
            return true;
        }
        self.rest_related(other, soft)
    }

    /// Whether the two types are softly the same, as [`PgTypeInfo::type_compatible`] says.
    #[inline(always)]
    pub fn type_compatible(&self, other: &PgType) -> bool
        ensures { result ≡ softly (type_of self.now) (type_of other.now) }
    {
        self.is_related(other, true)
    }

    /// Whether the two types are exactly the same, as far as is known, as [`PgTypeInfo::type_eq`] says.
    pub fn type_eq(&self, other: &PgType) -> bool
        ensures { result ≡ exactly (type_of self.now) (type_of other.now) }
    {
        self.is_related(other, false)
    }
}

impl PgTypeInfo {
    /// Whether the two types are softly the same: a value of the one is then accepted where the other is expected.
    ///
    /// The first rule that applies decides: two known base OIDs must be equal, where a domain's is that of the type
    /// under it; a type that is declared by its OID is the same as any other; two elements must be softly the same;
    /// else the catalogue names must agree. It takes no memory.
    #[inline(always)]
    pub fn type_compatible(&self, other: &PgTypeInfo) -> bool
        ensures { result ≡ softly self.now other.now }
    {
        self.0.type_compatible(&other.0)
    }

    /// Whether the two types are exactly the same, as far as is known.
    ///
    /// It decides as [`type_compatible`](PgTypeInfo::type_compatible) does, but a type that is declared by its OID has
    /// no rule of its own, and elements must be exactly the same. It takes no memory.
    pub fn type_eq(&self, other: &PgTypeInfo) -> bool
        ensures { result ≡ exactly self.now other.now }
    {
        self.0.type_eq(&other.0)
    }
}

impl PgTypeRef<'_> {
    /// The type.
    fn as_type(&self) -> &PgType
        ensures { type_of result.now ≡ ref_type self.now }
    {
        &self.as_ref().0
    }
}

/// Whether two elements are softly, or else exactly, the same. It takes no more of the stack for elements within
/// elements.
fn elements_related(first: PgTypeRef<'_>, second: PgTypeRef<'_>, soft: bool) -> bool
    requires first { IsHeld first }
    requires second { IsHeld second }
    ensures { result ≡ related soft (levels (ref_type first.entry))
        (levels (ref_type second.entry)) }
{
    let mut left = first;
    let mut right = second;
    loop {
        if let Some(same) = left.as_type().same_base(right.as_type()) {
            return same;
        }
        if left.as_type().is_open(right.as_type(), soft) {
            return true;
        }
        let Some(left_element) = left.element() else {
            return left.as_type().names_agree(right.as_type());
        };
        let Some(right_element) = right.element() else {
            return left.as_type().names_agree(right.as_type());
        };
        left = left_element;
        right = right_element;
    }
}
