//! What kind of type a type is.
ghost use Rattle.std.specs.Prelude.{◌≡◌, option_map, IfSome};
ghost use Rattle.pgv_types.specs.Facts.{element_of};
ghost use Rattle.pgv_types.specs.LentParts.{ref_type, IsHeld, kind_lent};
ghost use Rattle.pgv_types.specs.Shown.{kind_of};

use crate::PgTypeInfo;
use std::alloc::AllocError;
use std::rc::{RcSlice, RcStr};

/// The kind of a type, with the types of its parts (PostgreSQL, "pg_type", column `typtype`).
#[derive(Drop)]
#[cycle(types)]
pub enum PgTypeKind {
    /// A base type.
    Simple,
    /// A pseudo-type, which no column has.
    Pseudo,
    /// A domain, over the type that is given.
    Domain(PgTypeInfo),
    /// A composite type, with the names and types of its fields in order.
    Composite(Vec<(RcStr, PgTypeInfo)>),
    /// An array of the element that is given.
    Array(PgTypeInfo),
    /// An enumeration, with its labels in order.
    Enum(RcSlice<RcStr>),
    /// A range over the type that is given.
    Range(PgTypeInfo),
}

impl PgTypeKind {
    /// The kind, with its parts by reference.
    pub(crate) fn lend(&self) -> PgTypeKindRef<'_>
        ensures { kind_lent result ≡ kind_of self.now }
    {
        match self {
            PgTypeKind::Simple => PgTypeKindRef::Simple,
            PgTypeKind::Pseudo => PgTypeKindRef::Pseudo,
            PgTypeKind::Domain(info) => PgTypeKindRef::Domain(PgTypeRef::Borrowed(info)),
            PgTypeKind::Composite(fields) => PgTypeKindRef::Composite(fields.as_slice()),
            PgTypeKind::Array(info) => PgTypeKindRef::Array(PgTypeRef::Borrowed(info)),
            PgTypeKind::Enum(labels) => PgTypeKindRef::Enum(labels.as_slice()),
            PgTypeKind::Range(info) => PgTypeKindRef::Range(PgTypeRef::Borrowed(info)),
        }
    }
}

/// A copy is of the same kind. It asks for memory for the list of a composite type's fields.
impl Clone for PgTypeKind {
    ghost use Rattle.std.specs.Prelude.{◌≡◌};
    ghost use Rattle.pgv_types.specs.Shown.{kind_of};

    ghost is_clone = { λ k copy. kind_of copy ≡ kind_of k };

    fn clone(&self) -> Result<PgTypeKind, AllocError> {
        match self {
            PgTypeKind::Simple => Ok(PgTypeKind::Simple),
            PgTypeKind::Pseudo => Ok(PgTypeKind::Pseudo),
            PgTypeKind::Domain(info) => Ok(PgTypeKind::Domain(info.clone()?)),
            PgTypeKind::Composite(fields) => Ok(PgTypeKind::Composite(fields.clone()?)),
            PgTypeKind::Array(info) => Ok(PgTypeKind::Array(info.clone()?)),
            PgTypeKind::Enum(labels) => Ok(PgTypeKind::Enum(labels.clone()?)),
            PgTypeKind::Range(info) => Ok(PgTypeKind::Range(info.clone()?)),
        }
    }
}

/// A type that is made here (a built-in one, or one that is declared), or one that is part of another.
#[derive(Drop)]
pub enum PgTypeRef<'a> {
    /// A type of its own.
    Owned(PgTypeInfo),
    /// A part of another type.
    Borrowed(&'a PgTypeInfo),
}

impl<'a> PgTypeRef<'a> {
    /// The type.
    pub fn as_ref(&self) -> &PgTypeInfo
        ensures { result.now ≡ ref_type self.now }
    {
        match self {
            PgTypeRef::Owned(info) => info,
            PgTypeRef::Borrowed(info) => *info,
        }
    }

    /// The element of an array, which may be kept longer than this.
    pub(crate) fn element(&self) -> Option<PgTypeRef<'a>>
        requires { IsHeld self.now }
        ensures element { option_map ref_type result ≡ element_of (ref_type self.now) }
        ensures held { IfSome result IsHeld }
    {
        match self {
            PgTypeRef::Owned(info) => Some(PgTypeRef::Owned(info.0.made_element()?)),
            PgTypeRef::Borrowed(info) => info.0.array_element(),
        }
    }
}

/// A `PgTypeKind` whose parts are references. The parts of a built-in type are made here.
#[derive(Drop)]
pub enum PgTypeKindRef<'a> {
    /// A base type.
    Simple,
    /// A pseudo-type.
    Pseudo,
    /// A domain, over the type that is given.
    Domain(PgTypeRef<'a>),
    /// A composite type, with the names and types of its fields in order.
    Composite(&'a [(RcStr, PgTypeInfo)]),
    /// An array of the element that is given.
    Array(PgTypeRef<'a>),
    /// An enumeration, with its labels in order.
    Enum(&'a [RcStr]),
    /// A range over the type that is given.
    Range(PgTypeRef<'a>),
}
