//! Types as callers hold them.
ghost use Rattle.std.specs.Prelude.{◌≡◌, None, false, true, option_map, IfOk, IfSome};
ghost use Rattle.pgv_types.specs.Whole.{whole_name};
ghost use Rattle.pgv_types.specs.Facts.{is_custom, is_void, IsNotCustom, domain_base, under_domains, oid_of, same_built_in, same_oid, built_in_oid, element_of, name_element, kind_at, name_of, name_text_of, display_text_of, has_brackets, has_oid, display_of, shows_brackets, built_in};
ghost use Rattle.pgv_types.specs.Relations.{is_by_oid};
ghost use Rattle.pgv_types.specs.Ty.{named, array_of, by_oid, custom};
ghost use Rattle.pgv_types.specs.Shown.{kind_of, type_of};
ghost use Rattle.pgv_types.specs.LentParts.{ref_type, IsHeld, kind_lent};

use crate::{
    Oid, PgArrayOf, PgBuiltIn, PgCustomType, PgTypeKind, PgTypeKindRef, PgTypeName, PgTypeRef,
    StaticText,
};
use std::alloc::{AllocError, Global};
use std::fmt::{self, Display, Formatter};
use std::marker::Model;
use std::rc::{Rc, RcStr};

/// A type of PostgreSQL. `PgTypeInfo(PgType::Int4)` is a built-in one.
///
/// A clause sees it as a tree: a built-in type by its OID, a custom one by its OID, name and kind,
/// and one that is declared by its name, OID or element's name.
#[cycle(types)]
pub struct PgTypeInfo(pub PgType);

/// Its parts go. It is written out since a derived one is proved again in each crate above.
impl Drop for PgTypeInfo {
    #[cycle(drops)]
    #[inline(always)]
    fn drop(self) {
        let PgTypeInfo(_) = self;
    }
}

impl Model for PgTypeInfo {
    ghost use Rattle.pgv_types.specs.Ty.{Ty, ty_code};
    ghost use Rattle.pgv_types.specs.Facts.{type_size};

    ghost Value = { Ty };

    ghost coded = { ty_code };

    ghost use Rattle.pgv_types.specs.Shown.{type_view};

    ghost view = { type_view };

    ghost size = { type_size };

    ghost use Rattle.pgv_types.specs.Falls.{type_falls};

    ghost size_decreases = { λ a h. type_falls a.0 };
}

/// A built-in type, a custom one, or one that is declared. Each built-in one is a constant, as `PgType::Int4`.
#[derive(Drop)]
#[cycle(types)]
pub enum PgType {
    /// A type that the server has from its start.
    BuiltIn(PgBuiltIn),
    /// A type that the server described. Its copies share it.
    Custom(Rc<PgCustomType>),
    /// A type of which only the name is known.
    DeclareWithName(StaticText),
    /// A type of which only the OID is known.
    DeclareWithOid(Oid),
    /// An array of which only the element's name is known.
    DeclareArrayOf(PgArrayOf),
}

impl PgType {
    /// The OID: a built-in type's, a custom type's own, or the declared one. `None` where only a name
    /// is known.
    #[inline(always)]
    pub fn oid(&self) -> Option<Oid>
        ensures { option_map (λ o. o.0) result ≡ oid_of (type_of self.now) }
    {
        match self {
            PgType::BuiltIn(known) => Some(known.row().oid),
            PgType::Custom(custom) => Some(custom.oid),
            PgType::DeclareWithOid(oid) => Some(*oid),
            PgType::DeclareWithName(_) | PgType::DeclareArrayOf(_) => None,
        }
    }

    /// The OID of a built-in type. `None` for a custom type, and for one that is only declared.
    #[inline(always)]
    pub fn built_in_oid(&self) -> Option<Oid>
        ensures { option_map (λ o. o.0) result ≡ built_in_oid (type_of self.now) }
    {
        match self {
            PgType::BuiltIn(known) => Some(known.row().oid),
            _ => None,
        }
    }

    /// The built-in type with this OID. `None` where no built-in type has it.
    pub fn try_from_oid(oid: Oid) -> Option<PgType>
        ensures { option_map type_of result ≡ built_in oid.0 }
    {
        Some(PgType::BuiltIn(PgBuiltIn::try_from_oid(oid)?))
    }

    /// The element of an array: a built-in array's or a custom one's, the name after the `_` of a
    /// declared name, or the name that an array was declared by. It takes no memory.
    pub fn array_element(&self) -> Option<PgTypeRef<'_>>
        ensures element { option_map ref_type result ≡ element_of (type_of self.now) }
        ensures held { IfSome result IsHeld }
    {
        match self {
            PgType::Custom(custom) => match &custom.kind {
                PgTypeKind::Array(info) => Some(PgTypeRef::Borrowed(info)),
                _ => None,
            },
            _ => Some(PgTypeRef::Owned(self.made_element()?)),
        }
    }

    /// The element of a type that is not custom, which is made here.
    pub(crate) fn made_element(&self) -> Option<PgTypeInfo>
        ensures element { is_custom (type_of self.now) ≡ false
            → result ≡ element_of (type_of self.now) }
        ensures made { IfSome result IsNotCustom }
    {
        match self {
            PgType::BuiltIn(known) => Some(PgTypeInfo(PgType::BuiltIn(known.element()?))),
            PgType::DeclareWithName(name) => {
                Some(PgTypeInfo::with_name(element_name(name.as_str())?))
            }
            PgType::DeclareArrayOf(of) => Some(PgTypeInfo::with_name(of.elem_name())),
            PgType::DeclareWithOid(_) | PgType::Custom(_) => None,
        }
    }

    /// The kind. `None` for a type that is only declared, of which nothing else is known.
    pub fn kind(&self) -> Option<PgTypeKindRef<'_>>
        ensures { option_map kind_lent result ≡ kind_at (type_of self.now) }
    {
        match self {
            PgType::BuiltIn(known) => Some(known.kind()),
            PgType::Custom(custom) => Some(custom.kind()),
            PgType::DeclareWithOid(_) | PgType::DeclareWithName(_) | PgType::DeclareArrayOf(_) =>
                None,
        }
    }

    /// The catalogue name: a custom type's or a declared one's own, and `?` where only an OID is known.
    pub fn name(&self) -> PgTypeName<'_>
        ensures { whole_name result ≡ name_of (type_of self.now) }
    {
        PgTypeName::new(self.name_text(), self.is_array_of())
    }

    /// The name that is shown.
    pub fn display_name(&self) -> PgTypeName<'_>
        ensures { whole_name result ≡ display_of (type_of self.now) }
    {
        PgTypeName::new(self.display_text(), self.shows_brackets())
    }

    /// The catalogue name before its suffix.
    fn name_text(&self) -> &str
        ensures { result.now ≡ name_text_of (type_of self.now) }
    {
        match self {
            PgType::BuiltIn(known) => known.row().name,
            PgType::Custom(custom) => custom.name.as_str(),
            PgType::DeclareWithName(name) => name.as_str(),
            PgType::DeclareWithOid(_) => "?",
            PgType::DeclareArrayOf(of) => of.elem_name(),
        }
    }

    /// The display name before its suffix.
    fn display_text(&self) -> &str
        ensures { result.now ≡ display_text_of (type_of self.now) }
    {
        match self {
            PgType::BuiltIn(known) => known.row().display,
            _ => self.name_text(),
        }
    }

    /// Whether `[]` comes after the name that is shown.
    fn shows_brackets(&self) -> bool
        ensures { result ≡ shows_brackets (type_of self.now) }
    {
        match self {
            PgType::BuiltIn(known) => known.element().is_some(),
            _ => self.is_array_of(),
        }
    }

    /// Whether it was declared by its element's name.
    fn is_array_of(&self) -> bool
        ensures { result ≡ has_brackets (type_of self.now) }
    {
        matches!(self, PgType::DeclareArrayOf(_))
    }

    /// Whether it was declared by its OID.
    #[inline(always)]
    pub(crate) fn is_by_oid(&self) -> bool
        ensures { result ≡ is_by_oid (type_of self.now) }
    {
        matches!(self, PgType::DeclareWithOid(_))
    }
}

/// Whether both OIDs are there and are one.
#[inline(always)]
fn are_one(oid: Option<Oid>, other: Option<Oid>) -> bool
    ensures { result ≡ same_oid (option_map (λ o. o.0) oid) (option_map (λ o. o.0) other) }
{
    match (oid, other) {
        (Some(oid), Some(other)) => oid == other,
        _ => false,
    }
}

/// What comes after the `_` of a declared name.
fn element_name(name: &'static str) -> Option<&'static str>
    ensures { option_map (λ n. n.now) result ≡ name_element name.now }
{
    name.strip_prefix('_')
}

/// A copy is the same type, and shares a custom type. It takes no memory, and can fail only at a
/// custom type with too many copies.
impl Clone for PgType {
    ghost use Rattle.std.specs.Prelude.{◌≡◌};
    ghost use Rattle.pgv_types.specs.Shown.{type_of};

    ghost is_clone = { λ t copy. type_of copy ≡ type_of t };

    ghost use Rattle.pgv_types.specs.Facts.{IsNotCustom};

    ghost is_infallible = { λ t. IsNotCustom (type_of t) };

    #[inline(always)]
    fn clone(&self) -> Result<PgType, AllocError> {
        let copy = match self {
            PgType::BuiltIn(known) => PgType::BuiltIn(*known),
            PgType::Custom(custom) => PgType::Custom(custom.clone()?),
            PgType::DeclareWithOid(oid) => PgType::DeclareWithOid(*oid),
            PgType::DeclareWithName(name) => PgType::DeclareWithName(name.clone()?),
            PgType::DeclareArrayOf(of) => PgType::DeclareArrayOf(of.clone()?),
        };
        Ok(copy)
    }
}

/// A copy is the same type, and shares a custom type. It takes no memory, and can fail only at a
/// custom type with too many copies.
impl Clone for PgTypeInfo {
    ghost use Rattle.std.specs.Prelude.{◌≡◌};

    ghost is_clone = { λ t copy. copy ≡ t };

    ghost use Rattle.pgv_types.specs.Facts.{IsNotCustom};

    ghost is_infallible = { IsNotCustom };

    #[inline(always)]
    fn clone(&self) -> Result<PgTypeInfo, AllocError> {
        Ok(PgTypeInfo(self.0.clone()?))
    }
}

impl PgTypeInfo {
    /// A type that is declared by its name, which may be that of an array with a `_` in front. It takes no memory.
    pub fn with_name(name: &'static str) -> PgTypeInfo
        ensures { result ≡ named name.now }
    {
        PgTypeInfo(PgType::DeclareWithName(StaticText::new(name)))
    }

    /// An array that is declared by its element's name. It takes no memory.
    /// `array_of("mood")` is named `mood[]`.
    pub fn array_of(elem_name: &'static str) -> PgTypeInfo
        ensures { result ≡ array_of elem_name.now }
    {
        PgTypeInfo(PgType::DeclareArrayOf(PgArrayOf::new(elem_name)))
    }

    /// A type that is declared by its OID, of which nothing else is known.
    pub fn with_oid(oid: Oid) -> PgTypeInfo
        ensures { result ≡ by_oid oid.0 }
    {
        PgTypeInfo(PgType::DeclareWithOid(oid))
    }

    /// The built-in type with this OID. `None` where no built-in type has it.
    pub fn try_from_oid(oid: Oid) -> Option<PgTypeInfo>
        ensures { result ≡ built_in oid.0 }
    {
        Some(PgTypeInfo(PgType::try_from_oid(oid)?))
    }

    /// A type that the server described, by its own OID, its name and its kind. An error means that there was no
    /// memory; then `kind` is dropped.
    pub fn custom(
        alloc: Global,
        oid: Oid,
        name: &str,
        kind: PgTypeKind,
    ) -> Result<PgTypeInfo, AllocError>
        ensures { IfOk result (λ t. t ≡ custom oid.0 name.now (kind_of kind)) }
    {
        let name = RcStr::from_str(alloc, name)?;
        let custom = Rc::new(alloc, PgCustomType { oid, name, kind })?;
        Ok(PgTypeInfo(PgType::Custom(custom)))
    }

    /// The OID. `None` where only a name is known.
    #[inline(always)]
    pub fn oid(&self) -> Option<Oid>
        ensures { option_map (λ o. o.0) result ≡ oid_of self.now }
    {
        self.0.oid()
    }

    /// Whether the type is known to have this OID.
    pub fn has_oid(&self, oid: Oid) -> bool
        ensures { result ≡ has_oid oid.0 self.now }
    {
        match self.oid() {
            Some(known) => known == oid,
            None => false,
        }
    }

    /// Whether the two are one built-in type; for a custom type, and one that is only declared, it is `false`. It takes
    /// no memory.
    #[inline(always)]
    pub fn is_same_built_in(&self, other: &PgTypeInfo) -> bool
        ensures exact { result ≡ same_built_in self.now other.now }
        ensures same { result ≡ true → self.now ≡ other.now }
    {
        are_one(self.0.built_in_oid(), other.0.built_in_oid())
    }

    /// The kind. `None` for a type that is only declared.
    pub fn kind(&self) -> Option<PgTypeKindRef<'_>>
        ensures { option_map kind_lent result ≡ kind_at self.now }
    {
        self.0.kind()
    }

    /// The element of an array. `None` where the type is not known to be one.
    pub fn array_element(&self) -> Option<PgTypeRef<'_>>
        ensures { option_map ref_type result ≡ element_of self.now }
    {
        self.0.array_element()
    }

    /// The type that a domain is over.
    fn domain_base(&self) -> Option<&PgTypeInfo>
        ensures { option_map (λ t. t.now) result ≡ domain_base self.now }
    {
        match &self.0 {
            PgType::Custom(custom) => match &custom.kind {
                PgTypeKind::Domain(base) => Some(base),
                _ => None,
            },
            _ => None,
        }
    }

    /// The type under all domains: for a domain over a domain over `int4` it is `int4`, and for a type that is not a
    /// domain the type itself. It takes no memory, and no more of the stack for more domains.
    pub fn under_domains(&self) -> &PgTypeInfo
        ensures under { result.now ≡ under_domains self.now }
        ensures last { domain_base result.now ≡ None }
    {
        let mut found = self;
        while let Some(base) = found.domain_base() {
            found = base;
        }
        found
    }

    /// The name that is shown: in upper case for a built-in type, with `[]` after an array.
    pub fn name(&self) -> PgTypeName<'_>
        ensures { whole_name result ≡ display_of self.now }
    {
        self.0.display_name()
    }

    /// Whether it is the pseudo-type `void`.
    pub fn is_void(&self) -> bool
        ensures { result ≡ is_void self.now }
    {
        matches!(self.0, PgType::BuiltIn(PgBuiltIn::Void))
    }

    /// Whether it is the type of null: never, since PostgreSQL has none.
    pub fn is_null(&self) -> bool
        ensures { result ≡ false }
    {
        false
    }
}

/// Prints the display name, with width, fill, alignment and precision as [`Formatter::pad`] applies them. The contract
/// says so for all types but those that are shown with `[]` after a name.
impl Display for PgTypeInfo {
    ghost use Rattle.std.specs.Prelude.{Some, None, if◌then◌else◌};
    ghost use Rattle.std.specs.Fmt.{styled_text};
    ghost use Rattle.pgv_types.specs.Facts.{display_of, shows_brackets};

    ghost output = { λ t. Some (display_of t) };

    ghost styled_output = { λ t spec. if shows_brackets t then None else Some (styled_text spec (display_of t)) };

    #[tactic(auto, using(crate::proofs::Printing::shown_alone))]
    fn fmt<W: fmt::Write>(&self, f: &mut Formatter<W>) -> fmt::Result {
        if !self.0.shows_brackets() {
            return f.pad(self.0.display_text());
        }
        let name = self.name();
        if f.width().is_none() && f.precision().is_none() {
            return name.fmt(f);
        }
        name.pad(f)
    }
}
