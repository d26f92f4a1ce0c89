//! The types of a server, by OID and by name.

ghost use Rattle.std.specs.Prelude.{◌≡◌, ◌==◌, length, option_map};
ghost use Rattle.pgv_catalog.specs.Entries.{has_name, is_array_of, is_named, with_element, with_name, type_with_oid};

use pgv_row::PgCatalog;
use pgv_types::{Oid, PgType, PgTypeInfo, PgTypeKindRef, name_eq};
use std::marker::Model;

/// A type of a server.
#[derive(Drop)]
pub(crate) struct PgServerType {
    pub(crate) full_name: String,
    pub(crate) is_visible: bool,
    pub(crate) type_info: PgTypeInfo,
}

impl Model for PgServerType {
    ghost use Rattle.std.specs.Prelude.{string_bytes};
    ghost use Rattle.pgv_catalog.specs.Entries.{Entry, entry_code};

    ghost Value = { Entry };

    ghost coded = { entry_code };

    ghost view = { λ t. record { full_name = string_bytes t.full_name; is_visible = t.is_visible; ty = t.type_info } };
}

/// The types of a server that are not built in, parts before the types that are made of them.
#[derive(Drop)]
pub struct PgServerTypes {
    pub(crate) list: Vec<PgServerType>,
}

impl Model for PgServerTypes {
    ghost use Rattle.std.specs.Prelude.{List};
    ghost use Rattle.std.specs.Coded.{coded_list};
    ghost use Rattle.pgv_catalog.specs.Entries.{Entry, entry_code};

    ghost Value = { List Entry };

    ghost coded = { coded_list entry_code };

    ghost view = { λ t. t.list.items };
}

/// Whether a name is that of a type that the server described.
fn is_called(type_info: &PgTypeInfo, name: &str) -> bool
    ensures { result ≡ has_name name.now type_info.now }
{
    match &type_info.0 {
        PgType::Custom(custom) => name_eq(custom.name(), name),
        _ => false,
    }
}

impl PgServerType {
    /// Whether a name is this type's: with its schema and a dot before it, or alone where that finds it.
    fn is_named(&self, name: &str) -> bool
        ensures { result ≡ is_named name.now self.now }
    {
        self.full_name.as_str() == name || (self.is_visible && is_called(&self.type_info, name))
    }

    /// Whether it is an array whose element has this OID.
    fn is_array_of(&self, oid: Oid) -> bool
        ensures { result ≡ is_array_of oid.0 self.now.ty }
    {
        match &self.type_info.0 {
            PgType::Custom(custom) => match custom.kind() {
                PgTypeKindRef::Array(element) => element.as_ref().has_oid(oid),
                _ => false,
            },
            _ => false,
        }
    }
}

impl PgServerTypes {
    /// How many types there are.
    pub fn len(&self) -> usize
        ensures { result ≡ length self.now }
    {
        self.list.len()
    }

    /// Whether there is no type.
    pub fn is_empty(&self) -> bool
        ensures { result ≡ (length self.now == 0) }
    {
        self.list.is_empty()
    }

    /// The first type of this name: with its schema and a dot before it, as `public.mood`, or alone, as `mood`, where
    /// its schema is on the server's search path. Names alone are compared as [`name_eq`] does.
    pub fn find(&self, name: &str) -> Option<&PgTypeInfo>
        ensures { option_map (λ t. t.now) result ≡ with_name name.now self.now }
    {
        for entry in self.list.as_slice() {
            if entry.is_named(name) {
                return Some(&entry.type_info);
            }
        }
        None
    }

    /// The first array whose element has this OID.
    pub fn array_of(&self, element: Oid) -> Option<&PgTypeInfo>
        ensures { option_map (λ t. t.now) result ≡ with_element element.0 self.now }
    {
        for entry in self.list.as_slice() {
            if entry.is_array_of(element) {
                return Some(&entry.type_info);
            }
        }
        None
    }
}

/// The first type that has the OID.
impl PgCatalog for PgServerTypes {
    ghost known = { λ types oid. type_with_oid oid types };

    fn type_of(&self, oid: Oid) -> Option<&PgTypeInfo> {
        for entry in self.list.as_slice() {
            if entry.type_info.has_oid(oid) {
                return Some(&entry.type_info);
            }
        }
        None
    }
}
