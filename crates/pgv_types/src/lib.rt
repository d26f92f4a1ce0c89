//! PostgreSQL's types: OIDs, names, kinds, elements, and when two types are compatible.
#![tactic(auto)]

mod builtin;
mod characters;
mod custom;
mod kind;
mod lasting;
pub mod laws;
mod name;
mod oid;
mod relation;
mod static_text;
mod type_info;

pub use builtin::PgBuiltIn;
pub use custom::{PgArrayOf, PgCustomType};
pub use kind::{PgTypeKind, PgTypeKindRef, PgTypeRef};
pub use name::{IdentifierChar, IdentifierChars, PgTypeName, identifier_chars, name_eq};
pub use oid::Oid;
pub use static_text::StaticText;
pub use type_info::{PgType, PgTypeInfo};
