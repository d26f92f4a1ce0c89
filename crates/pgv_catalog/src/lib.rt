//! The types of a server that are not built in, as its catalogue has them: read from rows of `pg_type`, `pg_attribute`
//! and `pg_enum`, found by OID and by name, and put into the holes of arguments.
//!
//! Send [`TYPES`], [`FIELDS`] and [`LABELS`], push what each row of their results reads as to a [`PgCatalogRows`], and
//! make [`PgServerTypes`] of it. They serve [`PgColumns::read`](pgv_row::PgColumns::read) as the catalogue by OID, and
//! [`fill`] by name.
#![tactic(auto)]

pub mod error;
pub mod filling;
pub mod names;
pub mod resolve;
pub mod rows;
pub mod server_types;
pub mod sql;

pub use error::CatalogError;
pub use filling::fill;
pub use names::PgNames;
pub use pgv_row::PgCatalog;
pub use rows::{PgCatalogRows, PgFieldRow, PgLabelRow, PgTypeClass, PgTypeRow};
pub use server_types::PgServerTypes;
pub use sql::{FIELDS, LABELS, TYPES};
