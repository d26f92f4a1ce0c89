//! User-defined types of PostgreSQL by little code: an enum by its labels, a composite by its fields, a newtype or a
//! domain by what it holds, a plain type by how its bytes are written and read, and a record of any fields. Each but
//! the last is a wrapper over a trait that a caller's type states once; `Type`, `PgHasArrayType`, `Encode`, `Decode`,
//! `ReadBack` and `Codec` follow.
#![tactic(auto)]

pub mod composite;
pub mod domain;
pub mod labelled;
pub mod laws;
pub mod newtype;
pub mod plain;
pub mod record;

pub use composite::{Composite, PgComposite};
pub use domain::{Domain, PgDomain};
pub use labelled::{Labelled, PgEnum};
pub use newtype::{Newtype, PgNewtype};
pub use plain::{PgPlain, PlainCodec, PlainRange};
pub use record::PgRecord;
