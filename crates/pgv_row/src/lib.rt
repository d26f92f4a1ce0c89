//! Rows of a statement's result, as a server sends them: the columns that a RowDescription describes, and the values of
//! each DataRow.
#![tactic(auto)]

pub mod catalog;
pub mod column;
pub mod copy;
pub mod error;
pub mod index;
pub mod laws;
mod place;
mod reader;
pub mod row;
pub mod tuple;

pub use catalog::PgCatalog;
pub use column::{PgColumn, PgColumns};
pub use copy::PgCopyRows;
pub use error::ColumnError;
pub use index::ColumnIndex;
pub use row::{PgFoundRow, PgOwnedRow, PgPlaces, PgRow};
pub use tuple::{ColumnList, ColumnTuple, FromRow};
