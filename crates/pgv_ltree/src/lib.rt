//! Label trees and their queries (PostgreSQL, "ltree"): labels, trees of labels, levels, variants, the texts of all of
//! them, and what trees and queries are written as and read from.
#![tactic(auto)]

pub mod flag;
pub mod label;
pub mod laws;
pub mod level;
pub mod lquery;
pub mod ltree;
pub mod query_laws;
pub mod sink;
pub mod variant;
pub mod version;

pub use flag::PgLQueryVariantFlag;
pub use label::PgLTreeLabel;
pub use level::PgLQueryLevel;
pub use lquery::PgLQuery;
pub use ltree::PgLTree;
pub use sink::Sink;
pub use variant::PgLQueryVariant;
pub use version::text_after_version;
