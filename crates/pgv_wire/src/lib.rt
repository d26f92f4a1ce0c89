//! Writing values in PostgreSQL's binary protocol, and reading those that come.
//!
//! [`PgArguments`] collects the parameters of a statement. Each is a frame: a length of four bytes and that many bytes,
//! or the length -1 for null. What a value is written as is its *image*, which its [`Encode`](pgv_codec::Encode)
//! states: null, or tokens, that is bytes, *holes* for the OIDs of types of which only the names are known, and
//! *slots*, whose bytes depend on the type of the parameter. [`PgArguments::apply_patches`] fills these once a server
//! has reported the types and OIDs, as often as it is called, and the bytes are then those that would have been written
//! with them at once: the module [`laws`] says so of every list of additions, refused ones and fillings.
//!
//! The codecs are those of the crate `pgv_codec`; its documentation says how a caller writes one of its own.
#![tactic(auto)]

pub mod arguments;
pub mod laws;

pub use arguments::PgArguments;
