//! Examples for callers who bind parameters, read rows or define their own codecs: each a file, short and proved.
//! `pgv_tests` has a short test of each that does something by itself, and `pgv_calls` rows of the types.
//!
//! 1. [`bind`] adds the values of a statement, [`holes`] fills their holes, and then the bytes are sent.
//! 2. [`row`] reads a row column by column, nulls too, and keeps a value after the row is gone.
//! 3. [`arrays`] writes and reads arrays, also with nulls in them.
//! 4. [`user_id`] is a newtype over a number.
//! 5. [`mood`] is an enum by its labels, of a type that is known by its name.
//! 6. [`email`] is a domain.
//! 7. [`page`] is a composite type, and [`household`] one with an array in it.
//! 8. [`slot`] appends bytes that depend on the parameter's type.
//! 9. [`percent`] is a codec that refuses what it writes and reads.
//! 10. [`read_back`] says that what was sent comes back, and proves it by the laws.
//! 11. [`copied`] reads the stream of a COPY in binary, row by row.
//! 12. [`statement`] describes a statement, binds its arguments, and reads its rows by their columns.
//! 13. [`server_types`] makes a server's own types of the rows of its catalogue, fills holes and describes columns by
//!     them.
//! 14. [`errors`] turns a refusal into an error of one's own, by column and number.
//! 15. [`in_list`] has as many parameters as there are keys.
//! 16. [`float8`] is a type that the library doesn't have, by its bytes, and [`float_range`] is a range over it.
//! 17. [`json`] has the documents of `json` and `jsonb`.
//! 18. [`shipment`] is a composite with a composite in it, and a field that may be null.
//!
//! All of them name the crate `pgv` alone, in code and in contracts, whose words are those of `Rattle.pgv.specs.Words`:
//! that file says what each is.
#![tactic(auto)]

pub mod arrays;
pub mod bind;
pub mod copied;
pub mod email;
pub mod errors;
pub mod float8;
pub mod float_range;
pub mod holes;
pub mod household;
pub mod in_list;
pub mod json;
pub mod mood;
pub mod page;
pub mod percent;
pub mod read_back;
pub mod row;
pub mod server_types;
pub mod shipment;
pub mod slot;
pub mod statement;
pub mod user_id;
