//! Further value types: lists of bits, strings of bytes, text without case, MAC addresses, times of day with an offset,
//! amounts of money, the digits of numbers, and maps of texts (PostgreSQL's extension `hstore`), with what they are
//! written as and read from.
#![tactic(auto)]

pub mod bit_vec;
pub mod bytea;
pub mod citext;
pub mod hstore;
pub mod hstore_laws;
pub mod laws;
pub mod mac_address;
pub mod money;
pub mod numeric;
pub mod numeric_laws;
pub mod time_tz;

pub use bit_vec::BitVec;
pub use bytea::{PgBytea, PgByteaArray};
pub use citext::PgCiText;
pub use hstore::PgHstore;
pub use mac_address::MacAddress;
pub use money::PgMoney;
pub use numeric::{PgNumeric, PgNumericSign};
pub use time_tz::PgTimeTz;
