//! Readers of the texts that PostgreSQL writes for values that are not made of others: whole numbers, the type "char",
//! truth values, dates, times and networks. They know no types and no wire format, and each returns a value exactly
//! where the text is in its grammar.
#![tactic(auto)]

pub mod bool;
pub mod date_times;
mod field;
pub mod int;
pub mod laws;
pub mod network;
mod offset;

pub use bool::bool_of;
pub use date_times::{date, date_time, instant, time, time_tz};
pub use int::{NumberFault, char_of, number_of, unsigned_number_of};
pub use network::{IpNetwork, Ipv4Network, Ipv6Network};
