//! Readers of the plain types. Each takes a value of a row and returns what its bytes mean in the value's format; null
//! is refused with [`UnexpectedNull`](CodecError::UnexpectedNull) (C13), and a text that is not UTF-8 with
//! [`Utf8`](CodecError::Utf8) (C14). No reader takes memory.

mod bool;
mod date_time;
mod int;
mod interval;
mod network;
mod oid;
mod uuids;

pub use bool::read_bool;
pub use date_time::{
    FIRST_DAY, FIRST_NANOSECOND, date_of_bytes, read_date, read_date_time, read_instant, read_time,
    time_at,
};
pub use int::{read_i8, read_i16, read_i32, read_i64};
pub use interval::read_interval;
pub use network::{read_ip_address, read_ip_network};
pub use oid::read_oid;
pub use uuids::read_uuid;
