//! Values as a server sends them: value references, the refusals of the codec and the plain readers.
#![tactic(auto)]

pub mod error;
mod frame;
mod front;
pub mod interval;
pub mod laws;
pub mod read;
pub mod tree_error;
pub mod value;

pub use error::CodecError;
pub use frame::{MAX_LENGTH, NULL_LENGTH, length_bytes, part_in_front, part_of_length};
pub use front::{
    i16_in_front, name_in_front, number_of_eight, number_of_four, u16_in_front, u32_in_front,
};
pub use interval::PgInterval;
pub use read::{
    FIRST_DAY, FIRST_NANOSECOND, date_of_bytes, read_bool, read_date, read_date_time, read_i8,
    read_i16, read_i32, read_i64, read_instant, read_interval, read_ip_address, read_ip_network,
    read_oid, read_time, read_uuid, time_at,
};
pub use tree_error::{PgLQueryParseError, PgLTreeParseError};
pub use value::{PgValue, PgValueFormat, PgValueRef};
