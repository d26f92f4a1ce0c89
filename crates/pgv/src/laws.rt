//! The laws of the library: first those of the types of values, then those of each crate. Each law is the contract of a
//! function that does nothing.

pub mod date_time;
pub mod interval;
pub mod network;
pub mod rows;
pub mod texts;

pub use pgv_codec::laws as codec;
pub use pgv_codec::nest::laws as nest;
pub use pgv_copy::laws as copy;
pub use pgv_ltree::{laws as ltree, query_laws as lquery};
pub use pgv_message::laws as message;
pub use pgv_more::{hstore_laws as hstore, laws as more, numeric_laws as numeric};
pub use pgv_range::laws as range;
pub use pgv_row::laws as row;
pub use pgv_scalar_text::laws as scalar_text;
pub use pgv_text::laws as text;
pub use pgv_types::laws as types;
pub use pgv_user_types::laws as user_types;
pub use pgv_value::laws as value;
pub use pgv_wire::laws as wire;
