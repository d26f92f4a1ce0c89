//! The codecs of values: of std's types and of other crates', and what is made of other types.

pub mod array;
pub mod bool;
pub mod date_time;
pub mod duration;
pub mod field_list;
mod fixed;
pub mod int;
pub mod interval;
pub mod network;
pub mod oid;
pub mod option;
mod part;
pub mod record;
pub mod reference;
pub mod text;
pub mod tuple;
pub mod uuids;
pub mod void;
