//! The codecs of values: what a value is written as and what is read from bytes, for std's types, for `Uuid`, and for
//! what is made of them. A value's [`Type`] names its type, [`Encode`] writes it into a [`PgArgumentBuffer`],
//! [`Decode`] reads it, and [`ReadBack`] says what a written value is read back as. The module [`laws`] has what is
//! proved of all of them.
//!
//! A caller's record is written by [`encode_record`], as a list of references to its fields, or field by field by a
//! [`PgRecordEncoder`], each by reference: `record.encode(&self.id)?` also where the field could be copied, since by
//! value its range is lost to the proof. The crate `pgv_examples` has such records and other types of users, with their
//! proofs. A type that a buffer holds, at any depth, holds no reference.
#![tactic(auto)]

pub mod buffer;
pub mod laws;
pub mod nest;
pub mod traits;
pub mod types;

pub use buffer::{IsNull, PgArgumentBuffer};
pub use traits::{Codec, Decode, Encode, PgHasArrayType, Plain, ReadBack, Type};
pub use types::array::{encode_array, type_of_value};
pub use types::date_time::micros_of_day;
pub use types::field_list::{CodecList, FieldList, KeptList, WrittenList, encode_record};
pub use types::record::{PgRecordDecoder, PgRecordEncoder};
pub use types::text::encode_text;
