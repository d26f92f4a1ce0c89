//! Where the value of a parameter or of a row's echo comes from.

use pgv::row::PgRow;
use pgv::{CodecError, Decode, PgTypeInfo, PgValueFormat, PgValueRef, Type};
use std::alloc::Global;

/// Where a value comes from.
#[derive(Drop)]
pub enum Source<'a> {
    /// A text, or bytes in binary.
    Part(&'a [u8], PgValueFormat),
    /// A column of a row, by its place.
    Column(&'a PgRow<'a>, usize),
}

/// A value that is not read yet.
#[derive(Drop)]
pub struct Given<'a> {
    /// The value's type.
    pub type_info: &'a PgTypeInfo,
    /// Whether that is an array's.
    pub is_array: bool,
    /// Where it comes from.
    pub source: Source<'a>,
}

impl Given<'_> {
    /// The value, as `T` reads it.
    pub fn value<T: Decode + Type>(&self, alloc: Global) -> Result<Option<T>, CodecError> {
        match &self.source {
            Source::Part(bytes, format) => {
                let type_info = self.type_info.clone()?;
                let value = T::decode(alloc, PgValueRef::new(Some(*bytes), type_info, *format))?;
                Ok(Some(value))
            }
            Source::Column(row, place) => Ok(row.try_get::<Option<T>, _>(alloc, *place)?),
        }
    }
}
