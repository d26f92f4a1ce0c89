//! Why a value was refused.

ghost use Rattle.std.specs.Prelude.{◌≡◌};
ghost use Rattle.pgv_value.specs.declared.error.CodecError.TheVariants.{Memory, OutOfRange};
ghost use Rattle.pgv_value.specs.Codes.{code_of};
ghost use Rattle.pgv_value.specs.IntBinary.{refusal_of};
ghost use Rattle.pgv_value.specs.TreeErrors.{tree_refused, query_refused};

use crate::tree_error::{PgLQueryParseError, PgLTreeParseError};
use pgv_scalar_text::NumberFault;
use pgv_types::Oid;
use std::alloc::{AllocError, AllocFailed};
use thiserror::Error;

/// Why a value could not be written or read. The number of each refusal, which [`CodecError::code`] gives, is
/// part of the product; the wording of its text is not.
#[derive(Debug, Drop, Error)]
pub enum CodecError {
    /// C1: a request for memory was refused.
    #[error("out of memory")]
    Memory,
    /// C2: a size, a size hint or a number of bits is above 2147483647.
    #[error("a size of {0} is above 2147483647")]
    ValueSize(usize),
    /// C3: an array to be written has more than 2147483647 elements.
    #[error("{0} array elements are more than 2147483647")]
    ArrayLength(usize),
    /// C4: a duration is not whole microseconds.
    #[error("a duration that is not whole microseconds")]
    IntervalPrecision,
    /// C5: the microseconds of a duration do not fit 64 bits.
    #[error("a duration whose microseconds do not fit 64 bits")]
    IntervalOverflow,
    /// C6: the offset of a time of day, in seconds, is a day or more.
    #[error("a time zone offset of {0} seconds")]
    OffsetRange(i32),
    /// C7: a number to be written has more than 32767 digits.
    #[error("{0} digits are more than 32767")]
    NumericDigits(usize),
    /// C8: a digit to be written is not from 0 to 9999.
    #[error("the digit {0} is not from 0 to 9999")]
    NumericDigit(i16),
    /// C9: an hstore can't have this number of pairs, or this length of a key or a value.
    #[error("an hstore length of {0}")]
    HstoreLength(i64),
    /// C10: there is not exactly one parameter type for each argument.
    #[error("not one parameter type for each argument")]
    ParameterCount,
    /// C11: there is not exactly one OID for each hole.
    #[error("not one OID for each hole")]
    HoleCount,
    /// C12: more fields than a record can have, or a row of another width.
    #[error("a wrong number of fields")]
    FieldCount,
    /// C13: null was given to a type that does not read it.
    #[error("unexpected null")]
    UnexpectedNull,
    /// C14: a text is not UTF-8.
    #[error("a text that is not UTF-8")]
    Utf8,
    /// C15: the bytes end too early.
    #[error("the bytes end too early")]
    Short,
    /// C16: a negative length or count.
    #[error("a negative length or count: {0}")]
    NegativeLength(i32),
    /// C17: bytes of a length that the type does not have.
    #[error("{0} bytes are a wrong length")]
    WrongLength(usize),
    /// C18: the type is not read from text.
    #[error("the type is not read from text")]
    TextUnsupported,
    /// C19: an array of more than one dimension, or of a negative number.
    #[error("an array of {0} dimensions")]
    Dimensions(i32),
    /// C20: an array whose lower bound is not 1.
    #[error("an array whose lower bound is {0}")]
    LowerBound(i32),
    /// C21: the type of an array's elements can't be found.
    #[error("the element type with the OID {} is not known", .0.0)]
    ElementType(Oid),
    /// C22: an array does not have the number of elements that the Rust type has.
    #[error("an array of {0} elements")]
    ElementCount(usize),
    /// C23: the type is not a range.
    #[error("the type is not a range")]
    NotARange,
    /// C24: the type is neither a record nor a composite nor a domain over one.
    #[error("the type is not a record")]
    NotARecord,
    /// C25: the record has no field at this place.
    #[error("the record has no field at place {0}")]
    NoField(usize),
    /// C26: a field's OID is not that of the composite's field.
    #[error("the OID of a field is not that of the composite type")]
    FieldOid,
    /// C27: the type of a field or column is not compatible with the Rust type.
    #[error("mismatched types")]
    MismatchedTypes,
    /// C28: a field of a record has an OID that is no built-in type's.
    #[error("the field type with the OID {} is not known", .0.0)]
    FieldTypeUnknown(Oid),
    /// C29: a text outside the grammar of its type.
    #[error("a text outside the grammar of its type")]
    Syntax,
    /// C30: a number, a date or a time outside its type.
    #[error("a value outside its type")]
    OutOfRange,
    /// C31: an address family other than 2 and 3.
    #[error("the address family {0}")]
    InetFamily(u8),
    /// C32: a prefix above 32 or 128.
    #[error("the address prefix {0}")]
    InetPrefix(u8),
    /// C33: an address from a prefix that is not full.
    #[error("an address whose prefix is not full")]
    LossyAddress,
    /// C34: an invalid sign of a number.
    #[error("the sign {0} of a number")]
    NumericSign(u16),
    /// C35: an hstore key is null.
    #[error("an hstore key is null")]
    HstoreNullKey,
    /// C36: not a valid label tree.
    #[error("not a label tree: {0}")]
    LTree(PgLTreeParseError),
    /// C37: not a valid query of label trees.
    #[error("not a query of label trees: {0}")]
    LQuery(PgLQueryParseError),
    /// C38: refused by a caller's own codec.
    #[error("refused by the caller: {0}")]
    Caller(u32),
}

impl CodecError {
    /// The public number of a refusal: for Cn it is n. `CodecError::UnexpectedNull` is 13.
    pub fn code(&self) -> u8
        ensures { result ≡ code_of self.now }
    {
        match self {
            CodecError::Memory => 1,
            CodecError::ValueSize(_) => 2,
            CodecError::ArrayLength(_) => 3,
            CodecError::IntervalPrecision => 4,
            CodecError::IntervalOverflow => 5,
            CodecError::OffsetRange(_) => 6,
            CodecError::NumericDigits(_) => 7,
            CodecError::NumericDigit(_) => 8,
            CodecError::HstoreLength(_) => 9,
            CodecError::ParameterCount => 10,
            CodecError::HoleCount => 11,
            CodecError::FieldCount => 12,
            CodecError::UnexpectedNull => 13,
            CodecError::Utf8 => 14,
            CodecError::Short => 15,
            CodecError::NegativeLength(_) => 16,
            CodecError::WrongLength(_) => 17,
            CodecError::TextUnsupported => 18,
            CodecError::Dimensions(_) => 19,
            CodecError::LowerBound(_) => 20,
            CodecError::ElementType(_) => 21,
            CodecError::ElementCount(_) => 22,
            CodecError::NotARange => 23,
            CodecError::NotARecord => 24,
            CodecError::NoField(_) => 25,
            CodecError::FieldOid => 26,
            CodecError::MismatchedTypes => 27,
            CodecError::FieldTypeUnknown(_) => 28,
            CodecError::Syntax => 29,
            CodecError::OutOfRange => 30,
            CodecError::InetFamily(_) => 31,
            CodecError::InetPrefix(_) => 32,
            CodecError::LossyAddress => 33,
            CodecError::NumericSign(_) => 34,
            CodecError::HstoreNullKey => 35,
            CodecError::LTree(_) => 36,
            CodecError::LQuery(_) => 37,
            CodecError::Caller(_) => 38,
        }
    }
}

impl From<AllocError> for CodecError {
    ghost from_gives = { λ _ e. e ≡ Memory };

    fn from(_error: AllocError) -> CodecError {
        CodecError::Memory
    }
}

impl<T: Drop> From<AllocFailed<T>> for CodecError {
    ghost from_gives = { λ _ e. e ≡ Memory };

    fn from(_error: AllocFailed<T>) -> CodecError {
        CodecError::Memory
    }
}

impl From<NumberFault> for CodecError {
    ghost from_gives = { λ fault e. e ≡ refusal_of fault };

    fn from(fault: NumberFault) -> CodecError {
        match fault {
            NumberFault::Syntax => CodecError::Syntax,
            NumberFault::OutOfRange => CodecError::OutOfRange,
        }
    }
}

impl From<PgLTreeParseError> for CodecError {
    ghost from_gives = { λ e c. c ≡ tree_refused e };

    fn from(error: PgLTreeParseError) -> CodecError {
        match error {
            PgLTreeParseError::Memory => CodecError::Memory,
            other => CodecError::LTree(other),
        }
    }
}

impl From<PgLQueryParseError> for CodecError {
    ghost from_gives = { λ e c. c ≡ query_refused e };

    fn from(error: PgLQueryParseError) -> CodecError {
        match error {
            PgLQueryParseError::Memory => CodecError::Memory,
            other => CodecError::LQuery(other),
        }
    }
}
