//! Why a message was not written.

ghost use Rattle.std.specs.Prelude.{◌≡◌};
ghost use Rattle.pgv_message.specs.declared.error.MessageError.TheVariants.{Memory};

use std::alloc::{AllocError, AllocFailed};
use thiserror::Error;

/// Why a message was not written.
#[derive(Debug, Drop, Error)]
pub enum MessageError {
    /// A request for memory was refused.
    #[error("out of memory")]
    Memory,
    /// A text has a zero byte, which would end it.
    #[error("a text with a zero byte")]
    ZeroByte,
    /// More than 65535 of what is counted in two bytes: parameters, types or formats.
    #[error("{0} are more than 65535")]
    TooMany(usize),
    /// The length of the message does not fit its four bytes.
    #[error("a message of more than 2147483647 bytes")]
    TooLong,
    /// A server sent a length that no message has.
    #[error("a message of the length {0}")]
    BadLength(u32),
}

impl From<AllocError> for MessageError {
    ghost from_gives = { λ _ e. e ≡ Memory };

    fn from(_error: AllocError) -> MessageError {
        MessageError::Memory
    }
}

impl<T: Drop> From<AllocFailed<T>> for MessageError {
    ghost from_gives = { λ _ e. e ≡ Memory };

    fn from(_error: AllocFailed<T>) -> MessageError {
        MessageError::Memory
    }
}
