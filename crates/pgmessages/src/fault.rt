//! Why the program ends early.

use pgv::CodecError;
use pgv::catalog::CatalogError;
use pgv::message::{MessageError, UnexpectedMessage};
use pgv::row::ColumnError;
use std::alloc::{AllocError, AllocFailed};
use std::fmt;

/// What keeps the program from its answer.
#[derive(Drop)]
pub enum Fault {
    /// A request for memory was refused.
    Memory,
    /// Reading failed.
    Read,
    /// Writing failed.
    Write,
    /// A line has no such form.
    Line,
    /// What was sent or came is not whole messages.
    Cut,
    /// A message came that may not come.
    Unexpected(u8),
    /// A type of the catalogue is a part of itself.
    Cycle,
    /// A value was not read, or not written.
    Codec(CodecError),
    /// A message was not written, or has a bad length.
    Message(MessageError),
}

impl fmt::Display for Fault {
    fn fmt<W: fmt::Write>(&self, f: &mut fmt::Formatter<W>) -> fmt::Result {
        match self {
            Fault::Memory => f.write_str("out of memory"),
            Fault::Read => f.write_str("read failed"),
            Fault::Write => f.write_str("write failed"),
            Fault::Line => f.write_str("a line has no such form"),
            Fault::Cut => f.write_str("a message is cut off"),
            Fault::Unexpected(tag) => write!(f, "an unexpected message {tag}"),
            Fault::Cycle => f.write_str("a type is a part of itself"),
            Fault::Codec(error) => write!(f, "C{}: {error}", error.code()),
            Fault::Message(error) => write!(f, "{error}"),
        }
    }
}

impl From<AllocError> for Fault {
    fn from(_: AllocError) -> Fault {
        Fault::Memory
    }
}

impl<T: Drop> From<AllocFailed<T>> for Fault {
    fn from(_: AllocFailed<T>) -> Fault {
        Fault::Memory
    }
}

impl From<CodecError> for Fault {
    fn from(error: CodecError) -> Fault {
        Fault::Codec(error)
    }
}

impl From<ColumnError<usize>> for Fault {
    fn from(error: ColumnError<usize>) -> Fault {
        match error {
            ColumnError::NotFound { index: _, place } => Fault::Codec(CodecError::NoField(place)),
            ColumnError::Decode {
                index: _,
                place: _,
                source,
            } => Fault::Codec(source),
        }
    }
}

impl From<CatalogError> for Fault {
    fn from(error: CatalogError) -> Fault {
        match error {
            CatalogError::Memory => Fault::Memory,
            CatalogError::Codec(error) => Fault::Codec(error),
            _ => Fault::Cycle,
        }
    }
}

impl From<MessageError> for Fault {
    fn from(error: MessageError) -> Fault {
        Fault::Message(error)
    }
}

impl From<UnexpectedMessage> for Fault {
    fn from(error: UnexpectedMessage) -> Fault {
        Fault::Unexpected(error.0)
    }
}
