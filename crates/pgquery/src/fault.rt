//! Why the program ends early.

use pgv::CodecError;
use pgv::catalog::CatalogError;
use pgv::message::{MessageError, UnexpectedMessage};
use pgv::row::ColumnError;
use std::alloc::{AllocError, AllocFailed};
use std::fmt;

/// Why the program ends early.
#[derive(Drop)]
pub enum Fault {
    /// A request for memory was refused.
    Memory,
    /// Reading failed.
    Read,
    /// Writing failed.
    Write,
    /// What the server sends ends too early.
    End,
    /// The program does not know these arguments.
    Usage,
    /// The server asks for a password, or for another proof of who the user is: the code of its message.
    Authentication(u32),
    /// The server's own words.
    Server(String),
    /// A message came that may not come.
    Unexpected(u8),
    /// The statement has another number of parameters.
    Parameters(usize),
    /// The text of the parameter at this place, from 1 on, is invalid for its type.
    Parameter(usize, CodecError),
    /// A value was not read or not written.
    Codec(CodecError),
    /// A message was not written, or has a bad length.
    Message(MessageError),
    /// A type of the server is a part of itself, or is not known.
    Catalog,
}

impl fmt::Display for Fault {
    fn fmt<W: fmt::Write>(&self, f: &mut fmt::Formatter<W>) -> fmt::Result {
        match self {
            Fault::Memory => f.write_str("out of memory"),
            Fault::Read => f.write_str("reading failed"),
            Fault::Write => f.write_str("writing failed"),
            Fault::End => f.write_str("the server's bytes end too early"),
            Fault::Usage => f.write_str("unknown arguments: see --help"),
            Fault::Authentication(code) => {
                write!(f, "the server asks for a password (authentication {code})")
            }
            Fault::Server(text) => f.write_str(text.as_str()),
            Fault::Unexpected(tag) => write!(f, "an unexpected message of the tag {tag}"),
            Fault::Parameters(count) => write!(f, "the statement has {count} parameters"),
            Fault::Parameter(place, error) => write!(f, "${place}: C{}: {error}", error.code()),
            Fault::Codec(error) => write!(f, "C{}: {error}", error.code()),
            Fault::Message(error) => write!(f, "{error}"),
            Fault::Catalog => f.write_str("a type of the server is not known"),
        }
    }
}

impl From<AllocError> for Fault {
    fn from(_: AllocError) -> Fault {
        Fault::Memory
    }
}

impl<T: Drop> From<AllocFailed<T>> for Fault {
    fn from(_: AllocFailed<T>) -> Fault {
        Fault::Memory
    }
}

impl From<CodecError> for Fault {
    fn from(error: CodecError) -> Fault {
        Fault::Codec(error)
    }
}

impl From<MessageError> for Fault {
    fn from(error: MessageError) -> Fault {
        Fault::Message(error)
    }
}

impl From<UnexpectedMessage> for Fault {
    fn from(error: UnexpectedMessage) -> Fault {
        Fault::Unexpected(error.0)
    }
}

impl From<ColumnError<usize>> for Fault {
    fn from(error: ColumnError<usize>) -> Fault {
        Fault::Codec(CodecError::from(error))
    }
}

impl From<CatalogError> for Fault {
    fn from(error: CatalogError) -> Fault {
        match error {
            CatalogError::Memory => Fault::Memory,
            CatalogError::Codec(error) => Fault::Codec(error),
            _ => Fault::Catalog,
        }
    }
}
