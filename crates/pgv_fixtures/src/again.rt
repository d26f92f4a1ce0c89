//! Want of memory, after which a row is called again.

use pgv::CodecError;
use std::alloc::AllocError;

/// A request for memory was refused, and all is as it was before.
#[derive(Clone, Copy, PartialEq, Eq, Debug)]
pub struct Again;

impl From<AllocError> for Again {
    fn from(_error: AllocError) -> Again {
        Again
    }
}

/// The number of a refusal, as in `C15`.
fn number_of(text: &str) -> Option<u8> {
    text.strip_prefix('C')?.parse::<u8>().ok()
}

/// Whether a refusal is the expected one.
pub fn refused(error: &CodecError, wanted: &str) -> Result<bool, Again> {
    match error.code() {
        1 => Err(Again),
        number => Ok(number_of(wanted) == Some(number)),
    }
}

/// Whether a text, or a refusal, is what is expected.
pub fn same(found: Result<String, CodecError>, wanted: &str) -> Result<bool, Again> {
    match found {
        Ok(found) => Ok(found.as_str() == wanted),
        Err(error) => refused(&error, wanted),
    }
}

/// Whether a call on an object, which a refusal has to leave as it was, answers what is expected.
pub fn told(answer: Result<(), CodecError>, unmoved: bool, wanted: &str) -> Result<bool, Again> {
    match answer {
        Ok(()) => Ok(wanted == "ok"),
        Err(error) if unmoved => refused(&error, wanted),
        Err(_) => Ok(false),
    }
}
