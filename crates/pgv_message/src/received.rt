//! Messages that a server sends.

ghost use Rattle.std.specs.Prelude.{◌<◌, length, IfSome};
ghost use Rattle.pgv_value.specs.Parsed.{GivesFront};
ghost use Rattle.pgv_message.specs.Received.{Finds};

use crate::error::MessageError;
use pgv_value::{MAX_LENGTH, u32_in_front};

/// The least length of a message, which counts its own four bytes.
const MIN_LENGTH: u32 = 4;

/// A message that a server sent, and the bytes after it.
#[derive(Clone, Copy)]
pub struct PgMessage<'a> {
    /// The byte that names it: `T` for RowDescription, `D` for DataRow.
    pub tag: u8,
    /// Its body.
    pub body: &'a [u8],
    /// The bytes after it.
    pub rest: &'a [u8],
}

/// The message in front of the bytes that have come, or `None` where not all of it has come (PostgreSQL: "Message
/// Formats"). A length below 4 or above 2147483647 is refused, as soon as it has come.
///
/// Of `5a 00000005 49 44` the tag is `Z`, the body `49`, and the rest `44`.
#[tactic(auto, unfolding(crate::specs::Received::message_at_front))]
pub fn message_in_front(bytes: &[u8]) -> Result<Option<PgMessage<'_>>, MessageError>
    // Each message takes bytes, so a loop over them ends.
    ensures { GivesFront (Finds bytes.now)
        (λ o. IfSome o (λ m. length m.rest.now < length bytes.now)) result }
{
    let Some((tag, after)) = bytes.split_first() else {
        return Ok(None);
    };
    let Ok((length, rest)) = u32_in_front(after) else {
        return Ok(None);
    };
    if length < MIN_LENGTH || length > MAX_LENGTH {
        return Err(MessageError::BadLength(length));
    }
    let size = (length - MIN_LENGTH) as usize;
    if rest.len() < size {
        return Ok(None);
    }
    let (body, rest) = rest.split_at(size);
    Ok(Some(PgMessage {
        tag: *tag,
        body,
        rest,
    }))
}
