//! BackendKeyData: what a request to cancel needs.

ghost use Rattle.pgv_value.specs.Parsed.{GivesExactly};
ghost use Rattle.pgv_message.specs.Bodies.{backend_key_data};

use crate::end::check_end;
use pgv_value::{CodecError, u32_in_front};

/// What a request to cancel names a session by.
#[derive(Clone, Copy, Debug, PartialEq, Eq)]
pub struct PgBackendKey {
    /// The server's process.
    pub process: u32,
    /// The secret of the session.
    pub secret: u32,
}

/// The key in a BackendKeyData's body (PostgreSQL: "Message Formats", BackendKeyData). Fewer than eight bytes are
/// refused with [`Short`](CodecError::Short) (C15), and more with [`WrongLength`](CodecError::WrongLength) (C17).
#[tactic(auto, unfolding(crate::specs::Bodies::backend_key_data))]
pub fn backend_key(body: &[u8]) -> Result<PgBackendKey, CodecError>
    ensures { GivesExactly (λ key. (key.process, key.secret)) (backend_key_data body.now) result }
{
    let (process, rest) = u32_in_front(body)?;
    let (secret, rest) = u32_in_front(rest)?;
    check_end(body, rest)?;
    Ok(PgBackendKey { process, secret })
}
