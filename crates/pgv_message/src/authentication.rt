//! Authentication: what a server asks for before a session starts.

ghost use Rattle.pgv_value.specs.Parsed.{GivesExactly};
ghost use Rattle.pgv_message.specs.Bodies.{authentication};

use crate::end::check_end;
use pgv_value::{CodecError, u32_in_front};

/// What a server asks for.
#[derive(Clone, Copy)]
pub struct PgAuthentication<'a> {
    /// Its code: 0 nothing more, 3 a password, 5 one hashed by MD5, 10 a way of SASL.
    pub code: u32,
    /// What comes with it, as the salt of MD5 or the names of SASL.
    pub data: &'a [u8],
}

/// What an Authentication's body asks for (PostgreSQL: "Message Formats", AuthenticationOk and those after it). Fewer
/// than four bytes are refused with [`Short`](CodecError::Short) (C15), and bytes after the code 0 with
/// [`WrongLength`](CodecError::WrongLength) (C17).
///
/// `00000000` is AuthenticationOk.
#[tactic(auto, unfolding(crate::specs::Bodies::authentication))]
pub fn authentication_of(body: &[u8]) -> Result<PgAuthentication<'_>, CodecError>
    ensures { GivesExactly (λ a. (a.code, a.data.now)) (authentication body.now) result }
{
    let (code, data) = u32_in_front(body)?;
    if code == 0 {
        check_end(body, data)?;
    }
    Ok(PgAuthentication { code, data })
}
