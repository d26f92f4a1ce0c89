//! ParameterStatus: a parameter of the session.

ghost use Rattle.pgv_value.specs.Parsed.{GivesExactly};
ghost use Rattle.pgv_message.specs.Bodies.{parameter_status};

use crate::end::check_end;
use crate::startup::PgSetting;
use pgv_value::{CodecError, name_in_front};

/// The name and the value in a ParameterStatus' body (PostgreSQL: "Message Formats", ParameterStatus). Without a zero
/// byte after each it is refused with [`Short`](CodecError::Short) (C15), where one isn't UTF-8 with
/// [`Utf8`](CodecError::Utf8) (C14), and with bytes after them with [`WrongLength`](CodecError::WrongLength) (C17).
///
/// `6100 6200` is `b` of the parameter `a`.
#[tactic(auto, unfolding(crate::specs::Bodies::parameter_status))]
pub fn changed_setting(body: &[u8]) -> Result<PgSetting<'_>, CodecError>
    ensures { GivesExactly (λ s. (s.name.now, s.value.now)) (parameter_status body.now) result }
{
    let (name, rest) = name_in_front(body)?;
    let (value, rest) = name_in_front(rest)?;
    check_end(body, rest)?;
    Ok(PgSetting { name, value })
}
