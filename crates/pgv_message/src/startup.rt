//! The message that starts a session.

ghost use Rattle.std.specs.Prelude.{◌≡◌, ◌||◌};
ghost use Rattle.std.specs.List.{list_any};
ghost use Rattle.pgv_message.specs.Startup.{startup, setting_has_zero};
ghost use Rattle.pgv_message.specs.MessageWriting.{Sends, has_zero};

use crate::error::MessageError;
use crate::pieces::{Piece, push_message};

/// Version 3.0 of the protocol.
const VERSION: u32 = 196608;

/// A parameter of a session, as `user`, `database` or `client_encoding`.
#[derive(Clone, Copy)]
pub struct PgSetting<'a> {
    /// Its name.
    pub name: &'a str,
    /// Its value.
    pub value: &'a str,
}

/// Whether a text has a zero byte.
fn has_zero_byte(text: &str) -> bool
    ensures { result ≡ has_zero text.now }
{
    text.as_bytes().contains(&0)
}

/// Whether a setting has a zero byte.
fn has_zero_in(setting: &PgSetting<'_>) -> bool
    ensures { result ≡ setting_has_zero setting.now }
{
    has_zero_byte(setting.name) || has_zero_byte(setting.value)
}

/// Whether one of the settings has a zero byte.
fn any_has_zero(settings: &[PgSetting<'_>]) -> bool
    ensures { result ≡ list_any setting_has_zero settings.now }
{
    settings.iter().any(has_zero_in)
}

/// Appends the message that starts a session (PostgreSQL: "Message Formats", StartupMessage): version 3.0, and the
/// settings. It has no tag. The server wants a `user`, and reads the settings up to an empty name.
///
/// A zero byte in a name or a value and a body of more than 2147483643 bytes are refused. A refused call leaves the
/// buffer as it was.
///
/// For the user `me`: `00000011 00030000 7573657200 6d6500 00`.
#[tactic(auto, unfolding(crate::specs::Startup::startup))]
pub fn write_startup<'a>(
    out: &mut Vec<u8>,
    settings: &'a [PgSetting<'a>],
) -> Result<(), MessageError>
    ensures { Sends (startup settings.now) out.old.items out.new.items result }
{
    if any_has_zero(settings) {
        return Err(MessageError::ZeroByte);
    }
    let mut pieces: Vec<Piece<'a>> = Vec::new(*out.allocator());
    pieces.push(Piece::Number(VERSION))?;
    for setting in settings {
        pieces.push(Piece::Text(setting.name))?;
        pieces.push(Piece::Text(setting.value))?;
    }
    pieces.push(Piece::Byte(0))?;
    push_message(out, b"", pieces.as_slice())
}
