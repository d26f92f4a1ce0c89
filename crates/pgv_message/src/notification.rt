//! NotificationResponse: another session has notified this one.

ghost use Rattle.pgv_value.specs.Parsed.{GivesExactly};
ghost use Rattle.pgv_message.specs.Bodies.{notification, notification_view};

use crate::end::check_end;
use pgv_value::{CodecError, name_in_front, u32_in_front};

/// A notification.
#[derive(Clone, Copy)]
pub struct PgNotification<'a> {
    /// The process of the session that sent it.
    pub process: u32,
    /// The channel.
    pub channel: &'a str,
    /// The text that came with it, which may be empty.
    pub payload: &'a str,
}

/// The notification in a NotificationResponse's body (PostgreSQL: "Message Formats", NotificationResponse). Bytes that
/// end too early are refused with [`Short`](CodecError::Short) (C15), a text that isn't UTF-8 with
/// [`Utf8`](CodecError::Utf8) (C14), and bytes after the payload with [`WrongLength`](CodecError::WrongLength) (C17).
///
/// `00000007 6100 00` is one of the process 7 on the channel `a`.
#[tactic(auto, unfolding(crate::specs::Bodies::notification))]
pub fn notification_of(body: &[u8]) -> Result<PgNotification<'_>, CodecError>
    ensures { GivesExactly notification_view (notification body.now) result }
{
    let (process, rest) = u32_in_front(body)?;
    let (channel, rest) = name_in_front(rest)?;
    let (payload, rest) = name_in_front(rest)?;
    check_end(body, rest)?;
    Ok(PgNotification {
        process,
        channel,
        payload,
    })
}
