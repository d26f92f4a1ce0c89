//! CommandComplete: a command has run to its end.

ghost use Rattle.std.specs.Prelude.{◌≡◌, option_map};
ghost use Rattle.pgv_value.specs.Parsed.{GivesExactly};
ghost use Rattle.pgv_scalar_text.specs.IntText.{unsigned_value};
ghost use Rattle.pgv_message.specs.Bodies.{command_complete};
ghost use Rattle.pgv_message.specs.RowCounts.{after_last_space, within_64, row_count};

use crate::end::check_end;
use pgv_scalar_text::{NumberFault, unsigned_number_of};
use pgv_value::{CodecError, name_in_front};

/// What a command did.
#[derive(Clone, Copy)]
pub struct PgCommandTag<'a> {
    /// The server's text, as `SELECT 5` or `INSERT 0 5`.
    pub text: &'a str,
}

/// The text of a CommandComplete's body (PostgreSQL: "Message Formats", CommandComplete). Without a zero byte it is
/// refused with [`Short`](CodecError::Short) (C15), where it isn't UTF-8 with [`Utf8`](CodecError::Utf8) (C14), and
/// with bytes after it with [`WrongLength`](CodecError::WrongLength) (C17).
///
/// `53454c454354203500` is `SELECT 5`.
#[tactic(auto, unfolding(crate::specs::Bodies::command_complete))]
pub fn command_tag(body: &[u8]) -> Result<PgCommandTag<'_>, CodecError>
    ensures { GivesExactly (λ tag. tag.text.now) (command_complete body.now) result }
{
    let (text, rest) = name_in_front(body)?;
    check_end(body, rest)?;
    Ok(PgCommandTag { text })
}

/// The bytes after the last space, where there is one.
fn last_word(text: &[u8]) -> Option<&[u8]>
    ensures { option_map (λ word. word.now) result ≡ after_last_space text.now }
{
    let mut word = None;
    let mut rest = text;
    while let Some((byte, after)) = rest.split_first() {
        if *byte == b' ' {
            word = Some(after);
        }
        rest = after;
    }
    word
}

/// The number that a text is, where it fits 64 bits.
fn number_in(text: &str) -> Option<u64>
    ensures { result ≡ within_64 (unsigned_value text.now) }
{
    match unsigned_number_of(text) {
        Ok(number) => Some(number),
        Err(NumberFault::Syntax) => None,
        Err(NumberFault::OutOfRange) => None,
    }
}

impl PgCommandTag<'_> {
    /// How many rows the command has read or written, where its text ends with a number: 5 of `SELECT 5` and of
    /// `INSERT 0 5`, and `None` of `BEGIN`.
    #[tactic(auto, unfolding(crate::specs::RowCounts::row_count), using(pgv_value::proofs::Fronts::whole_text))]
    pub fn rows(&self) -> Option<u64>
        ensures { result ≡ row_count self.now.text.now }
    {
        let word = last_word(self.text.as_bytes())?;
        match str::from_utf8(word) {
            Ok(number) => number_in(number),
            Err(_) => None,
        }
    }
}
