//! The version that a text is written after, of trees and of their queries (PostgreSQL, "ltree").

ghost use Rattle.pgv_value.specs.Parsed.{GivesExactly};
ghost use Rattle.pgv_ltree.specs.TreesCodec.{versioned};

use pgv_value::CodecError;

/// The version that the binary form begins with.
pub const VERSION: u8 = 1;

/// The text after the version. No bytes are refused with [`Short`](CodecError::Short) (C15), another version as given
/// here, and other bytes than UTF-8 with [`Utf8`](CodecError::Utf8) (C14).
#[tactic(auto, using(pgv_value::proofs::Fronts::whole_text))]
pub fn text_after_version(form: &[u8], wrong_version: CodecError) -> Result<&str, CodecError>
    ensures { GivesExactly (λ text. text.now) (versioned wrong_version form.now) result }
{
    let Some((version, text)) = form.split_first() else {
        return Err(CodecError::Short);
    };
    if *version != VERSION {
        return Err(wrong_version);
    }
    match str::from_utf8(text) {
        Ok(text) => Ok(text),
        Err(_) => Err(CodecError::Utf8),
    }
}
