//! Text whose case doesn't matter to the server (PostgreSQL, appendix F, citext).

ghost use Rattle.std.specs.Prelude.{◌≡◌, [], IfOk, string_bytes};

mod codec;

use std::alloc::{AllocError, Global};
use std::fmt;

/// A text of the extension type `citext`.
///
/// `==` compares bytes: which letters are the same, the server decides. A [`String`] is read under `citext` too; this
/// type is for places where the server must see the type `citext`, as in an array of them.
#[derive(Debug, Drop, PartialEq, Eq)]
pub struct PgCiText(pub String);

impl PgCiText {
    /// The empty text. It takes no memory yet.
    pub fn new(alloc: Global) -> PgCiText
        ensures { string_bytes result.0 ≡ [] }
    {
        PgCiText(String::new(alloc))
    }

    /// A text of these characters.
    pub fn from_str(alloc: Global, text: &str) -> Result<PgCiText, AllocError>
        ensures { IfOk result (λ t. string_bytes t.0 ≡ text.now) }
    {
        Ok(PgCiText(String::from_str(alloc, text)?))
    }

    /// Its characters.
    pub fn as_str(&self) -> &str
        ensures { result.now ≡ string_bytes self.now.0 }
    {
        self.0.as_str()
    }
}

/// The text, as it is.
impl From<String> for PgCiText {
    ghost from_gives = { λ text made. made.0 ≡ text };

    fn from(text: String) -> PgCiText {
        PgCiText(text)
    }
}

/// The text, as it is.
impl From<PgCiText> for String {
    ghost from_gives = { λ text made. made ≡ text.0 };

    fn from(text: PgCiText) -> String {
        text.0
    }
}

/// A text of the same characters.
impl Clone for PgCiText {
    ghost is_clone = { λ text copy. string_bytes copy.0 ≡ string_bytes text.0 };

    fn clone(&self) -> Result<PgCiText, AllocError> {
        Ok(PgCiText(self.0.clone()?))
    }
}

/// The characters, as they are. They are never padded.
impl fmt::Display for PgCiText {
    ghost use Rattle.std.specs.Prelude.{Some};

    ghost output = { λ text. Some (string_bytes text.0) };

    ghost styled_output = { λ text _. Some (string_bytes text.0) };

    fn fmt<W: fmt::Write>(&self, f: &mut fmt::Formatter<W>) -> fmt::Result {
        f.write_str(self.0.as_str())
    }
}
