//! Where a text is printed to.

ghost use Rattle.std.specs.Prelude.{⊤, ◌≡◌, ◌++◌, [], List, ℕ, IfErr, OnOk, OnErr};
ghost use Rattle.std.specs.Fmt.{HasWritten, IsPlainFormatter};
ghost use Rattle.pgv_buf.specs.Tokens.{blank, bytes};
ghost use Rattle.pgv_value.specs.declared.error.CodecError.TheVariants.{Memory};
ghost use Rattle.pgv_codec.specs.Appending.{Extends};

use pgv_codec::PgArgumentBuffer;
use pgv_value::CodecError;
use std::fmt;

/// A receiver of texts one after another: a formatter, or the buffer of arguments. One printer serves both.
pub trait Sink {
    /// What a refused text is answered with.
    type Error;

    /// What it was, a text that it took, and what it is after that.
    ghost took: { Self → List ℕ → Self → Type 0 };

    /// What it was, and what a refused text may leave.
    ghost left: { Self → Self → Type 0 };

    /// The errors that a refused text may be answered with.
    ghost refuses: { Self.Error → Type 0 };

    /// Takes a text.
    fn put(&mut self, text: &str) -> Result<(), Self::Error>
        ensures ok { OnOk result (took self.old text.now self.new) }
        ensures err { IfErr result refuses }
        ensures left { OnErr result (left self.old self.new) };

    /// The empty text changes nothing.
    ghost took_none: { (a : Self) → took a [] a };

    /// Texts one after another are one text.
    ghost took_both: { (a b c : Self) (x y : List ℕ) → took a x b → took b y c → took a (x ++ y) c };

    /// What is left by a text that is refused after another was taken.
    ghost left_after: { (a b c : Self) (x : List ℕ) → took a x b → left b c → left a c };
}

/// A formatter writes them. What an error leaves is open.
impl<W: fmt::Write> Sink for fmt::Formatter<W> {
    ghost use Rattle.pgv_ltree.specs.SinkLemmas.{written_none, written_both};

    type Error = fmt::Error;

    ghost took = { λ f text g. IsPlainFormatter f → HasWritten W.write_str_gives f text g };

    ghost left = { λ _ _. ⊤ };

    ghost refuses = { λ _. ⊤ };

    #[inline(always)]
    fn put(&mut self, text: &str) -> fmt::Result {
        self.write_str(text)
    }

    ghost took_none = { written_none W.write_str_gives };

    ghost took_both = { written_both W.write_str_gives };

    ghost left_after = { λ _ _ _ _ _ _. tt };
}

/// The buffer appends them. An error is out of memory (C1); the old bytes stay, and more may come after them.
impl Sink for PgArgumentBuffer {
    ghost use Rattle.pgv_codec.specs.PlainBytes.{appended_parts};
    ghost use Rattle.pgv_ltree.specs.SinkLemmas.{appended_none, appended_after};

    type Error = CodecError;

    ghost took = { λ was text now. now ≡ was ++ blank (bytes text) };

    ghost left = { Extends };

    ghost refuses = { λ e. e ≡ Memory };

    #[inline(always)]
    fn put(&mut self, text: &str) -> Result<(), CodecError> {
        self.extend_from_slice(text.as_bytes())
    }

    ghost took_none = { appended_none };

    ghost took_both = { appended_parts };

    ghost left_after = { appended_after };
}
