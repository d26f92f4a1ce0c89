//! Labels (PostgreSQL, "ltree", Definitions).

ghost use Rattle.std.specs.Prelude.{◌≡◌, Ok, Err, Some, true, string_bytes};
ghost use Rattle.std.specs.List.{list_all};
ghost use Rattle.pgv_value.specs.declared.tree_error.PgLTreeParseError.TheVariants.{InvalidLtreeLabel, Memory};
ghost use Rattle.pgv_ltree.specs.TextsInTurn.{GivesRead};
ghost use Rattle.pgv_ltree.specs.Labels.{is_label_char as is_label_char_of, is_label as is_label_of, label_read};

use pgv_value::PgLTreeParseError;
use std::alloc::{AllocError, Global};
use std::fmt;
use std::marker::Model;

/// The longest label, in bytes; its characters are ASCII, so that is in characters too.
const LABEL_LIMIT: usize = 1000;

/// Whether labels have this character.
fn is_label_char(byte: u8) -> bool
    ensures { result ≡ is_label_char_of byte }
{
    byte.is_ascii_alphanumeric() || byte == b'_' || byte == b'-'
}

/// Whether there are only characters of labels.
fn are_label_chars(bytes: &[u8]) -> bool
    ensures { result ≡ list_all is_label_char_of bytes.now }
{
    bytes.iter().all(|byte| is_label_char(*byte))
}

/// Whether a text is a label.
fn is_label(text: &str) -> bool
    ensures { result ≡ is_label_of text.now }
{
    text.len() <= LABEL_LIMIT && are_label_chars(text.as_bytes())
}

/// A label: at most 1000 of the characters `A` to `Z`, `a` to `z`, `0` to `9`, `_` and `-`, perhaps none.
///
/// A contract sees it as its bytes.
#[derive(Debug)]
pub struct PgLTreeLabel {
    text: String,
}

/// Its parts go. It is written out since a derived one is proved again in each crate above.
impl Drop for PgLTreeLabel {
    #[inline(always)]
    fn drop(self) {
        let PgLTreeLabel { text: _ } = self;
    }
}

impl Model for PgLTreeLabel {
    ghost use Rattle.std.specs.Prelude.{◌≡◌, ℕ, List, true, string_bytes};
    ghost use Rattle.pgv_ltree.specs.Labels.{is_label};

    ghost Value = { List ℕ };

    ghost view = { λ label. string_bytes label.text };

    ghost invariant = { λ label. is_label (string_bytes label.text) ≡ true };
}

impl PgLTreeLabel {
    /// The label of a text, which takes no memory. A text that is not a valid label is refused with InvalidLtreeLabel.
    pub fn new(label: String) -> Result<PgLTreeLabel, PgLTreeParseError>
        ensures { result ≡ label_read (string_bytes label) }
    {
        if !is_label(label.as_str()) {
            return Err(PgLTreeParseError::InvalidLtreeLabel);
        }
        Ok(PgLTreeLabel { text: label })
    }

    /// The label of a text, copied. A text that is not a valid label is refused with InvalidLtreeLabel before memory is
    /// asked for.
    pub fn from_str(alloc: Global, text: &str) -> Result<PgLTreeLabel, PgLTreeParseError>
        ensures { GivesRead (λ label. label) Memory (is_label_of text.now)
            (label_read text.now) result }
    {
        if !is_label(text) {
            return Err(PgLTreeParseError::InvalidLtreeLabel);
        }
        Ok(PgLTreeLabel {
            text: String::from_str(alloc, text)?,
        })
    }

    /// The text of the label.
    pub fn as_str(&self) -> &str
        ensures text { result.now ≡ self.now }
        ensures label { is_label_of self.now ≡ true }
    {
        self.text.as_str()
    }
}

/// Two labels are equal iff they have the same characters, in the same case.
impl PartialEq for PgLTreeLabel {
    ghost use Rattle.pgv_ltree.specs.SameLabels.{same_label, same_label_per};

    ghost eq = { same_label };

    ghost laws = { same_label_per };

    fn eq(&self, other: &PgLTreeLabel) -> bool {
        self.text == other.text
    }
}

impl Eq for PgLTreeLabel {
    ghost use Rattle.pgv_ltree.specs.SameLabels.{same_label_equiv};

    ghost laws = { same_label_equiv };
}

impl Clone for PgLTreeLabel {
    ghost is_clone = { λ label copy. copy ≡ label };

    fn clone(&self) -> Result<PgLTreeLabel, AllocError> {
        Ok(PgLTreeLabel {
            text: self.text.clone()?,
        })
    }
}

/// Printed as it is.
impl fmt::Display for PgLTreeLabel {
    ghost output = { λ label. Some label };

    fn fmt<W: fmt::Write>(&self, f: &mut fmt::Formatter<W>) -> fmt::Result {
        f.write_str(self.as_str())
    }
}
