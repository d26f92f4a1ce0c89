//! The variants of a level (PostgreSQL, "ltree", lquery).

ghost use Rattle.std.specs.Prelude.{◌≡◌, ◌+◌, IfErr, OnOk, OnErr, Ok, Err, Some, take, drop, true};
ghost use Rattle.std.specs.List.{list_all, position};
ghost use Rattle.pgv_value.specs.declared.tree_error.PgLQueryParseError.TheVariants.{Memory};
ghost use Rattle.pgv_ltree.specs.TextsInTurn.{GivesRead};
ghost use Rattle.pgv_ltree.specs.Flags.{bit, modifier_bits};
ghost use Rattle.pgv_ltree.specs.Queries.{is_variant};
ghost use Rattle.pgv_ltree.specs.QueryPrinted.{printed_variant};
ghost use Rattle.pgv_ltree.specs.QueryRead.{is_variant_text, label_length as label_length_of, variant_read};
ghost use Rattle.pgv_ltree.specs.QueryText.{is_mark as is_mark_of};

use crate::flag::{PgLQueryVariantFlag, print_marks};
use crate::{PgLTreeLabel, Sink};
use bitflags::Flags;
use pgv_value::{PgLQueryParseError, PgLTreeParseError};
use std::alloc::{AllocError, Global};
use std::fmt;
use std::marker::Model;

/// A variant of a level: a label and its modifiers, as `Astro*@`.
///
/// A contract sees it as its label and whether each modifier is set.
#[derive(Debug)]
pub struct PgLQueryVariant {
    label: PgLTreeLabel,
    any_end: bool,
    in_case: bool,
    sublexeme: bool,
}

/// Its parts go. It is written out since a derived one is proved again in each crate above.
impl Drop for PgLQueryVariant {
    #[inline(always)]
    fn drop(self) {
        let PgLQueryVariant {
            label: _,
            any_end: _,
            in_case: _,
            sublexeme: _,
        } = self;
    }
}

impl Model for PgLQueryVariant {
    ghost use Rattle.std.specs.Prelude.{◌≡◌, true};
    ghost use Rattle.pgv_ltree.specs.Labels.{is_label};
    ghost use Rattle.pgv_ltree.specs.Queries.{Variant};
    ghost use Rattle.pgv_ltree.specs.QueryCode.{variant_code};

    ghost Value = { Variant };

    ghost coded = { variant_code };

    ghost view = { λ v. record { label = v.label; any_end = v.any_end; in_case = v.in_case; sublexeme = v.sublexeme } };

    ghost invariant = { λ v. is_label v.label ≡ true };
}

/// Whether a character is a modifier.
fn is_mark(byte: u8) -> bool
    ensures { result ≡ is_mark_of byte }
{
    byte == b'*' || byte == b'@' || byte == b'%'
}

/// Whether there are only modifiers.
fn are_marks(bytes: &[u8]) -> bool
    ensures { result ≡ list_all is_mark_of bytes.now }
{
    bytes.iter().all(|byte| is_mark(*byte))
}

/// Where the first modifier is.
fn first_mark(bytes: &[u8]) -> Option<usize>
    ensures { result ≡ position is_mark_of bytes.now }
{
    bytes.iter().position(|byte| is_mark(*byte))
}

/// How long the label is that modifiers come after.
#[tactic(auto, using(crate::proofs::VariantMarks::or_length))]
fn label_length(bytes: &[u8]) -> usize
    ensures { result ≡ label_length_of bytes.now }
{
    first_mark(bytes).unwrap_or(bytes.len())
}

/// The label and the modifiers of a text.
#[tactic(auto, using(crate::proofs::VariantMarks::boundary))]
fn split_marks(text: &str) -> (&str, &str)
    ensures { (result.0.now ≡ take (label_length_of text.now) text.now)
        × (result.1.now ≡ drop (label_length_of text.now) text.now) }
{
    text.split_at(label_length(text.as_bytes()))
}

/// The modifiers of which some are set.
fn flags_of(any_end: bool, in_case: bool, sublexeme: bool) -> PgLQueryVariantFlag
    ensures { result.0 ≡ bit any_end 1 + bit in_case 2 + bit sublexeme 4 }
{
    let mut flags = PgLQueryVariantFlag::empty();
    flags.set(PgLQueryVariantFlag::ANY_END, any_end);
    flags.set(PgLQueryVariantFlag::IN_CASE, in_case);
    flags.set(PgLQueryVariantFlag::SUBLEXEME, sublexeme);
    flags
}

impl PgLQueryVariant {
    /// The variant of a text: a label and, at its end, `*`, `@` and `%` in any order and number. An invalid text is
    /// refused with LTreeParrseError, before memory is asked for.
    pub fn from_str(alloc: Global, text: &str) -> Result<PgLQueryVariant, PgLQueryParseError>
        ensures { GivesRead (λ variant. variant) Memory (is_variant_text text.now)
            (variant_read text.now) result }
    {
        let (label, marks) = split_marks(text);
        let marks = marks.as_bytes();
        if !are_marks(marks) {
            return Err(PgLQueryParseError::LTreeParrseError(PgLTreeParseError::InvalidLtreeLabel));
        }
        Ok(PgLQueryVariant {
            label: PgLTreeLabel::from_str(alloc, label)?,
            any_end: marks.contains(&b'*'),
            in_case: marks.contains(&b'@'),
            sublexeme: marks.contains(&b'%'),
        })
    }

    /// The label.
    pub fn label(&self) -> &PgLTreeLabel
        ensures label { result.now ≡ self.now.label }
        ensures variant { is_variant self.now ≡ true }
    {
        &self.label
    }

    /// The modifiers. There are no others than the three.
    pub fn modifiers(&self) -> PgLQueryVariantFlag
        ensures { result.0 ≡ modifier_bits self.now }
    {
        flags_of(self.any_end, self.in_case, self.sublexeme)
    }

    /// Prints the label, and then its modifiers.
    pub(crate) fn print<S: Sink>(&self, out: &mut S) -> Result<(), S::Error>
        ensures variant { OnOk result (is_variant self.now ≡ true) }
        ensures ok { OnOk result (S.took out.old (printed_variant self.now) out.new) }
        ensures err { IfErr result S.refuses }
        ensures left { OnErr result (S.left out.old out.new) }
    {
        out.put(self.label.as_str())?;
        print_marks(self.any_end, self.in_case, self.sublexeme, out)
    }
}

/// Two variants are equal iff they have the same label and the same modifiers.
impl PartialEq for PgLQueryVariant {
    ghost use Rattle.pgv_ltree.specs.SameQueries.{same_variant, same_variant_per};

    ghost eq = { same_variant };

    ghost laws = { same_variant_per };

    fn eq(&self, other: &PgLQueryVariant) -> bool {
        self.label == other.label
            && self.any_end == other.any_end
            && self.in_case == other.in_case
            && self.sublexeme == other.sublexeme
    }
}

impl Eq for PgLQueryVariant {
    ghost use Rattle.pgv_ltree.specs.SameQueries.{same_variant_equiv};

    ghost laws = { same_variant_equiv };
}

impl Clone for PgLQueryVariant {
    ghost is_clone = { λ v copy. copy ≡ v };

    fn clone(&self) -> Result<PgLQueryVariant, AllocError> {
        Ok(PgLQueryVariant {
            label: self.label.clone()?,
            any_end: self.any_end,
            in_case: self.in_case,
            sublexeme: self.sublexeme,
        })
    }
}

/// Printed as the label, and then its modifiers in the order `*`, `@`, `%`.
impl fmt::Display for PgLQueryVariant {
    ghost output = { λ v. Some (printed_variant v) };

    fn fmt<W: fmt::Write>(&self, f: &mut fmt::Formatter<W>) -> fmt::Result {
        self.print(f)
    }
}
