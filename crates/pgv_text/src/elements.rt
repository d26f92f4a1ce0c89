//! The elements of an array text, read as they come.

ghost use Rattle.std.specs.Prelude.{◌≡◌, MatchResult, None, string_bytes, true};
ghost use Rattle.std.specs.Option.{MatchOption};
ghost use Rattle.pgv_text.specs.ElementsView.{Follows, ahead, element_copied, is_end};
ghost use Rattle.pgv_text.specs.Values.{array_values};

use super::parts::{Part, after_opening, closes_here, part_in_front};
use super::scanner::{Cell, TextForm};
use std::alloc::AllocError;

/// The elements of an array text that are still to come. The text isn't tested first, so that a reader sees each byte
/// once: it is an array text iff the reader comes to the end. It takes no memory of its own.
#[derive(Clone, Copy, Drop)]
pub struct Elements<'a> {
    /// These elements and the closing bracket.
    rest: &'a str,
    /// Whether the closing bracket was met, with nothing after it.
    ended: bool,
}

/// What comes next in an array text.
#[derive(Clone, Copy, Drop)]
pub enum Next<'a> {
    /// An element.
    Element(Part<'a>),
    /// The closing bracket, and nothing after it.
    End,
    /// The text is not an array text.
    Fault,
}

impl<'a> Elements<'a> {
    /// The elements of a text; `None` if no array text begins like it.
    #[tactic(auto, using(crate::proofs::NextParts::none_read, crate::proofs::NextParts::values_there, crate::proofs::NextParts::no_values, crate::proofs::NextParts::not_at_end))]
    #[inline(always)]
    pub fn of_text(text: &'a str) -> Option<Self>
        ensures { MatchOption result (array_values text.now ≡ None)
            (λ elements. array_values text.now ≡ ahead elements) }
    {
        let Some((_, rest)) = after_opening(TextForm::Array, text) else {
            return None;
        };
        if !closes_here(rest) {
            return Some(Elements { rest, ended: false });
        }
        if rest.len() == 1 {
            Some(Elements { rest, ended: true })
        } else {
            None
        }
    }

    /// Whether the end comes next, so that no element is left.
    #[inline(always)]
    pub fn is_at_end(&self) -> bool
        ensures { result ≡ is_end (ahead self.now) }
    {
        self.ended
    }

    /// The next element: borrowed if its bytes are one run of the text, alone or in quotes, else put into the given
    /// text. If memory runs out, the elements stay as they were; a borrowed element asks for none. From `{a,"b c"}`
    /// come `a` and `b c`, both borrowed, and then the end.
    #[inline(always)]
    pub fn next_borrowed(&mut self, text: &mut String) -> Result<Next<'a>, AllocError>
        // Only for an element that is copied memory is asked for.
        ensures { MatchResult result
            (λ next. Follows next (string_bytes text.new) self.old self.new)
            (λ _. (self.new ≡ self.old) × (element_copied self.old ≡ true)) }
    {
        if self.ended {
            return Ok(Next::End);
        }
        let Some((part, stop)) = part_in_front(TextForm::Array, self.rest, text)? else {
            return Ok(Next::Fault);
        };
        match stop.cell {
            Cell::Part => self.rest = stop.rest,
            Cell::End if stop.rest.is_empty() => self.ended = true,
            _ => return Ok(Next::Fault),
        }
        Ok(Next::Element(part))
    }
}
