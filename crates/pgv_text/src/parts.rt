//! The parts of a text, one by one.

ghost use Rattle.std.specs.Prelude.{◌≡◌, ◌≢◌, ◌==◌, ◌<◌, ◌∷◌, [], Some, None, IfOk, IfSome, MatchResult, if◌then◌else◌, string_bytes, false, true, length};
ghost use Rattle.std.specs.Option.{MatchOption, option_copied};
ghost use Rattle.std.specs.Str.{chars};
ghost use Rattle.pgv_text.specs.ArrayText.{array_form};
ghost use Rattle.pgv_text.specs.ContentText.{content_of, is_empty_in, no_parts};
ghost use Rattle.pgv_text.specs.Forms.{form_of};
ghost use Rattle.pgv_text.specs.Scan.{closes_here as spec_closes_here, nest_read, numbered, read};
ghost use Rattle.pgv_text.specs.Values.{part_bytes, values_of};
ghost use Rattle.pgv_text.specs.PartsLeftView.{values_left};
ghost use Rattle.pgv_text.specs.PartFound.{IsPartInFront, IsRun, IsUnquoted, part_value};
ghost use Rattle.pgv_text.specs.Copies.{as_it_is, first_copied, in_quotes};
ghost use Rattle.pgv_text.specs.declared.scanner.Place.TheVariants.{Quoted, Start};

use super::scanner::{
    Cell, Place, Stop, TextForm, closes, is_never_special, is_nothing, next_stop, opens,
};
use std::alloc::{AllocError, Global};

/// Whether a text is that of the empty range, in the form of ranges.
fn is_empty_range(form: TextForm, text: &str) -> bool
    ensures { result ≡ is_empty_in form text.now }
{
    match form {
        TextForm::Range => text.eq_ignore_ascii_case("empty"),
        _ => false,
    }
}

/// The opening bracket, and what is after it; `None` where there is none.
#[tactic(auto, using(crate::proofs::CharacterClasses::after_low, crate::proofs::CharacterClasses::opens_low))]
pub(crate) fn after_opening(form: TextForm, text: &str) -> Option<(u8, &str)>
    ensures { MatchOption result (nest_read (form_of form) text.now ≡ None)
        (λ p. (text.now ≡ p.0 ∷ p.1.now) × ((form_of form).opens p.0 ≡ true)) }
{
    match text.as_bytes() {
        [opening, ..] if opens(form, *opening) => Some((*opening, &text[1..])),
        _ => None,
    }
}

/// Whether the closing bracket of an array is in front.
#[inline(always)]
pub(crate) fn closes_here(text: &str) -> bool
    ensures { result ≡ spec_closes_here array_form text.now }
{
    match text.as_bytes() {
        [byte, ..] => closes(TextForm::Array, *byte),
        [] => false,
    }
}

/// How many parts there are to the closing bracket, and which bracket it is; `None` where the rest isn't in the form.
fn part_count(form: TextForm, text: &str) -> Option<(usize, u8)>
    ensures { result ≡ numbered 1 (read (form_of form) Start text.now) }
{
    if let Some(found) = usual_part_count(form, text.as_bytes()) {
        return Some(found);
    }
    let mut count = 1;
    let mut place = Place::Start;
    let mut left = text;
    while let Some(stop) = next_stop(form, place, left) {
        left = stop.rest;
        match stop.cell {
            Cell::Pass(next) => place = next,
            Cell::Part => {
                place = Place::Start;
                count += 1;
            }
            Cell::End if left.is_empty() => return Some((count, stop.byte)),
            _ => return None,
        }
    }
    None
}

/// The same if only usual bytes and commas come before the bracket, else `None`.
fn usual_part_count(form: TextForm, bytes: &[u8]) -> Option<(usize, u8)>
    ensures { IfSome result (λ found. Some found
        ≡ numbered 1 (read (form_of form) Start bytes.now)) }
{
    let mut count = 1;
    let mut left = bytes;
    while let [byte, rest @ ..] = left {
        if !is_never_special(*byte) {
            if *byte != b',' {
                return if rest.is_empty() && closes(form, *byte) {
                    Some((count, *byte))
                } else {
                    None
                };
            }
            count += 1;
        }
        left = rest;
    }
    None
}

/// The part in front and where it ends, if it is one run of the text's bytes, alone or in quotes.
#[inline(always)]
fn one_run(form: TextForm, text: &str) -> Option<Stop<'_>>
    // It is `None` iff the part isn't in the text as it is.
    ensures { MatchOption result (as_it_is (form_of form) text.now ≡ false)
        (λ stop. (as_it_is (form_of form) text.now ≡ true) × IsRun form Start text.now stop) }
{
    let first = next_stop(form, Place::Start, text)?;
    match first.cell {
        Cell::Part | Cell::End => Some(first),
        Cell::Pass(Place::Quoted) if first.run.is_empty() => run_in_quotes(form, first.rest),
        _ => None,
    }
}

/// The same after an opening quote.
#[inline(always)]
fn run_in_quotes(form: TextForm, text: &str) -> Option<Stop<'_>>
    ensures { MatchOption result (in_quotes (form_of form) text.now ≡ false)
        (λ stop. (in_quotes (form_of form) text.now ≡ true) × IsRun form Quoted text.now stop) }
{
    let inside = next_stop(form, Place::Quoted, text)?;
    let Cell::Pass(Place::AfterQuote) = inside.cell else {
        return None;
    };
    let end = next_stop(form, Place::AfterQuote, inside.rest)?;
    match end.cell {
        Cell::Part | Cell::End if end.run.is_empty() => Some(Stop {
            run: inside.run,
            ..end
        }),
        _ => None,
    }
}

/// Puts the text of the part in front in place of a text, and gives where it ends; `None` where it doesn't.
fn unquote<'a>(
    form: TextForm,
    text: &'a str,
    out: &mut String,
) -> Result<Option<Stop<'a>>, AllocError>
    ensures { IfOk result (λ found. MatchOption found (read (form_of form) Start text.now ≡ None)
        (IsUnquoted form text.now (string_bytes out.new))) }
{
    out.clear();
    let mut place = Place::Start;
    let mut left = text;
    while let Some(stop) = next_stop(form, place, left) {
        if !stop.run.is_empty() {
            out.push_str(stop.run)?;
        }
        left = stop.rest;
        match stop.cell {
            Cell::Pass(next) => place = next,
            _ => return Ok(Some(stop)),
        }
    }
    Ok(None)
}

/// The next part of a text, as [`Parts::next_borrowed`] finds it.
#[derive(Clone, Copy, Drop)]
pub enum Part<'a> {
    /// It is null or absent.
    Nothing,
    /// These bytes, which are one run of the text.
    Plain(&'a str),
    /// The bytes that were put into the given text.
    Unquoted,
}

impl<'a> Part<'a> {
    /// The part, if `text` is the one that was given; `None` if it is null or absent.
    #[inline(always)]
    pub fn in_text<'t>(self, text: &'t str) -> Option<&'t str>
    where
        'a: 't,
        ensures { option_copied result ≡ part_value self.entry text.now }
    {
        match self {
            Part::Nothing => None,
            Part::Plain(run) => Some(run),
            Part::Unquoted => Some(text),
        }
    }
}

/// The part in front, borrowed if its bytes are one run of the text, else put into the given text, and where it ends;
/// `None` where it doesn't.
#[inline(always)]
pub(crate) fn part_in_front<'a>(
    form: TextForm,
    text: &'a str,
    out: &mut String,
) -> Result<Option<(Part<'a>, Stop<'a>)>, AllocError>
    // Only for a part that is copied memory is asked for.
    ensures { MatchResult result
        (λ found. MatchOption found (read (form_of form) Start text.now ≡ None)
        (λ p. IsPartInFront form text.now p.0 (string_bytes out.new) p.1))
        (λ _. as_it_is (form_of form) text.now ≡ false) }
{
    if let Some(stop) = one_run(form, text) {
        let part = if is_nothing(form, text) {
            Part::Nothing
        } else {
            Part::Plain(stop.run)
        };
        return Ok(Some((part, stop)));
    }
    // What is null or absent is one run.
    match unquote(form, text, out)? {
        Some(stop) => Ok(Some((Part::Unquoted, stop))),
        None => Ok(None),
    }
}

/// The parts of a text that are still to come. It takes no memory of its own.
#[derive(Clone, Copy, Drop)]
pub struct Parts<'a> {
    form: TextForm,
    lower_included: bool,
    upper_included: bool,
    /// How many parts are to come.
    count: usize,
    /// These parts and the closing bracket; empty after the last part.
    rest: &'a str,
    /// Whether the text is that of the empty range.
    of_empty: bool,
    ghost counted: { count ≡ length (values_left form rest.now) },
}

impl<'a> Parts<'a> {
    ghost use Rattle.pgv_text.specs.PartsView.{AreBounded, ArePartsOf, HasBracketsOf, HasEnded, StillComes, Takes, copies, is_of_empty, nest};

    /// The parts of a text; `None` if the text isn't in the form. The empty range has no parts.
    #[tactic(auto, using(crate::proofs::Contents::empty_parts, crate::proofs::Contents::nest_parts))]
    pub fn new(form: TextForm, text: &'a str) -> Option<Self>
        // What is computed of the text is what it denotes, by the laws `nest_is_computed` and `range_is_computed`.
        ensures { MatchOption result (content_of form (chars text.now) ≡ None)
            (ArePartsOf form text.now) }
    {
        if is_empty_range(form, text) {
            return Some(Parts::of_empty_range());
        }
        Parts::begun(form, text)
    }

    /// No parts, of the empty range.
    fn of_empty_range() -> Self
        ensures { (is_of_empty result ≡ true) × (nest result ≡ no_parts) }
    {
        Parts {
            form: TextForm::Range,
            lower_included: false,
            upper_included: false,
            count: 0,
            rest: "",
            of_empty: true,
        }
    }

    /// As [`new`](Parts::new), for a text between brackets; the contract speaks of bytes.
    fn begun(form: TextForm, text: &'a str) -> Option<Self>
        ensures { MatchOption result (nest_read (form_of form) text.now ≡ None)
            (AreBounded form text.now) }
    {
        let (opening, rest) = after_opening(form, text)?;
        let (count, closing) = part_count(form, rest)?;
        let (count, rest) = match form {
            TextForm::Array if closes_here(rest) => (0, ""),
            TextForm::Range if count != 2 => return None,
            _ => (count, rest),
        };
        Some(Parts {
            form,
            lower_included: opening == b'[',
            upper_included: closing == b']',
            count,
            rest,
            of_empty: false,
        })
    }

    /// Whether the text is that of the empty range; taking parts does not change it.
    pub fn is_empty_range(&self) -> bool
        ensures { result ≡ is_of_empty self.now }
    {
        self.of_empty
    }

    /// Whether the lower and the upper bracket include the bound: only square brackets of a range do.
    pub fn includes(&self) -> (bool, bool)
        ensures { result ≡ ((nest self.now).lower, (nest self.now).upper) }
    {
        (self.lower_included, self.upper_included)
    }

    /// How many parts are still to come.
    pub fn len(&self) -> usize
        ensures { result ≡ length (nest self.now).values }
    {
        self.count
    }

    /// Whether no part is still to come.
    pub fn is_empty(&self) -> bool
        ensures { result ≡ (length (nest self.now).values == 0) }
    {
        self.count == 0
    }

    /// Puts the next part into a text, and returns whether it is present: a part that is null or absent leaves the text
    /// empty. `None` after the last part.
    #[inline(always)]
    pub fn next_into(&mut self, text: &mut String) -> Result<Option<bool>, AllocError>
        ensures taken { MatchResult result
            (λ found. MatchOption found
            (HasEnded self.old self.new × (string_bytes text.new ≡ []))
            (λ present. Takes (if present then Some (string_bytes text.new) else None)
            self.old self.new
            × (present ≡ false → string_bytes text.new ≡ [])))
            (λ _. StillComes self.old self.new × (string_bytes text.new ≡ [])) }
        ensures brackets { HasBracketsOf self.old self.new }
    {
        if self.count == 0 {
            text.clear();
            return Ok(None);
        }
        let found = match unquote(self.form, self.rest, text) {
            Ok(found) => found,
            Err(error) => {
                text.clear();
                return Err(error);
            }
        };
        let Some(stop) = found else {
            return Ok(None);
        };
        let present = !is_nothing(self.form, self.rest);
        if !present {
            text.clear();
        }
        self.count -= 1;
        self.rest = stop.rest;
        Ok(Some(present))
    }

    /// The next part: borrowed if its bytes are one run of the text, alone or in quotes, else put into the given text.
    /// `None` after the last part. If memory runs out, the parts stay as they were; a borrowed part asks for none. From
    /// the array `{a,"b c"}` come `a` and `b c`, both borrowed, and then `None`.
    #[inline(always)]
    pub fn next_borrowed(&mut self, text: &mut String) -> Result<Option<Part<'a>>, AllocError>
        // Only for a part that is copied memory is asked for.
        ensures taken { MatchResult result
            (λ found. MatchOption found (HasEnded self.old self.new)
            (λ part. Takes (part_value part (string_bytes text.new)) self.old self.new))
            (λ _. StillComes self.old self.new × (first_copied (copies self.old) ≡ true)) }
        ensures brackets { HasBracketsOf self.old self.new }
    {
        if self.count == 0 {
            return Ok(None);
        }
        let Some((part, stop)) = part_in_front(self.form, self.rest, text)? else {
            return Ok(None);
        };
        self.count -= 1;
        self.rest = stop.rest;
        Ok(Some(part))
    }

    /// The next part, in a text of its own. If memory runs out, the parts stay as they were. From the array `{a,NULL}`
    /// come `a` and null, and then `None`.
    pub fn next_part(&mut self, alloc: Global) -> Result<Option<Option<String>>, AllocError>
        ensures taken { MatchResult result
            (λ found. MatchOption found (HasEnded self.old self.new)
            (λ part. Takes (part_bytes part) self.old self.new))
            (λ _. StillComes self.old self.new) }
        ensures brackets { HasBracketsOf self.old self.new }
    {
        let mut text = String::new(alloc);
        match self.next_into(&mut text)? {
            None => Ok(None),
            Some(true) => Ok(Some(Some(text))),
            Some(false) => Ok(Some(None)),
        }
    }

    /// All parts that are still to come.
    pub fn list(self, alloc: Global) -> Result<Vec<Option<String>>, AllocError>
        ensures { MatchResult result (λ v. values_of v ≡ (nest self.entry).values)
            (λ _. (nest self.entry).values ≢ []) }
    {
        let mut parts = self;
        let mut list = Vec::with_capacity(alloc, self.len())?;
        while let Some(part) = parts.next_part(alloc)? {
            list.push(part)?;
        }
        Ok(list)
    }
}
