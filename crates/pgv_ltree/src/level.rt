//! The levels of a query (PostgreSQL, "ltree", lquery).

ghost use Rattle.std.specs.Prelude.{◌≡◌, false, Some, option_map};
ghost use Rattle.pgv_value.specs.declared.tree_error.PgLQueryParseError.TheVariants.{Memory};
ghost use Rattle.pgv_ltree.specs.TextsInTurn.{GivesAs, GivesRead};
ghost use Rattle.pgv_ltree.specs.LevelView.{level_of};
ghost use Rattle.pgv_ltree.specs.QueryPrinted.{printed_level};
ghost use Rattle.pgv_ltree.specs.QueryRead.{begins_with_variant, between_read, bound_read, braced, count_read, inner_read, level_allocates, level_read, star_read, variants_read};

mod print;

use crate::variant::PgLQueryVariant;
use pgv_value::PgLQueryParseError;
use std::alloc::{AllocError, Global};
use std::fmt;

/// A level of a query.
#[derive(Debug, Drop)]
pub enum PgLQueryLevel {
    /// `*`: any labels, at least and at most as many as the numbers say, if they are given.
    Star(Option<u16>, Option<u16>),
    /// A label of one of the variants, as `a|b*`.
    NonStar(Vec<PgLQueryVariant>),
    /// A label of none of the variants, as `!a|b*`.
    NotNonStar(Vec<PgLQueryVariant>),
}

/// The number of a text of digits.
fn count_of(text: &str) -> Result<u16, PgLQueryParseError>
    ensures { result ≡ count_read text.now }
{
    if text.starts_with('+') {
        return Err(PgLQueryParseError::ParseIntError);
    }
    match text.parse::<u16>() {
        Ok(count) => Ok(count),
        Err(_) => Err(PgLQueryParseError::ParseIntError),
    }
}

/// A number that may be missing.
fn bound_of(text: &str) -> Result<Option<u16>, PgLQueryParseError>
    ensures { result ≡ bound_read text.now }
{
    if text.is_empty() {
        return Ok(None);
    }
    Ok(Some(count_of(text)?))
}

/// The star of two numbers, one of which may be missing.
fn between(least: &str, most: &str) -> Result<PgLQueryLevel, PgLQueryParseError>
    ensures { GivesAs level_of (between_read least.now most.now) result }
{
    if most.as_bytes().contains(&b',') || (least.is_empty() && most.is_empty()) {
        return Err(PgLQueryParseError::UnexpectedCharacter);
    }
    let least = bound_of(least)?;
    let most = bound_of(most)?;
    Ok(PgLQueryLevel::Star(least, most))
}

/// The star of the numbers between braces.
fn counts_of(inner: &str) -> Result<PgLQueryLevel, PgLQueryParseError>
    ensures { GivesAs level_of (inner_read (Some inner.now)) result }
{
    match inner.split_once(',') {
        Some((least, most)) => between(least, most),
        None => {
            let count = count_of(inner)?;
            Ok(PgLQueryLevel::Star(Some(count), Some(count)))
        }
    }
}

/// What is between braces.
fn inside(text: &str) -> Option<&str>
    ensures { option_map (λ inner. inner.now) result ≡ braced text.now }
{
    text.strip_prefix('{')?.strip_suffix('}')
}

/// The star of what comes after it.
fn star_of(text: &str) -> Result<PgLQueryLevel, PgLQueryParseError>
    ensures { GivesAs level_of (star_read text.now) result }
{
    if text.is_empty() {
        return Ok(PgLQueryLevel::Star(None, None));
    }
    match inside(text) {
        Some(inner) => counts_of(inner),
        None => Err(PgLQueryParseError::UnexpectedCharacter),
    }
}

/// The variants of a text.
fn variants_of(alloc: Global, text: &str) -> Result<Vec<PgLQueryVariant>, PgLQueryParseError>
    ensures { GivesRead (λ variants. variants.items) Memory (begins_with_variant text.now)
        (variants_read text.now) result }
{
    let mut variants = Vec::new(alloc);
    for variant in text.split('|') {
        variants.push(PgLQueryVariant::from_str(alloc, variant)?)?;
    }
    Ok(variants)
}

impl PgLQueryLevel {
    /// The level of a text: a star, perhaps with one or two numbers in braces, as `*{2}`, `*{2,}`, `*{,3}` and
    /// `*{2,3}`; or variants, joined by `|`, perhaps after `!`. The empty text is refused with EmptyString; another
    /// that begins with `*` with UnexpectedCharacter, or with ParseIntError where a number is not digits up to 65535;
    /// and an invalid variant with LTreeParrseError. A text that begins with `*` takes no memory, whether it is a star
    /// or not, and an invalid first variant is refused before memory is asked for.
    pub fn from_str(alloc: Global, text: &str) -> Result<PgLQueryLevel, PgLQueryParseError>
        ensures { GivesRead level_of Memory (level_allocates text.now)
            (level_read text.now) result }
    {
        if text.is_empty() {
            return Err(PgLQueryParseError::EmptyString);
        }
        if let Some(star) = text.strip_prefix('*') {
            return star_of(star);
        }
        if let Some(others) = text.strip_prefix('!') {
            return Ok(PgLQueryLevel::NotNonStar(variants_of(alloc, others)?));
        }
        Ok(PgLQueryLevel::NonStar(variants_of(alloc, text)?))
    }
}

/// Two levels are equal iff they are of one kind and have the same numbers, or the same variants in the same order.
impl PartialEq for PgLQueryLevel {
    ghost use Rattle.pgv_ltree.specs.SameLevels.{mean_the_same, mean_the_same_per};

    ghost eq = { mean_the_same };

    ghost laws = { mean_the_same_per };

    fn eq(&self, other: &PgLQueryLevel) -> bool {
        match (self, other) {
            (PgLQueryLevel::Star(low, high), PgLQueryLevel::Star(least, most)) => {
                low == least && high == most
            }
            (PgLQueryLevel::NonStar(ours), PgLQueryLevel::NonStar(theirs)) => ours == theirs,
            (PgLQueryLevel::NotNonStar(ours), PgLQueryLevel::NotNonStar(theirs)) => ours == theirs,
            _ => false,
        }
    }
}

impl Eq for PgLQueryLevel {
    ghost use Rattle.pgv_ltree.specs.SameLevels.{mean_the_same_equiv};

    ghost laws = { mean_the_same_equiv };
}

impl Clone for PgLQueryLevel {
    ghost is_clone = { λ l copy. level_of copy ≡ level_of l };

    fn clone(&self) -> Result<PgLQueryLevel, AllocError> {
        Ok(match self {
            PgLQueryLevel::Star(low, high) => PgLQueryLevel::Star(*low, *high),
            PgLQueryLevel::NonStar(variants) => PgLQueryLevel::NonStar(variants.clone()?),
            PgLQueryLevel::NotNonStar(variants) => PgLQueryLevel::NotNonStar(variants.clone()?),
        })
    }
}

/// Printed as it is read, with one number where both are equal. A level without a variant prints nothing.
impl fmt::Display for PgLQueryLevel {
    ghost output = { λ l. Some (printed_level (level_of l)) };

    fn fmt<W: fmt::Write>(&self, f: &mut fmt::Formatter<W>) -> fmt::Result {
        self.print(f)
    }
}
