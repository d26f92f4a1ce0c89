//! Rows of calls on a query of label trees.

use pgv::CodecError;
use pgv::types::{PgLQuery, PgLQueryLevel, PgLQueryVariant};
use pgv_fixtures::{Again, Called, same, told};
use std::alloc::{AllocError, Global};

/// The query of these levels.
fn query_of(alloc: Global, levels: &str) -> Result<PgLQuery, CodecError> {
    Ok(PgLQuery::try_from_iter(alloc, levels.split_ascii_whitespace())?)
}

/// The query of copies of a copy's levels.
fn again(alloc: Global, query: &PgLQuery) -> Result<PgLQuery, AllocError> {
    let mut levels = Vec::new(alloc);
    for level in query.clone()? {
        levels.push(level.clone()?)?;
    }
    PgLQuery::try_collect(alloc, levels)
}

/// Appends the level of this text.
fn push(alloc: Global, query: &mut PgLQuery, level: &str) -> Result<(), CodecError> {
    let level = PgLQueryLevel::from_str(alloc, level)?;
    Ok(query.push(level)?)
}

/// Appends the level that isn't one of the copy of a variant.
fn push_not(alloc: Global, query: &mut PgLQuery, variant: &str) -> Result<(), CodecError> {
    let variant = PgLQueryVariant::from_str(alloc, variant)?;
    Ok(query.push(none_of(alloc, &variant)?)?)
}

/// The level that isn't one of the copy of a variant.
fn none_of(alloc: Global, variant: &PgLQueryVariant) -> Result<PgLQueryLevel, AllocError> {
    let variants = Vec::from_array(alloc, [variant.clone()?])?;
    Ok(PgLQueryLevel::NotNonStar(variants))
}

/// The text of the last level, which is taken off a copy, or `none`.
fn last(alloc: Global, query: &PgLQuery) -> Result<String, CodecError> {
    match query.clone()?.pop() {
        Some(level) => Ok(format!(in alloc; "{level}")?),
        None => Ok(String::from_str(alloc, "none")?),
    }
}

/// What is printed of a query.
fn shown(alloc: Global, query: &PgLQuery) -> Result<String, CodecError> {
    Ok(format!(in alloc; "{query}")?)
}

/// Whether a level is appended so.
fn pushed(alloc: Global, query: &mut PgLQuery, level: &str, wanted: &str) -> Result<bool, Again> {
    let before = query.clone()?;
    let answer = match level.strip_prefix("not ") {
        Some(variant) => push_not(alloc, query, variant),
        None => push(alloc, query, level),
    };
    told(answer, *query == before, wanted)
}

/// Puts the query of these levels in the place of another.
fn replace(alloc: Global, query: &mut PgLQuery, levels: &str) -> Result<(), CodecError> {
    *query = query_of(alloc, levels)?;
    Ok(())
}

/// Whether the query of copies of its levels is the same.
fn is_again(alloc: Global, query: &PgLQuery) -> Result<bool, AllocError> {
    Ok(again(alloc, query)? == *query)
}

/// A query that rows change.
#[derive(Drop)]
pub struct Query(pub PgLQuery);

impl Called for Query {
    fn holds(&mut self, alloc: Global, call: &str, wanted: &str) -> Result<bool, Again> {
        let query = &mut self.0;
        if let Some(level) = call.strip_prefix("push ") {
            return pushed(alloc, query, level, wanted);
        }
        if let Some(levels) = call.strip_prefix("of ") {
            return told(replace(alloc, query, levels), true, wanted);
        }
        match call {
            "pop" => Ok(query.pop().is_some() == (wanted == "some")),
            "again" => Ok(is_again(alloc, query)? == (wanted == "same")),
            "last" => same(last(alloc, query), wanted),
            _ => same(shown(alloc, query), wanted),
        }
    }
}
