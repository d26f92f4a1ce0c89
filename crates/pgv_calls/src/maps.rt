//! Rows of calls on a map of texts.

use pgv::types::PgHstore;
use pgv_fixtures::{Again, Called, written};
use std::alloc::{AllocError, Global};

/// The pairs of words as in `name=Jane` and, for null, `name`.
fn pairs(alloc: Global, text: &str) -> Result<Vec<(String, Option<String>)>, AllocError> {
    let mut pairs = Vec::new(alloc);
    for word in text.split_ascii_whitespace() {
        let pair = match word.split_once('=') {
            Some((key, value)) => (
                String::from_str(alloc, key)?,
                Some(String::from_str(alloc, value)?),
            ),
            None => (String::from_str(alloc, word)?, None),
        };
        pairs.push(pair)?;
    }
    Ok(pairs)
}

/// The pairs of words as in `name=Jane`.
fn present_pairs(alloc: Global, text: &str) -> Result<Vec<(String, String)>, AllocError> {
    let mut pairs = Vec::new(alloc);
    for word in text.split_ascii_whitespace() {
        let (key, value) = word.split_once('=').unwrap_or((word, ""));
        pairs.push((
            String::from_str(alloc, key)?,
            String::from_str(alloc, value)?,
        ))?;
    }
    Ok(pairs)
}

/// The keys in order, of a copy that is taken apart, with `=` after those of texts.
fn keys(alloc: Global, map: &PgHstore) -> Result<String, AllocError> {
    let mut text = String::new(alloc);
    for (key, value) in map.clone()? {
        text.push_str(key.as_str())?;
        text.push_str(if value.is_some() { "= " } else { " " })?;
    }
    Ok(text)
}

/// A map that rows change.
#[derive(Drop)]
pub struct Map(pub PgHstore);

/// The map of pairs, of which those without null are after `present`.
fn map_of(alloc: Global, text: &str) -> Result<PgHstore, AllocError> {
    match text.strip_prefix("present ") {
        Some(text) => PgHstore::try_from_pairs(alloc, present_pairs(alloc, text)?),
        None => PgHstore::try_from_iter(alloc, pairs(alloc, text)?),
    }
}

/// Whether a copy is the same map.
fn is_copied(map: &PgHstore) -> Result<bool, AllocError> {
    Ok(map.clone()? == *map)
}

/// What is asked of a map: its keys, or what is written of it.
fn asked(alloc: Global, map: &PgHstore, call: &str) -> Result<String, Again> {
    match call {
        "keys" => Ok(keys(alloc, map)?),
        _ => written(alloc, map),
    }
}

impl Called for Map {
    fn holds(&mut self, alloc: Global, call: &str, wanted: &str) -> Result<bool, Again> {
        if let Some(text) = call.strip_prefix("of ") {
            self.0 = map_of(alloc, text)?;
            return Ok(wanted == "ok");
        }
        if call == "copy" {
            return Ok(is_copied(&self.0)? == (wanted == "same"));
        }
        Ok(asked(alloc, &self.0, call)?.trim_ascii_end() == wanted)
    }
}
