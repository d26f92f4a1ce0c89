//! What the program is asked for.

use crate::fault::Fault;
use std::alloc::Global;
use std::env::{self, Env, VarError};

/// How rows are shown.
#[derive(Clone, Copy)]
pub enum Shown {
    /// As texts with a tab between two.
    Texts,
    /// As objects.
    Objects,
    /// As the frames that the codec writes of their values. Parameters are bytes too.
    Frames,
    /// As the fields of a COPY.
    Copied,
}

/// A statement and how its rows are shown.
#[derive(Drop)]
pub struct Options {
    /// How rows are shown.
    pub shown: Shown,
    /// The statement.
    pub sql: String,
    /// The words of its parameters, `None` for null.
    pub parameters: Vec<Option<String>>,
}

/// What is asked for.
#[derive(Drop)]
pub enum Asked {
    /// How the program is used.
    Help,
    /// Which version it is.
    Version,
    /// A statement.
    Run(Options),
}

/// The text of a parameter, or null.
fn parameter_of(word: String) -> Option<String> {
    if word.as_str() == "\\N" {
        return None;
    }
    Some(word)
}

impl Options {
    /// What the arguments of the program ask for.
    pub fn read(rt: &(impl AllocGlobal + Env)) -> Result<Asked, Fault> {
        let mut words = env::args(rt).or(Err(Fault::Usage))?;
        let _name = words.next();
        let mut shown = Shown::Texts;
        for word in words.by_ref() {
            match word.as_str() {
                "--help" => return Ok(Asked::Help),
                "--version" => return Ok(Asked::Version),
                "--json" => shown = Shown::Objects,
                "--binary" => shown = Shown::Frames,
                "--copy" => shown = Shown::Copied,
                text if text.starts_with("--") => return Err(Fault::Usage),
                _ => return Options::with_words(rt.alloc(), shown, word, words),
            }
        }
        Err(Fault::Usage)
    }

    /// The same, with the statement and the words after it.
    fn with_words(
        alloc: Global,
        shown: Shown,
        sql: String,
        words: env::Args,
    ) -> Result<Asked, Fault> {
        let mut parameters = Vec::new(alloc);
        for word in words {
            parameters.push(parameter_of(word))?;
        }
        Ok(Asked::Run(Options {
            shown,
            sql,
            parameters,
        }))
    }
}

/// A variable of the environment, or else this.
pub fn variable_or(
    rt: &(impl AllocGlobal + Env),
    name: &str,
    default: &str,
) -> Result<String, Fault> {
    match env::var(rt, name) {
        Ok(text) => Ok(text),
        Err(VarError::OutOfMemory) => Err(Fault::Memory),
        Err(_) => Ok(String::from_str(rt.alloc(), default)?),
    }
}
