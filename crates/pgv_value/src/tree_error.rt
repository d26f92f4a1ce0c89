//! Why a text or binary form is not a valid label tree or query (PostgreSQL, "ltree").

ghost use Rattle.std.specs.Prelude.{◌≡◌};
ghost use Rattle.pgv_value.specs.TreeErrors.{query_refusal};
ghost use Rattle.pgv_value.specs.declared.tree_error.PgLTreeParseError.TheVariants.{Memory as OutOfMemory};
ghost use Rattle.pgv_value.specs.declared.tree_error.PgLQueryParseError.TheVariants.{Memory};

use std::alloc::{AllocError, AllocFailed};
use thiserror::Error;

/// Why a text is not a valid label or label tree.
#[derive(Clone, Copy, Debug, PartialEq, Eq, Drop, Error)]
pub enum PgLTreeParseError {
    /// A label is too long, or has another character than it may have.
    #[error("ltree label contains invalid characters")]
    InvalidLtreeLabel,
    /// The binary form does not begin with the version 1.
    #[error("ltree version not supported")]
    InvalidLtreeVersion,
    /// A request for memory was refused.
    #[error("out of memory")]
    Memory,
}

/// Why a text is not a valid query of label trees.
#[derive(Clone, Copy, Debug, PartialEq, Eq, Drop, Error)]
pub enum PgLQueryParseError {
    /// A level is empty.
    #[error("lquery cannot be empty")]
    EmptyString,
    /// A star is followed by something else than its numbers in braces.
    #[error("unexpected character in lquery")]
    UnexpectedCharacter,
    /// A number of levels is not digits, or is above 65535.
    #[error("a number of levels that is not digits up to 65535")]
    ParseIntError,
    /// A level contains an invalid label.
    #[error("error parsing integer: {0}")]
    LTreeParrseError(PgLTreeParseError),
    /// The binary form does not begin with the version 1.
    #[error("lquery version not supported")]
    InvalidLqueryVersion,
    /// A request for memory was refused.
    #[error("out of memory")]
    Memory,
}

impl From<PgLTreeParseError> for PgLQueryParseError {
    ghost from_gives = { λ e q. q ≡ query_refusal e };

    fn from(error: PgLTreeParseError) -> PgLQueryParseError {
        match error {
            PgLTreeParseError::Memory => PgLQueryParseError::Memory,
            other => PgLQueryParseError::LTreeParrseError(other),
        }
    }
}

impl From<AllocError> for PgLTreeParseError {
    ghost from_gives = { λ _ e. e ≡ OutOfMemory };

    fn from(_error: AllocError) -> PgLTreeParseError {
        PgLTreeParseError::Memory
    }
}

impl<T: Drop> From<AllocFailed<T>> for PgLTreeParseError {
    ghost from_gives = { λ _ e. e ≡ OutOfMemory };

    fn from(_error: AllocFailed<T>) -> PgLTreeParseError {
        PgLTreeParseError::Memory
    }
}

impl From<AllocError> for PgLQueryParseError {
    ghost from_gives = { λ _ e. e ≡ Memory };

    fn from(_error: AllocError) -> PgLQueryParseError {
        PgLQueryParseError::Memory
    }
}

impl<T: Drop> From<AllocFailed<T>> for PgLQueryParseError {
    ghost from_gives = { λ _ e. e ≡ Memory };

    fn from(_error: AllocFailed<T>) -> PgLQueryParseError {
        PgLQueryParseError::Memory
    }
}
