//! Why no catalogue was made, or no hole filled.

ghost use Rattle.std.specs.Prelude.{◌≡◌};
ghost use Rattle.pgv_catalog.specs.declared.error.CatalogError.TheVariants.{Memory, Codec};

use pgv_types::Oid;
use pgv_value::CodecError;
use std::alloc::{AllocError, AllocFailed};
use thiserror::Error;

/// Why no catalogue was made of rows, or arguments were not filled.
#[derive(Debug, Drop, Error)]
pub enum CatalogError {
    /// A request for memory was refused.
    #[error("out of memory")]
    Memory,
    /// This type is a part of itself.
    #[error("a type that is a part of itself: {0:?}")]
    Cycle(Oid),
    /// The type of this hole, counted from 0, is not in the catalogue.
    #[error("the type of hole {0} is not in the catalogue")]
    Unknown(usize),
    /// The arguments refused what was put into them.
    #[error("{0}")]
    Codec(CodecError),
}

impl From<AllocError> for CatalogError {
    ghost from_gives = { λ _ e. e ≡ Memory };

    fn from(_error: AllocError) -> CatalogError {
        CatalogError::Memory
    }
}

impl<T: Drop> From<AllocFailed<T>> for CatalogError {
    ghost from_gives = { λ _ e. e ≡ Memory };

    fn from(_error: AllocFailed<T>) -> CatalogError {
        CatalogError::Memory
    }
}

impl From<CodecError> for CatalogError {
    ghost from_gives = { λ error e. e ≡ Codec error };

    fn from(error: CodecError) -> CatalogError {
        CatalogError::Codec(error)
    }
}
