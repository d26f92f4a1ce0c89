//! A slot: bytes that depend on the type of the parameter.
//!
//! The values of `jsonb` begin with a version, and those of `json` don't. Which one a parameter is, the server says
//! once the statement is known; a slot holds the bytes for each case, and `apply_patches` fills it. Documents of both
//! types, in [`json`](crate::json), begin with this one.

ghost use Rattle.std.specs.Prelude.{◌≡◌, ◌++◌, [], ◌∷◌, OnOk, IfErr};
ghost use Rattle.pgv.specs.Words.{builtin, blank, slot};
ghost use Rattle.pgv_examples.specs.Jsons as spec;

use pgv::{CodecError, PgArgumentBuffer, PgType, PgTypeInfo};
use std::alloc::Global;

/// Appends a slot: a version where the parameter is `jsonb`, and else a space. A refusal leaves the buffer.
pub fn push_version(alloc: Global, out: &mut PgArgumentBuffer) -> Result<(), CodecError>
    ensures ok { OnOk result (out.new ≡ out.old
        ++ blank (slot (32 ∷ []) ((builtin 3802, 1 ∷ []) ∷ []) ∷ [])) }
    ensures err { IfErr result (λ e. (e ≡ CodecError.Memory) × (out.new ≡ out.old)) }
{
    let mut version = Vec::new(alloc);
    version.push(1)?;
    let mut cases = Vec::new(alloc);
    cases.push((PgTypeInfo(PgType::Jsonb), version))?;
    out.push_slot(b" ", cases)
}

/// The bytes of a document after a version, or after the space in its place.
pub fn after_version(bytes: &[u8]) -> &[u8]
    ensures { result.now ≡ spec.after_version bytes.now }
{
    match bytes {
        [1 | b' ', text @ ..] => text,
        _ => bytes,
    }
}
