//! The end of a body.

ghost use Rattle.std.specs.Prelude.{◌≡◌, ◌==◌, length, true, false, MatchResult};
ghost use Rattle.pgv_value.specs.declared.error.CodecError.TheVariants.{WrongLength};

use pgv_value::CodecError;

/// That nothing of a body is left. A rest is refused with [`WrongLength`](CodecError::WrongLength) (C17).
pub fn check_end(body: &[u8], rest: &[u8]) -> Result<(), CodecError>
    ensures { MatchResult result (λ _. (length rest.now == 0) ≡ true)
        (λ e. ((length rest.now == 0) ≡ false) × (e ≡ WrongLength (length body.now))) }
{
    if !rest.is_empty() {
        return Err(CodecError::WrongLength(body.len()));
    }
    Ok(())
}
