//! Integers (PostgreSQL, "Numeric Types"; the type "char" of "Character Types" for one byte): in two's
//! complement, the highest byte first.

ghost use Rattle.std.specs.Int.{w32, w64};
ghost use Rattle.std.specs.Prelude.{OnErr};
ghost use Rattle.pgv_codec.specs.Appending.{Encodes, Extends};
ghost use Rattle.pgv_codec.specs.Encoding.{writes};
ghost use Rattle.pgv_codec.specs.ScalarImage.{signed_image};

pub mod char;
pub mod int2;
pub mod int4;
pub mod int8;

use crate::buffer::{IsNull, PgArgumentBuffer};
use pgv_value::CodecError;

/// Appends a number in four bytes, the highest first.
#[inline(always)]
pub(crate) fn write_i32(number: i32, out: &mut PgArgumentBuffer) -> Result<IsNull, CodecError>
    ensures encodes { Encodes (writes (signed_image w32 number)) out.old out.new result }
    ensures appended { OnErr result (Extends out.old out.new) }
{
    out.extend_from_slice(&number.to_be_bytes())?;
    Ok(IsNull::No)
}

/// Appends a number in eight bytes, the highest first.
#[inline(always)]
pub(crate) fn write_i64(number: i64, out: &mut PgArgumentBuffer) -> Result<IsNull, CodecError>
    ensures encodes { Encodes (writes (signed_image w64 number)) out.old out.new result }
    ensures appended { OnErr result (Extends out.old out.new) }
{
    out.extend_from_slice(&number.to_be_bytes())?;
    Ok(IsNull::No)
}
