//! Rows that are read by calls, at the Rust type of a name.

use crate::fault::Fault;
use crate::mutants::{fronts, mutants};
use crate::tally::{Outcome, Tally};
use crate::trial::{read_again, read_framed, read_only};
use pgv::{Decode, Encode, PgTypeInfo, PgValueFormat, PgValueRef, Type};
use pgv_fixtures::{AtType, at_type, type_of};
use std::alloc::Global;
use std::fmt::Debug;

/// What comes of values of this type. Lists of tuples, lists of arrays, tuples and `()` are only read.
#[derive(Drop)]
struct Tried<'a>(&'a PgTypeInfo);

impl<'a> AtType for Tried<'a> {
    type Answer = Outcome;

    fn shown<T: Decode + Encode + Type + Debug>(
        &self,
        alloc: Global,
        value: PgValueRef<'_>,
    ) -> Outcome {
        read_again::<T>(alloc, value, self.0)
    }

    fn whole<T: Decode + Encode + Type>(&self, alloc: Global, value: PgValueRef<'_>) -> Outcome {
        read_again::<T>(alloc, value, self.0)
    }

    fn part<T: Decode + Encode>(&self, alloc: Global, value: PgValueRef<'_>) -> Outcome {
        read_framed::<T>(alloc, value, self.0)
    }

    fn read<T: Decode + Debug>(&self, alloc: Global, value: PgValueRef<'_>) -> Outcome {
        read_only::<T>(alloc, value)
    }
}

/// Counts what comes of each of these bytes at the Rust type of the name, under the type of the name.
fn count(
    alloc: Global,
    names: (&str, &str),
    mutants: &[Vec<u8>],
    format: PgValueFormat,
    tally: &mut Tally,
) -> Result<(), Fault> {
    let (name, type_name) = names;
    let info = type_of(alloc, type_name)?;
    for bytes in mutants {
        let value = PgValueRef::new(Some(bytes.as_slice()), info.clone()?, format);
        tally.count(at_type(&Tried(&info), alloc, name, value).ok_or(Fault::Row)?);
    }
    Ok(())
}

/// The bytes of hex digits.
fn bytes_of(alloc: Global, digits: &str) -> Result<Vec<u8>, Fault> {
    hex::decode(alloc, digits.as_bytes()).or(Err(Fault::Row))
}

/// What the part `b HEX`, `t TEXT` or `x HEX`, a text in hex, is changed to: the mutants of the bytes, or the fronts of
/// the text.
fn changed(alloc: Global, part: &str) -> Result<(Vec<Vec<u8>>, PgValueFormat), Fault> {
    let (form, given) = part.split_once(' ').ok_or(Fault::Row)?;
    match form {
        "b" => {
            let bytes = bytes_of(alloc, given)?;
            Ok((mutants(alloc, bytes.as_slice())?, PgValueFormat::Binary))
        }
        "t" => Ok((fronts(alloc, given.as_bytes())?, PgValueFormat::Text)),
        "x" => {
            let text = bytes_of(alloc, given)?;
            Ok((fronts(alloc, text.as_slice())?, PgValueFormat::Text))
        }
        _ => Err(Fault::Row),
    }
}

/// The row `RUST | TYPE | PART`.
pub fn call(alloc: Global, row: &str, tally: &mut Tally) -> Result<(), Fault> {
    let (name, rest) = row.split_once(" | ").ok_or(Fault::Row)?;
    let (type_name, part) = rest.split_once(" | ").ok_or(Fault::Row)?;
    let (mutants, format) = changed(alloc, part)?;
    count(alloc, (name, type_name), mutants.as_slice(), format, tally)
}
