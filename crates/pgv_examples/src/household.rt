//! A composite type with an array in it: `create type household as (number int4, moods mood[])`.

use crate::mood::Mood;
use pgv::{CodecError, Composite, IsNull, PgArgumentBuffer, PgEnum, encode_record};

/// A number and moods: the type of the elements has no OID, and neither has that of their array.
#[derive(Drop)]
pub struct Household {
    /// The first field, an `int4`.
    pub number: i32,
    /// The second field, an array.
    pub moods: Vec<PgEnum<Mood>>,
}

impl Composite for Household {
    ghost use Rattle.std.specs.Prelude.{codes, refl};

    type Fields = (i32, (Vec<PgEnum<Mood>>,));

    ghost name = { codes "household" };

    ghost fields_of = { λ v. (v.number, record { 0 = v.moods }) };

    ghost made = { λ fields. record { number = fields.0; moods = fields.1.0 } };

    ghost made_of = { λ _. refl };

    fn name() -> &'static str {
        "household"
    }

    fn encode_fields(&self, out: &mut PgArgumentBuffer) -> Result<IsNull, CodecError> {
        encode_record(&(&self.number, (&self.moods,)), out)
    }

    fn from_fields((number, (moods,)): (i32, (Vec<PgEnum<Mood>>,))) -> Household {
        Household { number, moods }
    }
}
