//! A composite in a composite, with a field that may be null: `create type shipment as (page page, note text)`. The
//! composite comes first: as the last field it is proved in five times the time.

use crate::page::Page;
use pgv::{CodecError, Composite, IsNull, PgArgumentBuffer, PgComposite, encode_record};

/// What is sent: a page, and a note or null.
#[derive(Drop)]
pub struct Shipment {
    /// The first field, a composite.
    pub page: PgComposite<Page>,
    /// The second field, a `text` that may be null.
    pub note: Option<String>,
}

impl Composite for Shipment {
    ghost use Rattle.std.specs.Prelude.{codes, refl};

    type Fields = (PgComposite<Page>, (Option<String>,));

    ghost name = { codes "shipment" };

    ghost fields_of = { λ v. (v.page, record { 0 = v.note }) };

    ghost made = { λ fields. record { page = fields.0; note = fields.1.0 } };

    ghost made_of = { λ _. refl };

    fn name() -> &'static str {
        "shipment"
    }

    fn encode_fields(&self, out: &mut PgArgumentBuffer) -> Result<IsNull, CodecError> {
        encode_record(&(&self.page, (&self.note,)), out)
    }

    fn from_fields((page, (note,)): (PgComposite<Page>, (Option<String>,))) -> Shipment {
        Shipment { page, note }
    }
}
