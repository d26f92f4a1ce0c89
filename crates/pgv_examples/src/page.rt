//! A composite type by its fields: `create type page as (id int4, path ltree)`. A value is written and read as a
//! [`PgComposite<Page>`](pgv::PgComposite).

use pgv::types::PgLTree;
use pgv::{CodecError, Composite, IsNull, PgArgumentBuffer, encode_record};

/// A page of a site: a number, and the labels of its place in the tree.
#[derive(Drop)]
pub struct Page {
    /// The first field, an `int4`.
    pub id: i32,
    /// The second field, of a type without an OID.
    pub path: PgLTree,
}

impl Composite for Page {
    ghost use Rattle.std.specs.Prelude.{codes, refl};

    type Fields = (i32, (PgLTree,));

    ghost name = { codes "page" };

    ghost fields_of = { λ page. (page.id, record { 0 = page.path }) };

    ghost made = { λ fields. record { id = fields.0; path = fields.1.0 } };

    ghost made_of = { λ _. refl };

    fn name() -> &'static str {
        "page"
    }

    fn encode_fields(&self, out: &mut PgArgumentBuffer) -> Result<IsNull, CodecError> {
        encode_record(&(&self.id, (&self.path,)), out)
    }

    fn from_fields((id, (path,)): (i32, (PgLTree,))) -> Page {
        Page { id, path }
    }
}
