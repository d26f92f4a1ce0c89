//! A domain: `create domain email as text`. A value is written and read as a [`PgDomain<Email>`](pgv::PgDomain), as its
//! text is.

use pgv::{Domain, Newtype};

/// An address for letters.
#[derive(Drop)]
pub struct Email(pub String);

impl Newtype for Email {
    ghost use Rattle.std.specs.Prelude.{refl};

    type Base = String;

    ghost base = { λ email. email.0 };

    ghost made = { λ address. record { 0 = address } };

    ghost made_of = { λ _. refl };

    fn as_base(&self) -> &String {
        &self.0
    }

    fn from_base(address: String) -> Email {
        Email(address)
    }
}

impl Domain for Email {
    ghost use Rattle.std.specs.Prelude.{codes};

    ghost name = { codes "email" };

    fn name() -> &'static str {
        "email"
    }
}
