//! A newtype over a number. A value is written and read as a [`PgNewtype<UserId>`](pgv::PgNewtype), as its number is.

use pgv::Newtype;

/// The number of a user, an `int4`.
#[derive(Clone, Copy, Debug, PartialEq, Eq)]
pub struct UserId(pub i32);

impl Newtype for UserId {
    ghost use Rattle.std.specs.Prelude.{refl};

    type Base = i32;

    ghost base = { λ id. id.0 };

    ghost made = { λ number. record { 0 = number } };

    ghost made_of = { λ _. refl };

    fn as_base(&self) -> &i32 {
        &self.0
    }

    fn from_base(number: i32) -> UserId {
        UserId(number)
    }
}
