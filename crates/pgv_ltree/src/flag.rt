//! The modifiers of a variant (PostgreSQL, "ltree", lquery).

ghost use Rattle.std.specs.Prelude.{⊤, ◌≡◌, ◌∷◌, [], IfErr, OnOk, OnErr, Some, codes};
ghost use Rattle.pgv_ltree.specs.Flags.{has_bit};
ghost use Rattle.pgv_ltree.specs.QueryPrinted.{mark, printed_marks};

use crate::Sink;
use bitflags::{Flag, Flags, bitflag_items};
use std::fmt;

/// A set of modifiers: `ANY_END`, written `*`, matches any label with this prefix; `IN_CASE`, `@`, matches
/// case-insensitively; `SUBLEXEME`, `%`, matches initial underscore-separated words. `a*@` has the first two.
#[derive(Clone, Copy, Debug, PartialEq, Eq, Hash)]
pub struct PgLQueryVariantFlag(u16);

bitflag_items! {
    impl PgLQueryVariantFlag: u16 {
        const ANY_END = 1;
        const IN_CASE = 2;
        const SUBLEXEME = 4;
    }
}

impl Flags for PgLQueryVariantFlag {
    type Bits = u16;

    ghost exact = { ⊤ };

    ghost table = { (codes "ANY_END", 1) ∷ (codes "IN_CASE", 2) ∷ (codes "SUBLEXEME", 4) ∷ [] };

    ghost set_of = { λ flags. flags.0 };

    fn flags<'a>() -> &'a [Flag<PgLQueryVariantFlag>] {
        PgLQueryVariantFlag::FLAGS
    }

    fn bits(&self) -> u16 {
        self.0
    }

    fn from_bits_retain(bits: u16) -> PgLQueryVariantFlag {
        PgLQueryVariantFlag(bits)
    }
}

/// A modifier's sign where it is set.
fn sign(set: bool, text: &'static str) -> &'static str
    ensures { result.now ≡ mark set text.now }
{
    if set { text } else { "" }
}

/// Prints the modifiers that are set, in the order `*`, `@`, `%`.
pub(crate) fn print_marks<S: Sink>(
    any_end: bool,
    in_case: bool,
    sublexeme: bool,
    out: &mut S,
) -> Result<(), S::Error>
    ensures ok { OnOk result (S.took out.old (printed_marks any_end in_case sublexeme) out.new) }
    ensures err { IfErr result S.refuses }
    ensures left { OnErr result (S.left out.old out.new) }
{
    out.put(sign(any_end, "*"))?;
    out.put(sign(in_case, "@"))?;
    out.put(sign(sublexeme, "%"))
}

/// Printed as the signs of those that are set, in the order `*`, `@`, `%`.
impl fmt::Display for PgLQueryVariantFlag {
    ghost output = { λ flags. Some (printed_marks (has_bit flags.0 1) (has_bit flags.0 2) (has_bit flags.0 4)) };

    fn fmt<W: fmt::Write>(&self, f: &mut fmt::Formatter<W>) -> fmt::Result {
        print_marks(
            self.contains(PgLQueryVariantFlag::ANY_END),
            self.contains(PgLQueryVariantFlag::IN_CASE),
            self.contains(PgLQueryVariantFlag::SUBLEXEME),
            f,
        )
    }
}
