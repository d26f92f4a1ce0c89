//! Levels, printed.

ghost use Rattle.std.specs.Prelude.{◌≡◌, ◌++◌, ◌&&◌, true, codes, IfErr, OnOk, OnErr};
ghost use Rattle.std.specs.Fmt.{decimal};
ghost use Rattle.std.specs.List.{list_all};
ghost use Rattle.pgv_ltree.specs.LevelView.{level_of};
ghost use Rattle.pgv_ltree.specs.Queries.{is_count, is_level, is_variant, none_of};
ghost use Rattle.pgv_ltree.specs.QueryPrinted.{printed_level, printed_star, printed_variants};

use super::PgLQueryLevel;
use crate::Sink;
use crate::variant::PgLQueryVariant;
use itoa::Buffer;

/// Prints a number between two texts.
fn print_count<S: Sink>(before: &str, count: u16, after: &str, out: &mut S) -> Result<(), S::Error>
    ensures ok { OnOk result (S.took out.old (before.now ++ decimal count ++ after.now) out.new) }
    ensures err { IfErr result S.refuses }
    ensures left { OnErr result (S.left out.old out.new) }
{
    let mut digits = Buffer::new();
    out.put(before)?;
    out.put(digits.format(count))?;
    out.put(after)
}

/// Prints a star of two different numbers.
fn print_both<S: Sink>(low: u16, high: u16, out: &mut S) -> Result<(), S::Error>
    ensures ok { OnOk result (S.took out.old (codes "*{" ++ decimal low ++ codes "," ++ decimal high
        ++ codes "}") out.new) }
    ensures err { IfErr result S.refuses }
    ensures left { OnErr result (S.left out.old out.new) }
{
    print_count("*{", low, ",", out)?;
    print_count("", high, "}", out)
}

/// Prints a star.
fn print_star<S: Sink>(low: Option<u16>, high: Option<u16>, out: &mut S) -> Result<(), S::Error>
    ensures counts { OnOk result ((is_count low && is_count high) ≡ true) }
    ensures ok { OnOk result (S.took out.old (printed_star low high) out.new) }
    ensures err { IfErr result S.refuses }
    ensures left { OnErr result (S.left out.old out.new) }
{
    match (low, high) {
        (None, None) => out.put("*"),
        (Some(low), None) => print_count("*{", low, ",}", out),
        (None, Some(high)) => print_count("*{,", high, "}", out),
        (Some(low), Some(high)) => {
            if low == high {
                print_count("*{", low, "}", out)
            } else {
                print_both(low, high, out)
            }
        }
    }
}

/// Prints variants, joined by `|`.
fn print_variants<S: Sink>(variants: &[PgLQueryVariant], out: &mut S) -> Result<(), S::Error>
    ensures variants { OnOk result (list_all is_variant variants.now ≡ true) }
    ensures ok { OnOk result (S.took out.old (printed_variants variants.now) out.new) }
    ensures err { IfErr result S.refuses }
    ensures left { OnErr result (S.left out.old out.new) }
{
    let [first, rest @ ..] = variants else {
        return Ok(());
    };
    first.print(out)?;
    for variant in rest {
        out.put("|")?;
        variant.print(out)?;
    }
    Ok(())
}

/// Prints variants after `!`, where there is one.
fn print_not<S: Sink>(variants: &[PgLQueryVariant], out: &mut S) -> Result<(), S::Error>
    ensures variants { OnOk result (list_all is_variant variants.now ≡ true) }
    ensures ok { OnOk result (S.took out.old (printed_level (none_of variants.now)) out.new) }
    ensures err { IfErr result S.refuses }
    ensures left { OnErr result (S.left out.old out.new) }
{
    if variants.is_empty() {
        return Ok(());
    }
    out.put("!")?;
    print_variants(variants, out)
}

impl PgLQueryLevel {
    /// Prints the level as it is read, with one number where both are equal. A level without a variant prints nothing.
    pub(crate) fn print<S: Sink>(&self, out: &mut S) -> Result<(), S::Error>
        ensures level { OnOk result (is_level (level_of self.now) ≡ true) }
        ensures ok { OnOk result (S.took out.old (printed_level (level_of self.now)) out.new) }
        ensures err { IfErr result S.refuses }
        ensures left { OnErr result (S.left out.old out.new) }
    {
        match self {
            PgLQueryLevel::Star(low, high) => print_star(*low, *high, out),
            PgLQueryLevel::NonStar(variants) => print_variants(variants.as_slice(), out),
            PgLQueryLevel::NotNonStar(variants) => print_not(variants.as_slice(), out),
        }
    }
}
