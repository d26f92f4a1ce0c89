//! Laws of queries of label trees and of their text. Each is the contract of a function that does nothing but look at a
//! query.

ghost use Rattle.std.specs.Prelude.{◌≡◌, ◌↔◌, ◌&&◌, List, true};
ghost use Rattle.std.specs.List.{list_all};
ghost use Rattle.std.specs.Iterator.{AlwaysYields};
ghost use Rattle.pgv_types.specs.Ty.{Ty};
ghost use Rattle.pgv_types.specs.declared.oid.Oid.{Oid};
ghost use Rattle.pgv_codec.specs.Encoding.{plainly, writes};
ghost use Rattle.pgv_codec.specs.TypeRow.{IsCodecRow};
ghost use Rattle.pgv_ltree.specs.QueryLaws.{LevelIsRead, OneLevel, OneQuery, OneVariant, PrintedQueryIsRead, QueryIsRead, ReadQueryIsReadAgain, VariantIsRead};
ghost use Rattle.pgv_ltree.specs.LevelView.{level_of};
ghost use Rattle.pgv_ltree.specs.Queries.{Level, is_count, is_level, is_query, is_variant};
ghost use Rattle.pgv_ltree.specs.QueryBackLemmas.{query_fits};
ghost use Rattle.pgv_ltree.specs.QueryCodec.{lquery, lquery_array, query_image, parse_query};

use pgv_codec::{Decode, Encode, PgHasArrayType, ReadBack, Type};

/// A `PgLQuery` is an `lquery`, known by its name: the version 1 and its text, as `01612a40` for `a*@`. Its arrays are
/// `_lquery`, known by their name. It is read back if it has a level, each level that is not a star has a variant, and
/// no `NonStar` begins with an empty label.
pub fn lquery_is_an_lquery()
    ensures row { IsCodecRow ⟦<crate::PgLQuery as Type>⟧ ⟦<crate::PgLQuery as PgHasArrayType>⟧
        ⟦<crate::PgLQuery as Encode>⟧ ⟦<crate::PgLQuery as Decode>⟧
        ⟦<crate::PgLQuery as ReadBack>⟧.kept (record {
          info = lquery;
          array = lquery_array;
          encoding = λ v. plainly (writes (query_image v));
          view = λ v. v;
          parse = parse_query;
          kept = λ v. v;
        }) }
    ensures fits { (v : List Level) (t : Ty) (os : List Oid) → query_fits v t os
        → ⟦<crate::PgLQuery as ReadBack>⟧.fits v t os }
{}

/// `variant_read` reads a variant from a text iff the grammar of lquery assigns this variant to the text.
#[tactic(auto, using(crate::proofs::LawsOfVariants::variant_is_read))]
pub fn variant_is_read()
    ensures { VariantIsRead }
{}

/// A text denotes at most one variant.
#[tactic(auto, using(crate::proofs::LawsOfVariants::one_variant))]
pub fn one_variant()
    ensures { OneVariant }
{}

/// `level_read` reads a level from a text iff the grammar of lquery assigns this level to the text.
#[tactic(auto, using(crate::proofs::LawsOfLevels::level_is_read))]
pub fn level_is_read()
    ensures { LevelIsRead }
{}

/// A text denotes at most one level.
#[tactic(auto, using(crate::proofs::LawsOfLevels::one_level))]
pub fn one_level()
    ensures { OneLevel }
{}

/// `query_read` reads a query from a text iff the grammar of lquery assigns this query to the text.
#[tactic(auto, using(crate::proofs::LawsOfQueries::query_is_read))]
pub fn query_is_read()
    ensures { QueryIsRead }
{}

/// A text denotes at most one query.
#[tactic(auto, using(crate::proofs::LawsOfQueries::one_query))]
pub fn one_query()
    ensures { OneQuery }
{}

/// A query that has a level, in which each level that is not a star has a variant and no `NonStar` begins with an empty
/// label, is read back from its printed text.
#[tactic(auto, using(crate::proofs::LawsOfQueries::printed_query_is_read))]
pub fn printed_query_is_read()
    ensures { PrintedQueryIsRead }
{}

/// A query that was read from a text, in which no `NonStar` begins with an empty label that carries `*`, is read back
/// from its printed text.
#[tactic(auto, using(crate::proofs::LawsOfQueries::read_query_is_read_again))]
pub fn read_query_is_read_again()
    ensures { ReadQueryIsReadAgain }
{}

/// Two queries are equal iff they have the same levels in the same order.
#[tactic(auto, using(crate::proofs::EqualQueries::queries_decide))]
pub fn equal_queries()
    ensures { (a b : List Level) → (⟦<crate::PgLQuery as PartialEq>⟧.eq a b ≡ true) ↔ (a ≡ b) }
{}

/// Every level in a `PgLQuery` at run time is valid: its labels are valid labels, and its counts fit in 16 bits.
#[tactic(auto, using(crate::proofs::LawsOfQueries::levels_more))]
pub fn levels_are_levels(query: &crate::PgLQuery)
    ensures { is_query query.now ≡ true }
{
    let levels = query.as_slice();
    for level in levels {
        level_is_a_level(level);
    }
}

/// Every level at run time is valid.
fn level_is_a_level(level: &crate::PgLQueryLevel)
    ensures { is_level (level_of level.now) ≡ true }
{
    match level {
        crate::PgLQueryLevel::Star(low, high) => counts_are_counts(*low, *high),
        crate::PgLQueryLevel::NonStar(variants) => variants_are_variants(variants.as_slice()),
        crate::PgLQueryLevel::NotNonStar(variants) => variants_are_variants(variants.as_slice()),
    }
}

/// The counts of a star fit in 16 bits.
fn counts_are_counts(low: Option<u16>, high: Option<u16>)
    ensures { (is_count low && is_count high) ≡ true }
{
    let _low = low.unwrap_or(0);
    let _high = high.unwrap_or(0);
}

/// Every variant in a slice at run time is valid.
#[tactic(auto, using(std::proofs::lemmas::List::Folds::list_all_more))]
fn variants_are_variants(variants: &[crate::PgLQueryVariant])
    ensures { list_all is_variant variants.now ≡ true }
{
    for variant in variants {
        let _label = variant.label();
    }
}

/// The iterator of a query gives its levels in order and then ends.
#[tactic(auto, using(crate::proofs::EqualQueries::levels_given))]
pub fn query_gives_its_levels()
    ensures { (query : List Level) (levels : _)
        → ⟦<crate::PgLQuery as IntoIterator>⟧.into_iter_gives query levels
        → AlwaysYields ⟦<std::vec::IntoIter<crate::PgLQueryLevel> as Iterator>⟧.next_gives
        level_of levels query }
{}
