//! Queries of label trees (PostgreSQL, "ltree", lquery).

ghost use Rattle.std.specs.Prelude.{◌≡◌, ◌⊎◌, ◌↔◌, ◌<◌, ◌++◌, ◌∷◌, [], List, ℕ, length, map, MatchResult, IfErr, OnOk, OnErr, IsSome, Ok, Err, Some, option_map, true};
ghost use Rattle.std.specs.Iterator.{Drains, IsFinite, YieldsThen};
ghost use Rattle.std.specs.Option.{option_to_list};
ghost use Rattle.std.specs.Vec.Iter.{into_iter_items, into_iter_len};
ghost use Rattle.pgv_value.specs.declared.tree_error.PgLQueryParseError.TheVariants.{Memory};
ghost use Rattle.pgv_ltree.specs.TextsInTurn.{GivesRead, read_each};
ghost use Rattle.pgv_ltree.specs.LevelView.{level_of};
ghost use Rattle.pgv_ltree.specs.Queries.{is_query};
ghost use Rattle.pgv_ltree.specs.QueryPrinted.{printed_query};
ghost use Rattle.pgv_ltree.specs.QueryRead.{begins_level, begins_with_level, level_read, query_read};
ghost use Rattle.pgv_ltree.specs.QueryTaken.{GivesAfterRead, GivesTexts};

mod codec;

use crate::Sink;
use crate::level::PgLQueryLevel;
use pgv_value::PgLQueryParseError;
use std::alloc::{AllocError, Global};
use std::fmt;
use std::marker::Model;

/// A query of label trees, level after level, such as `Top.*{0,2}.sport*@.!football|tennis`.
///
/// A contract sees it as the list of its levels. A query from a server has one level or more; a query that is made here
/// may have none.
#[derive(Debug)]
pub struct PgLQuery {
    levels: Vec<PgLQueryLevel>,
}

/// Its parts go. It is written out since a derived one is proved again in each crate above.
impl Drop for PgLQuery {
    #[inline(always)]
    fn drop(self) {
        let PgLQuery { levels: _ } = self;
    }
}

impl Model for PgLQuery {
    ghost use Rattle.std.specs.Prelude.{List, map};
    ghost use Rattle.std.specs.Coded.{coded_list};
    ghost use Rattle.pgv_ltree.specs.LevelView.{level_of};
    ghost use Rattle.pgv_ltree.specs.Queries.{Level};
    ghost use Rattle.pgv_ltree.specs.QueryCode.{level_code};

    ghost Value = { List Level };

    ghost coded = { coded_list level_code };

    ghost view = { λ query. map level_of query.levels.items };
}

impl PgLQuery {
    /// A query without levels. It takes no memory yet.
    pub fn new(alloc: Global) -> PgLQuery
        ensures { result ≡ [] }
    {
        PgLQuery {
            levels: Vec::new(alloc),
        }
    }

    /// The query of these levels.
    pub fn from(levels: Vec<PgLQueryLevel>) -> PgLQuery
        ensures { result ≡ map level_of levels.items }
    {
        PgLQuery { levels }
    }

    /// The query whose levels are these texts. It fails at the first that is not a valid level.
    pub fn try_from_iter<'a, I: IntoIterator<Item = &'a str>>(
        alloc: Global,
        levels: I,
    ) -> Result<PgLQuery, PgLQueryParseError>
        requires { (it : I.IntoIter) → I.into_iter_gives levels it → I.IntoIter.can_next it
            × IsFinite (I.IntoIter.remaining it) }
        // Every text was taken, and is the level at its place. Or the text that was taken last, after levels, is no
        // level; or it begins as one, and there was no memory for it.
        ensures { MatchResult result (λ query. (it : I.IntoIter) × (texts : List (List ℕ))
            × I.into_iter_gives levels it × GivesTexts I.IntoIter.next_gives it texts
            × (read_each level_read texts ≡ Ok query))
            (λ e. (it : I.IntoIter) × (text : List ℕ)
            × I.into_iter_gives levels it × GivesAfterRead level_read I.IntoIter.next_gives it text
            × ((level_read text ≡ Err e) ⊎ ((e ≡ Memory) × (begins_level text ≡ true)))) }
    {
        let mut query = PgLQuery::new(alloc);
        for level in levels {
            query.push(PgLQueryLevel::from_str(alloc, level)?)?;
        }
        Ok(query)
    }

    /// The query of these levels, one after another.
    pub fn try_collect<I: IntoIterator<Item = PgLQueryLevel>>(
        alloc: Global,
        levels: I,
    ) -> Result<PgLQuery, AllocError>
        requires { (it : I.IntoIter) → I.into_iter_gives levels it → I.IntoIter.can_next it
            × IsFinite (I.IntoIter.remaining it) }
        // Every level was taken; or memory was asked for one.
        ensures { MatchResult result (λ query. (it : I.IntoIter) × (taken : List PgLQueryLevel)
            × I.into_iter_gives levels it × Drains I.IntoIter.next_gives it taken
            × (query ≡ map level_of taken))
            (λ _. (it : I.IntoIter) × (taken : List _) × (last : _)
            × (after : I.IntoIter) × I.into_iter_gives levels it
            × YieldsThen I.IntoIter.next_gives it taken (Some last) after) }
    {
        let mut query = PgLQuery::new(alloc);
        for level in levels {
            query.push(level)?;
        }
        Ok(query)
    }

    /// The query of a text: levels joined by `.`. It is refused as its first invalid level is, before memory is asked
    /// for if that is the first level and its beginning is invalid.
    pub fn from_str(alloc: Global, text: &str) -> Result<PgLQuery, PgLQueryParseError>
        ensures { GivesRead (λ query. query) Memory (begins_with_level text.now)
            (query_read text.now) result }
    {
        let mut levels = Vec::new(alloc);
        for level in text.split('.') {
            levels.push(PgLQueryLevel::from_str(alloc, level)?)?;
        }
        Ok(PgLQuery { levels })
    }

    /// Appends a level. If memory runs out, the query stays as it was.
    pub fn push(&mut self, level: PgLQueryLevel) -> Result<(), AllocError>
        ensures ok { OnOk result (self.new ≡ self.old ++ level_of level ∷ []) }
        ensures err { OnErr result (self.new ≡ self.old) }
    {
        self.levels.push(level)?;
        Ok(())
    }

    /// Removes the last level and returns it, if there is one.
    pub fn pop(&mut self) -> Option<PgLQueryLevel>
        ensures levels { self.old ≡ self.new ++ option_to_list (option_map level_of result) }
        ensures variant { IsSome result ↔ (0 < length self.old) }
    {
        self.levels.pop()
    }

    /// The levels, in order.
    pub fn as_slice(&self) -> &[PgLQueryLevel]
        ensures { map level_of result.now ≡ self.now }
    {
        self.levels.as_slice()
    }
}

/// Gives the levels one after another.
impl IntoIterator for PgLQuery {
    type Item = PgLQueryLevel;

    type IntoIter = std::vec::IntoIter<PgLQueryLevel>;

    ghost into_iter_gives = { λ query levels. (map level_of (into_iter_items levels) ≡ query) × (into_iter_len levels ≡ length query) };

    fn into_iter(self) -> std::vec::IntoIter<PgLQueryLevel> {
        let PgLQuery { levels } = self;
        levels.into_iter()
    }
}

/// Two queries are equal iff they have the same levels.
impl PartialEq for PgLQuery {
    ghost use Rattle.pgv_ltree.specs.SameQueries.{same_query, same_query_per};

    ghost eq = { same_query };

    ghost laws = { same_query_per };

    #[tactic(auto, using(crate::proofs::EqualQueries::same_levels))]
    fn eq(&self, other: &PgLQuery) -> bool {
        self.levels == other.levels
    }
}

impl Eq for PgLQuery {
    ghost use Rattle.pgv_ltree.specs.SameQueries.{same_query_equiv};

    ghost laws = { same_query_equiv };
}

impl Clone for PgLQuery {
    ghost is_clone = { λ query copy. copy ≡ query };

    #[tactic(auto, using(crate::proofs::EqualQueries::same_each))]
    fn clone(&self) -> Result<PgLQuery, AllocError> {
        Ok(PgLQuery {
            levels: self.levels.clone()?,
        })
    }
}

/// Prints levels, joined by `.`.
fn print_levels<S: Sink>(levels: &[PgLQueryLevel], out: &mut S) -> Result<(), S::Error>
    ensures levels { OnOk result (is_query (map level_of levels.now) ≡ true) }
    ensures ok { OnOk result (S.took out.old (printed_query (map level_of levels.now)) out.new) }
    ensures err { IfErr result S.refuses }
    ensures left { OnErr result (S.left out.old out.new) }
{
    let [first, rest @ ..] = levels else {
        return Ok(());
    };
    first.print(out)?;
    for level in rest {
        out.put(".")?;
        level.print(out)?;
    }
    Ok(())
}

/// Printed as its levels, joined by `.`; a query without levels prints nothing.
impl fmt::Display for PgLQuery {
    ghost output = { λ query. Some (printed_query query) };

    fn fmt<W: fmt::Write>(&self, f: &mut fmt::Formatter<W>) -> fmt::Result {
        print_levels(self.as_slice(), f)
    }
}
