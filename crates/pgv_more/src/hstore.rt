//! Maps of texts (PostgreSQL, appendix F, hstore).

ghost use Rattle.std.specs.Prelude.{◌≡◌, [], MatchResult, OnOk, List, Some, map};
ghost use Rattle.std.specs.BTreeMap.{insert_entry};
ghost use Rattle.std.specs.Iterator.{Drains, IsFiniteIterable, YieldsThen};
ghost use Rattle.std.specs.String.{string_cmp};
ghost use Rattle.pgv_more.specs.Hstore.{pair_of, pairs_of, text_pair_of};
ghost use Rattle.pgv_more.specs.HstoreLaws.{IsMapOf};

mod codec;

use std::alloc::{AllocError, Global};
use std::collections::{BTreeMap, btree_map};

/// A map from keys to values that may be null.
///
/// Contracts see it as its pairs in the order of the keys' bytes, each text as its bytes.
#[derive(Debug, Drop, PartialEq, Eq)]
pub struct PgHstore(pub BTreeMap<String, Option<String>>);

impl PgHstore {
    /// No pairs. It takes no memory yet.
    pub fn new(alloc: Global) -> PgHstore
        ensures { pairs_of result ≡ [] }
    {
        PgHstore(BTreeMap::new(alloc))
    }

    /// The map of pairs, whose values may be null. If a key comes again, the later pair wins. The iterator must end.
    pub fn try_from_iter<I: IntoIterator<Item = (String, Option<String>)>>(
        alloc: Global,
        pairs: I,
    ) -> Result<PgHstore, AllocError>
        requires { IsFiniteIterable I.into_iter_gives I.IntoIter.can_next
            I.IntoIter.remaining pairs }
        // Every pair was taken; or memory was asked for one.
        ensures { MatchResult result (λ h. (it : I.IntoIter) × (xs : List _)
            × I.into_iter_gives pairs it × Drains I.IntoIter.next_gives it xs
            × IsMapOf (map pair_of xs) (pairs_of h))
            (λ _. (it : I.IntoIter) × (taken : List _) × (last : _)
            × (after : I.IntoIter) × I.into_iter_gives pairs it
            × YieldsThen I.IntoIter.next_gives it taken (Some last) after) }
    {
        let mut map = BTreeMap::new(alloc);
        for (key, value) in pairs {
            put_pair(&mut map, key, value)?;
        }
        Ok(PgHstore(map))
    }

    /// The map of pairs, none of whose values is null. If a key comes again, the later pair wins. The iterator must
    /// end.
    pub fn try_from_pairs<I: IntoIterator<Item = (String, String)>>(
        alloc: Global,
        pairs: I,
    ) -> Result<PgHstore, AllocError>
        requires { IsFiniteIterable I.into_iter_gives I.IntoIter.can_next
            I.IntoIter.remaining pairs }
        // Every pair was taken; or memory was asked for one.
        ensures { MatchResult result (λ h. (it : I.IntoIter) × (xs : List _)
            × I.into_iter_gives pairs it × Drains I.IntoIter.next_gives it xs
            × IsMapOf (map text_pair_of xs) (pairs_of h))
            (λ _. (it : I.IntoIter) × (taken : List _) × (last : _)
            × (after : I.IntoIter) × I.into_iter_gives pairs it
            × YieldsThen I.IntoIter.next_gives it taken (Some last) after) }
    {
        let mut map = BTreeMap::new(alloc);
        for (key, value) in pairs {
            put_pair(&mut map, key, Some(value))?;
        }
        Ok(PgHstore(map))
    }
}

/// Puts a pair at its place in the order of the keys. A key that is there takes the new value.
fn put_pair(
    map: &mut BTreeMap<String, Option<String>>,
    key: String,
    value: Option<String>,
) -> Result<(), AllocError>
    ensures { OnOk result (map.new.entries ≡ insert_entry string_cmp map.old.entries key value) }
{
    map.insert(key, value)?;
    Ok(())
}

/// A map of the same pairs.
impl Clone for PgHstore {
    ghost is_clone = { λ h copy. pairs_of copy ≡ pairs_of h };

    fn clone(&self) -> Result<PgHstore, AllocError> {
        let copy = self.0.clone()?;
        Ok(PgHstore(copy))
    }
}

/// The pairs in the order of the keys, each once, and from the back in the other order.
impl IntoIterator for PgHstore {
    ghost use Rattle.std.specs.BTreeMap.{IsOrdered};
    ghost use Rattle.std.specs.Map.Iter.{GivesInOrder, GivesInReverse};
    ghost use Rattle.pgv_more.specs.Hstore.{MapEntry};

    type Item = (String, Option<String>);

    type IntoIter = btree_map::IntoIter<String, Option<String>>;

    ghost into_iter_gives = { λ h it. (it ≡ h.0.entries) × GivesInOrder MapEntry × GivesInReverse MapEntry × IsOrdered string_cmp h.0 };

    fn into_iter(self) -> btree_map::IntoIter<String, Option<String>> {
        self.0.into_iter()
    }
}
