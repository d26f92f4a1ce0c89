//! Laws of hstore's maps and of their binary form. Each is the contract of a function that does nothing.

ghost use Rattle.std.specs.Prelude.{◌≡◌, codes};
ghost use Rattle.pgv_types.specs.Ty.{array_of, named};
ghost use Rattle.std.specs.Iterator.{AlwaysYields};
ghost use Rattle.pgv_codec.specs.Encoding.{plainly};
ghost use Rattle.pgv_codec.specs.TypeRow.{FitsAlways, IsCodecRow};
ghost use Rattle.pgv_more.specs.Hstore.{hstore_image, pairs_of, parse_hstore};
ghost use Rattle.pgv_more.specs.HstoreLaws.{HstoreIsRead, HstoresAreEqual, OneHstore};

use crate::PgHstore;
use pgv_codec::{Decode, Encode, PgHasArrayType, ReadBack, Type};
use std::collections::btree_map;

/// A `PgHstore` is an hstore, known by its name, with its pairs in the order of the keys. Its arrays are arrays of the
/// type of this name.
pub fn hstore_is_an_hstore()
    ensures { IsCodecRow ⟦<PgHstore as Type>⟧ ⟦<PgHstore as PgHasArrayType>⟧
        ⟦<PgHstore as Encode>⟧ ⟦<PgHstore as Decode>⟧ ⟦<PgHstore as ReadBack>⟧.kept (record {
          info = named (codes "hstore");
          array = array_of (codes "hstore");
          encoding = λ h. plainly (hstore_image (pairs_of h));
          view = pairs_of;
          parse = parse_hstore;
          kept = pairs_of;
        }) }
{}

/// `hstore_in_binary` reads a map from bytes iff the bytes begin with a binary form of this map.
#[tactic(auto, using(crate::proofs::LawsOfHstores::hstore_is_read))]
pub fn hstore_is_read()
    ensures { HstoreIsRead }
{}

/// Bytes begin with the binary form of at most one map.
#[tactic(auto, using(crate::proofs::LawsOfHstores::one_hstore))]
pub fn one_hstore()
    ensures { OneHstore }
{}

/// Two maps are equal iff they have the same pairs, and maps with the same pairs are written alike.
#[tactic(auto, using(crate::proofs::EqualHstores::hstores_are_equal))]
pub fn equal_hstores()
    ensures equal { HstoresAreEqual ⟦<PgHstore as PartialEq>⟧.eq }
    ensures written_alike { (a b : _) → pairs_of a ≡ pairs_of b
        → ⟦<PgHstore as Encode>⟧.encoding a ≡ ⟦<PgHstore as Encode>⟧.encoding b }
{}

/// The iterator of a map gives its pairs in the order of the keys and then ends.
#[tactic(auto, using(crate::proofs::EqualHstores::entries_given))]
pub fn hstore_gives_its_pairs()
    ensures { (h : _) (pairs : _) → ⟦<PgHstore as IntoIterator>⟧.into_iter_gives h pairs
        → AlwaysYields ⟦<btree_map::IntoIter<String, Option<String>> as Iterator>⟧.next_gives
        (λ pair. pair) pairs h.0.entries }
{}

/// A map fits every type, so that it is read back under each.
pub fn plain_hstores_fit()
    ensures { FitsAlways ⟦<PgHstore as ReadBack>⟧.fits }
{}
