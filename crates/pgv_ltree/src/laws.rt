//! Laws of label trees and of their text. Each is the contract of a function that does nothing but look at a tree.

ghost use Rattle.std.specs.Prelude.{◌≡◌, ◌↔◌, ℕ, List, true};
ghost use Rattle.std.specs.List.{list_all};
ghost use Rattle.std.specs.Iterator.{AlwaysYields};
ghost use Rattle.pgv_codec.specs.Encoding.{plainly, writes};
ghost use Rattle.pgv_codec.specs.TypeRow.{FitsAlways, IsCodecRow};
ghost use Rattle.pgv_ltree.specs.Labels.{is_label};
ghost use Rattle.pgv_ltree.specs.TreeLaws.{OneTree, PrintedTreeIsRead, TreeIsRead};
ghost use Rattle.pgv_ltree.specs.TreeBackLemmas.{tree_kept};
ghost use Rattle.pgv_ltree.specs.TreesCodec.{ltree, ltree_array, parse_tree, tree_image};

use pgv_codec::{Decode, Encode, PgHasArrayType, ReadBack, Type};

/// A `PgLTree` is an `ltree`, known by its name: the version 1 and its text, as `01612e62` for `a.b`. Its arrays are
/// `_ltree`, known by their name. A tree without labels is read back as one empty label.
pub fn ltree_is_an_ltree()
    ensures row { IsCodecRow ⟦<crate::PgLTree as Type>⟧ ⟦<crate::PgLTree as PgHasArrayType>⟧
        ⟦<crate::PgLTree as Encode>⟧ ⟦<crate::PgLTree as Decode>⟧
        ⟦<crate::PgLTree as ReadBack>⟧.kept (record {
          info = ltree;
          array = ltree_array;
          encoding = λ v. plainly (writes (tree_image v));
          view = λ v. v;
          parse = parse_tree;
          kept = tree_kept;
        }) }
    ensures fits { FitsAlways ⟦<crate::PgLTree as ReadBack>⟧.fits }
{}

/// `tree_read` reads labels from a text iff the grammar of label trees assigns these labels to the text.
#[tactic(auto, using(crate::proofs::LawsOfTrees::tree_is_read))]
pub fn tree_is_read()
    ensures { TreeIsRead }
{}

/// A text denotes at most one label tree.
#[tactic(auto, using(crate::proofs::LawsOfTrees::one_tree))]
pub fn one_tree()
    ensures { OneTree }
{}

/// A label tree is read back from its printed text iff it has a label.
#[tactic(auto, using(crate::proofs::LawsOfTrees::printed_tree_is_read))]
pub fn printed_tree_is_read()
    ensures { PrintedTreeIsRead }
{}

/// Every label in a `PgLTree` at run time is a valid label.
#[tactic(auto, using(std::proofs::lemmas::List::Folds::list_all_more))]
pub fn labels_are_labels(tree: &crate::PgLTree)
    ensures { list_all is_label tree.now ≡ true }
{
    let labels = tree.as_slice();
    for label in labels {
        let _text = label.as_str();
    }
}

/// Two trees are equal iff they have the same labels in the same order.
#[tactic(auto, using(crate::proofs::LawsOfTrees::equal_trees))]
pub fn equal_trees()
    ensures { (a b : List (List ℕ)) → (⟦<crate::PgLTree as PartialEq>⟧.eq a b ≡ true) ↔ (a ≡ b) }
{}

/// The iterator of a tree gives its labels in order and then ends.
#[tactic(auto, using(crate::proofs::LawsOfTrees::labels_given))]
pub fn tree_gives_its_labels()
    ensures { (tree : List (List ℕ)) (labels : _)
        → ⟦<crate::PgLTree as IntoIterator>⟧.into_iter_gives tree labels
        → AlwaysYields ⟦<std::vec::IntoIter<crate::PgLTreeLabel> as Iterator>⟧.next_gives
        (λ label. label) labels tree }
{}
