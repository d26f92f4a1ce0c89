//! Trees of labels (PostgreSQL, "ltree", Definitions).

ghost use Rattle.std.specs.Prelude.{◌≡◌, ◌⊎◌, ◌↔◌, ◌<◌, ◌++◌, ◌∷◌, [], List, ℕ, length, MatchResult, IfErr, OnOk, OnErr, IsSome, Ok, Err, Some, true};
ghost use Rattle.std.specs.Iterator.{Drains, IsFinite, YieldsThen};
ghost use Rattle.std.specs.List.{list_all};
ghost use Rattle.std.specs.Option.{option_to_list};
ghost use Rattle.std.specs.Vec.Iter.{into_iter_items, into_iter_len};
ghost use Rattle.pgv_value.specs.declared.tree_error.PgLTreeParseError.TheVariants.{Memory};
ghost use Rattle.pgv_ltree.specs.TextsInTurn.{GivesRead, read_each};
ghost use Rattle.pgv_ltree.specs.Labels.{is_label, label_read};
ghost use Rattle.pgv_ltree.specs.Taken.{GivesAfterRead, GivesTexts};
ghost use Rattle.pgv_ltree.specs.Trees.{begins_with_label, printed_tree, tree_read};

mod codec;

use crate::label::PgLTreeLabel;
use crate::sink::Sink;
use pgv_value::PgLTreeParseError;
use std::alloc::{AllocError, Global};
use std::fmt;
use std::marker::Model;

/// A tree of labels, from the root down, such as `Top.Science.Astronomy`.
///
/// A contract sees it as the list of its labels. A tree from a server has one label or more; a tree that is made here
/// may have none.
#[derive(Debug)]
pub struct PgLTree {
    labels: Vec<PgLTreeLabel>,
}

/// Its parts go. It is written out since a derived one is proved again in each crate above.
impl Drop for PgLTree {
    #[inline(always)]
    fn drop(self) {
        let PgLTree { labels: _ } = self;
    }
}

impl Model for PgLTree {
    ghost use Rattle.std.specs.Prelude.{ℕ, List};

    ghost Value = { List (List ℕ) };

    ghost view = { λ tree. tree.labels.items };
}

impl PgLTree {
    /// A tree without labels. It takes no memory yet.
    pub fn new(alloc: Global) -> PgLTree
        ensures { result ≡ [] }
    {
        PgLTree {
            labels: Vec::new(alloc),
        }
    }

    /// The tree of these labels.
    /// The labels `a` and `b` are the tree `a.b`.
    pub fn from_labels(labels: Vec<PgLTreeLabel>) -> PgLTree
        ensures { result ≡ labels.items }
    {
        PgLTree { labels }
    }

    /// The tree whose labels are these texts. It fails at the first that is not a valid label.
    pub fn try_from_iter<I: IntoIterator<Item = String>>(
        alloc: Global,
        labels: I,
    ) -> Result<PgLTree, PgLTreeParseError>
        requires { (it : I.IntoIter) → I.into_iter_gives labels it → I.IntoIter.can_next it
            × IsFinite (I.IntoIter.remaining it) }
        // Every text was taken, and is the label at its place. Or the text that was taken last, after labels, is no
        // label; or it is one, and there was no memory for it.
        ensures { MatchResult result (λ tree. (it : I.IntoIter) × (texts : List (List ℕ))
            × I.into_iter_gives labels it × GivesTexts I.IntoIter.next_gives it texts
            × (read_each label_read texts ≡ Ok tree))
            (λ e. (it : I.IntoIter) × (text : List ℕ)
            × I.into_iter_gives labels it × GivesAfterRead label_read I.IntoIter.next_gives it text
            × ((label_read text ≡ Err e) ⊎ ((e ≡ Memory) × (is_label text ≡ true)))) }
    {
        let mut tree = PgLTree::new(alloc);
        for label in labels {
            tree.push(PgLTreeLabel::new(label)?)?;
        }
        Ok(tree)
    }

    /// The tree of these labels, one after another.
    pub fn try_collect<I: IntoIterator<Item = PgLTreeLabel>>(
        alloc: Global,
        labels: I,
    ) -> Result<PgLTree, AllocError>
        requires { (it : I.IntoIter) → I.into_iter_gives labels it → I.IntoIter.can_next it
            × IsFinite (I.IntoIter.remaining it) }
        // Every label was taken; or memory was asked for one.
        ensures { MatchResult result (λ tree. (it : I.IntoIter) × I.into_iter_gives labels it
            × Drains I.IntoIter.next_gives it tree)
            (λ _. (it : I.IntoIter) × (taken : List _) × (last : _)
            × (after : I.IntoIter) × I.into_iter_gives labels it
            × YieldsThen I.IntoIter.next_gives it taken (Some last) after) }
    {
        let mut tree = PgLTree::new(alloc);
        for label in labels {
            tree.push(label)?;
        }
        Ok(tree)
    }

    /// The tree of a text: labels joined by `.`. The empty text is one empty label. A text with an invalid label is
    /// refused with InvalidLtreeLabel, before memory is asked for if it is the first label.
    pub fn from_str(alloc: Global, text: &str) -> Result<PgLTree, PgLTreeParseError>
        ensures { GivesRead (λ tree. tree) Memory (begins_with_label text.now)
            (tree_read text.now) result }
    {
        let mut labels = Vec::new(alloc);
        for label in text.split('.') {
            labels.push(PgLTreeLabel::from_str(alloc, label)?)?;
        }
        Ok(PgLTree { labels })
    }

    /// Appends a label. If memory runs out, the tree stays as it was.
    pub fn push(&mut self, label: PgLTreeLabel) -> Result<(), AllocError>
        ensures ok { OnOk result (self.new ≡ self.old ++ label ∷ []) }
        ensures err { OnErr result (self.new ≡ self.old) }
    {
        self.labels.push(label)?;
        Ok(())
    }

    /// Removes the last label and returns it, if there is one.
    pub fn pop(&mut self) -> Option<PgLTreeLabel>
        ensures labels { self.old ≡ self.new ++ option_to_list result }
        ensures variant { IsSome result ↔ (0 < length self.old) }
    {
        self.labels.pop()
    }

    /// The labels, from the root down.
    pub fn as_slice(&self) -> &[PgLTreeLabel]
        ensures { result.now ≡ self.now }
    {
        self.labels.as_slice()
    }
}

/// The labels `a` and `b` are the tree `a.b`.
impl From<Vec<PgLTreeLabel>> for PgLTree {
    ghost from_gives = { λ labels tree. tree ≡ labels.items };

    fn from(labels: Vec<PgLTreeLabel>) -> PgLTree {
        PgLTree::from_labels(labels)
    }
}

/// Gives the labels one after another, from the root down.
impl IntoIterator for PgLTree {
    type Item = PgLTreeLabel;

    type IntoIter = std::vec::IntoIter<PgLTreeLabel>;

    ghost into_iter_gives = { λ tree labels. (into_iter_items labels ≡ tree) × (into_iter_len labels ≡ length tree) };

    fn into_iter(self) -> std::vec::IntoIter<PgLTreeLabel> {
        let PgLTree { labels } = self;
        labels.into_iter()
    }
}

/// Two trees are equal iff they have the same labels.
impl PartialEq for PgLTree {
    ghost use Rattle.pgv_ltree.specs.SameLabels.{same_tree, same_tree_per};

    ghost eq = { same_tree };

    ghost laws = { same_tree_per };

    fn eq(&self, other: &PgLTree) -> bool {
        self.labels == other.labels
    }
}

impl Eq for PgLTree {
    ghost use Rattle.pgv_ltree.specs.SameLabels.{same_tree_equiv};

    ghost laws = { same_tree_equiv };
}

impl Clone for PgLTree {
    ghost is_clone = { λ tree copy. copy ≡ tree };

    fn clone(&self) -> Result<PgLTree, AllocError> {
        Ok(PgLTree {
            labels: self.labels.clone()?,
        })
    }
}

/// Prints labels, joined by `.`.
fn print_labels<S: Sink>(labels: &[PgLTreeLabel], out: &mut S) -> Result<(), S::Error>
    ensures labels { OnOk result (list_all is_label labels.now ≡ true) }
    ensures ok { OnOk result (S.took out.old (printed_tree labels.now) out.new) }
    ensures err { IfErr result S.refuses }
    ensures left { OnErr result (S.left out.old out.new) }
{
    let [first, rest @ ..] = labels else {
        return Ok(());
    };
    out.put(first.as_str())?;
    for label in rest {
        out.put(".")?;
        out.put(label.as_str())?;
    }
    Ok(())
}

/// Printed as its labels, joined by `.`; a tree without labels prints nothing.
impl fmt::Display for PgLTree {
    ghost output = { λ tree. Some (printed_tree tree) };

    fn fmt<W: fmt::Write>(&self, f: &mut fmt::Formatter<W>) -> fmt::Result {
        print_labels(self.as_slice(), f)
    }
}
