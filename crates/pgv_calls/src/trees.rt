//! Rows of calls on a tree of labels.

use pgv::CodecError;
use pgv::types::{PgLTree, PgLTreeLabel};
use pgv_fixtures::{Again, Called, same, told};
use std::alloc::{AllocError, Global};

/// The words of a text.
fn words(alloc: Global, text: &str) -> Result<Vec<String>, AllocError> {
    let mut words = Vec::new(alloc);
    for word in text.split_ascii_whitespace() {
        words.push(String::from_str(alloc, word)?)?;
    }
    Ok(words)
}

/// The tree of these labels.
fn tree_of(alloc: Global, labels: &str) -> Result<PgLTree, CodecError> {
    Ok(PgLTree::try_from_iter(alloc, words(alloc, labels)?)?)
}

/// The tree of copies of a copy's labels.
fn again(alloc: Global, tree: &PgLTree) -> Result<PgLTree, AllocError> {
    let mut labels = Vec::new(alloc);
    for label in tree.clone()? {
        labels.push(label.clone()?)?;
    }
    PgLTree::try_collect(alloc, labels)
}

/// Appends a label that is made of a text.
fn push(alloc: Global, tree: &mut PgLTree, label: &str) -> Result<(), CodecError> {
    let label = PgLTreeLabel::new(String::from_str(alloc, label)?)?;
    Ok(tree.push(label)?)
}

/// Takes the last label off, which has to be this one.
fn popped(tree: &mut PgLTree, wanted: &str) -> bool {
    match tree.pop() {
        Some(label) => label.as_str() == wanted,
        None => wanted == "none",
    }
}

/// What is printed of a tree.
fn shown(alloc: Global, tree: &PgLTree) -> Result<String, CodecError> {
    Ok(format!(in alloc; "{tree}")?)
}

/// A tree that rows change.
#[derive(Drop)]
pub struct Tree(pub PgLTree);

impl Called for Tree {
    fn holds(&mut self, alloc: Global, call: &str, wanted: &str) -> Result<bool, Again> {
        let tree = &mut self.0;
        if let Some(label) = call.strip_prefix("push ") {
            let before = tree.clone()?;
            let answer = push(alloc, tree, label);
            return told(answer, *tree == before, wanted);
        }
        if let Some(labels) = call.strip_prefix("of ") {
            let answer = match tree_of(alloc, labels) {
                Ok(made) => {
                    *tree = made;
                    Ok(())
                }
                Err(error) => Err(error),
            };
            return told(answer, true, wanted);
        }
        match call {
            "pop" => Ok(popped(tree, wanted)),
            "again" => Ok((again(alloc, tree)? == *tree) == (wanted == "same")),
            _ => same(shown(alloc, tree), wanted),
        }
    }
}
