//! Trees of labels, written and read (PostgreSQL, "ltree").

ghost use Rattle.std.specs.Prelude.{ℕ, List, refl};
ghost use Rattle.pgv_types.specs.Relations.{softly};
ghost use Rattle.pgv_value.specs.Outcome.{Gives};
ghost use Rattle.pgv_codec.specs.Encoding.{plainly, writes};
ghost use Rattle.pgv_ltree.specs.TreesCodec.{ltree, ltree_array, tree_image, tree_in_binary, tree_in_text, parse_tree};

use super::{PgLTree, print_labels};
use crate::version::{VERSION, text_after_version};
use pgv_codec::{Encode, IsNull, PgArgumentBuffer, PgHasArrayType, Plain, Type};
use pgv_types::PgTypeInfo;
use pgv_value::{CodecError, PgLTreeParseError, PgValueFormat, PgValueRef};
use std::alloc::{AllocError, Global};

/// `ltree`, of which only the name is known until its OID is given. It is read under each type of this name, and under
/// a type declared by its OID.
impl Type for PgLTree {
    ghost info = { ltree };

    ghost accepts = { λ t. softly t ltree };

    fn type_info() -> PgTypeInfo {
        PgTypeInfo::with_name("ltree")
    }

    fn compatible(type_info: &PgTypeInfo) -> bool {
        type_info.type_compatible(&Self::type_info())
    }
}

/// An array of them is `_ltree`, by its name too.
impl PgHasArrayType for PgLTree {
    ghost array_info = { ltree_array };

    ghost accepts_array = { λ t. softly t ltree_array };

    fn array_type_info() -> PgTypeInfo {
        PgTypeInfo::with_name("_ltree")
    }

    fn array_compatible(type_info: &PgTypeInfo) -> bool {
        type_info.type_compatible(&Self::array_type_info())
    }
}

/// Written as the byte 01 and the text, label after label: `a.b` is `01612e62`.
impl Encode for PgLTree {
    ghost encoding = { λ tree. plainly (writes (tree_image tree)) };

    fn encode_by_ref(&self, out: &mut PgArgumentBuffer) -> Result<IsNull, CodecError> {
        out.push(VERSION)?;
        print_labels(self.as_slice(), out)?;
        Ok(IsNull::No)
    }

    fn size_hint(&self) -> usize {
        0
    }

    fn produces(&self) -> Result<Option<PgTypeInfo>, AllocError> {
        Ok(None)
    }
}

/// The tree of a text. Another text is refused with [`LTree`](CodecError::LTree) (C36).
fn read_text(alloc: Global, text: &str) -> Result<PgLTree, CodecError>
    ensures { Gives (λ tree. tree) (tree_in_text text.now) result }
{
    Ok(PgLTree::from_str(alloc, text)?)
}

/// The tree of a version and a text.
fn read_binary(alloc: Global, form: &[u8]) -> Result<PgLTree, CodecError>
    ensures { Gives (λ tree. tree) (tree_in_binary form.now) result }
{
    let wrong_version = CodecError::LTree(PgLTreeParseError::InvalidLtreeVersion);
    let text = text_after_version(form, wrong_version)?;
    read_text(alloc, text)
}

/// Read in binary from the byte 01 and a text: no bytes are refused with [`Short`](CodecError::Short) (C15), another
/// first byte with [`LTree`](CodecError::LTree) (C36), what isn't UTF-8 with [`Utf8`](CodecError::Utf8) (C14), and an
/// invalid text of a tree with [`LTree`](CodecError::LTree) (C36). In text the bytes are the tree's text. Null is
/// refused with [`UnexpectedNull`](CodecError::UnexpectedNull) (C13). A tree is read back as it was written, and a tree
/// without labels as one empty label.
impl Plain for PgLTree {
    ghost use Rattle.pgv_ltree.specs.TreeBackLemmas.{tree_back, tree_kept};

    ghost View = { List (List ℕ) };

    ghost view = { λ tree. tree };

    ghost parse = { parse_tree };

    ghost null = { λ _ _. refl };

    ghost written = { λ _ m. plainly (writes (tree_image m)) };

    ghost kept = { tree_kept };

    fn read(alloc: Global, value: &PgValueRef<'_>) -> Result<PgLTree, CodecError> {
        match value.format() {
            PgValueFormat::Binary => read_binary(alloc, value.as_bytes()?),
            PgValueFormat::Text => read_text(alloc, value.as_str()?),
        }
    }

    ghost reads_back = { tree_back };

    ghost agrees = { λ _. refl };
}
