//! An enum by its labels (PostgreSQL, "Enumerated Types").

ghost use Rattle.std.specs.Prelude.{◌≡◌, true, Some, List, ℕ};
ghost use Rattle.pgv_user_types.specs.EnumLabels.{are_labels, labelled};

use pgv_codec::{Encode, IsNull, PgArgumentBuffer, PgHasArrayType, Plain, Type, encode_text};
use pgv_types::PgTypeInfo;
use pgv_value::{CodecError, PgValueRef};
use std::alloc::{AllocError, Global};

/// A Rust enum whose values are the labels of an enum of the server, which is known by its name.
pub trait Labelled: Sized + Drop {
    /// The name of the type.
    ghost name: { List ℕ };

    /// Each label and its value.
    ghost labels: { List (List ℕ × Self) };

    /// The label of a value.
    ghost label_of: { Self → List ℕ };

    /// Each value has its own label.
    ghost again: { (v : Self) → labelled labels (label_of v) ≡ Some v };

    /// Labels are UTF-8; those of ASCII characters are by `refl`.
    ghost utf8: { are_labels labels ≡ true };

    /// The name of the type, as the server has it.
    fn name() -> &'static str
        ensures { result.now ≡ name };

    /// The label of the value.
    fn label(&self) -> &'static str
        ensures { result.now ≡ label_of self.now };

    /// The value of a label, or `None` where no value has it.
    fn from_label(label: &str) -> Option<Self>
        ensures { result ≡ labelled labels label.now };
}

/// A value of an enum, written and read as its label, which is the same in both formats: one with the label `ok` is
/// `6f6b`.
#[derive(Clone, Copy, Debug, PartialEq, Eq)]
pub struct PgEnum<T>(pub T);

/// The type of this name.
impl<T: Labelled> Type for PgEnum<T> {
    ghost use Rattle.pgv_types.specs.Ty.{named};
    ghost use Rattle.pgv_types.specs.Relations.{softly};

    ghost info = { named T.name };

    ghost accepts = { λ t. softly t (named T.name) };

    fn type_info() -> PgTypeInfo {
        PgTypeInfo::with_name(T::name())
    }

    fn compatible(type_info: &PgTypeInfo) -> bool {
        type_info.type_compatible(&Self::type_info())
    }
}

/// The array of the type of this name.
impl<T: Labelled> PgHasArrayType for PgEnum<T> {
    ghost use Rattle.pgv_types.specs.Ty.{array_of};
    ghost use Rattle.pgv_types.specs.Relations.{softly};

    ghost array_info = { array_of T.name };

    ghost accepts_array = { λ t. softly t (array_of T.name) };

    fn array_type_info() -> PgTypeInfo {
        PgTypeInfo::array_of(T::name())
    }

    fn array_compatible(type_info: &PgTypeInfo) -> bool {
        type_info.type_compatible(&Self::array_type_info())
    }
}

/// Written as its label.
impl<T: Labelled> Encode for PgEnum<T> {
    ghost use Rattle.pgv_user_types.specs.EnumLabels.{label_written};

    ghost encoding = { λ v. label_written (T.label_of v.0) };

    fn encode_by_ref(&self, out: &mut PgArgumentBuffer) -> Result<IsNull, CodecError> {
        encode_text(self.0.label(), out)
    }

    fn size_hint(&self) -> usize {
        0
    }

    fn produces(&self) -> Result<Option<PgTypeInfo>, AllocError> {
        Ok(None)
    }
}

/// Read by its label, which is the same in both formats, and read back under every type. A text that is no label is
/// refused with [`Syntax`](CodecError::Syntax) (C29), and null with [`UnexpectedNull`](CodecError::UnexpectedNull)
/// (C13). No memory is asked for.
impl<T: Labelled> Plain for PgEnum<T> {
    ghost use Rattle.std.specs.Prelude.{refl};
    ghost use Rattle.pgv_value.specs.Outcome.{without_memory};
    ghost use Rattle.pgv_user_types.specs.EnumLabels.{label_back, label_written, parse_label};

    ghost View = { List ℕ };

    ghost view = { λ v. T.label_of v.0 };

    ghost parse = { without_memory (parse_label T.label_of T.labels) };

    ghost null = { λ _ _. refl };

    ghost written = { λ _ label. label_written label };

    fn read(_alloc: Global, value: &PgValueRef<'_>) -> Result<PgEnum<T>, CodecError> {
        match T::from_label(value.as_str()?) {
            Some(known) => Ok(PgEnum(known)),
            None => Err(CodecError::Syntax),
        }
    }

    ghost reads_back = { λ v. label_back T.label_of T.labels T.again T.utf8 v.0 };

    ghost agrees = { λ _. refl };
}
