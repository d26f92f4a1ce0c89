//! Types of a caller's own: a range and an element that give others a type, and a value that is never written.

use pgv::types::PgRange;
use pgv::{
    CodecError, Encode, IsNull, PgArgumentBuffer, PgHasArrayType, PgRecord, PgTypeInfo, Type,
};
use pgv_examples::slot::push_version;
use pgv_fixtures::EmptyObject;
use std::alloc::{AllocError, Global};

/// A range with a type of its own, whatever its bounds are. `PgRange` has the one that its bounds state.
#[derive(Drop)]
pub struct Bounds<T> {
    /// The range.
    pub range: PgRange<T>,
}

impl<T> Type for Bounds<T> {
    ghost use Rattle.std.specs.Prelude.{codes};
    ghost use Rattle.pgv.specs.Words.{named, softly};

    ghost info = { named (codes "bounds") };

    ghost accepts = { λ t. softly t (named (codes "bounds")) };

    fn type_info() -> PgTypeInfo {
        PgTypeInfo::with_name("bounds")
    }

    fn compatible(type_info: &PgTypeInfo) -> bool {
        type_info.type_compatible(&Self::type_info())
    }
}

impl<T: Encode> Encode for Bounds<T> {
    ghost encoding = { λ v. ⟦<PgRange<T> as Encode>⟧.encoding v.range };

    fn encode_by_ref(&self, out: &mut PgArgumentBuffer) -> Result<IsNull, CodecError> {
        self.range.encode_by_ref(out)
    }

    fn size_hint(&self) -> usize {
        0
    }

    fn produces(&self) -> Result<Option<PgTypeInfo>, AllocError> {
        Ok(None)
    }
}

/// An element of a list with a value after an object, which is a slot: arrays of records of two fields.
#[derive(Drop)]
pub struct Listed<T> {
    /// The record.
    pub pair: PgRecord<(EmptyObject, (T,))>,
}

impl<T> Type for Listed<T> {
    ghost use Rattle.std.specs.Prelude.{codes};
    ghost use Rattle.pgv.specs.Words.{named, softly};

    ghost info = { named (codes "listed") };

    ghost accepts = { λ t. softly t (named (codes "listed")) };

    fn type_info() -> PgTypeInfo {
        PgTypeInfo::with_name("listed")
    }

    fn compatible(type_info: &PgTypeInfo) -> bool {
        type_info.type_compatible(&Self::type_info())
    }
}

impl<T> PgHasArrayType for Listed<T> {
    ghost use Rattle.std.specs.Prelude.{codes};
    ghost use Rattle.pgv.specs.Words.{array_of, softly};

    ghost array_info = { array_of (codes "listed") };

    ghost accepts_array = { λ t. softly t (array_of (codes "listed")) };

    fn array_type_info() -> PgTypeInfo {
        PgTypeInfo::array_of("listed")
    }

    fn array_compatible(type_info: &PgTypeInfo) -> bool {
        type_info.type_compatible(&Self::array_type_info())
    }
}

impl<T: Encode + Type> Encode for Listed<T> {
    ghost encoding = { λ v. ⟦<PgRecord<(EmptyObject, (T,))> as Encode>⟧.encoding v.pair };

    fn encode_by_ref(&self, out: &mut PgArgumentBuffer) -> Result<IsNull, CodecError> {
        self.pair.encode_by_ref(out)
    }

    fn size_hint(&self) -> usize {
        0
    }

    fn produces(&self) -> Result<Option<PgTypeInfo>, AllocError> {
        Ok(None)
    }
}

/// A value that is refused with the number of its depth, after a byte, a hole and a slot.
#[derive(Drop)]
pub struct Stop {
    /// What the cases of its slot are allocated by.
    pub alloc: Global,
    /// The depth.
    pub depth: u32,
}

impl Type for Stop {
    ghost use Rattle.std.specs.Prelude.{codes};
    ghost use Rattle.pgv.specs.Words.{named, softly};

    ghost info = { named (codes "stop") };

    ghost accepts = { λ t. softly t (named (codes "stop")) };

    fn type_info() -> PgTypeInfo {
        PgTypeInfo::with_name("stop")
    }

    fn compatible(type_info: &PgTypeInfo) -> bool {
        type_info.type_compatible(&Self::type_info())
    }
}

impl PgHasArrayType for Stop {
    ghost use Rattle.std.specs.Prelude.{codes};
    ghost use Rattle.pgv.specs.Words.{array_of, softly};

    ghost array_info = { array_of (codes "stop") };

    ghost accepts_array = { λ t. softly t (array_of (codes "stop")) };

    fn array_type_info() -> PgTypeInfo {
        PgTypeInfo::array_of("stop")
    }

    fn array_compatible(type_info: &PgTypeInfo) -> bool {
        type_info.type_compatible(&Self::array_type_info())
    }
}

impl Encode for Stop {
    ghost use Rattle.std.specs.Prelude.{None};
    ghost use Rattle.pgv.specs.Words.{plainly, writes};

    ghost encoding = { λ _. plainly (writes None) };

    fn encode_by_ref(&self, out: &mut PgArgumentBuffer) -> Result<IsNull, CodecError> {
        out.push(0)?;
        out.push_hole(PgTypeInfo::with_name("stop"))?;
        push_version(self.alloc, out)?;
        Err(CodecError::Caller(self.depth))
    }

    fn size_hint(&self) -> usize {
        0
    }

    fn produces(&self) -> Result<Option<PgTypeInfo>, AllocError> {
        Ok(None)
    }
}
