//! Tuples of one to nine, which are read from records (PostgreSQL, "Composite Types"). Their fields are read from the
//! front; further fields are ignored.

ghost use Rattle.std.specs.Prelude.{refl};
ghost use Rattle.pgv_types.specs.Ty.{builtin};
ghost use Rattle.pgv_codec.specs.RecordGrammar.{parse_record};
ghost use Rattle.pgv_codec.specs.Encoding.{unwritten};

use super::field_list::{FieldList, first_fields};
use crate::traits::{BuiltIn, Decode, HasBuiltIn, Of, Type};
use pgv_types::{PgType, PgTypeInfo};
use pgv_value::{CodecError, PgValueRef};
use std::alloc::Global;

// The impls below are written by tools/tuples.

/// The first field of a record. Further fields are ignored. `00000001 00000017 00000004 00000007` is `(7,)`, and so is
/// the text `(7)`.
impl<A: Type + Decode> Decode for (A,) {
    ghost View = { A.View };

    ghost view = { λ v. A.view v.0 };

    ghost parse = { parse_record ⟦<(A,) as FieldList>⟧.step };

    ghost written = { λ _ _. unwritten };

    ghost null = { λ _ _. (refl, refl) };

    fn decode(alloc: Global, value: PgValueRef<'_>) -> Result<Self, CodecError> {
        first_fields(alloc, value)
    }
}

impl<A> HasBuiltIn for (A,) {}
/// `record` (OID 2249), read under `record` and domains over it. An array of them is `record[]` (OID 2287).
impl<A> BuiltIn for Of<(A,)> {
    ghost INFO = { builtin 2249 };

    ghost ARRAY_INFO = { builtin 2287 };

    const INFO: PgTypeInfo = PgTypeInfo(PgType::Record);

    const ARRAY_INFO: PgTypeInfo = PgTypeInfo(PgType::RecordArray);
}

/// The first two fields of a record. Further fields are ignored.
/// `00000002 00000017 00000004 00000001 00000019 00000001 61` is `(1, "a")`, and so is the text `(1,a)`.
impl<A: Type + Decode, B: Type + Decode> Decode for (A, B) {
    ghost View = { A.View × B.View };

    ghost view = { λ v. (A.view v.0, B.view v.1) };

    ghost parse = { parse_record ⟦<(A, (B,)) as FieldList>⟧.step };

    ghost written = { λ _ _. unwritten };

    ghost null = { λ _ _. (refl, refl) };

    fn decode(alloc: Global, value: PgValueRef<'_>) -> Result<Self, CodecError> {
        match first_fields(alloc, value) {
            Ok((a, (b,))) => Ok((a, b)),
            Err(error) => Err(error),
        }
    }
}

impl<A, B> HasBuiltIn for (A, B) {}
/// `record` (OID 2249), read under `record` and domains over it. An array of them is `record[]` (OID 2287).
impl<A, B> BuiltIn for Of<(A, B)> {
    ghost INFO = { builtin 2249 };

    ghost ARRAY_INFO = { builtin 2287 };

    const INFO: PgTypeInfo = PgTypeInfo(PgType::Record);

    const ARRAY_INFO: PgTypeInfo = PgTypeInfo(PgType::RecordArray);
}

/// The first three fields of a record. Further fields are ignored.
impl<A: Type + Decode, B: Type + Decode, C: Type + Decode> Decode for (A, B, C) {
    ghost View = { A.View × (B.View × C.View) };

    ghost view = { λ v. (A.view v.0, (B.view v.1, C.view v.2)) };

    ghost parse = { parse_record ⟦<(A, (B, (C,))) as FieldList>⟧.step };

    ghost written = { λ _ _. unwritten };

    ghost null = { λ _ _. (refl, refl) };

    fn decode(alloc: Global, value: PgValueRef<'_>) -> Result<Self, CodecError> {
        match first_fields(alloc, value) {
            Ok((a, (b, (c,)))) => Ok((a, b, c)),
            Err(error) => Err(error),
        }
    }
}

impl<A, B, C> HasBuiltIn for (A, B, C) {}
/// `record` (OID 2249), read under `record` and domains over it. An array of them is `record[]` (OID 2287).
impl<A, B, C> BuiltIn for Of<(A, B, C)> {
    ghost INFO = { builtin 2249 };

    ghost ARRAY_INFO = { builtin 2287 };

    const INFO: PgTypeInfo = PgTypeInfo(PgType::Record);

    const ARRAY_INFO: PgTypeInfo = PgTypeInfo(PgType::RecordArray);
}

/// The first four fields of a record. Further fields are ignored.
impl<A: Type + Decode, B: Type + Decode, C: Type + Decode, D: Type + Decode> Decode
    for (A, B, C, D) {
    ghost View = { A.View × (B.View × (C.View × D.View)) };

    ghost view = { λ v. (A.view v.0, (B.view v.1, (C.view v.2, D.view v.3))) };

    ghost parse = { parse_record ⟦<(A, (B, (C, (D,)))) as FieldList>⟧.step };

    ghost written = { λ _ _. unwritten };

    ghost null = { λ _ _. (refl, refl) };

    fn decode(alloc: Global, value: PgValueRef<'_>) -> Result<Self, CodecError> {
        match first_fields(alloc, value) {
            Ok((a, (b, (c, (d,))))) => Ok((a, b, c, d)),
            Err(error) => Err(error),
        }
    }
}

impl<A, B, C, D> HasBuiltIn for (A, B, C, D) {}
/// `record` (OID 2249), read under `record` and domains over it. An array of them is `record[]` (OID 2287).
impl<A, B, C, D> BuiltIn for Of<(A, B, C, D)> {
    ghost INFO = { builtin 2249 };

    ghost ARRAY_INFO = { builtin 2287 };

    const INFO: PgTypeInfo = PgTypeInfo(PgType::Record);

    const ARRAY_INFO: PgTypeInfo = PgTypeInfo(PgType::RecordArray);
}

/// The first five fields of a record. Further fields are ignored.
impl<
    A: Type + Decode,
    B: Type + Decode,
    C: Type + Decode,
    D: Type + Decode,
    E: Type + Decode,
> Decode for (A, B, C, D, E) {
    ghost View = { A.View × (B.View × (C.View × (D.View × E.View))) };

    ghost view = { λ v. (A.view v.0, (B.view v.1, (C.view v.2, (D.view v.3, E.view v.4)))) };

    ghost parse = { parse_record ⟦<(A, (B, (C, (D, (E,))))) as FieldList>⟧.step };

    ghost written = { λ _ _. unwritten };

    ghost null = { λ _ _. (refl, refl) };

    fn decode(alloc: Global, value: PgValueRef<'_>) -> Result<Self, CodecError> {
        match first_fields(alloc, value) {
            Ok((a, (b, (c, (d, (e,)))))) => Ok((a, b, c, d, e)),
            Err(error) => Err(error),
        }
    }
}

impl<A, B, C, D, E> HasBuiltIn for (A, B, C, D, E) {}
/// `record` (OID 2249), read under `record` and domains over it. An array of them is `record[]` (OID 2287).
impl<A, B, C, D, E> BuiltIn for Of<(A, B, C, D, E)> {
    ghost INFO = { builtin 2249 };

    ghost ARRAY_INFO = { builtin 2287 };

    const INFO: PgTypeInfo = PgTypeInfo(PgType::Record);

    const ARRAY_INFO: PgTypeInfo = PgTypeInfo(PgType::RecordArray);
}

/// The first six fields of a record. Further fields are ignored.
impl<
    A: Type + Decode,
    B: Type + Decode,
    C: Type + Decode,
    D: Type + Decode,
    E: Type + Decode,
    F: Type + Decode,
> Decode for (A, B, C, D, E, F) {
    ghost View = { A.View × (B.View × (C.View × (D.View × (E.View × F.View)))) };

    ghost view = { λ v. (A.view v.0, (B.view v.1, (C.view v.2, (D.view v.3, (E.view v.4, F.view v.5))))) };

    ghost parse = { parse_record ⟦<(A, (B, (C, (D, (E, (F,)))))) as FieldList>⟧.step };

    ghost written = { λ _ _. unwritten };

    ghost null = { λ _ _. (refl, refl) };

    fn decode(alloc: Global, value: PgValueRef<'_>) -> Result<Self, CodecError> {
        match first_fields(alloc, value) {
            Ok((a, (b, (c, (d, (e, (f,))))))) => Ok((a, b, c, d, e, f)),
            Err(error) => Err(error),
        }
    }
}

impl<A, B, C, D, E, F> HasBuiltIn for (A, B, C, D, E, F) {}
/// `record` (OID 2249), read under `record` and domains over it. An array of them is `record[]` (OID 2287).
impl<A, B, C, D, E, F> BuiltIn for Of<(A, B, C, D, E, F)> {
    ghost INFO = { builtin 2249 };

    ghost ARRAY_INFO = { builtin 2287 };

    const INFO: PgTypeInfo = PgTypeInfo(PgType::Record);

    const ARRAY_INFO: PgTypeInfo = PgTypeInfo(PgType::RecordArray);
}

/// The first seven fields of a record. Further fields are ignored.
impl<
    A: Type + Decode,
    B: Type + Decode,
    C: Type + Decode,
    D: Type + Decode,
    E: Type + Decode,
    F: Type + Decode,
    G: Type + Decode,
> Decode for (A, B, C, D, E, F, G) {
    ghost View = { A.View × (B.View × (C.View × (D.View × (E.View × (F.View × G.View))))) };

    ghost view = { λ v. (A.view v.0, (B.view v.1, (C.view v.2, (D.view v.3, (E.view v.4, (F.view v.5, G.view v.6)))))) };

    ghost parse = { parse_record ⟦<(A, (B, (C, (D, (E, (F, (G,))))))) as FieldList>⟧.step };

    ghost written = { λ _ _. unwritten };

    ghost null = { λ _ _. (refl, refl) };

    fn decode(alloc: Global, value: PgValueRef<'_>) -> Result<Self, CodecError> {
        match first_fields(alloc, value) {
            Ok((a, (b, (c, (d, (e, (f, (g,)))))))) => Ok((a, b, c, d, e, f, g)),
            Err(error) => Err(error),
        }
    }
}

impl<A, B, C, D, E, F, G> HasBuiltIn for (A, B, C, D, E, F, G) {}
/// `record` (OID 2249), read under `record` and domains over it. An array of them is `record[]` (OID 2287).
impl<A, B, C, D, E, F, G> BuiltIn for Of<(A, B, C, D, E, F, G)> {
    ghost INFO = { builtin 2249 };

    ghost ARRAY_INFO = { builtin 2287 };

    const INFO: PgTypeInfo = PgTypeInfo(PgType::Record);

    const ARRAY_INFO: PgTypeInfo = PgTypeInfo(PgType::RecordArray);
}

/// The first eight fields of a record. Further fields are ignored.
impl<
    A: Type + Decode,
    B: Type + Decode,
    C: Type + Decode,
    D: Type + Decode,
    E: Type + Decode,
    F: Type + Decode,
    G: Type + Decode,
    H: Type + Decode,
> Decode for (A, B, C, D, E, F, G, H) {
    ghost View = { A.View × (B.View × (C.View × (D.View × (E.View × (F.View × (G.View × H.View)))))) };

    ghost view = { λ v. (A.view v.0, (B.view v.1, (C.view v.2, (D.view v.3, (E.view v.4, (F.view v.5, (G.view v.6, H.view v.7))))))) };

    ghost parse = { parse_record ⟦<(A, (B, (C, (D, (E, (F, (G, (H,)))))))) as FieldList>⟧.step };

    ghost written = { λ _ _. unwritten };

    ghost null = { λ _ _. (refl, refl) };

    fn decode(alloc: Global, value: PgValueRef<'_>) -> Result<Self, CodecError> {
        match first_fields(alloc, value) {
            Ok((a, (b, (c, (d, (e, (f, (g, (h,))))))))) => Ok((a, b, c, d, e, f, g, h)),
            Err(error) => Err(error),
        }
    }
}

impl<A, B, C, D, E, F, G, H> HasBuiltIn for (A, B, C, D, E, F, G, H) {}
/// `record` (OID 2249), read under `record` and domains over it. An array of them is `record[]` (OID 2287).
impl<A, B, C, D, E, F, G, H> BuiltIn for Of<(A, B, C, D, E, F, G, H)> {
    ghost INFO = { builtin 2249 };

    ghost ARRAY_INFO = { builtin 2287 };

    const INFO: PgTypeInfo = PgTypeInfo(PgType::Record);

    const ARRAY_INFO: PgTypeInfo = PgTypeInfo(PgType::RecordArray);
}

/// The first nine fields of a record. Further fields are ignored.
impl<
    A: Type + Decode,
    B: Type + Decode,
    C: Type + Decode,
    D: Type + Decode,
    E: Type + Decode,
    F: Type + Decode,
    G: Type + Decode,
    H: Type + Decode,
    I: Type + Decode,
> Decode for (A, B, C, D, E, F, G, H, I) {
    ghost View = { A.View × (B.View × (C.View × (D.View × (E.View × (F.View × (G.View × (H.View × I.View))))))) };

    ghost view = { λ v. (A.view v.0, (B.view v.1, (C.view v.2, (D.view v.3, (E.view v.4, (F.view v.5, (G.view v.6, (H.view v.7, I.view v.8)))))))) };

    ghost parse = { parse_record ⟦<(A, (B, (C, (D, (E, (F, (G, (H, (I,))))))))) as FieldList>⟧.step };

    ghost written = { λ _ _. unwritten };

    ghost null = { λ _ _. (refl, refl) };

    fn decode(alloc: Global, value: PgValueRef<'_>) -> Result<Self, CodecError> {
        match first_fields(alloc, value) {
            Ok((a, (b, (c, (d, (e, (f, (g, (h, (i,)))))))))) => Ok((a, b, c, d, e, f, g, h, i)),
            Err(error) => Err(error),
        }
    }
}

impl<A, B, C, D, E, F, G, H, I> HasBuiltIn for (A, B, C, D, E, F, G, H, I) {}
/// `record` (OID 2249), read under `record` and domains over it. An array of them is `record[]` (OID 2287).
impl<A, B, C, D, E, F, G, H, I> BuiltIn for Of<(A, B, C, D, E, F, G, H, I)> {
    ghost INFO = { builtin 2249 };

    ghost ARRAY_INFO = { builtin 2287 };

    const INFO: PgTypeInfo = PgTypeInfo(PgType::Record);

    const ARRAY_INFO: PgTypeInfo = PgTypeInfo(PgType::RecordArray);
}
