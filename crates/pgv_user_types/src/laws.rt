//! Laws that say what values of `PgEnum`, `PgComposite`, `PgRecord`, `PgNewtype`, `PgDomain` and `PgPlain` are, by what
//! a caller's type states. Each is the contract of a function that does nothing.

ghost use Rattle.std.specs.Prelude.{◌≡◌, ◌↔◌, ◌||◌, List};
ghost use Rattle.pgv_types.specs.Relations.{softly};
ghost use Rattle.pgv_types.specs.Ty.{Ty, array_of, builtin, named};
ghost use Rattle.pgv_types.specs.declared.oid.Oid.{Oid};
ghost use Rattle.pgv_value.specs.Outcome.{without_memory};
ghost use Rattle.pgv_codec.specs.RecordGrammar.{parse_record};
ghost use Rattle.pgv_codec.specs.Back.{Followed};
ghost use Rattle.pgv_codec.specs.PlainFit.{FieldIsPlain};
ghost use Rattle.pgv_codec.specs.Encoding.{field, plainly, record_image};
ghost use Rattle.pgv_codec.specs.TypeRow.{FitsAlways, HasArrayType, HasType, HasTypes, IsCodecRow, IsReadAs, IsWrittenAs};
ghost use Rattle.pgv_user_types.specs.EnumLabels.{label_written, parse_label};

use crate::{
    Composite, Domain, Labelled, Newtype, PgComposite, PgDomain, PgEnum, PgNewtype, PgPlain,
    PgRecord, PlainCodec, PlainRange,
};
use pgv_codec::{Decode, Encode, KeptList, PgHasArrayType, ReadBack, Type};
use pgv_range::PgRange;

/// A `PgEnum<T>` is the type whose name `T` states, and is written as its label and read as the value of its label.
pub fn enum_is_its_label<T: Labelled>()
    ensures { IsCodecRow ⟦<PgEnum<T> as Type>⟧ ⟦<PgEnum<T> as PgHasArrayType>⟧
        ⟦<PgEnum<T> as Encode>⟧ ⟦<PgEnum<T> as Decode>⟧ ⟦<PgEnum<T> as ReadBack>⟧.kept (record {
          info = named T.name;
          array = array_of T.name;
          encoding = λ v. label_written (T.label_of v.0);
          view = λ v. T.label_of v.0;
          parse = without_memory (parse_label T.label_of T.labels);
          kept = λ v. T.label_of v.0;
        }) }
{}

/// A `PgComposite<T>` is the type whose name `T` states, and is written and read as the record of its fields. What is
/// kept of it is made of its fields as they are kept, and it fits a type where its fields fit it.
pub fn composite_is_its_fields<T: Composite>()
    ensures types { HasTypes ⟦<PgComposite<T> as Type>⟧ ⟦<PgComposite<T> as PgHasArrayType>⟧
        (named T.name) (array_of T.name) }
    ensures written { IsWrittenAs ⟦<PgComposite<T> as Encode>⟧
        (λ v. plainly (record_image (T.Fields.fields (T.fields_of v.0)))) }
    ensures read { IsReadAs ⟦<PgComposite<T> as Decode>⟧ (λ v. T.Fields.view (T.fields_of v.0))
        (parse_record T.Fields.step) }
    ensures kept { (v : _) → (⟦<PgComposite<T> as ReadBack>⟧.kept v).0
        ≡ T.made (T.Fields.kept (T.fields_of v.0)) }
    ensures fits { (v : _) (t : Ty) (oids : List Oid) → ⟦<PgComposite<T> as ReadBack>⟧.fits v t oids
        ↔ T.Fields.fits (T.fields_of v.0) t 0 oids }
{}

/// A `PgRecord` of fields is a record (OID 2249), written, read and kept as these, and fits a type where they fit it.
/// Its arrays are `record[]` (2287).
pub fn record_is_its_fields<Fields: KeptList>()
    ensures types { HasTypes ⟦<PgRecord<Fields> as Type>⟧ ⟦<PgRecord<Fields> as PgHasArrayType>⟧
        (builtin 2249) (builtin 2287) }
    ensures written { IsWrittenAs ⟦<PgRecord<Fields> as Encode>⟧
        (λ v. plainly (record_image (Fields.fields v.0))) }
    ensures read { IsReadAs ⟦<PgRecord<Fields> as Decode>⟧ (λ v. Fields.view v.0)
        (parse_record Fields.step) }
    ensures kept { (v : _) → (⟦<PgRecord<Fields> as ReadBack>⟧.kept v).0 ≡ Fields.kept v.0 }
    ensures fits { (v : _) (t : Ty) (oids : List Oid)
        → ⟦<PgRecord<Fields> as ReadBack>⟧.fits v t oids ↔ Fields.fits v.0 t 0 oids }
{}

/// A `PgRecord` of two fields fits a composite type, a domain over one or `record`, if the type at the place of each
/// field has the OID that was written and is accepted, and the field fits it.
pub fn record_of_two_fits<A: ReadBack + Type, B: ReadBack + Type>()
    ensures { (v : _) (t : Ty) (oids : List Oid)
        → Followed (FieldIsPlain A.info A.encoding A.accepts A.fits v.0.0)
        (field A.info (A.encoding v.0.0)) (FieldIsPlain B.info B.encoding B.accepts B.fits
        v.0.1.0) t 0 oids → ⟦<PgRecord<(A, (B,))> as ReadBack>⟧.fits v t oids }
{}

/// A `PgNewtype<T>` has the types of what it holds, is written, read and kept as this, and fits a type where this does.
pub fn newtype_is_its_base<T: Newtype>()
where
    T::Base: Type + PgHasArrayType,
    ensures types { HasType ⟦<PgNewtype<T> as Type>⟧ T.Base.info T.Base.accepts }
    ensures arrays { HasArrayType ⟦<PgNewtype<T> as PgHasArrayType>⟧ T.Base.array_info
        T.Base.accepts_array }
    ensures written { IsWrittenAs ⟦<PgNewtype<T> as Encode>⟧ (λ v. T.Base.encoding (T.base v.0)) }
    ensures read { IsReadAs ⟦<PgNewtype<T> as Decode>⟧ (λ v. T.Base.view (T.base v.0))
        T.Base.parse }
    ensures kept { (v : _) → (⟦<PgNewtype<T> as ReadBack>⟧.kept v).0
        ≡ T.made (T.Base.kept (T.base v.0)) }
    ensures fits { (v : _) (t : Ty) (oids : List Oid) → ⟦<PgNewtype<T> as ReadBack>⟧.fits v t oids
        ↔ T.Base.fits (T.base v.0) t oids }
{}

/// A `PgDomain<T>` is the type whose name `T` states, and is also read under each type under which what it holds is
/// read. It is written, read and kept as what it holds, and fits a type where this does.
pub fn domain_is_its_base<T: Domain>()
where
    T::Base: Type,
    ensures types { HasType ⟦<PgDomain<T> as Type>⟧ (named T.name)
        (λ t. softly t (named T.name) || T.Base.accepts t) }
    ensures arrays { HasArrayType ⟦<PgDomain<T> as PgHasArrayType>⟧ (array_of T.name)
        (λ t. softly t (array_of T.name)) }
    ensures written { IsWrittenAs ⟦<PgDomain<T> as Encode>⟧ (λ v. T.Base.encoding (T.base v.0)) }
    ensures read { IsReadAs ⟦<PgDomain<T> as Decode>⟧ (λ v. T.Base.view (T.base v.0)) T.Base.parse }
    ensures kept { (v : _) → (⟦<PgDomain<T> as ReadBack>⟧.kept v).0
        ≡ T.made (T.Base.kept (T.base v.0)) }
    ensures fits { (v : _) (t : Ty) (oids : List Oid) → ⟦<PgDomain<T> as ReadBack>⟧.fits v t oids
        ↔ T.Base.fits (T.base v.0) t oids }
{}

/// A `PgPlain<T>` has the types that `T` says, is written and read as it says, without a size hint, is kept as it is,
/// and fits every type.
pub fn plain_is_as_it_says<T: PlainCodec>()
    ensures types { HasType ⟦<PgPlain<T> as Type>⟧ T.rules.info T.rules.accepts }
    ensures arrays { HasArrayType ⟦<PgPlain<T> as PgHasArrayType>⟧ T.rules.array_info
        (λ t. softly t T.rules.array_info) }
    ensures written { IsWrittenAs ⟦<PgPlain<T> as Encode>⟧
        (λ v. plainly (T.rules.image (T.rules.view v.0))) }
    ensures read { IsReadAs ⟦<PgPlain<T> as Decode>⟧ (λ v. T.rules.view v.0) T.rules.parse }
    ensures kept { (v : _) → (⟦<PgPlain<T> as ReadBack>⟧.kept v).0 ≡ v.0 }
    ensures fits { FitsAlways ⟦<PgPlain<T> as ReadBack>⟧.fits }
{}

/// A range of `PgPlain<T>` is the type whose name `T` states, and an array of them the array of that type.
pub fn plain_range_is_its_name<T: PlainRange>()
    ensures { HasTypes ⟦<PgRange<PgPlain<T>> as Type>⟧ ⟦<PgRange<PgPlain<T>> as PgHasArrayType>⟧
        (named T.range_name) (array_of T.range_name) }
{}
