//! Laws of codecs: what tuples and `()` read, and what a written value is read back as. Each is the contract of a
//! function that does nothing.

ghost use Rattle.std.specs.Prelude.{◌≡◌, ◌↔◌, ◌<◌, ◌^◌, ℕ, List, [], ◌∷◌, ◌++◌, Some, None};
ghost use Rattle.pgv_types.specs.Ty.{Ty, builtin};
ghost use Rattle.pgv_types.specs.declared.oid.Oid.{Oid};
ghost use Rattle.pgv_buf.specs.Tokens.{Token};
ghost use Rattle.pgv_value.specs.Outcome.{Outcome, done, reading_of};
ghost use Rattle.pgv_value.specs.ValueView.{Given};
ghost use Rattle.pgv_codec.specs.NestBinary.{RecordIsItsFields, IsRecordField, SameFields, ◌and◌};
ghost use Rattle.pgv_codec.specs.NestText.{IsTextField, SameParts, ◌before◌};
ghost use Rattle.pgv_codec.specs.RecordGrammar.{next_field, parse_record, ◌then◌};
ghost use Rattle.pgv_codec.specs.Back.{AreOids, ArrayFits, ReadsBack, FieldFits, FieldsFit, FieldReadsBack, RecordFieldsFollow, RecordReadsBack};
ghost use Rattle.pgv_codec.specs.Encoding.{field};
ghost use Rattle.pgv_codec.specs.PlainFit.{ArrayIsPlain, FieldIsPlain};
ghost use Rattle.pgv_codec.specs.RecordCalls.{RecordIsItsAccepted};
ghost use Rattle.pgv_codec.specs.ScalarImage.{is_void_or_record};
ghost use Rattle.pgv_codec.specs.TypeRow.{FitsAlways};

use crate::traits::{Codec, Decode, Plain, ReadBack, Type};
use crate::types::field_list::{FieldList, KeptList, WrittenList};

/// A tuple says, reads, refuses and asks memory for what a record does whose fields are the tuple's, as a list:
/// `(A, (B, (C,)))` for `(A, B, C)`.
///
/// A record that can't be begun is refused first, and else the first field that can't be read. Memory is asked for only
/// where there is a record.
pub fn tuple_is_its_list<
    A: Type + Decode,
    B: Type + Decode,
    C: Type + Decode,
    D: Type + Decode,
    E: Type + Decode,
    F: Type + Decode,
    G: Type + Decode,
    H: Type + Decode,
    I: Type + Decode,
>()
    ensures one { ⟦<(A,) as Decode>⟧.parse ≡ parse_record ⟦<(A,) as FieldList>⟧.step }
    ensures one_view { (v : _) → ⟦<(A,) as Decode>⟧.view v ≡ ⟦<(A,) as FieldList>⟧.view v }
    ensures two { ⟦<(A, B) as Decode>⟧.parse ≡ parse_record ⟦<(A, (B,)) as FieldList>⟧.step }
    ensures two_view { (v : _) → ⟦<(A, B) as Decode>⟧.view v
        ≡ ⟦<(A, (B,)) as FieldList>⟧.view (v.0, record { 0 = v.1 }) }
    ensures three { ⟦<(A, B, C) as Decode>⟧.parse
        ≡ parse_record ⟦<(A, (B, (C,))) as FieldList>⟧.step }
    ensures three_view { (v : _) → ⟦<(A, B, C) as Decode>⟧.view v
        ≡ ⟦<(A, (B, (C,))) as FieldList>⟧.view (v.0, (v.1, record { 0 = v.2 })) }
    ensures four { ⟦<(A, B, C, D) as Decode>⟧.parse
        ≡ parse_record ⟦<(A, (B, (C, (D,)))) as FieldList>⟧.step }
    ensures four_view { (v : _) → ⟦<(A, B, C, D) as Decode>⟧.view v
        ≡ ⟦<(A, (B, (C, (D,)))) as FieldList>⟧.view (v.0, (v.1, (v.2, record { 0 = v.3 }))) }
    ensures five { ⟦<(A, B, C, D, E) as Decode>⟧.parse
        ≡ parse_record ⟦<(A, (B, (C, (D, (E,))))) as FieldList>⟧.step }
    ensures five_view { (v : _) → ⟦<(A, B, C, D, E) as Decode>⟧.view v
        ≡ ⟦<(A, (B, (C, (D, (E,))))) as FieldList>⟧.view
        (v.0, (v.1, (v.2, (v.3, record { 0 = v.4 })))) }
    ensures six { ⟦<(A, B, C, D, E, F) as Decode>⟧.parse
        ≡ parse_record ⟦<(A, (B, (C, (D, (E, (F,)))))) as FieldList>⟧.step }
    ensures six_view { (v : _) → ⟦<(A, B, C, D, E, F) as Decode>⟧.view v
        ≡ ⟦<(A, (B, (C, (D, (E, (F,)))))) as FieldList>⟧.view
        (v.0, (v.1, (v.2, (v.3, (v.4, record { 0 = v.5 }))))) }
    ensures seven { ⟦<(A, B, C, D, E, F, G) as Decode>⟧.parse
        ≡ parse_record ⟦<(A, (B, (C, (D, (E, (F, (G,))))))) as FieldList>⟧.step }
    ensures seven_view { (v : _) → ⟦<(A, B, C, D, E, F, G) as Decode>⟧.view v
        ≡ ⟦<(A, (B, (C, (D, (E, (F, (G,))))))) as FieldList>⟧.view
        (v.0, (v.1, (v.2, (v.3, (v.4, (v.5, record { 0 = v.6 })))))) }
    ensures eight { ⟦<(A, B, C, D, E, F, G, H) as Decode>⟧.parse
        ≡ parse_record ⟦<(A, (B, (C, (D, (E, (F, (G, (H,)))))))) as FieldList>⟧.step }
    ensures eight_view { (v : _) → ⟦<(A, B, C, D, E, F, G, H) as Decode>⟧.view v
        ≡ ⟦<(A, (B, (C, (D, (E, (F, (G, (H,)))))))) as FieldList>⟧.view
        (v.0, (v.1, (v.2, (v.3, (v.4, (v.5, (v.6, record { 0 = v.7 }))))))) }
    ensures nine { ⟦<(A, B, C, D, E, F, G, H, I) as Decode>⟧.parse
        ≡ parse_record ⟦<(A, (B, (C, (D, (E, (F, (G, (H, (I,))))))))) as FieldList>⟧.step }
    ensures nine_view { (v : _) → ⟦<(A, B, C, D, E, F, G, H, I) as Decode>⟧.view v
        ≡ ⟦<(A, (B, (C, (D, (E, (F, (G, (H, (I,))))))))) as FieldList>⟧.view
        (v.0, (v.1, (v.2, (v.3, (v.4, (v.5, (v.6, (v.7, record { 0 = v.8 })))))))) }
{}

/// A list of fields is one field, or one field and then a shorter list: in its bytes and texts, in what it says, and in
/// what it reads, refuses and asks memory for.
///
/// It holds also of fields that can only be read, as tuples and `()`.
pub fn lists_are_their_fields<A: Decode + Type, Rest: FieldList>()
    ensures one { SameFields ⟦<(A,) as FieldList>⟧.in_binary (IsRecordField A.accepts A.parse)
        × SameParts ⟦<(A,) as FieldList>⟧.in_text (IsTextField A.parse) }
    ensures one_view { (a : _) → ⟦<(A,) as FieldList>⟧.view a ≡ A.view a.0 }
    ensures one_step { ⟦<(A,) as FieldList>⟧.step ≡ next_field A.accepts A.parse }
    ensures more { SameFields ⟦<(A, Rest) as FieldList>⟧.in_binary
        (IsRecordField A.accepts A.parse and Rest.in_binary)
        × SameParts ⟦<(A, Rest) as FieldList>⟧.in_text (IsTextField A.parse before Rest.in_text) }
    ensures more_view { (l : _) → ⟦<(A, Rest) as FieldList>⟧.view l
        ≡ (let both : A.View × Rest.View = (A.view l.0, Rest.view l.1) in both) }
    ensures more_steps { ⟦<(A, Rest) as FieldList>⟧.step
        ≡ (next_field A.accepts A.parse then Rest.step) }
{}

/// What a list of fields writes, keeps and fits is what its one field does, or its first field and then the rest.
pub fn kept_lists_are_their_fields<A: ReadBack + Type, Rest: KeptList>()
    ensures one_written { (a : _) → ⟦<(A,) as WrittenList>⟧.fields a
        ≡ field A.info (A.encoding a.0) ∷ [] }
    ensures one_kept { (a : _) → ⟦<(A,) as FieldList>⟧.view (⟦<(A,) as KeptList>⟧.kept a)
        ≡ A.view (A.kept a.0) }
    ensures one_fits { (a : _) (t : Ty) (place : ℕ) (oids : List Oid)
        → ⟦<(A,) as KeptList>⟧.fits a t place oids
        ↔ FieldFits A.info A.encoding A.accepts A.fits a.0 t place oids }
    ensures more_written { (l : _) → ⟦<(A, Rest) as WrittenList>⟧.fields l
        ≡ field A.info (A.encoding l.0) ∷ Rest.fields l.1 }
    ensures more_kept { (l : _) → ⟦<(A, Rest) as FieldList>⟧.view
        (⟦<(A, Rest) as KeptList>⟧.kept l) ≡ (let both : A.View
        × Rest.View = (A.view (A.kept l.0), Rest.view (Rest.kept l.1)) in both) }
    ensures more_fit { (l : _) (t : Ty) (place : ℕ) (oids : List Oid)
        → ⟦<(A, Rest) as KeptList>⟧.fits l t place oids
        ↔ FieldsFit A.info A.encoding A.accepts A.fits l.0 (Rest.fits l.1) t place oids }
{}

/// Fields are decoded from bytes in binary as a tuple iff the bytes are a record of these fields, taken as a list
/// ([`tuple_is_its_list`]).
#[tactic(auto, using(crate::specs::RecordLemmas::record_found))]
pub fn tuple_is_its_fields<Fields: FieldList>()
    ensures { RecordIsItsFields (parse_record Fields.step) Fields.in_binary }
{}

/// After any calls of a record encoder, accepted and refused in any order, and then `finish`, the buffer holds what was
/// there before [`PgRecordEncoder::new`](crate::PgRecordEncoder::new), and after it the record of the accepted fields.
#[tactic(auto, using(crate::specs::RecordCalls::record_is_its_accepted))]
pub fn record_is_its_accepted_fields()
    ensures { RecordIsItsAccepted }
{}

/// A value that was written is read back in binary by its own type, as what it keeps: whatever the parameter type, or
/// with each slot at its default, and under every type that fits with the OIDs in the holes.
pub fn read_back<T: ReadBack>()
    ensures { ReadsBack T.encoding (reading_of T.parse) (λ v. T.view (T.kept v)) T.fits }
{}

/// Every OID is below 2^32.
fn oid_fits(oid: pgv_types::Oid)
    ensures { oid.0 < 2 ^ 32 }
{
    let _number = oid.0;
}

/// Every OID that is given to a filling is below 2^32.
pub fn oids_fit(oids: &[pgv_types::Oid])
    ensures { AreOids oids.now }
{
    for oid in oids {
        oid_fits(*oid);
    }
}

/// A field of a written record is read back by its own type, under each type that fits, and what comes after it is
/// left, with the OIDs of the holes there.
///
/// Applied to one field after another, it reads back every list of fields.
#[tactic(auto, using(crate::specs::RecordBackLemmas::next_back))]
pub fn field_reads_back<T: ReadBack + Type>()
    ensures { FieldReadsBack T.info T.encoding T.accepts T.parse (λ v. T.view (T.kept v)) T.fits }
{}

/// The fields of a written record follow its first four bytes, one after another.
#[tactic(auto, using(crate::specs::RecordBackLemmas::fields_back))]
pub fn record_fields_follow()
    ensures { RecordFieldsFollow }
{}

/// A tuple of the first fields of a written record, as a list ([`tuple_is_its_list`]), is read back from it under each
/// type that these fields fit, each with the OIDs that those before it leave.
#[tactic(auto, using(crate::specs::RecordBackLemmas::record_back))]
pub fn tuple_reads_back<Fields: KeptList>()
    ensures { (fields : Fields) (further : List (Outcome (List Token)))
        → RecordReadsBack (reading_of (parse_record Fields.step)) (Fields.fields fields ++ further)
        (Fields.view (Fields.kept fields)) (Fields.fits fields) }
{}

/// A plain value fits every type, so that it is read back under each.
pub fn plain_values_fit<T: Plain>()
    ensures { (v : T) (t : Ty) (oids : List Oid) → ⟦<T as ReadBack>⟧.fits v t oids }
{}

/// A value of one of these types fits every type: `bool`, `i8`, `i16`, `i32`, `i64`, `Oid`, `String`, `Uuid`, `Date`,
/// `Time`, `DateTime`, `Timestamp`, `PgInterval`, `IpNetwork`, `IpAddr`.
pub fn plain_types_fit()
    ensures bool { FitsAlways ⟦<bool as ReadBack>⟧.fits }
    ensures i8 { FitsAlways ⟦<i8 as ReadBack>⟧.fits }
    ensures i16 { FitsAlways ⟦<i16 as ReadBack>⟧.fits }
    ensures i32 { FitsAlways ⟦<i32 as ReadBack>⟧.fits }
    ensures i64 { FitsAlways ⟦<i64 as ReadBack>⟧.fits }
    ensures oid { FitsAlways ⟦<pgv_types::Oid as ReadBack>⟧.fits }
    ensures string { FitsAlways ⟦<String as ReadBack>⟧.fits }
    ensures uuid { FitsAlways ⟦<uuid::Uuid as ReadBack>⟧.fits }
    ensures date { FitsAlways ⟦<jiff::civil::Date as ReadBack>⟧.fits }
    ensures time { FitsAlways ⟦<jiff::civil::Time as ReadBack>⟧.fits }
    ensures date_time { FitsAlways ⟦<jiff::civil::DateTime as ReadBack>⟧.fits }
    ensures timestamp { FitsAlways ⟦<jiff::Timestamp as ReadBack>⟧.fits }
    ensures interval { FitsAlways ⟦<pgv_value::PgInterval as ReadBack>⟧.fits }
    ensures network { FitsAlways ⟦<pgv_scalar_text::IpNetwork as ReadBack>⟧.fits }
    ensures address { FitsAlways ⟦<std::net::IpAddr as ReadBack>⟧.fits }
{}

/// `None` fits every type and `Some` fits where its value does; lists, arrays and fields fit where the types of their
/// parts are found by the OIDs that were written, and the parts fit these types.
///
/// A list or an array fits exactly where the type of its elements is found by the OID that was written (the built-in
/// type of this OID, or, if there is none, the element of the array's type), and each element fits that type; so it
/// fits an array whose element has the OID that was written. A field fits a composite type, a domain over one or
/// `record`, if the type at its place has the OID that was written and is accepted, and the value fits it.
///
/// Applied at each place, a value made of others fits a type that is resolved and has its shape at every place, if each
/// OID that was written is that of the type there, and no custom type has a built-in's.
pub fn nests_fit<T: ReadBack + Type, const N: usize>()
    ensures none { (t : Ty) (oids : List Oid) → ⟦<Option<T> as ReadBack>⟧.fits None t oids }
    ensures some { (v : T) (t : Ty) (oids : List Oid)
        → ⟦<Option<T> as ReadBack>⟧.fits (Some v) t oids ↔ T.fits v t oids }
    ensures list_exactly { (v : _) (t : Ty) (oids : List Oid) → ⟦<Vec<T> as ReadBack>⟧.fits v t oids
        ↔ ArrayFits T.info T.encoding T.fits v.items t oids }
    ensures array_exactly { (v : _) (t : Ty) (oids : List Oid)
        → ⟦<[T; N] as ReadBack>⟧.fits v t oids ↔ ArrayFits T.info T.encoding T.fits v t oids }
    ensures list { (v : _) (t : Ty) (oids : List Oid)
        → ArrayIsPlain T.info T.encoding T.fits v.items t oids
        → ⟦<Vec<T> as ReadBack>⟧.fits v t oids }
    ensures array { (v : _) (t : Ty) (oids : List Oid)
        → ArrayIsPlain T.info T.encoding T.fits v t oids → ⟦<[T; N] as ReadBack>⟧.fits v t oids }
    ensures field { (v : T) (t : Ty) (place : ℕ) (oids : List Oid)
        → FieldIsPlain T.info T.encoding T.accepts T.fits v t place oids
        → FieldFits T.info T.encoding T.accepts T.fits v t place oids }
{}

/// The hint, the image and the type that an encoder gives for a value depend on what the value says alone, so that
/// values of one view are written alike.
pub fn written_as_read<T: Codec>(value: &T)
    ensures { T.encoding value.now ≡ T.written T.info (T.view value.now) }
{}

/// `()` is a void (OID 2278), read under void and record from any bytes and from null, without a request for memory.
///
/// It is never written. The laws of `pgv` say what each other type is.
pub fn unit_is_a_void()
    ensures types { ⟦<() as Type>⟧.info ≡ builtin 2278 }
    ensures accepts { (t : Ty) → ⟦<() as Type>⟧.accepts t ≡ is_void_or_record t }
    ensures parsed { (value : Given) → ⟦<() as Decode>⟧.parse value ≡ done tt }
{}
