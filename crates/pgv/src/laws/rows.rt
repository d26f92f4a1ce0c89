//! Laws that say what each type is: the type that its values and its arrays have, the types under which they are read,
//! what they are written as and what is read. PostgreSQL lists the OIDs in `pg_type`; the binary forms are those of its
//! send functions.
//!
//! Each is the contract of a function that does nothing. A codec that reads nothing, or writes nothing, meets its
//! trait's contract; it does not meet its row.

ghost use Rattle.std.specs.Prelude.{◌≡◌, option_map, string_bytes, map};
ghost use Rattle.std.specs.Int.{w8, w16, w32, w64};
ghost use Rattle.pgv_types.specs.Ty.{builtin};
ghost use Rattle.pgv_value.specs.Outcome.{without_memory};
ghost use Rattle.pgv_value.specs.ScalarGrammar.{parse_bool, parse_char, parse_int, parse_oid, parse_uuid};
ghost use Rattle.pgv_value.specs.Text.{parse_text};
ghost use Rattle.pgv_codec.specs.ArrayGrammar.{parse_array, parse_sized};
ghost use Rattle.pgv_codec.specs.Encoding.{array_image, option_encoding, plainly, sized_image, writes};
ghost use Rattle.pgv_codec.specs.Nullable.{nullable};
ghost use Rattle.pgv_codec.specs.TypeRow.{HasArrayType, HasType, HasTypes, IsCodecRow, IsReadAs, IsWrittenAs};
ghost use Rattle.pgv_codec.specs.ScalarImage.{bool_image, signed_image, unsigned_image, text_image, uuid_image, is_text, is_text_array};

use pgv_codec::{Decode, Encode, PgHasArrayType, Plain, ReadBack, Type};
use pgv_types::Oid;
use uuid::Uuid;

/// A `bool` is a boolean (OID 16), written as the byte 00 or 01, as `01` for true. Its arrays are `bool[]` (1000).
pub fn bool_is_a_boolean()
    ensures { IsCodecRow ⟦<bool as Type>⟧ ⟦<bool as PgHasArrayType>⟧
        ⟦<bool as Encode>⟧ ⟦<bool as Decode>⟧ ⟦<bool as ReadBack>⟧.kept (record {
          info = builtin 16;
          array = builtin 1000;
          encoding = λ v. plainly (writes (bool_image v));
          view = λ v. v;
          parse = without_memory parse_bool;
          kept = λ v. v;
        }) }
{}

/// An `i8` is a `"char"` (OID 18), one byte in two's complement, as `ff` for -1. Its arrays are `"char"[]` (1002).
pub fn i8_is_a_char()
    ensures { IsCodecRow ⟦<i8 as Type>⟧ ⟦<i8 as PgHasArrayType>⟧
        ⟦<i8 as Encode>⟧ ⟦<i8 as Decode>⟧ ⟦<i8 as ReadBack>⟧.kept (record {
          info = builtin 18;
          array = builtin 1002;
          encoding = λ v. plainly (writes (signed_image w8 v));
          view = λ v. v;
          parse = without_memory parse_char;
          kept = λ v. v;
        }) }
{}

/// An `i16` is an int2 (OID 21), two bytes, as `0007` for 7. Its arrays are `int2[]` (1005).
pub fn i16_is_an_int2()
    ensures { IsCodecRow ⟦<i16 as Type>⟧ ⟦<i16 as PgHasArrayType>⟧
        ⟦<i16 as Encode>⟧ ⟦<i16 as Decode>⟧ ⟦<i16 as ReadBack>⟧.kept (record {
          info = builtin 21;
          array = builtin 1005;
          encoding = λ v. plainly (writes (signed_image w16 v));
          view = λ v. v;
          parse = without_memory (parse_int w16);
          kept = λ v. v;
        }) }
{}

/// An `i32` is an int4 (OID 23), four bytes, as `00000007` for 7. Its arrays are `int4[]` (1007).
pub fn i32_is_an_int4()
    ensures { IsCodecRow ⟦<i32 as Type>⟧ ⟦<i32 as PgHasArrayType>⟧
        ⟦<i32 as Encode>⟧ ⟦<i32 as Decode>⟧ ⟦<i32 as ReadBack>⟧.kept (record {
          info = builtin 23;
          array = builtin 1007;
          encoding = λ v. plainly (writes (signed_image w32 v));
          view = λ v. v;
          parse = without_memory (parse_int w32);
          kept = λ v. v;
        }) }
{}

/// An `i64` is an int8 (OID 20), eight bytes, as `0000000000000007` for 7. Its arrays are `int8[]` (1016).
pub fn i64_is_an_int8()
    ensures { IsCodecRow ⟦<i64 as Type>⟧ ⟦<i64 as PgHasArrayType>⟧
        ⟦<i64 as Encode>⟧ ⟦<i64 as Decode>⟧ ⟦<i64 as ReadBack>⟧.kept (record {
          info = builtin 20;
          array = builtin 1016;
          encoding = λ v. plainly (writes (signed_image w64 v));
          view = λ v. v;
          parse = without_memory (parse_int w64);
          kept = λ v. v;
        }) }
{}

/// An `Oid` is an oid (OID 26), four bytes, as `00000019` for that of text. Its arrays are `oid[]` (1028).
pub fn oid_is_an_oid()
    ensures { IsCodecRow ⟦<Oid as Type>⟧ ⟦<Oid as PgHasArrayType>⟧
        ⟦<Oid as Encode>⟧ ⟦<Oid as Decode>⟧ ⟦<Oid as ReadBack>⟧.kept (record {
          info = builtin 26;
          array = builtin 1028;
          encoding = λ o. plainly (writes (unsigned_image w32 o.0));
          view = λ o. o.0;
          parse = without_memory parse_oid;
          kept = λ o. o.0;
        }) }
{}

/// A `Uuid` is a uuid (OID 2950), its sixteen bytes. Its arrays are `uuid[]` (2951).
pub fn uuid_is_a_uuid()
    ensures { IsCodecRow ⟦<Uuid as Type>⟧ ⟦<Uuid as PgHasArrayType>⟧
        ⟦<Uuid as Encode>⟧ ⟦<Uuid as Decode>⟧ ⟦<Uuid as ReadBack>⟧.kept (record {
          info = builtin 2950;
          array = builtin 2951;
          encoding = λ v. plainly (writes (uuid_image v));
          view = λ v. v;
          parse = without_memory parse_uuid;
          kept = λ v. v;
        }) }
{}

/// A `String` is a text (OID 25), its bytes in UTF-8, as `6869` for `hi`. It is read under text, name, bpchar, varchar,
/// unknown and citext. Its arrays are `text[]` (1009), read under each array of one of these.
pub fn string_is_a_text()
    ensures types { HasType ⟦<String as Type>⟧ (builtin 25) is_text }
    ensures arrays { HasArrayType ⟦<String as PgHasArrayType>⟧ (builtin 1009) is_text_array }
    ensures written { IsWrittenAs ⟦<String as Encode>⟧
        (λ s. plainly (writes (text_image (string_bytes s)))) }
    ensures read { IsReadAs ⟦<String as Decode>⟧ (λ s. string_bytes s) parse_text }
{}

/// What the decoder of a plain type reads, what it refuses with and where it may ask for memory are the three parts of
/// the type's one grammar.
pub fn plain_types_are_parsed<T: Plain>()
    ensures view { ⟦<T as Decode>⟧.view ≡ T.view }
    ensures parsed { ⟦<T as Decode>⟧.parse ≡ T.parse }
{}

/// An `Option<T>` has the types of `T`. None is null, Some is written as its value, and null is read as None.
pub fn option_may_be_null<T: Type + Encode + Decode + PgHasArrayType>()
    ensures types { HasType ⟦<Option<T> as Type>⟧ T.info T.accepts }
    ensures arrays { HasArrayType ⟦<Option<T> as PgHasArrayType>⟧ T.array_info T.accepts_array }
    ensures written { IsWrittenAs ⟦<Option<T> as Encode>⟧ (option_encoding T.info T.encoding) }
    ensures read { IsReadAs ⟦<Option<T> as Decode>⟧ (option_map T.view) (nullable T.parse) }
{}

/// A `&T` has the types of `T`, and is written or refused as the value that it refers to.
pub fn reference_is_its_value<'a, T: Type + Encode + PgHasArrayType>()
    ensures types { HasType ⟦<&'a T as Type>⟧ T.info T.accepts }
    ensures arrays { HasArrayType ⟦<&'a T as PgHasArrayType>⟧ T.array_info T.accepts_array }
    ensures written { IsWrittenAs ⟦<&'a T as Encode>⟧ (λ r. T.encoding r.now) }
{}

/// A `Vec<T>` has the type of `T`'s arrays, and is written and read as an array of one dimension.
pub fn list_is_an_array<T: Type + Encode + Decode + PgHasArrayType>()
    ensures types { HasType ⟦<Vec<T> as Type>⟧ T.array_info T.accepts_array }
    ensures written { IsWrittenAs ⟦<Vec<T> as Encode>⟧
        (λ v. plainly (array_image T.info (map T.encoding v.items))) }
    ensures read { IsReadAs ⟦<Vec<T> as Decode>⟧ (λ v. map T.view v.items)
        (parse_array T.info T.parse) }
{}

/// A `[T; N]` has the type of `T`'s arrays, and is written and read as an array of `N` elements.
pub fn sized_array_is_an_array<T: Type + Encode + Decode + PgHasArrayType, const N: usize>()
    ensures types { HasType ⟦<[T; N] as Type>⟧ T.array_info T.accepts_array }
    ensures written { IsWrittenAs ⟦<[T; N] as Encode>⟧
        (λ v. plainly (sized_image N T.info (map T.encoding v))) }
    ensures read { IsReadAs ⟦<[T; N] as Decode>⟧ (map T.view) (parse_sized N T.info T.parse) }
{}

/// A tuple is a record (OID 2249), and its arrays are `record[]` (2287). The law
/// [`tuple_is_its_fields`](pgv_codec::laws::tuple_is_its_fields) says what it reads.
pub fn tuple_is_a_record<A, B, C, D, E, F, G, H, I>()
    ensures one { HasTypes ⟦<(A,) as Type>⟧ ⟦<(A,) as PgHasArrayType>⟧
        (builtin 2249) (builtin 2287) }
    ensures two { HasTypes ⟦<(A, B) as Type>⟧ ⟦<(A, B) as PgHasArrayType>⟧
        (builtin 2249) (builtin 2287) }
    ensures three { HasTypes ⟦<(A, B, C) as Type>⟧ ⟦<(A, B, C) as PgHasArrayType>⟧
        (builtin 2249) (builtin 2287) }
    ensures four { HasTypes ⟦<(A, B, C, D) as Type>⟧ ⟦<(A, B, C, D) as PgHasArrayType>⟧
        (builtin 2249) (builtin 2287) }
    ensures five { HasTypes ⟦<(A, B, C, D, E) as Type>⟧ ⟦<(A, B, C, D, E) as PgHasArrayType>⟧
        (builtin 2249) (builtin 2287) }
    ensures six { HasTypes ⟦<(A, B, C, D, E, F) as Type>⟧ ⟦<(A, B, C, D, E, F) as PgHasArrayType>⟧
        (builtin 2249) (builtin 2287) }
    ensures seven { HasTypes ⟦<(A, B, C, D, E, F, G) as Type>⟧
        ⟦<(A, B, C, D, E, F, G) as PgHasArrayType>⟧ (builtin 2249) (builtin 2287) }
    ensures eight { HasTypes ⟦<(A, B, C, D, E, F, G, H) as Type>⟧
        ⟦<(A, B, C, D, E, F, G, H) as PgHasArrayType>⟧ (builtin 2249) (builtin 2287) }
    ensures nine { HasTypes ⟦<(A, B, C, D, E, F, G, H, I) as Type>⟧
        ⟦<(A, B, C, D, E, F, G, H, I) as PgHasArrayType>⟧ (builtin 2249) (builtin 2287) }
{}
