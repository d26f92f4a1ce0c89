//! Laws of bits, MAC addresses, times with offsets, bytes and texts without case. Each is the contract of a function
//! that does nothing.

ghost use Rattle.std.specs.Prelude.{◌≡◌, ◌↔◌, ℕ, Bool, true, List, codes, string_bytes};
ghost use Rattle.jiff.specs.Words.{time_nanos};
ghost use Rattle.pgv_types.specs.Ty.{builtin, named};
ghost use Rattle.pgv_codec.specs.Encoding.{plainly, with_hint, writes};
ghost use Rattle.pgv_codec.specs.ScalarImage.{text_image};
ghost use Rattle.pgv_codec.specs.TypeRow.{FitsAlways, HasArrayType, HasType, IsCodecRow, IsReadAs, IsWrittenAs};
ghost use Rattle.pgv_value.specs.Outcome.{without_memory};
ghost use Rattle.pgv_more.specs.ByteaText.{parse_bytea, parse_bytea_sized, bytea_sized_image, ByteaTextIsRead, OneByteaText};
ghost use Rattle.pgv_more.specs.BitsBinary.{bits_image, bits_hint, BitsAreRead, OneListOfBits};
ghost use Rattle.pgv_more.specs.BitsText.{BitsAreReadOfText};
ghost use Rattle.pgv_more.specs.BitsCodec.{is_bits, is_bits_array, parse_bits};
ghost use Rattle.pgv_more.specs.PackedBits.{PackedIsOne};
ghost use Rattle.pgv_more.specs.MacAddressCodec.{mac_image, parse_mac};
ghost use Rattle.pgv_more.specs.MacAddressText.{MacAddressIsRead, OneMacAddress};
ghost use Rattle.pgv_more.specs.TimeTzCodec.{time_tz_numbers, time_tz_image, parse_time_tz};
ghost use Rattle.pgv_codec.specs.DateTimeKept.{time_kept};

use crate::{PgBytea, PgByteaArray, PgCiText, PgTimeTz};
use pgv_codec::{Decode, Encode, PgHasArrayType, ReadBack, Type};

/// A `BitVec` is a varbit (OID 1562), the number of bits and then its bytes, as `00000003a0` for `101`. It is read
/// under bit and varbit. Its arrays are `varbit[]` (1563), read under arrays of these two.
pub fn bit_vec_is_a_varbit()
    ensures types { HasType ⟦<crate::BitVec as Type>⟧ (builtin 1562) is_bits }
    ensures arrays { HasArrayType ⟦<crate::BitVec as PgHasArrayType>⟧ (builtin 1563) is_bits_array }
    ensures written { IsWrittenAs ⟦<crate::BitVec as Encode>⟧
        (λ v. with_hint (bits_hint v) (bits_image v)) }
    ensures read { IsReadAs ⟦<crate::BitVec as Decode>⟧ (λ v. v) parse_bits }
{}

/// A `MacAddress` is a macaddr (OID 829), its six bytes, as `08002b010203`. Its arrays are `macaddr[]` (1040).
pub fn mac_address_is_a_macaddr()
    ensures { IsCodecRow ⟦<crate::MacAddress as Type>⟧ ⟦<crate::MacAddress as PgHasArrayType>⟧
        ⟦<crate::MacAddress as Encode>⟧ ⟦<crate::MacAddress as Decode>⟧
        ⟦<crate::MacAddress as ReadBack>⟧.kept (record {
          info = builtin 829;
          array = builtin 1040;
          encoding = λ v. with_hint 6 (writes (mac_image v));
          view = λ v. v;
          parse = without_memory parse_mac;
          kept = λ v. v;
        }) }
{}

/// A `PgTimeTz` is a timetz (OID 1266), the microseconds of the day and the seconds west of UTC, as
/// `0000000a7a358200ffffe3e0` for 12:30 two hours east. Its arrays are `timetz[]` (1270).
pub fn time_tz_is_a_timetz()
    ensures { IsCodecRow ⟦<PgTimeTz as Type>⟧ ⟦<PgTimeTz as PgHasArrayType>⟧
        ⟦<PgTimeTz as Encode>⟧ ⟦<PgTimeTz as Decode>⟧ ⟦<PgTimeTz as ReadBack>⟧.kept (record {
          info = builtin 1266;
          array = builtin 1270;
          encoding = λ v. with_hint 12 (time_tz_image (time_tz_numbers v));
          view = time_tz_numbers;
          parse = without_memory parse_time_tz;
          kept = λ v. time_tz_numbers (record { time = time_kept v.time; offset = v.offset });
        }) }
{}

/// `packed` turns bits into bytes iff the bits of these bytes are the given ones and then fewer than eight zeros.
#[tactic(auto, using(crate::proofs::LawsOfBits::packed_is_one))]
pub fn packed_is_one()
    ensures { PackedIsOne }
{}

/// `bits_in_binary` reads bits from bytes iff the bytes are a binary form of these bits, whatever fills the last byte.
#[tactic(auto, using(crate::proofs::LawsOfBits::bits_are_read))]
pub fn bits_are_read()
    ensures { BitsAreRead }
{}

/// Bytes are the binary form of at most one list of bits.
#[tactic(auto, using(crate::proofs::LawsOfBits::one_list_of_bits))]
pub fn one_list_of_bits()
    ensures { OneListOfBits }
{}

/// `bits_in_text` reads bits from a text iff the text is the digit `0` or `1` of each bit in turn.
#[tactic(auto, using(crate::proofs::LawsOfBits::bits_are_read_of_text))]
pub fn bits_are_read_of_text()
    ensures { BitsAreReadOfText }
{}

/// `mac_value` reads six bytes from a text iff the grammar of MAC addresses assigns these bytes to the text.
#[tactic(auto, using(crate::proofs::LawsOfMacs::mac_address_is_read))]
pub fn mac_address_is_read()
    ensures { MacAddressIsRead }
{}

/// A text denotes at most one MAC address.
#[tactic(auto, using(crate::proofs::LawsOfMacs::one_mac_address))]
pub fn one_mac_address()
    ensures { OneMacAddress }
{}

/// A `PgBytea` is a bytea (OID 17), its bytes. Its arrays are `bytea[]` (1001).
pub fn bytea_is_a_bytea()
    ensures { IsCodecRow ⟦<PgBytea as Type>⟧ ⟦<PgBytea as PgHasArrayType>⟧
        ⟦<PgBytea as Encode>⟧ ⟦<PgBytea as Decode>⟧ ⟦<PgBytea as ReadBack>⟧.kept (record {
          info = builtin 17;
          array = builtin 1001;
          encoding = λ b. plainly (writes (text_image b.0.items));
          view = λ b. b.0.items;
          parse = parse_bytea;
          kept = λ b. b.0.items;
        }) }
{}

/// A `PgByteaArray<N>` is a bytea (OID 17) of `N` bytes. Its arrays are `bytea[]` (1001).
pub fn bytea_array_is_a_bytea<const N: usize>()
    ensures { IsCodecRow ⟦<PgByteaArray<N> as Type>⟧ ⟦<PgByteaArray<N> as PgHasArrayType>⟧
        ⟦<PgByteaArray<N> as Encode>⟧ ⟦<PgByteaArray<N> as Decode>⟧
        ⟦<PgByteaArray<N> as ReadBack>⟧.kept (record {
          info = builtin 17;
          array = builtin 1001;
          encoding = λ b. plainly (writes (bytea_sized_image N b.0));
          view = λ b. b.0;
          parse = without_memory (parse_bytea_sized N);
          kept = λ b. b.0;
        }) }
{}

/// A `PgCiText` is a citext, known by its name, written as its bytes and read as a `String` is.
pub fn ci_text_is_a_citext()
    ensures types { HasType ⟦<PgCiText as Type>⟧ (named (codes "citext"))
        ⟦<String as Type>⟧.accepts }
    ensures arrays { HasArrayType ⟦<PgCiText as PgHasArrayType>⟧ (named (codes "_citext"))
        ⟦<String as PgHasArrayType>⟧.accepts_array }
    ensures written { IsWrittenAs ⟦<PgCiText as Encode>⟧
        (λ text. plainly (writes (text_image (string_bytes text.0)))) }
    ensures read { IsReadAs ⟦<PgCiText as Decode>⟧ (λ text. string_bytes text.0)
        ⟦<String as Decode>⟧.parse }
{}

/// Two `PgTimeTz` are equal iff their times of day and their offsets are; two `MacAddress`, `PgCiText`, `PgBytea` or
/// `PgByteaArray<N>` are equal iff their bytes are, so that the case of a text counts.
pub fn equal_values<const N: usize>()
    ensures times { (a b : PgTimeTz) → (⟦<PgTimeTz as PartialEq>⟧.eq a b ≡ true)
        ↔ ((time_nanos a.time ≡ time_nanos b.time) × (a.offset.seconds ≡ b.offset.seconds)) }
    ensures addresses { (a b : List ℕ) → (⟦<crate::MacAddress as PartialEq>⟧.eq a b ≡ true)
        ↔ (a ≡ b) }
    ensures texts { (a b : PgCiText) → (⟦<PgCiText as PartialEq>⟧.eq a b ≡ true)
        ↔ (string_bytes a.0 ≡ string_bytes b.0) }
    ensures bytes { (a b : PgBytea) → (⟦<PgBytea as PartialEq>⟧.eq a b ≡ true)
        ↔ (a.0.items ≡ b.0.items) }
    ensures arrays { (a b : _) → (⟦<PgByteaArray<N> as PartialEq>⟧.eq a b ≡ true) ↔ (a.0 ≡ b.0) }
{}

/// Two lists of bits are equal iff they have the same bits.
#[tactic(auto, using(crate::proofs::Kept::equal_bits))]
pub fn equal_bits()
    ensures { (a b : List Bool) → (⟦<crate::BitVec as PartialEq>⟧.eq a b ≡ true) ↔ (a ≡ b) }
{}

/// `bytea_in_text` reads bytes from a text iff the text is `\x` and then two hex digits for each of these bytes.
#[tactic(auto, using(crate::proofs::LawsOfBytea::bytea_text_is_read))]
pub fn bytea_text_is_read()
    ensures { ByteaTextIsRead }
{}

/// A text denotes at most one string of bytes.
#[tactic(auto, using(crate::proofs::LawsOfBytea::one_bytea_text))]
pub fn one_bytea_text()
    ensures { OneByteaText }
{}

/// A `BitVec`, `MacAddress`, `PgTimeTz`, `PgBytea`, `PgByteaArray<N>` or `PgCiText` fits every type, so that it is read
/// back under each.
pub fn plain_types_fit<const N: usize>()
    ensures bits { FitsAlways ⟦<crate::BitVec as ReadBack>⟧.fits }
    ensures mac_address { FitsAlways ⟦<crate::MacAddress as ReadBack>⟧.fits }
    ensures time_tz { FitsAlways ⟦<PgTimeTz as ReadBack>⟧.fits }
    ensures bytea { FitsAlways ⟦<PgBytea as ReadBack>⟧.fits }
    ensures bytea_array { FitsAlways ⟦<PgByteaArray<N> as ReadBack>⟧.fits }
    ensures citext { FitsAlways ⟦<PgCiText as ReadBack>⟧.fits }
{}
