//! The fields of a record, read one after another into a list of values of any types.

ghost use Rattle.std.specs.Prelude.{◌≡◌, ℕ, List, [], ◌∷◌, ◌++◌, OnErr};
ghost use Rattle.pgv_value.specs.Outcome.{Gives, Outcome};
ghost use Rattle.pgv_codec.specs.RecordLemmas.{one_found, further_found};
ghost use Rattle.pgv_codec.specs.NestTextLemmas.{one_field_text, further_text};
ghost use Rattle.pgv_codec.specs.NestBinary.{FindExactly, Stretch, IsRecordField, ◌and◌};
ghost use Rattle.pgv_codec.specs.NestText.{FindInText, TextStretch, IsTextField, ◌before◌};
ghost use Rattle.pgv_codec.specs.RecordGrammar.{Left, next_field, parse_record, ◌then◌};
ghost use Rattle.pgv_buf.specs.Tokens.{Token};
ghost use Rattle.pgv_types.specs.Ty.{Ty};
ghost use Rattle.pgv_types.specs.declared.oid.Oid.{Oid};
ghost use Rattle.pgv_codec.specs.AgreeLemmas.{further_agrees, last_agrees};
ghost use Rattle.pgv_codec.specs.Back.{FieldFits, FieldsFit, FieldsBack};
ghost use Rattle.pgv_codec.specs.RecordBackLemmas.{last_back, further_back};
ghost use Rattle.pgv_codec.specs.Appending.{Encodes, Extends};
ghost use Rattle.pgv_codec.specs.Encoding.{field, record_image};
ghost use Rattle.pgv_codec.specs.Record.{WritesFields, so_far};
ghost use Rattle.pgv_codec.specs.WrittenView.{buffer, written};

use super::record::{PgRecordDecoder, PgRecordEncoder};
use crate::buffer::{IsNull, PgArgumentBuffer};
use crate::traits::{Codec, Decode, Encode, ReadBack, Type};
use pgv_value::{CodecError, PgValueRef};
use std::alloc::Global;

/// A list of values of any types, as nested pairs that end in a tuple of one: `(A, (B, (C,)))`. Every tuple is read
/// through such a list, so that what is proved of one field and of the rest holds for tuples of any length.
pub trait FieldList: Sized + Drop {
    /// What the values say.
    ghost View: { Type 0 };

    /// What the values say.
    ghost view: { Self → View };

    /// The fields that are read, and what is left after them, or why one isn't.
    ghost step: { Left → Outcome (View × Left) };

    /// The fields that are written of what the values say, where they are written too (see [`CodecList`]).
    ghost written_fields: { View → List (Outcome (List Token)) };

    /// What the bytes of such fields are.
    ghost in_binary: { Stretch View };

    /// What the parts of a text are that are such fields.
    ghost in_text: { TextStretch View };

    /// Reads the next fields. What a refusal leaves of the decoder is left open.
    fn read(fields: &mut PgRecordDecoder<'_>) -> Result<Self, CodecError>
        ensures { Gives (λ list. (view list, fields.new)) (step fields.old) result };

    /// Such fields are read, and nothing else is.
    ghost found: { FindExactly step in_binary };

    /// So it is in text.
    ghost found_in_text: { FindInText step in_text };
}

/// The last field.
impl<A: Type + Decode> FieldList for (A,) {
    ghost View = { A.View };

    ghost view = { λ list. A.view list.0 };

    ghost step = { next_field A.accepts A.parse };

    ghost written_fields = { λ says. field A.info (A.written A.info says) ∷ [] };

    ghost in_binary = { IsRecordField A.accepts A.parse };

    ghost in_text = { IsTextField A.parse };

    #[inline(always)]
    fn read(fields: &mut PgRecordDecoder<'_>) -> Result<(A,), CodecError> {
        Ok((fields.try_decode::<A>()?,))
    }

    ghost found = { one_found A.accepts A.parse };

    ghost found_in_text = { one_field_text A.accepts A.parse };
}

/// A field and the rest.
impl<A: Type + Decode, Rest: FieldList> FieldList for (A, Rest) {
    ghost View = { A.View × Rest.View };

    ghost view = { λ list. (A.view list.0, Rest.view list.1) };

    ghost step = { next_field A.accepts A.parse then Rest.step };

    ghost written_fields = { λ says. field A.info (A.written A.info says.0) ∷ Rest.written_fields says.1 };

    ghost in_binary = { IsRecordField A.accepts A.parse and Rest.in_binary };

    ghost in_text = { IsTextField A.parse before Rest.in_text };

    #[inline(always)]
    fn read(fields: &mut PgRecordDecoder<'_>) -> Result<(A, Rest), CodecError> {
        let first = fields.try_decode::<A>()?;
        let rest = Rest::read(fields)?;
        Ok((first, rest))
    }

    ghost found = { further_found A.accepts A.parse Rest.step Rest.in_binary Rest.found };

    ghost found_in_text = { further_text A.accepts A.parse Rest.step Rest.in_text Rest.found_in_text };
}

/// Such a list of values, or of references to them, that is written as the fields of a record.
pub trait WrittenList {
    /// The fields that are written, or why one isn't.
    ghost fields: { Self → List (Outcome (List Token)) };

    /// Writes the fields. What a refusal leaves of the record is left open.
    fn write(&self, to: &mut PgRecordEncoder<'_>) -> Result<(), CodecError>
        ensures same_reference { to.new.out.ghost_name ≡ to.old.out.ghost_name }
        ensures exact { WritesFields (fields self.now) (written to.old) (written to.new) result }
        ensures before { (written to.new).before ≡ (written to.old).before }
        ensures so_far { buffer to.new ≡ so_far (written to.new) };
}

/// The last field.
impl<A: Encode + Type> WrittenList for (A,) {
    ghost fields = { λ list. field A.info (A.encoding list.0) ∷ [] };

    #[inline(always)]
    fn write(&self, to: &mut PgRecordEncoder<'_>) -> Result<(), CodecError> {
        to.encode(&self.0)
    }
}

/// A field and the rest.
impl<A: Encode + Type, Rest: WrittenList> WrittenList for (A, Rest) {
    ghost fields = { λ list. field A.info (A.encoding list.0) ∷ Rest.fields list.1 };

    #[inline(always)]
    fn write(&self, to: &mut PgRecordEncoder<'_>) -> Result<(), CodecError> {
        to.encode(&self.0)?;
        self.1.write(to)
    }
}

/// Appends a record of a list of fields, for a caller's own encoder: `encode_record(&(&self.id, (&self.path,)), out)`.
/// A refusal may have appended something.
#[tactic(auto, unfolding(crate::specs::Encoding::record_image))]
pub fn encode_record<Fields: WrittenList>(
    fields: &Fields,
    out: &mut PgArgumentBuffer,
) -> Result<IsNull, CodecError>
    ensures encodes { Encodes (record_image (Fields.fields fields.now)) out.old out.new result }
    ensures appended { OnErr result (Extends out.old out.new) }
{
    let mut record = PgRecordEncoder::new(out)?;
    fields.write(&mut record)?;
    record.finish();
    Ok(IsNull::No)
}

/// Such a list of values that can be written and read back.
pub trait KeptList: FieldList + WrittenList {
    /// The values as they come back.
    ghost kept: { Self → Self };

    /// Whether the values come back under a type, from a place of it on, where these OIDs are in their holes, in order.
    ghost fits: { Self → Ty → ℕ → List Oid → Type 0 };

    /// The fields that are written are read back, whatever comes after them.
    ghost reads_back: { (list : Self) (further : List (Outcome (List Token))) → FieldsBack Self.step (Self.fields list ++ further) (Self.view (kept list)) (fits list) };
}

/// The last field.
impl<A: ReadBack + Type> KeptList for (A,) {
    ghost kept = { λ list. record { 0 = A.kept list.0 } };

    ghost fits = { λ list. FieldFits A.info A.encoding A.accepts A.fits list.0 };

    ghost reads_back = { λ list. last_back A.info A.encoding A.accepts A.parse (λ v. A.view (A.kept v)) A.fits A.reads_back list.0 };
}

/// A field and the rest.
impl<A: ReadBack + Type, Rest: KeptList> KeptList for (A, Rest) {
    ghost kept = { λ list. (A.kept list.0, Rest.kept list.1) };

    ghost fits = { λ list. FieldsFit A.info A.encoding A.accepts A.fits list.0 (Rest.fits list.1) };

    ghost reads_back = { λ list further. further_back A.info A.encoding A.accepts A.parse (λ v. A.view (A.kept v)) A.fits A.reads_back list.0 (Rest.reads_back list.1 further) };
}

/// Such a list that is written by what it says alone: two lists of one view are written alike.
pub trait CodecList: KeptList {
    /// The fields of a list are those that are written of what it says.
    ghost agrees: { (list : Self) → Self.fields list ≡ Self.written_fields (Self.view list) };
}

/// The last field.
impl<A: Codec + ReadBack> CodecList for (A,) {
    ghost agrees = { λ list. last_agrees A.info (A.agrees list.0) };
}

/// A field and the rest.
impl<A: Codec + ReadBack, Rest: CodecList> CodecList for (A, Rest) {
    ghost agrees = { λ list. further_agrees A.info (A.agrees list.0) (Rest.agrees list.1) };
}

/// The first fields of a record, as [`PgRecordDecoder`] reads them; further fields are ignored.
#[inline(always)]
pub fn first_fields<List: FieldList>(
    alloc: Global,
    value: PgValueRef<'_>,
) -> Result<List, CodecError>
    ensures { Gives List.view (parse_record List.step value.entry) result }
{
    let mut fields = PgRecordDecoder::new(alloc, value)?;
    List::read(&mut fields)
}
