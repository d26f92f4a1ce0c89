//! Laws of arrays and records, in binary and in text: each is the contract of a function that does nothing.

ghost use Rattle.std.specs.Prelude.{Bool};
ghost use Rattle.pgv_types.specs.Ty.{Ty};
ghost use Rattle.pgv_value.specs.Outcome.{Outcome};
ghost use Rattle.pgv_value.specs.ValueView.{Given};
ghost use Rattle.pgv_codec.specs.NestText.{RecordTextBegins, TextFieldIsItsValue};
ghost use Rattle.pgv_codec.specs.NestBinary.{ArrayIsItsElements, FewElements, OneArray, FieldTypeIsFound, FieldIsItsValue, OneField, RecordBegins};

use pgv_text::laws::record_is_its_values;

/// `array_in_binary` reads elements from bytes in binary iff the bytes are an array of these elements, whatever reads
/// each of them (PostgreSQL: "Arrays"; array_send).
#[tactic(auto, using(crate::proofs::ArrayGrammars::array_exactly))]
pub fn array_is_its_elements<M>()
    ensures { (parse : Given → Outcome M) → ArrayIsItsElements parse }
{}

/// An array in binary has at most a quarter as many elements as bytes.
///
/// Each element takes four bytes or more. This holds for lists and for arrays of a fixed number of elements.
#[tactic(auto, using(crate::proofs::ArrayGrammars::few_elements))]
pub fn few_elements<M>()
    ensures { (parse : Given → Outcome M) → FewElements parse }
{}

/// Under a type, bytes in binary are an array of at most one list of elements.
#[tactic(auto, using(crate::proofs::ArrayGrammars::one_array))]
pub fn one_array<M>()
    ensures { (parse : Given → Outcome M) → OneArray parse }
{}

/// `field_type` finds a type for a place and an OID iff the field of a record at this place, with this OID, has this
/// type.
#[tactic(auto, using(crate::specs::RecordLemmas::field_type_found))]
pub fn field_type_is_found()
    ensures { FieldTypeIsFound }
{}

/// `field_in_binary` reads a value from bytes in binary and leaves a rest iff the bytes begin with a record's field of
/// this value and go on with this rest, whatever reads the value (PostgreSQL: "Composite Types"; record_send).
#[tactic(auto, using(crate::specs::RecordLemmas::field_is_its_value))]
pub fn field_is_its_value<M>()
    ensures { (accepts : Ty → Bool) (parse : Given → Outcome M) → FieldIsItsValue accepts parse }
{}

/// The field with which bytes in binary begin has one value and one rest.
#[tactic(auto, using(crate::specs::RecordLemmas::one_field_value))]
pub fn one_field<M>()
    ensures { (accepts : Ty → Bool) (parse : Given → Outcome M) → OneField accepts parse }
{}

/// The fields of a record in binary are the bytes after its first four.
#[tactic(auto, using(crate::specs::RecordLemmas::record_begins))]
pub fn record_begins()
    ensures { RecordBegins }
{}

/// Reading a record in text begins iff the bytes are UTF-8 and a record text, and then all fields of the text are left
/// (PostgreSQL: "Composite Type Input and Output Syntax").
#[tactic(auto, using(crate::specs::NestTextLemmas::text_begins))]
pub fn record_text_begins()
    ensures { RecordTextBegins }
{
    record_is_its_values();
}

/// `next_field` reads a value from the fields that are left of a record text iff the first of them has this value, and
/// leaves the others, whatever reads the value.
#[tactic(auto, using(crate::specs::NestTextLemmas::text_field))]
pub fn text_field_is_its_value<M>()
    ensures { (accepts : Ty → Bool) (parse : Given → Outcome M)
        → TextFieldIsItsValue accepts parse }
{}
