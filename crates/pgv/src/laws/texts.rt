//! Laws of what lists, arrays and tuples in text are: each is the contract of a function that does nothing.

ghost use Rattle.pgv_codec.specs.NestText.{IsArrayInText, IsRecordInText, IsSizedInText, TextIs};
ghost use Rattle.pgv_codec.specs.RecordGrammar.{parse_record};

use pgv_codec::{Decode, FieldList, Type};
use pgv_text::laws::{array_is_its_values, record_is_its_values};

/// Elements are decoded from a text as a list iff the text is an array of them, each read under their own type, and as
/// an array of `N` elements iff there are also `N` of them (PostgreSQL: "Array Input and Output Syntax").
#[tactic(auto, using(pgv_codec::specs::NestTextLemmas::array_text, pgv_codec::specs::NestTextLemmas::sized_text))]
pub fn array_text_is_its_elements<T: Type + Decode, const N: usize>()
    ensures list { TextIs ⟦<Vec<T> as Decode>⟧.parse (IsArrayInText T.parse T.info) }
    ensures array { TextIs ⟦<[T; N] as Decode>⟧.parse (IsSizedInText N T.parse T.info) }
{
    array_is_its_values();
}

/// Fields are decoded from a text as a tuple iff the text is a record that begins with these fields, taken as a list
/// (`tuple_is_its_list` of `pgv_codec`).
#[tactic(auto, using(pgv_codec::specs::NestTextLemmas::record_text))]
pub fn tuple_text_is_its_fields<Fields: FieldList>()
    ensures { TextIs (parse_record Fields.step) (IsRecordInText Fields.in_text) }
{
    record_is_its_values();
}
