//! Laws of the texts of arrays, ranges and records: each is the contract of a function that does nothing, and holds for
//! every text.

ghost use Rattle.pgv_text.specs.Copies.{UnquotedIsNotCopied};
ghost use Rattle.pgv_text.specs.NestLaws.{ArrayIsItsValues, EveryListHasAText, NestIsComputed, OneNest, OneRangeOfText, RangeIsComputed, RecordIsItsValues, SpelledReadsBack, ValuesAreTexts};

/// For arrays, ranges and records, `nest_of` computes values and brackets from a text iff the grammar assigns them to
/// the text.
#[tactic(auto, using(crate::proofs::Nests::nest_is))]
pub fn nest_is_computed()
    ensures { NestIsComputed }
{}

/// In each form, a text denotes at most one list of values, with one reading of its brackets.
#[tactic(auto, using(crate::proofs::Nests::one_nest))]
pub fn one_nest()
    ensures { OneNest }
{}

/// `range_content` computes the empty range, or two bounds, from a text iff the grammar of ranges assigns this to the
/// text.
pub fn range_is_computed()
    ensures { RangeIsComputed }
{}

/// A text denotes at most one range, so that no text of two bounds also denotes the empty range.
#[tactic(auto, using(crate::proofs::Contents::one_range))]
pub fn one_range()
    ensures { OneRangeOfText }
{}

/// No part of a well-formed text without quotes and backslashes is copied when it is read.
#[tactic(auto, using(crate::proofs::PlainTexts::unquoted_is_not_copied))]
pub fn unquoted_is_not_copied()
    ensures { UnquotedIsNotCopied }
{}

/// `array_values` computes elements from a text iff the grammar of arrays assigns these elements to the text.
#[tactic(auto, using(crate::proofs::Nests::array_is))]
pub fn array_is_its_values()
    ensures { ArrayIsItsValues }
{}

/// `record_values` computes fields from a text iff the grammar of records assigns these fields to the text.
#[tactic(auto, using(crate::proofs::Nests::record_is))]
pub fn record_is_its_values()
    ensures { RecordIsItsValues }
{}

/// Each value of a well-formed text in UTF-8 is null or itself UTF-8.
#[tactic(auto, using(crate::proofs::WrittenPieces::values_texts))]
pub fn values_are_texts()
    ensures { ValuesAreTexts }
{}

/// Every spelling of as many optional texts as the form takes, between any brackets of the form, is UTF-8 and denotes
/// exactly these texts.
#[tactic(auto, using(crate::proofs::WrittenPieces::reads_back))]
pub fn spelled_reads_back()
    ensures { SpelledReadsBack }
{}

/// Every list of optional texts has an array text, every list that is not empty has a record text, and every two have a
/// range text with any bracket at each end.
#[tactic(auto, using(crate::proofs::WrittenPieces::has_text))]
pub fn every_list_has_a_text()
    ensures { EveryListHasAText }
{}
