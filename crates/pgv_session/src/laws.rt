//! Laws of lines and inputs: each is the contract of a function that does nothing.

ghost use Rattle.pgv_session.specs.LineLaws.{InputIsItsLines, OneRequest, RequestIsItsSpelling};

/// `request` computes a request, or that there is none, from a line iff the line asks for this.
#[tactic(auto, using(crate::proofs::LineSpellings::request_exactly))]
pub fn request_is_its_spelling()
    ensures { RequestIsItsSpelling }
{}

/// A line asks for at most one request.
#[tactic(auto, using(crate::proofs::LineSpellings::one_asked))]
pub fn one_request()
    ensures { OneRequest }
{}

/// `lines_of` splits an input into lines iff the input is put together from these lines, each with its line feed, which
/// the last may lack.
#[tactic(auto, using(crate::proofs::InputLines::lines_exactly))]
pub fn input_is_its_lines()
    ensures { InputIsItsLines }
{}
