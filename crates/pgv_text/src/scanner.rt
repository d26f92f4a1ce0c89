//! One scanner for the texts of nests: a bracket, parts separated by commas, a bracket. A table of cells
//! says what a byte does at a place, by its class; all bytes that mean something are ASCII.

ghost use Rattle.std.specs.Prelude.{◌≡◌, None, true};
ghost use Rattle.std.specs.Option.{MatchOption};
ghost use Rattle.pgv_text.specs.Forms.{form_of};
ghost use Rattle.pgv_text.specs.declared.scanner.Class.TheVariants.{Other};
ghost use Rattle.pgv_text.specs.declared.scanner.Place.TheVariants.{Outside, Quoted};
ghost use Rattle.pgv_text.specs.declared.scanner.TextForm.{TextForm};
ghost use Rattle.pgv_text.specs.Scan.{cell, class, stands};
ghost use Rattle.pgv_text.specs.PartFound.{AreUsual, HasNoStop, IsNextStop};

/// The form of a text.
#[derive(Clone, Copy, PartialEq, Eq, Drop)]
pub enum TextForm {
    /// `{..}`
    Array,
    /// `[..]`, with a round bracket at an end that is not included
    Range,
    /// `(..)`
    Record,
}

/// The class of a byte, by what it may mean in a text.
#[derive(Clone, Copy, PartialEq, Eq, Drop)]
pub enum Class {
    Quote,
    Backslash,
    Comma,
    Open,
    Close,
    Other,
}

/// The state of the scanner within a part.
#[derive(Clone, Copy, PartialEq, Eq, Drop)]
pub enum Place {
    /// At its start.
    Start,
    /// After a plain or escaped piece.
    Outside,
    /// Inside quotes.
    Quoted,
    /// After a quote that closes, or is the first of two.
    AfterQuote,
    /// After a backslash outside quotes.
    AfterBackslash,
    /// After a backslash inside quotes.
    QuotedBackslash,
}

/// What a byte does.
#[derive(Clone, Copy, PartialEq, Eq, Drop)]
pub enum Cell {
    /// It belongs to the part's text, and the part continues.
    Keep(Place),
    /// It is dropped (a quote or a backslash), and the part continues.
    Pass(Place),
    /// The part ends, and another begins.
    Part,
    /// The part ends, and the text with it.
    End,
    /// No valid text continues with this byte.
    Refuse,
}

/// Outside quotes, by class.
const OUTSIDE: [Cell; 6] = [
    Cell::Pass(Place::Quoted),
    Cell::Pass(Place::AfterBackslash),
    Cell::Part,
    Cell::Refuse,
    Cell::End,
    Cell::Keep(Place::Outside),
];

/// Inside quotes.
const QUOTED: [Cell; 6] = [
    Cell::Pass(Place::AfterQuote),
    Cell::Pass(Place::QuotedBackslash),
    Cell::Keep(Place::Quoted),
    Cell::Keep(Place::Quoted),
    Cell::Keep(Place::Quoted),
    Cell::Keep(Place::Quoted),
];

/// After a quote, where quotes are doubled.
const DOUBLING: [Cell; 6] = [
    Cell::Keep(Place::Quoted),
    Cell::Pass(Place::AfterBackslash),
    Cell::Part,
    Cell::Refuse,
    Cell::End,
    Cell::Keep(Place::Outside),
];

/// After a backslash.
const ESCAPED: [Cell; 6] = [Cell::Keep(Place::Outside); 6];

const QUOTED_ESCAPED: [Cell; 6] = [Cell::Keep(Place::Quoted); 6];

/// By form, place and class.
static CELLS: [[[Cell; 6]; 6]; 3] = [
    [OUTSIDE, OUTSIDE, QUOTED, OUTSIDE, ESCAPED, QUOTED_ESCAPED],
    [OUTSIDE, OUTSIDE, QUOTED, DOUBLING, ESCAPED, QUOTED_ESCAPED],
    [OUTSIDE, OUTSIDE, QUOTED, DOUBLING, ESCAPED, QUOTED_ESCAPED],
];

const _: () = prove!(CELLS.len() == 3 && CELLS[0].len() == 6 && CELLS[0][0].len() == 6);

/// What a byte of this class does at this place.
#[inline(always)]
fn cell_of(form: TextForm, place: Place, class: Class) -> Cell
    ensures { result ≡ cell (form_of form) place class }
{
    CELLS[form as usize][place as usize][class as usize]
}

/// Whether a byte is an opening bracket of the form.
#[inline(always)]
pub fn opens(form: TextForm, byte: u8) -> bool
    ensures { result ≡ (form_of form).opens byte }
{
    match form {
        TextForm::Array => byte == b'{',
        TextForm::Range => byte == b'(' || byte == b'[',
        TextForm::Record => byte == b'(',
    }
}

/// Whether a byte is a closing bracket of the form.
#[inline(always)]
pub fn closes(form: TextForm, byte: u8) -> bool
    ensures { result ≡ (form_of form).closes byte }
{
    match form {
        TextForm::Array => byte == b'}',
        TextForm::Range => byte == b')' || byte == b']',
        TextForm::Record => byte == b')',
    }
}

#[inline(always)]
fn class_of(form: TextForm, byte: u8) -> Class
    ensures { result ≡ class (form_of form) byte }
{
    match byte {
        b'"' => Class::Quote,
        b'\\' => Class::Backslash,
        b',' => Class::Comma,
        _ if opens(form, byte) => Class::Open,
        _ if closes(form, byte) => Class::Close,
        _ => Class::Other,
    }
}

/// Whether a byte is known to mean nothing in any form, as letters, digits and bytes outside ASCII are.
#[inline(always)]
pub fn is_never_special(byte: u8) -> bool
    ensures { result ≡ true → (form : TextForm) → class (form_of form) byte ≡ Other }
{
    matches!(byte, b'-'..=b'Z' | b'^'..=b'z' | 128..)
}

/// How many usual bytes are in front. Outside and inside quotes they belong to the part's text.
#[inline(always)]
fn usual_in_front(bytes: &[u8]) -> usize
    ensures { AreUsual bytes.now result }
{
    let mut count = 0;
    while count < bytes.len() && is_never_special(bytes[count]) {
        count += 1;
    }
    count
}

/// Whether the part that begins here is null or absent.
#[inline(always)]
pub fn is_nothing(form: TextForm, text: &str) -> bool
    ensures { result ≡ stands (form_of form) (form_of form).nothing text.now }
{
    match (form, text.as_bytes()) {
        (TextForm::Array, [b'N', b'U', b'L', b'L', b',' | b'}', ..]) => true,
        (TextForm::Range, [b',' | b')' | b']', ..]) => true,
        (TextForm::Record, [b',' | b')', ..]) => true,
        _ => false,
    }
}

/// The next byte that isn't kept, with what is before and after it.
#[derive(Clone, Copy, Drop)]
pub struct Stop<'a> {
    pub run: &'a str,
    pub byte: u8,
    pub cell: Cell,
    pub rest: &'a str,
}

/// The next byte that isn't kept; `None` if there is none, so that the text isn't in the form.
#[inline(always)]
pub fn next_stop(form: TextForm, place: Place, text: &str) -> Option<Stop<'_>>
    ensures { MatchOption result (HasNoStop form place text.now)
        (IsNextStop form place text.now) }
{
    let bytes = text.as_bytes();
    let mut place = place;
    let mut index = 0;
    while index < bytes.len() {
        let byte = bytes[index];
        if is_never_special(byte) {
            match place {
                Place::Start | Place::Outside => {
                    place = Place::Outside;
                    index += 1 + usual_in_front(&bytes[index + 1..]);
                    continue;
                }
                Place::Quoted => {
                    index += 1 + usual_in_front(&bytes[index + 1..]);
                    continue;
                }
                _ => {}
            }
        }
        let cell = cell_of(form, place, class_of(form, byte));
        match cell {
            Cell::Keep(next) => {
                place = next;
                index += 1;
            }
            _ => {
                return Some(Stop {
                    run: &text[..index],
                    byte,
                    cell,
                    rest: &text[index + 1..],
                });
            }
        }
    }
    None
}
