//! Names of types, and when two agree: as identifiers do, whose quotes keep the case of what is between them
//! (PostgreSQL, "Lexical Structure", "Identifiers and Key Words").
ghost use Rattle.std.specs.Prelude.{◌≡◌, ◌↔◌, ℕ, List, ◌∷◌, ◌++◌, codes, option_to_list, true};
ghost use Rattle.std.specs.Option.{option_map};
ghost use Rattle.std.specs.Str.{chars, bytes_eq};
ghost use Rattle.std.specs.Iterator.{YieldsFirst, YieldsFirstBy, item_count};
ghost use Rattle.pgv_types.specs.Names.{AreSignificant, walk, alike, all_alike};
ghost use Rattle.pgv_types.specs.Agree.{Agree, agree, BeginsUnicode, significant, char_seen};
ghost use Rattle.pgv_types.specs.Suffix.{suffix_of};
ghost use Rattle.pgv_types.specs.Left.{left};
ghost use Rattle.pgv_types.specs.Whole.{whole_name, name_text, name_suffix};

use crate::characters::Letters;
use std::fmt::{Alignment, Display, Formatter, Result, Write};

/// A significant character of a name.
#[derive(Clone, Copy, PartialEq, Eq)]
pub struct IdentifierChar {
    /// The character.
    pub ch: char,
    /// Whether it is between quotes, where its case counts.
    pub case_sensitive: bool,
}

impl IdentifierChar {
    /// Whether two characters are equal, or, if neither is between quotes, equal but for ASCII case.
    #[inline(always)]
    fn is_like(self, other: IdentifierChar) -> bool
        ensures { result ≡ alike (char_seen self) (char_seen other) }
    {
        if self.case_sensitive || other.case_sensitive {
            self.ch == other.ch
        } else {
            self.ch.eq_ignore_ascii_case(&other.ch)
        }
    }
}

/// What comes after the text of a name.
fn suffix(brackets: bool) -> &'static str
    ensures { result.now ≡ suffix_of brackets }
{
    if brackets { "[]" } else { "" }
}

/// The characters of a name: of its text, then of its brackets.
#[derive(Drop)]
struct NameLetters<'a> {
    text: Letters<'a>,
    brackets: Letters<'a>,
}

impl<'a> NameLetters<'a> {
    ghost use Rattle.pgv_types.specs.Left.{name_letters_left};

    /// The characters of a text, with `[]` after it or nothing.
    #[tactic(auto, using(crate::proofs::Same::letters_append))]
    fn new(text: &'a str, brackets: bool) -> Self
        ensures { name_letters_left result ≡ chars (text.now ++ suffix_of brackets) }
    {
        NameLetters {
            text: Letters::new(text),
            brackets: Letters::new(suffix(brackets)),
        }
    }
}

impl Iterator for NameLetters<'_> {
    ghost use Rattle.pgv_types.specs.Left.{name_letters_left};

    type Item = char;

    ghost next_gives = { YieldsFirst name_letters_left };

    ghost remaining = { item_count name_letters_left };

    #[inline(always)]
    fn next(&mut self) -> Option<char> {
        match self.text.next() {
            Some(ch) => Some(ch),
            None => self.brackets.next(),
        }
    }
}

/// The significant characters of a name, from left to right, that are still to come.
///
/// Two quotes next to each other are one quote character. A single quote is a switch, which isn't
/// significant: what comes after an odd number of switches is sensitive.
#[derive(Drop)]
pub struct IdentifierChars<'a> {
    letters: NameLetters<'a>,
    case_sensitive: bool,
    last_char_quote: bool,
}

impl<'a> IdentifierChars<'a> {
    ghost use Rattle.pgv_types.specs.Left.{left};

    /// The significant characters of a text, with `[]` after it or nothing.
    fn new(text: &'a str, brackets: bool) -> Self
        ensures { left result ≡ significant (text.now ++ suffix_of brackets) }
    {
        IdentifierChars {
            letters: NameLetters::new(text, brackets),
            case_sensitive: false,
            last_char_quote: false,
        }
    }

    /// What the next character of the text is, if it is significant at once.
    #[inline(always)]
    fn seen(&mut self, ch: char) -> Option<IdentifierChar>
        ensures letters { self.new.letters ≡ self.old.letters }
        ensures goes { (cs : List ℕ) → walk self.old.case_sensitive self.old.last_char_quote
            (ch ∷ cs) ≡ option_to_list (option_map char_seen result)
            ++ walk self.new.case_sensitive self.new.last_char_quote cs }
    {
        if ch == '"' {
            if !self.last_char_quote {
                self.last_char_quote = true;
                return None;
            }
            self.last_char_quote = false;
        } else if self.last_char_quote {
            self.last_char_quote = false;
            self.case_sensitive = !self.case_sensitive;
        }
        Some(IdentifierChar {
            ch,
            case_sensitive: self.case_sensitive,
        })
    }
}

impl Iterator for IdentifierChars<'_> {
    ghost use Rattle.pgv_types.specs.Left.{left};

    type Item = IdentifierChar;

    ghost next_gives = { YieldsFirstBy char_seen left };

    ghost remaining = { item_count left };

    #[inline(always)]
    fn next(&mut self) -> Option<IdentifierChar> {
        while let Some(ch) = self.letters.next() {
            if let Some(found) = self.seen(ch) {
                return Some(found);
            }
        }
        None
    }
}

/// The significant characters of a name, in order. It takes no memory.
pub fn identifier_chars(name: &str) -> IdentifierChars<'_>
    ensures computed { left result ≡ significant name.now }
    ensures meaning { AreSignificant (chars name.now) (left result) }
{
    IdentifierChars::new(name, false)
}

/// Whether a text begins with `U&`.
fn begins_unicode(name: &str) -> bool
    ensures { (result ≡ true) ↔ BeginsUnicode name.now }
{
    matches!(name.as_bytes(), [b'U', b'&', ..])
}

/// The name of a type: a text, with `[]` after it or not. It is printed as it is, and never padded.
#[derive(Clone, Copy)]
pub struct PgTypeName<'a> {
    text: &'a str,
    brackets: bool,
}

impl<'a> PgTypeName<'a> {
    /// A text, with `[]` after it or nothing.
    pub fn new(text: &'a str, brackets: bool) -> Self
        ensures whole_name { whole_name result ≡ text.now ++ suffix_of brackets }
        ensures text { name_text result ≡ text.now }
        ensures suffix { name_suffix result ≡ suffix_of brackets }
    {
        PgTypeName { text, brackets }
    }

    /// The name that is this text.
    pub fn plain(text: &'a str) -> Self
        ensures { whole_name result ≡ text.now }
    {
        PgTypeName::new(text, false)
    }

    /// The text before the suffix.
    pub fn text(&self) -> &'a str
        ensures { result.now ≡ name_text self.now }
    {
        self.text
    }

    /// `[]` or nothing.
    pub fn suffix(&self) -> &'static str
        ensures { result.now ≡ name_suffix self.now }
    {
        suffix(self.brackets)
    }

    /// Writes as many characters of the name as the precision allows, padded to the width.
    pub(crate) fn pad<W: Write>(&self, f: &mut Formatter<W>) -> Result {
        let most = f.precision().unwrap_or(usize::MAX);
        let len = self
            .text
            .chars()
            .count()
            .saturating_add(self.suffix().len())
            .min(most);
        let room = f.width().unwrap_or(0).saturating_sub(len);
        let before = match f.align() {
            Some(Alignment::Right) => room,
            Some(Alignment::Center) => room / 2,
            _ => 0,
        };
        fill(before, f)?;
        for ch in NameLetters::new(self.text, self.brackets).take(len) {
            f.write_char(ch)?;
        }
        fill(room - before, f)
    }

    /// Whether the name begins with `U&`.
    fn begins_unicode(&self) -> bool
        ensures { (result ≡ true) ↔ BeginsUnicode (whole_name self.now) }
    {
        begins_unicode(self.text)
    }

    /// Whether two names are the same text.
    #[tactic(auto, using(crate::proofs::Same::same_after, crate::proofs::Same::bytes_eq_sym))]
    fn is_same(&self, other: &PgTypeName<'_>) -> bool
        ensures { result ≡ bytes_eq (whole_name self.now) (whole_name other.now) }
    {
        match (self.brackets, other.brackets) {
            (true, false) => is_with_brackets(other.text, self.text),
            (false, true) => is_with_brackets(self.text, other.text),
            (true, true) => self.text == other.text,
            (false, false) => self.text == other.text,
        }
    }

    /// Whether two names agree, as `name_eq` decides for texts. It takes no memory.
    pub fn agrees(&self, other: &PgTypeName<'_>) -> bool
        ensures { result ≡ agree (whole_name self.now) (whole_name other.now) }
    {
        if self.is_same(other) {
            return true;
        }
        if self.begins_unicode() || other.begins_unicode() {
            return self.is_same(other);
        }
        are_alike(
            IdentifierChars::new(self.text, self.brackets),
            IdentifierChars::new(other.text, other.brackets),
        )
    }
}

/// Writes the formatter's fill a number of times.
fn fill<W: Write>(count: usize, f: &mut Formatter<W>) -> Result {
    let fill = f.fill();
    for _ in 0..count {
        f.write_char(fill)?;
    }
    Ok(())
}

/// The whole name. It is never padded.
impl Display for PgTypeName<'_> {
    ghost use Rattle.std.specs.Prelude.{Some};
    ghost use Rattle.pgv_types.specs.Whole.{whole_name};

    ghost output = { λ n. Some (whole_name n) };

    ghost styled_output = { λ n _. Some (whole_name n) };

    fn fmt<W: Write>(&self, f: &mut Formatter<W>) -> Result {
        f.write_str(self.text)?;
        f.write_str(suffix(self.brackets))
    }
}

/// Whether a text is another with `[]` after it.
fn is_with_brackets(text: &str, front: &str) -> bool
    ensures { result ≡ bytes_eq text.now (front.now ++ codes "[]") }
{
    match text.as_bytes().strip_suffix(b"[]") {
        Some(rest) => rest == front.as_bytes(),
        None => false,
    }
}

/// Whether significant characters are alike, place by place.
fn are_alike(first: IdentifierChars<'_>, second: IdentifierChars<'_>) -> bool
    ensures { result ≡ all_alike (left first.entry) (left second.entry) }
{
    let mut left = first;
    let mut right = second;
    loop {
        match (left.next(), right.next()) {
            (Some(a), Some(b)) => {
                if !a.is_like(b) {
                    return false;
                }
            }
            (None, None) => return true,
            _ => return false,
        }
    }
}

/// Whether two names agree: where either begins with `U&`, which starts an identifier with escapes,
/// the texts must be equal; else their significant characters must be alike, place by place. It
/// takes no memory.
pub fn name_eq(first: &str, second: &str) -> bool
    ensures computed { result ≡ agree first.now second.now }
    ensures meaning { (result ≡ true) ↔ Agree first.now second.now }
{
    PgTypeName::plain(first).agrees(&PgTypeName::plain(second))
}
