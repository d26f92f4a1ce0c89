//! The characters of a text.

ghost use Rattle.std.specs.Prelude.{◌≡◌, true};
ghost use Rattle.std.specs.Str.{chars, is_utf8};
ghost use Rattle.std.specs.Iterator.{YieldsFirst, item_count};

use std::str::Chars;

/// The characters of a text.
#[derive(Drop)]
pub struct Letters<'a> {
    rest: Chars<'a>,
    ghost is_text: { is_utf8 rest.rest.now ≡ true },
}

impl<'a> Letters<'a> {
    ghost use Rattle.pgv_types.specs.Left.{letters_left};

    pub fn new(text: &'a str) -> Self
        ensures { letters_left result ≡ chars text.now }
    {
        Letters { rest: text.chars() }
    }
}

impl Iterator for Letters<'_> {
    ghost use Rattle.pgv_types.specs.Left.{letters_left};

    type Item = char;

    ghost next_gives = { YieldsFirst letters_left };

    ghost remaining = { item_count letters_left };

    #[inline(always)]
    fn next(&mut self) -> Option<char> {
        self.rest.next()
    }
}
