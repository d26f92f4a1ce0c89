//! A `&'static str` in a type that names no lifetime.
//!
//! A buffer of arguments holds types, and is lent by `&mut` to those who write into it. A value
//! that holds a reference can't be lent so and come back out of a `Result`. So a declared name is
//! held by its address and its length, beside the right to read it for ever.
ghost use Rattle.std.specs.Prelude.{◌≡◌};

use crate::lasting::Lasting;
use std::alloc::AllocError;
use std::marker::Model;
use std::str;

/// A text that lasts as long as the program. A clause sees its bytes.
#[derive(Drop)]
pub struct StaticText {
    ptr: *const u8,
    len: usize,
    lasting: Lasting,
}

impl Model for StaticText {
    ghost use Rattle.std.specs.Prelude.{◌≡◌, ℕ, List, length, IsUtf8};

    ghost Value = { List ℕ };

    ghost view = { λ t. t.lasting.items };

    ghost invariant = { λ t. (t.ptr ≡ t.lasting.ptr) × (t.len ≡ length t.lasting.items) × IsUtf8 t.lasting.items };
}

impl StaticText {
    /// Holds the text. It takes no memory.
    pub fn new(text: &'static str) -> StaticText
        ensures { result ≡ text.now }
    {
        let (ptr, lasting) = Lasting::of(text.as_bytes());
        StaticText {
            ptr,
            len: text.len(),
            lasting,
        }
    }

    /// The text.
    pub fn as_str(&self) -> &'static str
        ensures { result.now ≡ self.now }
    {
        unsafe { str::from_utf8_unchecked(self.lasting.read(self.ptr, self.len)) }
    }
}

/// A copy is the same text. It takes no memory.
impl Clone for StaticText {
    ghost use Rattle.std.specs.Prelude.{◌≡◌};

    ghost is_clone = { λ t copy. copy ≡ t };

    ghost use Rattle.std.specs.Prelude.{⊤};

    ghost is_infallible = { λ _. ⊤ };

    fn clone(&self) -> Result<StaticText, AllocError> {
        Ok(StaticText::new(self.as_str()))
    }
}
