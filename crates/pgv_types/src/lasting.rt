//! The right to read bytes that last as long as the program.
ghost use Rattle.std.specs.Prelude.{◌≡◌, ℕ, ◌^◌, ◌<◌, List, length};
ghost use denote.RawPtr.{Ptr};
ghost use Rattle.pgv_types.specs.Ownership.{IsPlaced, lasting_owns};

use std::marker::Model;
use std::slice;

/// The right to read `items` at `ptr` for ever.
#[derive(Drop)]
pub(crate) struct Lasting {
    ghost ptr: { Ptr },
    ghost items: { List ℕ },
    ghost placed: { IsPlaced ptr × (length items < 2 ^ 63) },
}

impl Model for Lasting {
    ghost also_owns = { λ s. lasting_owns s.ptr s.items };

    ghost also_shares = { λ s _ _. lasting_owns s.ptr s.items };
}

impl Lasting {
    /// The address of the bytes, and the right to read them.
    pub(crate) fn of(bytes: &'static [u8]) -> (*const u8, Lasting)
        ensures { (result.1.ptr ≡ result.0) × (result.1.items ≡ bytes.now) }
    {
        (bytes.as_ptr(), Lasting {})
    }

    /// The bytes again, from their address and their number.
    pub(crate) fn read(&self, ptr: *const u8, len: usize) -> &'static [u8]
        requires { (ptr ≡ self.now.ptr) × (len ≡ length self.now.items) }
        ensures { result.now ≡ self.now.items }
    {
        unsafe { slice::from_raw_parts(ptr, len) }
    }
}
