//! Marks: how many bytes, holes and slots a list of tokens has at one moment.

ghost use Rattle.std.specs.Prelude.{◌≡◌};

/// The numbers of bytes, holes and slots at one moment, to go back to by [`Tokens::back`](crate::Tokens::back).
#[derive(Clone, Copy)]
pub struct Mark {
    pub(crate) bytes: usize,
    pub(crate) holes: usize,
    pub(crate) slots: usize,
}

impl Mark {
    /// The number of slots.
    pub fn slots(self) -> usize
        ensures { result ≡ self.slots }
    {
        self.slots
    }
}
