//! Second tries.

use std::cell::Cell;

/// How often a call was made once more, since it had answered that memory was refused.
#[derive(Drop)]
pub struct Tries {
    again: Cell<u64>,
}

impl Tries {
    /// None yet.
    pub fn new() -> Tries {
        Tries {
            again: Cell::new(0),
        }
    }

    /// One more.
    pub fn count(&self) {
        self.again.set(self.again.get().saturating_add(1));
    }

    /// How many there were.
    pub fn again(&self) -> u64 {
        self.again.get()
    }
}
