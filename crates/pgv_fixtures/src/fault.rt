//! Why the rows were not compared to their end.

/// What went wrong beside the rows.
#[derive(Clone, Copy, PartialEq, Eq, Debug)]
pub enum Fault {
    /// A request for memory was refused twice.
    Memory,
    /// Reading failed, or the input is too long or no text.
    Read,
    /// Writing failed.
    Write,
}

impl Fault {
    /// What the program prints at it.
    pub fn text(self) -> &'static str {
        match self {
            Fault::Memory => "out of memory",
            Fault::Read => "read failed",
            Fault::Write => "write failed",
        }
    }
}
