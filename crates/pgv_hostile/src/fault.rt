//! Why the program ends early.

use pgv_runner::RunFault;
use std::alloc::AllocError;

/// What keeps the program from its answer.
#[derive(Clone, Copy, PartialEq, Eq, Debug)]
pub enum Fault {
    /// A request for memory was refused.
    Memory,
    /// Reading failed.
    Read,
    /// Writing failed.
    Write,
    /// A row has no such form.
    Row,
}

impl Fault {
    /// What is printed at it.
    pub fn text(&self) -> &'static str {
        match self {
            Fault::Memory => "out of memory",
            Fault::Read => "read failed",
            Fault::Write => "write failed",
            Fault::Row => "a row has no such form",
        }
    }
}

impl From<AllocError> for Fault {
    fn from(_: AllocError) -> Fault {
        Fault::Memory
    }
}

impl From<RunFault> for Fault {
    fn from(fault: RunFault) -> Fault {
        match fault {
            RunFault::Memory => Fault::Memory,
            RunFault::Read => Fault::Read,
            RunFault::Write => Fault::Write,
        }
    }
}
