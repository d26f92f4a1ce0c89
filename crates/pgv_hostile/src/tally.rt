//! How many mutants there were, and what came of them.

use std::alloc::{AllocError, Global};

/// What came of one mutant.
#[derive(Clone, Copy, PartialEq, Eq, Debug)]
pub enum Outcome {
    /// A refusal of this number, in reading or, where a value has no frame, in writing.
    Refused(u8),
    /// A value, whose frame is read as the same value, or which is of a type that is only read.
    Read,
    /// Something else.
    Differs,
}

/// How often each came.
#[derive(Clone, Copy)]
pub struct Tally {
    read: u64,
    differs: u64,
    refused: [u64; 39],
}

impl Tally {
    /// Nothing yet.
    pub fn new() -> Tally {
        Tally {
            read: 0,
            differs: 0,
            refused: [0; 39],
        }
    }

    /// One mutant more.
    pub fn count(&mut self, outcome: Outcome) {
        match outcome {
            Outcome::Read => self.read = self.read.saturating_add(1),
            Outcome::Differs => self.differs = self.differs.saturating_add(1),
            Outcome::Refused(number) => self.count_refused(number),
        }
    }

    fn count_refused(&mut self, number: u8) {
        match self.refused.get_mut(usize::from(number)) {
            Some(count) => *count = count.saturating_add(1),
            None => self.differs = self.differs.saturating_add(1),
        }
    }

    /// All of them.
    fn tried(&self) -> u64 {
        let mut tried = self.read.saturating_add(self.differs);
        for count in &self.refused {
            tried = tried.saturating_add(*count);
        }
        tried
    }

    /// A line of these numbers, after a name.
    pub fn push_line(&self, alloc: Global, name: &str, out: &mut String) -> Result<(), AllocError> {
        let (tried, read, differs) = (self.tried(), self.read, self.differs);
        out.push_str(format!(in alloc;
            "{name}: {tried} tried, {read} read, {differs} differ"
        )?.as_str())?;
        for (number, count) in self.refused.iter().enumerate() {
            if *count > 0 {
                out.push_str(format!(in alloc; ", C{number} {count}")?.as_str())?;
            }
        }
        out.push('\n')
    }
}
