//! Standard input, read with one request for memory.

use crate::fault::Fault;
use crate::tries::Tries;
use std::alloc::{AllocError, Global};
use std::io::Read;

/// The most bytes that are read.
const ROOM: usize = 262_144;

/// What was read.
#[derive(Drop)]
pub struct Input {
    room: Vec<u8>,
    filled: usize,
}

impl Input {
    /// The text that was read.
    pub fn text(&self) -> Result<&str, Fault> {
        let Some(bytes) = self.room.as_slice().get(..self.filled) else {
            return Err(Fault::Read);
        };
        str::from_utf8(bytes).or(Err(Fault::Read))
    }
}

fn room(alloc: Global) -> Result<Vec<u8>, AllocError> {
    vec![in alloc; 0u8; ROOM]
}

/// All of a reader. The request for memory is made again where it is refused.
pub fn read_all<R: Read>(alloc: Global, tries: &Tries, reader: &mut R) -> Result<Input, Fault> {
    let mut room = match room(alloc) {
        Ok(room) => room,
        Err(_) => {
            tries.count();
            room(alloc).or(Err(Fault::Memory))?
        }
    };
    let mut filled = 0usize;
    for _ in 0..ROOM {
        if filled >= room.len() {
            return Err(Fault::Read);
        }
        match reader.read(&mut room.as_mut_slice()[filled..]) {
            Ok(0) => return Ok(Input { room, filled }),
            Ok(count) => filled = filled.saturating_add(count),
            Err(_) => return Err(Fault::Read),
        }
    }
    Err(Fault::Read)
}
