//! The messages that a server sends, as they come from a reader.

ghost use Rattle.std.specs.Prelude.{◌≡◌, drop, Ok, Some, OnOk, IfOk, IfSome};
ghost use Rattle.std.specs.Io.KnownBytes.{Keeps};
ghost use Rattle.pgv_message.specs.Received.{message_at_front, message_view};
ghost use Rattle.pgquery.specs.Incoming.{Lends, Receives, unread, unread_from};

use crate::fault::Fault;
use pgv::message::{PgMessage, message_in_front};
use std::alloc::Global;
use std::io::Read;

/// How many bytes are asked for at once.
const CHUNK: usize = 8192;

/// The bytes that have come of a server's messages, and the place of the last message among them.
#[derive(Drop)]
pub struct Inbox<R> {
    reader: R,
    came: Vec<u8>,
    start: usize,
    end: usize,
}

impl<R: Read> Inbox<R> {
    /// A reader of which nothing was read.
    pub fn new(alloc: Global, reader: R) -> Self
        ensures { Keeps (R.remaining reader) (unread R.remaining result) }
    {
        Inbox {
            reader,
            came: Vec::new(alloc),
            start: 0,
            end: 0,
        }
    }

    /// Forgets what came before the last message.
    fn forget(&mut self)
        ensures came { self.new.came.items ≡ drop self.old.start self.old.came.items }
        ensures reader { self.new.reader ≡ self.old.reader }
        ensures start { self.new.start ≡ 0 }
    {
        let left = self.came.len().saturating_sub(self.start);
        self.came.rotate_left(self.came.len() - left);
        self.came.truncate(left);
        self.start = 0;
    }

    /// Waits for more bytes.
    fn read_more(&mut self) -> Result<(), Fault>
        ensures { OnOk result (Keeps (unread_from R.remaining self.old.start self.old)
            (unread_from R.remaining self.new.start self.new)) }
    {
        self.forget();
        let mut chunk = [0; CHUNK];
        let count = self.reader.read(&mut chunk).or(Err(Fault::Read))?;
        if count == 0 {
            return Err(Fault::End);
        }
        Ok(self.came.extend_from_slice(&chunk[..count])?)
    }

    /// The message at the place of the last one, or `None` where not all of it has come.
    fn front(&self) -> Result<Option<PgMessage<'_>>, Fault>
        ensures { IfOk result (λ found. IfSome found (λ m.
            message_at_front (drop self.now.start self.now.came.items)
            ≡ Ok (Some (message_view m)))) }
    {
        let came = self.came.as_slice().get(self.start..).ok_or(Fault::End)?;
        Ok(message_in_front(came)?)
    }

    /// Waits for the next message, which is the last one then, and answers its tag.
    pub fn receive(&mut self) -> Result<u8, Fault>
        ensures { IfOk result (Receives R.remaining self.old self.new) }
    {
        self.start = self.end;
        for _ in 0..u64::MAX {
            if let Some(message) = self.front()? {
                let (tag, after) = (message.tag, message.rest.len());
                self.end = self.came.len().saturating_sub(after);
                return Ok(tag);
            }
            self.read_more()?;
        }
        Err(Fault::End)
    }

    /// The last message.
    pub fn last(&self) -> Result<PgMessage<'_>, Fault>
        ensures { IfOk result (Lends self.now) }
    {
        self.front()?.ok_or(Fault::End)
    }
}
