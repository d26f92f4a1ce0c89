//! A session with a server, over any reader and writer.

ghost use Rattle.std.specs.Prelude.{◌≡◌, [], OnOk, IfOk};
ghost use Rattle.pgv_characters.specs.Characters.{upper_x};
ghost use Rattle.pgv_message.specs.Messages.{bare_message};
ghost use Rattle.pgquery.specs.Incoming.{Lends};
ghost use Rattle.pgquery.specs.Talks.{Answers, Hears, SendsMessages, Starts, Talks};
ghost use Rattle.pgquery.specs.Talks as talks;

use crate::fault::Fault;
use crate::inbox::Inbox;
use pgv::message::{
    self, PgExchange, PgMessage, PgNotice, PgRequest, PgSetting, authentication_of,
};
use std::alloc::{AllocError, Global};
use std::io::{Read, Write};

/// A session: what the server writes, and what it reads.
#[derive(Drop)]
pub struct Connection<R, W> {
    inbox: Inbox<R>,
    writer: W,
    exchange: PgExchange,
}

/// Whether a message is no answer: a notice, a setting, the key that cancels, or a notification.
fn is_passed_over(tag: u8) -> bool
    ensures { result ≡ talks.is_passed_over tag }
{
    matches!(tag, b'N' | b'S' | b'K' | b'A')
}

impl<R: Read, W: Write> Connection<R, W> {
    /// A session in which nothing was sent.
    pub fn new(alloc: Global, reader: R, writer: W) -> Self {
        Connection {
            inbox: Inbox::new(alloc, reader),
            writer,
            exchange: PgExchange::new(alloc),
        }
    }

    /// Sends messages, and notes what they ask for.
    pub fn send(&mut self, messages: &[u8], requests: &[PgRequest]) -> Result<(), Fault>
        ensures { OnOk result (Talks R.remaining W.contents self.old self.new messages.now []) }
    {
        self.note(requests)?;
        self.writer.write_all(messages).or(Err(Fault::Write))?;
        self.writer.flush().or(Err(Fault::Write))
    }

    /// Notes what messages ask for.
    fn note(&mut self, requests: &[PgRequest]) -> Result<(), Fault>
        ensures inbox { self.new.inbox ≡ self.old.inbox }
        ensures writer { self.new.writer ≡ self.old.writer }
    {
        for request in requests {
            self.exchange.sent(*request)?;
        }
        Ok(())
    }

    /// The last message.
    pub fn last(&self) -> Result<PgMessage<'_>, Fault>
        ensures { IfOk result (Lends self.now.inbox) }
    {
        self.inbox.last()
    }

    /// Waits for the next message that is not passed over, and answers its tag. An error of the server ends the
    /// session.
    pub fn next(&mut self, alloc: Global) -> Result<u8, Fault>
        ensures { IfOk result (Answers R.remaining W.contents self.old self.new) }
    {
        for _ in 0..u64::MAX {
            let tag = self.inbox.receive()?;
            if tag == b'E' {
                return Err(Fault::Server(error_text(alloc, self.last()?.body)?));
            }
            if !is_passed_over(tag) {
                return Ok(tag);
            }
        }
        Err(Fault::End)
    }

    /// The same of an answer to a request, which has to be one that may come.
    pub fn answer(&mut self, alloc: Global) -> Result<u8, Fault>
        ensures { IfOk result (Answers R.remaining W.contents self.old self.new) }
    {
        let tag = self.next(alloc)?;
        self.exchange.step(tag)?;
        Ok(tag)
    }

    /// Starts the session of a user, as a server wants it that trusts him.
    pub fn start(&mut self, alloc: Global, user: &str, database: &str) -> Result<(), Fault>
        ensures { OnOk result (Starts R.remaining W.contents user.now database.now
            self.old self.new) }
    {
        let mut out = Vec::new(alloc);
        message::write_startup(
            &mut out,
            &[
                setting("user", user),
                setting("database", database),
                setting("client_encoding", "UTF8"),
                setting("DateStyle", "ISO"),
            ],
        )?;
        self.send(out.as_slice(), &[])?;
        self.admit(alloc)
    }

    /// Waits until the server is ready for the first request.
    fn admit(&mut self, alloc: Global) -> Result<(), Fault>
        ensures { OnOk result (Hears R.remaining W.contents self.old self.new) }
    {
        for _ in 0..u64::MAX {
            match self.next(alloc)? {
                b'R' => admitted(self.last()?.body)?,
                b'Z' => return Ok(()),
                tag => return Err(Fault::Unexpected(tag)),
            }
        }
        Err(Fault::End)
    }

    /// Ends the session.
    pub fn end(&mut self, alloc: Global) -> Result<(), Fault>
        ensures { OnOk result
            (SendsMessages R.remaining W.contents (bare_message upper_x) self.old self.new) }
    {
        let mut out = Vec::new(alloc);
        message::write_terminate(&mut out)?;
        self.send(out.as_slice(), &[])
    }
}

/// A setting of the session.
fn setting<'a>(name: &'a str, value: &'a str) -> PgSetting<'a>
    ensures name { result.name.now ≡ name.now }
    ensures value { result.value.now ≡ value.now }
{
    PgSetting { name, value }
}

/// That a server asks for nothing more before the session: the body of its message.
fn admitted(body: &[u8]) -> Result<(), Fault> {
    match authentication_of(body)?.code {
        0 => Ok(()),
        code => Err(Fault::Authentication(code)),
    }
}

/// The text of an error: its severity, SQLSTATE and message, and where in the query it is.
fn error_text(alloc: Global, body: &[u8]) -> Result<String, Fault> {
    let notice = PgNotice::read(alloc, body)?;
    Ok(notice_text(alloc, &notice)?)
}

/// The same of a notice that was read.
fn notice_text(alloc: Global, notice: &PgNotice<'_>) -> Result<String, AllocError> {
    let severity = notice.severity().unwrap_or("ERROR");
    let code = notice.code().unwrap_or("");
    let text = notice.message().unwrap_or("");
    match notice.position() {
        Some(place) => format!(in alloc; "{severity} {code}: {text} (at {place})"),
        None => format!(in alloc; "{severity} {code}: {text}"),
    }
}
