//! The extended query as a machine: which message of the server may come next. It moves no bytes.

ghost use Rattle.std.specs.Prelude.{◌≡◌, ◌<◌, ◌==◌, length, drop, OnOk, OnErr};
ghost use Rattle.std.specs.VecDeque.{deque_len};
ghost use Rattle.pgv_message.specs.Exchange.{idle, stage_of, is_async, after_front, requests_with_rest, until_sync, sent, TakesTag, TakesError, TakesAnswer, Steps, exchange_of};

use crate::tag::PgTag;
use std::alloc::{AllocError, Global};
use std::collections::VecDeque;
use thiserror::Error;

/// A request of the extended query that a driver has sent.
#[derive(Clone, Copy, Debug, PartialEq, Eq)]
pub enum PgRequest {
    /// Parse.
    Parse,
    /// Bind.
    Bind,
    /// Describe of a statement.
    DescribeStatement,
    /// Describe of a portal.
    DescribePortal,
    /// Execute.
    Execute,
    /// Close.
    Close,
    /// Sync.
    Sync,
}

/// What a server still has to answer of a request.
#[derive(Clone, Copy, Debug, PartialEq, Eq)]
pub enum PgAwaited {
    /// ParseComplete.
    Parsed,
    /// BindComplete.
    Bound,
    /// ParameterDescription, and what describes the rows.
    Parameters,
    /// RowDescription, or NoData.
    Columns,
    /// Rows, and what ends them; or the data of a COPY.
    Rows,
    /// The data of a COPY, and its end.
    CopyData,
    /// CommandComplete.
    Completion,
    /// CloseComplete.
    Closed,
    /// ReadyForQuery.
    Ready,
}

/// A message came that may not come: the byte that names it.
#[derive(Clone, Copy, Debug, PartialEq, Eq, Error)]
#[error("an unexpected message {0}")]
pub struct UnexpectedMessage(pub u8);

/// The requests that a server has not answered yet, in order, and whether it passes over requests after an error.
#[derive(Drop)]
pub struct PgExchange {
    waiting: VecDeque<PgAwaited>,
    skipping: bool,
}

impl PgRequest {
    /// What a server answers to a request.
    fn awaited(self) -> PgAwaited
        ensures { result ≡ stage_of self }
    {
        match self {
            PgRequest::Parse => PgAwaited::Parsed,
            PgRequest::Bind => PgAwaited::Bound,
            PgRequest::DescribeStatement => PgAwaited::Parameters,
            PgRequest::DescribePortal => PgAwaited::Columns,
            PgRequest::Execute => PgAwaited::Rows,
            PgRequest::Close => PgAwaited::Closed,
            PgRequest::Sync => PgAwaited::Ready,
        }
    }
}

/// What is still awaited after a message, where this may come: nothing more, or the rest of the answer.
fn answered(awaited: PgAwaited, tag: PgTag) -> Option<Option<PgAwaited>>
    ensures { result ≡ after_front awaited tag }
{
    match (awaited, tag) {
        (PgAwaited::Parsed, PgTag::ParseComplete) => Some(None),
        (PgAwaited::Bound, PgTag::BindComplete) => Some(None),
        (PgAwaited::Parameters, PgTag::ParameterDescription) => Some(Some(PgAwaited::Columns)),
        (PgAwaited::Columns, PgTag::RowDescription) => Some(None),
        (PgAwaited::Columns, PgTag::NoData) => Some(None),
        (PgAwaited::Rows, PgTag::DataRow) => Some(Some(PgAwaited::Rows)),
        (PgAwaited::Rows, PgTag::CommandComplete) => Some(None),
        (PgAwaited::Rows, PgTag::EmptyQueryResponse) => Some(None),
        (PgAwaited::Rows, PgTag::PortalSuspended) => Some(None),
        (PgAwaited::Rows, PgTag::CopyOutResponse) => Some(Some(PgAwaited::CopyData)),
        (PgAwaited::Rows, PgTag::CopyInResponse) => Some(Some(PgAwaited::Completion)),
        (PgAwaited::CopyData, PgTag::CopyData) => Some(Some(PgAwaited::CopyData)),
        (PgAwaited::CopyData, PgTag::CopyDone) => Some(Some(PgAwaited::Completion)),
        (PgAwaited::Completion, PgTag::CommandComplete) => Some(None),
        (PgAwaited::Closed, PgTag::CloseComplete) => Some(None),
        (PgAwaited::Ready, PgTag::ReadyForQuery) => Some(None),
        _ => None,
    }
}

/// Puts what is left of the first answer in its place.
fn put_first(waiting: &mut VecDeque<PgAwaited>, left: Option<PgAwaited>)
    requires { 0 < deque_len waiting.old }
    ensures { waiting.new.items ≡ requests_with_rest (drop 1 waiting.old.items) left }
{
    match left {
        None => {
            waiting.pop_front();
        }
        Some(awaited) => waiting[0] = awaited,
    }
}

/// Passes over what is awaited before the next ReadyForQuery.
fn skip_to_sync(waiting: &mut VecDeque<PgAwaited>)
    ensures { waiting.new.items ≡ until_sync waiting.old.items }
{
    while let Some(first) = waiting.front() {
        if *first == PgAwaited::Ready {
            return;
        }
        waiting.pop_front();
    }
}

/// Whether a message may come at any time.
fn is_asynchronous(tag: PgTag) -> bool
    ensures { result ≡ is_async tag }
{
    match tag {
        PgTag::NoticeResponse => true,
        PgTag::ParameterStatus => true,
        PgTag::NotificationResponse => true,
        _ => false,
    }
}

impl PgExchange {
    /// An exchange in which nothing is awaited.
    pub fn new(alloc: Global) -> PgExchange
        ensures { exchange_of result ≡ idle }
    {
        PgExchange {
            waiting: VecDeque::new(alloc),
            skipping: false,
        }
    }

    /// Whether nothing is awaited.
    pub fn is_idle(&self) -> bool
        ensures { result ≡ (length (exchange_of self.now).waiting == 0) }
    {
        self.waiting.is_empty()
    }

    /// Whether the server passes over requests up to the next Sync, after an error.
    pub fn is_skipping(&self) -> bool
        ensures { result ≡ (exchange_of self.now).skipping }
    {
        self.skipping
    }

    /// A request was sent. It is awaited after those before it; or it won't be answered, where the server passes over
    /// requests and no Sync was sent yet. Where memory is refused all is as before.
    #[tactic(auto, unfolding(crate::specs::Exchange::sent))]
    pub fn sent(&mut self, request: PgRequest) -> Result<(), AllocError>
        ensures ok { OnOk result (exchange_of self.new ≡ sent (exchange_of self.old) request) }
        ensures unchanged { OnErr result (exchange_of self.new ≡ exchange_of self.old) }
    {
        if self.skipping && self.waiting.is_empty() && request != PgRequest::Sync {
            return Ok(());
        }
        match self.waiting.push_back(request.awaited()) {
            Ok(()) => Ok(()),
            Err(_) => Err(AllocError),
        }
    }

    /// A message came, by the byte that names it. It belongs to the first request that isn't answered yet, or may come
    /// at any time; an ErrorResponse ends all requests up to the next Sync, and then only its ReadyForQuery may come.
    ///
    /// A message that may not come is refused, and then all is as before.
    pub fn step(&mut self, byte: u8) -> Result<PgTag, UnexpectedMessage>
        ensures { Steps (exchange_of self.old) byte (exchange_of self.new) result }
    {
        let Some(tag) = PgTag::from_byte(byte) else {
            return Err(UnexpectedMessage(byte));
        };
        if self.takes(tag) {
            Ok(tag)
        } else {
            Err(UnexpectedMessage(byte))
        }
    }

    /// Takes a message, where it may come.
    #[tactic(auto, unfolding(crate::specs::Exchange::exchange_step))]
    fn takes(&mut self, tag: PgTag) -> bool
        ensures { TakesTag (exchange_of self.old) tag (exchange_of self.new) result }
    {
        if is_asynchronous(tag) {
            return true;
        }
        if tag == PgTag::ErrorResponse {
            return self.fails();
        }
        if self.skipping && tag != PgTag::ReadyForQuery {
            return false;
        }
        self.answers(tag)
    }

    /// Takes an ErrorResponse, where it may come.
    fn fails(&mut self) -> bool
        ensures { TakesError (exchange_of self.old) (exchange_of self.new) result }
    {
        if self.skipping {
            return false;
        }
        skip_to_sync(&mut self.waiting);
        self.skipping = true;
        true
    }

    /// Takes a message of the first request's answer.
    fn answers(&mut self, tag: PgTag) -> bool
        ensures { TakesAnswer (exchange_of self.old) tag (exchange_of self.new) result }
    {
        let Some(first) = self.waiting.front() else {
            return false;
        };
        let Some(left) = answered(*first, tag) else {
            return false;
        };
        put_first(&mut self.waiting, left);
        self.skipping = false;
        true
    }
}
