//! Laws of messages: each is the contract of a function that does nothing.

ghost use Rattle.std.specs.Prelude.{◌≡◌};
ghost use Rattle.pgv_buf.specs.Tokens.{shown};
ghost use Rattle.pgv_wire.specs.Arguments.{all_cells};
ghost use Rattle.pgv_message.specs.Echo.{ComeBack};
ghost use Rattle.pgv_message.specs.ExchangeLaws.{AnswersEndTheExchange, OnlyAnswersEndTheExchange, AsyncChangesNothing, ErrorSkipsToSync, OnlyReadyEndsSkipping, RequestsDoNotEndSkipping};
ghost use Rattle.pgv_message.specs.Frames.{ParametersAreArguments};
ghost use Rattle.pgv_message.specs.Notice.{NoticeIsRead};
ghost use Rattle.pgv_message.specs.Received.{MessageIsFound, FoundIsMessage, CutIsNotFound};

use pgv_codec::{ReadBack, Type};
use pgv_wire::PgArguments;
use pgv_wire::laws::{arguments_read, main_sentence, only_additions_count};

/// A message in front of bytes is found, with its tag, its body and the bytes after it, whatever these are.
#[tactic(auto, using(crate::proofs::InFront::message_is_found))]
pub fn message_is_found()
    ensures { MessageIsFound }
{}

/// If a message is found in front of bytes, the bytes are its tag, its length and its body, and then the bytes after
/// it.
#[tactic(auto, using(crate::proofs::InFront::found_is_message))]
pub fn found_is_message()
    ensures { FoundIsMessage }
{}

/// Bytes that end before their first message does are not refused, and no message is found in them.
#[tactic(auto, using(crate::proofs::InFront::cut_is_not_found))]
pub fn cut_is_not_found()
    ensures { CutIsNotFound }
{}

/// The parameters of a Bind are the arguments: for each, in order, the frame of its part, null where its image is null
/// and else what the argument shows.
pub fn parameters_are_arguments(arguments: &PgArguments)
    ensures { ParametersAreArguments arguments.now }
{
    frames_are_parameters(arguments.buffer().as_slice(), arguments);
}

/// A server that sends the parameters of a Bind back as a row sends a DataRow, and what was added as an argument for a
/// value of `T` is read from its column by [`PgRow::try_get`](pgv_row::PgRow::try_get), in binary, as what the value
/// keeps, under each type that fits.
///
/// It holds whatever was added, refused and filled, in any order: `calls` is any list of calls that leaves these
/// arguments. [`oids_fit`](pgv_codec::laws::oids_fit) says that OIDs are numbers of 32 bits.
pub fn parameters_come_back<T: Type + ReadBack>(arguments: &PgArguments)
    ensures { ComeBack T.encoding T.accepts T.parse (λ v. T.view (T.kept v)) T.fits
        arguments.now }
{
    frames_come_back::<T>(arguments.buffer().as_slice(), arguments);
}

/// What [`parameters_come_back`] says of arguments holds of bytes that are their buffer.
fn frames_come_back<T: Type + ReadBack>(frames: &[u8], arguments: &PgArguments)
    requires { frames.now ≡ shown (all_cells arguments.now) }
    ensures { ComeBack T.encoding T.accepts T.parse (λ v. T.view (T.kept v)) T.fits
        arguments.now }
{
    main_sentence::<T>();
    only_additions_count();
    let buffer = arguments.buffer();
    let _bytes = buffer.as_slice();
}

/// Bytes that are the buffer of arguments are the parameters of a Bind.
#[tactic(auto, using(crate::proofs::Frames::parameters_are))]
fn frames_are_parameters(frames: &[u8], arguments: &PgArguments)
    requires { frames.now ≡ shown (all_cells arguments.now) }
    ensures { ParametersAreArguments arguments.now }
{
    arguments_read(arguments);
}

/// When the answers to all requests have come, in order, nothing is awaited.
#[tactic(auto, using(crate::proofs::ExchangeLaws::answers_end_the_exchange))]
pub fn answers_end_the_exchange()
    ensures { AnswersEndTheExchange }
{}

/// Where nothing is awaited after messages of which none is an error or may come at any time, they are the answers to
/// all requests, in order.
#[tactic(auto, using(crate::proofs::ExchangeLaws::only_answers_end_the_exchange))]
pub fn only_answers_end_the_exchange()
    ensures { OnlyAnswersEndTheExchange }
{}

/// Messages that may come at any time change nothing, wherever they come among the others.
#[tactic(auto, using(crate::proofs::ExchangeLaws::async_changes_nothing))]
pub fn async_changes_nothing()
    ensures { AsyncChangesNothing }
{}

/// An error ends all requests before the next Sync, and the server then passes over requests.
#[tactic(auto, using(crate::proofs::ExchangeLaws::error_skips_to_sync))]
pub fn error_skips_to_sync()
    ensures { ErrorSkipsToSync }
{}

/// After an error only a ReadyForQuery may come, and messages that may come at any time; the ReadyForQuery ends the
/// passing over of requests, and no request ends it.
#[tactic(auto, using(crate::proofs::ExchangeLaws::only_ready_ends_skipping, crate::proofs::ExchangeLaws::requests_do_not_end_skipping))]
pub fn only_ready_ends_skipping()
    ensures messages { OnlyReadyEndsSkipping }
    ensures requests { RequestsDoNotEndSkipping }
{}

/// The body of an error or a notice is read as fields exactly where it is these fields, a zero byte and nothing else.
#[tactic(auto, using(crate::proofs::Notices::notice_is_read))]
pub fn notice_is_read()
    ensures { NoticeIsRead }
{}
