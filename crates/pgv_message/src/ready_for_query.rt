//! ReadyForQuery: the server is ready for the next query.

ghost use Rattle.pgv_value.specs.Parsed.{GivesExactly};
ghost use Rattle.pgv_message.specs.Bodies.{ready_for_query, status_of};

use crate::end::check_end;
use pgv_value::CodecError;

/// Whether a session is in a transaction.
#[derive(Clone, Copy, Debug, PartialEq, Eq)]
pub enum PgTransactionStatus {
    /// `I`: in none.
    Idle,
    /// `T`: in one.
    Transaction,
    /// `E`: in one that failed, in which all queries are refused up to its end.
    Failed,
}

/// The status of a code. Another code is refused with [`OutOfRange`](CodecError::OutOfRange) (C30).
fn status(code: u8) -> Result<PgTransactionStatus, CodecError>
    ensures { GivesExactly (λ status. status) (status_of code) result }
{
    match code {
        b'I' => Ok(PgTransactionStatus::Idle),
        b'T' => Ok(PgTransactionStatus::Transaction),
        b'E' => Ok(PgTransactionStatus::Failed),
        _ => Err(CodecError::OutOfRange),
    }
}

/// The status in a ReadyForQuery's body (PostgreSQL: "Message Formats", ReadyForQuery). An empty body is refused with
/// [`Short`](CodecError::Short) (C15), another code with [`OutOfRange`](CodecError::OutOfRange) (C30), and bytes after
/// the code with [`WrongLength`](CodecError::WrongLength) (C17).
///
/// `49` is [`PgTransactionStatus::Idle`].
#[tactic(auto, unfolding(crate::specs::Bodies::ready_for_query))]
pub fn transaction_status(body: &[u8]) -> Result<PgTransactionStatus, CodecError>
    ensures { GivesExactly (λ status. status) (ready_for_query body.now) result }
{
    let Some((code, rest)) = body.split_first() else {
        return Err(CodecError::Short);
    };
    let status = status(*code)?;
    check_end(body, rest)?;
    Ok(status)
}
