//! The code of the README and what it says of it, and an exchange of the messages that `docs/using.md` has under *On
//! the wire*, with what PostgreSQL 15.18 sent in it.

use pgv::{CodecError, Decode, PgArguments, PgType, PgTypeInfo, PgValueFormat, PgValueRef};
use std::alloc::Global;

/// The parameters of a statement, a number and a text: two frames.
fn bound(alloc: Global) -> Result<PgArguments, CodecError> {
    let mut arguments = PgArguments::new(alloc);
    arguments.add(7)?;
    arguments.add(String::from_str(alloc, "seven")?)?;
    Ok(arguments)
}

/// The number in the first column of a row.
fn first_column(alloc: Global, row: &[u8]) -> Result<Option<i32>, CodecError> {
    let mut rest = row;
    let int4 = PgTypeInfo(PgType::Int4);
    let value = PgValueRef::get(&mut rest, PgValueFormat::Binary, int4)?;
    Option::<i32>::decode(alloc, value)
}

mod tests {
    use super::{bound, first_column};
    use std::test::Fail;

    #[test]
    fn a_statement_is_bound(rt: HostRuntime) -> Result<(), Fail> {
        let arguments = bound(rt.alloc())?;
        let frames = hex::encode(rt.alloc(), arguments.buffer().as_slice())?;
        assert_eq!(rt; frames.as_str(), "000000040000000700000005736576656e");
        Ok(())
    }

    #[test]
    fn a_column_is_read(rt: HostRuntime) -> Result<(), Fail> {
        let row = b"\0\0\0\x04\0\0\0\x07";
        assert_eq!(rt; first_column(rt.alloc(), row)?, Some(7));
        Ok(())
    }
}

/// An exchange of messages.
mod wire {
    use crate::examples::bytes_of;
    use hex::encode;
    use pgv::message::{PgTransactionStatus, message_in_front, parameter_oids, transaction_status};
    use pgv::row::PgColumns;
    use pgv::{CodecError, PgArguments};
    use pgv_examples::statement::{ask, columns_of, people, run};
    use std::alloc::Global;
    use std::test::Fail;

    /// What PostgreSQL 15.18 sent of `select id, name, mood, sizes, born from people ..`, in hex: the body of its
    /// RowDescription.
    const DESCRIBED: &[u8] = b"\
    00056964000000403d0001000000170004ffffffff00006e616d65000000403d000200000019ffffffffffff00006d6f6f64000000403d0003000040260004\
    ffffffff000073697a6573000000403d0004000003efffffffffffff0000626f726e000000403d00050000043a0004ffffffff0000";

    /// And what came after Bind and Execute: three rows.
    const CAME: &[u8] = b"\
        3200000004\
        440000004e0005000000040000000100000003416e6e00000005686170707900000024000000010000000000000017000000020000000100000004000000010000\
    0004000000020000000400000001\
        440000002100050000000400000002ffffffff00000003736164ffffffffffffffff\
        4400000034000500000004000000070000000442c3a961000000026f6b0000000c00000000000000000000001700000004ffffffff\
        430000000d53454c4543542033005a0000000549";

    /// The people in these messages, each on a line.
    fn lines(alloc: Global, columns: &PgColumns<'_>, came: &[u8]) -> Result<String, CodecError> {
        let mut text = String::new(alloc);
        for (id, name) in people(alloc, columns, came)? {
            let line = format!(in alloc; "{id} {name:?}\n")?;
            text.push_str(line.as_str())?;
        }
        Ok(text)
    }

    /// The people of that session, each on a line.
    fn people_shown(alloc: Global) -> Result<String, CodecError> {
        let described = bytes_of(alloc, DESCRIBED)?;
        let came = bytes_of(alloc, CAME)?;
        let columns = columns_of(alloc, described.as_slice())?;
        lines(alloc, &columns, came.as_slice())
    }

    /// Appends what is sent of `select $1` with the number 7.
    fn push_sent(alloc: Global, out: &mut Vec<u8>) -> Result<(), Fail> {
        let mut arguments = PgArguments::new(alloc);
        arguments.add(7i32)?;
        ask(out, "select $1")?;
        Ok(run(out, &arguments)?)
    }

    /// That, in hex.
    fn sent_shown(alloc: Global) -> Result<String, Fail> {
        let mut out = Vec::new(alloc);
        push_sent(alloc, &mut out)?;
        Ok(encode(alloc, out.as_slice())?)
    }

    /// What comes after Describe and before Bind, in hex: ParseComplete, ParameterDescription, NoData, ReadyForQuery.
    const PREPARED: &[u8] = b"3100000004740000000a0001000000176e000000045a0000000549";

    /// Appends the OIDs of the parameters in the body of a ParameterDescription.
    fn push_oids(alloc: Global, text: &mut String, body: &[u8]) -> Result<(), CodecError> {
        for oid in parameter_oids(alloc, body)?.iter() {
            text.push_str(format!(in alloc; "{} ", oid.0)?.as_str())?;
        }
        Ok(())
    }

    /// Appends whether a transaction is open, by the body of a ReadyForQuery.
    fn push_status(text: &mut String, body: &[u8]) -> Result<(), CodecError> {
        let idle = matches!(transaction_status(body)?, PgTransactionStatus::Idle);
        Ok(text.push_str(if idle { "idle" } else { "open" })?)
    }

    /// The OIDs of the parameters in these messages, and whether a transaction is open after them.
    fn prepared(alloc: Global, came: &[u8]) -> Result<String, CodecError> {
        let mut text = String::new(alloc);
        let mut rest = came;
        for _ in 0..came.len() {
            let Ok(Some(found)) = message_in_front(rest) else {
                return Ok(text);
            };
            match found.tag {
                b't' => push_oids(alloc, &mut text, found.body)?,
                b'Z' => push_status(&mut text, found.body)?,
                _ => {}
            }
            rest = found.rest;
        }
        Ok(text)
    }

    #[test]
    fn a_statement_is_run(rt: HostRuntime) -> Result<(), Fail> {
        let sent = sent_shown(rt.alloc())?;
        assert_eq!(rt;
            sent.as_str(),
            "50000000110073656c65637420243100000044000000065300530000000442000000180000000100010001000000040000000700010001450000000900000000005300000004"
        );
        let came = bytes_of(rt.alloc(), PREPARED)?;
        let prepared = prepared(rt.alloc(), came.as_slice())?;
        assert_eq!(rt; prepared.as_str(), "23 idle");
        let shown = people_shown(rt.alloc())?;
        assert_eq!(rt;
            shown.as_str(),
            "1 Some(\"Ann\")\n2 None\n7 Some(\"Béa\")\n"
        );
        Ok(())
    }
}
