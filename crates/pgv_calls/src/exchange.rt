//! Rows of calls on an exchange: `sent REQUEST => ok`, `came BYTE => ok` or `refused`, `idle => true` or `false`.

use pgv::message::{PgExchange, PgRequest};
use pgv_fixtures::{Again, Called};
use std::alloc::Global;

/// The request of a name.
fn request_of(name: &str) -> PgRequest {
    match name {
        "parse" => PgRequest::Parse,
        "bind" => PgRequest::Bind,
        "describe statement" => PgRequest::DescribeStatement,
        "describe portal" => PgRequest::DescribePortal,
        "execute" => PgRequest::Execute,
        "close" => PgRequest::Close,
        _ => PgRequest::Sync,
    }
}

/// Whether a message may come.
fn comes(exchange: &mut PgExchange, tag: &[u8]) -> bool {
    match tag {
        [byte] => exchange.step(*byte).is_ok(),
        _ => false,
    }
}

/// An exchange that rows change.
#[derive(Drop)]
pub struct Exchange(pub PgExchange);

impl Called for Exchange {
    fn holds(&mut self, _alloc: Global, call: &str, wanted: &str) -> Result<bool, Again> {
        let (form, name) = call.split_once(' ').unwrap_or((call, ""));
        match form {
            "sent" => {
                self.0.sent(request_of(name))?;
                Ok(wanted == "ok")
            }
            "came" => Ok(comes(&mut self.0, name.as_bytes()) == (wanted == "ok")),
            _ => Ok(self.0.is_idle() == (wanted == "true")),
        }
    }
}
