//! The messages of a server, by the bytes that name them.

ghost use Rattle.std.specs.Prelude.{◌≡◌};
ghost use Rattle.pgv_message.specs.Tags.{tag_of};

/// A message that a server sends in the extended query (PostgreSQL: "Message Formats").
#[derive(Clone, Copy, Debug, PartialEq, Eq)]
pub enum PgTag {
    /// `1`: a query was parsed.
    ParseComplete,
    /// `2`: parameters were bound.
    BindComplete,
    /// `3`: a statement or a portal was closed.
    CloseComplete,
    /// `t`: the types of a statement's parameters.
    ParameterDescription,
    /// `T`: the columns of rows.
    RowDescription,
    /// `n`: no rows will come.
    NoData,
    /// `D`: a row.
    DataRow,
    /// `C`: a command has run to its end.
    CommandComplete,
    /// `I`: the query was empty.
    EmptyQueryResponse,
    /// `s`: as many rows have come as were asked for.
    PortalSuspended,
    /// `H`: the data of a COPY will come.
    CopyOutResponse,
    /// `G`: the data of a COPY is awaited.
    CopyInResponse,
    /// `d`: data of a COPY.
    CopyData,
    /// `c`: the data of a COPY has ended.
    CopyDone,
    /// `Z`: the server is ready for the next query.
    ReadyForQuery,
    /// `E`: an error.
    ErrorResponse,
    /// `N`: a notice.
    NoticeResponse,
    /// `S`: a parameter of the session has changed.
    ParameterStatus,
    /// `A`: a notification.
    NotificationResponse,
}

impl PgTag {
    /// The message that a byte names, where the extended query has one.
    pub fn from_byte(byte: u8) -> Option<PgTag>
        ensures { result ≡ tag_of byte }
    {
        match byte {
            b'1' => Some(PgTag::ParseComplete),
            b'2' => Some(PgTag::BindComplete),
            b'3' => Some(PgTag::CloseComplete),
            b't' => Some(PgTag::ParameterDescription),
            b'T' => Some(PgTag::RowDescription),
            b'n' => Some(PgTag::NoData),
            b'D' => Some(PgTag::DataRow),
            b'C' => Some(PgTag::CommandComplete),
            b'I' => Some(PgTag::EmptyQueryResponse),
            b's' => Some(PgTag::PortalSuspended),
            b'H' => Some(PgTag::CopyOutResponse),
            b'G' => Some(PgTag::CopyInResponse),
            b'd' => Some(PgTag::CopyData),
            b'c' => Some(PgTag::CopyDone),
            b'Z' => Some(PgTag::ReadyForQuery),
            b'E' => Some(PgTag::ErrorResponse),
            b'N' => Some(PgTag::NoticeResponse),
            b'S' => Some(PgTag::ParameterStatus),
            b'A' => Some(PgTag::NotificationResponse),
            _ => None,
        }
    }
}
