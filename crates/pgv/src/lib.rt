//! PostgreSQL's value codec, as `sqlx-postgres` has it, proved: one crate to depend on. It holds no code but laws; each
//! other name is re-exported from the crate that has it.
//!
//! - At the top what a binder and a reader of rows need: [`PgArguments`], [`PgValueRef`], types and the traits, and
//!   user-defined types by little code: [`Labelled`], [`Composite`], [`Newtype`], [`Domain`], [`PlainCodec`].
//! - [`types`]: the Rust types of values, beside those of std, `jiff` and `uuid`.
//! - [`text`]: readers of whole texts.
//! - [`row`], [`message`], [`catalog`]: rows of a statement's result, the messages around parameters and rows, and the
//!   types of a server that are not built in: what a driver needs.
//! - [`laws`]: what is proved, each law the contract of a function that does nothing.
#![tactic(auto)]

pub mod laws;

pub use pgv_buf::{Mark, Tokens};
pub use pgv_codec::{
    Codec, CodecList, Decode, Encode, FieldList, IsNull, KeptList, PgArgumentBuffer,
    PgHasArrayType, PgRecordDecoder, PgRecordEncoder, Plain, ReadBack, Type, WrittenList,
    encode_array, encode_record, encode_text, type_of_value,
};
pub use pgv_copy::{PgCopyNext, PgCopyPieces, PgCopyReader};
pub use pgv_range::{PgHasRangeType, range_compatible};
pub use pgv_types::{
    IdentifierChar, IdentifierChars, Oid, PgArrayOf, PgBuiltIn, PgCustomType, PgType, PgTypeInfo,
    PgTypeKind, PgTypeKindRef, PgTypeName, PgTypeRef, StaticText,
};
pub use pgv_user_types::{
    Composite, Domain, Labelled, Newtype, PgComposite, PgDomain, PgEnum, PgNewtype, PgPlain,
    PgRecord, PlainCodec, PlainRange,
};
pub use pgv_value::{CodecError, PgValue, PgValueFormat, PgValueRef};
pub use pgv_wire::PgArguments;

/// The Rust types of values.
pub mod types {
    pub use pgv_ltree::{
        PgLQuery, PgLQueryLevel, PgLQueryVariant, PgLQueryVariantFlag, PgLTree, PgLTreeLabel,
    };
    pub use pgv_more::{
        BitVec, MacAddress, PgBytea, PgByteaArray, PgCiText, PgHstore, PgMoney, PgNumeric,
        PgNumericSign, PgTimeTz,
    };
    pub use pgv_range::PgRange;
    pub use pgv_scalar_text::{IpNetwork, Ipv4Network, Ipv6Network};
    pub use pgv_types::Oid;
    pub use pgv_value::{PgInterval, PgLQueryParseError, PgLTreeParseError};
}

/// Readers of whole texts.
pub mod text {
    pub use pgv_scalar_text::{
        NumberFault, bool_of, char_of, date, date_time, instant, number_of, time, time_tz,
        unsigned_number_of,
    };
    pub use pgv_text::{
        Elements, Next, Part, Parts, RangeText, TextForm, array_elements, range_parts,
        record_fields,
    };
}

/// Rows of a statement's result, by the columns that a RowDescription has.
pub mod row {
    pub use pgv_row::{
        ColumnError, ColumnIndex, ColumnList, ColumnTuple, FromRow, PgCatalog, PgColumn, PgColumns,
        PgCopyRows, PgFoundRow, PgOwnedRow, PgPlaces, PgRow,
    };
}

/// Messages of PostgreSQL's protocol: those that a driver sends, those that it reads, and which may come next.
pub mod message {
    pub use pgv_message::{
        MessageError, PgAuthentication, PgAwaited, PgBackendKey, PgCommandTag, PgCopyFormats,
        PgExchange, PgField, PgMessage, PgNotice, PgNotification, PgRequest, PgSetting, PgTag,
        PgTransactionStatus, Prepared, UnexpectedMessage, authentication_of, backend_key,
        changed_setting, command_tag, copy_formats_of, message_in_front, notification_of,
        parameter_oids, transaction_status, write_bind, write_close, write_copy_data,
        write_copy_done, write_copy_fail, write_describe, write_execute, write_flush, write_parse,
        write_query, write_startup, write_sync, write_terminate,
    };
}

/// The types of a server that are not built in, made of rows of its catalogue.
pub mod catalog {
    pub use pgv_catalog::{
        CatalogError, FIELDS, LABELS, PgCatalogRows, PgFieldRow, PgLabelRow, PgNames,
        PgServerTypes, PgTypeClass, PgTypeRow, TYPES, fill,
    };
}

pub use pgv_types::{identifier_chars, name_eq};
pub use pgv_value::{
    read_bool, read_date, read_date_time, read_i8, read_i16, read_i32, read_i64, read_instant,
    read_interval, read_ip_address, read_ip_network, read_oid, read_time, read_uuid,
};
