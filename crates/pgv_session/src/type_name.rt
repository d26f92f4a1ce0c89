//! The TYPEs of the lines.

ghost use Rattle.std.specs.Prelude.{◌≡◌, option_map};
ghost use Rattle.pgv_session.specs.Types.{row_named, row_of, types};

use crate::line::is_word;

/// A TYPE: a Rust type by the name that PostgreSQL has for its type.
#[derive(Clone, Copy, Drop)]
pub enum TypeName {
    /// `bool`.
    Bool,
    /// `char`.
    Char,
    /// `int2`.
    Int2,
    /// `int4`.
    Int4,
    /// `int8`.
    Int8,
    /// `oid`.
    Oid,
    /// `text`.
    Text,
    /// `uuid`.
    Uuid,
    /// `date`.
    Date,
    /// `time`.
    Time,
    /// `timestamp`.
    Timestamp,
    /// `timestamptz`.
    Timestamptz,
    /// `timetz`.
    Timetz,
    /// `interval`.
    Interval,
    /// `varbit`.
    Varbit,
    /// `inet`.
    Inet,
    /// `macaddr`.
    Macaddr,
    /// `bytea`.
    Bytea,
    /// `citext`.
    Citext,
    /// `money`.
    Money,
    /// `numeric`.
    Numeric,
    /// `hstore`.
    Hstore,
    /// `int4range`.
    Int4Range,
    /// `int8range`.
    Int8Range,
    /// `daterange`.
    DateRange,
    /// `ltree`.
    Ltree,
    /// `lquery`.
    Lquery,
    /// `int4[]`.
    Int4Array,
    /// `text[]`.
    TextArray,
    /// `date[]`.
    DateArray,
    /// `ltree[]`.
    LtreeArray,
}

/// The TYPE of this name, if there is one.
pub fn type_name(name: &[u8]) -> Option<TypeName>
    ensures { option_map row_of result ≡ row_named types name.now }
{
    match name {
        _ if is_word(name, "bool") => Some(TypeName::Bool),
        _ if is_word(name, "char") => Some(TypeName::Char),
        _ if is_word(name, "int2") => Some(TypeName::Int2),
        _ if is_word(name, "int4") => Some(TypeName::Int4),
        _ if is_word(name, "int8") => Some(TypeName::Int8),
        _ if is_word(name, "oid") => Some(TypeName::Oid),
        _ if is_word(name, "text") => Some(TypeName::Text),
        _ if is_word(name, "uuid") => Some(TypeName::Uuid),
        _ if is_word(name, "date") => Some(TypeName::Date),
        _ if is_word(name, "time") => Some(TypeName::Time),
        _ if is_word(name, "timestamp") => Some(TypeName::Timestamp),
        _ if is_word(name, "timestamptz") => Some(TypeName::Timestamptz),
        _ if is_word(name, "timetz") => Some(TypeName::Timetz),
        _ if is_word(name, "interval") => Some(TypeName::Interval),
        _ if is_word(name, "varbit") => Some(TypeName::Varbit),
        _ if is_word(name, "inet") => Some(TypeName::Inet),
        _ if is_word(name, "macaddr") => Some(TypeName::Macaddr),
        _ if is_word(name, "bytea") => Some(TypeName::Bytea),
        _ if is_word(name, "citext") => Some(TypeName::Citext),
        _ if is_word(name, "money") => Some(TypeName::Money),
        _ if is_word(name, "numeric") => Some(TypeName::Numeric),
        _ if is_word(name, "hstore") => Some(TypeName::Hstore),
        _ if is_word(name, "int4range") => Some(TypeName::Int4Range),
        _ if is_word(name, "int8range") => Some(TypeName::Int8Range),
        _ if is_word(name, "daterange") => Some(TypeName::DateRange),
        _ if is_word(name, "ltree") => Some(TypeName::Ltree),
        _ if is_word(name, "lquery") => Some(TypeName::Lquery),
        _ if is_word(name, "int4[]") => Some(TypeName::Int4Array),
        _ if is_word(name, "text[]") => Some(TypeName::TextArray),
        _ if is_word(name, "date[]") => Some(TypeName::DateArray),
        _ if is_word(name, "ltree[]") => Some(TypeName::LtreeArray),
        _ => None,
    }
}
