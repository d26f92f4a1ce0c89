//! The table of the built-in types: their OIDs, names and kinds, as the server's own catalogue has them from its start
//! (PostgreSQL, "pg_type").
ghost use Rattle.std.specs.Prelude.{◌≡◌, Some, map, option_map, slice_get};
ghost use Rattle.pgv_types.specs.Facts.{built_in, built_in_kind, element_oid};
ghost use Rattle.pgv_types.specs.LentParts.{kind_lent, ref_type};
ghost use Rattle.pgv_types.specs.Shown.{oid_of_variant};
ghost use Rattle.pgv_types.specs.Table.{TypeEntry, entries};
ghost use Rattle.pgv_types.specs.TableView.{IsTableRow, entry_in_row};
ghost use Rattle.pgv_types.specs.Ty.{builtin};

use crate::{Oid, PgType, PgTypeInfo, PgTypeKindRef, PgTypeRef};

/// A built-in type, by its name in PostgreSQL's catalogue; an array comes after its element.
#[derive(Clone, Copy, Drop)]
pub enum PgBuiltIn {
    Bool,
    BoolArray,
    Bytea,
    ByteaArray,
    Char,
    CharArray,
    Name,
    NameArray,
    Int8,
    Int8Array,
    Int2,
    Int2Array,
    Int4,
    Int4Array,
    Text,
    TextArray,
    Oid,
    OidArray,
    Json,
    JsonArray,
    Point,
    PointArray,
    Lseg,
    LsegArray,
    Path,
    PathArray,
    Box,
    BoxArray,
    Polygon,
    PolygonArray,
    Line,
    LineArray,
    Cidr,
    CidrArray,
    Float4,
    Float4Array,
    Float8,
    Float8Array,
    Unknown,
    Circle,
    CircleArray,
    Macaddr8,
    Macaddr8Array,
    Money,
    MoneyArray,
    Macaddr,
    MacaddrArray,
    Inet,
    InetArray,
    Bpchar,
    BpcharArray,
    Varchar,
    VarcharArray,
    Date,
    DateArray,
    Time,
    TimeArray,
    Timestamp,
    TimestampArray,
    Timestamptz,
    TimestamptzArray,
    Interval,
    IntervalArray,
    Timetz,
    TimetzArray,
    Bit,
    BitArray,
    Varbit,
    VarbitArray,
    Numeric,
    NumericArray,
    Record,
    RecordArray,
    Void,
    Uuid,
    UuidArray,
    Jsonb,
    JsonbArray,
    Int4Range,
    Int4RangeArray,
    NumRange,
    NumRangeArray,
    TsRange,
    TsRangeArray,
    TstzRange,
    TstzRangeArray,
    DateRange,
    DateRangeArray,
    Int8Range,
    Int8RangeArray,
    Jsonpath,
    JsonpathArray,
}

/// What kind a built-in type is of.
#[derive(Clone, Copy, Drop)]
pub(crate) enum RowKind {
    Simple,
    Pseudo,
    /// An array of the element that is given.
    Array(PgBuiltIn),
    /// A range over the type that is given.
    Range(PgBuiltIn),
}

/// What the catalogue has of a built-in type.
pub(crate) struct Row {
    pub(crate) oid: Oid,
    /// The catalogue name.
    pub(crate) name: &'static str,
    /// The name that is shown, of an array without its `[]`.
    pub(crate) display: &'static str,
    pub(crate) kind: RowKind,
}

/// Rows, each in a line.
macro_rules! rows {
    ($($oid:literal $name:literal $display:literal $kind:expr;)*) => {
        [$(Row { oid: Oid($oid), name: $name, display: $display, kind: $kind },)*]
    };
}

/// The row of each type, in the order of the variants.
static ROWS: [Row; 92] = rows! {
    16 "bool" "BOOL" RowKind::Simple;
    1000 "_bool" "BOOL" RowKind::Array(PgBuiltIn::Bool);
    17 "bytea" "BYTEA" RowKind::Simple;
    1001 "_bytea" "BYTEA" RowKind::Array(PgBuiltIn::Bytea);
    18 "char" "\"CHAR\"" RowKind::Simple;
    1002 "_char" "\"CHAR\"" RowKind::Array(PgBuiltIn::Char);
    19 "name" "NAME" RowKind::Simple;
    1003 "_name" "NAME" RowKind::Array(PgBuiltIn::Name);
    20 "int8" "INT8" RowKind::Simple;
    1016 "_int8" "INT8" RowKind::Array(PgBuiltIn::Int8);
    21 "int2" "INT2" RowKind::Simple;
    1005 "_int2" "INT2" RowKind::Array(PgBuiltIn::Int2);
    23 "int4" "INT4" RowKind::Simple;
    1007 "_int4" "INT4" RowKind::Array(PgBuiltIn::Int4);
    25 "text" "TEXT" RowKind::Simple;
    1009 "_text" "TEXT" RowKind::Array(PgBuiltIn::Text);
    26 "oid" "OID" RowKind::Simple;
    1028 "_oid" "OID" RowKind::Array(PgBuiltIn::Oid);
    114 "json" "JSON" RowKind::Simple;
    199 "_json" "JSON" RowKind::Array(PgBuiltIn::Json);
    600 "point" "POINT" RowKind::Simple;
    1017 "_point" "POINT" RowKind::Array(PgBuiltIn::Point);
    601 "lseg" "LSEG" RowKind::Simple;
    1018 "_lseg" "LSEG" RowKind::Array(PgBuiltIn::Lseg);
    602 "path" "PATH" RowKind::Simple;
    1019 "_path" "PATH" RowKind::Array(PgBuiltIn::Path);
    603 "box" "BOX" RowKind::Simple;
    1020 "_box" "BOX" RowKind::Array(PgBuiltIn::Box);
    604 "polygon" "POLYGON" RowKind::Simple;
    1027 "_polygon" "POLYGON" RowKind::Array(PgBuiltIn::Polygon);
    628 "line" "LINE" RowKind::Simple;
    629 "_line" "LINE" RowKind::Array(PgBuiltIn::Line);
    650 "cidr" "CIDR" RowKind::Simple;
    651 "_cidr" "CIDR" RowKind::Array(PgBuiltIn::Cidr);
    700 "float4" "FLOAT4" RowKind::Simple;
    1021 "_float4" "FLOAT4" RowKind::Array(PgBuiltIn::Float4);
    701 "float8" "FLOAT8" RowKind::Simple;
    1022 "_float8" "FLOAT8" RowKind::Array(PgBuiltIn::Float8);
    705 "unknown" "UNKNOWN" RowKind::Simple;
    718 "circle" "CIRCLE" RowKind::Simple;
    719 "_circle" "CIRCLE" RowKind::Array(PgBuiltIn::Circle);
    774 "macaddr8" "MACADDR8" RowKind::Simple;
    775 "_macaddr8" "MACADDR8" RowKind::Array(PgBuiltIn::Macaddr8);
    790 "money" "MONEY" RowKind::Simple;
    791 "_money" "MONEY" RowKind::Array(PgBuiltIn::Money);
    829 "macaddr" "MACADDR" RowKind::Simple;
    1040 "_macaddr" "MACADDR" RowKind::Array(PgBuiltIn::Macaddr);
    869 "inet" "INET" RowKind::Simple;
    1041 "_inet" "INET" RowKind::Array(PgBuiltIn::Inet);
    1042 "bpchar" "CHAR" RowKind::Simple;
    1014 "_bpchar" "CHAR" RowKind::Array(PgBuiltIn::Bpchar);
    1043 "varchar" "VARCHAR" RowKind::Simple;
    1015 "_varchar" "VARCHAR" RowKind::Array(PgBuiltIn::Varchar);
    1082 "date" "DATE" RowKind::Simple;
    1182 "_date" "DATE" RowKind::Array(PgBuiltIn::Date);
    1083 "time" "TIME" RowKind::Simple;
    1183 "_time" "TIME" RowKind::Array(PgBuiltIn::Time);
    1114 "timestamp" "TIMESTAMP" RowKind::Simple;
    1115 "_timestamp" "TIMESTAMP" RowKind::Array(PgBuiltIn::Timestamp);
    1184 "timestamptz" "TIMESTAMPTZ" RowKind::Simple;
    1185 "_timestamptz" "TIMESTAMPTZ" RowKind::Array(PgBuiltIn::Timestamptz);
    1186 "interval" "INTERVAL" RowKind::Simple;
    1187 "_interval" "INTERVAL" RowKind::Array(PgBuiltIn::Interval);
    1266 "timetz" "TIMETZ" RowKind::Simple;
    1270 "_timetz" "TIMETZ" RowKind::Array(PgBuiltIn::Timetz);
    1560 "bit" "BIT" RowKind::Simple;
    1561 "_bit" "BIT" RowKind::Array(PgBuiltIn::Bit);
    1562 "varbit" "VARBIT" RowKind::Simple;
    1563 "_varbit" "VARBIT" RowKind::Array(PgBuiltIn::Varbit);
    1700 "numeric" "NUMERIC" RowKind::Simple;
    1231 "_numeric" "NUMERIC" RowKind::Array(PgBuiltIn::Numeric);
    2249 "record" "RECORD" RowKind::Simple;
    2287 "_record" "RECORD" RowKind::Array(PgBuiltIn::Record);
    2278 "void" "VOID" RowKind::Pseudo;
    2950 "uuid" "UUID" RowKind::Simple;
    2951 "_uuid" "UUID" RowKind::Array(PgBuiltIn::Uuid);
    3802 "jsonb" "JSONB" RowKind::Simple;
    3807 "_jsonb" "JSONB" RowKind::Array(PgBuiltIn::Jsonb);
    3904 "int4range" "INT4RANGE" RowKind::Range(PgBuiltIn::Int4);
    3905 "_int4range" "INT4RANGE" RowKind::Array(PgBuiltIn::Int4Range);
    3906 "numrange" "NUMRANGE" RowKind::Range(PgBuiltIn::Numeric);
    3907 "_numrange" "NUMRANGE" RowKind::Array(PgBuiltIn::NumRange);
    3908 "tsrange" "TSRANGE" RowKind::Range(PgBuiltIn::Timestamp);
    3909 "_tsrange" "TSRANGE" RowKind::Array(PgBuiltIn::TsRange);
    3910 "tstzrange" "TSTZRANGE" RowKind::Range(PgBuiltIn::Timestamptz);
    3911 "_tstzrange" "TSTZRANGE" RowKind::Array(PgBuiltIn::TstzRange);
    3912 "daterange" "DATERANGE" RowKind::Range(PgBuiltIn::Date);
    3913 "_daterange" "DATERANGE" RowKind::Array(PgBuiltIn::DateRange);
    3926 "int8range" "INT8RANGE" RowKind::Range(PgBuiltIn::Int8);
    3927 "_int8range" "INT8RANGE" RowKind::Array(PgBuiltIn::Int8Range);
    4072 "jsonpath" "JSONPATH" RowKind::Simple;
    4073 "_jsonpath" "JSONPATH" RowKind::Array(PgBuiltIn::Jsonpath);
};

/// The table.
#[inline(always)]
fn rows() -> &'static [Row]
    ensures { map entry_in_row result.now ≡ entries }
{
    &ROWS
}

impl PgBuiltIn {
    /// Where its row is in the table.
    #[inline(always)]
    fn place(self) -> usize
        ensures { option_map (λ (e : TypeEntry). e.oid) (slice_get entries result)
            ≡ Some (oid_of_variant self) }
    {
        self as usize
    }

    /// Its row.
    #[inline(always)]
    pub(crate) fn row(self) -> &'static Row
        ensures { IsTableRow (oid_of_variant self) result.now }
    {
        &rows()[self.place()]
    }

    /// The element of an array.
    pub(crate) fn element(self) -> Option<PgBuiltIn>
        ensures { option_map oid_of_variant result ≡ element_oid (oid_of_variant self) }
    {
        match self.row().kind {
            RowKind::Array(element) => Some(element),
            _ => None,
        }
    }

    /// Its kind.
    pub(crate) fn kind(self) -> PgTypeKindRef<'static>
        ensures { kind_lent result ≡ built_in_kind (oid_of_variant self) }
    {
        match self.row().kind {
            RowKind::Simple => PgTypeKindRef::Simple,
            RowKind::Pseudo => PgTypeKindRef::Pseudo,
            RowKind::Array(element) => PgTypeKindRef::Array(held(element)),
            RowKind::Range(element) => PgTypeKindRef::Range(held(element)),
        }
    }

    /// The built-in type with this OID. `None` where no built-in type has it.
    pub(crate) fn try_from_oid(oid: Oid) -> Option<PgBuiltIn>
        ensures { option_map (λ found. builtin (oid_of_variant found)) result ≡ built_in oid.0 }
    {
        let found = match oid.0 {
            16 => PgBuiltIn::Bool,
            17 => PgBuiltIn::Bytea,
            18 => PgBuiltIn::Char,
            19 => PgBuiltIn::Name,
            20 => PgBuiltIn::Int8,
            21 => PgBuiltIn::Int2,
            23 => PgBuiltIn::Int4,
            25 => PgBuiltIn::Text,
            26 => PgBuiltIn::Oid,
            114 => PgBuiltIn::Json,
            199 => PgBuiltIn::JsonArray,
            600 => PgBuiltIn::Point,
            601 => PgBuiltIn::Lseg,
            602 => PgBuiltIn::Path,
            603 => PgBuiltIn::Box,
            604 => PgBuiltIn::Polygon,
            628 => PgBuiltIn::Line,
            629 => PgBuiltIn::LineArray,
            650 => PgBuiltIn::Cidr,
            651 => PgBuiltIn::CidrArray,
            700 => PgBuiltIn::Float4,
            701 => PgBuiltIn::Float8,
            705 => PgBuiltIn::Unknown,
            718 => PgBuiltIn::Circle,
            719 => PgBuiltIn::CircleArray,
            774 => PgBuiltIn::Macaddr8,
            775 => PgBuiltIn::Macaddr8Array,
            790 => PgBuiltIn::Money,
            791 => PgBuiltIn::MoneyArray,
            829 => PgBuiltIn::Macaddr,
            869 => PgBuiltIn::Inet,
            1000 => PgBuiltIn::BoolArray,
            1001 => PgBuiltIn::ByteaArray,
            1002 => PgBuiltIn::CharArray,
            1003 => PgBuiltIn::NameArray,
            1005 => PgBuiltIn::Int2Array,
            1007 => PgBuiltIn::Int4Array,
            1009 => PgBuiltIn::TextArray,
            1014 => PgBuiltIn::BpcharArray,
            1015 => PgBuiltIn::VarcharArray,
            1016 => PgBuiltIn::Int8Array,
            1017 => PgBuiltIn::PointArray,
            1018 => PgBuiltIn::LsegArray,
            1019 => PgBuiltIn::PathArray,
            1020 => PgBuiltIn::BoxArray,
            1021 => PgBuiltIn::Float4Array,
            1022 => PgBuiltIn::Float8Array,
            1027 => PgBuiltIn::PolygonArray,
            1028 => PgBuiltIn::OidArray,
            1040 => PgBuiltIn::MacaddrArray,
            1041 => PgBuiltIn::InetArray,
            1042 => PgBuiltIn::Bpchar,
            1043 => PgBuiltIn::Varchar,
            1082 => PgBuiltIn::Date,
            1083 => PgBuiltIn::Time,
            1114 => PgBuiltIn::Timestamp,
            1115 => PgBuiltIn::TimestampArray,
            1182 => PgBuiltIn::DateArray,
            1183 => PgBuiltIn::TimeArray,
            1184 => PgBuiltIn::Timestamptz,
            1185 => PgBuiltIn::TimestamptzArray,
            1186 => PgBuiltIn::Interval,
            1187 => PgBuiltIn::IntervalArray,
            1231 => PgBuiltIn::NumericArray,
            1266 => PgBuiltIn::Timetz,
            1270 => PgBuiltIn::TimetzArray,
            1560 => PgBuiltIn::Bit,
            1561 => PgBuiltIn::BitArray,
            1562 => PgBuiltIn::Varbit,
            1563 => PgBuiltIn::VarbitArray,
            1700 => PgBuiltIn::Numeric,
            2249 => PgBuiltIn::Record,
            2278 => PgBuiltIn::Void,
            2287 => PgBuiltIn::RecordArray,
            2950 => PgBuiltIn::Uuid,
            2951 => PgBuiltIn::UuidArray,
            3802 => PgBuiltIn::Jsonb,
            3807 => PgBuiltIn::JsonbArray,
            3904 => PgBuiltIn::Int4Range,
            3905 => PgBuiltIn::Int4RangeArray,
            3906 => PgBuiltIn::NumRange,
            3907 => PgBuiltIn::NumRangeArray,
            3908 => PgBuiltIn::TsRange,
            3909 => PgBuiltIn::TsRangeArray,
            3910 => PgBuiltIn::TstzRange,
            3911 => PgBuiltIn::TstzRangeArray,
            3912 => PgBuiltIn::DateRange,
            3913 => PgBuiltIn::DateRangeArray,
            3926 => PgBuiltIn::Int8Range,
            3927 => PgBuiltIn::Int8RangeArray,
            4072 => PgBuiltIn::Jsonpath,
            4073 => PgBuiltIn::JsonpathArray,
            _ => return None,
        };
        Some(found)
    }
}

/// A built-in type that is part of another.
fn held(part: PgBuiltIn) -> PgTypeRef<'static>
    ensures { ref_type result ≡ builtin (oid_of_variant part) }
{
    PgTypeRef::Owned(PgTypeInfo(PgType::BuiltIn(part)))
}

/// The built-in types as types: `PgTypeInfo(PgType::Int4)`.
#[allow(non_upper_case_globals)]
impl PgType {
    pub const Bool: PgType = PgType::BuiltIn(PgBuiltIn::Bool);

    pub const BoolArray: PgType = PgType::BuiltIn(PgBuiltIn::BoolArray);

    pub const Bytea: PgType = PgType::BuiltIn(PgBuiltIn::Bytea);

    pub const ByteaArray: PgType = PgType::BuiltIn(PgBuiltIn::ByteaArray);

    pub const Char: PgType = PgType::BuiltIn(PgBuiltIn::Char);

    pub const CharArray: PgType = PgType::BuiltIn(PgBuiltIn::CharArray);

    pub const Name: PgType = PgType::BuiltIn(PgBuiltIn::Name);

    pub const NameArray: PgType = PgType::BuiltIn(PgBuiltIn::NameArray);

    pub const Int8: PgType = PgType::BuiltIn(PgBuiltIn::Int8);

    pub const Int8Array: PgType = PgType::BuiltIn(PgBuiltIn::Int8Array);

    pub const Int2: PgType = PgType::BuiltIn(PgBuiltIn::Int2);

    pub const Int2Array: PgType = PgType::BuiltIn(PgBuiltIn::Int2Array);

    pub const Int4: PgType = PgType::BuiltIn(PgBuiltIn::Int4);

    pub const Int4Array: PgType = PgType::BuiltIn(PgBuiltIn::Int4Array);

    pub const Text: PgType = PgType::BuiltIn(PgBuiltIn::Text);

    pub const TextArray: PgType = PgType::BuiltIn(PgBuiltIn::TextArray);

    pub const Oid: PgType = PgType::BuiltIn(PgBuiltIn::Oid);

    pub const OidArray: PgType = PgType::BuiltIn(PgBuiltIn::OidArray);

    pub const Json: PgType = PgType::BuiltIn(PgBuiltIn::Json);

    pub const JsonArray: PgType = PgType::BuiltIn(PgBuiltIn::JsonArray);

    pub const Point: PgType = PgType::BuiltIn(PgBuiltIn::Point);

    pub const PointArray: PgType = PgType::BuiltIn(PgBuiltIn::PointArray);

    pub const Lseg: PgType = PgType::BuiltIn(PgBuiltIn::Lseg);

    pub const LsegArray: PgType = PgType::BuiltIn(PgBuiltIn::LsegArray);

    pub const Path: PgType = PgType::BuiltIn(PgBuiltIn::Path);

    pub const PathArray: PgType = PgType::BuiltIn(PgBuiltIn::PathArray);

    pub const Box: PgType = PgType::BuiltIn(PgBuiltIn::Box);

    pub const BoxArray: PgType = PgType::BuiltIn(PgBuiltIn::BoxArray);

    pub const Polygon: PgType = PgType::BuiltIn(PgBuiltIn::Polygon);

    pub const PolygonArray: PgType = PgType::BuiltIn(PgBuiltIn::PolygonArray);

    pub const Line: PgType = PgType::BuiltIn(PgBuiltIn::Line);

    pub const LineArray: PgType = PgType::BuiltIn(PgBuiltIn::LineArray);

    pub const Cidr: PgType = PgType::BuiltIn(PgBuiltIn::Cidr);

    pub const CidrArray: PgType = PgType::BuiltIn(PgBuiltIn::CidrArray);

    pub const Float4: PgType = PgType::BuiltIn(PgBuiltIn::Float4);

    pub const Float4Array: PgType = PgType::BuiltIn(PgBuiltIn::Float4Array);

    pub const Float8: PgType = PgType::BuiltIn(PgBuiltIn::Float8);

    pub const Float8Array: PgType = PgType::BuiltIn(PgBuiltIn::Float8Array);

    pub const Unknown: PgType = PgType::BuiltIn(PgBuiltIn::Unknown);

    pub const Circle: PgType = PgType::BuiltIn(PgBuiltIn::Circle);

    pub const CircleArray: PgType = PgType::BuiltIn(PgBuiltIn::CircleArray);

    pub const Macaddr8: PgType = PgType::BuiltIn(PgBuiltIn::Macaddr8);

    pub const Macaddr8Array: PgType = PgType::BuiltIn(PgBuiltIn::Macaddr8Array);

    pub const Money: PgType = PgType::BuiltIn(PgBuiltIn::Money);

    pub const MoneyArray: PgType = PgType::BuiltIn(PgBuiltIn::MoneyArray);

    pub const Macaddr: PgType = PgType::BuiltIn(PgBuiltIn::Macaddr);

    pub const MacaddrArray: PgType = PgType::BuiltIn(PgBuiltIn::MacaddrArray);

    pub const Inet: PgType = PgType::BuiltIn(PgBuiltIn::Inet);

    pub const InetArray: PgType = PgType::BuiltIn(PgBuiltIn::InetArray);

    pub const Bpchar: PgType = PgType::BuiltIn(PgBuiltIn::Bpchar);

    pub const BpcharArray: PgType = PgType::BuiltIn(PgBuiltIn::BpcharArray);

    pub const Varchar: PgType = PgType::BuiltIn(PgBuiltIn::Varchar);

    pub const VarcharArray: PgType = PgType::BuiltIn(PgBuiltIn::VarcharArray);

    pub const Date: PgType = PgType::BuiltIn(PgBuiltIn::Date);

    pub const DateArray: PgType = PgType::BuiltIn(PgBuiltIn::DateArray);

    pub const Time: PgType = PgType::BuiltIn(PgBuiltIn::Time);

    pub const TimeArray: PgType = PgType::BuiltIn(PgBuiltIn::TimeArray);

    pub const Timestamp: PgType = PgType::BuiltIn(PgBuiltIn::Timestamp);

    pub const TimestampArray: PgType = PgType::BuiltIn(PgBuiltIn::TimestampArray);

    pub const Timestamptz: PgType = PgType::BuiltIn(PgBuiltIn::Timestamptz);

    pub const TimestamptzArray: PgType = PgType::BuiltIn(PgBuiltIn::TimestamptzArray);

    pub const Interval: PgType = PgType::BuiltIn(PgBuiltIn::Interval);

    pub const IntervalArray: PgType = PgType::BuiltIn(PgBuiltIn::IntervalArray);

    pub const Timetz: PgType = PgType::BuiltIn(PgBuiltIn::Timetz);

    pub const TimetzArray: PgType = PgType::BuiltIn(PgBuiltIn::TimetzArray);

    pub const Bit: PgType = PgType::BuiltIn(PgBuiltIn::Bit);

    pub const BitArray: PgType = PgType::BuiltIn(PgBuiltIn::BitArray);

    pub const Varbit: PgType = PgType::BuiltIn(PgBuiltIn::Varbit);

    pub const VarbitArray: PgType = PgType::BuiltIn(PgBuiltIn::VarbitArray);

    pub const Numeric: PgType = PgType::BuiltIn(PgBuiltIn::Numeric);

    pub const NumericArray: PgType = PgType::BuiltIn(PgBuiltIn::NumericArray);

    pub const Record: PgType = PgType::BuiltIn(PgBuiltIn::Record);

    pub const RecordArray: PgType = PgType::BuiltIn(PgBuiltIn::RecordArray);

    pub const Void: PgType = PgType::BuiltIn(PgBuiltIn::Void);

    pub const Uuid: PgType = PgType::BuiltIn(PgBuiltIn::Uuid);

    pub const UuidArray: PgType = PgType::BuiltIn(PgBuiltIn::UuidArray);

    pub const Jsonb: PgType = PgType::BuiltIn(PgBuiltIn::Jsonb);

    pub const JsonbArray: PgType = PgType::BuiltIn(PgBuiltIn::JsonbArray);

    pub const Int4Range: PgType = PgType::BuiltIn(PgBuiltIn::Int4Range);

    pub const Int4RangeArray: PgType = PgType::BuiltIn(PgBuiltIn::Int4RangeArray);

    pub const NumRange: PgType = PgType::BuiltIn(PgBuiltIn::NumRange);

    pub const NumRangeArray: PgType = PgType::BuiltIn(PgBuiltIn::NumRangeArray);

    pub const TsRange: PgType = PgType::BuiltIn(PgBuiltIn::TsRange);

    pub const TsRangeArray: PgType = PgType::BuiltIn(PgBuiltIn::TsRangeArray);

    pub const TstzRange: PgType = PgType::BuiltIn(PgBuiltIn::TstzRange);

    pub const TstzRangeArray: PgType = PgType::BuiltIn(PgBuiltIn::TstzRangeArray);

    pub const DateRange: PgType = PgType::BuiltIn(PgBuiltIn::DateRange);

    pub const DateRangeArray: PgType = PgType::BuiltIn(PgBuiltIn::DateRangeArray);

    pub const Int8Range: PgType = PgType::BuiltIn(PgBuiltIn::Int8Range);

    pub const Int8RangeArray: PgType = PgType::BuiltIn(PgBuiltIn::Int8RangeArray);

    pub const Jsonpath: PgType = PgType::BuiltIn(PgBuiltIn::Jsonpath);

    pub const JsonpathArray: PgType = PgType::BuiltIn(PgBuiltIn::JsonpathArray);
}
