//! The built-in types beside those of a server.

use pgv::{Oid, PgTypeInfo};
use std::test::Fail;

/// What PostgreSQL 15.20 answers to `select oid, typname, typarray from pg_type` of the types that are built in here.
const TYPES: &str = "\
16 bool 1000\n\
17 bytea 1001\n\
18 char 1002\n\
19 name 1003\n\
20 int8 1016\n\
21 int2 1005\n\
23 int4 1007\n\
25 text 1009\n\
26 oid 1028\n\
114 json 199\n\
199 _json 0\n\
600 point 1017\n\
601 lseg 1018\n\
602 path 1019\n\
603 box 1020\n\
604 polygon 1027\n\
628 line 629\n\
629 _line 0\n\
650 cidr 651\n\
651 _cidr 0\n\
700 float4 1021\n\
701 float8 1022\n\
705 unknown 0\n\
718 circle 719\n\
719 _circle 0\n\
774 macaddr8 775\n\
775 _macaddr8 0\n\
790 money 791\n\
791 _money 0\n\
829 macaddr 1040\n\
869 inet 1041\n\
1000 _bool 0\n\
1001 _bytea 0\n\
1002 _char 0\n\
1003 _name 0\n\
1005 _int2 0\n\
1007 _int4 0\n\
1009 _text 0\n\
1014 _bpchar 0\n\
1015 _varchar 0\n\
1016 _int8 0\n\
1017 _point 0\n\
1018 _lseg 0\n\
1019 _path 0\n\
1020 _box 0\n\
1021 _float4 0\n\
1022 _float8 0\n\
1027 _polygon 0\n\
1028 _oid 0\n\
1040 _macaddr 0\n\
1041 _inet 0\n\
1042 bpchar 1014\n\
1043 varchar 1015\n\
1082 date 1182\n\
1083 time 1183\n\
1114 timestamp 1115\n\
1115 _timestamp 0\n\
1182 _date 0\n\
1183 _time 0\n\
1184 timestamptz 1185\n\
1185 _timestamptz 0\n\
1186 interval 1187\n\
1187 _interval 0\n\
1231 _numeric 0\n\
1266 timetz 1270\n\
1270 _timetz 0\n\
1560 bit 1561\n\
1561 _bit 0\n\
1562 varbit 1563\n\
1563 _varbit 0\n\
1700 numeric 1231\n\
2249 record 2287\n\
2278 void 0\n\
2287 _record 0\n\
2950 uuid 2951\n\
2951 _uuid 0\n\
3802 jsonb 3807\n\
3807 _jsonb 0\n\
3904 int4range 3905\n\
3905 _int4range 0\n\
3906 numrange 3907\n\
3907 _numrange 0\n\
3908 tsrange 3909\n\
3909 _tsrange 0\n\
3910 tstzrange 3911\n\
3911 _tstzrange 0\n\
3912 daterange 3913\n\
3913 _daterange 0\n\
3926 int8range 3927\n\
3927 _int8range 0\n\
4072 jsonpath 4073\n\
4073 _jsonpath 0";

/// The built-in type of an OID in digits.
fn found(oid: &str) -> Option<PgTypeInfo> {
    PgTypeInfo::try_from_oid(Oid(oid.parse::<u32>().ok()?))
}

/// Whether a type is the element of the built-in type of an OID; 0 is that of no type.
fn is_element_of(info: &PgTypeInfo, array: &str) -> bool {
    let Some(array) = found(array) else {
        return array == "0";
    };
    match array.array_element() {
        Some(element) => element.as_ref().oid() == info.oid(),
        None => false,
    }
}

/// Whether the built-in type of an OID has this name, and is the element of this array.
fn is_built_in(oid: &str, name: &str, array: &str) -> bool {
    match found(oid) {
        Some(info) => info.0.name().text() == name && is_element_of(&info, array),
        None => false,
    }
}

#[test]
fn types_of_a_server(rt: HostRuntime) -> Result<(), Fail> {
    assert_eq!(rt; TYPES.lines().count(), 92);
    for line in TYPES.lines() {
        let (oid, rest) = line.split_once(' ').ok_or("no name")?;
        let (name, array) = rest.split_once(' ').ok_or("no array")?;
        assert!(rt; is_built_in(oid, name, array), "{line}");
    }
    Ok(())
}
