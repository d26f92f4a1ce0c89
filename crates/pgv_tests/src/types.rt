//! Names and types: which agree, what is printed of them, and copies.

use crate::shown::Lines;
use pgv::types::{BitVec, MacAddress, PgHstore, PgLQuery, PgLTree, PgRange};
use pgv::{Oid, PgType, PgTypeInfo, PgTypeKind, Type, identifier_chars, name_eq};
use std::alloc::{AllocError, Global};
use std::test::Fail;

/// Two names, and whether they agree, which is the same both ways.
const NAMES: &str = "\
foo \"Foo\" false
foo.foo foo.\"foo\" true
foob foo false
u&x U&x false
foo foo true
foo Foo true
foo FOO true
foo \"foo\" true
foo foo.foo false
foo.foo foo.foo true
foo.foo foo.Foo true
foo.foo foo.FOO true
foo.foo Foo.foo true
foo.foo Foo.Foo true
foo.foo FOO.FOO true
foo.foo foo false
foo.foo foo.\"Foo\" false
foo.foo foo.\"FOO\" false
\"\"a \"\"A true";

#[test]
fn names(rt: HostRuntime) -> Result<(), Fail> {
    for line in NAMES.lines() {
        let (first, rest) = line.split_once(' ').ok_or("no second name")?;
        let (second, agree) = rest.split_once(' ').ok_or("no answer")?;
        assert_eq!(rt; name_eq(first, second), agree == "true", "{line}");
        assert_eq!(rt; name_eq(second, first), agree == "true", "{line}");
    }
    Ok(())
}

#[test]
fn chars_of_names(rt: HostRuntime) {
    let mut found = identifier_chars("a\"B\"\"");
    for (ch, sensitive) in [('a', false), ('B', true), ('"', true)] {
        let next = found.next();
        assert!(rt; matches!(next, Some(it) if it.ch == ch && it.case_sensitive == sensitive));
    }
    assert!(rt; found.next().is_none());
}

/// A domain over an `int4`.
fn domain(alloc: Global) -> Result<PgTypeInfo, AllocError> {
    let int4 = PgTypeKind::Domain(PgTypeInfo(PgType::Int4));
    PgTypeInfo::custom(alloc, Oid(16400), "id", int4)
}

/// A type that a server described, by its name here.
fn told(alloc: Global, name: &str) -> Result<PgTypeInfo, AllocError> {
    match name {
        "foo 16500" => PgTypeInfo::custom(alloc, Oid(16500), "foo", PgTypeKind::Simple),
        "foo 16501" => PgTypeInfo::custom(alloc, Oid(16501), "foo", PgTypeKind::Simple),
        "domain" => domain(alloc),
        "domain of domain" => {
            let domain = PgTypeKind::Domain(domain(alloc)?);
            PgTypeInfo::custom(alloc, Oid(16401), "outer", domain)
        }
        _ => {
            let element = PgTypeKind::Array(PgTypeInfo::with_oid(Oid(1)));
            PgTypeInfo::custom(alloc, Oid(16501), "_y", element)
        }
    }
}

/// A type by its name here.
fn named(alloc: Global, name: &str) -> Result<PgTypeInfo, AllocError> {
    match name {
        "int4" => Ok(PgTypeInfo(PgType::Int4)),
        "oid 1" => Ok(PgTypeInfo::with_oid(Oid(1))),
        "definitely_not_real" => Ok(PgTypeInfo::with_name("definitely_not_real")),
        "?" => Ok(PgTypeInfo::with_name("?")),
        "foo" => Ok(PgTypeInfo::with_name("foo")),
        "_foo" => Ok(PgTypeInfo::with_name("_foo")),
        "foo[]" => Ok(PgTypeInfo::array_of("foo")),
        "x[]" => Ok(PgTypeInfo::array_of("x")),
        _ => told(alloc, name),
    }
}

/// Two types, whether they are compatible, and whether they are the same exactly.
const PAIRS: &str = "\
oid 1, definitely_not_real: compatible
oid 1, ?: compatible, equal
foo[], _foo: compatible, equal
domain, int4: compatible, equal
domain of domain, int4: neither
array of oid 1, x[]: compatible
foo, foo 16500: compatible, equal
foo, foo 16501: compatible, equal
foo 16500, foo 16501: neither";

/// Whether two types are compatible, and whether they are the same exactly.
fn relation(one: &PgTypeInfo, other: &PgTypeInfo) -> &'static str {
    match (one.type_compatible(other), one.type_eq(other)) {
        (true, true) => "compatible, equal",
        (true, false) => "compatible",
        (false, true) => "equal",
        (false, false) => "neither",
    }
}

/// The same of two types by their names here.
fn related(alloc: Global, first: &str, second: &str) -> Result<&'static str, AllocError> {
    let one = named(alloc, first)?;
    let other = named(alloc, second)?;
    Ok(relation(&one, &other))
}

#[test]
fn pairs(rt: HostRuntime) -> Result<(), Fail> {
    for line in PAIRS.lines() {
        let (types, wanted) = line.split_once(": ").ok_or("no answer")?;
        let (first, second) = types.split_once(", ").ok_or("no second type")?;
        assert_eq!(rt; related(rt.alloc(), first, second)?, wanted, "{types}");
    }
    Ok(())
}

/// What is printed of a type with padding, which counts characters.
fn padded(alloc: Global, info: &PgTypeInfo) -> Result<String, AllocError> {
    format!(in alloc; "{info:>8}|{info:<6}|{info:*^7}|{info:.3}|{info:>5.3}|{info:2}")
}

/// What is printed of types. A name alone is never padded.
fn printed(alloc: Global) -> Result<String, AllocError> {
    let int4 = PgTypeInfo(PgType::Int4);
    let array = PgTypeInfo(PgType::CharArray);
    format!(in alloc;
        "{array}|{array:9}|{array:.7}|{:8}|{}|{:>4}",
        int4.name(),
        PgTypeInfo::array_of("hstore"),
        PgTypeInfo::with_name("é")
    )
}

#[test]
fn printed_types(rt: HostRuntime) -> Result<(), Fail> {
    let found = padded(rt.alloc(), &PgTypeInfo(PgType::Int4))?;
    assert_eq!(rt; found.as_str(), "    INT4|INT4  |*INT4**|INT|  INT|INT4");
    let found = printed(rt.alloc())?;
    assert_eq!(rt;
        found.as_str(),
        "\"CHAR\"[]|\"CHAR\"[] |\"CHAR\"[|INT4|hstore[]|   é"
    );
    Ok(())
}

/// Rust types, types of columns, and whether values of the one are read under the other.
const COMPATIBLE: &str = "\
String, citext: yes
Option<i32>, int4: yes
Vec<i32>, int8[]: no
[String; 2], varchar[]: yes
(), record: yes
PgHstore, hstore: yes
PgHstore, citext: no
Vec<PgHstore>, hstore[]: yes
PgLQuery, ltree: no
Vec<PgLTree>, ltree[]: yes
BitVec, bit: yes
Vec<BitVec>, bit[]: yes
MacAddress, bit: no
PgRange<i32>, int4range: yes
PgRange<i32>, int8range: no
PgRange<i32>, named int4range: no";

/// The type of a column, by its name here.
fn column(name: &'static str) -> PgTypeInfo {
    match name {
        "int4" => PgTypeInfo(PgType::Int4),
        "int8[]" => PgTypeInfo(PgType::Int8Array),
        "varchar[]" => PgTypeInfo(PgType::VarcharArray),
        "record" => PgTypeInfo(PgType::Record),
        "bit" => PgTypeInfo(PgType::Bit),
        "bit[]" => PgTypeInfo(PgType::BitArray),
        "int4range" => PgTypeInfo(PgType::Int4Range),
        "int8range" => PgTypeInfo(PgType::Int8Range),
        "named int4range" => PgTypeInfo::with_name("int4range"),
        "hstore[]" => PgTypeInfo::array_of("hstore"),
        "ltree[]" => PgTypeInfo::array_of("ltree"),
        _ => PgTypeInfo::with_name(name),
    }
}

/// Whether values of the Rust type of a name are read under a type.
fn compatible(name: &str, info: &PgTypeInfo) -> bool {
    match name {
        "String" => String::compatible(info),
        "Option<i32>" => Option::<i32>::compatible(info),
        "Vec<i32>" => Vec::<i32>::compatible(info),
        "[String; 2]" => <[String; 2]>::compatible(info),
        "()" => <()>::compatible(info),
        "PgHstore" => PgHstore::compatible(info),
        "Vec<PgHstore>" => Vec::<PgHstore>::compatible(info),
        "PgLQuery" => PgLQuery::compatible(info),
        "Vec<PgLTree>" => Vec::<PgLTree>::compatible(info),
        "BitVec" => BitVec::compatible(info),
        "Vec<BitVec>" => Vec::<BitVec>::compatible(info),
        "MacAddress" => MacAddress::compatible(info),
        _ => PgRange::<i32>::compatible(info),
    }
}

/// Whether values of the Rust type of a name are read under the type of a column.
fn is_read_under(name: &str, column_name: &'static str) -> bool {
    compatible(name, &column(column_name))
}

#[test]
fn types_that_are_compatible(rt: HostRuntime) -> Result<(), Fail> {
    for line in COMPATIBLE.lines() {
        let (types, wanted) = line.split_once(": ").ok_or("no answer")?;
        let (rust, info) = types.split_once(", ").ok_or("no type")?;
        assert_eq!(rt; is_read_under(rust, info), wanted == "yes", "{types}");
    }
    Ok(())
}

/// The catalogue name of the type of an OID and what is printed of it, or `none`.
fn push_type(alloc: Global, lines: &mut Lines, oid: u32) {
    lines.push(match PgTypeInfo::try_from_oid(Oid(oid)) {
        Some(info) => format!(in alloc; "{} {info}", info.0.name()),
        None => String::from_str(alloc, "none"),
    })
}

/// The name of the type of an array's elements, or `none`.
fn push_element(alloc: Global, lines: &mut Lines, info: &PgTypeInfo) {
    lines.push(match info.array_element() {
        Some(element) => format!(in alloc; "{}", element.as_ref().name()),
        None => String::from_str(alloc, "none"),
    })
}

#[test]
fn types_of_oids_and_of_elements(rt: HostRuntime) -> Result<(), Fail> {
    let mut lines = Lines::new(rt.alloc());
    push_type(rt.alloc(), &mut lines, 1007);
    push_type(rt.alloc(), &mut lines, 24);
    push_element(rt.alloc(), &mut lines, &PgTypeInfo::with_name("_foo"));
    push_element(rt.alloc(), &mut lines, &PgTypeInfo::with_name("\"_foo\""));
    let text = lines.text()?;
    assert_eq!(rt; text.as_str(), "_int4 INT4[]\nnone\nfoo\nnone\n");
    Ok(())
}
