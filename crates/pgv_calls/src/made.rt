//! Calls that take no memory and need nothing that is made before: values with nothing in them, sums of money, names.

use pgv::types::{
    BitVec, IpNetwork, PgCiText, PgHstore, PgLQuery, PgLTree, PgMoney, PgNumeric, PgNumericSign,
};
use pgv::{
    IdentifierChar, PgArgumentBuffer, PgArguments, PgType, PgTypeInfo, PgValueFormat, PgValueRef,
    Tokens, identifier_chars,
};
use std::alloc::Global;
use std::net::{IpAddr, Ipv4Addr, Ipv6Addr};

/// Whether a numeric is zero, of no digits.
fn is_zero(number: &PgNumeric) -> bool {
    match number {
        PgNumeric::Number { sign, digits, .. } => {
            *sign == PgNumericSign::Positive && digits.is_empty()
        }
        PgNumeric::NotANumber => false,
    }
}

/// Values with nothing in them.
pub fn empty_values(alloc: Global) -> bool {
    PgArguments::new(alloc).is_empty()
        && PgArgumentBuffer::new(alloc).is_empty()
        && Tokens::new(alloc).is_empty()
        && PgLTree::new(alloc).as_slice().is_empty()
        && PgLQuery::new(alloc).as_slice().is_empty()
        && BitVec::new(alloc).is_empty()
        && PgHstore::new(alloc).0.is_empty()
        && PgCiText::new(alloc).as_str().is_empty()
        && is_zero(&PgNumeric::zero(alloc))
}

/// Sums and differences of money.
pub fn money() -> bool {
    let mut sum = PgMoney(1) + PgMoney(2);
    sum += PgMoney(4);
    sum -= PgMoney(5);
    let difference = sum - PgMoney(10);
    sum.0 == 2
        && difference.0 == -8
        && PgMoney(1).checked_add(PgMoney(2)) == Some(PgMoney(3))
        && PgMoney(i64::MAX).checked_add(PgMoney(1)).is_none()
        && PgMoney(1).checked_sub(PgMoney(2)) == Some(PgMoney(-1))
        && PgMoney(i64::MIN).checked_sub(PgMoney(1)).is_none()
}

/// Whether a character is this one.
fn is_found(found: Option<IdentifierChar>, ch: char, case_sensitive: bool) -> bool {
    found == Some(IdentifierChar { ch, case_sensitive })
}

/// The significant characters of a name.
pub fn identifiers() -> bool {
    let mut characters = identifier_chars("a\"B\"");
    is_found(characters.next(), 'a', false)
        && is_found(characters.next(), 'B', true)
        && characters.next().is_none()
}

/// Whether a type has this name in the catalogue, and this one is shown.
fn is_named(info: &PgTypeInfo, name: &str, shown: &str) -> bool {
    info.0.name().text() == name && info.0.display_name().text() == shown
}

/// Names in the catalogue and names that are shown.
pub fn names() -> bool {
    let array = PgTypeInfo(PgType::Int4Array);
    array.name().suffix() == "[]"
        && is_named(&array, "_int4", "INT4")
        && is_named(&PgTypeInfo::with_name("mood"), "mood", "mood")
}

/// What is null and what isn't.
pub fn nulls() -> bool {
    let text = PgTypeInfo(PgType::Text);
    let none = PgValueRef::new(None, text, PgValueFormat::Binary);
    let text = PgTypeInfo(PgType::Text);
    let some = PgValueRef::new(Some(b""), text, PgValueFormat::Text);
    none.is_null() && !some.is_null() && !some.type_info().is_null()
}

/// Networks of an address alone.
pub fn addresses() -> bool {
    let four = IpNetwork::from(IpAddr::V4(Ipv4Addr::from_octets([10, 0, 0, 1])));
    let six = IpNetwork::from(IpAddr::V6(Ipv6Addr::from_octets([0; 16])));
    four.is_ipv4() && four.prefix() == 32 && six.is_ipv6() && six.prefix() == 128
}
