//! Values that are made, taken apart, copied, printed and written: a few lines a type.

use crate::shown::{Lines, refused};
use bitflags::Flags;
use jiff::SignedDuration;
use jiff::civil::{Date, DateTime, Time};
use jiff::tz::Offset;
use pgv::types::{
    MacAddress, PgBytea, PgByteaArray, PgInterval, PgLQuery, PgLQueryLevel, PgLQueryParseError,
    PgLQueryVariant, PgLTree, PgLTreeLabel, PgLTreeParseError, PgMoney, PgNumeric, PgNumericSign,
    PgRange, PgTimeTz,
};
use pgv::{CodecError, Decode, PgValueFormat, PgValueRef, Type};
use std::alloc::{AllocError, Global};
use std::ops::Bound;
use std::test::Fail;
use std::time::Duration;

/// One label in a list.
fn labels(alloc: Global, text: &str) -> Result<Vec<PgLTreeLabel>, PgLTreeParseError> {
    let mut labels = Vec::new(alloc);
    labels.push(PgLTreeLabel::new(String::from_str(alloc, text)?)?)?;
    Ok(labels)
}

/// The tree of one label, made in two ways.
fn trees_of_labels(alloc: Global, lines: &mut Lines) -> Result<(), PgLTreeParseError> {
    let collected = PgLTree::try_collect(alloc, labels(alloc, "Top")?)?;
    let same = PgLTree::from(labels(alloc, "Top")?);
    lines.holds(collected == same);
    lines.shown(&same);
    Ok(())
}

#[test]
fn trees(rt: HostRuntime) -> Result<(), Fail> {
    let mut lines = Lines::new(rt.alloc());
    let made = trees_of_labels(rt.alloc(), &mut lines);
    let text = lines.text()?;
    assert!(rt; made.is_ok());
    assert_eq!(rt; text.as_str(), "yes\nTop\n");
    Ok(())
}

/// Two levels without variants.
fn bare_levels(alloc: Global) -> Result<PgLQuery, AllocError> {
    let mut levels = Vec::new(alloc);
    levels.push(PgLQueryLevel::NonStar(Vec::new(alloc)))?;
    levels.push(PgLQueryLevel::NotNonStar(Vec::new(alloc)))?;
    Ok(PgLQuery::from(levels))
}

/// What is printed of those, and a variant with its flags.
fn printed_parts(alloc: Global, lines: &mut Lines) -> Result<(), PgLQueryParseError> {
    lines.shown(&bare_levels(alloc)?);
    let variant = PgLQueryVariant::from_str(alloc, "x%*")?;
    lines.shown(variant.label());
    lines.shown(&variant.modifiers());
    lines.holds(variant.modifiers().bits() == 5);
    Ok(())
}

#[test]
fn queries(rt: HostRuntime) -> Result<(), Fail> {
    let mut lines = Lines::new(rt.alloc());
    let printed = printed_parts(rt.alloc(), &mut lines);
    let text = lines.text()?;
    assert!(rt; printed.is_ok());
    assert_eq!(rt; text.as_str(), ".\nx\n*%\nyes\n");
    Ok(())
}

#[test]
fn texts_of_version_errors(rt: HostRuntime) -> Result<(), Fail> {
    let mut lines = Lines::new(rt.alloc());
    lines.shown(&PgLTreeParseError::InvalidLtreeVersion);
    lines.shown(&PgLQueryParseError::InvalidLqueryVersion);
    let text = lines.text()?;
    assert_eq!(rt;
        text.as_str(),
        "ltree version not supported\nlquery version not supported\n"
    );
    Ok(())
}

/// Strings of bytes, and a MAC address.
fn strings(alloc: Global, lines: &mut Lines) -> Result<(), AllocError> {
    lines.written(&PgByteaArray([1, 2]));
    lines.written(&PgBytea([0u8, 255].to_vec(alloc)?));
    let address = MacAddress::new([8, 0, 43, 1, 2, 3]);
    lines.written(&address);
    lines.holds(address.bytes() == [8, 0, 43, 1, 2, 3]);
    Ok(())
}

#[test]
fn strings_of_bytes(rt: HostRuntime) -> Result<(), Fail> {
    let mut lines = Lines::new(rt.alloc());
    strings(rt.alloc(), &mut lines)?;
    let text = lines.text()?;
    assert_eq!(rt; text.as_str(), "0102\n00ff\n08002b010203\nyes\n");
    Ok(())
}

/// Sums of money.
fn sums(lines: &mut Lines) {
    let mut sum = PgMoney::from(10);
    sum += PgMoney::from(5u8);
    sum -= PgMoney::from(20u32);
    lines.written(&sum);
    lines.written(&(PgMoney(1) - PgMoney(2)));
    lines.written(&(PgMoney(1) + PgMoney(2)));
    lines.holds(PgMoney(i64::MAX).checked_add(PgMoney(1)).is_some());
    lines.holds(PgMoney(i64::MIN).checked_sub(PgMoney(1)).is_some());
}

/// The number of these digits, the first of them the ones.
fn number(sign: PgNumericSign, digits: Vec<i16>, scale: i16) -> PgNumeric {
    PgNumeric::Number {
        sign,
        digits,
        weight: 0,
        scale,
    }
}

/// Numbers by their digits: two of them have no form in binary.
fn numbers(alloc: Global, lines: &mut Lines) -> Result<(), AllocError> {
    lines.written(&PgNumeric::zero(alloc));
    lines.written(&PgNumeric::NotANumber);
    let digits = [123i16, 4500].to_vec(alloc)?;
    lines.written(&number(PgNumericSign::Positive, digits, 2));
    let digits = [10_000i16].to_vec(alloc)?;
    lines.written(&number(PgNumericSign::Positive, digits, 0));
    let digits = vec![in alloc; 0i16; 32_768]?;
    lines.written(&number(PgNumericSign::Negative, digits, 0));
    Ok(())
}

#[test]
fn sums_and_numbers(rt: HostRuntime) -> Result<(), Fail> {
    let mut lines = Lines::new(rt.alloc());
    sums(&mut lines);
    numbers(rt.alloc(), &mut lines)?;
    let text = lines.text()?;
    assert_eq!(rt;
        text.as_str(),
        "fffffffffffffffb\nffffffffffffffff\n0000000000000003\nno\nno\n\
0000000000000000\n00000000c0000000\n0002000000000002007b1194\nC8\nC7\n"
    );
    Ok(())
}

/// A range: what is printed and written of it, and whether its bounds are those of its parts, or `empty`.
fn push_range(lines: &mut Lines, range: PgRange<i32>) {
    lines.shown(&range);
    lines.written(&range);
    if range.is_empty() {
        lines.holds(range.bounds().is_some());
    } else {
        let (start, end) = (range.start_bound(), range.end_bound());
        lines.holds(range.bounds() == Some((start, end)));
    }
}

/// Each way to make a range.
fn push_ranges(lines: &mut Lines) {
    push_range(lines, PgRange::from(1..10));
    push_range(lines, PgRange::from(1..));
    push_range(lines, PgRange::from(1..=1));
    push_range(lines, PgRange::from(..5));
    push_range(lines, PgRange::from(..=5));
    push_range(lines, PgRange::from([Bound::Excluded(1), Bound::Unbounded]));
    push_range(lines, PgRange::from((Bound::Unbounded, Bound::Unbounded)));
    push_range(lines, PgRange::from(10..10));
    push_range(lines, PgRange::empty());
    lines.holds(PgRange::from(1..10) == PgRange::from(1..=10));
    lines.holds(PgRange::from(10..10) == PgRange::Empty);
    lines.holds(PgRange::<i32>::empty() == PgRange::Empty);
}

#[test]
fn ranges(rt: HostRuntime) -> Result<(), Fail> {
    let mut lines = Lines::new(rt.alloc());
    push_ranges(&mut lines);
    let text = lines.text()?;
    assert_eq!(rt;
        text.as_str(),
        "[1,10)\n020000000400000001000000040000000a\nyes\n\
[1,)\n120000000400000001\nyes\n\
[1,1]\n0600000004000000010000000400000001\nyes\n\
(,5)\n080000000400000005\nyes\n\
(,5]\n0c0000000400000005\nyes\n\
(1,)\n100000000400000001\nyes\n\
(,)\n18\nyes\n\
[10,10)\n02000000040000000a000000040000000a\nyes\n\
empty\n01\nno\n\
no\nno\nyes\n"
    );
    Ok(())
}

/// Durations as they are written.
fn durations(lines: &mut Lines) {
    lines.written(&Duration::from_secs(3600));
    lines.written(&Duration::from_nanos(27000001));
    lines.written(&Duration::from_secs(20000000000000));
}

/// Durations with a sign as they are written.
fn signed_durations(lines: &mut Lines) {
    lines.written(&SignedDuration::from_secs(3600));
    lines.written(&SignedDuration::from_micros(-27000));
    lines.written(&SignedDuration::from_nanos(-27000001));
    lines.written(&SignedDuration::from_secs(10000000000000));
}

/// What is written of the interval of a duration, or the refusal.
fn push_interval(alloc: Global, lines: &mut Lines, found: Result<PgInterval, CodecError>) {
    match found {
        Ok(interval) => lines.written(&interval),
        Err(error) => lines.push(refused(alloc, &error)),
    }
}

#[test]
fn intervals(rt: HostRuntime) -> Result<(), Fail> {
    let alloc = rt.alloc();
    let mut lines = Lines::new(alloc);
    durations(&mut lines);
    signed_durations(&mut lines);
    push_interval(
        alloc,
        &mut lines,
        PgInterval::try_from(SignedDuration::from_nanos(-27000001)),
    );
    push_interval(
        alloc,
        &mut lines,
        PgInterval::try_from(Duration::from_secs(20000000000000)),
    );
    push_interval(
        alloc,
        &mut lines,
        PgInterval::try_from(Duration::from_nanos(0)),
    );
    let text = lines.text()?;
    assert_eq!(rt;
        text.as_str(),
        "00000000d693a4000000000000000000\nC4\nC5\n\
00000000d693a4000000000000000000\nffffffffffff96880000000000000000\nC4\nC5\n\
C4\nC5\n00000000000000000000000000000000\n"
    );
    Ok(())
}

/// The last moments of 1999, and an offset that is too far.
fn times(alloc: Global, lines: &mut Lines) -> Result<(), Fail> {
    let date = Date::new(1999, 12, 31).or(Err("no date"))?;
    lines.written(&date);
    let at = DateTime::new(1999, 12, 31, 23, 59, 59, 999_999_500).or(Err("no date-time"))?;
    lines.written(&at);
    lines.written(&PgTimeTz {
        time: Time::midnight(),
        offset: Offset::MAX,
    });
    let start = PgValueRef::new(Some(&[0; 8]), DateTime::type_info(), PgValueFormat::Binary);
    let start = DateTime::decode(alloc, start)?;
    lines.shown(&start);
    Ok(())
}

#[test]
fn times_as_written(rt: HostRuntime) -> Result<(), Fail> {
    let mut lines = Lines::new(rt.alloc());
    times(rt.alloc(), &mut lines)?;
    let text = lines.text()?;
    assert_eq!(rt;
        text.as_str(),
        "ffffffff\n0000000000000000\nC6\n2000-01-01T00:00:00\n"
    );
    Ok(())
}
