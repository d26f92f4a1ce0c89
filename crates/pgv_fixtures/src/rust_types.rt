//! Rust types by the names that rows have for them.

use crate::empty_object::EmptyObject;
use crate::own::SizeRange;
use jiff::Timestamp;
use jiff::civil::{Date, DateTime};
use pgv::types::{
    BitVec, MacAddress, PgByteaArray, PgHstore, PgLTree, PgNumeric, PgRange, PgTimeTz,
};
use pgv::{
    Decode, Encode, Oid, PgComposite, PgDomain, PgEnum, PgNewtype, PgPlain, PgRecord, PgValueRef,
    Type,
};
use pgv_examples::email::Email;
use pgv_examples::mood::Mood;
use pgv_examples::page::Page;
use pgv_examples::percent::Percent;
use pgv_examples::user_id::UserId;
use std::alloc::Global;
use std::fmt::Debug;
use std::net::IpAddr;
use uuid::Uuid;

/// What is done with a value at a Rust type.
pub trait AtType {
    /// What comes of it.
    type Answer: Drop;

    /// At a type that `Debug` shows.
    fn shown<T: Decode + Encode + Type + Debug>(
        &self,
        alloc: Global,
        value: PgValueRef<'_>,
    ) -> Self::Answer;

    /// At a type that is read and written.
    fn whole<T: Decode + Encode + Type>(
        &self,
        alloc: Global,
        value: PgValueRef<'_>,
    ) -> Self::Answer;

    /// At a type that is only a part of others.
    fn part<T: Decode + Encode>(&self, alloc: Global, value: PgValueRef<'_>) -> Self::Answer;

    /// At a type that is only read.
    fn read<T: Decode + Debug>(&self, alloc: Global, value: PgValueRef<'_>) -> Self::Answer;
}

/// What comes of a value at the Rust type of this name. `None` where there is no such name.
pub fn at_type<V: AtType>(
    visitor: &V,
    alloc: Global,
    name: &str,
    value: PgValueRef<'_>,
) -> Option<V::Answer> {
    if name.starts_with("Vec") {
        return at_list(visitor, alloc, name, value);
    }
    if name.starts_with('(') {
        return at_tuple(visitor, alloc, name, value);
    }
    if name.starts_with("PgRange") {
        return at_range(visitor, alloc, name, value);
    }
    at_scalar(visitor, alloc, name, value)
}

fn at_scalar<V: AtType>(
    visitor: &V,
    alloc: Global,
    name: &str,
    value: PgValueRef<'_>,
) -> Option<V::Answer> {
    match name {
        "bool" => Some(visitor.shown::<bool>(alloc, value)),
        "i8" => Some(visitor.shown::<i8>(alloc, value)),
        "i16" => Some(visitor.shown::<i16>(alloc, value)),
        "i32" => Some(visitor.shown::<i32>(alloc, value)),
        "i64" => Some(visitor.shown::<i64>(alloc, value)),
        "Oid" => Some(visitor.shown::<Oid>(alloc, value)),
        "String" => Some(visitor.shown::<String>(alloc, value)),
        "Uuid" => Some(visitor.whole::<Uuid>(alloc, value)),
        "IpAddr" => Some(visitor.whole::<IpAddr>(alloc, value)),
        "PgTimeTz" => Some(visitor.whole::<PgTimeTz>(alloc, value)),
        "MacAddress" => Some(visitor.whole::<MacAddress>(alloc, value)),
        "PgByteaArray<2>" => Some(visitor.whole::<PgByteaArray<2>>(alloc, value)),
        "BitVec" => Some(visitor.whole::<BitVec>(alloc, value)),
        "PgHstore" => Some(visitor.whole::<PgHstore>(alloc, value)),
        "PgNumeric" => Some(visitor.whole::<PgNumeric>(alloc, value)),
        "Option<i32>" => Some(visitor.shown::<Option<i32>>(alloc, value)),
        "Option<Option<i32>>" => Some(visitor.shown::<Option<Option<i32>>>(alloc, value)),
        "[i32; 2]" => Some(visitor.shown::<[i32; 2]>(alloc, value)),
        "[i32; 3]" => Some(visitor.shown::<[i32; 3]>(alloc, value)),
        _ => at_own(visitor, alloc, name, value),
    }
}

/// At types of a caller's own.
fn at_own<V: AtType>(
    visitor: &V,
    alloc: Global,
    name: &str,
    value: PgValueRef<'_>,
) -> Option<V::Answer> {
    match name {
        "EmptyObject" => Some(visitor.whole::<EmptyObject>(alloc, value)),
        "Email" => Some(visitor.whole::<PgDomain<Email>>(alloc, value)),
        "Mood" => Some(visitor.whole::<PgEnum<Mood>>(alloc, value)),
        "Page" => Some(visitor.whole::<PgComposite<Page>>(alloc, value)),
        "PgRecord<(i32, (String,))>" => {
            Some(visitor.whole::<PgRecord<(i32, (String,))>>(alloc, value))
        }
        "Percent" => Some(visitor.whole::<PgPlain<Percent>>(alloc, value)),
        "UserId" => Some(visitor.whole::<PgNewtype<UserId>>(alloc, value)),
        _ => None,
    }
}

/// At lists of numbers and texts.
fn at_list<V: AtType>(
    visitor: &V,
    alloc: Global,
    name: &str,
    value: PgValueRef<'_>,
) -> Option<V::Answer> {
    match name {
        "Vec<i32>" => Some(visitor.shown::<Vec<i32>>(alloc, value)),
        "Vec<Option<i32>>" => Some(visitor.shown::<Vec<Option<i32>>>(alloc, value)),
        "Vec<String>" => Some(visitor.shown::<Vec<String>>(alloc, value)),
        "Vec<Option<String>>" => Some(visitor.shown::<Vec<Option<String>>>(alloc, value)),
        _ => at_list_of_nests(visitor, alloc, name, value),
    }
}

/// At lists of records, arrays and ranges.
fn at_list_of_nests<V: AtType>(
    visitor: &V,
    alloc: Global,
    name: &str,
    value: PgValueRef<'_>,
) -> Option<V::Answer> {
    match name {
        "Vec<(i32,)>" => Some(visitor.read::<Vec<(i32,)>>(alloc, value)),
        "Vec<(i32, String)>" => Some(visitor.read::<Vec<(i32, String)>>(alloc, value)),
        "Vec<[Option<String>; 64]>" => {
            Some(visitor.read::<Vec<[Option<String>; 64]>>(alloc, value))
        }
        "Vec<Option<PgRange<i32>>>" => {
            Some(visitor.whole::<Vec<Option<PgRange<i32>>>>(alloc, value))
        }
        _ => at_further_list(visitor, alloc, name, value),
    }
}

/// At lists of further types, and of a caller's own.
fn at_further_list<V: AtType>(
    visitor: &V,
    alloc: Global,
    name: &str,
    value: PgValueRef<'_>,
) -> Option<V::Answer> {
    match name {
        "Vec<Uuid>" => Some(visitor.whole::<Vec<Uuid>>(alloc, value)),
        "Vec<BitVec>" => Some(visitor.whole::<Vec<BitVec>>(alloc, value)),
        "Vec<PgLTree>" => Some(visitor.whole::<Vec<PgLTree>>(alloc, value)),
        "Vec<Mood>" => Some(visitor.shown::<Vec<PgEnum<Mood>>>(alloc, value)),
        "Vec<Page>" => Some(visitor.whole::<Vec<PgComposite<Page>>>(alloc, value)),
        "Vec<SizeRange>" => Some(visitor.whole::<Vec<SizeRange>>(alloc, value)),
        _ => None,
    }
}

/// At ranges. Those over texts and over values that may be null have no type of their own.
fn at_range<V: AtType>(
    visitor: &V,
    alloc: Global,
    name: &str,
    value: PgValueRef<'_>,
) -> Option<V::Answer> {
    match name {
        "PgRange<i32>" => Some(visitor.whole::<PgRange<i32>>(alloc, value)),
        "PgRange<Option<i32>>" => Some(visitor.part::<PgRange<Option<i32>>>(alloc, value)),
        "PgRange<String>" => Some(visitor.part::<PgRange<String>>(alloc, value)),
        "PgRange<DateTime>" => Some(visitor.whole::<PgRange<DateTime>>(alloc, value)),
        "PgRange<Timestamp>" => Some(visitor.whole::<PgRange<Timestamp>>(alloc, value)),
        _ => None,
    }
}

fn at_tuple<V: AtType>(
    visitor: &V,
    alloc: Global,
    name: &str,
    value: PgValueRef<'_>,
) -> Option<V::Answer> {
    match name {
        "()" => Some(visitor.read::<()>(alloc, value)),
        "(i32,)" => Some(visitor.read::<(i32,)>(alloc, value)),
        "(String,)" => Some(visitor.read::<(String,)>(alloc, value)),
        "(Option<i32>,)" => Some(visitor.read::<(Option<i32>,)>(alloc, value)),
        "(i32, i32)" => Some(visitor.read::<(i32, i32)>(alloc, value)),
        "(i32, Option<i32>)" => Some(visitor.read::<(i32, Option<i32>)>(alloc, value)),
        "(i32, String)" => Some(visitor.read::<(i32, String)>(alloc, value)),
        "(i64, String)" => Some(visitor.read::<(i64, String)>(alloc, value)),
        "(i32, String, i32)" => Some(visitor.read::<(i32, String, i32)>(alloc, value)),
        "(Vec<PgRange<Date>>, PgLTree)" => {
            Some(visitor.whole::<PgRecord<(Vec<PgRange<Date>>, (PgLTree,))>>(alloc, value))
        }
        _ => at_numbers(visitor, alloc, name, value),
    }
}

/// At tuples of as many numbers as the name says.
fn at_numbers<V: AtType>(
    visitor: &V,
    alloc: Global,
    name: &str,
    value: PgValueRef<'_>,
) -> Option<V::Answer> {
    match name {
        "(i32 3)" => Some(visitor.read::<(i32, i32, i32)>(alloc, value)),
        "(i32 4)" => Some(visitor.read::<(i32, i32, i32, i32)>(alloc, value)),
        "(i32 5)" => Some(visitor.read::<(i32, i32, i32, i32, i32)>(alloc, value)),
        "(i32 6)" => Some(visitor.read::<(i32, i32, i32, i32, i32, i32)>(alloc, value)),
        "(i32 7)" => Some(visitor.read::<(i32, i32, i32, i32, i32, i32, i32)>(alloc, value)),
        "(i32 8)" => Some(visitor.read::<(i32, i32, i32, i32, i32, i32, i32, i32)>(alloc, value)),
        "(i32 9)" => {
            Some(visitor.read::<(i32, i32, i32, i32, i32, i32, i32, i32, i32)>(alloc, value))
        }
        _ => None,
    }
}
