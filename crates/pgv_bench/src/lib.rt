//! Loops over the codec's public calls, for a comparison with other codecs. Each export works `rounds` times over the
//! values that it is given and answers a checksum, by which two codecs that are timed over the same values are
//! compared; where a call is refused, it answers the number of the refusal. `docs/performance.md` has what was measured
//! by them.
#![tactic(auto)]

mod copying;
mod framed;
mod reading;
mod rows;
mod seen;
mod triple;
mod types;
mod writing;

use copying::copies;
use framed::work;
use jiff::Timestamp;
use jiff::civil::{Date, DateTime, Time};
use pgv_ltree::{PgLQuery, PgLTree};
use pgv_more::{BitVec, MacAddress, PgBytea, PgCiText, PgHstore, PgMoney, PgNumeric, PgTimeTz};
use pgv_range::PgRange;
use pgv_scalar_text::IpNetwork;
use pgv_value::{CodecError, PgInterval};
use reading::read_all;
use rows::read_rows;
use std::alloc::Global;
use types::{compatible, names, size_of_which};
use uuid::Uuid;
use writing::{
    bindings, patches, slots, statements, write_all, write_bools, write_ids, write_lists,
    write_options, write_records, write_text_lists, write_texts,
};

/// The checksum, or the number of a refusal.
fn sum_of(outcome: Result<usize, CodecError>) -> usize {
    match outcome {
        Ok(sum) => sum,
        Err(error) => error.code() as usize,
    }
}

/// Writes numbers: `how` is 0 to add them to arguments, and else they are encoded.
#[unsafe(no_mangle)]
pub extern "C" fn pgv_bench_write_i32(
    alloc: Global,
    values: &[i32],
    rounds: u32,
    how: u32,
) -> usize {
    sum_of(write_all(alloc, values, rounds, how))
}

/// Writes `int8`, as `pgv_bench_write_i32` does.
#[unsafe(no_mangle)]
pub extern "C" fn pgv_bench_write_i64(
    alloc: Global,
    values: &[i64],
    rounds: u32,
    how: u32,
) -> usize {
    sum_of(write_all(alloc, values, rounds, how))
}

/// Writes whether each number is above 0.
#[unsafe(no_mangle)]
pub extern "C" fn pgv_bench_write_bool(
    alloc: Global,
    values: &[i32],
    rounds: u32,
    how: u32,
) -> usize {
    sum_of(write_bools(alloc, values, rounds, how))
}

/// Writes a UUID of each sixteen bytes.
#[unsafe(no_mangle)]
pub extern "C" fn pgv_bench_write_uuid(
    alloc: Global,
    bytes: &[u8],
    rounds: u32,
    how: u32,
) -> usize {
    sum_of(write_ids(alloc, bytes, rounds, how))
}

/// Writes texts: the pieces of `blob` of these lengths.
#[unsafe(no_mangle)]
pub extern "C" fn pgv_bench_write_text(
    alloc: Global,
    blob: &[u8],
    lens: &[u32],
    rounds: u32,
    how: u32,
) -> usize {
    sum_of(write_texts(alloc, blob, lens, rounds, how))
}

/// Writes arrays of `per` numbers.
#[unsafe(no_mangle)]
pub extern "C" fn pgv_bench_write_i32s(
    alloc: Global,
    values: &[i32],
    per: u32,
    rounds: u32,
    how: u32,
) -> usize {
    sum_of(write_lists(alloc, values, per as usize, rounds, how))
}

/// Writes arrays of `per` numbers, of which some are null.
#[unsafe(no_mangle)]
pub extern "C" fn pgv_bench_write_options(
    alloc: Global,
    values: &[i32],
    per: u32,
    rounds: u32,
    how: u32,
) -> usize {
    sum_of(write_options(alloc, values, per as usize, rounds, how))
}

/// Writes arrays of `per` texts.
#[unsafe(no_mangle)]
pub extern "C" fn pgv_bench_write_textss(
    alloc: Global,
    blob: &[u8],
    lens: &[u32],
    per: u32,
    rounds: u32,
    how: u32,
) -> usize {
    sum_of(write_text_lists(alloc, blob, lens, per as usize, rounds, how))
}

/// Writes records of a number, a text and a truth value.
#[unsafe(no_mangle)]
pub extern "C" fn pgv_bench_write_records(
    alloc: Global,
    blob: &[u8],
    lens: &[u32],
    rounds: u32,
    how: u32,
) -> usize {
    sum_of(write_records(alloc, blob, lens, rounds, how))
}

/// Adds the four arguments of a statement (`int4`, `text`, `bool`, `int8`), each time to new arguments.
#[unsafe(no_mangle)]
pub extern "C" fn pgv_bench_statements(
    alloc: Global,
    blob: &[u8],
    lens: &[u32],
    rounds: u32,
) -> usize {
    sum_of(statements(alloc, blob, lens, rounds))
}

/// Fills the holes of `n` arrays of a type that is known by its name, `rounds` times.
#[unsafe(no_mangle)]
pub extern "C" fn pgv_bench_patches(alloc: Global, n: u32, rounds: u32) -> usize {
    sum_of(patches(alloc, n, rounds))
}

/// Fills the slots of `n` arguments, `rounds` times.
#[unsafe(no_mangle)]
pub extern "C" fn pgv_bench_slots(alloc: Global, n: u32, rounds: u32) -> usize {
    sum_of(slots(alloc, n, rounds))
}

/// Reads frames of `int4`, in binary where `text` is 0.
#[unsafe(no_mangle)]
pub extern "C" fn pgv_bench_read_i32(alloc: Global, bytes: &[u8], rounds: u32, text: u32) -> usize {
    sum_of(read_all::<i32>(alloc, bytes, rounds, text))
}

/// Reads frames of `int8`.
#[unsafe(no_mangle)]
pub extern "C" fn pgv_bench_read_i64(alloc: Global, bytes: &[u8], rounds: u32, text: u32) -> usize {
    sum_of(read_all::<i64>(alloc, bytes, rounds, text))
}

/// Reads frames of `bool`.
#[unsafe(no_mangle)]
pub extern "C" fn pgv_bench_read_bool(
    alloc: Global,
    bytes: &[u8],
    rounds: u32,
    text: u32,
) -> usize {
    sum_of(read_all::<bool>(alloc, bytes, rounds, text))
}

/// Reads frames of `uuid`.
#[unsafe(no_mangle)]
pub extern "C" fn pgv_bench_read_uuid(
    alloc: Global,
    bytes: &[u8],
    rounds: u32,
    text: u32,
) -> usize {
    sum_of(read_all::<Uuid>(alloc, bytes, rounds, text))
}

/// Reads frames of `text`.
#[unsafe(no_mangle)]
pub extern "C" fn pgv_bench_read_text(
    alloc: Global,
    bytes: &[u8],
    rounds: u32,
    text: u32,
) -> usize {
    sum_of(read_all::<String>(alloc, bytes, rounds, text))
}

/// Reads frames of `int4[]`.
#[unsafe(no_mangle)]
pub extern "C" fn pgv_bench_read_i32s(
    alloc: Global,
    bytes: &[u8],
    rounds: u32,
    text: u32,
) -> usize {
    sum_of(read_all::<Vec<i32>>(alloc, bytes, rounds, text))
}

/// Reads frames of `int4[]`, of which some elements are null.
#[unsafe(no_mangle)]
pub extern "C" fn pgv_bench_read_options(
    alloc: Global,
    bytes: &[u8],
    rounds: u32,
    text: u32,
) -> usize {
    sum_of(read_all::<Vec<Option<i32>>>(alloc, bytes, rounds, text))
}

/// Reads frames of `text[]`.
#[unsafe(no_mangle)]
pub extern "C" fn pgv_bench_read_texts(
    alloc: Global,
    bytes: &[u8],
    rounds: u32,
    text: u32,
) -> usize {
    sum_of(read_all::<Vec<String>>(alloc, bytes, rounds, text))
}

/// Reads frames of records of a number and a text.
#[unsafe(no_mangle)]
pub extern "C" fn pgv_bench_read_pairs(
    alloc: Global,
    bytes: &[u8],
    rounds: u32,
    text: u32,
) -> usize {
    sum_of(read_all::<(i32, String)>(alloc, bytes, rounds, text))
}

/// Compares each name with the next by `name_eq`.
#[unsafe(no_mangle)]
pub extern "C" fn pgv_bench_names(blob: &[u8], lens: &[u32], rounds: u32) -> usize {
    names(blob, lens, rounds)
}

/// Compares two types by `type_compatible`; `which` says which.
#[unsafe(no_mangle)]
pub extern "C" fn pgv_bench_compatible(alloc: Global, which: u32, rounds: u32) -> usize {
    sum_of(compatible(alloc, which, rounds))
}

/// The size of a type in bytes; `which` chooses the type.
#[unsafe(no_mangle)]
pub extern "C" fn pgv_bench_size(which: u32) -> usize {
    size_of_which(which)
}

/// Works on frames of `date`: `how` is 0 to add their values, 1 to encode them, 2 to read the frames in binary, and 3
/// in text.
#[unsafe(no_mangle)]
pub extern "C" fn pgv_bench_date(alloc: Global, bytes: &[u8], rounds: u32, how: u32) -> usize {
    sum_of(work::<Date>(alloc, bytes, rounds, how))
}

/// Works on frames of `time`.
#[unsafe(no_mangle)]
pub extern "C" fn pgv_bench_time(alloc: Global, bytes: &[u8], rounds: u32, how: u32) -> usize {
    sum_of(work::<Time>(alloc, bytes, rounds, how))
}

/// Works on frames of `timestamp`.
#[unsafe(no_mangle)]
pub extern "C" fn pgv_bench_timestamp(alloc: Global, bytes: &[u8], rounds: u32, how: u32) -> usize {
    sum_of(work::<DateTime>(alloc, bytes, rounds, how))
}

/// Works on frames of `timestamptz`.
#[unsafe(no_mangle)]
pub extern "C" fn pgv_bench_timestamptz(
    alloc: Global,
    bytes: &[u8],
    rounds: u32,
    how: u32,
) -> usize {
    sum_of(work::<Timestamp>(alloc, bytes, rounds, how))
}

/// Works on frames of `timetz`.
#[unsafe(no_mangle)]
pub extern "C" fn pgv_bench_timetz(alloc: Global, bytes: &[u8], rounds: u32, how: u32) -> usize {
    sum_of(work::<PgTimeTz>(alloc, bytes, rounds, how))
}

/// Works on frames of `interval`.
#[unsafe(no_mangle)]
pub extern "C" fn pgv_bench_interval(alloc: Global, bytes: &[u8], rounds: u32, how: u32) -> usize {
    sum_of(work::<PgInterval>(alloc, bytes, rounds, how))
}

/// Works on frames of `inet`.
#[unsafe(no_mangle)]
pub extern "C" fn pgv_bench_inet(alloc: Global, bytes: &[u8], rounds: u32, how: u32) -> usize {
    sum_of(work::<IpNetwork>(alloc, bytes, rounds, how))
}

/// Works on frames of `macaddr`.
#[unsafe(no_mangle)]
pub extern "C" fn pgv_bench_macaddr(alloc: Global, bytes: &[u8], rounds: u32, how: u32) -> usize {
    sum_of(work::<MacAddress>(alloc, bytes, rounds, how))
}

/// Works on frames of `varbit`.
#[unsafe(no_mangle)]
pub extern "C" fn pgv_bench_varbit(alloc: Global, bytes: &[u8], rounds: u32, how: u32) -> usize {
    sum_of(work::<BitVec>(alloc, bytes, rounds, how))
}

/// Works on frames of `bytea`.
#[unsafe(no_mangle)]
pub extern "C" fn pgv_bench_bytea(alloc: Global, bytes: &[u8], rounds: u32, how: u32) -> usize {
    sum_of(work::<PgBytea>(alloc, bytes, rounds, how))
}

/// Works on frames of `citext`.
#[unsafe(no_mangle)]
pub extern "C" fn pgv_bench_citext(alloc: Global, bytes: &[u8], rounds: u32, how: u32) -> usize {
    sum_of(work::<PgCiText>(alloc, bytes, rounds, how))
}

/// Works on frames of `hstore`.
#[unsafe(no_mangle)]
pub extern "C" fn pgv_bench_hstore(alloc: Global, bytes: &[u8], rounds: u32, how: u32) -> usize {
    sum_of(work::<PgHstore>(alloc, bytes, rounds, how))
}

/// Works on frames of `money`.
#[unsafe(no_mangle)]
pub extern "C" fn pgv_bench_money(alloc: Global, bytes: &[u8], rounds: u32, how: u32) -> usize {
    sum_of(work::<PgMoney>(alloc, bytes, rounds, how))
}

/// Works on frames of `numeric`.
#[unsafe(no_mangle)]
pub extern "C" fn pgv_bench_numeric(alloc: Global, bytes: &[u8], rounds: u32, how: u32) -> usize {
    sum_of(work::<PgNumeric>(alloc, bytes, rounds, how))
}

/// Works on frames of `int4range`.
#[unsafe(no_mangle)]
pub extern "C" fn pgv_bench_int4range(alloc: Global, bytes: &[u8], rounds: u32, how: u32) -> usize {
    sum_of(work::<PgRange<i32>>(alloc, bytes, rounds, how))
}

/// Works on frames of `ltree`.
#[unsafe(no_mangle)]
pub extern "C" fn pgv_bench_ltree(alloc: Global, bytes: &[u8], rounds: u32, how: u32) -> usize {
    sum_of(work::<PgLTree>(alloc, bytes, rounds, how))
}

/// Works on frames of `lquery`.
#[unsafe(no_mangle)]
pub extern "C" fn pgv_bench_lquery(alloc: Global, bytes: &[u8], rounds: u32, how: u32) -> usize {
    sum_of(work::<PgLQuery>(alloc, bytes, rounds, how))
}

/// Reads the rows of a COPY stream of an `int4`, a `text` and an `int8` where `how` is 0, as tuples where it is 2,
/// into one list where it is 3, into one in which they stay where it is 4, and else the same fields as frames.
#[unsafe(no_mangle)]
pub extern "C" fn pgv_bench_copy(alloc: Global, bytes: &[u8], rounds: u32, how: u32) -> usize {
    sum_of(copies(alloc, bytes, rounds, how))
}

/// Reads rows of an `int4`, a `text`, an `int8`, a `bool` and a `date`, the pieces of `blob` of these lengths: by their
/// columns where `how` is 0, in one pass where it is 2, and else the same fields as frames, where it is 3 under the
/// columns' types.
#[unsafe(no_mangle)]
pub extern "C" fn pgv_bench_rows(
    alloc: Global,
    blob: &[u8],
    lens: &[u32],
    rounds: u32,
    how: u32,
) -> usize {
    sum_of(read_rows(alloc, blob, lens, rounds, how))
}

/// Adds the four arguments of a statement to new arguments, and writes their Bind.
#[unsafe(no_mangle)]
pub extern "C" fn pgv_bench_binds(alloc: Global, blob: &[u8], lens: &[u32], rounds: u32) -> usize {
    sum_of(bindings(alloc, blob, lens, rounds))
}
