//! Writing OIDs into holes and the chosen bytes into slots, over what is there.

ghost use Rattle.std.specs.Prelude.{◌≡◌, ◌+◌, ◌≤◌, length, sum, map, replicate};
ghost use Rattle.pgv_buf.specs.Tokens.{chosen, be4};
ghost use Rattle.pgv_buf.specs.Fill.{slot_types};
ghost use Rattle.pgv_buf.specs.Patches.{put, put_each, Within, numbers, choices};
ghost use Rattle.pgv_buf.specs.Gaps.{places_after};
ghost use Rattle.pgv_buf.specs.TokensView.{kept_of};

use pgv_types::{Oid, PgTypeInfo};
use std::alloc::AllocError;

/// A slot as it is kept: its default, and what it shows for which parameter types.
pub(crate) struct Slot {
    pub(crate) standard: Vec<u8>,
    pub(crate) cases: Vec<(PgTypeInfo, Vec<u8>)>,
}

/// Its parts go. It is written out since a derived one is proved again in each crate above.
impl Drop for Slot {
    #[inline(always)]
    fn drop(self) {
        let Slot {
            standard: _,
            cases: _,
        } = self;
    }
}

impl Clone for Slot {
    ghost use Rattle.pgv_buf.specs.TokensView.{kept_of};

    ghost is_clone = { λ s copy. kept_of copy ≡ kept_of s };

    fn clone(&self) -> Result<Slot, AllocError> {
        Ok(Slot {
            standard: self.standard.clone()?,
            cases: self.cases.clone()?,
        })
    }
}

/// Writes bytes over those at a place.
#[inline(always)]
fn put_bytes(bytes: &mut Vec<u8>, place: usize, written: &[u8])
    requires { place + length written.now ≤ length bytes.old.items }
    ensures { bytes.new.items ≡ put place written.now bytes.old.items }
{
    // One byte, as the version of a `jsonb`, is written without a call of `memcpy`.
    if let [byte] = written {
        bytes[place] = *byte;
        return;
    }
    let after = place + written.len();
    let target = &mut bytes[place..after];
    target.copy_from_slice(written);
}

/// Writes a number as four bytes, the highest first.
#[inline(always)]
pub(crate) fn put_number(bytes: &mut Vec<u8>, place: usize, value: u32)
    requires { place + 4 ≤ length bytes.old.items }
    ensures { bytes.new.items ≡ put place (be4 value) bytes.old.items }
{
    let number = value.to_be_bytes();
    put_bytes(bytes, place, &number);
}

/// Writes the i-th OID at the i-th place, where the gaps lead to the places.
pub(crate) fn write_oids(bytes: &mut Vec<u8>, gaps: &[usize], oids: &[Oid])
    requires many { length oids.now ≡ length gaps.now }
    requires within { Within (length bytes.old.items) (places_after 0 gaps.now) (numbers oids.now) }
    ensures { bytes.new.items ≡ put_each (places_after 0 gaps.now)
        (numbers oids.now) bytes.old.items }
{
    let mut place = 0;
    for (i, gap) in gaps.iter().enumerate() {
        place += *gap;
        put_number(bytes, place, oids[i].0);
    }
}

/// What a slot shows for a parameter type: its first case whose type is softly equal to it, else its default.
fn choose<'a>(slot: &'a Slot, parameter: &PgTypeInfo) -> &'a [u8]
    ensures { result.now ≡ chosen parameter.now (kept_of slot.now).standard
        (kept_of slot.now).cases }
{
    for case in &slot.cases {
        if case.0.type_compatible(parameter) {
            return case.1.as_slice();
        }
    }
    slot.standard.as_slice()
}

/// Fills the slots of one argument, of which `before` is the place before the first, and gives the place of the last.
fn write_run(
    bytes: &mut Vec<u8>,
    before: usize,
    gaps: &[usize],
    slots: &[Slot],
    parameter: &PgTypeInfo,
) -> usize
    requires many { length gaps.now ≡ length slots.now }
    requires within { Within (length bytes.old.items) (places_after before gaps.now)
        (choices (replicate (length slots.now) parameter.now) (map kept_of slots.now)) }
    ensures items { bytes.new.items ≡ put_each (places_after before gaps.now)
        (choices (replicate (length slots.now) parameter.now)
        (map kept_of slots.now)) bytes.old.items }
    ensures len { length bytes.new.items ≡ length bytes.old.items }
    ensures last { result ≡ before + sum gaps.now }
{
    let mut place = before;
    for (i, slot) in slots.iter().enumerate() {
        place += gaps[i];
        put_bytes(bytes, place, choose(slot, parameter));
    }
    place
}

/// Fills the slots of each argument by the parameter type of that argument. Arguments after the last count have none.
pub(crate) fn write_slots(
    bytes: &mut Vec<u8>,
    gaps: &[usize],
    slots: &[Slot],
    types: &[PgTypeInfo],
    counts: &[usize],
)
    requires arguments { length counts.now ≤ length types.now }
    requires slots { sum counts.now ≡ length slots.now }
    requires gaps { length gaps.now ≡ length slots.now }
    requires within { Within (length bytes.old.items) (places_after 0 gaps.now)
        (choices (slot_types types.now counts.now) (map kept_of slots.now)) }
    ensures { bytes.new.items ≡ put_each (places_after 0 gaps.now)
        (choices (slot_types types.now counts.now) (map kept_of slots.now)) bytes.old.items }
{
    if slots.is_empty() {
        return;
    }
    let mut next = 0;
    let mut place = 0;
    for (i, count) in counts.iter().enumerate() {
        let end = next + *count;
        place = write_run(bytes, place, &gaps[next..end], &slots[next..end], &types[i]);
        next = end;
    }
}
