//! Where the parts of a row are in its bytes.

ghost use Rattle.std.specs.Prelude.{◌≡◌, ◌≤◌, [], length, OnOk, vec_capacity};
ghost use Rattle.pgv_row.specs.DataRow.{data_row};
ghost use Rattle.pgv_value.specs.Outcome.{Gives};
ghost use Rattle.pgv_row.specs.Noting.{FindsParts, GivesPlace, GivesPlaces, HasCount};
ghost use Rattle.pgv_row.specs.Places.{parts_at, AreWithin};

use pgv_value::{CodecError, part_in_front};

/// Where a part is in the bytes of a row.
#[derive(Clone, Copy)]
pub struct Place {
    /// Its first byte.
    pub start: usize,
    /// The byte after its last one.
    pub end: usize,
}

/// That the number of columns in front is this one: [`Short`](CodecError::Short) (C15) where no number is there, and
/// [`FieldCount`](CodecError::FieldCount) (C12) where it is another. The frames come after its two bytes.
#[inline(always)]
#[tactic(auto, unfolding(crate::specs::DataRow::frames_front, pgv_value::specs::Fronts::u16_front))]
pub fn check_count(bytes: &[u8], width: usize) -> Result<(), CodecError>
    ensures { HasCount width bytes.now result }
{
    if bytes.len() < 2 {
        return Err(CodecError::Short);
    }
    let (front, _frames) = bytes.split_at(2);
    if u16::from_be_bytes([front[0], front[1]]) as usize != width {
        return Err(CodecError::FieldCount);
    }
    Ok(())
}

/// Where the part of the frame at `at` is, and where the next frame begins.
#[inline(always)]
fn place_at(bytes: &[u8], at: usize) -> Result<(Option<Place>, usize), CodecError>
    requires { at ≤ length bytes.now }
    ensures { GivesPlace bytes.now at result }
{
    let (_read, left) = bytes.split_at(at);
    let (part, rest) = part_in_front(left)?;
    let end = bytes.len() - rest.len();
    match part {
        None => Ok((None, end)),
        Some(part) => {
            let start = end - part.len();
            Ok((Some(Place { start, end }), end))
        }
    }
}

/// Notes where the parts of as many frames are, the first of which begins at `at`, and returns where the last one ends.
fn note_places(
    places: &mut Vec<Option<Place>>,
    bytes: &[u8],
    at: usize,
    width: usize,
) -> Result<usize, CodecError>
    requires empty { places.old.items ≡ [] }
    requires room { width ≤ vec_capacity places.old }
    requires within { at ≤ length bytes.now }
    ensures noted { GivesPlaces bytes.now at width places.new.items result }
    ensures places { OnOk result (AreWithin bytes.now places.new.items) }
    ensures room { vec_capacity places.old ≤ vec_capacity places.new }
{
    let mut next = at;
    for _ in 0..width {
        let (place, end) = place_at(bytes, next)?;
        places.push(place)?;
        next = end;
    }
    Ok(next)
}

/// Notes where the parts of a row are, which is the body of a DataRow, in place of what was noted before.
#[inline(always)]
#[tactic(auto, unfolding(crate::specs::DataRow::data_row))]
fn note_row(places: &mut Vec<Option<Place>>, bytes: &[u8], width: usize) -> Result<(), CodecError>
    ensures read { let row = data_row (vec_capacity places.old) width bytes.now in
        Gives (λ _. parts_at bytes.now places.new.items) row result }
    ensures places { OnOk result (AreWithin bytes.now places.new.items) }
    ensures room { vec_capacity places.old ≤ vec_capacity places.new }
    ensures enough { OnOk result (width ≤ vec_capacity places.new) }
{
    places.clear();
    check_count(bytes, width)?;
    places.reserve(width)?;
    let end = note_places(places, bytes, 2, width)?;
    if end != bytes.len() {
        return Err(CodecError::WrongLength(bytes.len()));
    }
    Ok(())
}

/// Notes where the parts of a row are, which is the body of a DataRow, in place of what was noted before.
#[inline(always)]
pub fn find_places(
    places: &mut Vec<Option<Place>>,
    bytes: &[u8],
    width: usize,
) -> Result<(), CodecError>
    ensures read { FindsParts (λ _. parts_at bytes.now places.new.items)
        (vec_capacity places.old) width bytes.now result }
    ensures places { OnOk result (AreWithin bytes.now places.new.items) }
    ensures room { vec_capacity places.old ≤ vec_capacity places.new }
    ensures enough { OnOk result (width ≤ vec_capacity places.new) }
{
    note_row(places, bytes, width)
}
