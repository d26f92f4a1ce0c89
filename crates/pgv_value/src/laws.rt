//! Laws of frames, intervals and identifiers. Each is the contract of a function that does nothing, or only hashes.

ghost use Rattle.std.specs.Prelude.{◌≡◌, ◌↔◌, fold, true};
ghost use Rattle.pgv_value.specs.Interval.{IntervalIsItsMicroseconds};
ghost use Rattle.pgv_value.specs.FrameLaws.{CutFrameIsShort, FrontIsFrame};

use crate::interval::PgInterval;
use std::hash::{Hash, Hasher};
use uuid::Uuid;

/// `front` splits bytes into a part and a rest iff the bytes are a frame of this part followed by this rest.
#[tactic(auto, unfolding(crate::specs::FrameLaws::FrontIsFrame), using(crate::proofs::Fronts::front_exactly))]
pub fn front_is_frame()
    ensures { FrontIsFrame }
{}

/// Nothing is found at the front of a frame that is cut off, and its fault is [`Short`](crate::CodecError::Short)
/// (C15).
#[tactic(auto, unfolding(crate::specs::FrameLaws::CutFrameIsShort), using(crate::proofs::Fronts::cut_is_short))]
pub fn cut_frame_is_short()
    ensures { CutFrameIsShort }
{}

/// Two hashers in the same state that are fed equal identifiers end in the same state.
pub fn equal_ids_hash_alike<H: Hasher>(a: &Uuid, b: &Uuid, first: &mut H, second: &mut H)
    requires state { first.old ≡ second.old }
    requires equal { a.now ≡ b.now }
    // Each hasher took in what the identifier's hash is made of.
    ensures hashed { first.new ≡ fold H.write first.old (⟦<Uuid as Hash>⟧.hash_input a.now) }
    ensures alike { first.new ≡ second.new }
{
    a.hash(first);
    b.hash(second);
}

/// Two intervals are equal iff they have the same months, days and microseconds.
pub fn equal_intervals()
    ensures { (a b : PgInterval) → (⟦<PgInterval as PartialEq>⟧.eq a b ≡ true) ↔ (a ≡ b) }
{}

/// Two hashers in the same state that are fed equal intervals end in the same state.
pub fn equal_intervals_hash_alike<H: Hasher>(
    one: &PgInterval,
    other: &PgInterval,
    first: &mut H,
    second: &mut H,
)
    requires state { first.old ≡ second.old }
    requires equal { ⟦<PgInterval as PartialEq>⟧.eq one.now other.now ≡ true }
    // Each hasher took in what the interval's hash is made of.
    ensures hashed { first.new ≡ fold H.write first.old
        (⟦<PgInterval as Hash>⟧.hash_input one.now) }
    ensures alike { first.new ≡ second.new }
{
    one.hash(first);
    other.hash(second);
}

/// `interval_of` turns nanoseconds into an interval iff the interval has no months and no days, and its microseconds,
/// which fit in 64 bits, are exactly these nanoseconds.
pub fn interval_is_its_microseconds()
    ensures { IntervalIsItsMicroseconds }
{}
