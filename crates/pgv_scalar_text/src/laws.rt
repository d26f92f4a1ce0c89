//! Laws of the texts of numbers, dates, times and networks: each is the contract of a function that does nothing, and
//! holds for every text.

ghost use Rattle.std.specs.Prelude.{◌≡◌, ◌↔◌, true};
ghost use Rattle.pgv_scalar_text.specs.AddressText.{AddressIsItsValue};
ghost use Rattle.pgv_scalar_text.specs.DateTimeText.{DateIsItsValue, DateTimeIsItsValue, InstantIsItsValue, OneDate, OneDateTime, OneInstant, OneTime, OneTimeTz, TimeIsItsValue, TimeTzIsItsValue};
ghost use Rattle.pgv_scalar_text.specs.NetworkText.{network_of, NetworkIsItsValue, OneNetwork};
ghost use Rattle.pgv_scalar_text.specs.IntText.{NumberIsItsValue, OneNumber, OneUnsignedNumber, UnsignedIsItsValue};

use crate::{IpNetwork, Ipv4Network, Ipv6Network};

/// `number_value` computes a number from a text iff the grammar of whole numbers assigns this number to the text.
#[tactic(auto, using(crate::proofs::ParsedInts::number_is_its_value))]
pub fn number_is_its_value()
    ensures { NumberIsItsValue }
{}

/// `unsigned_value` computes a number from a text iff the grammar of unsigned numbers assigns this number to the text.
#[tactic(auto, using(crate::proofs::ParsedInts::unsigned_is_its_value))]
pub fn unsigned_number_is_its_value()
    ensures { UnsignedIsItsValue }
{}

/// A text denotes at most one whole number.
#[tactic(auto, using(crate::proofs::ParsedInts::one_number))]
pub fn one_number()
    ensures { OneNumber }
{}

/// A text denotes at most one unsigned number.
#[tactic(auto, using(crate::proofs::ParsedInts::one_unsigned))]
pub fn one_unsigned_number()
    ensures { OneUnsignedNumber }
{}

/// `date_value` computes the day number of a date from a text iff the grammar of dates assigns this date to the text.
#[tactic(auto, using(crate::proofs::Computed::date_is_its_value))]
pub fn date_is_its_value()
    ensures { DateIsItsValue }
{}

/// `time_value` computes the nanoseconds of a time from a text iff the grammar of times assigns this time to the text.
#[tactic(auto, using(crate::proofs::Computed::time_is_its_value))]
pub fn time_is_its_value()
    ensures { TimeIsItsValue }
{}

/// `date_time_value` computes the nanoseconds of a date-time from a text iff the grammar assigns this date-time to the
/// text.
#[tactic(auto, using(crate::proofs::Instants::date_time_is_its_value))]
pub fn date_time_is_its_value()
    ensures { DateTimeIsItsValue }
{}

/// `instant_value` computes the nanoseconds of an instant from a text iff the grammar assigns this instant to the text.
#[tactic(auto, using(crate::proofs::Instants::instant_is_its_value))]
pub fn instant_is_its_value()
    ensures { InstantIsItsValue }
{}

/// `time_tz_value` computes the nanoseconds of a time and the seconds of its offset from a text iff the grammar assigns
/// this time and offset to the text.
#[tactic(auto, using(crate::proofs::Instants::time_tz_is_its_value))]
pub fn time_tz_is_its_value()
    ensures { TimeTzIsItsValue }
{}

/// `network_value` computes the address and prefix of a network from a text iff the grammar assigns this network to the
/// text.
#[tactic(auto, using(crate::proofs::Networks::network_is_its_value))]
pub fn network_is_its_value()
    ensures { NetworkIsItsValue }
{}

/// A text denotes at most one date.
#[tactic(auto, using(crate::proofs::Computed::one_date))]
pub fn one_date()
    ensures { OneDate }
{}

/// A text denotes at most one time.
#[tactic(auto, using(crate::proofs::Computed::one_time))]
pub fn one_time()
    ensures { OneTime }
{}

/// A text denotes at most one date-time.
#[tactic(auto, using(crate::proofs::Instants::one_date_time))]
pub fn one_date_time()
    ensures { OneDateTime }
{}

/// A text denotes at most one instant.
#[tactic(auto, using(crate::proofs::Instants::one_instant))]
pub fn one_instant()
    ensures { OneInstant }
{}

/// A text denotes at most one time with its offset.
#[tactic(auto, using(crate::proofs::Instants::one_time_tz))]
pub fn one_time_tz()
    ensures { OneTimeTz }
{}

/// A text denotes at most one network.
#[tactic(auto, using(crate::proofs::Networks::one_network))]
pub fn one_network()
    ensures { OneNetwork }
{}

/// `address_value` computes an IP address from a text iff the grammar assigns this address to the text.
#[tactic(auto, using(crate::proofs::Addresses::address_is_its_value))]
pub fn address_is_its_value()
    ensures { AddressIsItsValue }
{}

/// Two networks are equal iff they have the same IP version, address and prefix.
pub fn equal_networks()
    ensures four { (a b : Ipv4Network) → (⟦<Ipv4Network as PartialEq>⟧.eq a b ≡ true)
        ↔ ((a.ip ≡ b.ip) × (a.prefix ≡ b.prefix)) }
    ensures six { (a b : Ipv6Network) → (⟦<Ipv6Network as PartialEq>⟧.eq a b ≡ true)
        ↔ ((a.ip ≡ b.ip) × (a.prefix ≡ b.prefix)) }
    ensures either { (a b : IpNetwork) → (⟦<IpNetwork as PartialEq>⟧.eq a b ≡ true)
        ↔ (network_of a ≡ network_of b) }
{}
