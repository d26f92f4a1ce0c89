//! MAC addresses (PostgreSQL, "Network Address Types", macaddr): six bytes.

ghost use Rattle.std.specs.Prelude.{◌≡◌, [], ◌∷◌, option_map};
ghost use Rattle.pgv_more.specs.MacAddressText.{mac_value, next_pair, pair_before, pair_value, pairs_after, with_rest};

mod codec;

use std::marker::Model;

/// An address, such as `08:00:2b:01:02:03`. A contract sees it as the list of its bytes.
#[derive(Clone, Copy, Debug, PartialEq, Eq)]
pub struct MacAddress {
    bytes: [u8; 6],
}

impl Model for MacAddress {
    ghost use Rattle.std.specs.Prelude.{ℕ, List};

    ghost Value = { List ℕ };

    ghost view = { λ m. m.bytes };

    ghost inverse = { λ bytes. record { bytes = bytes } };
}

impl MacAddress {
    /// The address of six bytes, the first of them first.
    /// `[8, 0, 43, 1, 2, 3]` is `08:00:2b:01:02:03`.
    pub fn new(bytes: [u8; 6]) -> MacAddress
        ensures { result ≡ bytes }
    {
        MacAddress { bytes }
    }

    /// The six bytes, the first of them first.
    pub fn bytes(&self) -> [u8; 6]
        ensures { result ≡ self.now }
    {
        self.bytes
    }

    /// The address of a text: six pairs of hex digits of either case, with `:` between each two pairs or with `-`, as
    /// `08:00:2b:01:02:03` and `08-00-2B-01-02-03`. `08-00-2b:01-02-03` is invalid.
    #[inline(always)]
    pub fn from_str(text: &str) -> Option<MacAddress>
        ensures { result ≡ mac_value text.now }
    {
        let [high, low, rest @ ..] = text.as_bytes() else {
            return None;
        };
        match rest {
            [separator @ (b':' | b'-'), ..] => six_pairs(*separator, *high, *low, rest),
            _ => None,
        }
    }
}

/// The address of the digits of a first pair and of five pairs after it, each after the separator.
#[inline(always)]
fn six_pairs(separator: u8, high: u8, low: u8, others: &[u8]) -> Option<MacAddress>
    ensures { result ≡ pair_before (with_rest (pair_value high low) others.now)
        (pairs_after separator 5) }
{
    let first = byte_of(high, low)?;
    let [second, third, fourth, fifth, sixth] = five_after(separator, others)?;
    Some(MacAddress::new([first, second, third, fourth, fifth, sixth]))
}

/// The bytes of five pairs, each after the separator, where nothing comes after them.
#[inline(always)]
fn five_after(separator: u8, text: &[u8]) -> Option<[u8; 5]>
    ensures { result ≡ pairs_after separator 5 text.now }
{
    let (first, rest) = pair_after(separator, text)?;
    let (second, rest) = pair_after(separator, rest)?;
    let (third, rest) = pair_after(separator, rest)?;
    let (fourth, rest) = pair_after(separator, rest)?;
    let fifth = last_pair_after(separator, rest)?;
    Some([first, second, third, fourth, fifth])
}

/// The byte of two hex digits of either case.
#[inline(always)]
fn byte_of(high: u8, low: u8) -> Option<u8>
    ensures { result ≡ pair_value high low }
{
    let high = char::from(high).to_digit(16)?;
    let low = char::from(low).to_digit(16)?;
    Some((16 * high + low) as u8)
}

/// The byte of the pair after a separator in front, and what comes after the pair.
#[inline(always)]
fn pair_after(separator: u8, text: &[u8]) -> Option<(u8, &[u8])>
    ensures { option_map (λ p. (p.0, p.1.now)) result ≡ next_pair separator text.now }
{
    match text {
        [first, high, low, rest @ ..] if *first == separator => Some((byte_of(*high, *low)?, rest)),
        _ => None,
    }
}

/// The byte of the pair after a separator, where nothing comes after the pair.
#[inline(always)]
#[tactic(auto, using(crate::proofs::LawsOfMacs::not_at_end))]
fn last_pair_after(separator: u8, text: &[u8]) -> Option<u8>
    ensures { option_map (λ byte. byte ∷ []) result ≡ pairs_after separator 1 text.now }
{
    match pair_after(separator, text)? {
        (byte, []) => Some(byte),
        _ => None,
    }
}
