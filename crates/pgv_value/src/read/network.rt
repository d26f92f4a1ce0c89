//! Networks and addresses.

ghost use Rattle.std.specs.Prelude.{◌≡◌, ℕ, ◌∷◌};
ghost use Rattle.pgv_scalar_text.specs.NetworkText.{network_of};
ghost use Rattle.pgv_value.specs.NetworkBinary.{address_binary, address_refused};
ghost use Rattle.pgv_value.specs.NetworkBinary.{network_in_binary, network_in_text, parse_address, parse_network, with_prefix};
ghost use Rattle.pgv_value.specs.NetworkBinary as spec;
ghost use Rattle.pgv_value.specs.Parsed.{GivesExactly};

use crate::error::CodecError;
use crate::value::{PgValueFormat, PgValueRef};
use pgv_scalar_text::IpNetwork;
use std::net::{IpAddr, Ipv4Addr, Ipv6Addr};

/// The address of a family, the number of its octets as it is written, and the octets.
fn address_of(family: u8, count: u8, octets: &[u8]) -> Option<IpAddr>
    ensures { result ≡ address_binary family count octets.now }
{
    match (family, count) {
        (2, 4) => {
            let octets = <[u8; 4]>::try_from(octets).ok()?;
            Some(IpAddr::V4(Ipv4Addr::from_octets(octets)))
        }
        (3, 16) => {
            let octets = <[u8; 16]>::try_from(octets).ok()?;
            Some(IpAddr::V6(Ipv6Addr::from_octets(octets)))
        }
        _ => None,
    }
}

/// Why bytes of that number have no address.
fn address_fault(family: u8, len: usize) -> CodecError
    ensures { result ≡ address_refused family len }
{
    match family {
        2 | 3 => CodecError::WrongLength(len),
        _ if len < 8 => CodecError::WrongLength(len),
        _ => CodecError::InetFamily(family),
    }
}

/// The network of an address and a prefix. A prefix above the number of the address's bits is refused with
/// [`InetPrefix`](CodecError::InetPrefix) (C32).
fn network_with(address: IpAddr, prefix: u8) -> Result<IpNetwork, CodecError>
    ensures { GivesExactly network_of (with_prefix address prefix) result }
{
    IpNetwork::new(address, prefix).ok_or(CodecError::InetPrefix(prefix))
}

/// The network of a family, a prefix, the number of the octets as it is written, and the octets.
#[inline(always)]
fn network_of_octets(
    family: u8,
    prefix: u8,
    count: u8,
    octets: &[u8],
) -> Result<IpNetwork, CodecError>
    ensures { (ignored : ℕ) → GivesExactly network_of
        (network_in_binary (family ∷ prefix ∷ ignored ∷ count ∷ octets.now)) result }
{
    let Some(address) = address_of(family, count, octets) else {
        return Err(address_fault(family, 4 + octets.len()));
    };
    network_with(address, prefix)
}

/// The network of bytes. Fewer than eight bytes, or others than the family has, are refused with
/// [`WrongLength`](CodecError::WrongLength) (C17), a family other than 2 and 3 with
/// [`InetFamily`](CodecError::InetFamily) (C31), and a prefix above the number of the address's bits with
/// [`InetPrefix`](CodecError::InetPrefix) (C32).
#[inline(always)]
fn network_of_bytes(bytes: &[u8]) -> Result<IpNetwork, CodecError>
    ensures { GivesExactly network_of (network_in_binary bytes.now) result }
{
    match bytes {
        [family, prefix, _, count, octets @ ..] => {
            network_of_octets(*family, *prefix, *count, octets)
        }
        _ => Err(CodecError::WrongLength(bytes.len())),
    }
}

/// The network of a text. Another text is refused with [`Syntax`](CodecError::Syntax) (C29).
fn network_of_text(text: &str) -> Result<IpNetwork, CodecError>
    ensures { GivesExactly network_of (network_in_text text.now) result }
{
    IpNetwork::from_str(text).ok_or(CodecError::Syntax)
}

/// The address of a network whose prefix is full. Another prefix is refused with
/// [`LossyAddress`](CodecError::LossyAddress) (C33).
fn address_alone(network: IpNetwork) -> Result<IpAddr, CodecError>
    ensures { GivesExactly (λ address. address) (spec.address_alone (network_of network)) result }
{
    match network {
        IpNetwork::V4(network) if network.prefix() == 32 => Ok(IpAddr::V4(network.ip())),
        IpNetwork::V6(network) if network.prefix() == 128 => Ok(IpAddr::V6(network.ip())),
        _ => Err(CodecError::LossyAddress),
    }
}

/// Reads an `inet` or a `cidr`: in binary the family, the prefix, a byte that is ignored, the number of octets and the
/// octets, and in text an address, and perhaps `/` and the prefix. Refused are a wrong length with
/// [`WrongLength`](CodecError::WrongLength) (C17), another family with [`InetFamily`](CodecError::InetFamily) (C31), a
/// prefix that is too long with [`InetPrefix`](CodecError::InetPrefix) (C32), and another text with
/// [`Syntax`](CodecError::Syntax) (C29). `02180004c0a80000` and `192.168.0.0/24` are the same network.
#[inline(always)]
pub fn read_ip_network(value: &PgValueRef<'_>) -> Result<IpNetwork, CodecError>
    ensures { GivesExactly network_of (parse_network value.now) result }
{
    match value.format() {
        PgValueFormat::Binary => network_of_bytes(value.as_bytes()?),
        PgValueFormat::Text => network_of_text(value.as_str()?),
    }
}

/// Reads an `inet` or a `cidr` as an address, as [`read_ip_network`] reads them; a prefix that is not full is refused
/// with [`LossyAddress`](CodecError::LossyAddress) (C33). `02200004c0a80001` and `192.168.0.1` are the same address.
pub fn read_ip_address(value: &PgValueRef<'_>) -> Result<IpAddr, CodecError>
    ensures { GivesExactly (λ address. address) (parse_address value.now) result }
{
    match value.format() {
        PgValueFormat::Binary => address_alone(network_of_bytes(value.as_bytes()?)?),
        PgValueFormat::Text => address_alone(network_of_text(value.as_str()?)?),
    }
}
