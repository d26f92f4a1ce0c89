//! Addresses with the length of their network part, and their texts, as PostgreSQL writes `inet` and `cidr`.

ghost use Rattle.std.specs.Prelude.{◌≡◌, ◌<◌, ◌≤◌};
ghost use Rattle.std.specs.Option.{MatchOption, option_map};
ghost use Rattle.pgv_scalar_text.specs.AddressText.{address_value, prefix_value};

use std::net::{IpAddr, Ipv4Addr, Ipv6Addr};

/// An address of version 4 and how many of its bits name the network.
#[derive(Clone, Copy, PartialEq, Eq, Debug)]
pub struct Ipv4Network {
    ip: Ipv4Addr,
    prefix: u8,
    pub ghost prefix_in: { prefix ≤ 32 },
}

impl Ipv4Network {
    /// The network of an address and a prefix; `None` if the prefix is above 32. `192.168.0.0` and 24 are
    /// `192.168.0.0/24`; with 33 it is `None`.
    pub fn new(ip: Ipv4Addr, prefix: u8) -> Option<Ipv4Network>
        ensures { MatchOption result (32 < prefix) (λ network.
            (network.ip ≡ ip) × (network.prefix ≡ prefix) × (prefix ≤ 32)) }
    {
        if prefix > 32 {
            return None;
        }
        Some(Ipv4Network { ip, prefix })
    }

    /// The address.
    pub fn ip(self) -> Ipv4Addr
        ensures { result ≡ self.ip }
    {
        self.ip
    }

    /// The number of bits that name the network.
    pub fn prefix(self) -> u8
        ensures { result ≡ self.prefix }
    {
        self.prefix
    }
}

/// An address of version 6 and how many of its bits name the network.
#[derive(Clone, Copy, PartialEq, Eq, Debug)]
pub struct Ipv6Network {
    ip: Ipv6Addr,
    prefix: u8,
    pub ghost prefix_in: { prefix ≤ 128 },
}

impl Ipv6Network {
    /// The network of an address and a prefix; `None` if the prefix is above 128.
    pub fn new(ip: Ipv6Addr, prefix: u8) -> Option<Ipv6Network>
        ensures { MatchOption result (128 < prefix) (λ network.
            (network.ip ≡ ip) × (network.prefix ≡ prefix) × (prefix ≤ 128)) }
    {
        if prefix > 128 {
            return None;
        }
        Some(Ipv6Network { ip, prefix })
    }

    /// The address.
    pub fn ip(self) -> Ipv6Addr
        ensures { result ≡ self.ip }
    {
        self.ip
    }

    /// The number of bits that name the network.
    pub fn prefix(self) -> u8
        ensures { result ≡ self.prefix }
    {
        self.prefix
    }
}

/// An address of either version and how many of its bits name the network.
#[derive(Clone, Copy, PartialEq, Eq, Debug)]
pub enum IpNetwork {
    /// One of version 4, as `10.0.0.0/8`.
    V4(Ipv4Network),
    /// One of version 6, as `2001:db8::/32`.
    V6(Ipv6Network),
}

impl IpNetwork {
    ghost use Rattle.pgv_scalar_text.specs.NetworkText.{is_ipv4, is_ipv6, network_of, network_value, network_with};

    /// The network of an address and a prefix; `None` if the prefix is above the number of the address's bits.
    pub fn new(ip: IpAddr, prefix: u8) -> Option<IpNetwork>
        ensures { option_map network_of result ≡ network_with ip prefix }
    {
        match ip {
            IpAddr::V4(ip) => Some(IpNetwork::V4(Ipv4Network::new(ip, prefix)?)),
            IpAddr::V6(ip) => Some(IpNetwork::V6(Ipv6Network::new(ip, prefix)?)),
        }
    }

    /// The address.
    pub fn ip(self) -> IpAddr
        ensures { result ≡ (network_of self).address }
    {
        match self {
            IpNetwork::V4(network) => IpAddr::V4(network.ip),
            IpNetwork::V6(network) => IpAddr::V6(network.ip),
        }
    }

    /// The number of bits that name the network.
    pub fn prefix(self) -> u8
        ensures { result ≡ (network_of self).prefix }
    {
        match self {
            IpNetwork::V4(network) => network.prefix,
            IpNetwork::V6(network) => network.prefix,
        }
    }

    /// Whether the address is of version 4.
    pub fn is_ipv4(self) -> bool
        ensures { result ≡ is_ipv4 self }
    {
        matches!(self, IpNetwork::V4(_))
    }

    /// Whether the address is of version 6.
    pub fn is_ipv6(self) -> bool
        ensures { result ≡ is_ipv6 self }
    {
        matches!(self, IpNetwork::V6(_))
    }

    /// The network of a text: an address, and perhaps `/` and a decimal number of bits without leading zeros; without
    /// it all bits of the address.
    pub fn from_str(text: &str) -> Option<IpNetwork>
        ensures { option_map network_of result ≡ network_value text.now }
    {
        match text.split_once('/') {
            None => address_of(text).map(|ip| IpNetwork::from(ip)),
            Some((address, prefix)) => IpNetwork::new(
                address_of(address)?,
                prefix_of(prefix.as_bytes())?,
            ),
        }
    }
}

impl From<IpAddr> for IpNetwork {
    ghost use Rattle.pgv_scalar_text.specs.AddressText.{full_prefix};
    ghost use Rattle.pgv_scalar_text.specs.NetworkText.{network_of};

    ghost from_gives = { λ ip network. network_of network ≡ record { address = ip; prefix = full_prefix ip } };

    /// The address with all its bits.
    fn from(ip: IpAddr) -> IpNetwork {
        match ip {
            IpAddr::V4(ip) => IpNetwork::V4(Ipv4Network { ip, prefix: 32 }),
            IpAddr::V6(ip) => IpNetwork::V6(Ipv6Network { ip, prefix: 128 }),
        }
    }
}

/// The address of a text.
#[tactic(auto, using(crate::proofs::Addresses::parsed_address))]
fn address_of(text: &str) -> Option<IpAddr>
    ensures { result ≡ address_value text.now }
{
    text.parse::<IpAddr>().ok()
}

/// The decimal number of a text, which has no leading zeros and is below 200.
fn prefix_of(text: &[u8]) -> Option<u8>
    ensures { result ≡ prefix_value text.now }
{
    match text {
        [ones @ b'0'..=b'9'] => Some(ones - b'0'),
        [tens @ b'1'..=b'9', ones @ b'0'..=b'9'] => Some((tens - b'0') * 10 + (ones - b'0')),
        [b'1', tens @ b'0'..=b'9', ones @ b'0'..=b'9'] => Some(
            100 + (tens - b'0') * 10 + (ones - b'0'),
        ),
        _ => None,
    }
}
