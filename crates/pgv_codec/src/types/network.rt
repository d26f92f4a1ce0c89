//! Networks and addresses (PostgreSQL, "Network Address Types", inet and cidr). An address is a network of one address.

ghost use Rattle.std.specs.Prelude.{◌≡◌, ◌++◌, Some, OnErr, refl};
ghost use Rattle.std.specs.declared.net.ip_addr.IpAddr.{IpAddr as Address};
ghost use Rattle.pgv_types.specs.Ty.{builtin};
ghost use Rattle.pgv_buf.specs.Tokens.{bytes};
ghost use Rattle.pgv_scalar_text.specs.AddressText as text;
ghost use Rattle.pgv_scalar_text.specs.NetworkText.{Network, network_of};
ghost use Rattle.pgv_value.specs.Outcome.{without_memory};
ghost use Rattle.pgv_value.specs.NetworkBinary.{parse_address, parse_network};
ghost use Rattle.pgv_codec.specs.Encoding.{image_of, with_hint, writes};
ghost use Rattle.pgv_codec.specs.NetworkImage.{address_hint, address_image, image_with, network_hint, network_image};
ghost use Rattle.pgv_codec.specs.NetworkImage as spec;
ghost use Rattle.pgv_codec.specs.Appending.{Encodes, Extends};

use crate::buffer::{IsNull, PgArgumentBuffer};
use crate::traits::{Encode, PgHasArrayType, Plain, Type};
use pgv_scalar_text::IpNetwork;
use pgv_types::{PgType, PgTypeInfo};
use pgv_value::{CodecError, PgValueRef, read_ip_address, read_ip_network};
use std::alloc::{AllocError, Global};
use std::net::IpAddr;

/// Whether values of this type are read as networks and addresses.
fn is_network(type_info: &PgTypeInfo) -> bool
    ensures { result ≡ spec.is_network type_info.now }
{
    type_info.type_compatible(&PgTypeInfo(PgType::Cidr))
        || type_info.type_compatible(&PgTypeInfo(PgType::Inet))
}

/// Whether it is an array of such a type.
fn is_network_array(type_info: &PgTypeInfo) -> bool
    ensures { result ≡ spec.is_network_array type_info.now }
{
    type_info.type_compatible(&PgTypeInfo(PgType::CidrArray))
        || type_info.type_compatible(&PgTypeInfo(PgType::InetArray))
}

/// How many bytes an address is written as.
#[inline(always)]
fn written_size(address: IpAddr) -> usize
    ensures { result ≡ address_hint address }
{
    match address {
        IpAddr::V4(_) => 8,
        IpAddr::V6(_) => 20,
    }
}

/// Appends four bytes and the octets after them.
#[inline(always)]
#[tactic(auto, using(crate::specs::PlainBytes::appended_parts))]
fn write_octets(
    front: &[u8; 4],
    octets: &[u8],
    out: &mut PgArgumentBuffer,
) -> Result<IsNull, CodecError>
    ensures encodes { Encodes (writes (Some (image_of (bytes (front.now ++ octets.now)))))
        out.old out.new result }
    ensures appended { OnErr result (Extends out.old out.new) }
{
    out.extend_from_slice(front)?;
    out.extend_from_slice(octets)?;
    Ok(IsNull::No)
}

/// Appends an address and the number of bits that name its network.
#[inline(always)]
fn write_network(
    address: IpAddr,
    prefix: u8,
    out: &mut PgArgumentBuffer,
) -> Result<IsNull, CodecError>
    ensures encodes { Encodes (writes (image_with address prefix)) out.old out.new result }
    ensures appended { OnErr result (Extends out.old out.new) }
{
    match address {
        IpAddr::V4(ip) => {
            let [a, b, c, d] = ip.octets();
            out.extend_from_slice(&[2, prefix, 0, 4, a, b, c, d])?;
            Ok(IsNull::No)
        }
        IpAddr::V6(ip) => write_octets(&[3, prefix, 0, 16], &ip.octets(), out),
    }
}

/// `inet` (OID 869), read under `cidr`, `inet` and domains over one of them.
impl Type for IpNetwork {
    ghost info = { builtin 869 };

    ghost accepts = { spec.is_network };

    fn type_info() -> PgTypeInfo {
        PgTypeInfo(PgType::Inet)
    }

    fn compatible(type_info: &PgTypeInfo) -> bool {
        is_network(type_info)
    }
}

/// An array of them is `inet[]` (OID 1041), read under `cidr[]` and `inet[]`.
impl PgHasArrayType for IpNetwork {
    ghost array_info = { builtin 1041 };

    ghost accepts_array = { spec.is_network_array };

    fn array_type_info() -> PgTypeInfo {
        PgTypeInfo(PgType::InetArray)
    }

    fn array_compatible(type_info: &PgTypeInfo) -> bool {
        is_network_array(type_info)
    }
}

/// Written as the family, the number of bits, a zero, the number of octets, and the octets: `10.0.0.0/8` as
/// `020800040a000000`.
impl Encode for IpNetwork {
    ghost encoding = { λ v. with_hint (network_hint (network_of v)) (writes (network_image (network_of v))) };

    #[inline(always)]
    fn encode_by_ref(&self, out: &mut PgArgumentBuffer) -> Result<IsNull, CodecError> {
        write_network(self.ip(), self.prefix(), out)
    }

    #[inline(always)]
    fn size_hint(&self) -> usize {
        written_size(self.ip())
    }

    #[inline(always)]
    fn produces(&self) -> Result<Option<PgTypeInfo>, AllocError> {
        Ok(None)
    }
}

/// An `inet` or a `cidr`, as [`read_ip_network`] reads it: `020800040a000000` and `10.0.0.0/8` are the same network.
/// A network comes back as it is.
impl Plain for IpNetwork {
    ghost use Rattle.pgv_codec.specs.NetworkBackLemmas.{network_back};

    ghost View = { Network };

    ghost view = { network_of };

    ghost parse = { without_memory parse_network };

    ghost null = { λ _ _. refl };

    ghost written = { λ _ m. with_hint (network_hint m) (writes (network_image m)) };

    #[inline(always)]
    fn read(_alloc: Global, value: &PgValueRef<'_>) -> Result<IpNetwork, CodecError> {
        read_ip_network(value)
    }

    ghost reads_back = { network_back };

    ghost agrees = { λ _. refl };
}

/// `inet` (OID 869), read under `cidr`, `inet` and domains over one of them.
impl Type for IpAddr {
    ghost info = { builtin 869 };

    ghost accepts = { spec.is_network };

    fn type_info() -> PgTypeInfo {
        PgTypeInfo(PgType::Inet)
    }

    fn compatible(type_info: &PgTypeInfo) -> bool {
        is_network(type_info)
    }
}

/// An array of them is `inet[]` (OID 1041), read under `cidr[]` and `inet[]`.
impl PgHasArrayType for IpAddr {
    ghost array_info = { builtin 1041 };

    ghost accepts_array = { spec.is_network_array };

    fn array_type_info() -> PgTypeInfo {
        PgTypeInfo(PgType::InetArray)
    }

    fn array_compatible(type_info: &PgTypeInfo) -> bool {
        is_network_array(type_info)
    }
}

/// The number of all bits of an address.
fn full_prefix(address: IpAddr) -> u8
    ensures { result ≡ text.full_prefix address }
{
    IpNetwork::from(address).prefix()
}

/// Written as the network of all its bits: `10.0.0.1` as `022000040a000001`.
impl Encode for IpAddr {
    ghost encoding = { λ address. with_hint (address_hint address) (writes (address_image address)) };

    #[inline(always)]
    fn encode_by_ref(&self, out: &mut PgArgumentBuffer) -> Result<IsNull, CodecError> {
        write_network(*self, full_prefix(*self), out)
    }

    #[inline(always)]
    fn size_hint(&self) -> usize {
        written_size(*self)
    }

    #[inline(always)]
    fn produces(&self) -> Result<Option<PgTypeInfo>, AllocError> {
        Ok(None)
    }
}

/// An `inet` or a `cidr` of one address, as [`read_ip_address`] reads it: `022000040a000001` and `10.0.0.1` are the
/// same address. An address comes back as it is.
impl Plain for IpAddr {
    ghost use Rattle.pgv_codec.specs.NetworkBackLemmas.{address_back};

    ghost View = { Address };

    ghost view = { λ address. address };

    ghost parse = { without_memory parse_address };

    ghost null = { λ _ _. refl };

    ghost written = { λ _ m. with_hint (address_hint m) (writes (address_image m)) };

    fn read(_alloc: Global, value: &PgValueRef<'_>) -> Result<IpAddr, CodecError> {
        read_ip_address(value)
    }

    ghost reads_back = { address_back };

    ghost agrees = { λ _. refl };
}
