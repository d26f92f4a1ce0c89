//! Laws that say what networks and addresses are, as [`rows`](super::rows) does for other types.

ghost use Rattle.pgv_types.specs.Ty.{builtin};
ghost use Rattle.pgv_scalar_text.specs.NetworkText.{network_of};
ghost use Rattle.pgv_value.specs.Outcome.{without_memory};
ghost use Rattle.pgv_value.specs.NetworkBinary.{parse_address, parse_network};
ghost use Rattle.pgv_codec.specs.Encoding.{with_hint, writes};
ghost use Rattle.pgv_codec.specs.NetworkImage.{address_hint, address_image, is_network, is_network_array, network_hint, network_image};
ghost use Rattle.pgv_codec.specs.TypeRow.{HasArrayType, HasType, IsReadAs, IsWrittenAs};

use pgv_codec::{Decode, Encode, PgHasArrayType, Type};
use pgv_scalar_text::IpNetwork;
use std::net::IpAddr;

/// An `IpNetwork` is an inet (OID 869), as `020800040a000000` for `10.0.0.0/8`. It is read under cidr and inet. Its
/// arrays are `inet[]` (1041), read under the arrays of both.
pub fn network_is_an_inet()
    ensures types { HasType ⟦<IpNetwork as Type>⟧ (builtin 869) is_network }
    ensures arrays { HasArrayType ⟦<IpNetwork as PgHasArrayType>⟧ (builtin 1041) is_network_array }
    ensures written { IsWrittenAs ⟦<IpNetwork as Encode>⟧
        (λ v. with_hint (network_hint (network_of v)) (writes (network_image (network_of v)))) }
    ensures read { IsReadAs ⟦<IpNetwork as Decode>⟧ (network_of) (without_memory parse_network) }
{}

/// An `IpAddr` is an inet of all its bits, as `022000040a000001` for `10.0.0.1`. It is read under cidr and inet. Its
/// arrays are `inet[]`, read under the arrays of both.
pub fn address_is_an_inet()
    ensures types { HasType ⟦<IpAddr as Type>⟧ (builtin 869) is_network }
    ensures arrays { HasArrayType ⟦<IpAddr as PgHasArrayType>⟧ (builtin 1041) is_network_array }
    ensures written { IsWrittenAs ⟦<IpAddr as Encode>⟧
        (λ v. with_hint (address_hint v) (writes (address_image v))) }
    ensures read { IsReadAs ⟦<IpAddr as Decode>⟧ (λ v. v) (without_memory parse_address) }
{}
