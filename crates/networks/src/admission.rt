//! Which connections are served.
ghost use Rattle.std.specs.Prelude.{◌≡◌};
ghost use Rattle.std.specs.List.{list_any};
ghost use Rattle.networks.specs.Admission.{is_admitted, is_named, needs_privileged};
ghost use Rattle.networks.specs.Network.{is_in};

use crate::address::is_loopback;
use crate::network::Network;
use std::net::{IpAddr, SocketAddr};

/// The first port that isn't privileged: any user of a system may have it.
const FIRST_FREE_PORT: u16 = 1024;

/// Whether an address is in one of the networks.
fn is_in_one(networks: &[Network], address: &IpAddr) -> bool
    ensures { result ≡ list_any (λ n. is_in n address.now) networks.now }
{
    networks.iter().any(|network| network.contains(address))
}

/// Whether an address is the machine's own, or is in one of the networks.
fn is_named(networks: &[Network], address: &IpAddr) -> bool
    ensures { result ≡ is_named networks.now address.now }
{
    is_loopback(address) || is_in_one(networks, address)
}

/// Whether a connection from this address and port is served. The address must be the machine's own or in one of the
/// networks. If the listener needs a privileged port (`privileged`), the port must be below 1024.
pub fn admits(networks: &[Network], privileged: bool, from: &SocketAddr) -> bool
    ensures { result ≡ is_admitted networks.now privileged from.now }
{
    is_named(networks, &from.ip()) && (!privileged || from.port() < FIRST_FREE_PORT)
}

/// Whether a listener on this address serves only privileged ports. It does if that is `wanted`. On an address that
/// isn't loopback it also does unless `any` port will do.
pub fn needs_privileged(address: &IpAddr, wanted: bool, any: bool) -> bool
    ensures { result ≡ needs_privileged address.now wanted any }
{
    wanted || (!is_loopback(address) && !any)
}
