//! A network: an address and the length of its prefix.
ghost use Rattle.std.specs.Prelude.{◌≡◌, ◌≤◌};
ghost use Rattle.networks.specs.Address.{bits_after, width_of};

use crate::address::Bits;
use std::fmt;
use std::fmt::{Display, Formatter};
use std::net::IpAddr;

/// The addresses that begin with the bits of a prefix (RFC 4632, section 3.1; RFC 4291, section 2.3).
#[derive(Clone, Copy, Debug, PartialEq, Eq)]
pub struct Network {
    /// Its first address.
    pub address: IpAddr,
    /// The number of bits of the prefix: at most 32 for an IPv4 address, and 128 for an IPv6 address.
    pub prefix: u8,
    ghost within: { prefix ≤ width_of address },
    ghost first: { bits_after address prefix ≡ 0 },
}

impl Network {
    ghost use Rattle.networks.specs.Network.{is_in};

    /// Whether an address is in the network. An IPv4-mapped IPv6 address counts as its IPv4 address (RFC 4291, section
    /// 2.5.5.2). It is therefore in no network of IPv6 addresses.
    pub fn contains(&self, address: &IpAddr) -> bool
        ensures { result ≡ is_in self.now address.now }
    {
        let ours = Bits::of(&self.address);
        let theirs = Bits::of(address);
        ours.width == theirs.width && ours.first(self.prefix) == theirs.first(self.prefix)
    }
}

impl Display for Network {
    fn fmt<W: fmt::Write>(&self, f: &mut Formatter<W>) -> fmt::Result {
        write!(f, "{}/{}", self.address, self.prefix)
    }
}
