//! The bits of an address.
ghost use Rattle.std.specs.Prelude.{◌≡◌, ◌≤◌, ◌-◌, ◌/◌, ◌%◌, ◌^◌};
ghost use Rattle.std.specs.Net.Addr.{ipv4_bits, ipv6_bits};
ghost use Rattle.networks.specs.Address.{bits_of, is_loopback, width_of};

use std::net::{IpAddr, Ipv4Addr, Ipv6Addr};

/// The number of bits of an IPv4 address (RFC 791, section 3.2).
const V4_BITS: u8 = 32;

/// The number of bits of an IPv6 address (RFC 4291, section 2).
const V6_BITS: u8 = 128;

/// The first octet of an IPv4 loopback address.
const LOOPBACK: u128 = 127;

/// The bits of an address as a number, the first bit the highest, and their count. An IPv4-mapped IPv6 address counts
/// as its IPv4 address.
#[derive(Clone, Copy, Debug)]
pub(crate) struct Bits {
    pub(crate) width: u8,
    value: u128,
    ghost short: { width ≤ 128 },
}

impl Bits {
    /// The bits of an IPv4 address.
    fn of_v4(address: Ipv4Addr) -> Bits
        ensures { (result.width ≡ 32) × (result.value ≡ ipv4_bits address) }
    {
        Bits {
            width: V4_BITS,
            value: u128::from(address.to_bits()),
        }
    }

    /// The bits of an IPv6 address, also if it is IPv4-mapped.
    fn of_v6(address: Ipv6Addr) -> Bits
        ensures { (result.width ≡ 128) × (result.value ≡ ipv6_bits address) }
    {
        Bits {
            width: V6_BITS,
            value: address.to_bits(),
        }
    }

    /// The bits of an address.
    pub(crate) fn of(address: &IpAddr) -> Bits
        ensures width { result.width ≡ width_of address.now }
        ensures value { result.value ≡ bits_of address.now }
    {
        match address {
            IpAddr::V4(v4) => Bits::of_v4(*v4),
            IpAddr::V6(v6) => match v6.to_ipv4_mapped() {
                Some(v4) => Bits::of_v4(v4),
                None => Bits::of_v6(*v6),
            },
        }
    }

    /// The number of bits after the first n.
    fn rest(self, n: u8) -> u32
        ensures { result ≡ self.width - n }
    {
        u32::from(self.width.saturating_sub(n))
    }

    /// The first n bits, as a number.
    pub(crate) fn first(self, n: u8) -> u128
        ensures { result ≡ self.value / 2 ^ (self.width - n) }
    {
        self.value.checked_shr(self.rest(n)).unwrap_or(0)
    }

    /// The bits after the first n, as a number.
    pub(crate) fn after(self, n: u8) -> u128
        ensures { result ≡ self.value % 2 ^ (self.width - n) }
    {
        match 1u128.checked_shl(self.rest(n)) {
            Some(size) => self.value % size,
            None => self.value,
        }
    }
}

/// Whether an address is of the machine itself: 127.0.0.0/8 (RFC 1122, section 3.2.1.3) or ::1 (RFC 4291, section
/// 2.5.3). An IPv4-mapped IPv6 address counts as its IPv4 address.
pub fn is_loopback(address: &IpAddr) -> bool
    ensures { result ≡ is_loopback address.now }
{
    let bits = Bits::of(address);
    if bits.width == V4_BITS {
        bits.first(8) == LOOPBACK
    } else {
        bits.value == 1
    }
}
