//! Where a connection comes from.

use std::net::IpAddr;

/// The last 64 bits of an address of 128.
const HOSTS: u128 = 0xffff_ffff_ffff_ffff;

/// Returns the number of an address, by which connections of one client are told from those of others. An address of IPv4 has the number of
/// the IPv6 address that it maps to. Of any other IPv6 address the last 64 bits don't count, since one client mostly has all of them.
pub fn address_of(from: IpAddr) -> u128 {
    match from.to_canonical() {
        IpAddr::V4(short) => short.to_ipv6_mapped().to_bits(),
        IpAddr::V6(long) => long.to_bits() & !HOSTS,
    }
}
