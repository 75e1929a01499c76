//! The addresses that may come to a listener.

use std::net::IpAddr;

/// The addresses that may come to a listener.
#[derive(Clone, Copy)]
pub struct Admission<'a> {
    /// The most connections of one address at a time. 0 stands for any number.
    pub per_address: usize,
    /// The only addresses whose connections are taken, where not all are.
    pub known: Option<&'a [IpAddr]>,
}

impl<'a> Admission<'a> {
    /// Returns whether connections of an address are taken. An address of IPv4 is the same as the IPv6 address that it maps to.
    pub fn is_known(&self, from: IpAddr) -> bool {
        match self.known {
            Some(known) => {
                let from = from.to_canonical();
                known.iter().any(|one| one.to_canonical() == from)
            }
            None => true,
        }
    }
}
