//! The resources that a certificate has, down a path of authorities (RFC 6487 7.2, RFC 8360 4.2.4).

use rpki_resources::Blocks;

/// Resources of the three kinds, each a set of numbers. Two are equal where each of the three sets is.
#[derive(Debug, Drop, PartialEq, Eq)]
pub struct ResourceSet {
    /// Addresses of IP version 4.
    pub ipv4: Blocks,
    /// Addresses of IP version 6.
    pub ipv6: Blocks,
    /// Numbers of autonomous systems.
    pub asn: Blocks,
}
