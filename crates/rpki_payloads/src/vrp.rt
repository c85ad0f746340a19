//! Validated ROA payloads (RFC 6811 2).

ghost use Rattle.std.specs.Prelude.{◌≡◌};
ghost use Rattle.rpki_payloads.specs.Vrp.{prefix_of};

use rpki_contents::RouteOrigin;
use rpki_resources::Prefix;
use std::net::IpAddr;

/// A prefix that an AS may announce (RFC 6811 2). In order IP version 4 is before IP version 6; then the address
/// decides, the length, the maximum length and the AS number.
#[derive(Clone, Copy, Debug, PartialEq, Eq, PartialOrd, Ord)]
pub struct Vrp {
    /// The lowest address of the prefix.
    pub addr: IpAddr,
    /// How many bits the addresses of the prefix share.
    pub len: u8,
    /// The maximum length, in bits.
    pub max_length: u8,
    /// The AS number.
    pub as_id: u32,
}

impl Vrp {
    /// The prefix.
    pub fn prefix(self) -> Prefix
        ensures { result ≡ prefix_of self }
    {
        Prefix {
            addr: self.addr,
            len: self.len,
        }
    }
}

impl From<RouteOrigin> for Vrp {
    ghost use Rattle.std.specs.Prelude.{◌≡◌};
    ghost use Rattle.rpki_payloads.specs.Vrp.{vrp_of};

    ghost from_gives = { λ o v. v ≡ vrp_of o };

    fn from(origin: RouteOrigin) -> Vrp {
        Vrp {
            addr: origin.address.prefix.addr,
            len: origin.address.prefix.len,
            max_length: origin.address.max_length,
            as_id: origin.as_id,
        }
    }
}
