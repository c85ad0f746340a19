//! Address families.

ghost use Rattle.std.specs.Prelude.{◌≡◌};
ghost use Rattle.rpki_resources.specs.Address.{width};

/// A family of addresses (RFC 3779 2.2.3.3). The octets that name it are those of its AFI; the RPKI has no SAFI.
#[derive(Clone, Copy, Debug, PartialEq, Eq)]
pub enum AddressFamily {
    /// IP version 4: addresses of 32 bits.
    Ipv4,
    /// IP version 6: addresses of 128 bits.
    Ipv6,
}

impl AddressFamily {
    /// How many bits an address has.
    pub fn width(self) -> u8
        ensures { result ≡ width self }
    {
        match self {
            AddressFamily::Ipv4 => 32,
            AddressFamily::Ipv6 => 128,
        }
    }
}
