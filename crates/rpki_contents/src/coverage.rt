//! Whether the prefixes of route origin attestations are within resources (RFC 9582 5).

ghost use Rattle.std.specs.Prelude.{◌≡◌, ◌≢◌, ◌↔◌, [], IsTrue, IfOk, IfErr};
ghost use Rattle.rpki_resources.specs.Address.{width};
ghost use Rattle.rpki_resources.specs.Blocks.{IsAmong, IsSubset};
ghost use Rattle.rpki_contents.specs.RoaAddress.{AreAddressesIn};
ghost use Rattle.rpki_contents.specs.Within.{AreWithin, blocks_of};

use crate::aspa::AsProviderAttestation;
use crate::roa::RouteOriginAttestation;
use crate::roa_address::RoaIpAddress;
use rpki_resources::{AddressFamily, AsBlocks, Block, Blocks, IpBlocks};
use std::alloc::{AllocError, Global};

/// The addresses of each prefix.
///
/// Returns `AllocError` if allocation fails, only where there is a prefix.
fn blocks_of(
    alloc: Global,
    family: AddressFamily,
    addresses: &[RoaIpAddress],
) -> Result<Vec<Block>, AllocError>
    requires { AreAddressesIn (width family) addresses.now }
    ensures blocks { IfOk result (λ v. v.items ≡ blocks_of (width family) addresses.now) }
    ensures memory { IfErr result (λ _. addresses.now ≢ []) }
{
    let mut blocks = Vec::new(alloc);
    let mut rest = addresses;
    'each: while let Some((first, following)) = rest.split_first() {
        blocks.push(first.prefix.prefix(family))?;
        rest = following;
    }
    Ok(blocks)
}

/// Whether each address of each prefix is in the set.
///
/// Returns `AllocError` if allocation fails, only where there is a prefix.
fn are_among(
    alloc: Global,
    family: AddressFamily,
    addresses: &[RoaIpAddress],
    resources: &IpBlocks,
) -> Result<bool, AllocError>
    requires { AreAddressesIn (width family) addresses.now }
    ensures answer { IfOk result (λ b. IsTrue b ↔ IsSubset (blocks_of (width family) addresses.now) resources.now) }
    ensures memory { IfErr result (λ _. addresses.now ≢ []) }
{
    let blocks = blocks_of(alloc, family, addresses)?;
    let numbers = Blocks::of(alloc, blocks.as_slice())?;
    Ok(resources.encompasses(&numbers))
}

impl RouteOriginAttestation {
    /// Whether each address of each prefix is one of the resources of its family, as those of the certificate that
    /// signs the attestation have to be (RFC 9582 5). It takes n log n steps for n prefixes, and one for each block of
    /// the resources.
    ///
    /// Returns `AllocError` if allocation fails.
    pub fn is_within(&self, alloc: Global, v4: &IpBlocks, v6: &IpBlocks) -> Result<bool, AllocError>
        ensures { IfOk result (λ b. IsTrue b ↔ AreWithin self.now v4.now v6.now) }
    {
        let is_v4 = are_among(alloc, AddressFamily::Ipv4, self.v4_addrs(), v4)?;
        let is_v6 = are_among(alloc, AddressFamily::Ipv6, self.v6_addrs(), v6)?;
        Ok(is_v4 && is_v6)
    }
}

impl AsProviderAttestation {
    /// Whether the customer is one of the AS numbers, as it has to be one of those of the certificate that signs the
    /// attestation. Allocates nothing.
    pub fn is_within(&self, numbers: &AsBlocks) -> bool
        ensures { IsTrue result ↔ IsAmong self.now.customer numbers.now }
    {
        numbers.contains(u128::from(self.customer_as()))
    }
}
