//! What kinds of resources the certificates of attestations list.

ghost use Rattle.std.specs.Prelude.{◌≡◌, ◌↔◌, IsTrue};
ghost use Rattle.rpki_cert.specs.ExtensionTable.{OfListed};
ghost use Rattle.rpki_cert.specs.ResourceExtensions.{are_own_addresses, are_own_numbers};
ghost use Rattle.rpki_valid.specs.ObjectResources.{HasAddresses, HasNumbers, AreOwnAddresses, AreOwnNumbers};
ghost use Rattle.rpki_c.specs.SignerResources.{ListsAddresses, ListsNumbers, IsRoaSigner, IsAspaSigner};

use crate::policies::read_policy;
use crate::status::OTHER_KINDS;
use rpki_cert::{Keyed, are_own_addresses, are_own_numbers};

/// Whether an extension of addresses is there.
fn has_addresses(keyed: &Keyed<'_>) -> bool
    ensures { OfListed keyed.now.extensions (λ xs. IsTrue result ↔ HasAddresses xs) }
{
    match keyed.ip_resources() {
        Ok(found) => found.is_some(),
        Err(_) => true,
    }
}

/// Whether an extension of numbers is there.
fn has_numbers(keyed: &Keyed<'_>) -> bool
    ensures { OfListed keyed.now.extensions (λ xs. IsTrue result ↔ HasNumbers xs) }
{
    match keyed.as_resources() {
        Ok(found) => found.is_some(),
        Err(_) => true,
    }
}

/// Whether the addresses are in canonical form, and are not those of the issuer.
fn has_own_addresses(keyed: &Keyed<'_>) -> bool
    ensures { OfListed keyed.now.extensions (λ xs. IsTrue result ↔ AreOwnAddresses xs) }
{
    match keyed.ip_resources() {
        Ok(found) => are_own_addresses(found),
        Err(_) => false,
    }
}

/// Whether the numbers are in canonical form, and are not those of the issuer.
fn has_own_numbers(keyed: &Keyed<'_>) -> bool
    ensures { OfListed keyed.now.extensions (λ xs. IsTrue result ↔ AreOwnNumbers xs) }
{
    match keyed.as_resources() {
        Ok(found) => are_own_numbers(found),
        Err(_) => false,
    }
}

/// Whether addresses are listed, and no numbers are named.
pub(crate) fn lists_addresses(keyed: &Keyed<'_>) -> bool
    ensures { OfListed keyed.now.extensions (λ xs. IsTrue result ↔ ListsAddresses xs) }
{
    has_addresses(keyed) && has_own_addresses(keyed) && !has_numbers(keyed)
}

/// Whether numbers are listed, and no addresses are named.
pub(crate) fn lists_numbers(keyed: &Keyed<'_>) -> bool
    ensures { OfListed keyed.now.extensions (λ xs. IsTrue result ↔ ListsNumbers xs) }
{
    has_numbers(keyed) && has_own_numbers(keyed) && !has_addresses(keyed)
}

/// Reads a resource certificate, and says whether it names addresses, none of which are its issuer's, and no AS
/// numbers, as one has to that signs a route origin attestation (RFC 9582 5).
///
/// The status is 0. Else it is, in this order: as of `rpki_certificate_extensions`; the rule that a certificate has
/// policies; the rule that policy and resources are of one version (RFC 8360 4.2); `OTHER_KINDS`, also where the
/// extension of addresses is not critical, or not in canonical form. Nothing is allocated.
#[unsafe(no_mangle)]
pub extern "C" fn rpki_roa_signer(octets: &[u8]) -> u8
    ensures { IsRoaSigner octets.now result }
{
    match read_policy(octets) {
        Ok(read) => {
            if lists_addresses(&read.0.cert.tbs.named.keyed) {
                0
            } else {
                OTHER_KINDS
            }
        }
        Err(status) => status,
    }
}

/// As [rpki_roa_signer], of AS numbers that are not its issuer's, and no addresses, as one has to that signs an
/// attestation of providers (draft-ietf-sidrops-aspa-profile 4).
#[unsafe(no_mangle)]
pub extern "C" fn rpki_aspa_signer(octets: &[u8]) -> u8
    ensures { IsAspaSigner octets.now result }
{
    match read_policy(octets) {
        Ok(read) => {
            if lists_numbers(&read.0.cert.tbs.named.keyed) {
                0
            } else {
                OTHER_KINDS
            }
        }
        Err(status) => status,
    }
}
