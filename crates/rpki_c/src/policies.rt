//! The policy that a certificate has, and the version of its resources.

ghost use Rattle.std.specs.Prelude.{◌≡◌, List, ℕ, IfOk, IfErr};
ghost use Rattle.rpki_cert.specs.Cert.{CertParts};
ghost use Rattle.rpki_cert.specs.View.{IsCertAt};
ghost use Rattle.rpki_cert.specs.RuleWords.{is_of_version};
ghost use Rattle.rpki_c.specs.Policy.{HasPolicy, HasNoPolicy};

use crate::certificate_kind::has;
use crate::known_cert::{KnownCert, known_cert};
use crate::status::{NO_POLICIES, OTHER_VERSION};
use rpki_cert::{CertView, ExtensionKind, Overclaim};

/// Whether no resources are there of the other version than the policy's (RFC 8360 4.2).
fn is_of_version(policy: Overclaim, cert: &CertView<'_>) -> bool
    ensures { (s : List ℕ) (x : CertParts) → IsCertAt s cert.now x
        → result ≡ is_of_version policy x.tbs.extensions }
{
    match policy {
        Overclaim::Refuse => {
            !has(cert, ExtensionKind::IpResourcesV2) && !has(cert, ExtensionKind::AsResourcesV2)
        }
        Overclaim::Trim => {
            !has(cert, ExtensionKind::IpResources) && !has(cert, ExtensionKind::AsResources)
        }
    }
}

/// The certificate that the octets are, and its policy, of whose version all of its resources are, so that of each kind
/// one extension at most says which they are.
///
/// The error is, in this order: the status of a certificate that isn't read; the rule that a certificate has policies;
/// the rule that policy and resources are of one version (RFC 8360 4.2).
pub(crate) fn read_policy(octets: &[u8]) -> Result<(KnownCert<'_>, Overclaim), u8>
    ensures ok { IfOk result (λ read. (x : CertParts) × IsCertAt octets.now read.0.cert x
        × HasPolicy octets.now x read.1) }
    ensures err { IfErr result (λ status. HasNoPolicy octets.now status) }
{
    let found = match known_cert(octets) {
        Ok(found) => found,
        Err(status) => return Err(status),
    };
    match found.known.overclaim {
        Some(policy) => {
            if !is_of_version(policy, &found.cert) {
                return Err(OTHER_VERSION);
            }
            Ok((found, policy))
        }
        None => Err(NO_POLICIES),
    }
}
