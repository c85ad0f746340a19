//! Trust anchors, by the keys of their locators.

ghost use Rattle.std.specs.Prelude.{◌≡◌, ◌↔◌, IsTrue, ℕ, List};
ghost use Rattle.rpki_cert.specs.Cert.{CertParts};
ghost use Rattle.rpki_cert.specs.View.{IsCertAt};
ghost use Rattle.rpki_c.specs.Issued.{key_octets, IsAnchorRead};

use crate::issued::key_of;
use crate::known_cert::known_cert;
use crate::status::{OTHER_ANCHOR, OTHER_KEY};
use crate::verification::verified;
use rpki_cert::{CertView, is_identifier};

/// Whether these are the octets of the certificate's key.
pub(crate) fn has_key(found: &CertView<'_>, key: &[u8]) -> bool
    ensures { (s : List ℕ) (x : CertParts) (h : IsCertAt s found.now x)
        → IsTrue result ↔ (key.now ≡ key_octets x s h.spelled) }
{
    key == found.tbs.named.keyed.octets.octets
}

/// Reads a resource certificate, and says whether it is that of a trust anchor with this public key, a
/// SubjectPublicKeyInfo, which its locator has (RFC 8630 2.2, 3): whether its key has these octets; its subject key
/// identifier is that of the key (RFC 6487 4.8.2); and the key has signed it, by RSA with SHA-256. Its profile and its
/// period are not looked at.
///
/// The status is 0. Else it is, in this order: as of `rpki_certificate_extensions`; `OTHER_ANCHOR`; `OTHER_KEY`;
/// `KEY_NOT_ACCEPTED` or `BAD_SIGNATURE`, as of `rpki_verify`. Nothing is allocated.
#[unsafe(no_mangle)]
pub extern "C" fn rpki_anchor_verify(octets: &[u8], key: &[u8]) -> u8
    ensures { IsAnchorRead octets.now key.now result }
{
    let found = match known_cert(octets) {
        Ok(found) => found,
        Err(status) => return status,
    };
    if !has_key(&found.cert, key) {
        return OTHER_ANCHOR;
    }
    if !is_identifier(found.known.subject_key_identifier, key_of(&found.cert)) {
        return OTHER_KEY;
    }
    let cert = &found.cert;
    verified(
        &cert.tbs.named.keyed.key,
        cert.parts.signed.octets,
        cert.parts.signature.octets,
    )
}
