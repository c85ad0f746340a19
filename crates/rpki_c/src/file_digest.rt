//! Files, by the digests that manifests have of them.

ghost use Rattle.std.specs.Prelude.{◌≡◌, ◌↔◌, IsTrue};
ghost use Rattle.sha2.specs.Sha256.{sha256};
ghost use Rattle.rpki_c.specs.FileDigest.{IsFileTold};

use crate::status::OTHER_DIGEST;
use rpki::crypto::Provider;
use rpki_digests::RsaProvider;

/// Whether the digest of the octets by SHA-256 is this one.
pub(crate) fn has_digest(octets: &[u8], digest: &[u8; 32]) -> bool
    ensures { IsTrue result ↔ (digest.now ≡ sha256 octets.now) }
{
    *digest == RsaProvider.sha256(octets)
}

/// Whether the octets are those of the file that a manifest lists with this digest: whether it is their digest by
/// SHA-256 (RFC 9286 6.5).
///
/// The status is 0, or `OTHER_DIGEST`. Nothing is allocated.
#[unsafe(no_mangle)]
pub extern "C" fn rpki_manifest_file_is(digest: &[u8; 32], octets: &[u8]) -> u8
    ensures { IsFileTold digest.now octets.now result }
{
    if has_digest(octets, digest) {
        0
    } else {
        OTHER_DIGEST
    }
}
