//! The extensions of certificates.

ghost use Rattle.std.specs.Prelude.{◌≡◌, ℕ, List};
ghost use Rattle.rpki_cert.specs.ExtensionTable.{identifier_of};
ghost use Rattle.rpki_cert.specs.Cert.{CertParts};
ghost use Rattle.rpki_cert.specs.View.{IsCertAt};
ghost use Rattle.rpki_cert.specs.KnownView.{AreKnown};
ghost use Rattle.rpki_c.specs.Certificate.{known_number, usage_number, policy_number, IsIdentifierOf, IsFoundAs};
ghost use Rattle.rpki_c.specs.Certificate.{HasExtensions, AreExtensionsRead};

use crate::known_cert::known_cert;
use crate::span::Span;
use rpki::crypto::KeyIdentifier;
use rpki_cert::{CertView, ExtensionKind, KeyUsage, KnownPart, KnownView, Overclaim};

/// An extension of a certificate, or that there is none.
#[repr(C)]
#[derive(Clone, Copy)]
pub struct KnownExtension<'a> {
    /// The octets of its OCTET STRING; none where the extension isn't there.
    pub octets: Span<'a>,
    /// Whether the extension is there.
    pub is_there: bool,
    /// Whether the extension is critical; false where it isn't there.
    pub critical: bool,
}

/// The extensions of a certificate.
#[repr(C)]
#[derive(Clone, Copy)]
pub struct KnownExtensions<'a> {
    /// The basic constraints (RFC 6487 4.8.1).
    pub basic_constraints: KnownExtension<'a>,
    /// The subject key identifier (RFC 6487 4.8.2).
    pub subject_key_identifier: KnownExtension<'a>,
    /// The authority key identifier (RFC 6487 4.8.3).
    pub authority_key_identifier: KnownExtension<'a>,
    /// The key usage (RFC 6487 4.8.4).
    pub key_usage: KnownExtension<'a>,
    /// The extended key usage (RFC 6487 4.8.5, RFC 8209 3.1.3.2).
    pub extended_key_usage: KnownExtension<'a>,
    /// The CRL distribution points (RFC 6487 4.8.6).
    pub crl_distribution_points: KnownExtension<'a>,
    /// The authority information access (RFC 6487 4.8.7).
    pub authority_info_access: KnownExtension<'a>,
    /// The subject information access (RFC 6487 4.8.8).
    pub subject_info_access: KnownExtension<'a>,
    /// The certificate policies (RFC 6487 4.8.9).
    pub certificate_policies: KnownExtension<'a>,
    /// The IP resources (RFC 6487 4.8.10).
    pub ip_resources: KnownExtension<'a>,
    /// The IP resources with validation reconsidered (RFC 8360 4.2.2.1).
    pub ip_resources_v2: KnownExtension<'a>,
    /// The AS resources (RFC 6487 4.8.11).
    pub as_resources: KnownExtension<'a>,
    /// The AS resources with validation reconsidered (RFC 8360 4.2.2.3).
    pub as_resources_v2: KnownExtension<'a>,
    /// The subject key identifier; zeros where it isn't there.
    pub subject_key: [u8; 20],
    /// The authority key identifier; zeros where it isn't there.
    pub authority_key: [u8; 20],
    /// Whether the subject is a certification authority, by the basic constraints.
    pub is_ca: bool,
    /// What the subject's key may be used for: 1 to sign certificates and revocation lists, 2 to sign objects, 0 where
    /// there is no key usage.
    pub usage: u8,
    /// What the policy says of resources that the issuer's certificate hasn't: 1 that the certificate is rejected, 2
    /// that the others remain, 0 where there is no policy.
    pub policy: u8,
}

/// How a malformed extension is passed.
pub(crate) fn known_number(part: KnownPart) -> u8
    ensures { result ≡ known_number part }
{
    match part {
        KnownPart::BasicConstraints => 80,
        KnownPart::SubjectKeyIdentifier => 81,
        KnownPart::AuthorityKeyIdentifier => 82,
        KnownPart::KeyUsage => 83,
        KnownPart::CertificatePolicies => 84,
    }
}

/// How the use of a key is passed.
fn usage_number(usage: Option<KeyUsage>) -> u8
    ensures { result ≡ usage_number usage }
{
    match usage {
        None => 0,
        Some(KeyUsage::Ca) => 1,
        Some(KeyUsage::Ee) => 2,
    }
}

/// How a policy is passed.
fn policy_number(policy: Option<Overclaim>) -> u8
    ensures { result ≡ policy_number policy }
{
    match policy {
        None => 0,
        Some(Overclaim::Refuse) => 1,
        Some(Overclaim::Trim) => 2,
    }
}

/// The octets of a key identifier; zeros where there is none.
fn octets_of(identifier: Option<KeyIdentifier>) -> [u8; 20]
    ensures { IsIdentifierOf identifier result }
{
    match identifier {
        Some(identifier) => <[u8; 20]>::from(identifier),
        None => [0; 20],
    }
}

/// The extension of this kind in a certificate.
pub(crate) fn extension_of<'a>(found: &CertView<'a>, kind: ExtensionKind) -> KnownExtension<'a>
    ensures { (s : List ℕ) (x : CertParts) → IsCertAt s found.now x → IsFoundAs x (identifier_of kind) result }
{
    match found.tbs.named.keyed.extensions.find(kind) {
        Some(extension) => KnownExtension {
            octets: Span::of(extension.octets()),
            is_there: true,
            critical: extension.critical(),
        },
        None => KnownExtension {
            octets: Span::of(&[]),
            is_there: false,
            critical: false,
        },
    }
}

/// The extensions of the certificate that the octets are, which say this.
pub(crate) fn extensions_of<'a>(
    octets: &'a [u8],
    found: &CertView<'a>,
    known: KnownView,
) -> KnownExtensions<'a>
    requires { (x : CertParts) × IsCertAt octets.now found.now x × AreKnown x.tbs.extensions known }
    ensures { HasExtensions octets.now result }
{
    KnownExtensions {
        basic_constraints: extension_of(found, ExtensionKind::BasicConstraints),
        subject_key_identifier: extension_of(found, ExtensionKind::SubjectKeyIdentifier),
        authority_key_identifier: extension_of(found, ExtensionKind::AuthorityKeyIdentifier),
        key_usage: extension_of(found, ExtensionKind::KeyUsage),
        extended_key_usage: extension_of(found, ExtensionKind::ExtendedKeyUsage),
        crl_distribution_points: extension_of(found, ExtensionKind::CrlDistributionPoints),
        authority_info_access: extension_of(found, ExtensionKind::AuthorityInfoAccess),
        subject_info_access: extension_of(found, ExtensionKind::SubjectInfoAccess),
        certificate_policies: extension_of(found, ExtensionKind::CertificatePolicies),
        ip_resources: extension_of(found, ExtensionKind::IpResources),
        ip_resources_v2: extension_of(found, ExtensionKind::IpResourcesV2),
        as_resources: extension_of(found, ExtensionKind::AsResources),
        as_resources_v2: extension_of(found, ExtensionKind::AsResourcesV2),
        subject_key: octets_of(known.subject_key_identifier),
        authority_key: octets_of(known.authority_key_identifier),
        is_ca: known.ca,
        usage: usage_number(known.key_usage),
        policy: policy_number(known.overclaim),
    }
}

/// Reads a resource certificate, as `rpki_certificate` does, and says what its extensions are (RFC 6487 4.8), and
/// what the basic constraints, both key identifiers, the key usage and the certificate policies say.
///
/// The status is 0. It is 80 to 84 where one of these five is there, but malformed, or not as critical as it has to be:
/// the first of them. Else it is the number of the malformed part, as that of `rpki_certificate`. `out` is
/// unchanged where the status is not 0. Nothing is allocated.
#[unsafe(no_mangle)]
pub extern "C" fn rpki_certificate_extensions<'a>(
    octets: &'a [u8],
    out: &mut KnownExtensions<'a>,
) -> u8
    ensures { AreExtensionsRead octets.now result out.old out.new }
{
    match known_cert(octets) {
        Ok(found) => {
            *out = extensions_of(octets, &found.cert, found.known);
            0
        }
        Err(status) => status,
    }
}
