//! The extensions of certificates of the RPKI (RFC 6487 4.8, RFC 8360 4.2).

ghost use Rattle.std.specs.Prelude.{◌≡◌, ◌≢◌, ◌<◌, ◌||◌, ℕ, List, not, IfSome, IfNone};
ghost use Rattle.rpki_cert.specs.declared.extension.kind.ExtensionKind.{ExtensionKind};
ghost use Rattle.rpki_cert.specs.Known.{is_known};
ghost use Rattle.rpki_cert.specs.ExtensionTable.{identifier_of, slot_of, ending, IsSlot};

use rpki::der::{ConstOid, Oid};
use rpki::oid;

/// An extension of certificates of the RPKI.
#[derive(Clone, Copy, Debug, PartialEq, Eq)]
pub enum ExtensionKind {
    /// The subject key identifier (RFC 6487 4.8.2).
    SubjectKeyIdentifier,
    /// The key usage (RFC 6487 4.8.4).
    KeyUsage,
    /// The basic constraints (RFC 6487 4.8.1).
    BasicConstraints,
    /// The CRL distribution points (RFC 6487 4.8.6).
    CrlDistributionPoints,
    /// The certificate policies (RFC 6487 4.8.9).
    CertificatePolicies,
    /// The authority key identifier (RFC 6487 4.8.3).
    AuthorityKeyIdentifier,
    /// The extended key usage (RFC 6487 4.8.5, RFC 8209 3.1.3.2).
    ExtendedKeyUsage,
    /// The authority information access (RFC 6487 4.8.7).
    AuthorityInfoAccess,
    /// The IP resources (RFC 6487 4.8.10).
    IpResources,
    /// The AS resources (RFC 6487 4.8.11).
    AsResources,
    /// The subject information access (RFC 6487 4.8.8).
    SubjectInfoAccess,
    /// The IP resources with validation reconsidered (RFC 8360 4.2.2.1).
    IpResourcesV2,
    /// The AS resources with validation reconsidered (RFC 8360 4.2.2.3).
    AsResourcesV2,
}

/// The slot of every other extension.
pub const OTHER: usize = 13;

impl ExtensionKind {
    /// The identifier.
    pub fn id(self) -> ConstOid
        ensures { result.0.now ≡ identifier_of self }
    {
        match self {
            ExtensionKind::SubjectKeyIdentifier => oid::CE_SUBJECT_KEY_IDENTIFIER,
            ExtensionKind::KeyUsage => oid::CE_KEY_USAGE,
            ExtensionKind::BasicConstraints => oid::CE_BASIC_CONSTRAINTS,
            ExtensionKind::CrlDistributionPoints => oid::CE_CRL_DISTRIBUTION_POINTS,
            ExtensionKind::CertificatePolicies => oid::CE_CERTIFICATE_POLICIES,
            ExtensionKind::AuthorityKeyIdentifier => oid::CE_AUTHORITY_KEY_IDENTIFIER,
            ExtensionKind::ExtendedKeyUsage => oid::CE_EXTENDED_KEY_USAGE,
            ExtensionKind::AuthorityInfoAccess => oid::PE_AUTHORITY_INFO_ACCESS,
            ExtensionKind::IpResources => oid::PE_IP_ADDR_BLOCK,
            ExtensionKind::AsResources => oid::PE_AUTONOMOUS_SYS_IDS,
            ExtensionKind::SubjectInfoAccess => oid::PE_SUBJECT_INFO_ACCESS,
            ExtensionKind::IpResourcesV2 => oid::PE_IP_ADDR_BLOCK_V2,
            ExtensionKind::AsResourcesV2 => oid::PE_AUTONOMOUS_SYS_IDS_V2,
        }
    }

    /// Its slot in a table.
    pub fn slot(self) -> usize
        ensures slot { result ≡ slot_of self }
        ensures few { result < 13 }
    {
        match self {
            ExtensionKind::SubjectKeyIdentifier => 0,
            ExtensionKind::KeyUsage => 1,
            ExtensionKind::BasicConstraints => 2,
            ExtensionKind::CrlDistributionPoints => 3,
            ExtensionKind::CertificatePolicies => 4,
            ExtensionKind::AuthorityKeyIdentifier => 5,
            ExtensionKind::ExtendedKeyUsage => 6,
            ExtensionKind::AuthorityInfoAccess => 7,
            ExtensionKind::IpResources => 8,
            ExtensionKind::AsResources => 9,
            ExtensionKind::SubjectInfoAccess => 10,
            ExtensionKind::IpResourcesV2 => 11,
            ExtensionKind::AsResourcesV2 => 12,
        }
    }
}

/// The last octet of an identifier.
pub(crate) fn ending(id: &[u8]) -> u8
    ensures { result ≡ ending id.now }
{
    if id.is_empty() { 0 } else { id[id.len() - 1] }
}

/// The extension whose identifier ends with this octet; no two do.
fn ending_with(last: u8) -> Option<ExtensionKind>
    ensures some { IfSome result (λ k. last ≡ ending (identifier_of k)) }
    ensures none { IfNone result ((k : ExtensionKind) → last ≢ ending (identifier_of k)) }
{
    match last {
        14 => Some(ExtensionKind::SubjectKeyIdentifier),
        15 => Some(ExtensionKind::KeyUsage),
        19 => Some(ExtensionKind::BasicConstraints),
        31 => Some(ExtensionKind::CrlDistributionPoints),
        32 => Some(ExtensionKind::CertificatePolicies),
        35 => Some(ExtensionKind::AuthorityKeyIdentifier),
        37 => Some(ExtensionKind::ExtendedKeyUsage),
        1 => Some(ExtensionKind::AuthorityInfoAccess),
        7 => Some(ExtensionKind::IpResources),
        8 => Some(ExtensionKind::AsResources),
        11 => Some(ExtensionKind::SubjectInfoAccess),
        28 => Some(ExtensionKind::IpResourcesV2),
        29 => Some(ExtensionKind::AsResourcesV2),
        _ => None,
    }
}

/// The extension of this identifier.
fn kind_of(id: Oid<&[u8]>) -> Option<ExtensionKind>
    ensures some { IfSome result (λ k. id.entry.0.now ≡ identifier_of k) }
    ensures none { IfNone result ((k : ExtensionKind) → id.entry.0.now ≢ identifier_of k) }
{
    match ending_with(ending(id.0)) {
        Some(kind) => {
            if id == kind.id() {
                return Some(kind);
            }
            None
        }
        None => None,
    }
}

/// The slot of the extension of this identifier in a table.
pub fn slot_of(id: Oid<&[u8]>) -> usize
    ensures slot { IsSlot id.entry.0.now result }
    ensures few { result < 14 }
{
    match kind_of(id) {
        Some(kind) => kind.slot(),
        None => OTHER,
    }
}

/// Whether an extension in this slot is known or not critical.
pub fn is_understood_in(critical: bool, slot: usize) -> bool
    ensures { (id : List ℕ) → IsSlot id slot → result ≡ (not critical || is_known id) }
{
    !critical || slot != OTHER
}

/// Whether an extension is known or not critical (RFC 6487 4.8, RFC 8360 4.2).
pub fn is_understood(critical: bool, id: Oid<&[u8]>) -> bool
    ensures { result ≡ (not critical || is_known id.entry.0.now) }
{
    is_understood_in(critical, slot_of(id))
}
