//! The extensions that certificates of the RPKI have: of each its identifier, and whether it is critical.

ghost use Rattle.std.specs.Prelude.{◌≡◌};
ghost use Rattle.rpki_issue.specs.RowNames.{identifier_of, is_critical};

use rpki::der::ConstOid;
use rpki::oid;

/// An extension that certificates of the RPKI have (RFC 6487 4.8, RFC 8209 3.1.3).
#[derive(Clone, Copy)]
pub enum Row {
    /// Basic constraints (RFC 6487 4.8.1).
    BasicConstraints,
    /// The identifier of the subject's key (RFC 6487 4.8.2).
    SubjectKeyIdentifier,
    /// The identifier of the issuer's key (RFC 6487 4.8.3).
    AuthorityKeyIdentifier,
    /// The use of the key (RFC 6487 4.8.4).
    KeyUsage,
    /// The purposes of the key (RFC 6487 4.8.5).
    ExtendedKeyUsage,
    /// Where the issuer's revocation list is (RFC 6487 4.8.6).
    CrlDistributionPoints,
    /// Where the issuer's certificate is (RFC 6487 4.8.7).
    AuthorityInfoAccess,
    /// Where the subject publishes, or the signed object is (RFC 6487 4.8.8).
    SubjectInfoAccess,
    /// The policy (RFC 6487 4.8.9).
    CertificatePolicies,
    /// Addresses (RFC 6487 4.8.10).
    IpAddrBlocks,
    /// Numbers of autonomous systems (RFC 6487 4.8.11).
    AutonomousSysIds,
}

impl Row {
    /// The identifier.
    pub(crate) fn identifier(self) -> ConstOid
        ensures { result.0.now ≡ identifier_of self }
    {
        match self {
            Row::BasicConstraints => oid::CE_BASIC_CONSTRAINTS,
            Row::SubjectKeyIdentifier => oid::CE_SUBJECT_KEY_IDENTIFIER,
            Row::AuthorityKeyIdentifier => oid::CE_AUTHORITY_KEY_IDENTIFIER,
            Row::KeyUsage => oid::CE_KEY_USAGE,
            Row::ExtendedKeyUsage => oid::CE_EXTENDED_KEY_USAGE,
            Row::CrlDistributionPoints => oid::CE_CRL_DISTRIBUTION_POINTS,
            Row::AuthorityInfoAccess => oid::PE_AUTHORITY_INFO_ACCESS,
            Row::SubjectInfoAccess => oid::PE_SUBJECT_INFO_ACCESS,
            Row::CertificatePolicies => oid::CE_CERTIFICATE_POLICIES,
            Row::IpAddrBlocks => oid::PE_IP_ADDR_BLOCK,
            Row::AutonomousSysIds => oid::PE_AUTONOMOUS_SYS_IDS,
        }
    }

    /// Whether certificates of the RPKI mark it as critical.
    pub(crate) fn critical(self) -> bool
        ensures { result ≡ is_critical self }
    {
        match self {
            Row::BasicConstraints | Row::KeyUsage | Row::CertificatePolicies => true,
            Row::IpAddrBlocks | Row::AutonomousSysIds => true,
            Row::SubjectKeyIdentifier | Row::AuthorityKeyIdentifier => false,
            Row::ExtendedKeyUsage | Row::CrlDistributionPoints => false,
            Row::AuthorityInfoAccess | Row::SubjectInfoAccess => false,
        }
    }
}
