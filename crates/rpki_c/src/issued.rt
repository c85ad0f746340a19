//! Certificates of which one may have issued the other.

ghost use Rattle.std.specs.Prelude.{◌≡◌, ◌↔◌, ℕ, List, IsTrue};
ghost use Rattle.std.specs.Prelude.{Option};
ghost use Rattle.sha1.specs.Sha1.{sha1};
ghost use Rattle.rpki_cert.specs.Cert.{CertParts};
ghost use Rattle.rpki_cert.specs.View.{IsCertAt};
ghost use Rattle.rpki_c.specs.Certificate.{IsKnownAt};
ghost use Rattle.rpki_c.specs.Issued.{TestsNames, IsIssuedRead, IsIssuerRead};

use crate::known_cert::{KnownCert, known_cert};
use crate::status::{NO_ISSUER, OTHER_AUTHORITY, OTHER_ISSUER};
use rpki::crypto::KeyIdentifier;
use rpki_cert::{CertView, KnownView, is_identifier};
use rpki_digests::Digests;

/// Whether the issuer of the one has the name of the other's subject, octet for octet.
pub(crate) fn is_named(found: &CertView<'_>, issuer: &CertView<'_>) -> bool
    ensures { (s t : List ℕ) (x y : CertParts) → IsCertAt s found.now x → IsCertAt t issuer.now y
        → IsTrue result ↔ (x.tbs.issuer ≡ y.tbs.subject) }
{
    found.tbs.named.issuer.octets == issuer.tbs.named.subject.octets
}

/// The identifier of the certificate's key: the SHA-1 digest of its bits (RFC 6487 4.8.2).
pub(crate) fn key_of(issuer: &CertView<'_>) -> KeyIdentifier
    ensures { (t : List ℕ) (y : CertParts) → IsCertAt t issuer.now y → result ≡ sha1 y.tbs.key.bits.octets }
{
    issuer.tbs.named.keyed.key.key_identifier(&Digests)
}

/// A certificate that another may have issued, and the other.
#[derive(Drop)]
pub(crate) struct IssuedCert<'a> {
    /// The first.
    pub(crate) subject: KnownCert<'a>,
    /// The other.
    pub(crate) issuer: CertView<'a>,
}

/// Tests that the second may have issued the first, whose extensions say this, by their names and keys. The error is
/// `OTHER_ISSUER` or `OTHER_AUTHORITY`.
pub(crate) fn test_names(
    subject: &CertView<'_>,
    known: &KnownView,
    issuer: &CertView<'_>,
) -> Result<(), u8>
    ensures { (s t : List ℕ) (x y : CertParts) → IsCertAt s subject.now x → IsCertAt t issuer.now y
        → TestsNames x y known.now result }
{
    if !is_named(subject, issuer) {
        return Err(OTHER_ISSUER);
    }
    if !is_identifier(known.authority_key_identifier, key_of(issuer)) {
        return Err(OTHER_AUTHORITY);
    }
    Ok(())
}

/// Both certificates, where the second may have issued the first. The error is as the status of
/// [rpki_certificate_issued_by].
pub(crate) fn read_issued<'a>(octets: &'a [u8], issuer: &'a [u8]) -> Result<IssuedCert<'a>, u8>
    ensures { IsIssuedRead octets.now issuer.now result }
{
    let subject = match known_cert(octets) {
        Ok(subject) => subject,
        Err(status) => return Err(status),
    };
    let authority = match CertView::read(issuer) {
        Ok(authority) => authority,
        Err(_) => return Err(NO_ISSUER),
    };
    match test_names(&subject.cert, &subject.known, &authority) {
        Ok(()) => Ok(IssuedCert {
            subject,
            issuer: authority,
        }),
        Err(status) => Err(status),
    }
}

/// Reads two resource certificates, and says whether the second may have issued the first (RFC 5280 6.1.3, RFC 6487
/// 4.8.3): whether the issuer of the first has the name of the second's subject, octet for octet, and the authority key
/// identifier of the first is that of the second's key. Whether that key has signed the first is not looked at.
///
/// The status is 0. Else it is, in this order: as of `rpki_certificate_extensions`, where the first is no certificate,
/// or one of its extensions is wrong; `NO_ISSUER`, where the second is none; `OTHER_ISSUER`; `OTHER_AUTHORITY`. Nothing
/// is allocated.
#[unsafe(no_mangle)]
pub extern "C" fn rpki_certificate_issued_by(octets: &[u8], issuer: &[u8]) -> u8
    ensures { IsIssuerRead octets.now issuer.now result }
{
    match read_issued(octets, issuer) {
        Ok(_) => 0,
        Err(status) => status,
    }
}
