//! Certificates.

ghost use Rattle.std.specs.Prelude.{◌≡◌};
ghost use Rattle.rpki_cert.specs.Cert.{CertParts};
ghost use Rattle.rpki_cert.specs.View.{IsCertAt};
ghost use Rattle.rpki_c.specs.Certificate.{part_number, HasCertificate, IsCertificateRead, IsCertificateErrorRead};

use crate::keys::format_number;
use crate::span::Span;
use crate::times::{Period, moment_of};
use rpki::crypto::RpkiSignatureAlgorithm;
use rpki_cert::{CertPart, CertView};

/// The parts of a certificate.
#[repr(C)]
#[derive(Clone, Copy)]
pub struct CertificateParts<'a> {
    /// What is signed, a SEQUENCE, with its header.
    pub data: Span<'a>,
    /// The algorithm identifier, with its header.
    pub algorithm: Span<'a>,
    /// The octets of the signature.
    pub signature: Span<'a>,
    /// The issuer, a name, with its header.
    pub issuer: Span<'a>,
    /// The subject, a name, with its header.
    pub subject: Span<'a>,
    /// The subject's key, with its header.
    pub public_key: Span<'a>,
    /// The extensions, in sequence.
    pub extensions: Span<'a>,
    /// The period of validity.
    pub validity: Period,
    /// The serial number, with zeros in front.
    pub serial_number: [u8; 20],
    /// The format of the key: 0 for RSA, 1 for a point on the curve P-256.
    pub key_format: u8,
    /// How many bits of the key's last octet are unused.
    pub key_unused: u8,
    /// Whether the algorithm has parameters, a NULL.
    pub has_parameters: bool,
}

/// How a malformed part is passed.
pub(crate) fn part_number(part: CertPart) -> u8
    ensures { result ≡ part_number part }
{
    match part {
        CertPart::Certificate => 64,
        CertPart::Signed => 65,
        CertPart::Algorithm => 66,
        CertPart::Signature => 67,
        CertPart::Tbs => 68,
        CertPart::Version => 69,
        CertPart::SerialNumber => 70,
        CertPart::TbsAlgorithm => 71,
        CertPart::Issuer => 72,
        CertPart::Validity => 73,
        CertPart::Subject => 74,
        CertPart::PublicKey => 75,
        CertPart::Extensions => 76,
        CertPart::ExtensionCount => 77,
        CertPart::ExtensionIdentifiers => 78,
        CertPart::SameAlgorithm => 79,
    }
}

/// The parts of the certificate that the octets are.
pub(crate) fn parts_of<'a>(octets: &'a [u8], found: &CertView<'a>) -> CertificateParts<'a>
    requires { (x : CertParts) × IsCertAt octets.now found.now x }
    ensures { HasCertificate octets.now result }
{
    let named = &found.tbs.named;
    CertificateParts {
        data: Span::of(found.parts.signed.octets),
        algorithm: Span::of(found.parts.algorithm.octets),
        signature: Span::of(found.parts.signature.octets),
        issuer: Span::of(named.issuer.octets),
        subject: Span::of(named.subject.octets),
        public_key: Span::of(named.keyed.octets.octets),
        extensions: Span::of(named.keyed.extensions.octets()),
        validity: Period {
            not_before: moment_of(named.validity.not_before()),
            not_after: moment_of(named.validity.not_after()),
        },
        serial_number: found.tbs.serial_number.into_array(),
        key_format: format_number(named.keyed.key.algorithm()),
        key_unused: named.keyed.key.unused(),
        has_parameters: found.parts.signature_algorithm.has_parameters(),
    }
}

/// Reads a resource certificate (RFC 5280 4.1, RFC 6487 4), and says what its parts are.
///
/// The status is 0. Else it is the number of the malformed part, 64 to 79, and `out` is unchanged: of the signed
/// data the leftmost; then of what is signed the leftmost; then that both algorithm identifiers are the same. More than
/// 64 extensions are rejected by a status of their own. Nothing is allocated.
#[unsafe(no_mangle)]
pub extern "C" fn rpki_certificate<'a>(octets: &'a [u8], out: &mut CertificateParts<'a>) -> u8
    ensures { IsCertificateRead octets.now result out.old out.new }
{
    match CertView::read(octets) {
        Ok(found) => {
            *out = parts_of(octets, &found);
            0
        }
        Err(wrong) => part_number(wrong.part),
    }
}

/// Reads a resource certificate, as [rpki_certificate] does, and says what is wrong with the malformed part.
///
/// The status is that of [rpki_certificate]. Where it is a part, 64 to 79, `error` is the number of the error, that of
/// `DecodeError`, as a reader of that part returns it; where it is 0, `error` is unchanged. Nothing is allocated.
#[unsafe(no_mangle)]
pub extern "C" fn rpki_certificate_error(octets: &[u8], error: &mut u8) -> u8
    ensures { IsCertificateErrorRead octets.now result error.old error.new }
{
    match CertView::read(octets) {
        Ok(_) => 0,
        Err(wrong) => {
            *error = wrong.error.number();
            part_number(wrong.part)
        }
    }
}
