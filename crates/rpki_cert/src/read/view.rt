//! Certificates, read in place (RFC 5280 4.1).

ghost use Rattle.std.specs.Prelude.{◌≡◌, ◌<◌, ◌++◌, IfOk, IfErr, is_some, length};
ghost use Rattle.rpki_der.specs.Cursor.{left};
ghost use Rattle.rpki_cert.specs.Cert.{CertParts, SpellsCert};
ghost use Rattle.rpki_x509.specs.InPlace.{GivesAll};
ghost use Rattle.rpki_cert.specs.View.{most_extensions};
ghost use Rattle.rpki_x509.specs.Signed.{SpellsUsed, IsSignatureFault};
ghost use Rattle.rpki_x509.specs.SignedParts.{ArePartsBehind};
ghost use Rattle.rpki_cert.specs.View.{of_signed, AreContentsOf, AreContentsWrong, IsWrongBehind, IsCertAt};
ghost use Rattle.rpki_cert.specs.View.{IsCertError};

use crate::read::cert_error::CertError;
use crate::read::cert_part::CertPart;
use crate::read::fields::{TbsView, read_tbs};
use rpki::der::{Constructed, DecodeError, Tag};
use rpki_x509::{
    Parts, SignedError, SignedPart, inside, is_same, is_value, read_parts, take_headed, value_fault,
};
use std::alloc::Global;

/// A certificate whose parts are borrowed from the octets that it was read from.
#[derive(Drop)]
pub struct CertView<'a> {
    /// The parts of signed data.
    pub parts: Parts<'a>,
    /// What is signed; its sections are in the octets that are signed.
    pub tbs: TbsView<'a>,
}

/// The error of a certificate whose signed data has this one.
fn of_signed(wrong: SignedError) -> CertError
    ensures { result ≡ of_signed wrong }
{
    let part = match wrong.part {
        SignedPart::Algorithm => CertPart::Algorithm,
        SignedPart::Signature => CertPart::Signature,
    };
    CertError {
        part,
        error: wrong.error,
    }
}

/// The certificate of what is signed and of what follows it, which is all of these contents. Whether what is signed is
/// a value with everything nested in it is seen by its fields; where one of them is wrong, it isn't known.
fn read_behind<'a>(
    room: Option<Global>,
    signed: &'a [u8],
    behind: Constructed<'a>,
) -> Result<CertView<'a>, CertError>
    ensures ok { IfOk result (λ v. AreContentsOf (signed.now ++ left behind.entry) v) }
    ensures err { IfErr result (λ q. IsWrongBehind (is_some room) signed.now (left behind.entry) q) }
{
    let parts = match read_parts(signed, behind) {
        Ok(parts) => parts,
        Err(wrong) => return Err(of_signed(wrong)),
    };
    match read_tbs(room, Constructed::from_slice(signed)) {
        Ok(tbs) => {
            if !is_same(tbs.signature, parts.signature_algorithm) {
                return Err(CertError {
                    part: CertPart::SameAlgorithm,
                    error: DecodeError::content("signature algorithms differ"),
                });
            }
            Ok(CertView { parts, tbs })
        }
        Err(wrong) => Err(wrong),
    }
}

/// The certificate whose contents these are. Where there is an allocator, it may have any number of extensions.
///
/// The error is of the malformed part: of the signed data the leftmost; then of what is signed the leftmost; then
/// that both algorithm identifiers are the same.
pub fn read_contents<'a>(
    room: Option<Global>,
    contents: Constructed<'a>,
) -> Result<CertView<'a>, CertError>
    ensures ok { IfOk result (λ v. AreContentsOf (left contents.entry) v) }
    ensures err { IfErr result (λ q. AreContentsWrong (is_some room) (left contents.entry) q) }
{
    let mut behind = contents;
    let signed = match take_headed(&mut behind) {
        Some(signed) => signed,
        None => return Err(CertError {
            part: CertPart::Signed,
            error: value_fault(contents),
        }),
    };
    match read_behind(room, signed, behind) {
        Ok(found) => Ok(found),
        Err(wrong) => {
            if is_value(signed) {
                Err(wrong)
            } else {
                Err(CertError {
                    part: CertPart::Signed,
                    error: value_fault(contents),
                })
            }
        }
    }
}

impl<'a> CertView<'a> {
    /// A certificate, and nothing else, as [Cert::decode](crate::Cert::decode) reads it, of at most 64 extensions:
    /// these are compared with one another in place. Allocates nothing.
    ///
    /// The error is of the malformed part: that something follows the certificate; of the signed data the leftmost;
    /// then of what is signed the leftmost; then that both algorithm identifiers are the same.
    pub fn read(octets: &'a [u8]) -> Result<CertView<'a>, CertError>
        ensures ok { IfOk result (λ v. (x : CertParts) × IsCertAt octets.now v x) }
        ensures err { IfErr result (λ q. IsCertError octets.now q) }
        ensures none { IfErr result (λ _. (x : CertParts) → SpellsCert x octets.now
            → most_extensions < length x.tbs.extensions) }
    {
        match inside(Constructed::from_slice(octets), Tag::SEQUENCE) {
            Ok(contents) => read_contents(None, contents),
            Err(e) => Err(CertError {
                part: CertPart::Certificate,
                error: e,
            }),
        }
    }
}
