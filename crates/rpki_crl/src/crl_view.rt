//! Revocation lists, read in place without memory (RFC 5280 5.1, RFC 6487 5).

ghost use Rattle.std.specs.Prelude.{◌≡◌, IfOk, IfErr};
ghost use Rattle.rpki_der.specs.Prelude.{left};
ghost use Rattle.rpki_crl.specs.Crl.{CrlParts};
ghost use Rattle.rpki_crl.specs.CrlView.{of_signed, IsCrlAt, IsCrlBehind, IsCrlError, IsWrongBehind};

use crate::crl_part::CrlPart;
use crate::list_view::{TbsCertListView, read_tbs};
use rpki::crypto::RpkiSignatureAlgorithm;
use rpki::der::{Constructed, DecodeError, Section, Tag};
use rpki_parse::Malformed;
use rpki_x509::{
    SignedError, SignedPart, inside, is_same, is_value, read_parts, take_headed, value_fault,
};

/// A revocation list whose parts are borrowed from the octets that it was read from.
#[derive(Clone, Copy)]
pub struct CrlView<'a> {
    /// The value that is signed.
    pub signed: Section<'a>,
    /// The algorithm.
    pub signature_algorithm: RpkiSignatureAlgorithm,
    /// The octets of the algorithm identifier.
    pub algorithm: Section<'a>,
    /// The octets of the signature.
    pub signature: Section<'a>,
    /// What is signed; its sections are in the octets that are signed.
    pub tbs: TbsCertListView<'a>,
}

/// The error of a list whose signed data has this one.
fn of_signed(wrong: SignedError) -> Malformed<CrlPart>
    ensures { result ≡ of_signed wrong }
{
    let part = match wrong.part {
        SignedPart::Algorithm => CrlPart::Algorithm,
        SignedPart::Signature => CrlPart::Signature,
    };
    Malformed {
        part,
        error: wrong.error,
    }
}

/// The list of what is signed and of what follows it, which is all of these contents. Whether what is signed is a value
/// with everything nested in it is seen by its fields; where one of them is wrong, it isn't known.
fn read_behind<'a>(
    signed: &'a [u8],
    behind: Constructed<'a>,
) -> Result<CrlView<'a>, Malformed<CrlPart>>
    ensures ok { IfOk result (λ v. IsCrlBehind signed.now (left behind.entry) v) }
    ensures err { IfErr result (λ q. IsWrongBehind signed.now (left behind.entry) q) }
{
    let parts = match read_parts(signed, behind) {
        Ok(parts) => parts,
        Err(wrong) => return Err(of_signed(wrong)),
    };
    let tbs = match read_tbs(Constructed::from_slice(signed)) {
        Ok(tbs) => tbs,
        Err(wrong) => return Err(wrong),
    };
    if !is_same(tbs.signature, parts.signature_algorithm) {
        return Err(Malformed {
            part: CrlPart::SameAlgorithm,
            error: DecodeError::content("signature algorithms differ"),
        });
    }
    Ok(CrlView {
        signed: parts.signed,
        signature_algorithm: parts.signature_algorithm,
        algorithm: parts.algorithm,
        signature: parts.signature,
        tbs,
    })
}

impl<'a> CrlView<'a> {
    /// A revocation list, and nothing else, as [Crl::decode](crate::Crl::decode) reads it. Allocates nothing.
    ///
    /// The error is of the malformed part: that something follows the list; of the signed data the leftmost; then of
    /// what is signed the leftmost; then that both algorithm identifiers are the same.
    pub fn read(octets: &'a [u8]) -> Result<CrlView<'a>, Malformed<CrlPart>>
        ensures ok { IfOk result (λ v. (x : CrlParts) × IsCrlAt octets.now v x) }
        ensures err { IfErr result (λ q. IsCrlError octets.now q) }
    {
        let contents = match inside(Constructed::from_slice(octets), Tag::SEQUENCE) {
            Ok(contents) => contents,
            Err(e) => return Err(Malformed {
                part: CrlPart::List,
                error: e,
            }),
        };
        let mut behind = contents;
        let signed = match take_headed(&mut behind) {
            Some(signed) => signed,
            None => return Err(Malformed {
                part: CrlPart::Signed,
                error: value_fault(contents),
            }),
        };
        match read_behind(signed, behind) {
            Ok(found) => Ok(found),
            Err(wrong) => {
                if is_value(signed) {
                    Err(wrong)
                } else {
                    Err(Malformed {
                        part: CrlPart::Signed,
                        error: value_fault(contents),
                    })
                }
            }
        }
    }
}
