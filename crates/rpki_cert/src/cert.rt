//! Certificates.

ghost use Rattle.std.specs.Prelude.{◌≡◌, ℕ, List, IfOk, IfErr};
ghost use Rattle.rpki_der.specs.Prelude.{left, Reads, Decodes, IsWholeFault};
ghost use Rattle.rpki_cert.specs.Cert.{CertParts, SpellsCert};
ghost use Rattle.rpki_x509.specs.Signed.{SpellsWhole};
ghost use Rattle.rpki_cert.specs.CertError.{without_part};
ghost use Rattle.rpki_x509.specs.Signed.{IsWholeSignedFault};
ghost use Rattle.rpki_cert.specs.CertFault.{IsCertFault, IsFrontError, UnlessUnkept, IsDecodedPart};
ghost use Rattle.rpki_cert.specs.Kept.{IsCertOf};

use crate::read::cert_error::CertError;
use crate::read::cert_part::CertPart;
use crate::read::view::{CertView, read_contents};
use crate::signed::SignedOctets;
use crate::tbs::TbsCert;
use bytes::Bytes;
use rpki::crypto::{RpkiSignatureAlgorithm, Signature};
use rpki::der::{Constructed, DecodeError, Keep, Shared};
use rpki::repository::x509::SignedData;
use std::alloc::Global;
use std::marker::Model;

/// A certificate: the signed octets as they came, the signature, and what the signed octets are.
#[derive(Drop)]
pub struct Cert {
    signed_data: SignedOctets,
    tbs: TbsCert,
}

impl Model for Cert {
    ghost use Rattle.std.specs.Prelude.{◌≡◌};
    ghost use Rattle.rpki_cert.specs.Cert.{CertParts, cert_parts, SpellsTbs};

    ghost Value = { CertParts };

    ghost view = { λ x. cert_parts x.signed_data x.tbs };

    ghost invariant = { λ x. SpellsTbs x.tbs x.signed_data.signed × (x.tbs.algorithm ≡ x.signed_data.algorithm) };
}

/// Keeps the certificate that was read in place of these contents. Requires that it was, and that `keep` can keep parts
/// of the contents.
///
/// The error is `OutOfMemory`, if allocation fails.
fn keep_cert<K: Keep>(
    keep: K,
    contents: Constructed<'_>,
    view: &CertView<'_>,
) -> Result<Cert, DecodeError>
    requires held { K.holds keep (left contents) }
    requires stands { (x : CertParts) × IsCertOf (left contents) view.now x }
    ensures ok { IfOk result (λ c. (x : CertParts) → IsCertOf (left contents.entry) view.now x → c ≡ x) }
    ensures err { IfErr result (λ e. e ≡ DecodeError.OutOfMemory) }
{
    let parts = &view.parts;
    let octets = contents.rest();
    let signed = parts.signed.kept(keep, octets)?;
    let value = parts.signature.kept(keep, octets)?;
    let within = Shared::new(keep.allocator(), &signed);
    let tbs = TbsCert::keep(within, signed.as_slice(), &view.tbs)?;
    let signed_data = SignedOctets::new(signed, Signature::new(parts.signature_algorithm, value));
    Ok(Cert { signed_data, tbs })
}

impl Cert {
    /// A certificate: signed data whose signed value is a [TbsCert] that names the same algorithm (RFC 5280 4.1.1.2).
    /// No bit of the signature is unused. It is read in place, as by [CertView::read], but with any number of
    /// extensions; and then kept.
    /// An allocator copies the signed value and the signature, and [Shared](rpki::der::Shared) shares them; requires
    /// that `keep` can keep parts of the rest. The parts of the signed value share its octets.
    ///
    /// The error is of the leftmost malformed part: of the SEQUENCE; of the signed data; then of what is signed;
    /// then that both algorithm identifiers are the same. It is `OutOfMemory` of the certificate if allocation fails
    /// where one is there, or of its extensions where they are more than 64. An error leaves the cursor where it was.
    pub fn take_from<K: Keep>(keep: K, cons: &mut Constructed<'_>) -> Result<Cert, CertError>
        requires { K.holds keep (left cons.old) }
        ensures reads { Reads (λ x. x) SpellsCert IsCertFault (left cons.old) (left cons.new) (without_part result) }
        ensures part { IfErr result (λ q. UnlessUnkept IsFrontError (left cons.old) q) }
    {
        let mut after = *cons;
        let contents = match after.take_sequence() {
            Ok(contents) => contents,
            Err(error) => {
                return Err(CertError {
                    part: CertPart::Certificate,
                    error,
                });
            }
        };
        let view = match read_contents(Some(keep.allocator()), contents) {
            Ok(view) => view,
            Err(wrong) => return Err(wrong),
        };
        let within = keep.before(cons.rest(), contents.rest(), after.rest());
        match keep_cert(within, contents, &view) {
            Ok(cert) => {
                *cons = after;
                Ok(cert)
            }
            Err(error) => Err(CertError {
                part: CertPart::Certificate,
                error,
            }),
        }
    }

    /// A certificate, and nothing else. It shares the octets.
    ///
    /// The errors are those of [Cert::take_from]; then `Trailing`, of the certificate, if something follows it.
    pub fn decode(alloc: Global, bytes: Bytes) -> Result<Cert, CertError>
        ensures decodes { Decodes (λ x. x) SpellsCert (IsWholeFault SpellsCert IsCertFault) bytes
            (without_part result) }
        ensures part { IfErr result (λ q. IsDecodedPart bytes q) }
    {
        let mut cons = Constructed::new(&bytes);
        let cert = match Cert::take_from(Shared::new(alloc, &bytes), &mut cons) {
            Ok(cert) => cert,
            Err(wrong) => return Err(wrong),
        };
        match cons.finish() {
            Ok(()) => Ok(cert),
            Err(error) => Err(CertError {
                part: CertPart::Certificate,
                error,
            }),
        }
    }

    /// The signed data: the signed octets as they came, and the signature.
    pub fn signed_data(&self) -> &SignedOctets
        ensures { result.now ≡ self.now.signed }
    {
        &self.signed_data
    }

    /// What the signed octets are.
    pub fn tbs(&self) -> &TbsCert
        ensures { result.now ≡ self.now.tbs }
    {
        &self.tbs
    }
}
