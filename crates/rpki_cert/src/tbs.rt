//! What is signed of a certificate.

ghost use Rattle.std.specs.Prelude.{◌≡◌, IfOk, IfErr};
ghost use Rattle.rpki_der.specs.Prelude.{left, Reads};
ghost use Rattle.rpki_cert.specs.Cert.{TbsParts, SpellsTbs};
ghost use Rattle.rpki_cert.specs.CertError.{without_part};
ghost use Rattle.rpki_cert.specs.CertFault.{IsTbsFault, IsFrontTbsError, UnlessUnkept};
ghost use Rattle.rpki_cert.specs.Kept.{IsTbsAt};

use crate::keep::{keep_extensions, keep_key, keep_name};
use crate::read::cert_error::CertError;
use crate::read::cert_part::CertPart;
use crate::read::fields::{TbsView, read_fields};
use rpki::crypto::{PublicKey, RpkiSignatureAlgorithm};
use rpki::der::{Constructed, DecodeError, Keep, Section};
use rpki::repository::x509::{ExtensionOctets, NameOctets, Serial, Validity};
use std::marker::Model;

/// The signed part of a certificate: TBSCertificate of the version v3 (RFC 5280 4.1, RFC 6487 4).
#[derive(Drop)]
pub struct TbsCert {
    serial_number: Serial,
    signature: RpkiSignatureAlgorithm,
    issuer: NameOctets,
    validity: Validity,
    subject: NameOctets,
    subject_public_key_info: PublicKey,
    extensions: Vec<ExtensionOctets>,
}

impl Model for TbsCert {
    ghost use Rattle.rpki_cert.specs.Cert.{TbsParts};

    ghost Value = { TbsParts };

    ghost view = { λ x. record {
      serial = x.serial_number;
      algorithm = x.signature;
      issuer = x.issuer;
      validity = x.validity;
      subject = x.subject;
      key = x.subject_public_key_info;
      extensions = x.extensions.items;
    } };
}

impl TbsCert {
    /// Keeps what was read in place of these octets. Requires that it was, and that `keep` can keep parts of them.
    ///
    /// The error is `OutOfMemory`, if allocation fails.
    pub(crate) fn keep<K: Keep>(
        keep: K,
        octets: &[u8],
        view: &TbsView<'_>,
    ) -> Result<TbsCert, DecodeError>
        requires held { K.holds keep octets.now }
        requires stands { (t : TbsParts) × IsTbsAt octets.now view.now t }
        ensures ok { IfOk result (λ x. (t : TbsParts) → IsTbsAt octets.now view.now t → x ≡ t) }
        ensures err { IfErr result (λ e. e ≡ DecodeError.OutOfMemory) }
    {
        let named = &view.named;
        let issuer = keep_name(keep, octets, named.issuer)?;
        let subject = keep_name(keep, octets, named.subject)?;
        let subject_public_key_info = keep_key(keep, octets, &named.keyed)?;
        let extensions = keep_extensions(keep, &named.keyed.extensions)?;
        Ok(TbsCert {
            serial_number: view.serial_number,
            signature: view.signature,
            issuer,
            validity: named.validity,
            subject,
            subject_public_key_info,
            extensions,
        })
    }

    /// The signed part: a SEQUENCE of the version v3(2), the serial number, the algorithm, the issuer, the validity
    /// period, the subject, its key and the extensions, and nothing after them. An allocator copies what is kept of
    /// them, and [Shared](rpki::der::Shared) shares it; requires that `keep` can keep parts of the rest.
    ///
    /// The errors are those of a SEQUENCE; then that of the first part that could not be read; and `OutOfMemory` if
    /// allocation fails, only where all parts are there, or in the extensions.
    pub fn take_from<K: Keep>(keep: K, cons: &mut Constructed<'_>) -> Result<TbsCert, CertError>
        requires { K.holds keep (left cons.old) }
        ensures reads { Reads (λ x. x) SpellsTbs IsTbsFault (left cons.old) (left cons.new) (without_part result) }
        ensures part { IfErr result (λ q. UnlessUnkept IsFrontTbsError (left cons.old) q) }
    {
        let mut after = *cons;
        let fields = match after.take_sequence() {
            Ok(fields) => fields,
            Err(error) => {
                return Err(CertError {
                    part: CertPart::Tbs,
                    error,
                });
            }
        };
        let view = match read_fields(Some(keep.allocator()), fields) {
            Ok(view) => view,
            Err(wrong) => return Err(wrong),
        };
        let all = cons.rest();
        let following = after.rest();
        let value = Section::before(all, following);
        let within = keep.before(all, value.octets, following);
        match TbsCert::keep(within, value.octets, &view) {
            Ok(tbs) => {
                *cons = after;
                Ok(tbs)
            }
            Err(error) => Err(CertError {
                part: CertPart::Tbs,
                error,
            }),
        }
    }

    /// The serial number. It may be 0, which no certificate should have (RFC 5280 4.1.2.2): the inspections reject it.
    pub fn serial_number(&self) -> Serial
        ensures { result ≡ self.now.serial }
    {
        self.serial_number
    }

    /// The algorithm that the signature is said to have (RFC 5280 4.1.2.3).
    pub fn signature(&self) -> RpkiSignatureAlgorithm
        ensures { result ≡ self.now.algorithm }
    {
        self.signature
    }

    /// The issuer (RFC 5280 4.1.2.4).
    pub fn issuer(&self) -> &NameOctets
        ensures { result.now ≡ self.now.issuer }
    {
        &self.issuer
    }

    /// The validity period (RFC 5280 4.1.2.5).
    pub fn validity(&self) -> Validity
        ensures { result ≡ self.now.validity }
    {
        self.validity
    }

    /// The subject (RFC 5280 4.1.2.6).
    pub fn subject(&self) -> &NameOctets
        ensures { result.now ≡ self.now.subject }
    {
        &self.subject
    }

    /// The subject's key (RFC 5280 4.1.2.7).
    pub fn subject_public_key_info(&self) -> &PublicKey
        ensures { result.now ≡ self.now.key }
    {
        &self.subject_public_key_info
    }

    /// The extensions, in order: one at least, and each identifier once (RFC 5280 4.2).
    pub fn extensions(&self) -> &[ExtensionOctets]
        ensures { result.now ≡ self.now.extensions }
    {
        self.extensions.as_slice()
    }
}
