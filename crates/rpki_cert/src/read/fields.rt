//! What is signed of a certificate, read in place (RFC 5280 4.1.2).

ghost use Rattle.std.specs.Prelude.{IfOk, IfErr, is_some};
ghost use Rattle.rpki_der.specs.Prelude.{left, Then};
ghost use Rattle.rpki.specs.PublicKey.{SpellsKey};
ghost use Rattle.rpki_cert.specs.Cert.{TbsParts, AreFields, fields_of, SpellsTbs, SpellsExtensions};
ghost use Rattle.rpki_cert.specs.View.{HasOne, IsKeyedAt, IsNamedIn, IsTbsIn, SpellsNamed, AreNamed, AreKeyedWrong};
ghost use Rattle.rpki_cert.specs.View.{AreNamedWrong, AreFieldsWrong, IsTbsWrong};

use crate::extension::table::ExtensionTable;
use crate::read::cert_error::CertError;
use crate::read::cert_part::CertPart;
use crate::read::extension_list::read_extensions;
use crate::read::version::skip_version;
use rpki::crypto::{PublicKeyView, RpkiSignatureAlgorithm, SignatureAlgorithm};
use rpki::der::{Constructed, Section, Tag};
use rpki::repository::x509::{Serial, Validity};
use rpki_x509::{inside, take_name};
use std::alloc::Global;

/// The subject's key, and the extensions.
#[derive(Drop)]
pub struct Keyed<'a> {
    /// The key.
    pub key: PublicKeyView<'a>,
    /// The octets of the key.
    pub octets: Section<'a>,
    /// The extensions.
    pub extensions: ExtensionTable<'a>,
}

/// The fields from the issuer on.
#[derive(Drop)]
pub struct Named<'a> {
    /// The issuer.
    pub issuer: Section<'a>,
    /// The period of validity.
    pub validity: Validity,
    /// The subject.
    pub subject: Section<'a>,
    /// The key and the extensions.
    pub keyed: Keyed<'a>,
}

/// The fields of a TBSCertificate.
#[derive(Drop)]
pub struct TbsView<'a> {
    /// The serial number.
    pub serial_number: Serial,
    /// The algorithm that the signature is said to have.
    pub signature: RpkiSignatureAlgorithm,
    /// The fields from the issuer on.
    pub named: Named<'a>,
}

/// The key and the extensions, which are the whole rest.
fn read_keyed<'a>(room: Option<Global>, fields: Constructed<'a>) -> Result<Keyed<'a>, CertError>
    ensures ok { IfOk result (λ k. IsKeyedAt (left fields.entry) k) }
    ensures one { IfOk result (λ _. HasOne (Then SpellsKey SpellsExtensions) (left fields.entry)) }
    ensures err { IfErr result (λ q. AreKeyedWrong (is_some room) (left fields.entry) q) }
{
    let octets = fields.rest();
    let mut rest = fields;
    let key = match PublicKeyView::take_from(&mut rest) {
        Ok(key) => key,
        Err(e) => return Err(CertError {
            part: CertPart::PublicKey,
            error: e,
        }),
    };
    match read_extensions(room, rest) {
        Ok(extensions) => Ok(Keyed {
            key,
            octets: Section::before(octets, rest.rest()),
            extensions,
        }),
        Err(wrong) => Err(wrong),
    }
}

/// The fields from the issuer on, which are the whole rest.
fn read_named<'a>(room: Option<Global>, fields: Constructed<'a>) -> Result<Named<'a>, CertError>
    ensures ok { IfOk result (λ n. (t : TbsParts) × (h : AreNamed t (left fields.entry))
        × IsNamedIn t (left fields.entry) h n) }
    ensures one { IfOk result (λ _. HasOne SpellsNamed (left fields.entry)) }
    ensures err { IfErr result (λ q. AreNamedWrong (is_some room) (left fields.entry) q) }
{
    let mut rest = fields;
    let issuer = match take_name(&mut rest) {
        Ok(issuer) => issuer,
        Err(e) => return Err(CertError {
            part: CertPart::Issuer,
            error: e,
        }),
    };
    let validity = match Validity::take_from(&mut rest) {
        Ok(validity) => validity,
        Err(e) => return Err(CertError {
            part: CertPart::Validity,
            error: e,
        }),
    };
    let subject = match take_name(&mut rest) {
        Ok(subject) => subject,
        Err(e) => return Err(CertError {
            part: CertPart::Subject,
            error: e,
        }),
    };
    match read_keyed(room, rest) {
        Ok(keyed) => Ok(Named {
            issuer,
            validity,
            subject,
            keyed,
        }),
        Err(wrong) => Err(wrong),
    }
}

/// The fields, which are the whole rest.
pub fn read_fields<'a>(
    room: Option<Global>,
    fields: Constructed<'a>,
) -> Result<TbsView<'a>, CertError>
    ensures ok { IfOk result (λ v. (t : TbsParts) × (h : AreFields (fields_of t) (left fields.entry))
        × IsTbsIn t (left fields.entry) h v) }
    ensures one { IfOk result (λ _. HasOne AreFields (left fields.entry)) }
    ensures err { IfErr result (λ q. AreFieldsWrong (is_some room) (left fields.entry) q) }
{
    let mut rest = fields;
    match skip_version(&mut rest) {
        Ok(()) => {}
        Err(e) => return Err(CertError {
            part: CertPart::Version,
            error: e,
        }),
    }
    let serial_number = match Serial::take_from(&mut rest) {
        Ok(serial) => serial,
        Err(e) => return Err(CertError {
            part: CertPart::SerialNumber,
            error: e,
        }),
    };
    let signature = match RpkiSignatureAlgorithm::x509_take_from(&mut rest) {
        Ok(signature) => signature,
        Err(e) => return Err(CertError {
            part: CertPart::TbsAlgorithm,
            error: e,
        }),
    };
    match read_named(room, rest) {
        Ok(named) => Ok(TbsView {
            serial_number,
            signature,
            named,
        }),
        Err(wrong) => Err(wrong),
    }
}

/// The TBSCertificate that these octets are; the sections are in them.
pub fn read_tbs<'a>(room: Option<Global>, signed: Constructed<'a>) -> Result<TbsView<'a>, CertError>
    ensures ok { IfOk result (λ v. (t : TbsParts) × (h : SpellsTbs t (left signed.entry))
        × IsTbsIn t h.contents h.spelled v) }
    ensures one { IfOk result (λ _. HasOne SpellsTbs (left signed.entry)) }
    ensures err { IfErr result (λ q. IsTbsWrong (is_some room) (left signed.entry) q) }
{
    match inside(signed, Tag::SEQUENCE) {
        Ok(fields) => read_fields(room, fields),
        Err(e) => Err(CertError {
            part: CertPart::Tbs,
            error: e,
        }),
    }
}
