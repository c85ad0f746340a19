//! What the rules of profiles read of a certificate.

ghost use Rattle.std.specs.Prelude.{List, ℕ};
ghost use Rattle.rpki_cert.specs.Cert.{CertParts};
ghost use Rattle.rpki_cert.specs.View.{IsCertAt};
ghost use Rattle.rpki_cert.specs.Inspected.{IsKeyOf, IsReadOf};

use crate::extension::access_information::AccessInformation;
use crate::extension::accessors::information_in;
use crate::extension::kind::ExtensionKind;
use crate::extension::source::{ExtensionSource, find_kept};
use crate::extension::values::ExtensionValues;
use crate::profile::key_rule::KeyBits;
use crate::read::view::CertView;
use crate::tbs::TbsCert;
use rpki::crypto::{PublicKey, PublicKeyView};
use rpki::oid;
use rpki::repository::error::ValidationError;
use rpki::repository::x509::{NameView, Serial, Validity};

/// What the rules of profiles read of a certificate.
#[derive(Drop)]
pub struct Inspected<'a> {
    /// The serial number.
    pub serial_number: Serial,
    /// The issuer.
    pub issuer: NameView<'a>,
    /// The subject.
    pub subject: NameView<'a>,
    /// The period of validity.
    pub validity: Validity,
    /// The subject's key.
    pub key: KeyBits<'a>,
    /// The extensions.
    pub extensions: ExtensionSource<'a>,
    /// What those say that are read without memory.
    pub values: ExtensionValues,
    /// What the subject information access tells.
    pub access: Result<Option<AccessInformation<'a>>, ValidationError>,
}

/// The bits of a key that is kept.
fn kept_key(key: &PublicKey) -> KeyBits<'_>
    ensures { IsKeyOf key.now result }
{
    KeyBits {
        format: key.algorithm(),
        unused: key.unused(),
        octets: key.bits(),
    }
}

/// The bits of a key that is read in place.
fn read_key<'a>(key: &PublicKeyView<'a>) -> KeyBits<'a>
    ensures { IsKeyOf key.now result }
{
    KeyBits {
        format: key.algorithm(),
        unused: key.unused(),
        octets: key.bits(),
    }
}

impl TbsCert {
    /// What the rules read of the certificate.
    pub(crate) fn inspected(&self) -> Inspected<'_>
        ensures { IsReadOf self.now result }
    {
        let extensions = ExtensionSource::Kept(self.extensions());
        Inspected {
            serial_number: self.serial_number(),
            issuer: self.issuer().view(),
            subject: self.subject().view(),
            validity: self.validity(),
            key: kept_key(self.subject_public_key_info()),
            values: ExtensionValues::of(&extensions),
            extensions,
            access: information_in(find_kept(self.extensions(), oid::PE_SUBJECT_INFO_ACCESS)),
        }
    }
}

impl CertView<'_> {
    /// What the rules read of the certificate.
    pub(crate) fn inspected(&self) -> Inspected<'_>
        requires { (s : List ℕ) × (x : CertParts) × IsCertAt s self.now x }
        ensures { (s : List ℕ) (x : CertParts) → IsCertAt s self.now x → IsReadOf x.tbs result }
    {
        let named = &self.tbs.named;
        let table = &named.keyed.extensions;
        let extensions = ExtensionSource::Listed(table);
        Inspected {
            serial_number: self.tbs.serial_number,
            issuer: NameView::new(named.issuer.octets),
            subject: NameView::new(named.subject.octets),
            validity: named.validity,
            key: read_key(&named.keyed.key),
            values: ExtensionValues::of(&extensions),
            extensions,
            access: information_in(table.find(ExtensionKind::SubjectInfoAccess)),
        }
    }
}
