//! Kinds of certificates, and what the extensions of each say (RFC 6487 4.8, RFC 8209 3.1, RFC 8630 2.3, RFC 9323 2).

ghost use Rattle.std.specs.Prelude.{◌≡◌};
ghost use Rattle.rpki_issue.specs.Extensions.{profile_of, usage_of};

use rpki::crypto::KeyIdentifier;
use rpki::uri::{Https, Rsync};
use rpki_cert::{KeyUsage, Profile};
use rpki_resources::{AsResources, IpResources};

/// Where an authority publishes (RFC 6487 4.8.8.1).
#[derive(Clone, Copy)]
pub struct Repository<'a> {
    /// The folder of its objects.
    pub base: &'a Rsync,
    /// Its manifest, which is one of them (RFC 9286 2).
    pub manifest: &'a Rsync,
    /// Where changes of the repository are told (RFC 8182 3.2).
    pub notification: Option<&'a Https>,
}

/// What an issuer says of itself in each certificate.
#[derive(Clone, Copy)]
pub struct Issuance<'a> {
    /// The identifier of its key (RFC 6487 4.8.3).
    pub key: KeyIdentifier,
    /// Where its revocation list is (RFC 6487 4.8.6).
    pub list: &'a Rsync,
    /// Where its certificate is (RFC 6487 4.8.7).
    pub certificate: &'a Rsync,
}

/// A kind of certificate.
#[derive(Clone, Copy)]
pub enum CertKind<'a> {
    /// A trust anchor, which issues itself (RFC 8630 2.3).
    Anchor(Repository<'a>),
    /// An authority below another (RFC 6487 4).
    Authority(Issuance<'a>, Repository<'a>),
    /// An end entity that signs the object at this URI (RFC 6487 4.8.8.2).
    Object(Issuance<'a>, &'a Rsync),
    /// An end entity that signs an object that is in no repository, as a checklist (RFC 9323 2).
    Detached(Issuance<'a>),
    /// A BGPsec router (RFC 8209 3.1).
    Router(Issuance<'a>),
}

impl CertKind<'_> {
    /// The profile that certificates of the kind have.
    pub fn profile(&self) -> Profile
        ensures { result ≡ profile_of self.now }
    {
        match self {
            CertKind::Anchor(_) => Profile::Ta,
            CertKind::Authority(_, _) => Profile::Ca,
            CertKind::Object(_, _) => Profile::Ee,
            CertKind::Detached(_) => Profile::DetachedEe,
            CertKind::Router(_) => Profile::Router,
        }
    }

    /// The use of their keys (RFC 6487 4.8.4).
    pub fn usage(&self) -> KeyUsage
        ensures { result ≡ usage_of self.now }
    {
        match self {
            CertKind::Anchor(_) | CertKind::Authority(_, _) => KeyUsage::Ca,
            CertKind::Object(_, _) | CertKind::Detached(_) | CertKind::Router(_) => KeyUsage::Ee,
        }
    }
}

/// What the extensions of a certificate say.
#[derive(Clone, Copy)]
pub struct CertExtensions<'a> {
    /// The identifier of the subject's key, as [PublicKey::key_identifier](rpki::crypto::PublicKey::key_identifier)
    /// has it.
    pub subject_key: KeyIdentifier,
    /// The kind of certificate.
    pub kind: CertKind<'a>,
    /// Where the statement of practices is, if the certificate says so (RFC 7318 2).
    pub practices: Option<&'a Https>,
    /// The addresses, if it has any. A validator of the field rejects authorities that inherit addresses.
    pub ip: Option<&'a IpResources>,
    /// The numbers of autonomous systems, if it has any.
    pub asn: Option<&'a AsResources>,
}
