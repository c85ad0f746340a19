//! What certificates say that they are.

ghost use Rattle.std.specs.Prelude.{◌≡◌, ◌↔◌, List, ℕ, IsTrue};
ghost use Rattle.rpki_cert.specs.Cert.{CertParts, find, is_there};
ghost use Rattle.rpki_cert.specs.View.{IsCertAt};
ghost use Rattle.rpki_cert.specs.ExtensionTable.{identifier_of};
ghost use Rattle.rpki_c.specs.CertificateKind.{profile_by, IsKindRead};
ghost use Rattle.rpki_c.specs.CertificateProfile.{profile_number};

use crate::certificate_extensions::extension_of;
use crate::known_cert::known_cert;
use rpki_cert::{CertView, ExtensionKind, Profile};

/// How a profile is passed.
fn profile_number(profile: Profile) -> u8
    ensures { result ≡ profile_number profile }
{
    match profile {
        Profile::Ta => 0,
        Profile::Ca => 1,
        Profile::Ee => 2,
        Profile::Router => 3,
        Profile::DetachedEe => 4,
    }
}

/// The profile of an authority, or of an end entity, by these marks.
fn profile_by(ca: bool, self_issued: bool, purposes: bool, access: bool) -> Profile
    ensures { result ≡ profile_by ca self_issued purposes access }
{
    if ca {
        if self_issued {
            return Profile::Ta;
        }
        return Profile::Ca;
    }
    if purposes {
        return Profile::Router;
    }
    if access {
        return Profile::Ee;
    }
    Profile::DetachedEe
}

/// Whether the issuer has the name of the subject, octet for octet.
fn is_self_issued(cert: &CertView<'_>) -> bool
    ensures { (s : List ℕ) (x : CertParts) → IsCertAt s cert.now x
        → IsTrue result ↔ (x.tbs.issuer ≡ x.tbs.subject) }
{
    cert.tbs.named.issuer.octets == cert.tbs.named.subject.octets
}

/// Whether an extension of this kind is there.
pub(crate) fn has(cert: &CertView<'_>, kind: ExtensionKind) -> bool
    ensures { (s : List ℕ) (x : CertParts) → IsCertAt s cert.now x
        → result ≡ is_there (find (identifier_of kind) x.tbs.extensions) }
{
    extension_of(cert, kind).is_there
}

/// Reads a resource certificate, and says which profile it says that it has, as a number that
/// `rpki_certificate_inspect` takes: by its basic constraints, its names, and whether extended purposes and access
/// information of the subject are there. Whether it has that profile is not looked at.
///
/// The status is 0, or as that of `rpki_certificate_extensions`; then `kind` is unchanged. Nothing is allocated.
#[unsafe(no_mangle)]
pub extern "C" fn rpki_certificate_kind(octets: &[u8], kind: &mut u8) -> u8
    ensures { IsKindRead octets.now result kind.old kind.new }
{
    let found = match known_cert(octets) {
        Ok(found) => found,
        Err(status) => return status,
    };
    let self_issued = is_self_issued(&found.cert);
    let purposes = has(&found.cert, ExtensionKind::ExtendedKeyUsage);
    let access = has(&found.cert, ExtensionKind::SubjectInfoAccess);
    *kind = profile_number(profile_by(found.known.ca, self_issued, purposes, access));
    0
}
