//! Revocation lists that an authority has issued, and that are in force at a moment.

ghost use Rattle.std.specs.Prelude.{◌≡◌, ◌↔◌, IsTrue, List, ℕ};
ghost use Rattle.rpki_cert.specs.Cert.{CertParts};
ghost use Rattle.rpki_cert.specs.View.{IsCertAt};
ghost use Rattle.rpki_crl.specs.Crl.{CrlParts};
ghost use Rattle.rpki_crl.specs.CrlView.{IsCrlAt};
ghost use Rattle.rpki_c.specs.Issued.{IsListTold, IsListToldOf, IsListRead};
ghost use Rattle.rpki_c.specs.Key.{IsVerifiedBy};

use crate::crl::crl_part_number;
use crate::issued::key_of;
use crate::periods::told_of;
use crate::status::{CONTENT, NO_ISSUER, OTHER_AUTHORITY, OTHER_ISSUER};
use crate::time_writing::time_of;
use crate::times::Moment;
use crate::verification::verified;
use rpki::crypto::KeyIdentifier;
use rpki_cert::CertView;
use rpki_crl::CrlView;
use rpki_time::Validity;

/// Whether the issuer of the list has the name of the certificate's subject, octet for octet.
fn is_list_named(list: &CrlView<'_>, issuer: &CertView<'_>) -> bool
    ensures { (s t : List ℕ) (x : CrlParts) (y : CertParts) → IsCrlAt s list.now x → IsCertAt t issuer.now y
        → IsTrue result ↔ (x.list.issuer ≡ y.tbs.subject) }
{
    list.tbs.issuer.octets == issuer.tbs.named.subject.octets
}

/// Whether the list has this authority key identifier.
fn has_authority(list: &CrlView<'_>, wanted: KeyIdentifier) -> bool
    ensures { (s : List ℕ) (x : CrlParts) → IsCrlAt s list.now x
        → IsTrue result ↔ (x.list.extensions.authority ≡ wanted) }
{
    list.tbs.extensions.authority_key_identifier == wanted
}

/// Whether the list is in force at the moment: not issued later, and the next one not due before it.
fn in_force(list: &CrlView<'_>, moment: &Moment) -> u8
    ensures { (s : List ℕ) (x : CrlParts) → IsCrlAt s list.now x → IsListToldOf x moment.now result }
{
    let Some(time) = time_of(moment) else {
        return CONTENT;
    };
    let period = Validity::new(list.tbs.this_update, list.tbs.next_update);
    told_of(period, time)
}

/// The status of the list's signature by the key of the certificate.
fn list_verified(list: &CrlView<'_>, issuer: &CertView<'_>) -> u8
    ensures { (s t : List ℕ) (x : CrlParts) (y : CertParts) → IsCrlAt s list.now x → IsCertAt t issuer.now y
        → IsVerifiedBy y.tbs.key x.signed.signed x.signed.value result }
{
    verified(
        &issuer.tbs.named.keyed.key,
        list.signed.octets,
        list.signature.octets,
    )
}

/// Whether the subject of the certificate has issued the list, and whether it is in force at the moment.
pub(crate) fn list_told(list: &CrlView<'_>, issuer: &CertView<'_>, moment: &Moment) -> u8
    ensures { (s t : List ℕ) (x : CrlParts) (y : CertParts) → IsCrlAt s list.now x → IsCertAt t issuer.now y
        → IsListTold x y moment.now result }
{
    if !is_list_named(list, issuer) {
        return OTHER_ISSUER;
    }
    if !has_authority(list, key_of(issuer)) {
        return OTHER_AUTHORITY;
    }
    let status = list_verified(list, issuer);
    if status != 0 {
        return status;
    }
    in_force(list, moment)
}

/// Reads a revocation list and a resource certificate, and says whether the subject of the certificate has issued the
/// list (RFC 5280 6.3.3, RFC 6487 5), and whether it is in force at the moment: whether the issuer of the list has the
/// name of the subject, octet for octet; its authority key identifier is that of the subject's key; that key has signed
/// it, by RSA with SHA-256; and the moment is not before this update nor after the next. Whether the certificate is
/// valid, is not looked at.
///
/// The status is 0. Else it is, in this order: as of `rpki_crl`; `NO_ISSUER`, where the second is no certificate;
/// `OTHER_ISSUER`; `OTHER_AUTHORITY`; `KEY_NOT_ACCEPTED` or `BAD_SIGNATURE`, as of `rpki_verify`; `CONTENT`, where the
/// years 0 to 9999 have no such time as the moment; `TOO_NEW`; `TOO_OLD`. Nothing is allocated.
#[unsafe(no_mangle)]
pub extern "C" fn rpki_crl_issued_by(octets: &[u8], issuer: &[u8], moment: &Moment) -> u8
    ensures { IsListRead octets.now issuer.now moment.now result }
{
    let list = match CrlView::read(octets) {
        Ok(list) => list,
        Err(wrong) => return crl_part_number(wrong.part),
    };
    let authority = match CertView::read(issuer) {
        Ok(authority) => authority,
        Err(_) => return NO_ISSUER,
    };
    list_told(&list, &authority, moment)
}
