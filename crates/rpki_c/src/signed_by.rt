//! Certificates that the key of another has signed.

ghost use Rattle.std.specs.Prelude.{◌≡◌};
ghost use Rattle.rpki_c.specs.Issued.{IsSignedByRead};

use crate::issued::{key_of, read_issued};
use crate::status::OTHER_KEY;
use crate::verification::verified;
use rpki_cert::is_identifier;

/// Reads two resource certificates, and says whether the second has issued the first, but for periods, resources,
/// revocation and the profiles of both (RFC 5280 6.1.3, RFC 6487 7.2): whether the issuer of the first has the name of
/// the second's subject, octet for octet; the authority key identifier of the first is that of the second's key (RFC
/// 6487 4.8.3), and its subject key identifier that of its own key (RFC 6487 4.8.2); and the second's key has signed
/// it, by RSA with SHA-256.
///
/// The status is 0. Else it is, in this order: as of `rpki_certificate_extensions`, where the first is no certificate,
/// or one of its extensions is wrong; `NO_ISSUER`, where the second is none; `OTHER_ISSUER`; `OTHER_AUTHORITY`;
/// `OTHER_KEY`; `KEY_NOT_ACCEPTED` or `BAD_SIGNATURE`, as of `rpki_verify`. Nothing is allocated.
#[unsafe(no_mangle)]
pub extern "C" fn rpki_certificate_signed_by(octets: &[u8], issuer: &[u8]) -> u8
    ensures { IsSignedByRead octets.now issuer.now result }
{
    let found = match read_issued(octets, issuer) {
        Ok(found) => found,
        Err(status) => return status,
    };
    let subject = &found.subject.cert;
    if !is_identifier(found.subject.known.subject_key_identifier, key_of(subject)) {
        return OTHER_KEY;
    }
    let key = &found.issuer.tbs.named.keyed.key;
    verified(
        key,
        subject.parts.signed.octets,
        subject.parts.signature.octets,
    )
}
