//! Signed objects, of which all is asked at once, with their signers' certificates.

ghost use Rattle.std.specs.Prelude.{◌≡◌};
ghost use Rattle.rpki_c.specs.SignedObject.{written, IsObjectChecked};

use crate::certificate::{CertificateParts, parts_of};
use crate::certificate_extensions::{KnownExtensions, extensions_of};
use crate::certificate_of_profile::check_number;
use crate::signed_object::{SignedObjectParts, object_of, object_part_number};
use rpki_cert::Profile;
use rpki_objects::SignedObjectView;

/// Reads a signed object and its signer's certificate once: says what [crate::signed_object::rpki_signed_object] says
/// of the octets, and [crate::certificate_of_profile::rpki_certificate_of_profile] of that certificate, by the profile
/// of an end entity. `attributes` and `names` are what these calls have as `strict`.
///
/// The status is 0. Else it is the first that these two calls have, in this order; and `object`, `certificate` and
/// `extensions` are unchanged. Whether anything is signed is not looked at. Nothing is allocated.
#[unsafe(no_mangle)]
pub extern "C" fn rpki_signed_object_of_profile<'a>(
    octets: &'a [u8],
    attributes: bool,
    names: bool,
    object: &mut SignedObjectParts<'a>,
    certificate: &mut CertificateParts<'a>,
    extensions: &mut KnownExtensions<'a>,
) -> u8
    ensures { IsObjectChecked attributes names octets.now result
        (written object.old certificate.old extensions.old) (written object.new certificate.new extensions.new) }
{
    let found = match SignedObjectView::read(octets, attributes) {
        Ok(found) => found,
        Err(wrong) => return object_part_number(wrong.part),
    };
    let cert = &found.cert;
    match cert.parts.check(Profile::Ee, names) {
        Ok(known) => {
            *object = object_of(octets, attributes, &found);
            *certificate = parts_of(cert.octets.octets, &cert.parts);
            *extensions = extensions_of(cert.octets.octets, &cert.parts, known);
            0
        }
        Err(error) => check_number(error),
    }
}
