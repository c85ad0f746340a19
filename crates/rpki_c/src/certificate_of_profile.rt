//! Certificates, of which all is asked at once.

ghost use Rattle.std.specs.Prelude.{◌≡◌};
ghost use Rattle.rpki_c.specs.CertificateProfile.{check_number, IsCheckedAs, IsCertificateChecked};

use crate::certificate::{CertificateParts, part_number, parts_of};
use crate::certificate_extensions::{KnownExtensions, extensions_of, known_number};
use crate::certificate_inspection::{cert_rule_number, profile_of};
use crate::status::NO_PROFILE;
use rpki_cert::{CertView, CheckError, Profile};

/// How the error of a check is passed.
pub(crate) fn check_number(error: CheckError) -> u8
    ensures { result ≡ check_number error }
{
    match error {
        CheckError::Extension(part) => known_number(part),
        CheckError::Rule(rule) => cert_rule_number(rule),
    }
}

/// Reads a resource certificate, and tests it by the profile; returns the status.
fn check<'a>(
    octets: &'a [u8],
    profile: Profile,
    strict: bool,
    parts: &mut CertificateParts<'a>,
    extensions: &mut KnownExtensions<'a>,
) -> u8
    ensures { IsCheckedAs octets.now profile strict result parts.old parts.new extensions.old extensions.new }
{
    let found = match CertView::read(octets) {
        Ok(found) => found,
        Err(wrong) => return part_number(wrong.part),
    };
    match found.check(profile, strict) {
        Ok(known) => {
            *parts = parts_of(octets, &found);
            *extensions = extensions_of(octets, &found, known);
            0
        }
        Err(error) => check_number(error),
    }
}

/// Reads a resource certificate once: says what [crate::certificate::rpki_certificate] and
/// [crate::certificate_extensions::rpki_certificate_extensions] say, and tests it by the profile of this number, as
/// [crate::certificate_inspection::rpki_certificate_inspect].
///
/// The status is 0. Else it is the first that these three calls have, in this order, but that 12, for another number of
/// a profile, comes before the octets are looked at; and `parts` and `extensions` are unchanged. Nothing is allocated.
#[unsafe(no_mangle)]
pub extern "C" fn rpki_certificate_of_profile<'a>(
    octets: &'a [u8],
    profile: u8,
    strict: bool,
    parts: &mut CertificateParts<'a>,
    extensions: &mut KnownExtensions<'a>,
) -> u8
    ensures { IsCertificateChecked octets.now profile strict result parts.old parts.new extensions.old extensions.new }
{
    match profile_of(profile) {
        Some(profile) => check(octets, profile, strict, parts, extensions),
        None => NO_PROFILE,
    }
}
