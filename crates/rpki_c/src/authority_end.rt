//! End entities below an authority of a path.

ghost use Rattle.std.specs.Prelude.{◌≡◌, ◌≢◌, IfSome, IfNone, length};
ghost use Rattle.rpki_cert.specs.declared.profile.Profile.{Profile};
ghost use Rattle.rpki_c.specs.CertificateProfile.{profile_number};
ghost use Rattle.rpki_c.specs.Authority.{FindsEnd, IsEndRead, is_end_profile};

use crate::as_blocks::AsEntry;
use crate::authority::{Authority, Resources};
use crate::authority_making::{kept_addresses, kept_numbers, owned_under};
use crate::below::{below, has_manifest};
use crate::certificate::part_number;
use crate::ip_blocks::IpEntry;
use crate::status::{NO_MANIFEST, NO_PROFILE, TOO_SMALL};
use rpki_cert::{CertView, Profile};
use std::alloc::Global;

/// The profile of this number, where it is one of an end entity.
fn end_profile(number: u8) -> Option<Profile>
    ensures some { IfSome result (λ p. number ≡ profile_number p) }
    ensures end { IfSome result (λ p. is_end_profile p) }
    ensures none { IfNone result ((p : Profile) → is_end_profile p → number ≢ profile_number p) }
{
    match number {
        2 => Some(Profile::Ee),
        3 => Some(Profile::Router),
        4 => Some(Profile::DetachedEe),
        _ => None,
    }
}

/// The resources of the certificate, which is valid below the authority. The error is as the status of
/// [rpki_authority_end].
fn end_below<'a>(
    alloc: Global,
    by: &Authority<'_>,
    octets: &[u8],
    profile: Profile,
    ip_room: &'a mut [IpEntry],
    as_room: &'a mut [AsEntry],
) -> Result<Resources<'a>, u8>
    ensures { FindsEnd profile by.now octets.now (length ip_room.old, length as_room.old) result }
{
    let cert = match CertView::read(octets) {
        Ok(cert) => cert,
        Err(wrong) => return Err(part_number(wrong.part)),
    };
    let known = match below(by, &cert, profile) {
        Ok(known) => known,
        Err(status) => return Err(status),
    };
    let own = match owned_under(alloc, by, &cert, &known) {
        Ok(own) => own,
        Err(status) => return Err(status),
    };
    let Some(ip_blocks) = kept_addresses(&own.addresses, ip_room) else {
        return Err(TOO_SMALL);
    };
    let Some(as_blocks) = kept_numbers(&own.numbers, as_room) else {
        return Err(TOO_SMALL);
    };
    Ok(Resources {
        ip_blocks,
        as_blocks,
    })
}

/// Whether a certificate of an end entity is valid below an authority of a path: whether it has the profile of this
/// number, 2 of end entities that sign an object, 3 of BGPsec routers, 4 of end entities without subject information
/// access, names included; whether the authority has issued it, valid at the moment of the path (RFC 5280 6.1.3); and
/// whether the authority's list doesn't have it. Its resources are settled under the authority's by its policy (RFC
/// 6487 7.2, RFC 8360 4.2.4), and written to the front of the two arrays, which are lent to `out`.
///
/// The status is 0. Else it is, in this order: `NO_PROFILE`; as of `rpki_authority_under`, but for `TOO_DEEP` and
/// `ON_PATH`. Then `out` is unchanged, and the arrays may be written over.
#[unsafe(no_mangle)]
pub extern "C" fn rpki_authority_end<'a>(
    alloc: Global,
    by: &Authority<'_>,
    octets: &[u8],
    profile: u8,
    ip_room: &'a mut [IpEntry],
    as_room: &'a mut [AsEntry],
    out: &mut Resources<'a>,
) -> u8
    ensures { IsEndRead by.now octets.now profile (length ip_room.old, length as_room.old) result out.old out.new }
{
    let Some(profile) = end_profile(profile) else {
        return NO_PROFILE;
    };
    if !has_manifest(by) {
        return NO_MANIFEST;
    }
    match end_below(alloc, by, octets, profile, ip_room, as_room) {
        Ok(found) => {
            *out = found;
            0
        }
        Err(status) => status,
    }
}
