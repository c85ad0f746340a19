//! Authorities of a path, made of certificates.

ghost use Rattle.std.specs.Prelude.{◌≡◌, ◌≤◌, ◌<◌, ◌↔◌, List, ℕ, IfSome, IfNone, IfOk, IfErr, IsTrue, length};
ghost use Rattle.std.specs.Prelude.{map, take, set, Contains};
ghost use Rattle.rpki_resources.specs.declared.kind.ResourceKind.TheVariants.{AsNumbers};
ghost use Rattle.rpki_resources.specs.Encoded.{AreBlocksOf};
ghost use Rattle.rpki_cert.specs.Cert.{CertParts};
ghost use Rattle.rpki_cert.specs.View.{IsCertAt};
ghost use Rattle.rpki_c.specs.Resources.{as_entry};
ghost use Rattle.rpki_c.specs.Settling.{settled_entries};
ghost use Rattle.rpki_c.specs.Authority.{GivesKeys, HasNone, MakesUnder, IsMadeUnderBy};
ghost use Rattle.rpki_c.specs.Owned.{HasAddresses, HasNumbers};

use crate::as_blocks::AsEntry;
use crate::authority::{Authority, MOST_STEPS};
use crate::below::{below, has_manifest};
use crate::certificate::part_number;
use crate::ip_blocks::IpEntry;
use crate::issued::key_of;
use crate::owned::{Addresses, addresses_under, numbers_under};
use crate::settling::{fill, fill_as};
use crate::span::Span;
use crate::status::{NO_MANIFEST, ON_PATH, TOO_DEEP, TOO_SMALL};
use rpki_cert::{CertView, KnownView, Profile};
use rpki_resources::Blocks;
use std::alloc::Global;

/// Whether one of the first keys is this one.
fn is_among(keys: &[[u8; 20]; 33], count: usize, key: [u8; 20]) -> bool
    requires { count ≤ 33 }
    ensures { IsTrue result ↔ Contains (take count keys.now) key }
{
    keys[..count].contains(&key)
}

/// The keys, with this one at a place.
pub(crate) fn with_key(keys: [[u8; 20]; 33], at: usize, key: [u8; 20]) -> [[u8; 20]; 33]
    requires { at < 33 }
    ensures { result ≡ set keys at key }
{
    let mut all = keys;
    all[at] = key;
    all
}

/// The keys of the path of what the authority has issued, which has this key. The error is `TOO_DEEP` or `ON_PATH`.
fn next_keys(by: &Authority<'_>, key: [u8; 20]) -> Result<[[u8; 20]; 33], u8>
    ensures { GivesKeys by.now key result }
{
    let depth = by.depth as usize;
    if depth >= MOST_STEPS {
        return Err(TOO_DEEP);
    }
    if is_among(&by.keys, depth + 1, key) {
        return Err(ON_PATH);
    }
    Ok(with_key(by.keys, depth + 1, key))
}

/// The addresses, as entries at the front of the room; `None` where it has too few places.
pub(crate) fn kept_addresses<'a>(own: &Addresses, room: &'a mut [IpEntry]) -> Option<&'a [IpEntry]>
    ensures some { IfSome result (λ kept. kept.now ≡ settled_entries own.now.v4 own.now.v6) }
    ensures none { IfNone result (length room.old < length (settled_entries own.now.v4 own.now.v6)) }
{
    let mut count = 0;
    if fill(own.v4.as_slice(), own.v6.as_slice(), room, &mut count) != 0 {
        return None;
    }
    Some(&room[..count])
}

/// The AS numbers, as entries at the front of the room; `None` where it has too few places.
pub(crate) fn kept_numbers<'a>(own: &Blocks, room: &'a mut [AsEntry]) -> Option<&'a [AsEntry]>
    requires { AreBlocksOf AsNumbers own.now }
    ensures some { IfSome result (λ kept. kept.now ≡ map as_entry own.now) }
    ensures none { IfNone result (length room.old < length own.now) }
{
    let mut count = 0;
    if fill_as(own.as_slice(), room, &mut count) != 0 {
        return None;
    }
    Some(&room[..count])
}

/// Resources of each kind.
#[derive(Drop)]
pub(crate) struct Owned {
    /// The addresses.
    pub(crate) addresses: Addresses,
    /// The AS numbers.
    pub(crate) numbers: Blocks,
}

/// The resources that the certificate, whose extensions say this, has under the authority's.
pub(crate) fn owned_under(
    alloc: Global,
    by: &Authority<'_>,
    cert: &CertView<'_>,
    known: &KnownView,
) -> Result<Owned, u8>
    requires { (s : List ℕ) × (x : CertParts) × IsCertAt s cert.now x }
    ensures addresses { IfOk result (λ own. (s : List ℕ) (x : CertParts) → IsCertAt s cert.now x
        → HasAddresses known.now x by.now.ip_blocks.now own.addresses) }
    ensures numbers { IfOk result (λ own. (s : List ℕ) (x : CertParts) → IsCertAt s cert.now x
        → HasNumbers known.now x by.now.as_blocks.now own.numbers) }
    ensures fit { IfOk result (λ own. AreBlocksOf AsNumbers own.numbers) }
    ensures err { IfErr result (λ status. (s : List ℕ) (x : CertParts) → IsCertAt s cert.now x
        → HasNone by.now x known.now status) }
{
    let addresses = match addresses_under(alloc, cert, known, by.ip_blocks) {
        Ok(addresses) => addresses,
        Err(status) => return Err(status),
    };
    match numbers_under(alloc, cert, known, by.as_blocks) {
        Ok(numbers) => Ok(Owned { addresses, numbers }),
        Err(status) => Err(status),
    }
}

/// The authority of the certificate below the other. The error is as the status of [rpki_authority_under].
fn under<'a>(
    alloc: Global,
    by: &Authority<'a>,
    octets: &'a [u8],
    ip_room: &'a mut [IpEntry],
    as_room: &'a mut [AsEntry],
) -> Result<Authority<'a>, u8>
    ensures { MakesUnder by.now octets.now (length ip_room.old, length as_room.old) result }
{
    let cert = match CertView::read(octets) {
        Ok(cert) => cert,
        Err(wrong) => return Err(part_number(wrong.part)),
    };
    let known = match below(by, &cert, Profile::Ca) {
        Ok(known) => known,
        Err(status) => return Err(status),
    };
    let keys = match next_keys(by, <[u8; 20]>::from(key_of(&cert))) {
        Ok(keys) => keys,
        Err(status) => return Err(status),
    };
    let own = match owned_under(alloc, by, &cert, &known) {
        Ok(own) => own,
        Err(status) => return Err(status),
    };
    let Some(ip_blocks) = kept_addresses(&own.addresses, ip_room) else {
        return Err(TOO_SMALL);
    };
    let Some(as_blocks) = kept_numbers(&own.numbers, as_room) else {
        return Err(TOO_SMALL);
    };
    Ok(Authority {
        certificate: Span::of(octets),
        revoked_certs: Span::of(&octets[..0]),
        files: Span::of(&octets[..0]),
        ip_blocks,
        as_blocks,
        moment: by.moment,
        list_digest: [0; 32],
        keys,
        depth: by.depth + 1,
        has_list: false,
        has_manifest: false,
    })
}

/// Makes an authority of a certificate that another authority has issued: tests that it has the profile of a
/// certification authority (RFC 6487 4), names included; that the other has issued it, valid at the moment of the path
/// (RFC 5280 6.1.3); that the other's list doesn't have it; and that no key of the path is its own, so that a path
/// ends. Its resources are settled under the other's by its policy (RFC 6487 7.2, RFC 8360 4.2.4), and written to the
/// front of the two arrays, which are lent to it. It has neither a list nor a manifest yet.
///
/// The status is 0. Else it is, in this order: `NO_MANIFEST`, where the other has none yet; as of
/// `rpki_certificate_of_profile`; `NO_ISSUER`, where the other has no certificate; `CONTENT`, where its moment is none;
/// as of `rpki_certificate_signed_by`; `TOO_NEW`; `TOO_OLD`; `NO_LIST`; as of `rpki_crl_contains`; `REVOKED`;
/// `TOO_DEEP`; `ON_PATH`; as of `rpki_ip_settle` and `rpki_as_settle`; `OTHER_RESOURCES`; `OUT_OF_MEMORY`; or
/// `TOO_SMALL`, where an array has too few places. Then `out` is unchanged, and the arrays may be written over.
#[unsafe(no_mangle)]
pub extern "C" fn rpki_authority_under<'a>(
    alloc: Global,
    by: &Authority<'a>,
    octets: &'a [u8],
    ip_room: &'a mut [IpEntry],
    as_room: &'a mut [AsEntry],
    out: &mut Authority<'a>,
) -> u8
    ensures { IsMadeUnderBy by.now octets.now (length ip_room.old, length as_room.old) result out.old out.new }
{
    if !has_manifest(by) {
        return NO_MANIFEST;
    }
    match under(alloc, by, octets, ip_room, as_room) {
        Ok(made) => {
            *out = made;
            0
        }
        Err(status) => status,
    }
}
