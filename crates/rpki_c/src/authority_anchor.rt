//! Authorities of trust anchors, with which a path begins.

ghost use Rattle.std.specs.Prelude.{◌≡◌, List, ℕ, IfOk, IfErr, length};
ghost use Rattle.rpki_resources.specs.declared.kind.ResourceKind.TheVariants.{AsNumbers};
ghost use Rattle.rpki_resources.specs.Encoded.{AreBlocksOf};
ghost use Rattle.rpki_cert.specs.Cert.{CertParts};
ghost use Rattle.rpki_cert.specs.View.{IsCertAt};
ghost use Rattle.rpki_c.specs.Below.{Then};
ghost use Rattle.rpki_c.specs.Issued.{key_octets, IsToldSigned};
ghost use Rattle.rpki_c.specs.Moments.{IsToldOf};
ghost use Rattle.rpki_c.specs.Owned.{HasAnchoredAddresses, HasAnchoredNumbers};
ghost use Rattle.rpki_c.specs.Authority.{IsRootTold, HasNoneAnchored, MakesOf, IsMadeOfAnchor};

use crate::anchor::has_key;
use crate::anchored::{anchored_addresses, anchored_numbers};
use crate::as_blocks::AsEntry;
use crate::authority::Authority;
use crate::authority_making::{Owned, kept_addresses, kept_numbers, with_key};
use crate::below::profiled;
use crate::certificate::part_number;
use crate::ip_blocks::IpEntry;
use crate::issued::key_of;
use crate::periods::told_of;
use crate::span::Span;
use crate::status::{CONTENT, OTHER_ANCHOR, OTHER_KEY, TOO_SMALL};
use crate::time_writing::time_of;
use crate::times::Moment;
use crate::verification::verified;
use rpki_cert::{CertView, KnownView, Profile, is_identifier};
use rpki_time::Time;
use std::alloc::Global;

/// Whether the certificate names its own key (RFC 6487 4.8.2), and that key has signed it.
fn self_told(cert: &CertView<'_>, known: &KnownView) -> u8
    ensures { (s : List ℕ) (x : CertParts) → IsCertAt s cert.now x → IsToldSigned x x known.now result }
{
    if !is_identifier(known.subject_key_identifier, key_of(cert)) {
        return OTHER_KEY;
    }
    verified(
        &cert.tbs.named.keyed.key,
        cert.parts.signed.octets,
        cert.parts.signature.octets,
    )
}

/// Whether the certificate's own key has signed it, and whether its period holds at the time.
fn self_told_at(cert: &CertView<'_>, known: &KnownView, time: Time) -> u8
    ensures { (s : List ℕ) (x : CertParts) → IsCertAt s cert.now x
        → Then (IsToldSigned x x known.now) (IsToldOf x.tbs.validity time) result }
{
    let status = self_told(cert, known);
    if status != 0 {
        return status;
    }
    told_of(cert.tbs.named.validity, time)
}

/// Whether the certificate has the key of the locator, which has signed it, and whether it is valid at the moment.
fn root_told(cert: &CertView<'_>, known: &KnownView, key: &[u8], moment: &Moment) -> u8
    ensures { (s : List ℕ) (x : CertParts) (h : IsCertAt s cert.now x)
        → IsRootTold x known.now (key_octets x s h.spelled) key.now moment.now result }
{
    if !has_key(cert, key) {
        return OTHER_ANCHOR;
    }
    match time_of(moment) {
        Some(time) => self_told_at(cert, known, time),
        None => CONTENT,
    }
}

/// The resources that the certificate lists.
fn owned_by(alloc: Global, cert: &CertView<'_>) -> Result<Owned, u8>
    requires { (s : List ℕ) × (x : CertParts) × IsCertAt s cert.now x }
    ensures addresses { IfOk result (λ own. (s : List ℕ) (x : CertParts) → IsCertAt s cert.now x
        → HasAnchoredAddresses x own.addresses) }
    ensures numbers { IfOk result (λ own. (s : List ℕ) (x : CertParts) → IsCertAt s cert.now x
        → HasAnchoredNumbers x own.numbers) }
    ensures fit { IfOk result (λ own. AreBlocksOf AsNumbers own.numbers) }
    ensures err { IfErr result (λ status. (s : List ℕ) (x : CertParts) → IsCertAt s cert.now x
        → HasNoneAnchored x status) }
{
    let addresses = match anchored_addresses(alloc, cert) {
        Ok(addresses) => addresses,
        Err(status) => return Err(status),
    };
    match anchored_numbers(alloc, cert) {
        Ok(numbers) => Ok(Owned { addresses, numbers }),
        Err(status) => Err(status),
    }
}

/// The authority of the trust anchor. The error is as the status of [rpki_authority_anchor].
fn root<'a>(
    alloc: Global,
    octets: &'a [u8],
    key: &[u8],
    moment: &Moment,
    ip_room: &'a mut [IpEntry],
    as_room: &'a mut [AsEntry],
) -> Result<Authority<'a>, u8>
    ensures { MakesOf key.now moment.now octets.now (length ip_room.old, length as_room.old) result }
{
    let cert = match CertView::read(octets) {
        Ok(cert) => cert,
        Err(wrong) => return Err(part_number(wrong.part)),
    };
    let known = match profiled(&cert, Profile::Ta) {
        Ok(known) => known,
        Err(status) => return Err(status),
    };
    let told = root_told(&cert, &known, key, moment);
    if told != 0 {
        return Err(told);
    }
    let own = match owned_by(alloc, &cert) {
        Ok(own) => own,
        Err(status) => return Err(status),
    };
    let Some(ip_blocks) = kept_addresses(&own.addresses, ip_room) else {
        return Err(TOO_SMALL);
    };
    let Some(as_blocks) = kept_numbers(&own.numbers, as_room) else {
        return Err(TOO_SMALL);
    };
    Ok(Authority {
        certificate: Span::of(octets),
        revoked_certs: Span::of(&octets[..0]),
        files: Span::of(&octets[..0]),
        ip_blocks,
        as_blocks,
        moment: *moment,
        list_digest: [0; 32],
        keys: with_key([[0; 20]; 33], 0, <[u8; 20]>::from(key_of(&cert))),
        depth: 0,
        has_list: false,
        has_manifest: false,
    })
}

/// Makes the authority of a trust anchor, with which a path begins: tests that the certificate has the profile of one
/// (RFC 6487 4, RFC 8630 2.3), names included, and the public key that its locator has, a SubjectPublicKeyInfo (RFC
/// 8630 2.2, 3); that this key has signed it; and that it is valid at the moment, at which all of the path is asked.
/// Its resources are written to the front of the two arrays, which are lent to it. It has neither a list nor a manifest
/// yet.
///
/// The status is 0. Else it is, in this order: as of `rpki_certificate_of_profile`; `OTHER_ANCHOR`; `CONTENT`, where
/// the years 0 to 9999 have no such time as the moment; `OTHER_KEY`; `KEY_NOT_ACCEPTED` or `BAD_SIGNATURE`, as of
/// `rpki_verify`; `TOO_NEW`; `TOO_OLD`; `OUT_OF_MEMORY`; or `TOO_SMALL`, where an array has too few places. Then `out`
/// is unchanged, and the arrays may be written over.
#[unsafe(no_mangle)]
pub extern "C" fn rpki_authority_anchor<'a>(
    alloc: Global,
    octets: &'a [u8],
    key: &[u8],
    moment: &Moment,
    ip_room: &'a mut [IpEntry],
    as_room: &'a mut [AsEntry],
    out: &mut Authority<'a>,
) -> u8
    ensures { IsMadeOfAnchor octets.now key.now moment.now (length ip_room.old, length as_room.old) result
        out.old out.new }
{
    match root(alloc, octets, key, moment, ip_room, as_room) {
        Ok(made) => {
            *out = made;
            0
        }
        Err(status) => status,
    }
}
