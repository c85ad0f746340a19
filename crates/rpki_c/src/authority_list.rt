//! Authorities of a path, with their revocation lists.

ghost use Rattle.std.specs.Prelude.{◌≡◌};
ghost use Rattle.rpki_c.specs.Authority.{IsMadeWithBy};

use crate::authority::Authority;
use crate::crl::crl_part_number;
use crate::list_issued::list_told;
use crate::span::Span;
use crate::status::NO_ISSUER;
use rpki::crypto::Provider;
use rpki_cert::CertView;
use rpki_crl::CrlView;
use rpki_digests::RsaProvider;

/// Makes an authority with its revocation list: tests that the authority has issued the list, and that it is in force
/// at the moment of the path (RFC 5280 6.3.3, RFC 6487 5). What is written is the authority that was given, with the
/// entries of the list, and its digest by SHA-256, by which `rpki_authority_manifest` tests that the manifest lists it;
/// it has no manifest yet.
///
/// The status is 0. Else it is as that of `rpki_crl_issued_by`, of the authority's certificate and of its moment, and
/// `out` is unchanged. Nothing is allocated.
#[unsafe(no_mangle)]
pub extern "C" fn rpki_authority_list<'a>(
    by: &Authority<'a>,
    octets: &'a [u8],
    out: &mut Authority<'a>,
) -> u8
    ensures { IsMadeWithBy by.now octets.now result out.old out.new }
{
    let list = match CrlView::read(octets) {
        Ok(list) => list,
        Err(wrong) => return crl_part_number(wrong.part),
    };
    let issuer = match CertView::read(by.certificate.octets) {
        Ok(issuer) => issuer,
        Err(_) => return NO_ISSUER,
    };
    let status = list_told(&list, &issuer, &by.moment);
    if status != 0 {
        return status;
    }
    *out = Authority {
        revoked_certs: Span::of(list.tbs.revoked_certs.octets),
        files: Span::of(&octets[..0]),
        list_digest: RsaProvider.sha256(octets),
        has_list: true,
        has_manifest: false,
        ..*by
    };
    0
}
