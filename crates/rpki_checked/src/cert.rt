//! Certificates of authorities, of trust anchors, and of routers (RFC 6487 4, 7.2, RFC 8630 2, RFC 8209 3).

ghost use Rattle.std.specs.Prelude.{◌≡◌, IfOk, IfErr};
ghost use Rattle.rpki.specs.Checkers.{checkers_of};
ghost use Rattle.rpki_cert.specs.Cert.{SpellsCert};
ghost use Rattle.rpki_issue.specs.Signing.{IsIssuedCert};
ghost use Rattle.rpki_valid.specs.Verified.{terms_in};
ghost use Rattle.rpki_checked.specs.Checked.{AreOnly};
ghost use Rattle.rpki_checked.specs.Authorities.{IsAuthorityBelow, IsNoAuthority, IsAuthorityRefusal};
ghost use Rattle.rpki_checked.specs.Authorities.{IsAnchorOf, IsNoAnchorOf, IsAnchorRefusal};
ghost use Rattle.rpki_checked.specs.Authorities.{IsRouterBelow, IsNoRouter, IsRouterRefusal};

use crate::error::CheckError;
use crate::read::read_cert;
use bytes::Bytes;
use rpki::der::Captured;
use rpki::repository::error::ValidationError;
use rpki::repository::x509::Time;
use rpki_issue::UnsignedCert;
use rpki_rsa::PreparingProvider;
use rpki_valid::{CurrentCrl, ResourceCert, ResourceSet, Terms};
use std::alloc::Global;

/// The authority whose certificate the octets are, if it is valid by the list.
fn verify<'p, P: PreparingProvider>(
    alloc: Global,
    issuer: &CurrentCrl<'_, 'p, P>,
    octets: &Captured,
) -> Result<ResourceCert<'p, P>, ValidationError>
    ensures one { IfOk result (λ v. AreOnly SpellsCert octets.now v.cert) }
    ensures valid { IfOk result (λ v. IsAuthorityBelow P.Provider issuer.now v) }
    ensures err { IfErr result (λ e. IsNoAuthority P.Provider issuer.now octets.now e) }
{
    let cert = match read_cert(alloc, octets) {
        Ok(cert) => cert,
        Err(e) => return Err(e),
    };
    match issuer.verify_ca(alloc, cert) {
        Ok(authority) => Ok(authority),
        Err(e) => Err(e),
    }
}

/// The certificate of an authority with this signature of what is to be signed, as
/// [UnsignedCert::signed] makes it with the key of the list's authority, if it is valid by the list at its moment, as
/// [CurrentCrl::verify_ca] says; and the authority, which issues what is below it.
///
/// The errors are `Refused` with what that step refuses; then `Invalid` with that of [CurrentCrl::verify_ca], or
/// `OutOfMemory` if allocation fails.
pub fn issue_authority<'p, P: PreparingProvider>(
    alloc: Global,
    issuer: &CurrentCrl<'_, 'p, P>,
    unsigned: UnsignedCert,
    signature: Bytes,
) -> Result<(Captured, ResourceCert<'p, P>), CheckError>
    ensures made { IfOk result (λ r. IsIssuedCert (checkers_of P.Provider issuer.now.issuer.provider)
        issuer.now.issuer.cert.tbs.key unsigned signature r.0) }
    // The octets are the certificate of the authority.
    ensures one { IfOk result (λ r. AreOnly SpellsCert r.0 r.1.cert) }
    ensures valid { IfOk result (λ r. IsAuthorityBelow P.Provider issuer.now r.1) }
    ensures err { IfErr result (λ e. IsAuthorityRefusal P.Provider issuer.now unsigned signature e) }
{
    let authority = issuer.issuer();
    let key = authority.cert().tbs().subject_public_key_info();
    let made = match unsigned.signed(alloc, authority.provider(), key, signature) {
        Ok(made) => made,
        Err(e) => return Err(CheckError::Refused(e)),
    };
    match verify(alloc, issuer, &made) {
        Ok(found) => Ok((made, found)),
        Err(e) => Err(CheckError::Invalid(e)),
    }
}

/// The trust anchor that the octets are, if it is valid at the moment.
fn verify_top<'p, P: PreparingProvider>(
    alloc: Global,
    provider: &'p P,
    terms: Terms<'p>,
    at: Time,
    octets: &Captured,
) -> Result<ResourceCert<'p, P>, ValidationError>
    ensures one { IfOk result (λ v. AreOnly SpellsCert octets.now v.cert) }
    ensures valid { IfOk result (λ v. IsAnchorOf (terms_in terms.entry) (checkers_of P.Provider provider.now) at v) }
    ensures provider { IfOk result (λ v. v.provider ≡ provider.now) }
    ensures err { IfErr result (λ e. IsNoAnchorOf (terms_in terms.entry) (checkers_of P.Provider provider.now) at
        octets.now e) }
{
    let cert = match read_cert(alloc, octets) {
        Ok(cert) => cert,
        Err(e) => return Err(e),
    };
    match ResourceCert::verify_ta(alloc, cert, provider, terms, at) {
        Ok(anchor) => Ok(anchor),
        Err(e) => Err(e),
    }
}

/// A trust anchor with this signature of what is to be signed, as [UnsignedCert::signed] makes it with the key of these
/// terms, if it is valid at the moment, as [ResourceCert::verify_ta] says; and the authority, which issues what is
/// below it.
///
/// The errors are `Refused` with what that step refuses; then `Invalid` with that of [ResourceCert::verify_ta], or
/// `OutOfMemory` if allocation fails.
pub fn issue_anchor<'p, P: PreparingProvider>(
    alloc: Global,
    provider: &'p P,
    terms: Terms<'p>,
    at: Time,
    unsigned: UnsignedCert,
    signature: Bytes,
) -> Result<(Captured, ResourceCert<'p, P>), CheckError>
    ensures made { IfOk result (λ r. IsIssuedCert (checkers_of P.Provider provider.now) terms.entry.key.now unsigned
        signature r.0) }
    // The octets are the certificate of the authority.
    ensures one { IfOk result (λ r. AreOnly SpellsCert r.0 r.1.cert) }
    ensures valid { IfOk result (λ r. IsAnchorOf (terms_in terms.entry) (checkers_of P.Provider provider.now) at r.1) }
    ensures provider { IfOk result (λ r. r.1.provider ≡ provider.now) }
    ensures err { IfErr result (λ e. IsAnchorRefusal (terms_in terms.entry) (checkers_of P.Provider provider.now) at
        unsigned signature e) }
{
    let made = match unsigned.signed(alloc, provider, terms.key, signature) {
        Ok(made) => made,
        Err(e) => return Err(CheckError::Refused(e)),
    };
    match verify_top(alloc, provider, terms, at, &made) {
        Ok(found) => Ok((made, found)),
        Err(e) => Err(CheckError::Invalid(e)),
    }
}

/// The resources of the router whose certificate the octets are, if it is valid by the list.
fn verify_router<P: PreparingProvider>(
    alloc: Global,
    issuer: &CurrentCrl<'_, '_, P>,
    octets: &Captured,
) -> Result<ResourceSet, ValidationError>
    ensures valid { IfOk result (λ v. IsRouterBelow P.Provider issuer.now octets.now v) }
    ensures err { IfErr result (λ e. IsNoRouter P.Provider issuer.now octets.now e) }
{
    let cert = match read_cert(alloc, octets) {
        Ok(cert) => cert,
        Err(e) => return Err(e),
    };
    match issuer.verify_router(alloc, &cert) {
        Ok(resources) => Ok(resources),
        Err(e) => Err(e),
    }
}

/// The certificate of a BGPsec router with this signature of what is to be signed, as [UnsignedCert::signed] makes it
/// with the key of the list's authority, if it is valid by the list at its moment, as [CurrentCrl::verify_router] says;
/// and the router's resources.
///
/// The errors are `Refused` with what that step refuses; then `Invalid` with that of [CurrentCrl::verify_router], or
/// `OutOfMemory` if allocation fails.
pub fn issue_router<P: PreparingProvider>(
    alloc: Global,
    issuer: &CurrentCrl<'_, '_, P>,
    unsigned: UnsignedCert,
    signature: Bytes,
) -> Result<(Captured, ResourceSet), CheckError>
    ensures made { IfOk result (λ r. IsIssuedCert (checkers_of P.Provider issuer.now.issuer.provider)
        issuer.now.issuer.cert.tbs.key unsigned signature r.0) }
    // The octets are the certificate of a router with these resources.
    ensures valid { IfOk result (λ r. IsRouterBelow P.Provider issuer.now r.0 r.1) }
    ensures err { IfErr result (λ e. IsRouterRefusal P.Provider issuer.now unsigned signature e) }
{
    let authority = issuer.issuer();
    let key = authority.cert().tbs().subject_public_key_info();
    let made = match unsigned.signed(alloc, authority.provider(), key, signature) {
        Ok(made) => made,
        Err(e) => return Err(CheckError::Refused(e)),
    };
    match verify_router(alloc, issuer, &made) {
        Ok(resources) => Ok((made, resources)),
        Err(e) => Err(CheckError::Invalid(e)),
    }
}
