//! Certificates that an authority has issued, and others.

use crate::authorities::{Ask, Change, Issuer, asked, cert_of, octets, text_of};
use crate::repository as made;
use rpki_cert::Cert;
use rpki_der_tests::rows;
use rpki_digests::RsaProvider;
use rpki_resources::{AddressFamily, Blocks, ResourceKind};
use rpki_valid::{CurrentCrl, ResourceSet};
use rpki_validation::{Stop, authority_of, cert_in, is_authority, router_of};
use std::alloc::{AllocError, Global};
use std::test::Fail;

/// What a certificate is asked to be.
#[derive(Clone, Copy, Debug, PartialEq, Eq)]
enum Kind {
    Authority,
    Router,
}

/// A certificate, and what it is asked to be.
#[derive(Clone, Copy)]
struct Question {
    kind: Kind,
    cert: &'static str,
    change: Change,
}

/// The resources of one kind, as text.
fn blocks_text(alloc: Global, blocks: &Blocks, kind: ResourceKind) -> Result<String, AllocError> {
    match blocks.text(kind) {
        Some(text) => format!(in alloc; "{text}"),
        None => format!(in alloc; "others"),
    }
}

/// The resources, as text.
fn resources_text(alloc: Global, held: &ResourceSet) -> Result<String, AllocError> {
    let v4 = ResourceKind::Addresses(AddressFamily::Ipv4);
    let v6 = ResourceKind::Addresses(AddressFamily::Ipv6);
    let v4 = blocks_text(alloc, &held.ipv4, v4)?;
    let v6 = blocks_text(alloc, &held.ipv6, v6)?;
    let numbers = blocks_text(alloc, &held.asn, ResourceKind::AsNumbers)?;
    format!(in alloc; "{v4}; {v6}; {numbers}")
}

impl Ask for Question {
    fn answer(
        &self,
        alloc: Global,
        list: &CurrentCrl<'_, '_, RsaProvider>,
    ) -> Result<String, Stop> {
        let cert = cert_in(alloc, octets(alloc, self.cert, self.change)?)?;
        match self.kind {
            Kind::Authority => {
                let authority = authority_of(alloc, list, cert)?;
                let held = resources_text(alloc, authority.resources())?;
                Ok(format!(in alloc; "{} down: {held}", authority.depth())?)
            }
            Kind::Router => {
                let router = router_of(alloc, list, cert)?;
                Ok(resources_text(alloc, &router.resources)?)
            }
        }
    }
}

/// A name; what the certificate is asked to be; the certificate, and what is done to it; whose list is asked; how many
/// authorities there are at most below the trust anchor; and the answer, as `tests/validation/make` has it.
const ROWS: &[(&str, Kind, &str, Change, Issuer, u32, &str)] = &rows! {
    ("the authority", Kind::Authority, made::AUTHORITY, Change::None, Issuer::Anchor, 1,
     "1 down: 10.0.0.0/8, 192.0.2.0/25, 198.51.100.1-198.51.100.254, 203.0.113.64/26; \
     2001:db8::/32, 3fff::1-3fff:0:ffff::; AS64496, AS64498-AS64511, AS4200000000-AS4200000009"),
    ("the authority below itself, with what it inherits", Kind::Authority, made::ITSELF, Change::None,
     Issuer::Authority, 2,
     "2 down: 10.0.0.0/8, 192.0.2.0/25, 198.51.100.1-198.51.100.254, 203.0.113.64/26; \
     2001:db8::/32, 3fff::1-3fff:0:ffff::; AS64496, AS64498-AS64511, AS4200000000-AS4200000009"),
    ("the authority below itself, one too deep", Kind::Authority, made::ITSELF, Change::None, Issuer::Authority, 1,
     "invalid: path is too long"),
    ("an authority that is revoked", Kind::Authority, made::LOST, Change::None, Issuer::Authority, 8,
     "invalid: RFC 6487 7.2: revoked certificate"),
    ("an authority with another signature", Kind::Authority, made::AUTHORITY, Change::Last, Issuer::Anchor, 8,
     "invalid: RFC 6487 7.2: bad signature"),
    ("a router as an authority", Kind::Authority, made::ROUTER, Change::None, Issuer::Authority, 8,
     "invalid: RFC 7935 3: key is no RSA key of 2048 bits and the exponent 65537"),
    ("a router", Kind::Router, made::ROUTER, Change::None, Issuer::Authority, 8, "; ; AS64496"),
    ("a router with another signature", Kind::Router, made::ROUTER, Change::Last, Issuer::Authority, 8,
     "invalid: RFC 6487 7.2: bad signature"),
    ("a router under the trust anchor", Kind::Router, made::ROUTER, Change::None, Issuer::Anchor, 8,
     "invalid: RFC 6487 7.2: bad signature"),
    ("an authority as a router", Kind::Router, made::ITSELF, Change::None, Issuer::Authority, 8,
     "invalid: RFC 8608 3.1: key is no uncompressed point on P-256"),
};

#[test]
fn each_certificate_is_told(rt: HostRuntime) -> Result<(), Fail> {
    for &(name, kind, cert, change, issuer, deepest, wanted) in ROWS {
        let question = Question { kind, cert, change };
        let told = text_of(rt.alloc(), asked(rt.alloc(), issuer, deepest, &question))?;
        assert_eq!(rt; told.as_str(), wanted, "{name}");
    }
    Ok(())
}

/// The octets of basic constraints with cA TRUE, and with cA FALSE.
const IS_AUTHORITY: &str = "0603551d130101ff040530030101ff";

const IS_NONE: &str = "0603551d130101ff04053003010100";

/// A name; a certificate; what is done to it; and whether it is that of an authority.
type Told = (&'static str, &'static str, Change, &'static str);

const TOLD: &[Told] = &rows! {
    ("an authority", made::AUTHORITY, Change::None, "true"),
    ("a trust anchor", made::ANCHOR, Change::None, "true"),
    ("a router", made::ROUTER, Change::None, "false"),
    ("constraints that say no", made::AUTHORITY, Change::Octets(IS_AUTHORITY, IS_NONE), "invalid: unexpected value"),
    ("a certificate that is cut off", made::AUTHORITY, Change::Cut, "malformed: truncated value"),
    ("a certificate, and an octet", made::AUTHORITY, Change::Follow, "malformed: trailing data"),
    ("an object", made::ORIGIN, Change::None, "malformed: unexpected value"),
};

/// Whether a certificate is that of an authority, as text.
fn told(alloc: Global, row: &Told) -> Result<String, Stop> {
    let cert = cert_in(alloc, octets(alloc, row.1, row.2)?)?;
    let answer = is_authority(&cert)?;
    Ok(format!(in alloc; "{answer}")?)
}

#[test]
fn authorities_are_told_from_routers(rt: HostRuntime) -> Result<(), Fail> {
    for row in TOLD {
        let text = text_of(rt.alloc(), told(rt.alloc(), row))?;
        assert_eq!(rt; text.as_str(), row.3, "{}", row.0);
    }
    Ok(())
}

/// Where the certificate says that its authority publishes.
fn place(alloc: Global, text: &str) -> Result<String, Stop> {
    let cert: Cert = cert_of(alloc, text)?;
    match cert.tbs().rpki_manifest(alloc)? {
        Some(uri) => Ok(format!(in alloc; "{uri}")?),
        None => Ok(format!(in alloc; "nowhere")?),
    }
}

/// A certificate, and the manifest that it names.
const PLACES: &[(&str, &str)] = &[
    (made::ANCHOR, "rsync://rpki.example/repo/ta/ta.mft"),
    (made::AUTHORITY, "rsync://rpki.example/repo/ca/ca.mft"),
    (made::LOST, "rsync://rpki.example/repo/lost/lost.mft"),
    (made::ROUTER, "nowhere"),
];

#[test]
fn certificates_are_those_that_were_made(rt: HostRuntime) -> Result<(), Fail> {
    for (cert, wanted) in PLACES {
        let text = text_of(rt.alloc(), place(rt.alloc(), cert))?;
        assert_eq!(rt; text.as_str(), *wanted);
    }
    Ok(())
}
