//! Signed objects that an authority has issued, and others.

use crate::authorities::{Ask, Change, Issuer, asked, octets, text_of};
use crate::repository as made;
use rpki_der_tests::rows;
use rpki_digests::RsaProvider;
use rpki_objects::{Aspa, Roa};
use rpki_valid::CurrentCrl;
use rpki_validation::{Stop, origins_in, providers_in};
use std::alloc::{AllocError, Global};
use std::test::Fail;

/// What octets are asked to be.
#[derive(Clone, Copy, Debug, PartialEq, Eq)]
enum Kind {
    Origins,
    Providers,
}

/// An object, and what it is asked to be.
#[derive(Clone, Copy)]
struct Question {
    kind: Kind,
    object: &'static str,
    change: Change,
}

/// The prefixes of an attestation, as text.
fn origins_text(alloc: Global, roa: &Roa) -> Result<String, AllocError> {
    let mut text = String::new(alloc);
    let mut origins = roa.content().origins();
    for _ in 0..8 {
        if let Some(origin) = origins.next_origin() {
            let one = format!(in alloc; "{origin}; ")?;
            text.push_str(one.as_str())?;
        }
    }
    Ok(text)
}

/// The providers of an attestation, as text.
fn providers_text(alloc: Global, aspa: &Aspa) -> Result<String, AllocError> {
    let customer = aspa.content().customer_as();
    let mut text = format!(in alloc; "AS{customer}:")?;
    for provider in aspa.content().providers() {
        let one = format!(in alloc; " AS{provider}")?;
        text.push_str(one.as_str())?;
    }
    Ok(text)
}

impl Ask for Question {
    fn answer(
        &self,
        alloc: Global,
        list: &CurrentCrl<'_, '_, RsaProvider>,
    ) -> Result<String, Stop> {
        let octets = octets(alloc, self.object, self.change)?;
        match self.kind {
            Kind::Origins => Ok(origins_text(alloc, &origins_in(alloc, list, octets)?)?),
            Kind::Providers => Ok(providers_text(alloc, &providers_in(alloc, list, octets)?)?),
        }
    }
}

/// A name; what the octets are asked to be; the object, and what is done to it; whose list is asked; and the answer, as
/// `tests/validation/make` has it.
const ROWS: &[(&str, Kind, &str, Change, Issuer, &str)] = &rows! {
    ("prefixes of both families", Kind::Origins, made::ORIGINS, Change::None, Issuer::Authority,
     "10.0.0.0/8-24 => 64496; 10.64.0.0/13-13 => 64496; 192.0.2.0/25-25 => 64496; 2001:db8::/32-48 => 64496; "),
    ("a prefix", Kind::Origins, made::ORIGIN, Change::None, Issuer::Authority, "203.0.113.64/26-26 => 0; "),
    ("a prefix that is revoked", Kind::Origins, made::REVOKED, Change::None, Issuer::Authority,
     "invalid: RFC 6487 7.2: revoked certificate"),
    ("a prefix of another", Kind::Origins, made::WIDE, Change::None, Issuer::Authority,
     "invalid: RFC 6487 7.2: resources that the issuer does not have"),
    ("a prefix with another signature", Kind::Origins, made::ORIGIN, Change::Last, Issuer::Authority,
     "invalid: RFC 6488 3: bad signature"),
    ("a prefix under the trust anchor", Kind::Origins, made::ORIGIN, Change::None, Issuer::Anchor,
     "invalid: RFC 6487 7.2: bad signature"),
    ("a prefix that is cut off", Kind::Origins, made::ORIGIN, Change::Cut, Issuer::Authority,
     "malformed: truncated value"),
    ("a prefix, and an octet", Kind::Origins, made::ORIGIN, Change::Follow, Issuer::Authority,
     "malformed: trailing data"),
    ("providers as prefixes", Kind::Origins, made::PROVIDERS, Change::None, Issuer::Authority,
     "malformed: another content type"),
    ("providers", Kind::Providers, made::PROVIDERS, Change::None, Issuer::Authority, "AS64496: AS64499 AS64501"),
    ("providers with another signature", Kind::Providers, made::PROVIDERS, Change::Last, Issuer::Authority,
     "invalid: RFC 6488 3: bad signature"),
    ("providers under the trust anchor", Kind::Providers, made::PROVIDERS, Change::None, Issuer::Anchor,
     "invalid: RFC 6487 7.2: bad signature"),
    ("providers that are cut off", Kind::Providers, made::PROVIDERS, Change::Cut, Issuer::Authority,
     "malformed: truncated value"),
    ("providers, and an octet", Kind::Providers, made::PROVIDERS, Change::Follow, Issuer::Authority,
     "malformed: trailing data"),
    ("prefixes as providers", Kind::Providers, made::ORIGINS, Change::None, Issuer::Authority,
     "malformed: another content type"),
};

#[test]
fn each_object_is_told(rt: HostRuntime) -> Result<(), Fail> {
    for &(name, kind, object, change, issuer, wanted) in ROWS {
        let question = Question {
            kind,
            object,
            change,
        };
        let told = text_of(rt.alloc(), asked(rt.alloc(), issuer, 8, &question))?;
        assert_eq!(rt; told.as_str(), wanted, "{name}");
    }
    Ok(())
}
