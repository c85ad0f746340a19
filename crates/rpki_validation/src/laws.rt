//! Laws of the definitions: each function does nothing, and its contract is the law.

ghost use Rattle.rpki_validation.specs.Authorities.{ReachedAreAuthorities};
ghost use Rattle.rpki_validation.specs.Isolation.{AreOriginsIsolated, AreProvidersIsolated, AreRoutersIsolated};
ghost use Rattle.rpki_validation.specs.SignedDown.{AreOriginsSignedDown, AreProvidersSignedDown, AreRoutersSignedDown};

use rpki::crypto::Provider;

/// What is reached from a locator is an authority: a path of authorities leads from it to the trust anchor, each of
/// which is valid at the moment, and on no list of the one above that counts then; and it has no more steps than the
/// terms permit (RFC 6487 7.2).
pub fn reached_are_authorities<P: Provider>(_provider: &P)
    ensures { ReachedAreAuthorities P.Provider _provider.now }
{}

/// A payload under a locator was signed down from the locator's key: a path of certificates leads from it to the trust
/// anchor, each signed by the one above and valid at the moment, within its resources, and not on its list, which
/// counts then; and what says it keeps the rules of its type (RFC 6488 3, RFC 9582 5).
pub fn payloads_are_signed_down<P: Provider>(_provider: &P)
    ensures origins { AreOriginsSignedDown P.Provider _provider.now }
    ensures providers { AreProvidersSignedDown P.Provider _provider.now }
    ensures routers { AreRoutersSignedDown P.Provider _provider.now }
{}

/// An authority harms only itself and what is below it: two snapshots that agree at the URIs where an authority and
/// those above it publish give it the same payloads, whatever is elsewhere.
pub fn payloads_are_isolated<P: Provider>(_provider: &P)
    ensures origins { AreOriginsIsolated P.Provider _provider.now }
    ensures providers { AreProvidersIsolated P.Provider _provider.now }
    ensures routers { AreRoutersIsolated P.Provider _provider.now }
{}
