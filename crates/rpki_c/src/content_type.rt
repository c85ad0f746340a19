//! Types of what signed objects contain, by their identifiers.

ghost use Rattle.std.specs.Prelude.{◌≡◌};
ghost use Rattle.rpki_c.specs.SignedObject.{content_type_number};

/// The contents octets of the identifier of the type of route origin attestations (RFC 9582 3).
const ROUTE_ORIGINS: &[u8; 11] = &[42, 134, 72, 134, 247, 13, 1, 9, 16, 1, 24];

/// The contents octets of the identifier of the type of manifests (RFC 9286 4.1).
const MANIFEST: &[u8; 11] = &[42, 134, 72, 134, 247, 13, 1, 9, 16, 1, 26];

/// The contents octets of the identifier of the type of attestations of providers (draft-ietf-sidrops-aspa-profile).
const PROVIDERS: &[u8; 11] = &[42, 134, 72, 134, 247, 13, 1, 9, 16, 1, 49];

/// The contents octets of the identifier of the type of contacts (RFC 6493 6).
const GHOSTBUSTERS: &[u8; 11] = &[42, 134, 72, 134, 247, 13, 1, 9, 16, 1, 35];

/// The contents octets of the identifier of the type of signed checklists (RFC 9323 3).
const CHECKLIST: &[u8; 11] = &[42, 134, 72, 134, 247, 13, 1, 9, 16, 1, 48];

/// The contents octets of the identifier of the type of keys of trust anchors (RFC 9691 4).
const TRUST_ANCHOR_KEYS: &[u8; 11] = &[42, 134, 72, 134, 247, 13, 1, 9, 16, 1, 50];

/// The number of the type of a content, by the contents octets of its identifier: 1 for route origin attestations, 2
/// for manifests, 3 for attestations of providers, 4 for contacts, 5 for signed checklists, 6 for keys of trust
/// anchors; 0 for any other octets. Nothing is allocated.
#[unsafe(no_mangle)]
pub extern "C" fn rpki_content_type(octets: &[u8]) -> u8
    ensures { result ≡ content_type_number octets.now }
{
    if octets == ROUTE_ORIGINS.as_slice() {
        return 1;
    }
    if octets == MANIFEST.as_slice() {
        return 2;
    }
    if octets == PROVIDERS.as_slice() {
        return 3;
    }
    if octets == GHOSTBUSTERS.as_slice() {
        return 4;
    }
    if octets == CHECKLIST.as_slice() {
        return 5;
    }
    if octets == TRUST_ANCHOR_KEYS.as_slice() {
        return 6;
    }
    0
}
