//! Extended key usage (RFC 5280 4.2.1.12, RFC 8209 3.1.3.2).

ghost use Rattle.std.specs.Prelude.{◌≡◌, ◌≢◌, ◌||◌, IfErr};
ghost use Rattle.rpki_der.specs.Cursor.{left};
ghost use Rattle.rpki_x509.specs.InPlace.{GivesAll};
ghost use Rattle.rpki_cert.specs.ExtensionContent.{ArePurposes, SpellsPurposes};

use crate::read::part::take_oid_as;
use rpki::der::{Constructed, DecodeError, Tag};
use rpki::oid;
use rpki_x509::inside;

/// Whether one of the two is true.
fn is_either(one: bool, other: bool) -> bool
    ensures { result ≡ (one || other) }
{
    one || other
}

/// Whether a router's purpose is one of those that these contents are; there is one at least.
fn purposes_in(contents: Constructed<'_>) -> Result<bool, DecodeError>
    ensures gives { GivesAll (λ b. b) ArePurposes (left contents.entry) result }
    ensures kind { IfErr result (λ e. e ≢ DecodeError.OutOfMemory) }
{
    if contents.is_empty() {
        return Err(DecodeError::content("no key purposes"));
    }
    let mut rest = contents;
    let mut router = false;
    'purposes: while !rest.is_empty() {
        let found = take_oid_as(&mut rest, oid::KP_BGPSEC_ROUTER)?;
        router = is_either(router, found);
    }
    Ok(router)
}

/// Extended key usage: a SEQUENCE of the object identifiers of purposes, one at least, and nothing else. Returns
/// whether one is that of a BGPsec router (RFC 8209 3.1.3.2). Allocates nothing.
pub fn read_purposes(octets: Constructed<'_>) -> Result<bool, DecodeError>
    ensures gives { GivesAll (λ b. b) SpellsPurposes (left octets.entry) result }
    ensures kind { IfErr result (λ e. e ≢ DecodeError.OutOfMemory) }
{
    let contents = inside(octets, Tag::SEQUENCE)?;
    purposes_in(contents)
}
