//! Route origin attestations: the signed objects of their type (RFC 9582).

ghost use Rattle.std.specs.Prelude.{◌≡◌};
ghost use Rattle.rpki_der.specs.Prelude.{left, Takes, TakesWhole, CanShare};
ghost use Rattle.rpki_contents.specs.Roa.{fields_of, roa};
ghost use Rattle.rpki_objects.specs.TypedObject.{origin_object};

use crate::signed_object::SignedObject;
use crate::strictness::Strictness;
use bytes::Bytes;
use rpki::der::{Constructed, DecodeError, Keep, Shared};
use rpki::oid;
use rpki_contents::RouteOriginAttestation;
use std::alloc::Global;
use std::marker::Model;

/// A route origin attestation: a signed object, and what its content says. Nothing of it is verified.
#[derive(Drop)]
pub struct Roa {
    object: SignedObject,
    content: RouteOriginAttestation,
}

impl Model for Roa {
    ghost use Rattle.rpki_contents.specs.Roa.{AttestationParts};
    ghost use Rattle.rpki_objects.specs.TypedObject.{TypedParts, typed_of};

    ghost Value = { TypedParts AttestationParts };

    ghost view = { λ x. typed_of x.object x.content };
}

/// The attestation that the octets of a content are; where it is `ordered`, with IP version 4 in front.
fn content_of(
    alloc: Global,
    octets: &Bytes,
    ordered: bool,
) -> Result<RouteOriginAttestation, DecodeError>
    ensures { TakesWhole fields_of (roa ordered) octets.now result }
{
    RouteOriginAttestation::decode(alloc, octets.as_slice(), ordered)
}

impl Roa {
    /// Reads a route origin attestation: a signed object as [SignedObject::take_from] reads it, whose content has the
    /// type of one and is one (RFC 9582 3, 4), as [RouteOriginAttestation::decode] reads it. Of the strictness the
    /// signed attributes and the order of the families are looked at. An allocator copies the octets, and
    /// [Shared](rpki::der::Shared) shares them; requires that `keep` can keep parts of the rest.
    ///
    /// The errors are those of [SignedObject::take_from]; then `Content` with the text `another content type`; then
    /// those of [RouteOriginAttestation::decode] for the content; `OutOfMemory` if allocation fails. An error leaves
    /// the cursor where it was.
    pub fn take_from<K: Keep>(
        keep: K,
        strictness: Strictness,
        cons: &mut Constructed<'_>,
    ) -> Result<Roa, DecodeError>
        requires { K.holds keep (left cons.old) }
        ensures { Takes (λ x. x) (origin_object strictness) (left cons.old) (left cons.new) result }
    {
        let mut after = *cons;
        let object = SignedObject::take_from(keep, strictness.attributes, &mut after)?;
        if !object.has_type(oid::ROUTE_ORIGIN_AUTHZ) {
            return Err(DecodeError::content("another content type"));
        }
        let content = content_of(keep.allocator(), object.content(), strictness.families)?;
        *cons = after;
        Ok(Roa { object, content })
    }

    /// A route origin attestation, and nothing else. It shares the octets.
    ///
    /// The errors are those of [Roa::take_from]; then `Trailing` if something follows the object.
    pub fn decode(alloc: Global, bytes: Bytes, strictness: Strictness) -> Result<Roa, DecodeError>
        ensures { TakesWhole (λ x. x) (origin_object strictness) bytes result }
    {
        Constructed::new(&bytes).whole_with(
            Shared::new(alloc, &bytes),
            |cons, keep|
                requires { CanShare keep (left cons.old) }
            { Roa::take_from(keep, strictness, cons) },
        )
    }

    /// The signed object.
    pub fn object(&self) -> &SignedObject
        ensures { result.now ≡ self.now.object }
    {
        &self.object
    }

    /// What the content says.
    pub fn content(&self) -> &RouteOriginAttestation
        ensures { result.now ≡ self.now.content }
    {
        &self.content
    }
}
