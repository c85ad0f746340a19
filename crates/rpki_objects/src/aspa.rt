//! Attestations of the providers of an autonomous system: the signed objects of their type
//! (draft-ietf-sidrops-aspa-profile).

ghost use Rattle.std.specs.Prelude.{◌≡◌};
ghost use Rattle.rpki_der.specs.Prelude.{left, Takes, TakesWhole, CanShare};
ghost use Rattle.rpki_contents.specs.Aspa.{aspa};
ghost use Rattle.rpki_objects.specs.TypedObject.{aspa_object};

use crate::signed_object::SignedObject;
use bytes::Bytes;
use rpki::der::{Constructed, DecodeError, Keep, Shared};
use rpki::oid;
use rpki_contents::AsProviderAttestation;
use std::alloc::Global;
use std::marker::Model;

/// An attestation of providers: a signed object, and what its content says. Nothing of it is verified.
#[derive(Drop)]
pub struct Aspa {
    object: SignedObject,
    content: AsProviderAttestation,
}

impl Model for Aspa {
    ghost use Rattle.rpki_contents.specs.Aspa.{AspaParts};
    ghost use Rattle.rpki_objects.specs.TypedObject.{TypedParts, typed_of};

    ghost Value = { TypedParts AspaParts };

    ghost view = { λ x. typed_of x.object x.content };
}

/// The attestation that the octets of a content are.
fn content_of(alloc: Global, octets: &Bytes) -> Result<AsProviderAttestation, DecodeError>
    ensures { TakesWhole (λ x. x) aspa octets.now result }
{
    AsProviderAttestation::decode(alloc, octets.as_slice())
}

impl Aspa {
    /// Reads an attestation of providers: a signed object as [SignedObject::take_from] reads it, whose content has the
    /// type of one and is one (draft-ietf-sidrops-aspa-profile 2, 3), as [AsProviderAttestation::decode] reads it. An
    /// allocator copies the octets, and [Shared](rpki::der::Shared) shares them; requires that `keep` can keep parts of
    /// the rest.
    ///
    /// The errors are those of [SignedObject::take_from]; then `Content` with the text `another content type`; then
    /// those of [AsProviderAttestation::decode] for the content; `OutOfMemory` if allocation fails. An error leaves the
    /// cursor where it was.
    pub fn take_from<K: Keep>(
        keep: K,
        strict: bool,
        cons: &mut Constructed<'_>,
    ) -> Result<Aspa, DecodeError>
        requires { K.holds keep (left cons.old) }
        ensures { Takes (λ x. x) (aspa_object strict) (left cons.old) (left cons.new) result }
    {
        let mut after = *cons;
        let object = SignedObject::take_from(keep, strict, &mut after)?;
        if !object.has_type(oid::CT_ASPA) {
            return Err(DecodeError::content("another content type"));
        }
        let content = content_of(keep.allocator(), object.content())?;
        *cons = after;
        Ok(Aspa { object, content })
    }

    /// An attestation of providers, and nothing else. It shares the octets.
    ///
    /// The errors are those of [Aspa::take_from]; then `Trailing` if something follows the object.
    pub fn decode(alloc: Global, bytes: Bytes, strict: bool) -> Result<Aspa, DecodeError>
        ensures { TakesWhole (λ x. x) (aspa_object strict) bytes result }
    {
        Constructed::new(&bytes).whole_with(
            Shared::new(alloc, &bytes),
            |cons, keep|
                requires { CanShare keep (left cons.old) }
            { Aspa::take_from(keep, strict, cons) },
        )
    }

    /// The signed object.
    pub fn object(&self) -> &SignedObject
        ensures { result.now ≡ self.now.object }
    {
        &self.object
    }

    /// What the content says.
    pub fn content(&self) -> &AsProviderAttestation
        ensures { result.now ≡ self.now.content }
    {
        &self.content
    }
}
