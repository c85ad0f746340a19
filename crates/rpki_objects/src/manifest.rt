//! Manifests: the signed objects of their type (RFC 9286).

ghost use Rattle.std.specs.Prelude.{◌≡◌};
ghost use Rattle.rpki_der.specs.Prelude.{left, Takes, TakesWhole, CanShare};
ghost use Rattle.rpki_contents.specs.Manifest.{manifest};
ghost use Rattle.rpki_objects.specs.TypedObject.{manifest_object};

use crate::signed_object::SignedObject;
use bytes::Bytes;
use rpki::der::{Constructed, DecodeError, Keep, Shared};
use rpki::oid;
use rpki_contents::ManifestContent;
use std::alloc::Global;
use std::marker::Model;

/// A manifest: a signed object, and what its content says. Nothing of it is verified.
#[derive(Drop)]
pub struct Manifest {
    object: SignedObject,
    content: ManifestContent,
}

impl Model for Manifest {
    ghost use Rattle.rpki_contents.specs.Manifest.{ManifestParts};
    ghost use Rattle.rpki_objects.specs.TypedObject.{TypedParts, typed_of};

    ghost Value = { TypedParts ManifestParts };

    ghost view = { λ x. typed_of x.object x.content };
}

/// The manifest that the octets of a content are. It shares them.
fn content_of(alloc: Global, octets: &Bytes) -> Result<ManifestContent, DecodeError>
    ensures { TakesWhole (λ x. x) manifest octets.now result }
{
    Constructed::new(octets).whole_with(
        Shared::new(alloc, octets),
        |cons, keep|
            requires { CanShare keep (left cons.old) }
        { ManifestContent::take_from(keep, cons) },
    )
}

impl Manifest {
    /// Reads a manifest: a signed object as [SignedObject::take_from] reads it, whose content has the type of a
    /// manifest and is one (RFC 9286 4.1), as [ManifestContent::decode] reads it. An allocator copies the octets, and
    /// [Shared](rpki::der::Shared) shares them; requires that `keep` can keep parts of the rest.
    ///
    /// The errors are those of [SignedObject::take_from]; then `Content` with the text `another content type`; then
    /// those of [ManifestContent::decode] for the content; `OutOfMemory` if allocation fails. An error leaves the
    /// cursor where it was.
    pub fn take_from<K: Keep>(
        keep: K,
        strict: bool,
        cons: &mut Constructed<'_>,
    ) -> Result<Manifest, DecodeError>
        requires { K.holds keep (left cons.old) }
        ensures { Takes (λ x. x) (manifest_object strict) (left cons.old) (left cons.new) result }
    {
        let mut after = *cons;
        let object = SignedObject::take_from(keep, strict, &mut after)?;
        if !object.has_type(oid::CT_RPKI_MANIFEST) {
            return Err(DecodeError::content("another content type"));
        }
        let content = content_of(keep.allocator(), object.content())?;
        *cons = after;
        Ok(Manifest { object, content })
    }

    /// A manifest, and nothing else. It shares the octets.
    ///
    /// The errors are those of [Manifest::take_from]; then `Trailing` if something follows the object.
    pub fn decode(alloc: Global, bytes: Bytes, strict: bool) -> Result<Manifest, DecodeError>
        ensures { TakesWhole (λ x. x) (manifest_object strict) bytes result }
    {
        Constructed::new(&bytes).whole_with(
            Shared::new(alloc, &bytes),
            |cons, keep|
                requires { CanShare keep (left cons.old) }
            { Manifest::take_from(keep, strict, cons) },
        )
    }

    /// The signed object.
    pub fn object(&self) -> &SignedObject
        ensures { result.now ≡ self.now.object }
    {
        &self.object
    }

    /// What the content says.
    pub fn content(&self) -> &ManifestContent
        ensures { result.now ≡ self.now.content }
    {
        &self.content
    }
}
