//! The signed attributes of a signer (RFC 5652 5.3, 5.4; RFC 6488 2.1.6.4).

ghost use Rattle.std.specs.Prelude.{◌≡◌, ◌++◌, ◌≤◌, ℕ, List, length, IfOk};
ghost use Rattle.rpki_der.specs.Prelude.{left, Takes, TakesAll};
ghost use Rattle.rpki_attributes.specs.SignedAttributes.{attribute_of, attribute, attributes_in, each_attribute};
ghost use Rattle.rpki_attributes.specs.SignedAttributes.{attribute_list, attributes_of};
ghost use Rattle.rpki_attributes.specs.SignedAttributes.{message_of, signed_attributes};

use crate::attribute::AttributeView;
use crate::known_attributes::KnownAttributes;
use bytes::Bytes;
use rpki::der::{Class, Constructed, DecodeError, Oid, Tag};
use rpki::repository::x509::Time;
use rpki_x509::MessageDigest;
use std::alloc::{AllocError, Global};

/// The attributes that a signer signs.
#[derive(Drop)]
pub struct SignedAttrs {
    /// What is signed: their octets as they came, but after the tag of a SET in place of the implicit tag (RFC 5652
    /// 5.4).
    pub message: Bytes,
    /// The type of the content (RFC 5652 11.1).
    pub content_type: Oid<Bytes>,
    /// The digest of the content (RFC 5652 11.2).
    pub message_digest: MessageDigest,
    /// When they were signed (RFC 5652 11.3).
    pub signing_time: Option<Time>,
    /// When they were signed, in seconds since 1970 (RFC 6019 2).
    pub binary_signing_time: Option<u64>,
}

/// The attributes that these contents are, in sequence.
fn take_each_attribute<'a>(
    alloc: Global,
    contents: &mut Constructed<'a>,
) -> Result<Vec<AttributeView<'a>>, DecodeError>
    ensures { TakesAll (λ v. attributes_in v.items) each_attribute (left contents.old) (left contents.new) result }
{
    contents.take_each(
        alloc,
        |rest|
            ensures { Takes attribute_of attribute (left rest.old) (left rest.new) result }
        { AttributeView::take_from(rest) },
    )
}

/// The attributes, under their tag.
fn take_attribute_list<'a>(
    alloc: Global,
    cons: &mut Constructed<'a>,
) -> Result<Vec<AttributeView<'a>>, DecodeError>
    ensures { Takes (λ v. attributes_in v.items) attribute_list (left cons.old) (left cons.new) result }
{
    cons.in_constructed(
        Tag::new(Class::Context, 0),
        |contents|
            ensures { TakesAll (λ v. attributes_in v.items) each_attribute (left contents.old) (left contents.new)
                result }
        { take_each_attribute(alloc, contents) },
    )
}

/// What is signed of the attributes that are in front of these octets.
fn message_before(alloc: Global, octets: &[u8], following: &[u8]) -> Result<Bytes, AllocError>
    requires { length following.now ≤ length octets.now }
    ensures { IfOk result (λ b. (front : List ℕ) → octets.now ≡ front ++ following.now → b ≡ message_of front) }
{
    let mut message = Vec::new(alloc);
    let (front, _) = octets.split_at(octets.len() - following.len());
    if let [_, contents @ ..] = front {
        message.push(0x31)?;
        message.extend_from_slice(contents)?;
    }
    Ok(Bytes::from_vec(message)?)
}

impl SignedAttrs {
    /// Reads signed attributes, under the implicit tag 0: a content type and a message digest, once each, a signing
    /// time and a binary signing time, at most once each, and no others; each has one value (RFC 6488 2.1.6.4). If
    /// `strict`, the signing time has to be there, and the binary signing time is rejected (RFC 9589 4). The attributes
    /// may be in any order. What is signed and the content type are copied.
    ///
    /// The errors are those of the tag; then those of [AttributeView::take_from] for the first that isn't one; then
    /// `Content` with the text `signed attributes that no signed object has`; and `OutOfMemory` if allocation fails. An
    /// error leaves the cursor where it was.
    pub fn take_from(
        alloc: Global,
        strict: bool,
        cons: &mut Constructed<'_>,
    ) -> Result<SignedAttrs, DecodeError>
        ensures { Takes attributes_of (signed_attributes strict) (left cons.old) (left cons.new) result }
    {
        let mut after = *cons;
        let all = take_attribute_list(alloc, &mut after)?;
        match KnownAttributes::of(&all, strict) {
            Some(known) => {
                let message = message_before(alloc, cons.rest(), after.rest())?;
                let Oid(content_type) = known.content_type;
                let content_type = Bytes::copy_from_slice(alloc, content_type)?;
                *cons = after;
                Ok(SignedAttrs {
                    message,
                    content_type: Oid(content_type),
                    message_digest: known.message_digest,
                    signing_time: known.signing_time,
                    binary_signing_time: known.binary_signing_time,
                })
            }
            None => Err(DecodeError::content("signed attributes that no signed object has")),
        }
    }
}
