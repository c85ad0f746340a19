//! The content of a signed object (RFC 5652 5.2, RFC 6488 2.1.3).
//!
//! ```text
//! EncapsulatedContentInfo ::= SEQUENCE {
//!     eContentType  OBJECT IDENTIFIER,
//!     eContent      [0] EXPLICIT OCTET STRING }
//! ```

ghost use Rattle.rpki_der.specs.Prelude.{left, Takes, TakesAll};
ghost use Rattle.rpki_objects.specs.SignedObject.{kept_octets, explicit_content, content_of, content_fields_of};
ghost use Rattle.rpki_objects.specs.SignedObject.{content_fields, encapsulated};

use bytes::Bytes;
use rpki::der::{Class, Constructed, DecodeError, Keep, Oid, Tag};

/// A content, and its type.
#[derive(Drop)]
pub struct EncapsulatedContent {
    /// The type.
    pub econtent_type: Oid<Bytes>,
    /// The octets of the content.
    pub econtent: Bytes,
}

/// The octets of an OCTET STRING.
pub(crate) fn take_kept_octets<K: Keep>(
    keep: K,
    cons: &mut Constructed<'_>,
) -> Result<Bytes, DecodeError>
    requires { K.holds keep (left cons.old) }
    ensures { Takes (λ b. b) kept_octets (left cons.old) (left cons.new) result }
{
    cons.take_primitive_bytes_if(keep, Tag::OCTET_STRING)
}

/// The content, under the explicit tag 0.
fn take_content<K: Keep>(keep: K, cons: &mut Constructed<'_>) -> Result<Bytes, DecodeError>
    requires { K.holds keep (left cons.old) }
    ensures { Takes (λ b. b) explicit_content (left cons.old) (left cons.new) result }
{
    cons.in_constructed_with(
        Tag::new(Class::Context, 0),
        keep,
        |contents, keep|
            requires { K.holds keep (left contents.old) }
        { take_kept_octets(keep, contents) },
    )
}

impl EncapsulatedContent {
    /// Reads a content: a SEQUENCE of its type and, under the explicit tag 0, an OCTET STRING, and nothing else. An
    /// allocator copies the octets, and [Shared](rpki::der::Shared) shares them; requires that `keep` can keep parts of
    /// the rest.
    ///
    /// The errors are those of a SEQUENCE; then that of the first part that could not be read, or `Trailing` if more
    /// follows; `OutOfMemory` if allocation fails. An error leaves the cursor where it was.
    pub fn take_from<K: Keep>(
        keep: K,
        cons: &mut Constructed<'_>,
    ) -> Result<EncapsulatedContent, DecodeError>
        requires { K.holds keep (left cons.old) }
        ensures { Takes (λ x. content_fields_of (content_of x)) encapsulated (left cons.old) (left cons.new) result }
    {
        cons.in_sequence_with(
            keep,
            |contents, keep|
                requires { K.holds keep (left contents.old) }
                ensures { TakesAll (λ x. content_fields_of (content_of x)) content_fields (left contents.old)
                    (left contents.new) result }
            {
                let content_type = contents.take_oid_bytes(keep)?;
                let content = take_content(keep, contents)?;
                Ok(EncapsulatedContent {
                    econtent_type: content_type,
                    econtent: content,
                })
            },
        )
    }
}
