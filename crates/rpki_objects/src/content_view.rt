//! The content of a signed object, read in place without memory (RFC 5652 5.2, RFC 6488 2.1.3).

ghost use Rattle.rpki_der.specs.Prelude.{left};
ghost use Rattle.rpki_objects.specs.SignedObject.{kept_octets, explicit_content};
ghost use Rattle.rpki_objects.specs.SignedObjectView.{IsLast, TakesContent};

use rpki::der::{Class, Constructed, DecodeError, Section, Tag};
use rpki_x509::inside;

/// A content, and its type.
#[derive(Clone, Copy)]
pub struct ContentView<'a> {
    /// The contents octets of the object identifier that is the type.
    pub content_type: Section<'a>,
    /// The octets of the content.
    pub content: Section<'a>,
}

/// The octets of the OCTET STRING that is the whole rest.
///
/// The errors are those of an OCTET STRING; then `Trailing` if something follows it.
pub(crate) fn read_octets<'a>(rest: Constructed<'a>) -> Result<&'a [u8], DecodeError>
    ensures { IsLast (λ v. v.now) kept_octets (left rest.entry) result }
{
    let mut after = rest;
    match after.take_primitive_if(Tag::OCTET_STRING) {
        Ok(octets) => {
            if after.is_empty() {
                return Ok(octets);
            }
            Err(DecodeError::Trailing)
        }
        Err(e) => Err(e),
    }
}

/// The octets of the content that is the whole rest, under the explicit tag 0.
///
/// The errors are those of the tag; then those of an OCTET STRING in it; then `Trailing` if something follows it.
fn read_content<'a>(rest: Constructed<'a>) -> Result<&'a [u8], DecodeError>
    ensures { IsLast (λ v. v.now) explicit_content (left rest.entry) result }
{
    let mut after = rest;
    let contents = match after.take_constructed_if(Tag::new(Class::Context, 0)) {
        Ok(contents) => contents,
        Err(e) => return Err(e),
    };
    match read_octets(contents) {
        Ok(octets) => {
            if after.is_empty() {
                return Ok(octets);
            }
            Err(DecodeError::Trailing)
        }
        Err(e) => Err(e),
    }
}

impl<'a> ContentView<'a> {
    /// A content with its type, as [EncapsulatedContent::take_from](crate::EncapsulatedContent::take_from) reads it,
    /// and where they are in the whole rest. Allocates nothing.
    ///
    /// The errors are those of a SEQUENCE; then those of the first part that could not be read.
    pub(crate) fn take_from(cons: &mut Constructed<'a>) -> Result<ContentView<'a>, DecodeError>
        ensures { TakesContent (left cons.old) (left cons.new) result }
    {
        let mut parts = match cons.take_sequence() {
            Ok(parts) => parts,
            Err(e) => return Err(e),
        };
        let content_type = match parts.take_oid() {
            Ok(found) => found,
            Err(e) => return Err(e),
        };
        let behind = cons.rest().len();
        match read_content(parts) {
            Ok(octets) => Ok(ContentView {
                content_type: Section {
                    octets: content_type.0,
                    following: parts.rest().len() + behind,
                },
                content: Section {
                    octets,
                    following: behind,
                },
            }),
            Err(e) => Err(e),
        }
    }
}
