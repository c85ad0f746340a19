//! Signed objects, read in place without memory (RFC 5652 3, 5; in the profile of RFC 6488 2).

ghost use Rattle.std.specs.Prelude.{IfOk, IfErr};
ghost use Rattle.rpki_der.specs.Prelude.{left};
ghost use Rattle.rpki_objects.specs.SignedObject.{ObjectParts};
ghost use Rattle.rpki_objects.specs.SignedObjectView.{TakesCertificate, IsDataIn, AreDataFieldsWrong, IsObjectAt};
ghost use Rattle.rpki_objects.specs.SignedObjectView.{IsObjectError, HasManyExtensions};

use crate::content_view::ContentView;
use crate::object_part::ObjectPart;
use crate::signer_view::{SignerView, read_signers};
use rpki::crypto::DigestAlgorithm;
use rpki::der::{Class, Constructed, Section, Tag};
use rpki::oid;
use rpki_cert::CertView;
use rpki_parse::Malformed;
use rpki_x509::inside;

/// The certificate of a signer.
#[derive(Drop)]
pub struct SignerCertView<'a> {
    /// The octets of the certificate.
    pub octets: Section<'a>,
    /// Its parts, whose sections are in these octets.
    pub parts: CertView<'a>,
}

/// A signed object whose parts are borrowed from the octets that it was read from. Nothing of it is verified.
#[derive(Drop)]
pub struct SignedObjectView<'a> {
    /// The content, and its type.
    pub content: ContentView<'a>,
    /// The signer's certificate.
    pub cert: SignerCertView<'a>,
    /// The signer.
    pub signer: SignerView<'a>,
}

/// The one certificate, under the implicit tag 0.
fn take_certificate<'a>(
    cons: &mut Constructed<'a>,
) -> Result<SignerCertView<'a>, Malformed<ObjectPart>>
    ensures { TakesCertificate (left cons.old) (left cons.new) result }
{
    let octets = match cons.take_constructed_if(Tag::new(Class::Context, 0)) {
        Ok(contents) => contents.rest(),
        Err(error) => return Err(Malformed {
            part: ObjectPart::Certificates,
            error,
        }),
    };
    match CertView::read(octets) {
        Ok(parts) => Ok(SignerCertView {
            octets: Section {
                octets,
                following: cons.rest().len(),
            },
            parts,
        }),
        Err(wrong) => Err(Malformed {
            part: ObjectPart::Certificate(wrong.part),
            error: wrong.error,
        }),
    }
}

/// The fields of signed data, which are the whole rest.
fn read_fields<'a>(
    contents: Constructed<'a>,
    strict: bool,
) -> Result<SignedObjectView<'a>, Malformed<ObjectPart>>
    ensures ok { IfOk result (λ v. IsDataIn strict (left contents.entry) v) }
    ensures err { IfErr result (λ q. AreDataFieldsWrong strict (left contents.entry) q) }
{
    let mut rest = contents;
    match rest.skip_u8_if(3) {
        Ok(()) => {}
        Err(error) => return Err(Malformed {
            part: ObjectPart::Version,
            error,
        }),
    }
    match DigestAlgorithm::skip_set(&mut rest) {
        Ok(()) => {}
        Err(error) => return Err(Malformed {
            part: ObjectPart::DigestAlgorithms,
            error,
        }),
    }
    let content = match ContentView::take_from(&mut rest) {
        Ok(content) => content,
        Err(error) => return Err(Malformed {
            part: ObjectPart::Content,
            error,
        }),
    };
    let cert = match take_certificate(&mut rest) {
        Ok(cert) => cert,
        Err(wrong) => return Err(wrong),
    };
    match read_signers(rest, strict) {
        Ok(signer) => Ok(SignedObjectView {
            content,
            cert,
            signer,
        }),
        Err(wrong) => Err(wrong),
    }
}

impl<'a> SignedObjectView<'a> {
    /// A signed object, and nothing else, as [SignedObject::decode](crate::SignedObject::decode) reads it, whose
    /// certificate has at most 64 extensions: see [CertView::read](rpki_cert::CertView::read). Allocates nothing.
    ///
    /// The error is of the malformed part, as a reader of that part returns it: the leftmost, and of the certificate
    /// the one that its reader names.
    pub fn read(
        octets: &'a [u8],
        strict: bool,
    ) -> Result<SignedObjectView<'a>, Malformed<ObjectPart>>
        ensures ok { IfOk result (λ v. (x : ObjectParts) × IsObjectAt strict octets.now v x) }
        ensures err { IfErr result (λ q. IsObjectError strict octets.now q) }
        ensures none { IfErr result (λ _. HasManyExtensions strict octets.now) }
    {
        let mut contents = match inside(Constructed::from_slice(octets), Tag::SEQUENCE) {
            Ok(contents) => contents,
            Err(error) => return Err(Malformed {
                part: ObjectPart::Object,
                error,
            }),
        };
        match contents.skip_oid_if(oid::SIGNED_DATA) {
            Ok(()) => {}
            Err(error) => return Err(Malformed {
                part: ObjectPart::ObjectType,
                error,
            }),
        }
        let explicit = match inside(contents, Tag::new(Class::Context, 0)) {
            Ok(explicit) => explicit,
            Err(error) => return Err(Malformed {
                part: ObjectPart::SignedData,
                error,
            }),
        };
        match inside(explicit, Tag::SEQUENCE) {
            Ok(fields) => read_fields(fields, strict),
            Err(error) => Err(Malformed {
                part: ObjectPart::SignedData,
                error,
            }),
        }
    }
}
