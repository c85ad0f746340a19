//! Signed objects.

ghost use Rattle.std.specs.Prelude.{◌≡◌, ◌↔◌, IsTrue, IfSome};
ghost use Rattle.rpki_c.specs.Time.{IsMoment};
ghost use Rattle.rpki_objects.specs.SignedObject.{ObjectParts};
ghost use Rattle.rpki_objects.specs.SignedObjectView.{IsObjectAt};
ghost use Rattle.rpki_c.specs.SignedObject.{object_part_number, HasObject, IsObjectErrorRead, IsObjectRead};

use crate::certificate::part_number;
use crate::span::Span;
use crate::times::{Moment, moment_of};
use rpki::crypto::SignatureAlgorithm;
use rpki_objects::{ObjectPart, SignedObjectView};
use rpki_time::Time;
use rpki_x509::are_same;

/// The parts of a signed object.
#[repr(C)]
#[derive(Clone, Copy)]
pub struct SignedObjectParts<'a> {
    /// The contents octets of the object identifier that is the content's type.
    pub content_type: Span<'a>,
    /// The octets of the content.
    pub content: Span<'a>,
    /// The signer's certificate, with its header.
    pub certificate: Span<'a>,
    /// The signed attributes, with their header.
    pub signed_attributes: Span<'a>,
    /// The octets of the signature.
    pub signature: Span<'a>,
    /// When the attributes were signed, where that is said.
    pub signing_time: Moment,
    /// The same in seconds since 1970, where that is said; else 0.
    pub binary_signing_time: u64,
    /// The digest of the content that is signed.
    pub message_digest: [u8; 32],
    /// The identifier of the signer's key.
    pub signer_identifier: [u8; 20],
    /// Whether the content's type is the one that is signed.
    pub is_type_signed: bool,
    /// Whether there is a signing time.
    pub has_signing_time: bool,
    /// Whether there is a binary signing time.
    pub has_binary_signing_time: bool,
    /// Whether the algorithm of the signature has parameters, a NULL.
    pub has_parameters: bool,
}

/// How a malformed part is passed.
pub(crate) fn object_part_number(part: ObjectPart) -> u8
    ensures { result ≡ object_part_number part }
{
    match part {
        ObjectPart::Object => 123,
        ObjectPart::ObjectType => 124,
        ObjectPart::SignedData => 125,
        ObjectPart::Version => 126,
        ObjectPart::DigestAlgorithms => 127,
        ObjectPart::Content => 128,
        ObjectPart::Certificates => 129,
        ObjectPart::Certificate(part) => part_number(part),
        ObjectPart::Signers => 130,
        ObjectPart::Signer => 131,
        ObjectPart::SignerVersion => 132,
        ObjectPart::SignerIdentifier => 133,
        ObjectPart::SignerDigestAlgorithm => 134,
        ObjectPart::SignedAttrs => 135,
        ObjectPart::SignatureAlgorithm => 136,
        ObjectPart::Signature => 137,
    }
}

/// The moment of a time, where there is one; else one of zeros.
fn moment_if(time: Option<Time>) -> Moment
    ensures { IfSome time (λ t. t.time.subsec_nanosecond ≡ 0 → IsMoment t result) }
{
    match time {
        Some(time) => moment_of(time),
        None => Moment {
            seconds: 0,
            year: 0,
            month: 0,
            day: 0,
            hour: 0,
            minute: 0,
            second: 0,
        },
    }
}

/// The parts of the signed object that the octets are.
pub(crate) fn object_of<'a>(
    octets: &'a [u8],
    strict: bool,
    found: &SignedObjectView<'a>,
) -> SignedObjectParts<'a>
    requires { (x : ObjectParts) × IsObjectAt strict octets.now found.now x }
    ensures object { HasObject strict octets.now result }
    ensures certificate { result.certificate.octets.now ≡ found.now.cert.octets.octets.now }
{
    let content = &found.content;
    let signer = &found.signer;
    let values = &signer.signed_attrs.values;
    SignedObjectParts {
        content_type: Span::of(content.content_type.octets),
        content: Span::of(content.content.octets),
        certificate: Span::of(found.cert.octets.octets),
        signed_attributes: Span::of(signer.signed_attrs.octets.octets),
        signature: Span::of(signer.signature.octets),
        signing_time: moment_if(values.signing_time),
        binary_signing_time: values.binary_signing_time.unwrap_or(0),
        message_digest: values.message_digest.into_array(),
        signer_identifier: <[u8; 20]>::from(signer.identifier),
        is_type_signed: are_same(content.content_type.octets, values.content_type.0),
        has_signing_time: values.signing_time.is_some(),
        has_binary_signing_time: values.binary_signing_time.is_some(),
        has_parameters: signer.algorithm.has_parameters(),
    }
}

/// Reads a signed object (RFC 5652, in the profile of RFC 6488), and says what its parts are. If `strict`, it has a
/// signing time, and no binary signing time (RFC 9589 4).
///
/// The status is 0. Else it is the number of the malformed part, and `out` is unchanged: the leftmost, and of the
/// certificate the one that [crate::certificate::rpki_certificate] names, by its number. Nothing is allocated.
#[unsafe(no_mangle)]
pub extern "C" fn rpki_signed_object<'a>(
    octets: &'a [u8],
    strict: bool,
    out: &mut SignedObjectParts<'a>,
) -> u8
    ensures { IsObjectRead strict octets.now result out.old out.new }
{
    match SignedObjectView::read(octets, strict) {
        Ok(found) => {
            *out = object_of(octets, strict, &found);
            0
        }
        Err(wrong) => object_part_number(wrong.part),
    }
}

/// Reads a signed object, as [rpki_signed_object] does, and says what is wrong with the malformed part.
///
/// The status is that of [rpki_signed_object]. Where it is a part, `error` is the number of the error, that of
/// `DecodeError`, as a reader of that part returns it; where it is 0, `error` is unchanged. Nothing is allocated.
#[unsafe(no_mangle)]
pub extern "C" fn rpki_signed_object_error(octets: &[u8], strict: bool, error: &mut u8) -> u8
    ensures { IsObjectErrorRead strict octets.now result error.old error.new }
{
    match SignedObjectView::read(octets, strict) {
        Ok(_) => 0,
        Err(wrong) => {
            *error = wrong.error.number();
            object_part_number(wrong.part)
        }
    }
}
