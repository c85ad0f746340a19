//! Signed objects as they are written (RFC 5652 3, 5; RFC 6488 2).

ghost use Rattle.std.specs.Prelude.{◌≡◌, ◌<◌, ◌+◌, ◌^◌, ◌↔◌, true, IsTrue, IsSome, IfSome, length};
ghost use Rattle.rpki_der.specs.Prelude.{tlv, set, IsValue};
ghost use Rattle.rpki_objects.specs.SignedObject.{zero_tag};
ghost use Rattle.rpki_objects.specs.EncodedObject.{built_of, version_3, signer_contents, signer_octets, content_octets};
ghost use Rattle.rpki_objects.specs.EncodedObject.{data_contents, object_octets, CanWriteObject};
ghost use Rattle.rpki_objects.specs.EncodedObject.{IsObjectReadBack};

use rpki::crypto::{DigestAlgorithm, KeyIdentifier, RpkiSignatureAlgorithm, SignatureAlgorithm};
use rpki::der::{
    Around, Captured, Class, ConstOid, Oid, Primitive, PrimitiveContent, Sequence, Set, Tag, Values,
};
use rpki::oid;
use rpki::repository::x509::Serial;
use rpki_attributes::{AttributesBuilder, KnownAttributes, SignedAttrsEncoder};
use rpki_x509::ContextZeroFrame;
use std::io;
use std::io::Write;
use std::marker::Model;

/// What a signed object is made of. The content has the type that the attributes say (RFC 6488 2.1.6.4.1); that their
/// digest is the content's, and that the signature is good, is the caller's to see to.
#[derive(Clone, Copy)]
pub struct SignedObjectParts<'a> {
    /// What the signed attributes say.
    pub attributes: KnownAttributes<'a>,
    /// The octets of the content.
    pub content: &'a [u8],
    /// The certificate of the signer.
    pub certificate: &'a Captured,
    /// The identifier of the signer's key.
    pub signer_identifier: KeyIdentifier,
    /// The signature of the attributes, whose message is
    /// [AttributesBuilder::encode_message](crate::AttributesBuilder::encode_message).
    pub signature: &'a [u8],
}

/// An encoder for the algorithm of the signature.
type AlgorithmEncoder = Sequence<(Primitive<ConstOid>, Primitive<()>)>;

/// An encoder for the parts of a signer.
type SignerFields<'a> = (
    Primitive<Serial>,
    (
        Primitive<KeyIdentifier>,
        (
            Sequence<Primitive<ConstOid>>,
            (
                SignedAttrsEncoder<'a>,
                (AlgorithmEncoder, Primitive<&'a [u8]>),
            ),
        ),
    ),
);

/// An encoder for the content and its type.
type ContentEncoder<'a> = Sequence<
    (
        Primitive<Oid<&'a [u8]>>,
        Around<ContextZeroFrame, Primitive<&'a [u8]>>,
    ),
>;

/// An encoder for the parts of signed data.
type DataFields<'a> = (
    Primitive<Serial>,
    (
        Set<Sequence<Primitive<ConstOid>>>,
        (
            ContentEncoder<'a>,
            (
                Around<ContextZeroFrame, &'a Captured>,
                Set<Sequence<SignerContents<'a>>>,
            ),
        ),
    ),
);

/// An encoder for a signed object.
pub type SignedObjectEncoder<'a> = Sequence<
    (
        Primitive<ConstOid>,
        Around<ContextZeroFrame, Sequence<DataContents<'a>>>,
    ),
>;

/// The version of signed data and of a signer, 3 (RFC 6488 2.1.1, 2.1.6.1).
fn encode_version() -> Primitive<Serial>
    ensures octets { ⟦<Primitive<Serial> as Values>⟧.encoded result ≡ version_3 }
    ensures short { ⟦<Primitive<Serial> as Values>⟧.is_short result }
{
    Serial::from(3u128).encode()
}

/// Whether these numbers of octets are below 2^30 together.
fn are_few(first: usize, second: usize, third: usize, fourth: usize) -> bool
    ensures { IsTrue result ↔ (first + (second + (third + fourth)) < 2 ^ 30) }
{
    let limit = 1 << 30;
    if first >= limit || second >= limit || third >= limit || fourth >= limit {
        return false;
    }
    first + second + third + fourth < limit
}

/// Whether the values are one.
fn is_one(values: &Captured) -> bool
    ensures { IsTrue result ↔ IsValue values.now }
{
    values.values() == 1
}

/// The contents of a signer.
#[derive(Drop)]
pub struct SignerContents<'a> {
    parts: &'a SignedObjectParts<'a>,
}

impl<'a> Model for SignerContents<'a> {
    ghost use Rattle.rpki_objects.specs.EncodedObject.{BuiltObject, built_of, CanWriteObject};

    ghost Value = { BuiltObject };

    ghost view = { λ x. built_of x.parts.now };

    ghost invariant = { λ x. CanWriteObject (built_of x.parts.now) };
}

impl<'a> SignerContents<'a> {
    /// The contents of the signer of this object.
    fn new(parts: &'a SignedObjectParts<'a>) -> SignerContents<'a>
        requires { CanWriteObject (built_of parts.now) }
        ensures { result ≡ built_of parts.now }
    {
        SignerContents { parts }
    }

    /// The parts, in order.
    fn encode_fields(&self) -> SignerFields<'a>
        ensures octets { ⟦<SignerFields<'static> as Values>⟧.encoded result ≡ signer_contents self.now }
        ensures short { ⟦<SignerFields<'static> as Values>⟧.is_short result }
        ensures can { CanWriteObject self.now }
    {
        let identifier = self
            .parts
            .signer_identifier
            .encode_as(Tag::new(Class::Context, 0));
        let attributes = AttributesBuilder::of_values(&self.parts.attributes).encode();
        let algorithm = RpkiSignatureAlgorithm::default().cms_encode();
        let signature = self.parts.signature.encode();
        let digest = DigestAlgorithm::sha256().encode();
        (
            encode_version(),
            (identifier, (digest, (attributes, (algorithm, signature)))),
        )
    }
}

/// The parts of the signer.
impl<'a> Values for SignerContents<'a> {
    ghost use Rattle.std.specs.Prelude.{refl};
    ghost use Rattle.rpki_der.specs.Members.{IsValueList};
    ghost use Rattle.rpki_der.specs.Tree.Tree.{Captured as CapturedTree};
    ghost use Rattle.rpki_der.specs.TreeLaws.{as_it_is};
    ghost use Rattle.rpki_objects.specs.EncodedObject.{signer_contents};

    ghost tree = { λ x. CapturedTree (signer_contents x) };

    ghost encoded = { signer_contents };

    ghost is_short = { λ x. IsValueList (signer_contents x) };

    ghost spelled = { λ _. refl };

    ghost measured = { λ _. as_it_is };

    ghost are_values = { λ x h. h };

    fn fits(&self) -> bool {
        let _ = &self.parts;
        true
    }

    fn count(&self) -> u64 {
        self.encode_fields().count()
    }

    fn encoded_len(&self) -> u64 {
        self.encode_fields().encoded_len()
    }

    fn write_encoded<W: Write>(&self, out: &mut W) -> Result<(), io::Error> {
        self.encode_fields().write_encoded(out)
    }
}

/// The contents of signed data.
#[derive(Drop)]
pub struct DataContents<'a> {
    parts: &'a SignedObjectParts<'a>,
}

impl<'a> Model for DataContents<'a> {
    ghost use Rattle.rpki_objects.specs.EncodedObject.{BuiltObject, built_of, CanWriteObject};

    ghost Value = { BuiltObject };

    ghost view = { λ x. built_of x.parts.now };

    ghost invariant = { λ x. CanWriteObject (built_of x.parts.now) };
}

impl<'a> DataContents<'a> {
    /// The contents of the signed data of this object.
    fn new(parts: &'a SignedObjectParts<'a>) -> DataContents<'a>
        requires { CanWriteObject (built_of parts.now) }
        ensures { result ≡ built_of parts.now }
    {
        DataContents { parts }
    }

    /// The content and its type.
    fn encode_content(&self) -> ContentEncoder<'a>
        ensures octets { ⟦<ContentEncoder<'static> as Values>⟧.encoded result ≡ content_octets self.now }
        ensures short { ⟦<ContentEncoder<'static> as Values>⟧.is_short result }
    {
        let content = Around::new(self.parts.content.encode());
        Sequence::new((self.parts.attributes.content_type.encode(), content))
    }

    /// The set of the one signer.
    fn encode_signers(&self) -> Set<Sequence<SignerContents<'a>>>
        ensures octets { ⟦<Set<Sequence<SignerContents<'static>>> as Values>⟧.encoded result
            ≡ tlv set true (signer_octets self.now) }
        ensures short { ⟦<Set<Sequence<SignerContents<'static>>> as Values>⟧.is_short result }
    {
        Set::new(Sequence::new(SignerContents::new(self.parts)))
    }

    /// The set of the one certificate.
    fn encode_certificates(&self) -> Around<ContextZeroFrame, &'a Captured>
        ensures octets { ⟦<Around<ContextZeroFrame, &'static Captured> as Values>⟧.encoded result
            ≡ tlv zero_tag true self.now.certificate }
        ensures short { ⟦<Around<ContextZeroFrame, &'static Captured> as Values>⟧.is_short result }
        ensures can { CanWriteObject self.now }
    {
        Around::new(self.parts.certificate)
    }

    /// The parts, in order.
    fn encode_fields(&self) -> DataFields<'a>
        ensures octets { ⟦<DataFields<'static> as Values>⟧.encoded result ≡ data_contents self.now }
        ensures short { ⟦<DataFields<'static> as Values>⟧.is_short result }
        ensures can { CanWriteObject self.now }
    {
        let content = self.encode_content();
        let certificates = self.encode_certificates();
        let digests = DigestAlgorithm::sha256().encode_set();
        let signers = self.encode_signers();
        (
            encode_version(),
            (digests, (content, (certificates, signers))),
        )
    }
}

/// The parts of the signed data.
impl<'a> Values for DataContents<'a> {
    ghost use Rattle.std.specs.Prelude.{refl};
    ghost use Rattle.rpki_der.specs.Members.{IsValueList};
    ghost use Rattle.rpki_der.specs.Tree.Tree.{Captured as CapturedTree};
    ghost use Rattle.rpki_der.specs.TreeLaws.{as_it_is};
    ghost use Rattle.rpki_objects.specs.EncodedObject.{data_contents};

    ghost tree = { λ x. CapturedTree (data_contents x) };

    ghost encoded = { data_contents };

    ghost is_short = { λ x. IsValueList (data_contents x) };

    ghost spelled = { λ _. refl };

    ghost measured = { λ _. as_it_is };

    ghost are_values = { λ x h. h };

    fn fits(&self) -> bool {
        let _ = &self.parts;
        true
    }

    fn count(&self) -> u64 {
        self.encode_fields().count()
    }

    fn encoded_len(&self) -> u64 {
        self.encode_fields().encoded_len()
    }

    fn write_encoded<W: Write>(&self, out: &mut W) -> Result<(), io::Error> {
        self.encode_fields().write_encoded(out)
    }
}

/// What a signed object is made of that can be written.
#[derive(Drop)]
pub struct SignedObjectBuilder<'a> {
    parts: &'a SignedObjectParts<'a>,
}

impl<'a> Model for SignedObjectBuilder<'a> {
    ghost use Rattle.rpki_objects.specs.EncodedObject.{BuiltObject, built_of, CanWriteObject};

    ghost Value = { BuiltObject };

    ghost view = { λ x. built_of x.parts.now };

    ghost invariant = { λ x. CanWriteObject (built_of x.parts.now) };
}

impl<'a> SignedObjectBuilder<'a> {
    /// The builder of an object of these parts; None where the content type is no object identifier, where the
    /// certificate is not exactly one value, and where the content type, the content, the certificate and the signature
    /// have 2^30 octets or more together.
    pub fn new(parts: &'a SignedObjectParts<'a>) -> Option<SignedObjectBuilder<'a>>
        ensures some { IsSome result ↔ CanWriteObject (built_of parts.now) }
        ensures value { IfSome result (λ x. x ≡ built_of parts.now) }
    {
        // its clause says that it has twenty octets
        let _ = parts.signer_identifier.as_slice();
        let type_len = parts.attributes.content_type.0.len();
        let few = are_few(
            type_len,
            parts.content.len(),
            parts.certificate.as_slice().len(),
            parts.signature.len(),
        );
        let one = is_one(parts.certificate);
        match AttributesBuilder::new(&parts.attributes) {
            Some(_) => {
                if few && one {
                    return Some(SignedObjectBuilder { parts });
                }
                None
            }
            None => None,
        }
    }

    /// An encoder for the signed object, which borrows its parts (RFC 6488 2): version 3, SHA-256 without parameters,
    /// the content, the certificate, no revocation lists, and one signer with the signed attributes, `rsaEncryption`
    /// and the signature. It always fits, and allocates nothing.
    pub fn encode(&self) -> SignedObjectEncoder<'a>
        ensures octets { ⟦<SignedObjectEncoder<'static> as Values>⟧.encoded result ≡ object_octets self.now }
        ensures fits { ⟦<SignedObjectEncoder<'static> as Values>⟧.is_short result
            × (length (object_octets self.now) < 2 ^ 63) }
        // The encoding is read as an object of these parts where the certificate is one; times are as [Time] has them.
        ensures read_back { IsObjectReadBack self.now }
    {
        let data = Around::new(Sequence::new(DataContents::new(self.parts)));
        Sequence::new((oid::SIGNED_DATA.encode(), data))
    }
}
