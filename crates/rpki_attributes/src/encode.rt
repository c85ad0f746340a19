//! Signed attributes as they are written and signed (RFC 5652 5.3, 5.4; RFC 6488 2.1.6.4).

ghost use Rattle.std.specs.Prelude.{◌≡◌, ◌<◌, ◌≤◌, ◌+◌, ◌^◌, ◌↔◌, IsTrue, IsSome, IfSome, length};
ghost use Rattle.rpki_der.specs.Listed.{listed_octets};
ghost use Rattle.rpki_attributes.specs.SignedAttributes.{values_known, message_of};
ghost use Rattle.rpki_attributes.specs.EncodedAttributes.{attribute_octets, type_attribute, digest_attribute};
ghost use Rattle.rpki_attributes.specs.EncodedAttributes.{time_attribute, binary_attribute, digest_alone};
ghost use Rattle.rpki_attributes.specs.EncodedAttributes.{time_and_digest};
ghost use Rattle.rpki_attributes.specs.EncodedAttributes.{placed_where, attributes_contents};
ghost use Rattle.rpki_attributes.specs.EncodedAttributes.{attributes_octets, message_octets, CanWriteType};
ghost use Rattle.rpki_attributes.specs.EncodedAttributes.{CanWriteAttributes, IsYearIn, IsFewIn, AreReadBack};

use crate::known_attributes::KnownAttributes;
use rpki::der::{Around, ConstOid, Oid, Primitive, PrimitiveContent, Sequence, Set, Values};
use rpki::oid;
use rpki::repository::x509::{Serial, Time, VariedTime};
use rpki_x509::{ContextZeroFrame, MessageDigest};
use std::io;
use std::io::Write;
use std::marker::Model;

/// An encoder for an attribute of one value.
type AttributeEncoder<V> = Sequence<(Primitive<ConstOid>, Set<V>)>;

/// An encoder for the content type.
type TypeEncoder<'a> = AttributeEncoder<Primitive<Oid<&'a [u8]>>>;

/// An encoder for the message digest.
type DigestEncoder<'a> = AttributeEncoder<Primitive<&'a [u8]>>;

/// An encoder for the signing time.
type TimeEncoder = AttributeEncoder<VariedTime>;

/// An encoder for the binary signing time.
type BinaryEncoder = AttributeEncoder<Primitive<Serial>>;

/// An encoder for the digest, with the content type before or after it, or without the content type.
type DigestAndType<'a> = (
    Option<TypeEncoder<'a>>,
    (DigestEncoder<'a>, Option<TypeEncoder<'a>>),
);

/// The same with the signing time, where there is one.
type TimeAndOthers<'a> = (
    Option<TypeEncoder<'a>>,
    (Option<TimeEncoder>, DigestAndType<'a>),
);

/// The same with the binary signing time, where there is one.
type AllAttributes<'a> = (
    Option<TypeEncoder<'a>>,
    (Option<BinaryEncoder>, TimeAndOthers<'a>),
);

/// An encoder for signed attributes as they are in an object, under the implicit tag 0.
pub type SignedAttrsEncoder<'a> = Around<ContextZeroFrame, AttributesBuilder<'a>>;

/// An encoder for signed attributes as they are signed, under the tag of a SET.
pub type MessageEncoder<'a> = Set<AttributesBuilder<'a>>;

/// An encoder for the attribute of this type and value.
fn encode_attribute<V: Values>(id: ConstOid, value: V) -> AttributeEncoder<V>
    requires id { length id.0.now ≤ 11 }
    requires value { V.is_short value × (length (V.encoded value) < 2 ^ 31 + 20) }
    ensures octets { ⟦<AttributeEncoder<V> as Values>⟧.encoded result
        ≡ attribute_octets (id.entry.0.now, V.encoded value) }
    ensures short { ⟦<AttributeEncoder<V> as Values>⟧.is_short result }
{
    Sequence::new((id.encode(), Set::new(value)))
}

/// Whether it is the identifier of a type, with fewer than 2^31 octets.
fn can_write_type(id: Oid<&[u8]>) -> bool
    ensures { IsTrue result ↔ CanWriteType id.entry.0.now }
{
    id.is_valid() && id.0.len() < 1 << 31
}

/// Says that times have the years that times have.
fn has_year(time: Option<Time>) -> bool
    ensures yes { IsTrue result }
    ensures year { IsYearIn time }
{
    match time {
        Some(time) => {
            // its clause says which years
            let _ = time.encode_varied();
            true
        }
        None => true,
    }
}

/// Says that numbers of seconds are below 2^64.
fn is_few(seconds: Option<u64>) -> bool
    ensures yes { IsTrue result }
    ensures few { IsFewIn seconds }
{
    match seconds {
        Some(seconds) => seconds <= u64::MAX,
        None => true,
    }
}

/// What the signed attributes of an object that is written say: the contents of the SET of them, in DER's order (X.690
/// 11.6).
#[derive(Drop)]
pub struct AttributesBuilder<'a> {
    values: &'a KnownAttributes<'a>,
}

impl<'a> Model for AttributesBuilder<'a> {
    ghost use Rattle.rpki_attributes.specs.SignedAttributes.{AttributeValues, values_known};
    ghost use Rattle.rpki_attributes.specs.EncodedAttributes.{CanWriteAttributes};

    ghost Value = { AttributeValues };

    ghost view = { λ x. values_known x.values.now };

    ghost invariant = { λ x. CanWriteAttributes (values_known x.values.now) };
}

impl<'a> AttributesBuilder<'a> {
    /// The builder of attributes that say this, which it borrows; None where the content type is no object identifier,
    /// or has 2^31 octets or more. A caller who wants RFC 9589 gives the signing time, and no binary one.
    pub fn new(values: &'a KnownAttributes<'a>) -> Option<AttributesBuilder<'a>>
        ensures some { IsSome result ↔ CanWriteType (values_known values.now).content_type }
        ensures value { IfSome result (λ x. x ≡ values_known values.now) }
        ensures can { IfSome result (λ x. CanWriteAttributes x) }
    {
        // their clauses say what the types of the parts say of these
        let _ = values.message_digest.as_slice();
        let _ = has_year(values.signing_time);
        let _ = is_few(values.binary_signing_time);
        if can_write_type(values.content_type) {
            Some(AttributesBuilder { values })
        } else {
            None
        }
    }

    /// The same attributes again.
    pub fn of_values(values: &'a KnownAttributes<'a>) -> AttributesBuilder<'a>
        requires { CanWriteAttributes (values_known values.now) }
        ensures { result ≡ values_known values.now }
    {
        AttributesBuilder { values }
    }

    /// What they say.
    pub fn values(&self) -> &'a KnownAttributes<'a>
        ensures { values_known result.now ≡ self.now }
    {
        self.values
    }

    /// The content type.
    fn encode_type(&self) -> TypeEncoder<'a>
        ensures octets { ⟦<TypeEncoder<'static> as Values>⟧.encoded result
            ≡ attribute_octets (type_attribute self.now.content_type) }
        ensures short { ⟦<TypeEncoder<'static> as Values>⟧.is_short result }
        ensures can { CanWriteAttributes self.now }
    {
        encode_attribute(oid::CONTENT_TYPE, self.values.content_type.encode())
    }

    /// The message digest.
    fn encode_digest(&self) -> DigestEncoder<'a>
        ensures octets { ⟦<DigestEncoder<'static> as Values>⟧.encoded result
            ≡ attribute_octets (digest_attribute self.now.message_digest) }
        ensures short { ⟦<DigestEncoder<'static> as Values>⟧.is_short result }
        ensures can { CanWriteAttributes self.now }
    {
        encode_attribute(
            oid::MESSAGE_DIGEST,
            self.values.message_digest.as_slice().encode(),
        )
    }

    /// Whether an attribute of this many octets is in front of the content type.
    fn leads(&self, octets: u64) -> bool
        ensures { IsTrue result ↔ (octets < length (attribute_octets (type_attribute self.now.content_type))) }
    {
        octets < self.encode_type().encoded_len()
    }

    /// The digest, and the content type where it is asked for.
    fn encode_with_digest(&self, with_type: bool) -> DigestAndType<'a>
        ensures octets { ⟦<DigestAndType<'static> as Values>⟧.encoded result
            ≡ listed_octets attribute_octets (placed_where with_type self.now (digest_alone self.now)) }
        ensures short { ⟦<DigestAndType<'static> as Values>⟧.is_short result }
    {
        let digest = self.encode_digest();
        if !with_type {
            return (None, (digest, None));
        }
        if self.leads(digest.encoded_len()) {
            (None, (digest, Some(self.encode_type())))
        } else {
            (Some(self.encode_type()), (digest, None))
        }
    }

    /// The signing time and the digest, and the content type where it is asked for.
    fn encode_with_time(&self, with_type: bool) -> TimeAndOthers<'a>
        ensures octets { ⟦<TimeAndOthers<'static> as Values>⟧.encoded result
            ≡ listed_octets attribute_octets (placed_where with_type self.now (time_and_digest self.now)) }
        ensures short { ⟦<TimeAndOthers<'static> as Values>⟧.is_short result }
    {
        match self.values.signing_time {
            None => (None, (None, self.encode_with_digest(with_type))),
            Some(time) => {
                let time = encode_time(time);
                if !with_type {
                    return (None, (Some(time), self.encode_with_digest(false)));
                }
                if self.leads(time.encoded_len()) {
                    (None, (Some(time), self.encode_with_digest(true)))
                } else {
                    (
                        Some(self.encode_type()),
                        (Some(time), self.encode_with_digest(false)),
                    )
                }
            }
        }
    }

    /// All attributes, in order.
    fn encode_all(&self) -> AllAttributes<'a>
        ensures octets { ⟦<AllAttributes<'static> as Values>⟧.encoded result ≡ attributes_contents self.now }
        ensures short { ⟦<AllAttributes<'static> as Values>⟧.is_short result }
        ensures can { CanWriteAttributes self.now }
    {
        let _ = &self.values;
        match self.values.binary_signing_time {
            None => (None, (None, self.encode_with_time(true))),
            Some(seconds) => {
                let binary = encode_binary(seconds);
                if self.leads(binary.encoded_len()) {
                    (None, (Some(binary), self.encode_with_time(true)))
                } else {
                    (
                        Some(self.encode_type()),
                        (Some(binary), self.encode_with_time(false)),
                    )
                }
            }
        }
    }

    /// An encoder for the attributes as they are in an object. It always fits, and allocates nothing.
    pub fn encode(&self) -> SignedAttrsEncoder<'a>
        ensures octets { ⟦<SignedAttrsEncoder<'static> as Values>⟧.encoded result ≡ attributes_octets self.now }
        ensures fits { ⟦<SignedAttrsEncoder<'static> as Values>⟧.is_short result
            × (length (attributes_octets self.now) < 2 ^ 63) }
        // The encoding is read as these attributes; times are as [Time] has them.
        ensures read_back { AreReadBack self.now }
    {
        Around::new(AttributesBuilder::of_values(self.values))
    }

    /// An encoder for the message: the octets that the signer signs. It always fits, and allocates nothing.
    pub fn encode_message(&self) -> MessageEncoder<'a>
        ensures octets { ⟦<MessageEncoder<'static> as Values>⟧.encoded result ≡ message_octets self.now }
        ensures fits { ⟦<MessageEncoder<'static> as Values>⟧.is_short result
            × (length (message_octets self.now) < 2 ^ 63) }
        // They are what is signed of the attributes in the object (RFC 5652 5.4).
        ensures message { message_of (attributes_octets self.now) ≡ message_octets self.now }
    {
        Set::new(AttributesBuilder::of_values(self.values))
    }
}

/// The signing time.
fn encode_time(time: Time) -> TimeEncoder
    ensures octets { ⟦<TimeEncoder as Values>⟧.encoded result ≡ attribute_octets (time_attribute time) }
    ensures short { ⟦<TimeEncoder as Values>⟧.is_short result }
{
    encode_attribute(oid::SIGNING_TIME, time.encode_varied())
}

/// The binary signing time.
fn encode_binary(seconds: u64) -> BinaryEncoder
    ensures octets { ⟦<BinaryEncoder as Values>⟧.encoded result ≡ attribute_octets (binary_attribute seconds) }
    ensures short { ⟦<BinaryEncoder as Values>⟧.is_short result }
{
    encode_attribute(
        oid::AA_BINARY_SIGNING_TIME,
        Serial::from(u128::from(seconds)).encode(),
    )
}

/// The attributes, in DER's order.
impl<'a> Values for AttributesBuilder<'a> {
    ghost use Rattle.std.specs.Prelude.{refl};
    ghost use Rattle.rpki_der.specs.Members.{IsValueList};
    ghost use Rattle.rpki_der.specs.Tree.Tree.{Captured};
    ghost use Rattle.rpki_der.specs.TreeLaws.{as_it_is};
    ghost use Rattle.rpki_attributes.specs.EncodedAttributes.{attributes_contents};

    ghost tree = { λ x. Captured (attributes_contents x) };

    ghost encoded = { attributes_contents };

    ghost is_short = { λ x. IsValueList (attributes_contents x) };

    ghost spelled = { λ _. refl };

    ghost measured = { λ _. as_it_is };

    ghost are_values = { λ x h. h };

    fn fits(&self) -> bool {
        let _ = &self.values;
        true
    }

    fn count(&self) -> u64 {
        self.encode_all().count()
    }

    fn encoded_len(&self) -> u64 {
        self.encode_all().encoded_len()
    }

    fn write_encoded<W: Write>(&self, out: &mut W) -> Result<(), io::Error> {
        self.encode_all().write_encoded(out)
    }
}
