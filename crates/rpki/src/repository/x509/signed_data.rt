//! Signed data: a value, and a signature over exactly its octets (RFC 5280 4.1).

ghost use Rattle.std.specs.Prelude.{◌≡◌, ◌<◌, ◌^◌, ◌↔◌, IfOk, IsOk};
ghost use Rattle.rpki_der.specs.Prelude.{left, Takes, TakesWhole, AreValues, IsValue, bits_contents, bits_of};
ghost use Rattle.rpki.specs.Provider.{VerifiesBy};
ghost use Rattle.rpki.specs.Checkers.{checkers_of};
ghost use Rattle.rpki.specs.Signature.{signature_of};
ghost use Rattle.rpki.specs.SignedData.{SignedParts, parts_of, IsSignedContents, SpellsSigned, written_signed};
ghost use Rattle.rpki.specs.SignedData.{normal_parts, IsWrittenAgain, DiffersInCountAlone, IsShortSigned};
ghost use Rattle.rpki.specs.SignedData.{IsWrittenApart, signature_in};
ghost use Rattle.rpki.specs.SignedFault.{signed_parts, signed_sequence, signature_bits};

use crate::crypto::{
    Provider, PublicKey, RpkiSignatureAlgorithm, Signature, SignatureAlgorithm,
    SignatureVerificationError,
};
use bytes::Bytes;
use rpki_der::{
    Captured, Constructed, DecodeError, Keep, Primitive, PrimitiveContent, Sequence, Shared, Tag,
    Values, write_whole,
};
use std::alloc::{AllocError, Global};
use std::io;
use std::io::Write;
use std::marker::Model;

/// One value, and a signature over exactly its octets, by an algorithm of the RPKI unless another is named.
#[derive(Debug, Drop)]
pub struct SignedData<Alg = RpkiSignatureAlgorithm> {
    signed: Captured,
    signature: Signature<Alg>,
}

impl<Alg> Model for SignedData<Alg> {
    ghost use Rattle.rpki.specs.SignedData.{SignedParts, parts_of};
    ghost use Rattle.rpki_der.specs.Members.{IsValue};

    ghost Value = { SignedParts Alg };

    ghost view = { λ x. parts_of x.signed x.signature.algorithm x.signature.value };

    ghost invariant = { λ x. IsValue x.signed };
}

impl<Alg> SignedData<Alg> {
    /// A captured value and a signature over it. Requires that one value was captured: `values()` is 1.
    pub fn new(signed: Captured, signature: Signature<Alg>) -> SignedData<Alg>
        requires { AreValues 1 signed }
        ensures { result ≡ parts_of signed signature.algorithm signature.value }
    {
        SignedData { signed, signature }
    }

    /// The value, as exactly the octets that are signed.
    pub fn data(&self) -> &Captured
        ensures slice { result.now ≡ self.now.signed }
        ensures one { IsValue result.now }
    {
        &self.signed
    }

    /// The signature.
    pub fn signature(&self) -> &Signature<Alg>
        ensures { result.now ≡ signature_of self.now.algorithm self.now.value }
    {
        &self.signature
    }
}

impl<Alg: SignatureAlgorithm + Drop> SignedData<Alg> {
    /// Reads the three parts of signed data, with no SEQUENCE around them: one value, an algorithm identifier and a BIT
    /// STRING. What follows them remains. An allocator copies the value and the signature, and
    /// [Shared](rpki_der::Shared) shares them; requires that `keep` can keep parts of the rest.
    ///
    /// The errors are those of the parts; `OutOfMemory` if allocation fails, only where a value begins the rest.
    pub fn from_constructed<K: Keep>(
        keep: K,
        cons: &mut Constructed<'_>,
    ) -> Result<SignedData<Alg>, DecodeError>
        requires { K.holds keep (left cons.old) }
        ensures { Takes (λ x. x) (signed_parts Alg.spells Alg.fault) (left cons.old) (left cons.new) result }
    {
        let mut after = *cons;
        let signed = after.capture_one(keep)?;
        let algorithm = Alg::x509_take_from(&mut after)?;
        let value = signature_value(keep, &mut after)?;
        *cons = after;
        Ok(SignedData::new(signed, Signature::new(algorithm, value)))
    }

    /// Signed data: a SEQUENCE of the three parts and of nothing else. An allocator copies the value and the signature,
    /// and [Shared](rpki_der::Shared) shares them; requires that `keep` can keep parts of the rest.
    ///
    /// The errors are those of a SEQUENCE; then those of the parts, `Trailing` for octets that follow them, and
    /// `OutOfMemory` if allocation fails, only where a value begins the contents of the SEQUENCE.
    pub fn take_from<K: Keep>(
        keep: K,
        cons: &mut Constructed<'_>,
    ) -> Result<SignedData<Alg>, DecodeError>
        requires { K.holds keep (left cons.old) }
        ensures { Takes (λ x. x) (signed_sequence Alg.spells Alg.fault) (left cons.old) (left cons.new) result }
    {
        cons.in_sequence_with(
            keep,
            |contents, keep|
                requires { K.holds keep (left contents.old) }
            { SignedData::from_constructed(keep, contents) },
        )
    }

    /// Signed data, and nothing else. It shares the octets.
    ///
    /// The errors are those of [SignedData::take_from]; then `Trailing` if something follows signed data.
    pub fn decode(alloc: Global, bytes: Bytes) -> Result<SignedData<Alg>, DecodeError>
        ensures decodes { TakesWhole (λ x. x) (signed_sequence Alg.spells Alg.fault) bytes result }
        // It is written as it was read exactly where its algorithm was spelled as it is written, and no bit was unused.
        ensures again { IfOk result (λ v. IsWrittenAgain Alg.spells Alg.written v bytes) }
        // Where the algorithm has one spelling, all inputs of this value differ in the count of unused bits alone.
        ensures one_count { IfOk result (λ v. DiffersInCountAlone Alg.spells v bytes) }
    {
        let mut cons = Constructed::new(&bytes);
        let found = SignedData::take_from(Shared::new(alloc, &bytes), &mut cons)?;
        cons.finish()?;
        Ok(found)
    }
}

/// An encoder for signed data: the signed octets, the algorithm by its own encoder `E`, and the signature.
pub type SignedDataEncoder<'a, Alg, E> = Sequence<
    (&'a Captured, E, Primitive<SignatureValueContent<'a, Alg>>),
>;

impl<Alg: SignatureAlgorithm + 'static> SignedData<Alg> {
    /// An encoder for the signed data: exactly the signed octets, the algorithm as it is written, and the signature
    /// without unused bits.
    pub fn encode_ref(&self) -> SignedDataEncoder<'_, Alg, Alg::Encoder>
        ensures octets { ⟦<SignedDataEncoder<'static, Alg, Alg::Encoder> as Values>⟧.encoded result
            ≡ written_signed Alg.written self.now }
        // It fits exactly where its contents have fewer than 2^32 octets, if the algorithm's encoder fits.
        ensures short { ⟦<SignedDataEncoder<'static, Alg, Alg::Encoder> as Values>⟧.is_short result
            → IsShortSigned Alg.written self.now }
        ensures fits { Alg.fits self.now.algorithm → IsShortSigned Alg.written self.now
            → ⟦<SignedDataEncoder<'static, Alg, Alg::Encoder> as Values>⟧.is_short result }
        // The encoding is read as the normal form.
        ensures read_back { IsShortSigned Alg.written self.now
            → SpellsSigned Alg.spells (normal_parts Alg.norm self.now) (written_signed Alg.written self.now) }
        // Two values have the same encoding exactly where their normal forms are equal.
        ensures same { IsWrittenApart Alg.written Alg.norm self.now }
    {
        let signature = SignatureValueContent {
            signature: &self.signature,
        };
        Sequence::new((
            &self.signed,
            self.signature.algorithm().x509_encode(),
            signature.encode(),
        ))
    }
}

impl<Alg: SignatureAlgorithm> SignedData<Alg> {
    /// Checks that the signature is by this key over exactly the signed octets, as the provider says.
    ///
    /// Returns an error if the algorithm has keys of another format, or if the provider says no.
    pub fn verify_signature<P: Provider>(
        &self,
        provider: &P,
        key: &PublicKey,
    ) -> Result<(), SignatureVerificationError>
        ensures { IsOk result ↔ VerifiesBy (checkers_of P.Provider provider.now) Alg.format key.now self.now.signed
            (signature_in self.now) }
    {
        key.verify(provider, self.signed.as_slice(), &self.signature)
    }
}

/// Two values of the RPKI are equal where their slices and their signatures are, and both algorithms or neither have
/// parameters.
impl PartialEq for SignedData<RpkiSignatureAlgorithm> {
    ghost use Rattle.std.specs.Cmp.{partial_equiv_from_equiv};
    ghost use Rattle.rpki.specs.SignedEqual.{same_signed};
    ghost use Rattle.rpki.specs.SignedEqualLaws.{same_signed_equivalence};

    ghost eq = { same_signed };

    ghost laws = { partial_equiv_from_equiv same_signed_equivalence };

    fn eq(&self, other: &Self) -> bool {
        self.signed.as_slice() == other.signed.as_slice()
            && *self.signature.algorithm() == *other.signature.algorithm()
            && self.signature.value().as_slice() == other.signature.value().as_slice()
    }
}

impl Eq for SignedData<RpkiSignatureAlgorithm> {
    ghost use Rattle.rpki.specs.SignedEqualLaws.{same_signed_equivalence};

    ghost laws = { same_signed_equivalence };
}

impl<Alg: Copy> SignedData<Alg> {
    /// Returns a copy of the value that shares its octets and copies the index of their headers.
    ///
    /// Returns `AllocError` if allocation fails.
    pub fn clone(&self) -> Result<SignedData<Alg>, AllocError>
        ensures { IfOk result (λ v. v ≡ self.now) }
    {
        let signed = self.signed.clone()?;
        let signature = self.signature.clone()?;
        Ok(SignedData { signed, signature })
    }
}

/// A signature's octets as the contents of a BIT STRING without unused bits (X.690 8.6).
#[derive(Clone, Copy, Debug)]
pub struct SignatureValueContent<'a, Alg> {
    signature: &'a Signature<Alg>,
}

impl<'a, Alg> PrimitiveContent for SignatureValueContent<'a, Alg> {
    ghost use Rattle.rpki_der.specs.Prelude.{bit_string, bits_contents, bits_of};

    ghost plain = { bit_string };

    const TAG: Tag = Tag::BIT_STRING;

    ghost contents = { λ x. bits_contents (bits_of 0 x.signature.now.value) };

    fn plain_tag(&self) -> Tag {
        Tag::BIT_STRING
    }

    fn encoded_len(&self) -> u64 {
        self.signature.value().len() as u64 + 1
    }

    fn write_encoded<W: Write>(&self, out: &mut W) -> Result<(), io::Error> {
        write_whole(out, &[0])?;
        write_whole(out, self.signature.value().as_slice())
    }
}

/// The octets of a signature, with any count of unused bits.
fn signature_value<K: Keep>(keep: K, cons: &mut Constructed<'_>) -> Result<Bytes, DecodeError>
    requires { K.holds keep (left cons.old) }
    ensures { Takes (λ v. v) signature_bits (left cons.old) (left cons.new) result }
{
    let bits = cons.take_bit_string(keep)?;
    Ok(bits.into_octets())
}
