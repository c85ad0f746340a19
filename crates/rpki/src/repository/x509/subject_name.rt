//! Names of subjects.

ghost use Rattle.std.specs.Prelude.{◌≡◌, ◌<◌, ◌^◌, true, length, IfOk};
ghost use Rattle.rpki_der.specs.Prelude.{sequence, tlv};
ghost use Rattle.rpki.specs.StrictName.{IsRpkiName, IsRouterName, IsEitherName};
ghost use Rattle.rpki.specs.SubjectName.{attribute_contents, subject_octets};

use super::name::Name;
use crate::crypto::Provider;
use crate::crypto::keys::{KeyIdentifier, PublicKey, PublicKeyCn};
use crate::oid;
use rpki_der::{Captured, ConstOid, Primitive, PrimitiveContent, Sequence, Set, Values};
use std::alloc::{AllocError, Global};

/// An encoder for the name of a subject of the RPKI: one common name, a PrintableString of the key identifier in
/// hexadecimal digits (RFC 6487 4.5).
pub type SubjectName = Sequence<Set<Sequence<(Primitive<ConstOid>, Primitive<PublicKeyCn>)>>>;

impl PublicKey {
    /// An encoder for the name of the subject with this key: one common name, the key identifier in hexadecimal digits
    /// (RFC 6487 4.5). The provider computes the digest.
    pub fn encode_subject_name<P: Provider>(&self, provider: &P) -> SubjectName
        ensures octets { ⟦<SubjectName as Values>⟧.encoded result
            ≡ subject_octets (P.sha1_of provider.now self.now.bits.octets) }
        ensures short { ⟦<SubjectName as Values>⟧.is_short result }
        ensures size { length (subject_octets (P.sha1_of provider.now self.now.bits.octets)) < 2 ^ 63 }
        // The encoding is a name that passes both strict inspections.
        ensures strict { IsEitherName (subject_octets (P.sha1_of provider.now self.now.bits.octets)) }
    {
        let name = common_name(self.key_identifier(provider));
        Sequence::new(Set::new(name))
    }
}

/// An encoder for a common name: the attribute of this key identifier (RFC 5280 4.1.2.4).
fn common_name(identifier: KeyIdentifier) -> Sequence<(Primitive<ConstOid>, Primitive<PublicKeyCn>)>
    requires { length identifier ≡ 20 }
    ensures octets { ⟦<Sequence<(Primitive<ConstOid>, Primitive<PublicKeyCn>)> as Values>⟧.encoded result
        ≡ tlv sequence true (attribute_contents identifier) }
    ensures short { ⟦<Sequence<(Primitive<ConstOid>, Primitive<PublicKeyCn>)> as Values>⟧.is_short result }
    ensures size { length (subject_octets identifier) < 2 ^ 63 }
    ensures strict { IsEitherName (subject_octets identifier) }
{
    let attribute = oid::AT_COMMON_NAME.encode();
    let name = PublicKeyCn::new(identifier).encode();
    Sequence::new((attribute, name))
}

impl Name {
    /// The name of the subject with this key: what [PublicKey::encode_subject_name] writes.
    ///
    /// Returns `AllocError` if allocation fails.
    pub fn from_pub_key<P: Provider>(
        alloc: Global,
        provider: &P,
        key: &PublicKey,
    ) -> Result<Name, AllocError>
        ensures octets { IfOk result (λ n. n ≡ subject_octets (P.sha1_of provider.now key.now.bits.octets)) }
        // It passes both strict inspections.
        ensures strict { IfOk result (λ n. IsRpkiName n × IsRouterName n) }
    {
        let written = key.encode_subject_name(provider);
        let captured = Captured::from_values(alloc, &written)?;
        Ok(Name::of_captured(captured))
    }
}

impl PublicKey {
    /// The name of the subject with this key, as [Name::from_pub_key] makes it.
    ///
    /// Returns `AllocError` if allocation fails.
    pub fn to_subject_name<P: Provider>(
        &self,
        alloc: Global,
        provider: &P,
    ) -> Result<Name, AllocError>
        ensures octets { IfOk result (λ n. n ≡ subject_octets (P.sha1_of provider.now self.now.bits.octets)) }
        // It passes both strict inspections.
        ensures strict { IfOk result (λ n. IsRpkiName n × IsRouterName n) }
    {
        Name::from_pub_key(alloc, provider, self)
    }
}
