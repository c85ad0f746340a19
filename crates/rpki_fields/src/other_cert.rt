//! Certificates of any algorithms.

ghost use Rattle.std.specs.Prelude.{◌≡◌, IsTrue};
ghost use Rattle.std.specs.Option.{option_map};
ghost use Rattle.rpki_der.specs.Prelude.{left, Takes, TakesAll, TakesWhere, TakesWhole, kept, octets_under};
ghost use Rattle.rpki_cert.specs.Cert.{extensions_tag};
ghost use Rattle.rpki_fields.specs.OtherCert.{each_extension, any_extension_list, any_extensions, unique_id};
ghost use Rattle.rpki_fields.specs.OtherCert.{other_fields, other_tbs, tbs_of, other_cert_fields, other_cert};
ghost use Rattle.rpki_fields.specs.OtherCert.{cert_fields_of, has_other, extensions_of, version_3, optional_of};
ghost use Rattle.rpki_fields.specs.OtherCert.{optional_fields};

use crate::algorithm::{Algorithm, OtherKey};
use bytes::Bytes;
use rpki::der::{BitString, Class, Constructed, DecodeError, Tag};
use rpki::repository::x509::{ExtensionOctets, NameOctets, Validity};
use std::alloc::Global;
use std::marker::Model;

/// What may be left out of what is signed.
#[derive(Drop)]
struct Optional {
    issuer_id: Option<Bytes>,
    subject_id: Option<Bytes>,
    extensions: Option<Vec<ExtensionOctets>>,
}

impl Model for Optional {
    ghost use Rattle.rpki_der.specs.Prelude.{optional_of as if_there};
    ghost use Rattle.rpki_fields.specs.OtherCert.{OptionalParts};

    ghost Value = { OptionalParts };

    ghost view = { λ x. record {
      issuer_id = if_there (λ b. b) x.issuer_id;
      subject_id = if_there (λ b. b) x.subject_id;
      extensions = if_there (λ v. v.items) x.extensions;
    } };
}

/// What is signed of a certificate of any algorithms, of the version 3 (RFC 5280 4.1.2).
#[derive(Drop)]
pub struct OtherTbs {
    serial: Bytes,
    algorithm: Algorithm,
    issuer: NameOctets,
    validity: Validity,
    subject: NameOctets,
    key: OtherKey,
    optional: Optional,
}

impl Model for OtherTbs {
    ghost use Rattle.rpki_fields.specs.OtherCert.{OtherTbsParts};

    ghost Value = { OtherTbsParts };

    ghost view = { λ x. record {
      serial = x.serial;
      algorithm = x.algorithm;
      issuer = x.issuer;
      validity = x.validity;
      subject = x.subject;
      key = x.key;
      optional = x.optional;
    } };
}

/// The version v3(2), under the explicit tag 0 (RFC 5280 4.1.2.1).
fn skip_version(cons: &mut Constructed<'_>) -> Result<(), DecodeError>
    ensures { Takes (λ _. tt) version_3 (left cons.old) (left cons.new) result }
{
    cons.in_constructed(
        Tag::new(Class::Context, 0),
        |contents| contents.skip_u8_if(2),
    )
}

/// A unique identifier under this tag, where it is there.
fn take_unique_id(
    alloc: Global,
    cons: &mut Constructed<'_>,
    tag: Tag,
) -> Result<Option<Bytes>, DecodeError>
    ensures { TakesWhere tag (λ b. b) (unique_id tag) (left cons.old) (left cons.new) result }
{
    if !cons.has_tag(tag) {
        return Ok(None);
    }
    let octets = cons.take_primitive_bytes_if(alloc, tag)?;
    Ok(Some(octets))
}

/// The extensions that these contents are, in sequence.
fn take_each(
    alloc: Global,
    contents: &mut Constructed<'_>,
) -> Result<Vec<ExtensionOctets>, DecodeError>
    ensures { TakesAll (λ v. v.items) each_extension (left contents.old) (left contents.new) result }
{
    contents.take_each(alloc, |rest| ExtensionOctets::take_from(alloc, rest))
}

/// A SEQUENCE of extensions.
fn take_list(alloc: Global, cons: &mut Constructed<'_>) -> Result<Vec<ExtensionOctets>, DecodeError>
    ensures { Takes (λ v. v.items) any_extension_list (left cons.old) (left cons.new) result }
{
    cons.in_sequence(|contents| take_each(alloc, contents))
}

/// The same under the explicit tag 3 (RFC 5280 4.1.2.9).
fn take_tagged(
    alloc: Global,
    cons: &mut Constructed<'_>,
) -> Result<Vec<ExtensionOctets>, DecodeError>
    ensures { Takes (λ v. v.items) any_extensions (left cons.old) (left cons.new) result }
{
    cons.in_constructed(
        Tag::new(Class::Context, 3),
        |contents| take_list(alloc, contents),
    )
}

/// The same where the tag is there.
fn take_extensions(
    alloc: Global,
    cons: &mut Constructed<'_>,
) -> Result<Option<Vec<ExtensionOctets>>, DecodeError>
    ensures { TakesWhere extensions_tag (λ v. v.items) any_extensions (left cons.old) (left cons.new) result }
{
    if !cons.has_tag(Tag::new(Class::Context, 3)) {
        return Ok(None);
    }
    let all = take_tagged(alloc, cons)?;
    Ok(Some(all))
}

/// The parts that may be left out, which are all of these contents.
fn take_optional(alloc: Global, contents: &mut Constructed<'_>) -> Result<Optional, DecodeError>
    ensures { TakesAll optional_of optional_fields (left contents.old) (left contents.new) result }
{
    let issuer_id = take_unique_id(alloc, contents, Tag::new(Class::Context, 1))?;
    let subject_id = take_unique_id(alloc, contents, Tag::new(Class::Context, 2))?;
    let extensions = take_extensions(alloc, contents)?;
    Ok(Optional {
        issuer_id,
        subject_id,
        extensions,
    })
}

impl OtherTbs {
    /// What is signed: a SEQUENCE of its parts, and nothing after them. Copies their octets.
    ///
    /// The errors are those of a SEQUENCE; then those of the parts, `Trailing` for octets that follow them, and
    /// `OutOfMemory` if allocation fails.
    pub fn take_from(alloc: Global, cons: &mut Constructed<'_>) -> Result<OtherTbs, DecodeError>
        ensures { Takes tbs_of other_tbs (left cons.old) (left cons.new) result }
    {
        cons.in_sequence(
            |contents|
                ensures { TakesAll tbs_of other_fields (left contents.old) (left contents.new) result }
            {
                skip_version(contents)?;
                let serial = contents.take_primitive_bytes_if(alloc, Tag::INTEGER)?;
                let algorithm = Algorithm::take_from(alloc, contents)?;
                let issuer = NameOctets::take_from(alloc, contents)?;
                let validity = match Validity::take_from(contents) {
                    Ok(validity) => validity,
                    Err(e) => return Err(e),
                };
                let subject = NameOctets::take_from(alloc, contents)?;
                let key = OtherKey::take_from(alloc, contents)?;
                let optional = take_optional(alloc, contents)?;
                Ok(OtherTbs {
                    serial,
                    algorithm,
                    issuer,
                    validity,
                    subject,
                    key,
                    optional,
                })
            },
        )
    }

    /// The contents octets of the serial number, an INTEGER (RFC 5280 4.1.2.2).
    pub fn serial(&self) -> &[u8]
        ensures { result.now ≡ self.now.serial }
    {
        self.serial.as_slice()
    }

    /// The issuer (RFC 5280 4.1.2.4).
    pub fn issuer(&self) -> &NameOctets
        ensures { result.now ≡ self.now.issuer }
    {
        &self.issuer
    }

    /// The period (RFC 5280 4.1.2.5).
    pub fn validity(&self) -> Validity
        ensures { result ≡ self.now.validity }
    {
        self.validity
    }

    /// The subject (RFC 5280 4.1.2.6).
    pub fn subject(&self) -> &NameOctets
        ensures { result.now ≡ self.now.subject }
    {
        &self.subject
    }

    /// The key of the subject (RFC 5280 4.1.2.7).
    pub fn key(&self) -> &OtherKey
        ensures { result.now ≡ self.now.key }
    {
        &self.key
    }

    /// The extensions, in order (RFC 5280 4.1.2.9).
    pub fn extensions(&self) -> &[ExtensionOctets]
        ensures { result.now ≡ extensions_of self.now.optional.extensions }
    {
        match &self.optional.extensions {
            Some(all) => all.as_slice(),
            None => &[],
        }
    }
}

/// A certificate of any algorithms, of the version 3 (RFC 5280 4.1).
#[derive(Drop)]
pub struct OtherCert {
    tbs: OtherTbs,
    algorithm: Algorithm,
    signature: BitString,
}

impl Model for OtherCert {
    ghost use Rattle.rpki_fields.specs.OtherCert.{OtherCertParts};

    ghost Value = { OtherCertParts };

    ghost view = { λ x. record { tbs = x.tbs; algorithm = x.algorithm; signature = x.signature } };
}

impl OtherCert {
    /// A certificate: a SEQUENCE of what is signed, of the algorithm and of the signature. Copies their octets.
    ///
    /// The errors are those of a SEQUENCE; then those of the parts, `Trailing` for octets that follow them, and
    /// `OutOfMemory` if allocation fails.
    fn take_from(alloc: Global, cons: &mut Constructed<'_>) -> Result<OtherCert, DecodeError>
        ensures { Takes cert_fields_of other_cert (left cons.old) (left cons.new) result }
    {
        cons.in_sequence(
            |contents|
                ensures { TakesAll cert_fields_of other_cert_fields (left contents.old) (left contents.new) result }
            {
                let tbs = OtherTbs::take_from(alloc, contents)?;
                let algorithm = Algorithm::take_from(alloc, contents)?;
                let signature = contents.take_bit_string(alloc)?;
                Ok(OtherCert {
                    tbs,
                    algorithm,
                    signature,
                })
            },
        )
    }

    /// A certificate, and nothing else. Copies its octets.
    ///
    /// The errors are those of a SEQUENCE; then those of what is signed, of the algorithm and of the signature;
    /// `Trailing` if something follows; and `OutOfMemory` if allocation fails.
    pub fn decode(alloc: Global, octets: &[u8]) -> Result<OtherCert, DecodeError>
        ensures { TakesWhole cert_fields_of other_cert octets.now result }
    {
        Constructed::from_slice(octets).whole(|cons| OtherCert::take_from(alloc, cons))
    }

    /// What is signed.
    pub fn tbs(&self) -> &OtherTbs
        ensures { result.now ≡ self.now.tbs }
    {
        &self.tbs
    }

    /// The algorithm of the signature.
    pub fn algorithm(&self) -> &Algorithm
        ensures { result.now ≡ self.now.algorithm }
    {
        &self.algorithm
    }

    /// The signature.
    pub fn signature(&self) -> &BitString
        ensures { result.now ≡ self.now.signature }
    {
        &self.signature
    }

    /// Whether it is signed by an algorithm, or has a key of one, that the RPKI doesn't use (RFC 7935 2, 3).
    pub fn has_other(&self) -> bool
        ensures { result ≡ has_other self.now }
    {
        !(self.algorithm.signs_rpki() && self.tbs.key.algorithm().is_rpki_key())
    }
}
