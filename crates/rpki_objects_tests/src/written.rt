//! Signed attributes and signed objects as they are written.

use crate::objects::attributes::{DIGEST, Moment, ROWS, Row};
use crate::objects::{manifests, origins, providers};
use bytes::Bytes;
use rpki::crypto::{KeyIdentifier, Provider};
use rpki::der::{Captured, Constructed, Oid, Values};
use rpki::repository::x509::Time;
use rpki_cert_tests::provider::Told;
use rpki_der_tests::hexadecimal::octets_of;
use rpki_der_tests::rows;
use rpki_objects::{
    AttributesBuilder, KnownAttributes, MessageDigest, SignedObject, SignedObjectBuilder,
    SignedObjectParts, SignedObjectView,
};
use std::alloc::{AllocError, Global};
use std::test::Fail;

/// The values that are written, where they fit and say how many octets and values they are.
fn written<V: Values>(alloc: Global, values: &V) -> Result<Option<Bytes>, AllocError> {
    if !values.fits() {
        return Ok(None);
    }
    let length = values.encoded_len();
    let count = values.count();
    let found = Captured::from_values(alloc, values)?;
    if found.values() as u64 != count || found.as_slice().len() as u64 != length {
        return Ok(None);
    }
    Ok(Some(found.into_bytes()))
}

/// The signing time of a row.
fn time_of(moment: Option<Moment>) -> Option<Time> {
    let (year, month, day, hour, minute, second) = moment?;
    Time::utc(year, month, day, hour, minute, second)
}

/// What the attributes of a row say.
fn values_of<'a>(kind: &'a [u8], digest: MessageDigest, row: &Row) -> KnownAttributes<'a> {
    KnownAttributes {
        content_type: Oid(kind),
        message_digest: digest,
        signing_time: time_of(row.2),
        binary_signing_time: row.3,
    }
}

/// The digest of the rows.
fn digest(alloc: Global) -> Result<Option<MessageDigest>, AllocError> {
    let octets = octets_of(alloc, DIGEST)?;
    match <[u8; 32]>::try_from(octets.as_slice()) {
        Ok(octets) => Ok(Some(MessageDigest::from_array(octets))),
        Err(_) => Ok(None),
    }
}

/// Whether the octets under the implicit tag are the message, but for the first.
fn are_under_tag(attributes: &[u8], message: &[u8]) -> bool {
    attributes.len() == message.len()
        && attributes.first() == Some(&0xA0)
        && message.first() == Some(&0x31)
        && attributes[1..] == message[1..]
}

/// Whether the attributes of a row are written as its message, and under the implicit tag.
fn is_message(alloc: Global, row: &Row) -> Result<bool, AllocError> {
    let kind = octets_of(alloc, row.1)?;
    let expected = octets_of(alloc, row.4)?;
    let Some(digest) = digest(alloc)? else {
        return Ok(false);
    };
    let values = values_of(kind.as_slice(), digest, row);
    let Some(builder) = AttributesBuilder::new(&values) else {
        return Ok(false);
    };
    let Some(message) = written(alloc, &builder.encode_message())? else {
        return Ok(false);
    };
    let Some(attributes) = written(alloc, &builder.encode())? else {
        return Ok(false);
    };
    Ok(
        message.as_slice() == expected.as_slice()
            && are_under_tag(attributes.as_slice(), expected.as_slice()),
    )
}

#[test]
fn attributes_are_written_in_order(rt: HostRuntime) -> Result<(), Fail> {
    for row in ROWS {
        assert!(rt; is_message(rt.alloc(), row)?, "{}", row.0);
    }
    Ok(())
}

/// Contents octets that are no object identifier's (X.690 8.19.2).
const NO_TYPES: &[(&str, &[u8])] = &[
    ("no octets", &[]),
    ("cut within a subidentifier", &[42, 134]),
    ("subidentifier that begins with 80", &[42, 0x80, 1]),
];

#[test]
fn content_types_are_identifiers(rt: HostRuntime) -> Result<(), Fail> {
    let digest = digest(rt.alloc())?.ok_or("no digest")?;
    for (name, kind) in NO_TYPES {
        let values = KnownAttributes {
            content_type: Oid(kind),
            message_digest: digest,
            signing_time: None,
            binary_signing_time: None,
        };
        assert!(rt; AttributesBuilder::new(&values).is_none(), "{name}");
    }
    Ok(())
}

/// The certificate of an object that openssl made.
pub fn certificate(alloc: Global, object: &[u8]) -> Result<Option<Captured>, AllocError> {
    let Ok(view) = SignedObjectView::read(object, true) else {
        return Ok(None);
    };
    match Constructed::from_slice(view.cert.octets.octets).capture_one(alloc) {
        Ok(certificate) => Ok(Some(certificate)),
        Err(_) => Ok(None),
    }
}

/// The object of these parts, where it can be written.
pub fn object(alloc: Global, parts: &SignedObjectParts<'_>) -> Result<Option<Bytes>, AllocError> {
    match SignedObjectBuilder::new(parts) {
        Some(builder) => written(alloc, &builder.encode()),
        None => Ok(None),
    }
}

/// The object of the parts of another.
fn again(alloc: Global, octets: &[u8]) -> Result<Option<Bytes>, AllocError> {
    let Ok(view) = SignedObjectView::read(octets, true) else {
        return Ok(None);
    };
    let Some(certificate) = certificate(alloc, octets)? else {
        return Ok(None);
    };
    object(
        alloc,
        &SignedObjectParts {
            attributes: view.signer.signed_attrs.values,
            content: view.content.content.octets,
            certificate: &certificate,
            signer_identifier: view.signer.identifier,
            signature: view.signer.signature.octets,
        },
    )
}

/// Objects by openssl.
const MADE: &[(&str, &str)] = &[
    ("manifest", manifests::MANIFEST),
    ("manifest, addresses", manifests::LISTS_ADDRESSES),
    ("manifest, numbers", manifests::LISTS_NUMBERS),
    ("route origin", origins::ORIGIN),
    ("route origin of a revoked certificate", origins::REVOKED),
    ("providers", providers::ASPA),
];

#[test]
fn objects_are_written_again(rt: HostRuntime) -> Result<(), Fail> {
    for (name, text) in MADE {
        let octets = octets_of(rt.alloc(), text)?;
        let found = again(rt.alloc(), octets.as_slice())?.ok_or("not written")?;
        assert!(rt; found.as_slice() == octets.as_slice(), "{name}");
    }
    Ok(())
}

/// The message that is signed in an object is the one that its attributes are written as.
fn has_message(alloc: Global, octets: &[u8], signed: &SignedObject) -> Result<bool, AllocError> {
    let Ok(view) = SignedObjectView::read(octets, true) else {
        return Ok(false);
    };
    let Some(builder) = AttributesBuilder::new(&view.signer.signed_attrs.values) else {
        return Ok(false);
    };
    match written(alloc, &builder.encode_message())? {
        Some(message) => Ok(message.as_slice() == signed.message().as_slice()),
        None => Ok(false),
    }
}

#[test]
fn messages_are_those_that_openssl_signed(rt: HostRuntime) -> Result<(), Fail> {
    for (name, text) in MADE {
        let octets = octets_of(rt.alloc(), text)?;
        let whole = Bytes::copy_from_slice(rt.alloc(), octets.as_slice())?;
        let signed = SignedObject::decode(rt.alloc(), whole, true)?;
        let same = has_message(rt.alloc(), octets.as_slice(), &signed)?;
        assert!(rt; same, "{name}");
    }
    Ok(())
}

/// How many octets the content has, each 5A; how many the object of it has, and their digest by SHA-256, of an encoder
/// in Python after RFC 5652. It is a route origin's, of that certificate, signed on 2026-03-01 by 256 octets AB.
const SIZES: &[(usize, usize, &str)] = &rows! {
    (0, 1509, "e81db6532570ea4c0b81bede327656434dd118bb8b1e018a71820c721a8ffc47"),
    (1, 1510, "575a02467eb386c0cf35e11a50bf79e21acbc46fc0b9d0aaaf657b79515e0a86"),
    (127, 1638, "dc1254923289f77319bb5ceff03a5f4aefa2064513da2a9e71504ef440ab4206"),
    (128, 1640, "3aea29770042553e24c58f70cbf7c46c465c7fa92fb1971c2d1ea11ceef60ca7"),
    (255, 1769, "65169e9fd0f428f06d4d7869c735eaa72882dda38749f2dfb4453f677a942de6"),
    (256, 1771, "afddc1102e5eaba1e6efdfc2d0193e419cd7cabbd21afe3196c9f93b9b3560a1"),
    (65_535, 67_055, "e2cadb1560ab8523a6188e183c8891d7e5d23d75b6faf63ab75dade863d7a6ef"),
    (65_536, 67_057, "c38593e1cada383eb35bfc1fcca7576574901c38dc5eb8c386a0ae6f944995c9"),
    (1_000_000, 1_001_521, "ab1c5b900eb8a025be656ef5fe0f7e7f8ce4a9ce1b9b0bf564416ab4abcda16e"),
};

/// An object of a content of this many octets.
fn sized(alloc: Global, made: &[u8], size: usize) -> Result<Option<Bytes>, AllocError> {
    let provider = Told { answer: true };
    let content = vec![in alloc; 0x5Au8; size]?;
    let Ok(view) = SignedObjectView::read(made, true) else {
        return Ok(None);
    };
    let Some(certificate) = certificate(alloc, made)? else {
        return Ok(None);
    };
    let attributes = KnownAttributes {
        content_type: Oid(view.content.content_type.octets),
        message_digest: MessageDigest::of(&provider, content.as_slice()),
        signing_time: Time::utc(2026, 3, 1, 0, 0, 0),
        binary_signing_time: None,
    };
    object(
        alloc,
        &SignedObjectParts {
            attributes,
            content: content.as_slice(),
            certificate: &certificate,
            signer_identifier: view.signer.identifier,
            signature: &[0xAB; 256],
        },
    )
}

/// Whether the octets are read as an object of a content of this many octets.
fn is_read(alloc: Global, octets: Bytes, size: usize) -> bool {
    match SignedObject::decode(alloc, octets, true) {
        Ok(found) => found.content().as_slice().len() == size
            && found.content().as_slice().iter().all(|o| *o == 0x5A),
        Err(_) => false,
    }
}

#[test]
fn objects_of_each_size(rt: HostRuntime) -> Result<(), Fail> {
    let made = octets_of(rt.alloc(), origins::ORIGIN)?;
    let provider = Told { answer: true };
    for (size, length, expected) in SIZES {
        let found = sized(rt.alloc(), made.as_slice(), *size)?.ok_or("not written")?;
        let expected = octets_of(rt.alloc(), expected)?;
        assert_eq!(rt; found.as_slice().len(), *length, "{size} octets");
        let digest = provider.sha256(found.as_slice());
        assert!(rt; digest.as_slice() == expected.as_slice(), "{size} octets");
        assert!(rt; is_read(rt.alloc(), found, *size), "{size} octets, read");
    }
    Ok(())
}

/// Octets that are not one value.
const NOT_ONE: &[(&str, &[u8])] = &[("no value", &[]), ("two values", &[5, 0, 5, 0])];

/// The values that all of these octets are.
fn captured(alloc: Global, octets: &[u8]) -> Result<Option<Captured>, AllocError> {
    let mut cons = Constructed::from_slice(octets);
    let found = cons.capture(alloc, |rest| -> Result<(), rpki::der::DecodeError> {
        *rest = Constructed::from_slice(&[]);
        Ok(())
    });
    match found {
        Ok(values) => Ok(Some(values)),
        Err(_) => Ok(None),
    }
}

#[test]
fn certificates_are_one_value(rt: HostRuntime) -> Result<(), Fail> {
    let digest = digest(rt.alloc())?.ok_or("no digest")?;
    for (name, octets) in NOT_ONE {
        let values = captured(rt.alloc(), octets)?.ok_or("no values")?;
        let parts = SignedObjectParts {
            attributes: KnownAttributes {
                content_type: Oid(&[42, 3]),
                message_digest: digest,
                signing_time: None,
                binary_signing_time: None,
            },
            content: &[],
            certificate: &values,
            signer_identifier: KeyIdentifier::from([7; 20]),
            signature: &[],
        };
        assert!(rt; SignedObjectBuilder::new(&parts).is_none(), "{name}");
    }
    Ok(())
}
