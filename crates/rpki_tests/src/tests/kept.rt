//! Values that are read in place and then kept, each followed by a NULL: of octets that were copied, and shared with
//! those that they were read from.

use super::source_of;
use bytes::Bytes;
use rpki::crypto::{PublicKey, PublicKeyView};
use rpki::repository::x509::{
    CertExtension, ExtensionOctets, ExtensionView, Name, NameOctets, NameView,
};
use rpki_der::{Constructed, DecodeError, Shared, Tag};
use std::alloc::{AllocError, Global};
use std::ptr;
use std::test::Fail;

/// A name, octets that begin with the name of a subject, and how many are its own.
const NAMES: &[(&str, &str, usize)] = &[
    ("common name", "300c310a300806035504031301410500", 14),
    (
        "value with others in it",
        "300f310d300b06035504033004300205000500",
        17,
    ),
];

/// A name, octets that begin with a key, how many are its own, and where its bits begin.
#[rattlefmt::skip]
const KEYS: &[(&str, &str, usize, usize)] = &[
    ("RSA key", "3015300d06092a864886f70d01010105000304006162630500", 23, 20),
    ("unused bits", "3013300d06092a864886f70d0101010500030207800500", 21, 20),
];

/// A name, octets that begin with an extension, how many are its own, and where its identifier and its contents begin.
#[rattlefmt::skip]
const EXTENSIONS: &[(&str, &str, usize, usize, usize)] = &[
    ("critical basic constraints", "300c0603551d130101ff040230000500", 14, 4, 12),
    ("FALSE that is spelled", "300c0603551d13010100040230000500", 14, 4, 12),
    ("octets that are the identifier again", "300a0603551d130403551d130500", 12, 4, 9),
];

/// The octets of the value alone.
fn alone(alloc: Global, source: &Bytes, size: usize) -> Result<Bytes, AllocError> {
    Bytes::copy_from_slice(alloc, &source[..size.min(source.len())])
}

/// Whether the part is at this place of the source, and isn't a copy.
fn stands_at(part: &[u8], source: &[u8], place: usize) -> bool {
    match (part.first(), source.get(place)) {
        (Some(first), Some(there)) => ptr::eq(first, there),
        _ => false,
    }
}

/// Whether the name in place, of octets that were copied, is the name that is decoded; and whether a NULL remains.
fn name_is_kept(alloc: Global, source: &Bytes, size: usize) -> Result<bool, DecodeError> {
    let mut cons = Constructed::from_slice(source);
    let view = NameView::take_from(&mut cons)?;
    let name = view.kept(Bytes::copy_from_slice(alloc, view.octets())?);
    let decoded = Name::decode(alloc, alone(alloc, source, size)?)?;
    Ok(name.view().octets() == decoded.view().octets() && cons.rest() == b"\x05\x00".as_slice())
}

/// Whether a name is the octets that it was read from.
fn name_is_shared(alloc: Global, source: &Bytes) -> Result<bool, DecodeError> {
    let keep = Shared::new(alloc, source);
    let name = Name::take_from(keep, &mut Constructed::new(source))?;
    let octets = NameOctets::take_from(keep, &mut Constructed::new(source))?;
    Ok(
        stands_at(name.view().octets(), source.as_slice(), 0)
            && stands_at(octets.view().octets(), source.as_slice(), 0),
    )
}

#[test]
fn names_are_kept(rt: HostRuntime) -> Result<(), Fail> {
    for (name, digits, size) in NAMES {
        let source = source_of(rt.alloc(), digits)?;
        assert!(rt; name_is_kept(rt.alloc(), &source, *size)?, "kept: {name}");
        assert!(rt; name_is_shared(rt.alloc(), &source)?, "shared: {name}");
    }
    Ok(())
}

/// The same of a key.
fn key_is_kept(alloc: Global, source: &Bytes, size: usize) -> Result<bool, DecodeError> {
    let mut cons = Constructed::from_slice(source);
    let view = PublicKeyView::take_from(&mut cons)?;
    let key = view.kept(Bytes::copy_from_slice(alloc, view.bits())?);
    Ok(
        key == PublicKey::decode(alloc, alone(alloc, source, size)?)?
            && cons.rest() == b"\x05\x00".as_slice(),
    )
}

/// Whether the bits of a key are those that it was read from, at this place.
fn key_is_shared(alloc: Global, source: &Bytes, place: usize) -> Result<bool, DecodeError> {
    let key = PublicKey::take_from(Shared::new(alloc, source), &mut Constructed::new(source))?;
    Ok(stands_at(key.bits(), source.as_slice(), place))
}

#[test]
fn keys_are_kept(rt: HostRuntime) -> Result<(), Fail> {
    for (name, digits, size, place) in KEYS {
        let source = source_of(rt.alloc(), digits)?;
        assert!(rt; key_is_kept(rt.alloc(), &source, *size)?, "kept: {name}");
        let shared = key_is_shared(rt.alloc(), &source, *place)?;
        assert!(rt; shared, "shared: {name}");
    }
    Ok(())
}

/// The same of an extension.
fn extension_is_kept(alloc: Global, source: &Bytes, size: usize) -> Result<bool, DecodeError> {
    let mut cons = Constructed::from_slice(source);
    let view = ExtensionView::take_placed(&mut cons)?.extension;
    let identifier = Bytes::copy_from_slice(alloc, view.id().0)?;
    let extension = view.kept(identifier, Bytes::copy_from_slice(alloc, view.octets())?);
    let decoded = CertExtension::decode(alloc, alone(alloc, source, size)?)?;
    Ok(
        extension.id() == decoded.id()
            && extension.critical() == decoded.critical()
            && extension.octets() == decoded.octets()
            && cons.rest() == b"\x05\x00".as_slice(),
    )
}

/// Whether the parts of an extension are those that it was read from, at these places.
fn extension_is_shared(
    alloc: Global,
    source: &Bytes,
    identifier: usize,
    content: usize,
) -> Result<bool, DecodeError> {
    let keep = Shared::new(alloc, source);
    let extension = CertExtension::take_from(keep, &mut Constructed::new(source))?;
    let octets = ExtensionOctets::take_from(keep, &mut Constructed::new(source))?;
    Ok(
        stands_at(extension.id().0, source.as_slice(), identifier)
            && stands_at(extension.octets(), source.as_slice(), content)
            && stands_at(octets.id().0, source.as_slice(), identifier)
            && stands_at(octets.octets(), source.as_slice(), content),
    )
}

#[test]
fn extensions_are_kept(rt: HostRuntime) -> Result<(), Fail> {
    for (name, digits, size, identifier, content) in EXTENSIONS {
        let source = source_of(rt.alloc(), digits)?;
        let kept = extension_is_kept(rt.alloc(), &source, *size)?;
        assert!(rt; kept, "kept: {name}");
        let shared = extension_is_shared(rt.alloc(), &source, *identifier, *content)?;
        assert!(rt; shared, "shared: {name}");
    }
    Ok(())
}

/// Whether what a reader keeps of an extension's octets is a part of them, and how many octets follow the identifier.
fn content_is_shared(alloc: Global) -> Result<(bool, usize), DecodeError> {
    let octets = b"\x30\x0B\x06\x03\x55\x1D\x0E\x04\x04\x04\x02\xAB\xCD\x05\x00";
    let view = ExtensionView::take_placed(&mut Constructed::from_slice(octets))?;
    let following = view.following.rest().len();
    let extension = ExtensionOctets::take_from(alloc, &mut Constructed::from_slice(octets))?;
    let part = extension
        .cursor()
        .take_primitive_bytes_if(extension.shared(alloc), Tag::OCTET_STRING)?;
    Ok((stands_at(part.as_slice(), extension.octets(), 2), following))
}

#[test]
fn parts_of_extensions_are_shared(rt: HostRuntime) -> Result<(), Fail> {
    assert_eq!(rt; content_is_shared(rt.alloc())?, (true, 8));
    Ok(())
}
