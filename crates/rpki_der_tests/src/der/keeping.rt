//! Octets that a reader keeps from within values, as a copy and shared, at each size.

ghost use Rattle.rpki_der.specs.Cursor.{left};

use bytes::Bytes;
use rpki_der::*;
use std::alloc::{AllocError, Global};

/// How many octets a value has, and its length octets (X.690 8.1.3).
const SIZES: &[(usize, &[u8])] = &[
    (0, &[0]),
    (1, &[1]),
    (127, &[0x7f]),
    (128, &[0x81, 0x80]),
    (255, &[0x81, 0xff]),
    (256, &[0x82, 0x01, 0x00]),
    (65_535, &[0x82, 0xff, 0xff]),
    (65_536, &[0x83, 0x01, 0x00, 0x00]),
    (1_000_000, &[0x83, 0x0f, 0x42, 0x40]),
];

/// Octets that differ from their neighbours.
fn octets_of(alloc: Global, size: usize) -> Result<Vec<u8>, AllocError> {
    let mut octets = Vec::new(alloc);
    for place in 0..size {
        octets.push((place % 251) as u8)?;
    }
    Ok(octets)
}

/// A SEQUENCE of a SEQUENCE of an OCTET STRING with these contents, and of a BIT STRING of these octets.
fn nested(alloc: Global, contents: &[u8]) -> Result<Bytes, AllocError> {
    let bits = BitString::new(0, Bytes::copy_from_slice(alloc, contents)?);
    let values = Sequence::new((Sequence::new(contents.encode()), bits.encode_ref()));
    if !values.fits() {
        return Err(AllocError);
    }
    let octets = Captured::from_values(alloc, &values)?;
    Ok(octets.into_bytes())
}

/// The OCTET STRING with its header, its contents, and the BIT STRING.
type Kept = (Captured, Bytes, BitString);

/// Keeps the OCTET STRING twice, from the inner SEQUENCE.
fn take_inner<K: Keep>(
    keep: K,
    cons: &mut Constructed<'_>,
) -> Result<(Captured, Bytes), DecodeError>
    requires { K.holds keep (left cons.old) }
{
    let mut again = *cons;
    let value = again.capture(keep, |cons| -> Result<(), DecodeError> {
        cons.take_octets()?;
        Ok(())
    })?;
    let octets = cons.take_primitive_bytes_if(keep, Tag::OCTET_STRING)?;
    Ok((value, octets))
}

/// Reads all of it.
fn take_nested<K: Keep>(keep: K, cons: &mut Constructed<'_>) -> Result<Kept, DecodeError>
    requires { K.holds keep (left cons.old) }
{
    cons.in_sequence_with(
        keep,
        |cons, keep|
            requires { K.holds keep (left cons.old) }
        {
            let mut again = *cons;
            let (value, octets) = again.in_sequence_with(
                keep,
                |cons, keep|
                    requires { K.holds keep (left cons.old) }
                { take_inner(keep, cons) },
            )?;
            cons.capture_one(keep)?;
            let bits = cons.take_bit_string(keep)?;
            Ok((value, octets, bits))
        },
    )
}

/// Whether what is kept is this value, and these contents.
fn is_kept<K: Keep>(keep: K, cons: &mut Constructed<'_>, value: &[u8], contents: &[u8]) -> bool
    requires { K.holds keep (left cons.old) }
{
    match take_nested(keep, cons) {
        Ok((captured, octets, bits)) => {
            captured.as_slice() == value
                && captured.headers().len() == 1
                && octets.as_slice() == contents
                && bits.octet_slice() == contents
                && bits.unused() == 0
                && cons.is_empty()
        }
        Err(_) => false,
    }
}

/// An OCTET STRING with these length octets and contents.
fn octet_string(alloc: Global, size: &[u8], contents: &[u8]) -> Result<Vec<u8>, AllocError> {
    let mut value = Vec::from_slice(alloc, &[4])?;
    value.extend_from_slice(size)?;
    value.extend_from_slice(contents)?;
    Ok(value)
}

#[test]
fn parts_of_values_are_kept(rt: HostRuntime) -> Result<(), AllocError> {
    for (count, size) in SIZES {
        let contents = octets_of(rt.alloc(), *count)?;
        let value = octet_string(rt.alloc(), size, contents.as_slice())?;
        let octets = nested(rt.alloc(), contents.as_slice())?;
        let mut copied = Constructed::new(&octets);
        let same = is_kept(
            rt.alloc(),
            &mut copied,
            value.as_slice(),
            contents.as_slice(),
        );
        assert!(rt; same, "{count} copied");
        let mut shared = Constructed::new(&octets);
        let keep = Shared::new(rt.alloc(), &octets);
        let same = is_kept(keep, &mut shared, value.as_slice(), contents.as_slice());
        assert!(rt; same, "{count} shared");
    }
    Ok(())
}

/// Octets, and whether those are kept of the octets of a SEQUENCE: by a keeper that shares them, where they are their
/// end.
const KEPT: &[(&[u8], bool)] = &[
    (&[0x30, 3, 2, 1, 5], true),
    (&[3, 2, 1, 5], true),
    (&[5], true),
    (&[], true),
    (&[0x30, 3, 2, 1], false),
    (&[2, 1], false),
    (&[2, 1, 6], false),
    (&[0, 0x30, 3, 2, 1, 5], false),
];

/// Whether the keeper can keep parts of the octets.
fn can_keep<K: Keep>(keep: K, octets: &[u8]) -> bool {
    keep.can_keep(octets)
}

#[test]
fn keepers_tell_what_they_can_keep(rt: HostRuntime) -> Result<(), AllocError> {
    let octets = Bytes::copy_from_slice(rt.alloc(), &[0x30, 3, 2, 1, 5])?;
    for (part, shared) in KEPT {
        let keep = Shared::new(rt.alloc(), &octets);
        assert!(rt; can_keep(keep, part) == *shared, "{part:?} shared");
        assert!(rt; can_keep(rt.alloc(), part), "{part:?} copied");
    }
    Ok(())
}

/// Octets, a part of them and a rest; whether the rest are the last of the octets, whether the part is right before as
/// many octets as the rest has, and whether it is right before the rest.
const PLACES: &[(&[u8], &[u8], &[u8], bool, bool, bool)] = &[
    (&[1, 2, 3], &[2], &[3], true, true, true),
    (&[1, 2, 3], &[1, 2], &[3], true, true, true),
    (&[1, 2, 3], &[1, 2, 3], &[], true, true, true),
    (&[1, 2, 3], &[], &[3], true, true, true),
    (&[], &[], &[], true, true, true),
    (&[1, 2, 3], &[1], &[3], true, false, false),
    (&[1, 2, 3], &[2], &[2, 3], true, false, false),
    (&[1, 2, 3], &[0, 1, 2, 3], &[], true, false, false),
    (&[1, 2, 3], &[2], &[4], false, true, false),
    (&[1, 2, 3], &[1], &[1, 2], false, true, false),
    (&[3], &[], &[2, 3], false, false, false),
    (&[], &[1], &[], true, false, false),
];

#[test]
fn places_of_parts_are_told(rt: HostRuntime) -> Result<(), AllocError> {
    for (octets, part, rest, is_end, is_there, stands) in PLACES {
        let section = Section {
            octets: part,
            following: rest.len(),
        };
        let all = Constructed::from_slice(octets);
        let after = Constructed::from_slice(rest);
        assert!(rt;
            Section::is_end(octets, rest) == *is_end,
            "{octets:?} end with {rest:?}"
        );
        assert!(rt;
            section.is_of(octets) == *is_there,
            "{part:?} is in {octets:?}"
        );
        assert!(rt;
            all.stands_before(part, &after) == *stands,
            "{part:?} is before {rest:?} in {octets:?}"
        );
    }
    Ok(())
}
