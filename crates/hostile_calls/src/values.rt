//! Calls on values that were read, and calls that read or make a whole value.

use crate::made::{Made, Outcome, RpkiSignedData};
use crate::readers;
use crate::refusal::{Failure, Refusal};
use crate::report::Report;
use bytes::Bytes;
use rpki::crypto::PublicKey;
use rpki::der::{BitString, Captured, Constructed, Cursor, Sequence, Shared, Tag, Values};
use rpki::repository::x509::{CertExtension, Name, SignedData};
use rpki_digests::Digests;
use std::alloc::Global;

/// Captures two values, one after the other.
fn both(alloc: Global, first: &Captured, second: &Captured) -> Result<Captured, Refusal> {
    let values = (first, second);
    if !values.fits() {
        return Err(Refusal::NoCall);
    }
    Ok(Captured::from_values(alloc, &values)?)
}

/// Captures a value so many times, in order: the double of half as many, and perhaps one more.
fn repeated(alloc: Global, captured: &Captured, times: u32) -> Outcome {
    let mut all = captured.clone()?;
    let digits = 32u32.saturating_sub(times.leading_zeros());
    for digit in (1..digits).rev() {
        all = both(alloc, &all, &all)?;
        if times.wrapping_shr(digit - 1) % 2 == 1 {
            all = both(alloc, &all, captured)?;
        }
    }
    Ok(Made::Captured(all))
}

/// Reads the members of a captured SEQUENCE once more, in order, by the headers in its index.
fn read_on(captured: &Captured) -> Outcome {
    let mut all = captured.indexed_cursor();
    let mut members = all.take_value_contents(Tag::SEQUENCE, true)?;
    for entry in captured.headers() {
        if entry.parent() == Some(0) {
            match members.take_value_contents(entry.tag(), entry.constructed()) {
                Ok(_) => {}
                Err(e) => return Err(Refusal::from(e)),
            }
        }
    }
    Ok(Made::Done)
}

/// Names the members of each value by their numbers, and says how many there are.
fn name_members(captured: &Captured) -> usize {
    let mut count: usize = 0;
    for number in 0..captured.headers().len() {
        for _ in captured.members(Some(number)) {
            count = count.wrapping_add(1);
        }
    }
    count
}

/// Makes one call on captured values. `repeated` captures them as often as the word says, once at least.
fn of_captured(alloc: Global, (call, word): (&str, &str), captured: &Captured) -> Outcome {
    let around = Sequence::new(captured);
    match call {
        "clone" => Ok(Made::Captured(captured.clone()?)),
        "members" => Ok(Made::Size(name_members(captured))),
        "read_on" => read_on(captured),
        "repeated" => match word.parse::<u32>() {
            Ok(times) => repeated(alloc, captured, times),
            Err(_) => Err(Refusal::NoCall),
        },
        "from_values" if around.fits() => {
            Ok(Made::Captured(Captured::from_values(alloc, &around)?))
        }
        _ => Err(Refusal::NoCall),
    }
}

/// Makes one call on a bit string.
fn of_bits(call: &str, bits: &BitString) -> Outcome {
    match call {
        "clone" => Ok(Made::Bits(bits.clone()?)),
        "octet_bytes" => Ok(Made::Octets(bits.octet_bytes()?)),
        _ => Err(Refusal::NoCall),
    }
}

/// Makes one call on a public key.
fn of_key(alloc: Global, call: &str, key: &PublicKey) -> Outcome {
    match call {
        "clone" => Ok(Made::Key(key.clone()?)),
        "bits_bytes" => Ok(Made::Octets(key.bits_bytes()?)),
        "to_info_bytes" if key.encode_ref().fits() => {
            Ok(Made::Octets(key.to_info_bytes(alloc)?))
        }
        "to_subject_name" => Ok(Made::Name(key.to_subject_name(alloc, &Digests)?)),
        "from_pub_key" => Ok(Made::Name(Name::from_pub_key(alloc, &Digests, key)?)),
        _ => Err(Refusal::NoCall),
    }
}

/// Makes one call on signed data.
fn of_signed(call: &str, signed: &RpkiSignedData) -> Outcome {
    match call {
        "clone" => Ok(Made::Signed(signed.clone()?)),
        "clone_signature" => Ok(Made::Signature(signed.signature().clone()?)),
        "clone_data" => Ok(Made::Captured(signed.data().clone()?)),
        _ => Err(Refusal::NoCall),
    }
}

/// Makes one call that reads a whole value, or makes one of octets.
fn of_octets(alloc: Global, call: &str, octets: Bytes) -> Outcome {
    match call {
        "decode_signed" => Ok(Made::Signed(SignedData::decode(alloc, octets)?)),
        "decode_key" => Ok(Made::Key(readers::whole_key(alloc, octets)?)),
        "decode_name" => Ok(Made::Name(Name::decode(alloc, octets)?)),
        "decode_extension" => Ok(Made::Extension(CertExtension::decode(alloc, octets)?)),
        "rsa_from_components" => rsa_of(alloc, octets.as_slice(), &[1, 0, 1]),
        "rsa_of_exponent" => rsa_of(alloc, &[3], octets.as_slice()),
        "rsa_from_bits_bytes" => Ok(Made::Key(PublicKey::rsa_from_bits_bytes(octets)?)),
        _ => Err(Refusal::NoCall),
    }
}

/// The RSA key of these numbers.
fn rsa_of(alloc: Global, modulus: &[u8], exponent: &[u8]) -> Outcome {
    if modulus.len() > 1 << 30 || exponent.len() > 1 << 30 {
        return Err(Refusal::NoCall);
    }
    Ok(Made::Key(PublicKey::rsa_from_components(alloc, modulus, exponent)?))
}

/// Makes one call on octets, and reports what it makes.
pub fn tell_whole(
    alloc: Global,
    report: Report,
    call: &str,
    octets: Vec<u8>,
) -> Result<(), Failure> {
    let octets = Bytes::from_vec(octets)?;
    report.outcome(of_octets(alloc, call, octets))?;
    Ok(())
}

/// Makes one call on the captured value that the octets are, and reports what it makes, and what the value holds then.
pub fn tell_captured(
    alloc: Global,
    report: Report,
    call: (&str, &str),
    octets: Vec<u8>,
) -> Result<(), Failure> {
    let source = Bytes::from_vec(octets)?;
    let captured = Constructed::new(&source).capture_one(Shared::new(alloc, &source))?;
    report.outcome(of_captured(alloc, call, &captured))?;
    report.octets("held", captured.as_slice())?;
    Ok(())
}

/// The same for the bit string that the octets are.
pub fn tell_bits(
    alloc: Global,
    report: Report,
    call: &str,
    octets: Vec<u8>,
) -> Result<(), Failure> {
    let source = Bytes::from_vec(octets)?;
    let bits = readers::bits(alloc, &mut Constructed::new(&source))?;
    report.outcome(of_bits(call, &bits))?;
    report.values("held", &bits.encode_ref())?;
    Ok(())
}

/// The same for the public key that the octets are.
pub fn tell_key(alloc: Global, report: Report, call: &str, octets: Vec<u8>) -> Result<(), Failure> {
    let key = readers::whole_key(alloc, Bytes::from_vec(octets)?)?;
    report.outcome(of_key(alloc, call, &key))?;
    report.values("held", &key.encode_ref())?;
    Ok(())
}

/// The same for the signed data that the octets are.
pub fn tell_signed(
    alloc: Global,
    report: Report,
    call: &str,
    octets: Vec<u8>,
) -> Result<(), Failure> {
    let signed = SignedData::decode(alloc, Bytes::from_vec(octets)?)?;
    report.outcome(of_signed(call, &signed))?;
    report.values("held", &signed.encode_ref())?;
    Ok(())
}

/// The same for the name that the octets are.
pub fn tell_name(
    alloc: Global,
    report: Report,
    call: &str,
    octets: Vec<u8>,
) -> Result<(), Failure> {
    let source = Bytes::from_vec(octets)?;
    let name = Name::take_from(Shared::new(alloc, &source), &mut Constructed::new(&source))?;
    let outcome = match call {
        "clone" => name.clone().map(Made::Name).map_err(Refusal::from),
        _ => Err(Refusal::NoCall),
    };
    report.outcome(outcome)?;
    report.values("held", &name.encode_ref())?;
    Ok(())
}

/// The same for the extension that the octets are.
pub fn tell_extension(
    alloc: Global,
    report: Report,
    call: &str,
    octets: Vec<u8>,
) -> Result<(), Failure> {
    let source = Bytes::from_vec(octets)?;
    let extension = CertExtension::take_from(
        Shared::new(alloc, &source),
        &mut Constructed::new(&source),
    )?;
    let outcome = match call {
        "clone" => extension
            .clone()
            .map(Made::Extension)
            .map_err(Refusal::from),
        _ => Err(Refusal::NoCall),
    };
    report.outcome(outcome)?;
    report.values("held", &extension.encode_ref())?;
    Ok(())
}
