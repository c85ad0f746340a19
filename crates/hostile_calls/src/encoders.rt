//! The encoders that are run over writers that fail.

use crate::refusal::{Failure, Refusal};
use crate::report::Report;
use crate::{readers, writers};
use bytes::Bytes;
use rpki::crypto::{
    BgpsecSignatureAlgorithm, DigestAlgorithm, KeyIdentifier, PublicKeyFormat,
    RpkiSignatureAlgorithm, SignatureAlgorithm,
};
use rpki::der::{
    Captured, Constructed, Each, Primitive, PrimitiveContent, Sequence, Set, Shared, Tag, Unsigned,
    Wrapped,
};
use rpki::oid;
use rpki::repository::x509::{
    CertExtension, Name, NameOctets, Serial, SignedData, Time, Validity, encode_extension,
};
use rpki::uri::{Https, Rsync};
use rpki_digests::Digests;
use std::alloc::Global;

/// Writes one primitive value.
fn tell_leaf(alloc: Global, report: Report, encoder: &str, octets: &[u8]) -> Result<(), Failure> {
    match encoder {
        "null" => writers::tell(alloc, report, &().encode()),
        "boolean" => writers::tell(alloc, report, &true.encode()),
        "identifier" => writers::tell(alloc, report, &oid::AT_COMMON_NAME.encode()),
        "octets" => writers::tell(alloc, report, &octets.encode()),
        "uri" => writers::tell(alloc, report, &octets.encode_as(Tag::CTX_6)),
        "unsigned" => match Unsigned::from_slice(octets) {
            Ok(number) => writers::tell(alloc, report, &number.encode()),
            Err(e) => Err(Failure::from(Refusal::from(e))),
        },
        _ => Err(Failure::Usage),
    }
}

/// Writes values around a captured one.
fn tell_composed(
    alloc: Global,
    report: Report,
    encoder: &str,
    octets: Vec<u8>,
) -> Result<(), Failure> {
    let source = Bytes::from_vec(octets)?;
    let captured = Constructed::new(&source).capture_one(Shared::new(alloc, &source))?;
    let borrowed = &captured;
    match encoder {
        "captured" => writers::tell(alloc, report, &borrowed),
        "sequence" => writers::tell(alloc, report, &Sequence::new(borrowed)),
        "set" => writers::tell(alloc, report, &Set::new(borrowed)),
        "wrapped" => writers::tell(alloc, report, &Wrapped::new(borrowed)),
        "pair" => writers::tell(alloc, report, &(borrowed, ().encode())),
        "triple" => writers::tell(alloc, report, &(borrowed, ().encode(), borrowed)),
        "some" => writers::tell(alloc, report, &Some(borrowed)),
        "none" => writers::tell(alloc, report, &None::<Primitive<()>>),
        "each" => writers::tell(alloc, report, &Each::new(&[borrowed, borrowed, borrowed])),
        _ => Err(Failure::Usage),
    }
}

/// Writes an algorithm identifier.
fn tell_algorithm(alloc: Global, report: Report, encoder: &str) -> Result<(), Failure> {
    let digest = DigestAlgorithm::sha256();
    let rpki = RpkiSignatureAlgorithm::default();
    let bgpsec = BgpsecSignatureAlgorithm::default();
    match encoder {
        "digest" => writers::tell(alloc, report, &digest.encode()),
        "digest_set" => writers::tell(alloc, report, &digest.encode_set()),
        "digest_identifier" => writers::tell(alloc, report, &digest.encode_oid()),
        "rsa" => writers::tell(alloc, report, &PublicKeyFormat::Rsa.encode()),
        "p256" => writers::tell(alloc, report, &PublicKeyFormat::EcdsaP256.encode()),
        "rpki" => writers::tell(alloc, report, &rpki.x509_encode()),
        "cms" => writers::tell(alloc, report, &rpki.cms_encode()),
        "bgpsec" => writers::tell(alloc, report, &bgpsec.x509_encode()),
        _ => Err(Failure::Usage),
    }
}

/// Writes what a public key has.
fn tell_key(alloc: Global, report: Report, encoder: &str, octets: Vec<u8>) -> Result<(), Failure> {
    let key = readers::whole_key(alloc, Bytes::from_vec(octets)?)?;
    match encoder {
        "key" => writers::tell(alloc, report, &key.encode()),
        "borrowed_key" => writers::tell(alloc, report, &key.encode_ref()),
        "subject" => writers::tell(alloc, report, &key.encode_subject_name(&Digests)),
        "key_identifier" => writers::tell(alloc, report, &key.key_identifier(&Digests).encode()),
        _ => Err(Failure::Usage),
    }
}

/// Writes what was read.
fn tell_read(alloc: Global, report: Report, encoder: &str, octets: Vec<u8>) -> Result<(), Failure> {
    let source = Bytes::from_vec(octets)?;
    let keep = Shared::new(alloc, &source);
    let mut cursor = Constructed::new(&source);
    match encoder {
        "bits" => writers::tell(alloc, report, &readers::bits(keep, &mut cursor)?.encode()),
        "borrowed_bits" => {
            writers::tell(
                alloc,
                report,
                &readers::bits(keep, &mut cursor)?.encode_ref(),
            )
        }
        "name" => {
            let name = Name::take_from(keep, &mut cursor)?;
            writers::tell(alloc, report, &name.encode_ref())
        }
        "name_octets" => {
            let name = NameOctets::take_from(keep, &mut cursor)?;
            writers::tell(alloc, report, &name.encode_ref())
        }
        "extension_read" => {
            let extension = CertExtension::take_from(keep, &mut cursor)?;
            writers::tell(alloc, report, &extension.encode_ref())
        }
        "signed" => {
            let signed = SignedData::<RpkiSignatureAlgorithm>::take_from(keep, &mut cursor)?;
            writers::tell(alloc, report, &signed.encode_ref())
        }
        "extension" => {
            let captured = cursor.capture_one(keep)?;
            let extension = encode_extension(oid::CE_BASIC_CONSTRAINTS, true, &captured);
            writers::tell(alloc, report, &extension)
        }
        _ => Err(Failure::Usage),
    }
}

/// Writes a URI.
fn tell_uri(alloc: Global, report: Report, encoder: &str, octets: Vec<u8>) -> Result<(), Failure> {
    let text = Bytes::from_vec(octets)?;
    match encoder {
        "rsync_string" => writers::tell(alloc, report, &(&Rsync::from_bytes(text)?).encode()),
        "rsync_name" => writers::tell(
            alloc,
            report,
            &Rsync::from_bytes(text)?.encode_general_name(),
        ),
        "https_string" => writers::tell(alloc, report, &(&Https::from_bytes(text)?).encode()),
        "https_name" => writers::tell(
            alloc,
            report,
            &Https::from_bytes(text)?.encode_general_name(),
        ),
        _ => Err(Failure::Usage),
    }
}

/// Writes a serial number, or times: the start of 2020 and that of 2050.
fn tell_time(alloc: Global, report: Report, encoder: &str, octets: &[u8]) -> Result<(), Failure> {
    let (Some(start), Some(end)) = (
        Time::utc(2020, 1, 1, 0, 0, 0),
        Time::utc(2050, 1, 1, 0, 0, 0),
    ) else {
        return Err(Failure::Refused);
    };
    match encoder {
        "serial" => match Serial::from_slice(octets) {
            Ok(serial) => writers::tell(alloc, report, &serial.encode()),
            Err(_) => Err(Failure::Refused),
        },
        "utc_time" => writers::tell(alloc, report, &start.encode_utc_time()),
        "generalized_time" => writers::tell(alloc, report, &start.encode_generalized_time()),
        "varied_time" => writers::tell(alloc, report, &end.encode_varied()),
        "validity" => writers::tell(alloc, report, &Validity::new(start, end).encode()),
        _ => Err(Failure::Usage),
    }
}

/// Writes the values of the encoder, made of these octets, over writers that fail.
pub fn tell(alloc: Global, report: Report, encoder: &str, octets: Vec<u8>) -> Result<(), Failure> {
    match encoder {
        "null" | "boolean" | "identifier" | "octets" | "uri" | "unsigned" => {
            tell_leaf(alloc, report, encoder, &octets)
        }
        "captured"
        | "sequence"
        | "set"
        | "wrapped"
        | "pair"
        | "triple"
        | "some"
        | "none"
        | "each" => tell_composed(alloc, report, encoder, octets),
        "key" | "borrowed_key" | "subject" | "key_identifier" => {
            tell_key(alloc, report, encoder, octets)
        }
        "bits"
        | "borrowed_bits"
        | "name"
        | "name_octets"
        | "signed"
        | "extension"
        | "extension_read" => tell_read(alloc, report, encoder, octets),
        "rsync_string" | "rsync_name" | "https_string" | "https_name" => {
            tell_uri(alloc, report, encoder, octets)
        }
        "serial" | "utc_time" | "generalized_time" | "varied_time" | "validity" => {
            tell_time(alloc, report, encoder, &octets)
        }
        _ => tell_algorithm(alloc, report, encoder),
    }
}
