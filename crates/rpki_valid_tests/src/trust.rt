//! What the paths of the tests are checked against, certificates and lists as hexadecimal digits, and what comes of
//! them.

use bytes::Bytes;
use rpki::der::DecodeError;
use rpki::repository::error::ValidationError;
use rpki_cert::Cert;
use rpki_crl::Crl;
use rpki_der_tests::hexadecimal::octets_of;
use rpki_objects::Strictness;
use rpki_valid::Terms;
use std::alloc::{AllocError, Global};

/// The key of this trust anchor, strictly, and this many authorities below it.
pub fn terms_of(anchor: &Cert, deepest: u32) -> Terms<'_> {
    Terms {
        key: anchor.tbs().subject_public_key_info(),
        strictness: Strictness::all(),
        deepest,
    }
}

/// The octets that hexadecimal digits write.
pub fn octets(alloc: Global, text: &str) -> Result<Bytes, AllocError> {
    Bytes::copy_from_slice(alloc, octets_of(alloc, text)?.as_slice())
}

/// The certificate that hexadecimal digits write.
pub fn cert(alloc: Global, text: &str) -> Result<Cert, DecodeError> {
    Ok(Cert::decode(alloc, octets(alloc, text)?)?)
}

/// The list that hexadecimal digits write.
pub fn list(alloc: Global, text: &str) -> Result<Crl, DecodeError> {
    Crl::decode(alloc, octets(alloc, text)?)
}

/// What came: `valid`, or the text of the error.
pub fn text_of<T: Drop>(
    alloc: Global,
    told: Result<T, ValidationError>,
) -> Result<String, AllocError> {
    match told {
        Ok(_) => format!(in alloc; "valid"),
        Err(e) => format!(in alloc; "{e}"),
    }
}
