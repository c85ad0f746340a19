//! What a call makes.

use crate::refusal::Refusal;
use bytes::Bytes;
use rpki::crypto::{PublicKey, RpkiSignature, RpkiSignatureAlgorithm};
use rpki::der::{BitString, Captured, HeaderEntry};
use rpki::repository::x509::{CertExtension, Name, SignedData};
use rpki::uri::{Https, Rsync};

/// Signed data of the RPKI.
pub type RpkiSignedData = SignedData<RpkiSignatureAlgorithm>;

/// What a call makes.
#[derive(Drop)]
pub enum Made {
    /// The call returns None.
    Nothing,
    /// The call succeeded, and makes nothing.
    Done,
    Octets(Bytes),
    Data(Vec<u8>),
    Text(String),
    Rsync(Rsync),
    Https(Https),
    Captured(Captured),
    /// How many octets a value takes.
    Size(usize),
    /// The same, and the index of the value.
    Index(usize, Vec<HeaderEntry>),
    Bits(BitString),
    Key(PublicKey),
    Name(Name),
    Extension(CertExtension),
    Signed(RpkiSignedData),
    Signature(RpkiSignature),
}

/// What a call makes, or why it makes nothing.
pub type Outcome = Result<Made, Refusal>;
