//! The parts of signed data, read in place (RFC 5280 4.1.1, 5.1.1).

ghost use Rattle.std.specs.Prelude.{◌≡◌, IfOk, IfErr};
ghost use Rattle.rpki_der.specs.Cursor.{left};
ghost use Rattle.rpki_x509.specs.InPlace.{GivesAll};
ghost use Rattle.rpki_x509.specs.Signed.{SpellsUsed, IsSignatureFault};
ghost use Rattle.rpki_x509.specs.SignedParts.{ArePartsBehind, AreMalformed};

use rpki::crypto::{RpkiSignatureAlgorithm, SignatureAlgorithm};
use rpki::der::{Constructed, DecodeError, Section};

/// The parts of signed data.
#[derive(Clone, Copy)]
pub struct Parts<'a> {
    /// The value that is signed.
    pub signed: Section<'a>,
    /// The algorithm.
    pub signature_algorithm: RpkiSignatureAlgorithm,
    /// The octets of the algorithm identifier.
    pub algorithm: Section<'a>,
    /// The octets of the signature.
    pub signature: Section<'a>,
}

/// A part of signed data after what is signed, of which it is said that it isn't there, or isn't as it has to be.
#[derive(Clone, Copy, Debug)]
pub enum SignedPart {
    /// The algorithm identifier.
    Algorithm,
    /// The signature, and that nothing follows it.
    Signature,
}

/// The malformed part of signed data, and why: the leftmost error, as a reader of that part returns it.
#[derive(Clone, Copy)]
pub struct SignedError {
    /// The part.
    pub part: SignedPart,
    /// What is wrong with it.
    pub error: DecodeError,
}

/// The octets of the signature that is the whole rest, and of which no bit is unused.
///
/// The errors are those of a BIT STRING; then `Trailing` if something follows it; then `Content` with the text
/// `signature has unused bits`.
fn read_signature<'a>(rest: Constructed<'a>) -> Result<&'a [u8], DecodeError>
    ensures gives { GivesAll (λ v. v.now) SpellsUsed (left rest.entry) result }
    ensures fault { IfErr result (λ e. IsSignatureFault (left rest.entry) e) }
{
    let mut after = rest;
    match after.take_bits() {
        Ok(bits) => {
            if !after.is_empty() {
                return Err(DecodeError::Trailing);
            }
            if bits.unused() > 0 {
                return Err(DecodeError::content("signature has unused bits"));
            }
            Ok(bits.octet_slice())
        }
        Err(e) => Err(e),
    }
}

/// The parts of signed data: what is signed, and what follows it, which is all of these contents.
pub fn read_parts<'a>(signed: &'a [u8], behind: Constructed<'a>) -> Result<Parts<'a>, SignedError>
    ensures signed { IfOk result (λ v. v.signed.octets.now ≡ signed.now) }
    ensures ok { IfOk result (λ v. ArePartsBehind signed.now (left behind.entry) v) }
    ensures err { IfErr result (λ q. AreMalformed (left behind.entry) q) }
{
    let octets = behind.rest();
    let mut rest = behind;
    let signature_algorithm = match RpkiSignatureAlgorithm::x509_take_from(&mut rest) {
        Ok(algorithm) => algorithm,
        Err(e) => return Err(SignedError {
            part: SignedPart::Algorithm,
            error: e,
        }),
    };
    let last = rest.rest();
    match read_signature(rest) {
        Ok(signature) => Ok(Parts {
            signed: Section {
                octets: signed,
                following: octets.len(),
            },
            signature_algorithm,
            algorithm: Section::before(octets, last),
            signature: Section {
                octets: signature,
                following: 0,
            },
        }),
        Err(e) => Err(SignedError {
            part: SignedPart::Signature,
            error: e,
        }),
    }
}
