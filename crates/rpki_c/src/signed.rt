//! Signed data.

ghost use Rattle.std.specs.Prelude.{ℕ, List, IfOk, IfSome};
ghost use Rattle.rpki_der.specs.Members.{SpellsValue};
ghost use Rattle.rpki_der.specs.Reading.{Accepts};
ghost use Rattle.rpki_c.specs.Whole.{DecodesElse};
ghost use Rattle.rpki_c.specs.Signed.{SpellsRpki, AreOtherParts, IsOtherSigned, IsAllPartsFault, IsWholeSignedFault};
ghost use Rattle.rpki_c.specs.Signed.{signed_in, AreInContents, AreInSigned, HasSigned, IsSignedRead, AreRpkiParts};

use crate::identifiers::begins_with_identifier;
use crate::span::Span;
use crate::status::OTHER_ALGORITHM;
use rpki::crypto::{RpkiSignatureAlgorithm, SignatureAlgorithm};
use rpki_der::{Constructed, DecodeError, Steps, walk_octets};
use std::alloc::Global;

/// The parts of signed data.
#[repr(C)]
#[derive(Clone, Copy)]
pub struct SignedParts<'a> {
    /// The value that is signed, with its header.
    pub data: Span<'a>,
    /// The algorithm identifier, a SEQUENCE, with its header.
    pub algorithm: Span<'a>,
    /// The octets of the signature.
    pub signature: Span<'a>,
    /// How many bits of the signature's last octet are unused.
    pub unused: u8,
    /// Whether the algorithm has parameters, a NULL.
    pub has_parameters: bool,
}

/// Signed data in place.
#[derive(Clone, Copy)]
pub(crate) struct SignedView<'a> {
    /// The value that is signed, with its header.
    pub(crate) data: &'a [u8],
    /// The algorithm identifier, with its header.
    pub(crate) algorithm: &'a [u8],
    /// Whether the algorithm has parameters.
    pub(crate) has_parameters: bool,
    /// How many bits of the signature's last octet are unused.
    pub(crate) unused: u8,
    /// The octets of the signature.
    pub(crate) signature: &'a [u8],
}

/// The parts of contents that are this value and then these octets. None where the algorithm identifier after the value
/// is another one.
///
/// The errors are those of the parts after the value; then `Trailing`.
fn read_behind<'a>(
    data: &'a [u8],
    following: &'a [u8],
) -> Result<Option<SignedView<'a>>, DecodeError>
    ensures reads { (s : List ℕ) → Accepts SpellsValue s data.now following.now
        → DecodesElse AreOtherParts signed_in AreRpkiParts IsAllPartsFault s result }
    ensures parts { (s : List ℕ) → Accepts SpellsValue s data.now following.now
        → IfOk result (λ o. IfSome o (λ x. AreInContents s x)) }
{
    let mut rest = Constructed::from_slice(following);
    let algorithm = match RpkiSignatureAlgorithm::x509_take_from(&mut rest) {
        Ok(algorithm) => algorithm,
        Err(e) => {
            if begins_with_identifier(following) {
                return Ok(None);
            }
            return Err(e);
        }
    };
    let behind = rest.rest();
    let bits = match rest.take_bits() {
        Ok(bits) => bits,
        Err(e) => return Err(e),
    };
    match rest.finish() {
        Ok(()) => Ok(Some(SignedView {
            data,
            algorithm: &following[..following.len() - behind.len()],
            has_parameters: algorithm.has_parameters(),
            unused: bits.unused(),
            signature: bits.octet_slice(),
        })),
        Err(e) => Err(e),
    }
}

/// The parts that are all of these contents. None where the algorithm identifier after the value is another one.
///
/// The errors are those of the parts; then `Trailing`. Allocation can fail only if a constructed value begins the
/// contents.
fn read_parts<'a>(alloc: Global, contents: &'a [u8]) -> Result<Option<SignedView<'a>>, DecodeError>
    ensures reads { DecodesElse AreOtherParts signed_in AreRpkiParts IsAllPartsFault contents.now result }
    ensures parts { IfOk result (λ o. IfSome o (λ x. AreInContents contents.now x)) }
{
    let size = match walk_octets(alloc, contents, &mut Steps::new()) {
        Ok(size) => size,
        Err(e) => return Err(e),
    };
    let (data, following) = contents.split_at(size);
    read_behind(data, following)
}

/// The parts of signed data by an algorithm of the RPKI, and of nothing else, as they are in the octets. None where
/// the algorithm identifier is another one.
pub(crate) fn read_signed<'a>(
    alloc: Global,
    octets: &'a [u8],
) -> Result<Option<SignedView<'a>>, DecodeError>
    ensures reads { DecodesElse IsOtherSigned signed_in SpellsRpki IsWholeSignedFault octets.now result }
    ensures parts { IfOk result (λ o. IfSome o (λ x. AreInSigned octets.now x)) }
{
    let mut cons = Constructed::from_slice(octets);
    let contents = match cons.take_sequence() {
        Ok(contents) => contents,
        Err(e) => return Err(e),
    };
    let found = match read_parts(alloc, contents.rest()) {
        Ok(Some(found)) => found,
        Ok(None) => return Ok(None),
        Err(e) => return Err(e),
    };
    match cons.finish() {
        Ok(()) => Ok(Some(found)),
        Err(e) => Err(e),
    }
}

/// Reads signed data of the RPKI (RFC 5280 4.1, RFC 7935 2), and says what its parts are.
///
/// The status is 0. It is 13 where the algorithm identifier after the value that is signed is another one, whatever
/// follows it: a SEQUENCE of an object identifier and perhaps one value, but not that of RSA with SHA-256. Else it is
/// the number of the error. `out` is unchanged where the status is not 0. Allocation can fail only if a constructed
/// value begins the contents of the SEQUENCE.
#[unsafe(no_mangle)]
pub extern "C" fn rpki_signed_data<'a>(
    alloc: Global,
    octets: &'a [u8],
    out: &mut SignedParts<'a>,
) -> u8
    ensures { IsSignedRead octets.now result out.old out.new }
{
    match read_signed(alloc, octets) {
        Ok(Some(found)) => {
            *out = SignedParts {
                data: Span::of(found.data),
                algorithm: Span::of(found.algorithm),
                signature: Span::of(found.signature),
                unused: found.unused,
                has_parameters: found.has_parameters,
            };
            0
        }
        Ok(None) => OTHER_ALGORITHM,
        Err(e) => e.number(),
    }
}
