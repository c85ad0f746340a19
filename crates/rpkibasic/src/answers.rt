//! What each command returns.

ghost use Rattle.std.specs.Prelude.{◌≡◌, ◌≢◌, ◌<◌, ◌≤◌, ◌^◌, ◌⊎◌, length, true, MatchResult, IfSome};
ghost use Rattle.rpkibasic.specs.Run.{SpellsOnly, SpellsRpki, IsRpkiFault, IsFaultOf, UnlessMemory, Answers, IsWritten};
ghost use Rattle.rpkibasic.specs.Run.{IsUnwritten};
ghost use Rattle.rpkibasic.specs.View.{answer_of};
ghost use Rattle.rpkibasic.specs.declared.command.Command.TheVariants.{Again, Data};

use crate::fault::Fault;
use bytes::Bytes;
use rpki::crypto::RpkiSignatureAlgorithm;
use rpki::der::Values;
use rpki::repository::x509::SignedData;
use std::alloc::Global;

/// Signed data of the RPKI.
type RpkiSignedData = SignedData<RpkiSignatureAlgorithm>;

/// The signed data that the input is.
fn decoded(alloc: Global, input: Vec<u8>) -> Result<RpkiSignedData, Fault>
    ensures { MatchResult result (λ v. SpellsOnly SpellsRpki v input.items)
        (λ f. UnlessMemory f (IsFaultOf SpellsRpki IsRpkiFault ⊥ input.items f)) }
{
    let octets = Bytes::from_vec(input)?;
    let signed = SignedData::decode(alloc, octets)?;
    Ok(signed)
}

/// What is written of the signed data.
fn written(alloc: Global, signed: &RpkiSignedData) -> Result<Vec<u8>, Fault>
    ensures { MatchResult result (λ text. IsWritten signed.now text.items) (λ f. IsUnwritten signed.now f) }
{
    let encoder = signed.encode_ref();
    if !encoder.fits() {
        return Err(Fault::TooLong);
    }
    let mut text = Vec::new(alloc);
    match encoder.write_encoded(&mut text) {
        Ok(()) => Ok(text),
        Err(_) => Err(Fault::OutOfMemory),
    }
}

/// Signed data, written again.
pub fn again(alloc: Global, input: Vec<u8>) -> Result<Vec<u8>, Fault>
    ensures { Answers Again input.items (answer_of result) }
{
    let found = decoded(alloc, input)?;
    written(alloc, &found)
}

/// The slice that is signed.
pub fn data(alloc: Global, input: Vec<u8>) -> Result<Vec<u8>, Fault>
    ensures { Answers Data input.items (answer_of result) }
{
    let signed = decoded(alloc, input)?;
    let text = Vec::from_slice(alloc, signed.data().as_slice())?;
    Ok(text)
}
