//! The identifier of a public key, as a line.

ghost use Rattle.std.specs.Prelude.{◌≡◌, ◌++◌, ◌∷◌, [], IfOk, MatchResult};
ghost use Rattle.rpki.specs.PublicKey.{SpellsKey};
ghost use Rattle.rpki.specs.KeyFault.{key as public_key};
ghost use Rattle.rpki_text.specs.HexText.{hex_text};
ghost use Rattle.rpkibasic.specs.Run.{SpellsOnly, IsFaultOf, UnlessMemory, Answers};
ghost use Rattle.rpkibasic.specs.View.{answer_of};
ghost use Rattle.rpkibasic.specs.declared.command.Command.TheVariants.{Key};

use crate::fault::Fault;
use crate::provider::BenchProvider;
use bytes::Bytes;
use rpki::crypto::{KeyIdentifier, PublicKey};
use std::alloc::{AllocError, Global};

/// The public key that the input is.
fn decoded(alloc: Global, input: Vec<u8>) -> Result<PublicKey, Fault>
    ensures { MatchResult result (λ k. SpellsOnly SpellsKey k input.items)
        (λ f. UnlessMemory f (IsFaultOf SpellsKey public_key.fault ⊥ input.items f)) }
{
    let octets = Bytes::from_vec(input)?;
    let key = PublicKey::decode(alloc, octets)?;
    Ok(key)
}

/// The line of the identifier: its hexadecimal digits.
fn line_of(alloc: Global, identifier: KeyIdentifier) -> Result<Vec<u8>, AllocError>
    ensures { IfOk result (λ line. line.items ≡ hex_text identifier ++ 10 ∷ []) }
{
    let mut line = Vec::from_slice(alloc, &identifier.into_hex())?;
    line.push(b'\n')?;
    Ok(line)
}

/// The line of the identifier of the public key that the input is.
pub fn key(alloc: Global, input: Vec<u8>) -> Result<Vec<u8>, Fault>
    ensures { Answers Key input.items (answer_of result) }
{
    let key = decoded(alloc, input)?;
    let provider = BenchProvider::new(Vec::new(alloc));
    let line = line_of(alloc, key.key_identifier(&provider))?;
    Ok(line)
}
