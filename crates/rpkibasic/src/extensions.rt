//! Extensions, in sequence.

ghost use Rattle.std.specs.Prelude.{◌≡◌, MatchResult, IfOk};
ghost use Rattle.rpkibasic.specs.Run.{Answers, SpellsOnly, SpellsExtensions, written_extensions, UnlessMemory};
ghost use Rattle.rpkibasic.specs.Run.{IsExtensionFault};
ghost use Rattle.rpkibasic.specs.View.{answer_of};
ghost use Rattle.rpkibasic.specs.declared.command.Command.TheVariants.{Ext};

use crate::fault::Fault;
use bytes::Bytes;
use rpki::der::{Constructed, Shared, Values};
use rpki::repository::x509::CertExtension;
use std::alloc::{AllocError, Global};

/// The extensions that the input is, in sequence to its end.
fn extensions(alloc: Global, input: Vec<u8>) -> Result<Vec<CertExtension>, Fault>
    ensures { MatchResult result (λ all. SpellsOnly SpellsExtensions all.items input.items)
        (λ f. UnlessMemory f (IsExtensionFault input.items f)) }
{
    let octets = Bytes::from_vec(input)?;
    let keep = Shared::new(alloc, &octets);
    let mut rest = Constructed::new(&octets);
    let mut all = Vec::new(alloc);
    'extensions: while !rest.is_empty() {
        let extension = CertExtension::take_from(keep, &mut rest)?;
        all.push(extension)?;
    }
    Ok(all)
}

/// What is written of the extensions, in order.
fn written(alloc: Global, extensions: &[CertExtension]) -> Result<Vec<u8>, AllocError>
    ensures { IfOk result (λ text. text.items ≡ written_extensions extensions.now) }
{
    let mut text = Vec::new(alloc);
    'extensions: for extension in extensions {
        match extension.encode_ref().write_encoded(&mut text) {
            Ok(()) => {}
            Err(_) => return Err(AllocError),
        }
    }
    Ok(text)
}

/// The extensions that the input is, written again, once all of them are read.
pub fn ext(alloc: Global, input: Vec<u8>) -> Result<Vec<u8>, Fault>
    ensures { Answers Ext input.items (answer_of result) }
{
    let all = extensions(alloc, input)?;
    let text = written(alloc, all.as_slice())?;
    Ok(text)
}
