//! Whether a name is strict, a line for each profile.

ghost use Rattle.std.specs.Prelude.{◌≡◌, MatchResult, IfOk};
ghost use Rattle.rpki.specs.Name.{SpellsNameOctets};
ghost use Rattle.rpki.specs.NameFault.{IsNameFault};
ghost use Rattle.rpkibasic.specs.Run.{SpellsOnly, IsFaultOf, UnlessMemory, Answers};
ghost use Rattle.rpkibasic.specs.NameLines.{yes_or_no, AreNameLines};
ghost use Rattle.rpkibasic.specs.View.{answer_of};
ghost use Rattle.rpkibasic.specs.declared.command.Command.TheVariants as asked;

use crate::fault::Fault;
use crate::lines::push_line;
use bytes::Bytes;
use rpki::der::{Constructed, Shared};
use rpki::repository::x509::Name;
use std::alloc::{AllocError, Global};

/// The name that the input is.
fn decoded(alloc: Global, input: Vec<u8>) -> Result<Name, Fault>
    ensures { MatchResult result (λ n. SpellsOnly SpellsNameOctets n input.items)
        (λ f. UnlessMemory f (IsFaultOf SpellsNameOctets IsNameFault ⊥ input.items f)) }
{
    let octets = Bytes::from_vec(input)?;
    let mut rest = Constructed::new(&octets);
    let name = Name::take_from(Shared::new(alloc, &octets), &mut rest)?;
    rest.finish()?;
    Ok(name)
}

/// `yes` or `no`.
fn yes_or_no(is: bool) -> &'static str
    ensures { result.now ≡ yes_or_no is }
{
    if is { "yes" } else { "no" }
}

/// The lines of a name: whether each strict inspection takes it.
fn lines_of(alloc: Global, name: &Name) -> Result<Vec<u8>, AllocError>
    ensures { IfOk result (λ lines. AreNameLines name.now lines.items) }
{
    let rpki = name.inspect_rpki(true).is_ok();
    let router = name.inspect_router(true).is_ok();
    let mut lines = Vec::new(alloc);
    push_line(&mut lines, "rpki ", yes_or_no(rpki))?;
    push_line(&mut lines, "router ", yes_or_no(router))?;
    Ok(lines)
}

/// The lines of the name that the input is.
pub fn name(alloc: Global, input: Vec<u8>) -> Result<Vec<u8>, Fault>
    ensures { Answers asked.Name input.items (answer_of result) }
{
    let name = decoded(alloc, input)?;
    let lines = lines_of(alloc, &name)?;
    Ok(lines)
}
