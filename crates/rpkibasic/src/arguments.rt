//! The words of a run, from the program's arguments.

ghost use Rattle.std.specs.Prelude.{◌≡◌, ◌≢◌, drop, IfOk, IfErr, IsErrOf, MatchResult};
ghost use Rattle.std.specs.IoError.{error_kind};
ghost use Rattle.std.specs.Vec.Iter.{into_iter_items};

use crate::fault::Fault;
use std::alloc::Global;
use std::io::ErrorKind;
use std::{env, io};

/// The words: the arguments after the first, which is the program's name.
///
/// Returns `OutOfMemory` if allocation fails; `Usage` if the arguments are missing for another reason: one is not
/// UTF-8, and so no word that the program knows.
pub fn words_of(alloc: Global, arguments: io::Result<env::Args>) -> Result<Vec<String>, Fault>
    ensures words { IfOk arguments (λ all. MatchResult result
        (λ words. words.items ≡ drop 1 (into_iter_items all)) (λ fault. fault ≡ Fault.OutOfMemory)) }
    ensures memory { IfErr arguments (λ e.
        error_kind e ≡ ErrorKind.OutOfMemory → IsErrOf result Fault.OutOfMemory) }
    ensures other { IfErr arguments (λ e.
        error_kind e ≢ ErrorKind.OutOfMemory → IsErrOf result Fault.Usage) }
{
    match arguments {
        Ok(mut arguments) => {
            let _name = arguments.next();
            match arguments.collect(alloc) {
                Ok(words) => Ok(words),
                Err(_) => Err(Fault::OutOfMemory),
            }
        }
        Err(e) if e.kind() == ErrorKind::OutOfMemory => Err(Fault::OutOfMemory),
        Err(_) => Err(Fault::Usage),
    }
}
