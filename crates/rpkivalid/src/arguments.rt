//! The words of a run, from the program's arguments.

ghost use Rattle.std.specs.Prelude.{◌≡◌, drop, IfOk, IfErr, Err};
ghost use Rattle.std.specs.IoError.{error_kind};
ghost use Rattle.std.specs.Vec.Iter.{into_iter_items};
ghost use Rattle.rpkivalid.specs.Arguments.{wordless_of, wordless_text};
ghost use Rattle.rpkivalid.specs.declared.arguments.Wordless.TheVariants.{OutOfMemory};

use crate::texts::{NOT_UTF8, OUT_OF_MEMORY};
use std::alloc::Global;
use std::io::ErrorKind;
use std::{env, io};

/// Why there are no words.
#[derive(Clone, Copy, Debug)]
pub enum Wordless {
    /// One of the arguments is not UTF-8.
    Encoding,
    /// Allocation failed.
    OutOfMemory,
}

impl Wordless {
    /// What the host's error of this kind is.
    fn of(kind: ErrorKind) -> Wordless
        ensures { result ≡ wordless_of kind }
    {
        match kind {
            ErrorKind::InvalidData => Wordless::Encoding,
            _ => Wordless::OutOfMemory,
        }
    }

    /// What is said of it.
    pub fn text(self) -> &'static [u8]
        ensures { result.now ≡ wordless_text self }
    {
        match self {
            Wordless::Encoding => NOT_UTF8,
            Wordless::OutOfMemory => OUT_OF_MEMORY,
        }
    }
}

/// The words: the arguments after the first, which is the program's name.
///
/// Returns `Encoding` if the host says that one of them is not UTF-8; `OutOfMemory` if allocation fails.
pub fn words_of(alloc: Global, arguments: io::Result<env::Args>) -> Result<Vec<String>, Wordless>
    ensures words { IfOk arguments (λ all. IfOk result (λ words. words.items ≡ drop 1 (into_iter_items all))) }
    ensures memory { IfOk arguments (λ _. IfErr result (λ wordless. wordless ≡ OutOfMemory)) }
    ensures none { IfErr arguments (λ e. result ≡ Err (wordless_of (error_kind e))) }
{
    match arguments {
        Ok(mut arguments) => {
            let _name = arguments.next();
            match arguments.collect(alloc) {
                Ok(words) => Ok(words),
                Err(_) => Err(Wordless::OutOfMemory),
            }
        }
        Err(e) => Err(Wordless::of(e.kind())),
    }
}
