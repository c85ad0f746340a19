//! A run: words and input in, output and faults out.

ghost use Rattle.std.specs.Prelude.{◌≡◌, [], ◌∷◌, IfSome, IfOk, IfErr, MatchResult, map, string_bytes, Result, Ok, Err};
ghost use Rattle.rpkibasic.specs.Run.{Replies, Shows, GetReply, AreOtherWords, Seen, GetUsage};
ghost use Rattle.rpkibasic.specs.View.{answer_of};
ghost use Rattle.rpkibasic.specs.declared.command.Command.{Command as AnyCommand};

use crate::answers::{again, data};
use crate::command::Command;
use crate::extensions::ext;
use crate::fault::{Fault, USAGE, refuse};
use crate::input::read_all;
use crate::keys::key;
use crate::names::name;
use crate::uris::uri;
use rpki::der::write_whole;
use std::alloc::Global;
use std::io::{Read, Write};

/// What the command returns for the input.
fn answer<R: Read>(alloc: Global, command: Command, input: &mut R) -> Result<Vec<u8>, Fault>
    ensures { IfSome (R.remaining input.old) (λ octets. Replies command octets (answer_of result)) }
{
    let octets = read_all(alloc, input)?;
    match command {
        Command::Again => again(alloc, octets),
        Command::Data => data(alloc, octets),
        Command::Key => key(alloc, octets),
        Command::Uri => uri(alloc, octets),
        Command::Ext => ext(alloc, octets),
        Command::Name => name(alloc, octets),
    }
}

/// Writes a text to the output; the line of a fault to the faults if that fails. Returns the exit status.
fn show<W: Write, F: Write>(text: &[u8], output: &mut W, faults: &mut F) -> u8
    ensures { Shows (W.contents output.old) (W.contents output.new) (F.contents faults.old) (F.contents faults.new)
        (Ok text.now) result }
{
    match write_whole(output, text) {
        Ok(()) => 0,
        Err(_) => refuse(faults, Fault::Output),
    }
}

/// Runs the command that the words, which are the program's arguments, name, over its input, and returns its exit
/// status.
///
/// Without words the usage line goes to the output. With one word that the program knows, the input is read to its end,
/// the result is made, and only then is anything written. Other words get the usage line as a fault.
///
/// The status is 0 if the output was written, 2 for other words, and 1 for any other fault, whose line goes to the
/// faults. A line of a fault that can't be written changes no status.
pub fn run<R: Read, W: Write, F: Write>(
    alloc: Global,
    words: &[String],
    input: &mut R,
    output: &mut W,
    faults: &mut F,
) -> u8
    // A command has its result from the whole input, or the program gives up.
    ensures reply { GetReply (map string_bytes words.now) (R.remaining input.old)
        (Seen W.contents output.old output.new F.contents faults.old faults.new result) }
    // Other words get the usage line, and the input is unread.
    ensures unread { AreOtherWords (map string_bytes words.now) → input.new ≡ input.old }
    ensures usage { GetUsage (map string_bytes words.now)
        (Seen W.contents output.old output.new F.contents faults.old faults.new result) }
{
    match Command::of(words) {
        Some(command) => match answer(alloc, command, input) {
            Ok(text) => show(text.as_slice(), output, faults),
            Err(fault) => refuse(faults, fault),
        },
        None if words.is_empty() => show(USAGE, output, faults),
        None => refuse(faults, Fault::Usage),
    }
}
