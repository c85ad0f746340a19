//! Lines of a word and a value.

ghost use Rattle.std.specs.Prelude.{◌≡◌, ◌++◌, OnOk};
ghost use Rattle.rpkibasic.specs.UriLines.{line_of};

use std::alloc::AllocError;

/// Adds a line: the word, which ends with a space, and the value.
///
/// Returns `AllocError` if allocation fails.
pub fn push_line(lines: &mut Vec<u8>, word: &str, value: &str) -> Result<(), AllocError>
    ensures { OnOk result (lines.new.items ≡ lines.old.items ++ line_of word.now value.now) }
{
    lines.extend_from_slice(word.as_bytes())?;
    lines.extend_from_slice(value.as_bytes())?;
    lines.push(b'\n')?;
    Ok(())
}
