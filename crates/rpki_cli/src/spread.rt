//! Words with the files in a folder in place of the folder.

ghost use Rattle.std.specs.Prelude.{◌≡◌, ◌&&◌, ◌||◌, not, bytes_eq, IfOk, IfSome, false, map, string_bytes};
ghost use Rattle.rpki_cli.specs.Spread.{is_option, or_itself, spread, spread_word};

use std::alloc::{AllocError, Global};

/// Folders, by their names.
pub trait Folders {
    ghost use Rattle.std.specs.Prelude.{◌≡◌, Option, IfOk, IfSome, map, string_bytes};
    ghost use Rattle.rpki_cli.specs.Spread.{Listed};

    // What is in folders; or nothing is said of it.
    ghost listed: { Self → Option Listed };

    /// The paths of the files in the folder whose names end so, in the order of their octets; none of what is no
    /// folder, or can't be listed.
    ///
    /// Returns `AllocError` if allocation fails.
    fn files_in(&self, alloc: Global, ending: &str, folder: &str) -> Result<Vec<String>, AllocError>
        ensures { IfSome (listed self.now) (λ listed. IfOk result (λ files.
            map string_bytes files.items ≡ listed ending.now folder.now)) };
}

/// Whether the word begins with a hyphen, and isn't only that.
fn is_option(word: &[u8]) -> bool
    ensures { result ≡ is_option word.now }
{
    word.starts_with(b"-") && word.len() > 1
}

/// Whether the word is a value of the option that is in front of it, or of its values.
fn is_value(behind: bool, word: &String) -> bool
    ensures { result ≡ (behind && not (is_option (string_bytes word.now))) }
{
    behind && !is_option(word.as_bytes())
}

/// Whether the word after this one may be a value of the option.
fn goes_on(is_value: bool, option: &str, word: &String) -> bool
    ensures { result ≡ (is_value || bytes_eq (string_bytes word.now) option.now) }
{
    is_value || word.as_bytes() == option.as_bytes()
}

/// The files in the folder of this name; without any the word itself.
fn or_itself<F: Folders>(
    alloc: Global,
    folders: &F,
    ending: &str,
    word: &str,
) -> Result<Vec<String>, AllocError>
    ensures { IfSome (F.listed folders.now) (λ listed. IfOk result (λ all.
        map string_bytes all.items ≡ or_itself (listed ending.now word.now) word.now)) }
{
    let mut files = folders.files_in(alloc, ending, word)?;
    if files.is_empty() {
        files.push(String::from_str(alloc, word)?)?;
    }
    Ok(files)
}

/// The same of a word that is a value; another itself.
fn spread_word<F: Folders>(
    alloc: Global,
    folders: &F,
    ending: &str,
    is_value: bool,
    word: &str,
) -> Result<Vec<String>, AllocError>
    ensures { IfSome (F.listed folders.now) (λ listed. IfOk result (λ all.
        map string_bytes all.items ≡ spread_word (listed ending.now) is_value word.now)) }
{
    if is_value {
        return or_itself(alloc, folders, ending, word);
    }
    let mut one = Vec::new(alloc);
    one.push(String::from_str(alloc, word)?)?;
    Ok(one)
}

/// The words; in place of each value of the option that is a folder are the files in it whose names end so, if there
/// are any. The option's values are the words after it, up to the next option.
///
/// Returns `AllocError` if allocation fails.
pub fn spread<F: Folders>(
    alloc: Global,
    folders: &F,
    ending: &str,
    option: &str,
    words: &[String],
) -> Result<Vec<String>, AllocError>
    ensures { IfSome (F.listed folders.now) (λ listed. IfOk result (λ all.
        map string_bytes all.items ≡ spread (listed ending.now) option.now false (map string_bytes words.now))) }
{
    let mut all = Vec::new(alloc);
    let mut behind = false;
    let mut rest = words;
    'words: while let Some((word, following)) = rest.split_first() {
        let value = is_value(behind, word);
        let mut own = spread_word(alloc, folders, ending, value, word.as_str())?;
        all.append(&mut own)?;
        behind = goes_on(value, option, word);
        rest = following;
    }
    Ok(all)
}
