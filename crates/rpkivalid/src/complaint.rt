//! What is wrong with words that ask for nothing.

ghost use Rattle.std.specs.Prelude.{◌≡◌, [], bytes_eq, string_bytes, drop, false, option_map, IfOk};
ghost use Rattle.std.specs.List.{list_any};
ghost use Rattle.rpkivalid.specs.Complaint.{said, is_end, is_of, flag_in, file_option_in, value_option_in, valued_in};
ghost use Rattle.rpkivalid.specs.Complaint.{option_in, takes_value, names, is_among, is_option, in_files_after};
ghost use Rattle.rpkivalid.specs.Complaint.{awaited, is_twice, takes_files, wrong_given, wrong_value, wrong_named};
ghost use Rattle.rpkivalid.specs.Complaint.{wrong_option, wrong_plain, wrong_next, wrong_at_end, wrong_behind};
ghost use Rattle.rpkivalid.specs.ComplaintView.{text_of, texts_of, complaint_of};

use crate::request::form_named;
use crate::texts::USAGE;
use std::alloc::{AllocError, Global};

/// What is wrong.
#[derive(Clone, Copy)]
struct Wrong<'a> {
    /// What is said in front of the word.
    front: &'static [u8],
    /// The malformed word, or none.
    word: &'a [u8],
    /// What is said after it.
    behind: &'static [u8],
}

/// What is said of a word.
fn said<'a>(front: &'static [u8], word: &'a [u8], behind: &'static [u8]) -> Wrong<'a>
    ensures { text_of result ≡ said front.now word.now behind.now }
{
    Wrong {
        front,
        word,
        behind,
    }
}

/// What is after so many octets.
fn after(text: &[u8], count: usize) -> &[u8]
    ensures { result.now ≡ drop count text.now }
{
    if count <= text.len() {
        &text[count..]
    } else {
        &[]
    }
}

/// Whether the two texts are the same.
fn is(word: &[u8], text: &[u8]) -> bool
    ensures { result ≡ bytes_eq word.now text.now }
{
    word == text
}

/// Whether nothing remains of a word, or the sign of equality and a value.
fn is_end(rest: &[u8]) -> bool
    ensures { result ≡ is_end rest.now }
{
    match rest {
        [] => true,
        [octet, ..] => *octet == b'=',
    }
}

/// Whether the word is this option, perhaps with a value after the sign of equality.
fn is_of(option: &[u8], word: &[u8]) -> bool
    ensures { result ≡ is_of option.now word.now }
{
    word.starts_with(option) && is_end(after(word, option.len()))
}

/// The flag that the word names.
fn flag_in(word: &[u8]) -> Option<&'static [u8]>
    ensures { option_map (λ option. option.now) result ≡ flag_in word.now }
{
    if is(word, b"-h") || is_of(b"--help", word) {
        Some(b"--help")
    } else if is_of(b"--version", word) {
        Some(b"--version")
    } else if is_of(b"--strict", word) {
        Some(b"--strict")
    } else if is_of(b"--quiet", word) {
        Some(b"--quiet")
    } else {
        None
    }
}

/// The option with a file or a folder that the word names.
fn file_option_in(word: &[u8]) -> Option<&'static [u8]>
    ensures { option_map (λ option. option.now) result ≡ file_option_in word.now }
{
    if is_of(b"--tal", word) {
        Some(b"--tal")
    } else if is_of(b"--cache", word) {
        Some(b"--cache")
    } else if is_of(b"--output", word) {
        Some(b"--output")
    } else if is_of(b"--log", word) {
        Some(b"--log")
    } else if is_of(b"--exceptions", word) {
        Some(b"--exceptions")
    } else if is_of(b"--metrics", word) {
        Some(b"--metrics")
    } else if is_of(b"--compare", word) {
        Some(b"--compare")
    } else {
        None
    }
}

/// The option with another value that the word names.
fn value_option_in(word: &[u8]) -> Option<&'static [u8]>
    ensures { option_map (λ option. option.now) result ≡ value_option_in word.now }
{
    if is_of(b"--at", word) {
        Some(b"--at")
    } else if is_of(b"--form", word) {
        Some(b"--form")
    } else if is_of(b"--depth", word) {
        Some(b"--depth")
    } else if is_of(b"--explain", word) {
        Some(b"--explain")
    } else if is_of(b"--as", word) {
        Some(b"--as")
    } else if is_of(b"--least", word) {
        Some(b"--least")
    } else {
        None
    }
}

/// The option with a value that the word names.
fn valued_in(word: &[u8]) -> Option<&'static [u8]>
    ensures { option_map (λ option. option.now) result ≡ valued_in word.now }
{
    match file_option_in(word) {
        Some(option) => Some(option),
        None => value_option_in(word),
    }
}

/// The option that the word names.
fn option_in(word: &[u8]) -> Option<&'static [u8]>
    ensures { option_map (λ option. option.now) result ≡ option_in word.now }
{
    match flag_in(word) {
        Some(flag) => Some(flag),
        None => valued_in(word),
    }
}

/// Whether the word is an option, alone, that takes a value.
fn takes_value(option: &[u8]) -> bool
    ensures { result ≡ takes_value option.now }
{
    match valued_in(option) {
        Some(named) => is(named, option),
        None => false,
    }
}

/// Whether the word names the option.
fn names(option: &[u8], word: &String) -> bool
    ensures { result ≡ names option.now (string_bytes word.now) }
{
    match option_in(word.as_bytes()) {
        Some(named) => is(named, option),
        None => is(b"", option),
    }
}

/// Whether one of the words names the option.
fn one_names(words: &[String], option: &[u8]) -> bool
    ensures { result ≡ list_any (λ word. names option.now (string_bytes word)) words.now }
{
    words.iter().any(|word| names(option, word))
}

/// Whether the option is among the words.
fn is_among(words: &[String], option: &[u8]) -> bool
    ensures { result ≡ is_among (texts_of words.now) option.now }
{
    one_names(words, option)
}

/// Whether the word begins with a hyphen, and isn't only that.
fn is_option(word: &[u8]) -> bool
    ensures { result ≡ is_option word.now }
{
    word.starts_with(b"-") && word.len() > 1
}

/// The last of the words, where it is an option that takes the next word as its value.
fn awaited(words: &[String]) -> Option<&[u8]>
    ensures { option_map (λ word. word.now) result ≡ awaited (texts_of words.entry.now) }
{
    match words.last() {
        Some(word) => {
            let octets = word.as_bytes();
            if takes_value(octets) {
                Some(octets)
            } else {
                None
            }
        }
        None => None,
    }
}

/// What is wrong with a value of the option.
fn wrong_value<'a>(option: &[u8], value: &'a [u8]) -> Option<Wrong<'a>>
    ensures { option_map text_of result ≡ wrong_value option.now value.entry.now }
{
    if is(option, b"--form") && form_named(value).is_none() {
        let front =
            b"--form takes csv, json, stayrtr, rpki-client, openbgpd, openbgpd-origins or bird, not ";
        return Some(said(front, value, b""));
    }
    None
}

/// Whether the option may be given several times, and with several files.
fn takes_files(option: &[u8]) -> bool
    ensures { result ≡ takes_files option.now }
{
    is(option, b"--tal") || is(option, b"--exceptions")
}

/// Whether the option is among the words, and may be given once alone.
fn is_twice(before: &[String], option: &[u8]) -> bool
    ensures { result ≡ is_twice (texts_of before.now) option.now }
{
    is_among(before, option) && !takes_files(option)
}

/// What is wrong with a word that is this option, and a value after the sign of equality.
#[tactic(auto, unfolding(crate::specs::Complaint::wrong_given))]
fn wrong_given<'a>(option: &'a [u8], word: &'a [u8]) -> Option<Wrong<'a>>
    ensures { option_map text_of result ≡ wrong_given option.entry.now word.entry.now }
{
    if takes_value(option) {
        return wrong_value(option, after(word, option.len() + 1));
    }
    Some(said(b"", option, b" takes no value"))
}

/// What is wrong with a word that names the option, after these words.
fn wrong_named<'a>(before: &[String], option: &'a [u8], word: &'a [u8]) -> Option<Wrong<'a>>
    ensures { option_map text_of result ≡ wrong_named (texts_of before.now) option.entry.now word.entry.now }
{
    if is_twice(before, option) {
        return Some(said(b"", option, b" is given twice"));
    }
    if option.len() >= word.len() {
        return None;
    }
    wrong_given(option, word)
}

/// What is wrong with a word that is an option, after these words.
fn wrong_option<'a>(before: &[String], word: &'a [u8]) -> Option<Wrong<'a>>
    ensures { option_map text_of result ≡ wrong_option (texts_of before.now) word.entry.now (option_in word.entry.now) }
{
    match option_in(word) {
        Some(option) => wrong_named(before, option, word),
        None => Some(said(b"unknown option: ", word, b"")),
    }
}

/// What is wrong with a word that is no option and no first value, where this is whether files are being named.
fn wrong_plain(in_files: bool, word: &[u8]) -> Option<Wrong<'_>>
    ensures { option_map text_of result ≡ wrong_plain in_files word.entry.now }
{
    if in_files {
        None
    } else {
        Some(said(b"not an option: ", word, b""))
    }
}

/// What is wrong with a word after these words.
fn wrong_next<'a>(before: &'a [String], in_files: bool, word: &'a [u8]) -> Option<Wrong<'a>>
    ensures { option_map text_of result
        ≡ wrong_next (texts_of before.entry.now) in_files word.entry.now (awaited (texts_of before.entry.now)) }
{
    match awaited(before) {
        Some(option) => {
            if is_option(word) {
                Some(said(b"", option, b" takes a value"))
            } else {
                wrong_value(option, word)
            }
        }
        None => {
            if is_option(word) {
                wrong_option(before, word)
            } else {
                wrong_plain(in_files, word)
            }
        }
    }
}

/// Whether files are being named after the word, where this is whether they were before it.
fn in_files_after(in_files: bool, word: &[u8]) -> bool
    ensures { result ≡ in_files_after in_files word.now }
{
    if is_option(word) {
        takes_files(word)
    } else {
        in_files
    }
}

/// What is wrong with these words alone, of which none is wrong.
fn wrong_at_end(words: &[String]) -> Wrong<'_>
    ensures { text_of result ≡ wrong_at_end (texts_of words.entry.now) }
{
    match awaited(words) {
        Some(option) => said(b"", option, b" takes a value"),
        None => {
            if is_among(words, b"--tal") {
                said(b"no --cache", b"", b"")
            } else {
                said(b"no --tal", b"", b"")
            }
        }
    }
}

/// What is wrong first with the words, from the left.
fn wrong_in(words: &[String]) -> Wrong<'_>
    ensures { text_of result ≡ wrong_behind [] false (texts_of words.entry.now) }
{
    let mut in_files = false;
    for at in 0..words.len() {
        let (before, _) = words.split_at(at);
        let word = words[at].as_bytes();
        if let Some(wrong) = wrong_next(before, in_files, word) {
            return wrong;
        }
        in_files = in_files_after(in_files, word);
    }
    wrong_at_end(words)
}

/// What is wrong with words that ask for nothing, and how the program is used.
///
/// Returns `AllocError` if allocation fails.
pub fn complaint(alloc: Global, words: &[String]) -> Result<Vec<u8>, AllocError>
    ensures { IfOk result (λ text. text.items ≡ complaint_of words.now) }
{
    let wrong = wrong_in(words);
    let mut text = Vec::from_slice(alloc, b"rpkivalid: ")?;
    text.extend_from_slice(wrong.front)?;
    text.extend_from_slice(wrong.word)?;
    text.extend_from_slice(wrong.behind)?;
    text.push(b'\n')?;
    text.extend_from_slice(USAGE)?;
    Ok(text)
}
