//! What is wrong with words that ask for nothing.

ghost use Rattle.std.specs.Prelude.{◌≡◌, [], bytes_eq, string_bytes, option_map, IfOk};
ghost use Rattle.std.specs.List.{list_any};
ghost use Rattle.rpkicert.specs.Complaint.{said, is_end, is_of, option_in, takes_value, names, is_among, is_option};
ghost use Rattle.rpkicert.specs.Complaint.{awaited, wrong_value, wrong_named, wrong_option, wrong_next, wrong_last};
ghost use Rattle.rpkicert.specs.Complaint.{wrong_at_end, wrong_behind};
ghost use Rattle.rpkicert.specs.ComplaintView.{text_of, texts_of, complaint_of};

use crate::choice::choice_of;
use crate::output::push_visible;
use crate::texts::USAGE;
use rpki_fields::after;
use std::alloc::{AllocError, Global};

/// What is wrong.
#[derive(Clone, Copy)]
struct Wrong<'a> {
    /// What is said in front of the word.
    front: &'static [u8],
    /// The malformed word, or none.
    word: &'a [u8],
    /// What is said after it.
    behind: &'static [u8],
}

/// What is said of a word.
fn said<'a>(front: &'static [u8], word: &'a [u8], behind: &'static [u8]) -> Wrong<'a>
    ensures { text_of result ≡ said front.now word.now behind.now }
{
    Wrong {
        front,
        word,
        behind,
    }
}

/// Whether the two texts are the same.
fn is(word: &[u8], text: &[u8]) -> bool
    ensures { result ≡ bytes_eq word.now text.now }
{
    word == text
}

/// Whether nothing remains of a word, or the sign of equality and a value.
fn is_end(rest: &[u8]) -> bool
    ensures { result ≡ is_end rest.now }
{
    match rest {
        [] => true,
        [octet, ..] => *octet == b'=',
    }
}

/// Whether the word is this option, perhaps with a value after the sign of equality.
fn is_of(option: &[u8], word: &[u8]) -> bool
    ensures { result ≡ is_of option.now word.now }
{
    word.starts_with(option) && is_end(after(word, option.len()))
}

/// The option that the word names.
fn option_in(word: &[u8]) -> Option<&'static [u8]>
    ensures { option_map (λ option. option.now) result ≡ option_in word.now }
{
    if is(word, b"-h") || is_of(b"--help", word) {
        Some(b"--help")
    } else if is_of(b"--version", word) {
        Some(b"--version")
    } else if is_of(b"--json", word) {
        Some(b"--json")
    } else if is_of(b"--check", word) {
        Some(b"--check")
    } else if is_of(b"--lax", word) {
        Some(b"--lax")
    } else if is(word, b"-r") || is_of(b"--recursive", word) {
        Some(b"--recursive")
    } else if is_of(b"--profile", word) {
        Some(b"--profile")
    } else if is_of(b"--issuer", word) {
        Some(b"--issuer")
    } else if is_of(b"--crl", word) {
        Some(b"--crl")
    } else if is_of(b"--at", word) {
        Some(b"--at")
    } else {
        None
    }
}

/// Whether the option takes a value.
fn takes_value(option: &[u8]) -> bool
    ensures { result ≡ takes_value option.now }
{
    is(option, b"--profile")
        || is(option, b"--issuer")
        || is(option, b"--crl")
        || is(option, b"--at")
}

/// Whether the word names the option.
fn names(option: &[u8], word: &String) -> bool
    ensures { result ≡ names option.now (string_bytes word.now) }
{
    match option_in(word.as_bytes()) {
        Some(named) => is(named, option),
        None => is(b"", option),
    }
}

/// Whether one of the words names the option.
fn one_names(words: &[String], option: &[u8]) -> bool
    ensures { result ≡ list_any (λ word. names option.now (string_bytes word)) words.now }
{
    words.iter().any(|word| names(option, word))
}

/// Whether the option is among the words.
fn is_among(words: &[String], option: &[u8]) -> bool
    ensures { result ≡ is_among (texts_of words.now) option.now }
{
    one_names(words, option)
}

/// Whether the word begins with a hyphen, and isn't only that.
fn is_option(word: &[u8]) -> bool
    ensures { result ≡ is_option word.now }
{
    word.starts_with(b"-") && word.len() > 1
}

/// The last of the words, where it is an option that takes the next word as its value.
fn awaited(words: &[String]) -> Option<&[u8]>
    ensures { option_map (λ word. word.now) result ≡ awaited (texts_of words.entry.now) }
{
    match words.last() {
        Some(word) => {
            let octets = word.as_bytes();
            if takes_value(octets) {
                Some(octets)
            } else {
                None
            }
        }
        None => None,
    }
}

/// What is wrong with a value of the option.
fn wrong_value<'a>(option: &[u8], value: &'a [u8]) -> Option<Wrong<'a>>
    ensures { option_map text_of result ≡ wrong_value option.now value.entry.now }
{
    if is(option, b"--profile") && choice_of(value).is_none() {
        let front = b"--profile takes auto, ta, ca, ee, detached or router, not ";
        return Some(said(front, value, b""));
    }
    None
}

/// What is wrong with a word that names the option, after these words.
fn wrong_named<'a>(before: &[String], option: &'a [u8], word: &'a [u8]) -> Option<Wrong<'a>>
    ensures { option_map text_of result ≡ wrong_named (texts_of before.now) option.entry.now word.entry.now }
{
    if is_among(before, option) {
        return Some(said(b"", option, b" is given twice"));
    }
    if option.len() >= word.len() {
        return None;
    }
    if takes_value(option) {
        return wrong_value(option, after(word, option.len() + 1));
    }
    Some(said(b"", option, b" takes no value"))
}

/// What is wrong with a word that is an option, after these words.
fn wrong_option<'a>(before: &[String], word: &'a [u8]) -> Option<Wrong<'a>>
    ensures { option_map text_of result ≡ wrong_option (texts_of before.now) word.entry.now (option_in word.entry.now) }
{
    match option_in(word) {
        Some(option) => wrong_named(before, option, word),
        None => Some(said(b"unknown option: ", word, b"")),
    }
}

/// What is wrong with a word after these words.
fn wrong_next<'a>(before: &'a [String], word: &'a [u8]) -> Option<Wrong<'a>>
    ensures { option_map text_of result
        ≡ wrong_next (texts_of before.entry.now) word.entry.now (awaited (texts_of before.entry.now)) }
{
    match awaited(before) {
        Some(option) => {
            if is_option(word) {
                Some(said(b"", option, b" takes a value"))
            } else {
                wrong_value(option, word)
            }
        }
        None => {
            if is_option(word) {
                wrong_option(before, word)
            } else {
                None
            }
        }
    }
}

/// What is wrong with these words alone, of which none is wrong.
fn wrong_at_end(words: &[String]) -> Wrong<'_>
    ensures { text_of result ≡ wrong_at_end (texts_of words.entry.now) }
{
    match awaited(words) {
        Some(option) => said(b"", option, b" takes a value"),
        None => {
            let profiled = is_among(words, b"--check") || is_among(words, b"--profile");
            if is_among(words, b"--lax") && !profiled {
                said(b"--lax is for --check and --profile", b"", b"")
            } else if is_among(words, b"--crl") && !is_among(words, b"--issuer") {
                said(b"--crl is for --issuer", b"", b"")
            } else {
                said(b"no file", b"", b"")
            }
        }
    }
}

/// What is wrong first with the words, from the left.
fn wrong_in(words: &[String]) -> Wrong<'_>
    ensures { text_of result ≡ wrong_behind [] (texts_of words.entry.now) }
{
    for at in 0..words.len() {
        let (before, _) = words.split_at(at);
        let word = words[at].as_bytes();
        if is(word, b"--") {
            return wrong_at_end(before);
        }
        if let Some(wrong) = wrong_next(before, word) {
            return wrong;
        }
    }
    wrong_at_end(words)
}

/// What is wrong with words that ask for nothing, and how the program is used.
///
/// Returns `AllocError` if allocation fails.
pub fn complaint(alloc: Global, words: &[String]) -> Result<Vec<u8>, AllocError>
    ensures { IfOk result (λ text. text.items ≡ complaint_of words.now) }
{
    let wrong = wrong_in(words);
    let mut text = Vec::from_slice(alloc, b"rpkicert: ")?;
    text.extend_from_slice(wrong.front)?;
    push_visible(&mut text, wrong.word)?;
    text.extend_from_slice(wrong.behind)?;
    text.push(b'\n')?;
    text.extend_from_slice(USAGE)?;
    Ok(text)
}
