//! The lines of a text.

ghost use Rattle.std.specs.Prelude.{◌≡◌, ◌≤◌, ◌+◌, IfOk, map, length};
ghost use Rattle.std.specs.List.{prefix_len};
ghost use Rattle.rpki_locator.specs.Locator.{without_return, lines_of, is_comment, is_filled};
ghost use Rattle.rpki_locator.specs.Sections.{AreSections};

use std::alloc::{AllocError, Global};

/// The line without the carriage return at its end, which belongs to its line break.
fn without_return(line: &[u8]) -> &[u8]
    ensures { result.now ≡ without_return line.entry.now }
{
    if line.ends_with(b"\r") {
        return &line[..line.len() - 1];
    }
    line
}

/// The lines of the text, each without its line break: a line feed, and a carriage return before it.
///
/// Returns `AllocError` if allocation fails.
pub(crate) fn lines_of(alloc: Global, text: &[u8]) -> Result<Vec<&[u8]>, AllocError>
    ensures { IfOk result (λ v. map (λ line. line.now) v.items ≡ lines_of text.entry.now) }
{
    text.split(|octet| *octet == b'\n')
        .map(without_return)
        .collect(alloc)
}

/// How many lines in front are comments.
fn count_comments(lines: &[&[u8]]) -> usize
    ensures count { result ≡ prefix_len is_comment (map (λ line. line.now) lines.now) }
    ensures most { result ≤ length lines.now }
{
    lines
        .iter()
        .take_while(|line| line.starts_with(b"#"))
        .count()
}

/// How many lines in front aren't empty.
fn count_filled(lines: &[&[u8]]) -> usize
    ensures count { result ≡ prefix_len is_filled (map (λ line. line.now) lines.now) }
    ensures most { result ≤ length lines.now }
{
    lines.iter().take_while(|line| !line.is_empty()).count()
}

/// The lines of a locator: how many comments there are, the lines after them that aren't empty, and those that follow.
#[derive(Clone, Copy)]
pub(crate) struct Sections<'a> {
    /// How many lines are comments.
    pub(crate) comments: usize,
    /// The lines of the URIs.
    pub(crate) uris: &'a [&'a [u8]],
    /// The lines that follow: the empty one, and those of the key.
    pub(crate) rest: &'a [&'a [u8]],
}

/// The sections of these lines.
pub(crate) fn sections_of<'a>(lines: &'a [&'a [u8]]) -> Sections<'a>
    ensures sections { AreSections (map (λ line. line.now) lines.entry.now) result }
    ensures sizes { result.comments + length result.uris.now + length result.rest.now ≡ length lines.entry.now }
{
    let comments = count_comments(lines);
    let (_, named) = lines.split_at(comments);
    let (uris, rest) = named.split_at(count_filled(named));
    Sections {
        comments,
        uris,
        rest,
    }
}
