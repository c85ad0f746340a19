//! The parts of a URI, a line each.

ghost use Rattle.std.specs.Prelude.{◌≡◌, MatchResult, IfOk, None};
ghost use Rattle.rpkibasic.specs.Run.{Answers, HasLines, HasNoLines};
ghost use Rattle.rpkibasic.specs.View.{answer_of};
ghost use Rattle.rpkibasic.specs.UriLines.{without_last_line_feed, https_lines, rsync_lines};
ghost use Rattle.rpkibasic.specs.declared.command.Command.TheVariants.{Uri};
ghost use Rattle.rpki_text.specs.HttpsText.{https_refusal};
ghost use Rattle.rpki_text.specs.RsyncText.{rsync_refusal};

use crate::fault::Fault;
use crate::lines::push_line;
use bytes::Bytes;
use rpki::uri::{Https, Rsync, starts_with_ignore_case};
use std::alloc::{AllocError, Global};

/// Drops one line feed at the end of the text.
fn drop_last_line_feed(text: &mut Vec<u8>)
    ensures { text.new.items ≡ without_last_line_feed text.old.items }
{
    if let [.., b'\n'] = text.as_slice() {
        text.pop();
    }
}

/// The lines of an https URI.
fn lines_of_https(alloc: Global, uri: &Https) -> Result<Vec<u8>, AllocError>
    ensures { IfOk result (λ lines. lines.items ≡ https_lines uri.now) }
{
    let authority = uri.canonical_authority(alloc)?;
    let mut lines = Vec::new(alloc);
    push_line(&mut lines, "scheme ", uri.scheme().as_str())?;
    push_line(&mut lines, "authority ", authority.as_str())?;
    push_line(&mut lines, "path ", uri.path())?;
    Ok(lines)
}

/// The lines of an rsync URI.
fn lines_of_rsync(alloc: Global, uri: &Rsync) -> Result<Vec<u8>, AllocError>
    ensures { IfOk result (λ lines. lines.items ≡ rsync_lines uri.now) }
{
    let authority = uri.canonical_authority(alloc)?;
    let mut lines = Vec::new(alloc);
    push_line(&mut lines, "scheme ", "rsync")?;
    push_line(&mut lines, "authority ", authority.as_str())?;
    push_line(&mut lines, "module ", uri.module_name())?;
    push_line(&mut lines, "path ", uri.path())?;
    Ok(lines)
}

/// The lines of the https URI that the text is.
fn https_lines(alloc: Global, text: Bytes) -> Result<Vec<u8>, Fault>
    ensures { MatchResult result (λ lines. HasLines https_refusal https_lines text lines.items)
        (λ f. HasNoLines https_refusal text f) }
{
    let uri = Https::from_bytes(text)?;
    let lines = lines_of_https(alloc, &uri)?;
    Ok(lines)
}

/// The lines of the rsync URI that the text is.
fn rsync_lines(alloc: Global, text: Bytes) -> Result<Vec<u8>, Fault>
    ensures { MatchResult result (λ lines. HasLines rsync_refusal rsync_lines text lines.items)
        (λ f. HasNoLines rsync_refusal text f) }
{
    let uri = Rsync::from_bytes(text)?;
    let lines = lines_of_rsync(alloc, &uri)?;
    Ok(lines)
}

/// The lines of the URI that the input is, without one line feed at its end: an https URI where the text begins with
/// that scheme, ignoring case, else an rsync URI.
pub fn uri(alloc: Global, input: Vec<u8>) -> Result<Vec<u8>, Fault>
    ensures { Answers Uri input.items (answer_of result) }
{
    let mut text = input;
    drop_last_line_feed(&mut text);
    let octets = Bytes::from_vec(text)?;
    if starts_with_ignore_case(octets.as_slice(), b"https://") {
        https_lines(alloc, octets)
    } else {
        rsync_lines(alloc, octets)
    }
}
