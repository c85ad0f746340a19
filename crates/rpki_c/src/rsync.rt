//! Rsync URIs.

ghost use Rattle.std.specs.Prelude.{◌≡◌, ◌+◌};
ghost use Rattle.rpki_text.specs.ErrorText.{error_number};
ghost use Rattle.rpki_text.specs.Views.{rsync_text};
ghost use Rattle.rpki_c.specs.Status.{second, uri};
ghost use Rattle.rpki_c.specs.Uri.{HasRsyncParts, IsRsyncParsed, IsJoined, IsRelative, IsParent};

use crate::place::Place;
use crate::status::{NO_ANSWER, SECOND, TOO_SMALL, URI};
use rpki_text::uri::{Error, RsyncView};

/// Where the parts of an rsync URI are.
#[repr(C)]
#[derive(Clone, Copy)]
pub struct RsyncParts {
    /// The authority.
    pub authority: Place,
    /// The name of the module.
    pub module_name: Place,
    /// The path.
    pub path: Place,
}

fn parts_of(uri: &RsyncView<'_>) -> RsyncParts
    ensures { HasRsyncParts (rsync_text uri.now) result }
{
    RsyncParts {
        authority: Place::of_range(uri.authority_range()),
        module_name: Place::of_range(uri.module_name_range()),
        path: Place::of_range(uri.path_range()),
    }
}

/// Reads an rsync URI, and says where its parts are. Allocates nothing.
///
/// The status is 0; else it is the number of the first error of the text, and nothing is written.
#[unsafe(no_mangle)]
pub extern "C" fn rpki_rsync_parse(text: &[u8], out: &mut RsyncParts) -> u8
    ensures { IsRsyncParsed text.now result out.old out.new }
{
    match RsyncView::from_slice(text) {
        Ok(uri) => {
            *out = parts_of(&uri);
            0
        }
        Err(e) => uri_fault(e),
    }
}

/// Says where in the text of `uri` the path is that leads from `base` to it. Allocates nothing.
///
/// The status is 0; `NO_ANSWER` where none leads there; else the number of the first error of `uri`, or that of `base`
/// and `SECOND` where `uri` has none. Unless it is 0, nothing is written.
#[unsafe(no_mangle)]
pub extern "C" fn rpki_rsync_relative_to(uri: &[u8], base: &[u8], out: &mut Place) -> u8
    ensures { IsRelative uri.now base.now result out.old out.new }
{
    let target = match RsyncView::from_slice(uri) {
        Ok(view) => view,
        Err(e) => return uri_fault(e),
    };
    let origin = match RsyncView::from_slice(base) {
        Ok(view) => view,
        Err(e) => return second_uri_fault(e),
    };
    match target.relative_range(&origin) {
        Some(range) => {
            *out = Place::of_range(range);
            0
        }
        None => NO_ANSWER,
    }
}

/// Writes the text of the base with the path joined to it to the front of the caller's buffer. Allocates nothing.
///
/// The status is 0, and `written` is the length of the text; `TOO_SMALL` where the buffer is shorter; else the number
/// of the first error of `base`, or that of `path` and `SECOND` where `base` has none. Unless it is 0, nothing is
/// written.
#[unsafe(no_mangle)]
pub extern "C" fn rpki_rsync_join(
    base: &[u8],
    path: &[u8],
    out: &mut [u8],
    written: &mut usize,
) -> u8
    ensures { IsJoined base.now path.now result out.old out.new written.old written.new }
{
    let uri = match RsyncView::from_slice(base) {
        Ok(view) => view,
        Err(e) => return uri_fault(e),
    };
    match uri.join_into(path, out) {
        Ok(Some(len)) => {
            *written = len;
            0
        }
        Ok(None) => TOO_SMALL,
        Err(e) => second_uri_fault(e),
    }
}

/// Says how many of the first octets of the text are the text of the URI's parent. Allocates nothing.
///
/// The status is 0; `NO_ANSWER` where there is no segment; else the number of the first error of the text. Unless it is
/// 0, nothing is written.
#[unsafe(no_mangle)]
pub extern "C" fn rpki_rsync_parent(text: &[u8], out: &mut usize) -> u8
    ensures { IsParent text.now result out.old out.new }
{
    let uri = match RsyncView::from_slice(text) {
        Ok(view) => view,
        Err(e) => return uri_fault(e),
    };
    match uri.parent_len() {
        Some(len) => {
            *out = len;
            0
        }
        None => NO_ANSWER,
    }
}

/// The status for an error of a text.
pub(crate) fn uri_fault(e: Error) -> u8
    ensures { result ≡ error_number e + uri }
{
    e.number() + URI
}

/// The status for an error of the second text.
fn second_uri_fault(e: Error) -> u8
    ensures { result ≡ error_number e + uri + second }
{
    uri_fault(e) + SECOND
}
