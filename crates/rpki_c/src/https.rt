//! Https URIs.

ghost use Rattle.rpki_text.specs.Views.{https_text};
ghost use Rattle.rpki_c.specs.Uri.{HasHttpsParts, IsHttpsParsed};

use crate::place::Place;
use crate::rsync::uri_fault;
use rpki_text::uri::HttpsView;

/// Where the parts of an https URI are.
#[repr(C)]
#[derive(Clone, Copy)]
pub struct HttpsParts {
    /// The authority, which may be empty.
    pub authority: Place,
    /// The path, which is empty or begins with a slash.
    pub path: Place,
}

fn parts_of(uri: &HttpsView<'_>) -> HttpsParts
    ensures { HasHttpsParts (https_text uri.now) result }
{
    HttpsParts {
        authority: Place::of_range(uri.authority_range()),
        path: Place::of_range(uri.path_range()),
    }
}

/// Reads an https URI, and says where its parts are. Allocates nothing.
///
/// The status is 0; else it is the number of the first error of the text, and nothing is written.
#[unsafe(no_mangle)]
pub extern "C" fn rpki_https_parse(text: &[u8], out: &mut HttpsParts) -> u8
    ensures { IsHttpsParsed text.now result out.old out.new }
{
    match HttpsView::from_slice(text) {
        Ok(uri) => {
            *out = parts_of(&uri);
            0
        }
        Err(e) => uri_fault(e),
    }
}
