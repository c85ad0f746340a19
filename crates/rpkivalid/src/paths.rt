//! Where the objects of a repository are in a local copy.

ghost use Rattle.std.specs.Prelude.{◌≡◌, ◌∷◌, ◌++◌, IfOk, string_bytes};
ghost use Rattle.rpki_text.specs.RsyncText.{uri_of};
ghost use Rattle.rpki_text.specs.Views.{rsync_text};
ghost use Rattle.rpkivalid.specs.Paths.{joined, host_folder, object_path, file_in, fetched_path};

use rpki::uri::RsyncView;
use std::alloc::{AllocError, Global};
use std::path::Path;

/// A part of a path, and what follows it.
fn pair(alloc: Global, name: &str, rest: &str) -> Result<String, AllocError>
    ensures { IfOk result (λ path. string_bytes path ≡ name.now ++ 47 ∷ rest.now) }
{
    let mut path = String::from_str(alloc, name)?;
    path.push_str("/")?;
    path.push_str(rest)?;
    Ok(path)
}

/// A path of four parts.
fn joined(
    alloc: Global,
    folder: &str,
    first: &str,
    second: &str,
    rest: &str,
) -> Result<String, AllocError>
    ensures { IfOk result (λ path. string_bytes path ≡ joined folder.now first.now second.now rest.now) }
{
    let last = pair(alloc, second, rest)?;
    let later = pair(alloc, first, last.as_str())?;
    pair(alloc, folder, later.as_str())
}

/// The name of the folder of a host. That of `ta` is `ta.`, its absolute name: `ta` has what was fetched for locators.
fn host_folder(host: &str) -> &str
    ensures { result.now ≡ host_folder host.now }
{
    if host == "ta" { "ta." } else { host }
}

/// The path of the object at the URI, in the folder.
pub fn object_path(alloc: Global, folder: &str, uri: &RsyncView<'_>) -> Result<String, AllocError>
    ensures { IfOk result (λ path. string_bytes path ≡ object_path folder.now (uri_of (rsync_text uri.now))) }
{
    let mut authority = String::from_str(alloc, uri.authority())?;
    authority.make_ascii_lowercase();
    joined(
        alloc,
        folder,
        host_folder(authority.as_str()),
        uri.module_name(),
        uri.path(),
    )
}

/// The name of the file that a path leads to; nothing where it leads to none.
fn file_in(path: &str) -> &str
    ensures { result.now ≡ file_in path.now }
{
    match Path::new(path).file_name() {
        Some(name) => name,
        None => "",
    }
}

/// The path of what was fetched from this URI for the locator of this name, in the folder.
pub fn fetched_path(
    alloc: Global,
    folder: &str,
    name: &str,
    text: &[u8],
) -> Result<String, AllocError>
    ensures { IfOk result (λ path. string_bytes path ≡ fetched_path folder.now name.now text.now) }
{
    let text = String::from_utf8_lossy(alloc, text)?;
    joined(alloc, folder, "ta", name, file_in(text.as_str()))
}
