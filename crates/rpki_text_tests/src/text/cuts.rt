//! URIs that were read before, by the places of their parts.

use rpki_text::uri::{Error, HttpsCut, HttpsView, Joined, RsyncCut, RsyncView};

/// The authority, the module's name and the path.
fn rsync_parts(text: &str, module: usize, path: usize) -> Option<(&[u8], &[u8], &[u8])> {
    let uri = RsyncCut::at(text.as_bytes(), module, path)?;
    Some((uri.authority(), uri.module_name(), uri.path()))
}

const RSYNC_PARTS: [(&str, usize, usize, Option<(&str, &str, &str)>); 9] = [
    ("rsync://h/m/p", 10, 12, Some(("h", "m", "p"))),
    ("rsync://host/module/", 13, 20, Some(("host", "module", ""))),
    // Not the text's own places.
    ("rsync://host/module/", 9, 10, Some(("", "", "st/module/"))),
    ("0123456789abcdef", 10, 13, Some(("8", "ab", "def"))),
    ("rsync://h/m/p", 8, 12, None),
    ("rsync://h/m/p", 12, 12, None),
    ("rsync://h/m/p", 10, 14, None),
    ("rsync://h/m/p", usize::MAX, usize::MAX, None),
    ("", 9, 10, None),
];

#[test]
fn rsync_parts_are_cut(rt: HostRuntime) {
    for (text, module, path, want) in RSYNC_PARTS {
        let want = want.map(|(a, m, p)| (a.as_bytes(), m.as_bytes(), p.as_bytes()));
        let found = rsync_parts(text, module, path);
        assert!(rt; found == want, "{text} at {module} and {path}");
    }
}

/// Whether both are equal, the second lies below the first, and both have the same segments.
fn compared(text: &str, other: &str) -> Option<(bool, bool, bool)> {
    let uri = RsyncCut::at(text.as_bytes(), 10, 12)?;
    let other = RsyncCut::at(other.as_bytes(), 10, 12)?;
    Some((
        uri.is_equal_to(&other),
        uri.is_parent_of(&other),
        uri.is_identical_to(&other),
    ))
}

const COMPARED: [(&str, &str, (bool, bool, bool)); 5] = [
    ("rsync://h/m/a", "RSYNC://H/m/a", (true, false, true)),
    ("rsync://h/m/a", "rsync://h/m/a/", (false, false, true)),
    ("rsync://h/m/a", "rsync://h/m/a/b", (false, true, false)),
    ("rsync://h/m/a/b", "rsync://h/m/a", (false, false, false)),
    ("rsync://h/m/a", "rsync://h/M/a", (false, false, false)),
];

#[test]
fn cuts_are_compared(rt: HostRuntime) {
    for (text, other, want) in COMPARED {
        assert!(rt; compared(text, other) == Some(want), "{text} and {other}");
    }
}

/// The path from the base to the URI, where it is, and how long the URI's parent is.
fn ways<'a>(of: &'a str, base: &str) -> Result<Option<(&'a [u8], usize, Option<usize>)>, Error> {
    let uri = RsyncView::from_slice(of.as_bytes())?.cut();
    let base = RsyncView::from_slice(base.as_bytes())?.cut();
    Ok(match (uri.relative_to(&base), uri.relative_range(&base)) {
        (Some(path), Some(at)) => Some((path, at.start, uri.parent_len())),
        _ => None,
    })
}

#[test]
fn cuts_of_views_answer(rt: HostRuntime) {
    let found = ways("rsync://h/m/a/b", "RSYNC://H/m/a");
    assert!(rt; found == Ok(Some((b"b".as_slice(), 14, Some(14)))), "below");
    let found = ways("rsync://h/m/a", "rsync://h/n/");
    assert!(rt; found == Ok(None), "another module");
    let found = HttpsView::from_slice(b"https://h/a").map(|uri| uri.cut().path_is_dir());
    assert!(rt; found == Ok(false), "no directory");
}

/// Writes the text that is made, and returns what was written.
fn written<'b>(joined: &Joined<'_>, buffer: &'b mut [u8]) -> Option<&'b [u8]> {
    let len = joined.write_to(buffer)?;
    buffer.get(..len)
}

/// What the path joined to the text is, and the text with a slash last.
fn is_joined(text: &str, path: &str, joined: &str, dir: &str) -> Result<bool, Error> {
    let mut buffer = [0; 32];
    let Some(uri) = RsyncCut::at(text.as_bytes(), 10, 12) else {
        return Ok(false);
    };
    let is = written(&uri.joined(path.as_bytes())?, &mut buffer) == Some(joined.as_bytes());
    Ok(is && written(&uri.as_dir(), &mut buffer) == Some(dir.as_bytes()))
}

const JOINED: [(&str, &str, &str, &str); 4] = [
    ("rsync://h/m/", "a", "rsync://h/m/a", "rsync://h/m/"),
    ("rsync://h/m/a", "b/", "rsync://h/m/a/b/", "rsync://h/m/a/"),
    ("rsync://h/m/a/", "b", "rsync://h/m/a/b", "rsync://h/m/a/"),
    ("rsync://h/m/a", "", "rsync://h/m/a", "rsync://h/m/a/"),
];

#[test]
fn paths_are_joined_to_cuts(rt: HostRuntime) {
    for (text, path, joined, dir) in JOINED {
        let found = is_joined(text, path, joined, dir);
        assert!(rt; found == Ok(true), "{text} and {path}");
    }
    let found = is_joined("rsync://h/m/", "a//b", "", "");
    assert!(rt; found == Err(Error::EmptySegments), "empty segments");
}

/// The authority and the path, and how long the parent is.
fn https_parts(text: &str, path: usize) -> Option<(&[u8], &[u8], Option<usize>)> {
    let uri = HttpsCut::at(text.as_bytes(), path)?;
    Some((uri.authority(), uri.path(), uri.parent_len()))
}

const HTTPS_PARTS: [(&str, usize, Option<(&str, &str, Option<usize>)>); 6] = [
    ("https://h/a/b", 9, Some(("h", "/a/b", Some(12)))),
    ("https://h/", 9, Some(("h", "/", None))),
    ("https://", 8, Some(("", "", None))),
    // Not the text's own place.
    ("0123456789abcdef", 10, Some(("89", "abcdef", Some(10)))),
    ("https://h", 7, None),
    ("https://h", 10, None),
];

#[test]
fn https_parts_are_cut(rt: HostRuntime) {
    for (text, path, want) in HTTPS_PARTS {
        let want = want.map(|(a, p, parent)| (a.as_bytes(), p.as_bytes(), parent));
        assert!(rt; https_parts(text, path) == want, "{text} at {path}");
    }
}

/// Whether both are equal, and whether the path joined to the text is `joined`, and the text with a slash last `dir`.
fn https_answers(text: &str, other: &str, joined: &str, dir: &str) -> Option<(bool, bool, bool)> {
    let mut buffer = [0; 32];
    let uri = HttpsCut::at(text.as_bytes(), 9)?;
    let other = HttpsCut::at(other.as_bytes(), 9)?;
    let made = uri.joined(b"b").ok()?;
    Some((
        uri.is_equal_to(&other),
        written(&made, &mut buffer) == Some(joined.as_bytes()),
        written(&uri.as_dir(), &mut buffer) == Some(dir.as_bytes()),
    ))
}

#[rattlefmt::skip]
const HTTPS_ANSWERS: [(&str, &str, &str, &str, bool); 4] = [
    ("https://h/a", "HTTPS://H/a", "https://h/a/b", "https://h/a/", true),
    ("https://h/a/", "https://h/a", "https://h/a/b", "https://h/a/", false),
    ("https://h", "https://i", "https://h/b", "https://h", false),
    ("https://h/", "https://h/", "https://h/b", "https://h/", true),
];

#[test]
fn https_cuts_answer(rt: HostRuntime) {
    for (text, other, joined, dir, equal) in HTTPS_ANSWERS {
        let found = https_answers(text, other, joined, dir);
        assert!(rt; found == Some((equal, true, true)), "{text} and {other}");
    }
}
