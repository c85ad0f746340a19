//! URIs in borrowed octets: where their parts are, and texts that are joined in a buffer.

use rpki_text::uri::{Error, HttpsView, RsyncView};
use std::test::Fail;

/// Where the authority, the module's name and the path begin and end.
fn rsync_ranges(text: &str) -> Result<[usize; 6], Error> {
    let uri = RsyncView::from_slice(text.as_bytes())?;
    let (authority, name) = (uri.authority_range(), uri.module_name_range());
    let path = uri.path_range();
    Ok([
        authority.start,
        authority.end,
        name.start,
        name.end,
        path.start,
        path.end,
    ])
}

const RSYNC_RANGES: [(&str, Result<[usize; 6], Error>); 9] = [
    ("rsync://host/module/foo/bar", Ok([8, 12, 13, 19, 20, 27])),
    ("rSync://hOst/module/foo/bar/", Ok([8, 12, 13, 19, 20, 28])),
    ("RSYNC://h/m/", Ok([8, 9, 10, 11, 12, 12])),
    ("rsync://host:873/m/a", Ok([8, 16, 17, 18, 19, 20])),
    // Parts with the same octets.
    ("rsync://m/m/m", Ok([8, 9, 10, 11, 12, 13])),
    ("rsync://rsync/rsync/rsync", Ok([8, 13, 14, 19, 20, 25])),
    ("rsync://host/module", Err(Error::BadUri)),
    ("rsync://host/module/a//", Err(Error::EmptySegments)),
    ("https://host/module/", Err(Error::BadScheme)),
];

#[test]
fn rsync_parts_stand(rt: HostRuntime) {
    for (text, want) in RSYNC_RANGES {
        assert!(rt; rsync_ranges(text) == want, "{text}");
    }
}

/// Where the authority and the path begin and end.
fn https_ranges(text: &str) -> Result<[usize; 4], Error> {
    let uri = HttpsView::from_slice(text.as_bytes())?;
    let (authority, path) = (uri.authority_range(), uri.path_range());
    Ok([authority.start, authority.end, path.start, path.end])
}

const HTTPS_RANGES: [(&str, Result<[usize; 4], Error>); 8] = [
    ("https://host/a/b", Ok([8, 12, 12, 16])),
    ("HTTPS://HOST/", Ok([8, 12, 12, 13])),
    ("https://host", Ok([8, 12, 12, 12])),
    ("https:///", Ok([8, 8, 8, 9])),
    ("https://", Ok([8, 8, 8, 8])),
    ("https://h/h", Ok([8, 9, 9, 11])),
    ("https:////", Ok([8, 8, 8, 10])),
    ("rsync://host/m/", Err(Error::BadScheme)),
];

#[test]
fn https_parts_stand(rt: HostRuntime) {
    for (text, want) in HTTPS_RANGES {
        assert!(rt; https_ranges(text) == want, "{text}");
    }
}

/// The path from `base` to the URI, and where it is.
fn relative<'a>(of: &'a str, base: &str) -> Result<Option<(&'a str, usize, usize)>, Error> {
    let uri = RsyncView::from_slice(of.as_bytes())?;
    let base = RsyncView::from_slice(base.as_bytes())?;
    Ok(match (uri.relative_to(&base), uri.relative_range(&base)) {
        (Some(path), Some(at)) => Some((path, at.start, at.end)),
        _ => None,
    })
}

#[rattlefmt::skip]
const RELATIVES: [(&str, &str, Option<(&str, usize, usize)>); 10] = [
    ("rsync://host/module/a/b/", "rsync://host/module/a", Some(("b/", 22, 24))),
    ("rsync://host/module/a/b/", "RSYNC://HOST/module/a/", Some(("b/", 22, 24))),
    ("rsync://host/module/a", "rsync://host/module/", Some(("a", 20, 21))),
    ("rsync://host/module/a/", "rsync://host/module/a", Some(("", 22, 22))),
    // Parts with the same octets.
    ("rsync://h/m/m", "rsync://h/m/", Some(("m", 12, 13))),
    ("rsync://m/m/m/m", "rsync://m/m/m", Some(("m", 14, 15))),
    ("rsync://m/m/", "rsync://m/m/", Some(("", 12, 12))),
    ("rsync://host/module/", "rsync://host/module/a", None),
    ("rsync://host/module/ab", "rsync://host/module/a", None),
    ("rsync://host/M/a", "rsync://host/m/", None),
];

#[test]
fn relative_paths_stand(rt: HostRuntime) {
    for (of, base, want) in RELATIVES {
        assert!(rt; relative(of, base) == Ok(want), "{of} from {base}");
    }
}

const PARENT_LENGTHS: [(&str, Option<usize>); 5] = [
    ("rsync://host/module/", None),
    ("rsync://host/module/a", Some(20)),
    ("rsync://host/module/a/", Some(20)),
    ("rsync://host/module/a/b", Some(22)),
    ("rsync://host/module/a/bc/", Some(22)),
];

#[test]
fn parent_lengths(rt: HostRuntime) {
    for (text, want) in PARENT_LENGTHS {
        let found = RsyncView::from_slice(text.as_bytes()).map(|uri| uri.parent_len());
        assert!(rt; found == Ok(want), "{text}");
    }
}

/// What joining in the buffer returns.
fn join_into(base: &str, path: &str, buffer: &mut [u8]) -> Result<Option<usize>, Error> {
    let uri = RsyncView::from_slice(base.as_bytes())?;
    uri.join_into(path.as_bytes(), buffer)
}

/// Base, path, what is returned, and what a buffer of this length holds that held `#` throughout.
#[rattlefmt::skip]
const JOINS: [(&str, &str, Result<Option<usize>, Error>, &str); 8] = [
    ("rsync://host/m/some", "foo", Ok(Some(23)), "rsync://host/m/some/foo###"),
    ("rsync://host/m/some/", "foo/", Ok(Some(24)), "rsync://host/m/some/foo/"),
    ("rsync://host/m/", "a/b", Ok(Some(18)), "rsync://host/m/a/b#"),
    ("rsync://host/m/some", "", Ok(Some(19)), "rsync://host/m/some##"),
    ("rsync://host/m/some", "foo", Ok(None), "######################"),
    ("rsync://host/m/some", "", Ok(None), ""),
    ("rsync://host/m/", "a//b", Err(Error::EmptySegments), "########"),
    ("rsync://host/m", "a", Err(Error::BadUri), "########"),
];

#[test]
fn joins_in_a_buffer(rt: HostRuntime) -> Result<(), Fail> {
    for (base, path, want, text) in JOINS {
        let mut buffer = vec![in rt.alloc(); b'#'; text.len()]?;
        let found = join_into(base, path, &mut buffer);
        assert!(rt; found == want, "{base} and {path}");
        let same = buffer.as_slice() == text.as_bytes();
        assert!(rt; same, "buffer of {base} and {path}");
    }
    Ok(())
}
