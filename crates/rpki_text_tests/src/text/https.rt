//! Https URIs.

use super::shown;
use bytes::Bytes;
use rpki_text::uri::{Error, Https};
use std::alloc::Global;
use std::hash::{FoldHasher, Hash, Hasher};
use std::test::Fail;

fn parsed(alloc: Global, text: &str) -> Result<Https, Error> {
    Https::from_bytes(Bytes::copy_from_slice(alloc, text.as_bytes())?)
}

/// The URI of a row; a failure names its text.
fn uri_of(alloc: Global, text: &'static str) -> Result<Https, &'static str> {
    parsed(alloc, text).map_err(|_| text)
}

/// The error of a text, if it has one.
fn refusal(alloc: Global, text: &str) -> Option<Error> {
    parsed(alloc, text).err()
}

const REFUSALS: [(&str, Option<Error>); 10] = [
    ("https://example.com/some", None),
    ("https://", None),
    ("https:///", None),
    ("HTTPS://example.com", None),
    ("https://h/.././/a", None),
    ("", Some(Error::BadScheme)),
    ("rsync://host/module/", Some(Error::BadScheme)),
    ("https:/host", Some(Error::BadScheme)),
    ("https://a b", Some(Error::InvalidCharacters)),
    ("xttps://a b", Some(Error::InvalidCharacters)),
];

#[test]
fn refusals(rt: HostRuntime) {
    for (text, want) in REFUSALS {
        assert!(rt; refusal(rt.alloc(), text) == want, "{text}");
    }
}

/// How long an authority is, and its error.
const AUTHORITIES: [(usize, Option<Error>); 2] = [(255, None), (256, Some(Error::BadUri))];

#[test]
fn authorities(rt: HostRuntime) -> Result<(), Fail> {
    for (times, want) in AUTHORITIES {
        let authority = String::from_utf8(vec![in rt.alloc(); b'a'; times]?)?;
        let text = format!(in rt.alloc(); "https://{authority}/p")?;
        assert!(rt; refusal(rt.alloc(), &text) == want, "{times}");
    }
    Ok(())
}

/// A text, a path, and the text that it is joined to, or the error.
#[rattlefmt::skip]
const JOINS: [(&str, &str, Result<&str, Error>); 7] = [
    ("https://example.com", "a", Ok("https://example.com/a")),
    ("https://", "a", Ok("https:///a")),
    ("https://example.com/some", "sub/", Ok("https://example.com/some/sub/")),
    ("https://example.com/some/", "sub/", Ok("https://example.com/some/sub/")),
    ("https://example.com/some", "", Ok("https://example.com/some/")),
    ("https://exAmple.com/", "/..", Ok("https://exAmple.com//..")),
    ("https://example.com/", "a b", Err(Error::InvalidCharacters)),
];

#[test]
fn joins(rt: HostRuntime) -> Result<(), Fail> {
    for (base, path, want) in JOINS {
        let base = uri_of(rt.alloc(), base)?;
        let same = match base.join(rt.alloc(), path.as_bytes()) {
            Ok(joined) => want == Ok(joined.as_str()),
            Err(e) => want == Err(e),
        };
        assert!(rt; same, "{base} join {path}");
    }
    Ok(())
}

/// A text, and its parent, or "None".
const PARENTS: [(&str, &str); 9] = [
    ("https://example.com/", "None"),
    ("https://example.com", "None"),
    ("https://example.com/1/", "https://example.com/"),
    ("https://example.com/foo", "https://example.com/"),
    ("https://example.com/1/foo", "https://example.com/1/"),
    ("https://example.com/1/2/", "https://example.com/1/"),
    ("https://e//", "https://e/"),
    ("https:///foo", "https:///"),
    ("https://e/1//", "https://e/1/"),
];

#[test]
fn parents(rt: HostRuntime) -> Result<(), Fail> {
    for (text, want) in PARENTS {
        let parent = uri_of(rt.alloc(), text)?.parent()?;
        let same = match &parent {
            Some(parent) => parent.as_str() == want,
            None => want == "None",
        };
        assert!(rt; same, "{text}");
    }
    Ok(())
}

fn hash_of(u: &Https) -> u64 {
    let mut state = FoldHasher::default();
    u.hash(&mut state);
    state.finish()
}

/// Equal, equal by octets, the same authority, and hashed alike.
fn comparison(alloc: Global, a: &str, b: &str) -> Result<(bool, bool, bool, bool), Error> {
    let (u, v) = (parsed(alloc, a)?, parsed(alloc, b)?);
    let (octets, authority) = (u.eq_bytes(b.as_bytes()), u.eq_authority(&v));
    Ok((u == v, octets, authority, hash_of(&u) == hash_of(&v)))
}

const SOME: &str = "https://example.com/some/stuff";

#[rattlefmt::skip]
const COMPARISONS: [(&str, &str, (bool, bool, bool, bool)); 4] = [
    ("htTps://eXAMple.coM/some/stuff", SOME, (true, true, true, true)),
    (SOME, "https://example.com/Some/stuff", (false, false, true, false)),
    (SOME, "https://example.net/some/stuff", (false, false, false, false)),
    ("https://example.com", "https://example.com/", (false, false, true, false)),
];

#[test]
fn comparisons(rt: HostRuntime) {
    for (a, b, want) in COMPARISONS {
        assert!(rt; comparison(rt.alloc(), a, b) == Ok(want), "{a} and {b}");
    }
}

/// A text, which is what Display prints; the authority, the canonical authority, the path, whether it is a directory,
/// and the text as a directory.
#[rattlefmt::skip]
const PARTS: [(&str, &str, &str, &str, bool, &str); 4] = [
    ("https://example.com/some", "example.com", "example.com", "/some", false, "https://example.com/some/"),
    ("https://HOST", "HOST", "host", "", true, "https://HOST"),
    ("HTTPS://h/a/", "h", "h", "/a/", true, "HTTPS://h/a/"),
    ("https://", "", "", "", true, "https://"),
];

#[test]
fn uri_parts(rt: HostRuntime) -> Result<(), Fail> {
    for (text, authority, _, path, dir, _) in PARTS {
        let uri = uri_of(rt.alloc(), text)?;
        let found = (uri.authority(), uri.path());
        assert!(rt; found == (authority, path), "authority or path of {text}");
        let found = (uri.scheme().as_str(), uri.path_is_dir());
        assert!(rt; found == ("https", dir), "scheme or kind of path of {text}");
    }
    Ok(())
}

#[test]
fn canonical_authorities(rt: HostRuntime) -> Result<(), Fail> {
    for (text, _, authority, _, _, _) in PARTS {
        let uri = uri_of(rt.alloc(), text)?;
        let found = uri.canonical_authority(rt.alloc())?;
        assert!(rt; found.as_str() == authority, "{text}");
    }
    Ok(())
}

#[test]
fn printed_texts(rt: HostRuntime) -> Result<(), Fail> {
    for (text, _, _, _, _, dir) in PARTS {
        let mut uri = uri_of(rt.alloc(), text)?;
        assert!(rt; shown(rt.alloc(), &uri)?.as_str() == text, "{text}");
        uri.path_into_dir(rt.alloc())?;
        assert!(rt; shown(rt.alloc(), &uri)?.as_str() == dir, "{dir}");
    }
    Ok(())
}

/// Each way of making a copy gives the same text.
#[test]
fn copies(rt: HostRuntime) -> Result<(), Fail> {
    let alloc = rt.alloc();
    for text in [
        "htTps://eXAMple.coM/some/stuff",
        "https://aaaa/",
        "https://",
    ] {
        let owned = Https::from_string(String::from_str(alloc, text)?).map_err(|_| text)?;
        let mut uri = Https::from_str(alloc, text).map_err(|_| text)?;
        uri.unshare(alloc)?;
        let again = Https::from_slice(alloc, uri.as_slice()).map_err(|_| text)?;
        for copy in [&owned, &uri, &uri.clone()?, &again] {
            let found = (copy.as_str(), copy.as_bytes().as_slice());
            assert!(rt; found == (text, text.as_bytes()), "{text}");
        }
    }
    Ok(())
}
