//! Rsync URIs.

use super::shown;
use bytes::Bytes;
use rpki_text::uri::{Error, Rsync, RsyncView};
use std::alloc::Global;
use std::test::Fail;

fn parsed(alloc: Global, text: &str) -> Result<Rsync, Error> {
    Rsync::from_bytes(Bytes::copy_from_slice(alloc, text.as_bytes())?)
}

/// The URI of a row; a failure names its text.
pub(super) fn uri_of(alloc: Global, text: &'static str) -> Result<Rsync, &'static str> {
    parsed(alloc, text).map_err(|_| text)
}

/// The error of a text, if it has one.
fn refusal(alloc: Global, text: &str) -> Option<Error> {
    parsed(alloc, text).err()
}

#[rattlefmt::skip]
const REFUSALS: &[(&str, Option<Error>)] = &[
    ("rsync://host/module/", None),
    ("rsync://host/module/foo/", None),
    ("rsync://host/module/foo/bar", None),
    ("rsync://host/module/foo/bar/", None),
    ("rSync://hOst/module/foo/bar", None),
    ("rsync://host/module/$%&'()*+,-./0123456789:;=ABCDEFGHIJKLMNOPQRSTUVWXYZ_abcdefghijklmnopqrstuvwxyz~", None),
    ("", Some(Error::BadScheme)),
    ("fsync://host/module/foo/bar", Some(Error::BadScheme)),
    ("rsync://", Some(Error::BadUri)),
    ("rsync://a", Some(Error::BadUri)),
    ("rsync://a/", Some(Error::BadUri)),
    ("rsync://host/", Some(Error::BadUri)),
    ("rsync://host/module", Some(Error::BadUri)),
    ("rsync:////foo", Some(Error::EmptySegments)),
    ("rsync://host//foo", Some(Error::EmptySegments)),
    ("rsync:///module/foo", Some(Error::EmptySegments)),
    ("rsync://host/module//foo/bar/", Some(Error::EmptySegments)),
    ("rsync://host/module/foo//bar/", Some(Error::EmptySegments)),
    ("rsync://host/m/a//..", Some(Error::EmptySegments)),
    ("rsync://host/./a//b", Some(Error::DotSegments)),
    ("rsync://../module/", Some(Error::DotSegments)),
    ("rsync://./", Some(Error::DotSegments)),
    ("rsync://host/..", Some(Error::DotSegments)),
    ("rsync://host/./foo/bar", Some(Error::DotSegments)),
    ("rsync://host/module/foo/../bar", Some(Error::DotSegments)),
    ("rsync://host/module/foo/bar/..", Some(Error::DotSegments)),
    ("rsync://host/module/f oo/bar", Some(Error::InvalidCharacters)),
    ("rsync:// host/module/foo/bar", Some(Error::InvalidCharacters)),
    ("xsync://a b", Some(Error::InvalidCharacters)),
    ("rsync://host/module/ ", Some(Error::InvalidCharacters)),
    ("rsync://host/module/\"", Some(Error::InvalidCharacters)),
    ("rsync://host/module/#", Some(Error::InvalidCharacters)),
    ("rsync://host/module/<", Some(Error::InvalidCharacters)),
    ("rsync://host/module/>", Some(Error::InvalidCharacters)),
    ("rsync://host/module/?", Some(Error::InvalidCharacters)),
    ("rsync://host/module/[", Some(Error::InvalidCharacters)),
    ("rsync://host/module/\\", Some(Error::InvalidCharacters)),
    ("rsync://host/module/]", Some(Error::InvalidCharacters)),
    ("rsync://host/module/^", Some(Error::InvalidCharacters)),
    ("rsync://host/module/`", Some(Error::InvalidCharacters)),
    ("rsync://host/module/{", Some(Error::InvalidCharacters)),
    ("rsync://host/module/|", Some(Error::InvalidCharacters)),
    ("rsync://host/module/}", Some(Error::InvalidCharacters)),
    ("rsync://host/module/!", None),
    ("rsync://host/module/a.b/..c/...", None),
    ("rsync://host/module/.", Some(Error::DotSegments)),
    ("RSYNC://HOST/MODULE/", None),
    ("rsync:/host/module/", Some(Error::BadScheme)),
    ("rsync://host/module/a//", Some(Error::EmptySegments)),
    ("rsync://host/module/.//", Some(Error::DotSegments)),
    ("rsync:///", Some(Error::EmptySegments)),
    ("https://host/module/", Some(Error::BadScheme)),
    ("rsync://host/module/\u{e4}", Some(Error::InvalidCharacters)),
];

#[test]
fn refusals(rt: HostRuntime) {
    for (text, want) in REFUSALS {
        assert!(rt; refusal(rt.alloc(), text) == *want, "{text}");
    }
}

#[test]
fn refusals_of_borrowed_octets(rt: HostRuntime) {
    for (text, want) in REFUSALS {
        let found = RsyncView::from_slice(text.as_bytes()).err();
        assert!(rt; found == *want, "{text}");
    }
}

/// 255 octets and a slash.
const SEGMENT: &str =
    "aaaaaaaaaaaaaaaaaaaaaaaaaaaaaaaaaaaaaaaaaaaaaaaaaaaaaaaaaaaaaaaaaaaaaaaaaaaaaaaaaaaaa\
    aaaaaaaaaaaaaaaaaaaaaaaaaaaaaaaaaaaaaaaaaaaaaaaaaaaaaaaaaaaaaaaaaaaaaaaaaaaaaaaaaaaaa\
    aaaaaaaaaaaaaaaaaaaaaaaaaaaaaaaaaaaaaaaaaaaaaaaaaaaaaaaaaaaaaaaaaaaaaaaaaaaaaaaaaaaaa/";

/// A text of parts that are each repeated.
fn repeated(alloc: Global, parts: &[(&str, usize)]) -> Result<String, Fail> {
    let mut text = String::new(alloc);
    for (part, times) in parts {
        for _ in 0..*times {
            text.push_str(part)?;
        }
    }
    Ok(text)
}

#[rattlefmt::skip]
const LIMITS: [(&str, &[(&str, usize)], Option<Error>); 14] = [
    ("an authority of 255 octets", &[("rsync://", 1), ("a", 255), ("/m/", 1)], None),
    ("an authority of 256 octets", &[("rsync://", 1), ("a", 256), ("/m/", 1)], Some(Error::LongSegments)),
    ("a module of 255 octets", &[("rsync://host/", 1), ("a", 255), ("/", 1)], None),
    ("a module of 256 octets", &[("rsync://host/", 1), ("a", 256), ("/", 1)], Some(Error::LongSegments)),
    ("a segment of 255 octets", &[("rsync://host/module/", 1), ("a", 255)], None),
    ("a segment of 256 octets", &[("rsync://host/module/", 1), ("a", 256)], Some(Error::LongSegments)),
    ("a long segment, then dots", &[("rsync://host/module/", 1), ("a", 256), ("/..", 1)], Some(Error::LongSegments)),
    ("dots, then a long segment", &[("rsync://host/module/../", 1), ("a", 256)], Some(Error::DotSegments)),
    ("3,071 octets after the scheme", &[("rsync://host/module/", 1), (SEGMENT, 11), ("a", 243)], None),
    ("3,072 octets after the scheme", &[("rsync://host/module/", 1), (SEGMENT, 11), ("a", 244)], Some(Error::LongUri)),
    ("3,072 octets after the scheme, the last a slash",
        &[("rsync://host/module/", 1), (SEGMENT, 11), ("a", 243), ("/", 1)], Some(Error::LongUri)),
    ("3,072 octets, and dots before", &[("rsync://../module/", 1), (SEGMENT, 11), ("a", 246)], Some(Error::LongUri)),
    ("3,071 octets, and dots before", &[("rsync://../module/", 1), (SEGMENT, 11), ("a", 245)],
        Some(Error::DotSegments)),
    ("a long text with a blank", &[("rsync://host/module/", 1), (SEGMENT, 12), (" ", 1)],
        Some(Error::InvalidCharacters)),
];

#[test]
fn limits(rt: HostRuntime) -> Result<(), Fail> {
    for (name, parts, want) in LIMITS {
        let text = repeated(rt.alloc(), parts)?;
        assert!(rt; refusal(rt.alloc(), &text) == want, "{name}");
    }
    Ok(())
}

/// Two texts, and the path from the one to the other, or "None".
const RELATIVES: [(&str, &str, &str); 18] = [
    ("rsync://host/module/", "rsync://host/module/", ""),
    ("rsync://host/module/", "rsync://host/module/a", "None"),
    ("rsync://host/module/a", "rsync://host/module/", "a"),
    ("rsync://host/module/a/", "rsync://host/module/", "a/"),
    ("rsync://host/module/a", "rsync://host/module/a/b", "None"),
    ("rsync://host/module/ab/", "rsync://host/module/a/", "None"),
    ("rsync://host/module/a/b", "rsync://host/module/a/", "b"),
    ("rsync://host/module/a/b/", "rsync://host/module/a", "b/"),
    ("rsync://host/module/a/b/", "rsync://host/module/a/b", ""),
    ("rsync://host/module/a/b", "rsync://host/module/ab", "None"),
    ("rsync://host/module/a/b", "rsync://host/mod_b/a/b", "None"),
    ("rsync://host/module/ab", "rsync://host/module/a", "None"),
    ("rsync://host/module/a", "rsync://host/module/a/", ""),
    ("rsync://host/module/a/", "rsync://host/module/a", ""),
    ("rsync://host/M/a", "rsync://host/m/", "None"),
    ("rsync://HOST/module/a/b/", "rSync://host/module/a", "b/"),
    ("rsync://host/module/A/b", "rsync://host/module/a", "None"),
    ("rsync://host/module/a/b/c", "rsync://host/module/a/b/", "c"),
];

#[test]
fn relatives(rt: HostRuntime) -> Result<(), Fail> {
    for (of, to, want) in RELATIVES {
        let (uri, base) = (uri_of(rt.alloc(), of)?, uri_of(rt.alloc(), to)?);
        let found = uri.relative_to(&base).unwrap_or("None");
        assert!(rt; found == want, "{of} to {to}");
    }
    Ok(())
}

/// A text, a path, and the text that it is joined to, or the error.
#[rattlefmt::skip]
const JOINS: [(&str, &str, Result<&str, Error>); 15] = [
    ("rsync://host/module/some", "foo", Ok("rsync://host/module/some/foo")),
    ("rsync://host/module/some", "foo/", Ok("rsync://host/module/some/foo/")),
    ("rsync://host/module/some", "foo/bar", Ok("rsync://host/module/some/foo/bar")),
    ("rsync://host/module/some/", "foo", Ok("rsync://host/module/some/foo")),
    ("rsync://host/module/some/", "foo/", Ok("rsync://host/module/some/foo/")),
    ("rsync://host/module/some/", "foo/bar", Ok("rsync://host/module/some/foo/bar")),
    ("rsync://host/module/", ".", Err(Error::DotSegments)),
    ("rsync://host/module/", "foo/.", Err(Error::DotSegments)),
    ("rsync://host/module/", "..", Err(Error::DotSegments)),
    ("rsync://host/module/", "foo/../bar", Err(Error::DotSegments)),
    ("rsync://host/module/", "../bar", Err(Error::DotSegments)),
    ("rsync://host/module/", "/bar", Err(Error::EmptySegments)),
    ("rsync://host/module/", "b r", Err(Error::InvalidCharacters)),
    ("rSync://hOst/module/some", "foo/bar", Ok("rSync://hOst/module/some/foo/bar")),
    ("rSync://hOst/module/some", "", Ok("rSync://hOst/module/some")),
];

#[test]
fn joins(rt: HostRuntime) -> Result<(), Fail> {
    for (base, path, want) in JOINS {
        let base = uri_of(rt.alloc(), base)?;
        let same = match base.join(rt.alloc(), path.as_bytes()) {
            Ok(joined) => want == Ok(joined.as_str()),
            Err(e) => want == Err(e),
        };
        assert!(rt; same, "{base} join {path}");
    }
    Ok(())
}

/// A path of so many segments and so many octets more, and what its join gives.
#[rattlefmt::skip]
const LONG_JOINS: [(&str, &[(&str, usize)], Result<usize, Error>); 3] = [
    ("3,071 octets", &[(SEGMENT, 11), ("a", 235)], Ok(3071)),
    ("3,072 octets", &[(SEGMENT, 11), ("a", 236)], Err(Error::LongUri)),
    ("twelve long segments", &[(SEGMENT, 12)], Err(Error::LongUri)),
];

#[test]
fn long_joins(rt: HostRuntime) -> Result<(), Fail> {
    let base = uri_of(rt.alloc(), "rsync://host/module/")?;
    for (name, path, want) in LONG_JOINS {
        let path = repeated(rt.alloc(), path)?;
        let joined = base.join(rt.alloc(), path.as_bytes());
        let found = joined.map(|joined| joined.as_slice().len());
        assert!(rt; found == want, "{name}");
    }
    Ok(())
}

/// The longest text that is read. Joined to a path of one octet, and as a directory, it is too long.
const LONGEST: &[(&str, usize)] = &[("rsync://host/module/", 1), (SEGMENT, 11), ("a", 243)];

#[test]
fn longest_texts(rt: HostRuntime) -> Result<(), Fail> {
    let mut uri = parsed(rt.alloc(), &repeated(rt.alloc(), LONGEST)?)?;
    let joined = uri.join(rt.alloc(), b"a").err();
    assert!(rt; joined == Some(Error::LongUri), "a");
    assert!(rt; uri.join(rt.alloc(), b"")? == uri, "no path");
    uri.path_into_dir(rt.alloc())?;
    assert!(rt; uri.as_slice().len() == 3080, "length of the directory");
    let found = refusal(rt.alloc(), uri.as_str());
    assert!(rt; found == Some(Error::LongUri), "directory");
    Ok(())
}

/// A text, and its parent, or "None".
#[rattlefmt::skip]
const PARENTS: [(&str, &str); 6] = [
    ("rsync://host/module/foo/bar/baz/", "rsync://host/module/foo/bar/"),
    ("rsync://host/module/foo/bar/baz", "rsync://host/module/foo/bar/"),
    ("rsync://host/module/foo/", "rsync://host/module/"),
    ("rsync://host/module/foo", "rsync://host/module/"),
    ("rsync://host/module/", "None"),
    ("rSync://hOst/module/foo", "rSync://hOst/module/"),
];

#[test]
fn parents(rt: HostRuntime) -> Result<(), Fail> {
    for (text, want) in PARENTS {
        let parent = uri_of(rt.alloc(), text)?.parent()?;
        let same = match &parent {
            Some(parent) => parent.as_str() == want,
            None => want == "None",
        };
        assert!(rt; same, "{text}");
    }
    Ok(())
}

/// A text, and the text as a directory.
const DIRECTORIES: [(&str, &str); 3] = [
    ("rsync://host/module/", "rsync://host/module/"),
    ("rSync://hOst/module/foo", "rSync://hOst/module/foo/"),
    ("rsync://host/module/foo/", "rsync://host/module/foo/"),
];

#[test]
fn directories(rt: HostRuntime) -> Result<(), Fail> {
    for (text, want) in DIRECTORIES {
        let mut uri = uri_of(rt.alloc(), text)?;
        uri.path_into_dir(rt.alloc())?;
        assert!(rt; uri.as_str() == want, "{text}");
    }
    Ok(())
}

/// A text, which is what Display prints; the authority, the module's name, the module, the canonical authority, the
/// canonical module and the path; whether the path is a directory, whether it ends so, and its length.
#[rattlefmt::skip]
const PARTS: [(&str, [&str; 6], (bool, bool, usize)); 4] = [
    ("rSync://hOst/module/foo/bar",
        ["hOst", "module", "rSync://hOst/module/", "host", "rsync://host/module/", "foo/bar"], (false, false, 7)),
    ("rSync://hOst/module/", ["hOst", "module", "rSync://hOst/module/", "host", "rsync://host/module/", ""],
        (true, false, 0)),
    ("rsync://host/Module/a.cer", ["host", "Module", "rsync://host/Module/", "host", "rsync://host/Module/", "a.cer"],
        (false, true, 5)),
    ("rSync://host/.cer/er", ["host", ".cer", "rSync://host/.cer/", "host", "rsync://host/.cer/", "er"],
        (false, false, 2)),
];

#[test]
fn uri_parts(rt: HostRuntime) -> Result<(), Fail> {
    for (text, [authority, name, module, _, _, path], facts) in PARTS {
        let uri = uri_of(rt.alloc(), text)?;
        assert!(rt; uri.authority() == authority, "authority of {text}");
        let found = [uri.module_name(), uri.module()];
        assert!(rt; found == [name, module], "module of {text}");
        assert!(rt; uri.path() == path, "path of {text}");
        let (is_dir, ends) = (uri.path_is_dir(), uri.ends_with(".cer"));
        let found = (is_dir, ends, uri.path_bytes().len());
        assert!(rt; found == facts, "kind of path of {text}");
    }
    Ok(())
}

#[test]
fn canonical_parts(rt: HostRuntime) -> Result<(), Fail> {
    for (text, [_, _, _, authority, module, _], _) in PARTS {
        let uri = uri_of(rt.alloc(), text)?;
        let found = uri.canonical_authority(rt.alloc())?;
        assert!(rt; found.as_str() == authority, "authority of {text}");
        let found = uri.canonical_module(rt.alloc())?;
        assert!(rt; found.as_str() == module, "module of {text}");
        let printed = shown(rt.alloc(), &uri)?;
        assert!(rt; printed.as_str() == text, "{text} as printed");
    }
    Ok(())
}

/// Each way of making a copy gives the same text.
#[test]
fn copies(rt: HostRuntime) -> Result<(), Fail> {
    let alloc = rt.alloc();
    for text in ["rSync://hOst/module/foo/bar", "rsync://host/module/"] {
        let owned = Rsync::from_string(String::from_str(alloc, text)?).map_err(|_| text)?;
        assert!(rt; owned.as_str() == text, "{text}, owned");
        let mut uri = Rsync::from_str(alloc, text).map_err(|_| text)?;
        uri.unshare(alloc)?;
        assert!(rt; uri.as_str() == text, "{text}, not shared");
        let octets = uri.to_bytes()?;
        assert!(rt; octets.as_slice() == text.as_bytes(), "{text}, octets");
        assert!(rt; uri.clone()?.as_str() == text, "{text}, a copy");
        let again = Rsync::from_slice(alloc, uri.as_slice()).map_err(|_| text)?;
        assert!(rt; again.as_str() == text, "{text}, read again");
    }
    Ok(())
}

const READ: [&str; 6] = [
    "rsync://host/module/",
    "",
    "rsync://host",
    "rsync://h//",
    "rsync://h/../",
    "rsync://h m",
];

/// Each way to read a text gives the same error, or none.
#[test]
fn readers_agree(rt: HostRuntime) -> Result<(), Fail> {
    let alloc = rt.alloc();
    for text in READ {
        let error = refusal(alloc, text);
        assert!(rt; Rsync::from_str(alloc, text).err() == error, "{text}");
        let found = Rsync::from_slice(alloc, text.as_bytes()).err();
        assert!(rt; found == error, "{text}, octets");
        let found = Rsync::from_string(String::from_str(alloc, text)?).err();
        assert!(rt; found == error, "{text}, owned");
    }
    Ok(())
}
