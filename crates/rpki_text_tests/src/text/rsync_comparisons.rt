//! Comparisons, hashes and orders of rsync URIs, among each other and with octets.

use super::rsync::uri_of;
use rpki_text::uri::Rsync;
use std::hash::{FoldHasher, Hash, Hasher};
use std::test::Fail;

fn hash_of(u: &Rsync) -> u64 {
    let mut state = FoldHasher::default();
    u.hash(&mut state);
    state.finish()
}

/// Identical, equal, equal by the octets of the second, above and below.
type Relations = (bool, bool, bool, bool, bool);

const PATH: &str = "rsync://example.org/module/some/path";

#[rattlefmt::skip]
const COMPARISONS: [(&str, &str, Relations); 13] = [
    (PATH, PATH, (true, true, true, false, false)),
    (PATH, "rsync://example.org/module/some/path/", (true, false, false, false, false)),
    (PATH, "rsync://EXAMPLE.ORG/module/some/path", (true, true, true, false, false)),
    (PATH, "rsync://example.org/module/some/path2", (false, false, false, false, false)),
    (PATH, "rsync://example.org/module/some/PATH", (false, false, false, false, false)),
    (PATH, "rsync://example.org/module2/some/path", (false, false, false, false, false)),
    (PATH, "rsync://example.net/module/some/path", (false, false, false, false, false)),
    ("rsync://host/M/a", "rsync://host/m/a", (false, false, false, false, false)),
    ("rsyNc://hOst/module/path", "rsync://host/module/path", (true, true, true, false, false)),
    ("rsyNc://hOst/module/path", "rsync://host/module/pAth", (false, false, false, false, false)),
    ("rsync://host/module/", "rsync://HOST/module/a", (false, false, false, true, false)),
    ("rsync://host/module/a/b", "rsync://host/module/a/", (false, false, false, false, true)),
    ("rsync://host/module/a", "rsync://host/module/ab", (false, false, false, false, false)),
];

#[test]
fn comparisons(rt: HostRuntime) -> Result<(), Fail> {
    for (a, b, want) in COMPARISONS {
        let (u, v) = (uri_of(rt.alloc(), a)?, uri_of(rt.alloc(), b)?);
        let (same, octets) = (u.is_identical_to(&v), u.eq_bytes(b.as_bytes()));
        let found = (same, u == v, octets, u.is_parent_of(&v), v.is_parent_of(&u));
        assert!(rt; found == want, "relations of {a} and {b}");
        let hashed = hash_of(&u) == hash_of(&v);
        assert!(rt; hashed == want.1, "hashes of {a} and {b}");
    }
    Ok(())
}

/// A name, a URI, and octets that are not equal to it.
const OTHER_OCTETS: [(&str, &str, &[u8]); 4] = [
    ("no octets", "rsync://host/m/p", b""),
    ("its authority alone", "rsync://host/m/p", b"rsync://HOST"),
    ("another scheme", "rsync://host/m/p", b"xsync://host/m/p"),
    ("no slash at the end", "rsync://h/m/", b"rsync://h/m"),
];

#[test]
fn other_octets(rt: HostRuntime) -> Result<(), Fail> {
    for (name, text, octets) in OTHER_OCTETS {
        let uri = uri_of(rt.alloc(), text)?;
        assert!(rt; !uri.eq_bytes(octets), "{name}, {text}");
    }
    Ok(())
}
