//! What is signed: the message's digest in its encoding (RFC 8017 9.2).

ghost use Rattle.std.specs.Prelude.{◌≡◌, ◌+◌, ◌≤◌, ◌++◌, length, take, drop};
ghost use Rattle.rpki_rsa.specs.Encoding.{encoded_digest};

use crate::limits::{DIGEST_OCTETS, INFO_OCTETS, LEAST_ENCODED, MOST_OCTETS};

/// The octets before a digest by SHA-256 in its DigestInfo (RFC 8017 9.2, note 1).
const PREFIX: [u8; 19] = [
    48, 49, 48, 13, 6, 9, 96, 134, 72, 1, 101, 3, 4, 2, 1, 5, 0, 4, 32,
];

/// Writes octets over others.
fn put(octets: &mut [u8], at: usize, part: &[u8])
    requires { at + length part.now ≤ length octets.old }
    ensures { octets.new ≡ take at octets.old ++ part.now ++ drop (at + length part.now) octets.old }
{
    octets[at..at + part.len()].copy_from_slice(part);
}

/// The encoding of a digest in so many octets, and octets of no meaning after it.
pub(crate) fn encoded(digest: &[u8; DIGEST_OCTETS], len: usize) -> [u8; MOST_OCTETS]
    requires least { LEAST_ENCODED ≤ len }
    requires most { len ≤ MOST_OCTETS }
    ensures { take len result ≡ encoded_digest digest.now len }
{
    let mut octets = [255; MOST_OCTETS];
    put(&mut octets, 0, &[0, 1]);
    put(&mut octets, len - INFO_OCTETS - 1, &[0]);
    put(&mut octets, len - INFO_OCTETS, &PREFIX);
    put(&mut octets, len - DIGEST_OCTETS, digest);
    octets
}
