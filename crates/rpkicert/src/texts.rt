//! The texts of a run that are not of a file.

/// How the program is used.
pub const USAGE: &[u8] =
    b"usage: rpkicert [--json] [--check] [--profile NAME] [--lax] [--issuer FILE] [--crl FILE] \
[--at MOMENT] [-r] FILE..\n";

/// The program's name.
pub const PROGRAM: &str = "rpkicert";

/// The program's name and version.
pub const VERSION: &[u8] = b"rpkicert 0.2.0\n";

/// What is said where allocation fails.
pub const OUT_OF_MEMORY: &[u8] = b"rpkicert: out of memory\n";

/// What is said where the moment of the clock is asked for, and it has none.
pub const NO_CLOCK: &[u8] = b"rpkicert: --at now: the clock has no moment of the years 0 to 9999\n";

/// What is said where an argument is not UTF-8.
pub const NOT_UTF8: &[u8] = b"rpkicert: an argument is not UTF-8\n";

/// What `--help` prints.
pub const HELP: &[u8] = b"\
rpkicert - verify and print the objects of a repository of the RPKI

usage: rpkicert [--json] [--check] [--profile NAME] [--lax] [--issuer FILE]
                [--crl FILE] [--at MOMENT] [-r] FILE..
       rpkicert -h | --help
       rpkicert --version

Prints the fields of each object, a field a line, and the items that it lists:
of certificates (RFC 5280, in the profiles of RFC 6487 and RFC 8209),
revocation lists (RFC 6487 5), and signed objects (RFC 6488): manifests (RFC
9286), route origin attestations (RFC 9582), attestations of providers (ASPA),
signed checklists (RFC 9323), trust anchor keys (RFC 9691), Ghostbusters records
(RFC 6493) and other contents. Its octets tell which one a FILE has, not its
name. It has at most 4000000 octets, as DER; certificates and lists may be in
the textual encoding of RFC 7468 (PEM) with other text around them, and of
several each is printed as of a file of its own: FILE (1), FILE (2) .. What is
neither is read as a trust anchor locator (RFC 8630), whose certificate isn't
looked at. - is standard input.

An object is held to all that it says by itself, and where it breaks a rule,
that is told beside its fields: of a signed object the type and the digest of
the content, the identifier and the signature of the signer (RFC 6488 3), the
signer's certificate as that of an end entity, and the content within its
resources (RFC 9286 5.1, RFC 9582 5, ASPA 4); of a certificate that is its own
issuer the signature. Signature: says what was checked. Of two values that
disagree both are told: the one that was found, and the one that is expected.

  --json       print an object of JSON a line
  --check      print a verdict a line and file: its name, and OK, OK, issuer not
               checked, OK, revocation not checked, of a locator OK, certificate
               not checked, or what is wrong; of a profile each rule that is
               broken, a line each; with --json as an object of JSON, with file,
               signature, verdict, found and expected, and violations. The
               profile is auto where none is named
  --profile P  hold each certificate, and that of the signer of each signed
               object, to the profile of a trust anchor (ta), a certification
               authority (ca), an end entity (ee), one without subject
               information access (detached, RFC 9323), a BGPsec router
               (router), or what the certificate says that it is (auto), which
               asks nothing of lists and locators
  --lax        don't hold the names to the profile
  --issuer F   hold each certificate, that of the signer of each signed object,
               and each revocation list to its issuer, whose certificate alone
               is in F: to the signature, the name, the key identifiers, and
               known extensions (RFC 6487 7.2, RFC 5280 6.3.3)
  --crl F      hold each certificate, and that of the signer of each signed
               object, to the issuer's revocation list, which is in F: it isn't
               on it. The list is held to the issuer and the moment first, and
               where it is another's, or stale, nothing else is printed
  --at MOMENT  hold periods of certificates, and those between the updates of
               revocation lists and manifests (RFC 9286 6.3), to a moment such
               as 2026-11-26T12:00:00Z (RFC 3339); now is that of the clock
  -r, --recursive
               of a FILE that is a folder print each file in it, and in the
               folders in it, in the order of their paths, as if each were named

Exit status: 0 if all is well; 1 if a file is no such object, breaks a rule of
its own, violates the profile, is of another issuer, is revoked, or holds at
another time; 2 if a file, the issuer or its list can't be read or is none, for
a wrong usage, and if writing fails.
";
