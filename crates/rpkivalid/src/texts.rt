//! The texts of a run that are no payloads.

/// How the program is used.
pub const USAGE: &[u8] = b"usage: rpkivalid --tal FILE.. --cache FOLDER [--at MOMENT] \
[--form csv|json|stayrtr|rpki-client|openbgpd|openbgpd-origins|bird] \
[--output FILE] [--least NUMBER] [--exceptions FILE..] [--metrics FILE] \
[--depth N] [--strict] [--quiet] [--log FILE] \
[--explain URI|PREFIX [--as NUMBER]] [--compare FILE]\n";

/// The program's version.
pub const NUMBER: &[u8] = b"0.2.0";

/// The program's name and version.
pub const VERSION: &[u8] = b"rpkivalid 0.2.0\n";

/// What is said where allocation fails.
pub const OUT_OF_MEMORY: &[u8] = b"rpkivalid: out of memory\n";

/// What is said where an argument is not UTF-8.
pub const NOT_UTF8: &[u8] = b"rpkivalid: an argument is not UTF-8\n";

/// What is said where the word is the text of no moment, or there is no clock.
pub const NO_MOMENT: &[u8] =
    b"rpkivalid: --at takes a moment such as 2026-11-27T12:00:00Z, or now\n";

/// What is said where the word is no number of authorities.
pub const NO_DEPTH: &[u8] = b"rpkivalid: --depth takes a number below 4294967296\n";

/// What is said where the word is no number of route origins.
pub const NO_LEAST: &[u8] = b"rpkivalid: --least takes a number below 4294967296\n";

/// What is said where no locator has a trust anchor.
pub const NO_ANCHOR: &[u8] = b"rpkivalid: no locator has a trust anchor: nothing is written\n";

/// What is said where there are fewer route origins than are asked for.
pub const TOO_FEW: &[u8] =
    b"rpkivalid: fewer route origins than --least asks for: nothing is written\n";

/// What is said where the word is no rsync URI.
pub const NO_URI: &[u8] = b"rpkivalid: --explain takes an rsync URI, or a prefix with --as\n";

/// What is said where the words are no prefix and AS number.
pub const NO_ROUTE: &[u8] = b"rpkivalid: --as takes an AS number, with --explain and a prefix\n";

/// What `--help` prints.
pub const HELP: &[u8] = b"\
rpkivalid - validate a local copy of a repository of the RPKI

usage: rpkivalid --tal FILE.. --cache FOLDER [--at MOMENT]
                 [--form F] [--output FILE] [--least NUMBER]
                 [--exceptions FILE..] [--metrics FILE] [--depth N] [--strict]
                 [--quiet] [--log FILE]
                 [--explain URI|PREFIX [--as NUMBER]] [--compare FILE]
       rpkivalid -h | --help
       rpkivalid --version

Writes the payloads that are valid at the moment: which AS may announce which
prefix; in JSON also the providers of ASes and the keys of routers, in OpenBGPD's
form the providers. They are signed down from the key of a trust anchor, whose
locator (RFC 8630) is in FILE. Nothing is written before all is known. What is
rejected, and why, is told on standard error, an object a line, and how many
payloads there are.

  --tal FILE..    the locators of trust anchors, each of the name of its file, which
                  counts once; of a folder all *.tal in it; may be given again
  --cache FOLDER  the copy: an object at rsync://HOST/PATH is FOLDER/HOST/PATH, as
                  rsync and rpki-client leave it; a trust anchor that isn't there,
                  or has an https URI, is FOLDER/ta/NAME/FILE
  --at MOMENT     such as 2026-11-27T12:00:00Z (RFC 3339), or now, the clock's, as
                  without it
  --form F        with each payload once for each locator: csv (the default) or
                  json, as of Routinator; stayrtr, the JSON that StayRTR serves to
                  routers; rpki-client, its csv with the second that each ends in.
                  With each once: openbgpd, openbgpd-origins (without providers,
                  for OpenBGPD before 8.0) or bird
  --output FILE   write to FILE, whole or not at all; -, and without it, standard
                  output. What is there and no regular file is written to
  --least NUMBER  write nothing where there are fewer route origins
  --exceptions FILE..
                  local exceptions (RFC 8416): take away what its filters match,
                  and add its assertions, under the name of the file; of several
                  what all say, where no two are in conflict
  --metrics FILE  write to FILE what is counted for each locator (OpenMetrics): its
                  trust anchor, payloads, and what is rejected, for which reasons;
                  and when that was, how long it took, and the version
  --depth N       at most N authorities below a trust anchor; 32 by default
  --strict        hold names to their profile, signed objects to RFC 9589, and
                  the families of a route origin to their order
  --quiet         tell nothing if the exit status is 0, else no rejected objects
  --log FILE      tell all at the end of FILE, and standard error as with --quiet
  --explain URI   in place of the payloads, why the object at an rsync URI counts or
                  not: where it is rejected, by which rule, and what lists it
  --explain PREFIX --as NUMBER
                  whether the route is valid, invalid or not found (RFC 6811), the
                  payloads that cover it, and what exceptions filter or add
  --compare FILE  which payloads are here alone, and which FILE has alone, of what
                  another validator wrote, in csv or JSON; and what rejected
                  attestations say of the latter

Exit status: 0 if all is written; 1 if all is written, but a locator has no trust
anchor, the copy could not be read, or FILE has other payloads; 2 if nothing is
written: for a wrong usage, without a locator, any trust anchor, the local
exceptions or the FILE to compare, if memory fails, and if writing fails; 3 if the
metrics are written, and the payloads are not.
";
