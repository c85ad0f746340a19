//! Names of files on manifests (RFC 9286 4.2.2).

ghost use Rattle.std.specs.Prelude.{◌≡◌};
ghost use Rattle.rpki_contents.specs.FileName.{is_name_octet, are_name_octets, are_small_letters};
ghost use Rattle.rpki_contents.specs.FileName.{is_extension, is_file_name};

/// Whether the octet is a letter, a digit, `-` or `_`.
fn is_name_octet(octet: u8) -> bool
    ensures { result ≡ is_name_octet octet }
{
    octet.is_ascii_alphanumeric() || octet == b'-' || octet == b'_'
}

/// Whether all of them are such characters. It doesn't end at the first that isn't, so that many are tested at once.
fn are_name_octets(octets: &[u8]) -> bool
    ensures { result ≡ are_name_octets octets.now }
{
    let mut all = true;
    let mut rest = octets;
    'octets: while let Some((first, following)) = rest.split_first() {
        all = all & is_name_octet(*first);
        rest = following;
    }
    all
}

/// Whether all of them are small letters.
fn are_small_letters(octets: &[u8]) -> bool
    ensures { result ≡ are_small_letters octets.now }
{
    octets.iter().all(|octet| octet.is_ascii_lowercase())
}

/// Whether these are a dot and small letters.
fn is_extension(octets: &[u8]) -> bool
    ensures { result ≡ is_extension octets.now }
{
    match octets {
        [] => false,
        [dot, letters @ ..] => *dot == b'.' && are_small_letters(letters),
    }
}

/// Whether this is the name of a file on a manifest: letters, digits, `-` and `_`, one at least, a dot, and three small
/// letters (RFC 9286 4.2.2). Which extensions there are is for IANA's registry to say; all are of small letters.
pub fn is_file_name(name: &[u8]) -> bool
    ensures { result ≡ is_file_name name.now }
{
    if name.len() < 5 {
        return false;
    }
    let (stem, extension) = name.split_at(name.len() - 4);
    are_name_octets(stem) && is_extension(extension)
}
