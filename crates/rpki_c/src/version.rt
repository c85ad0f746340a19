//! The version of the library.

ghost use Rattle.std.specs.Prelude.{◌≡◌};

/// The major number: another one where a call or a struct changes.
pub const MAJOR: u32 = 0;
/// The minor number: a larger one where calls or statuses are added.
pub const MINOR: u32 = 2;
/// The number of the release among those with the same calls.
pub const PATCH: u32 = 0;

/// The version: the major number times 65,536, the minor number times 256, and the patch number.
#[unsafe(no_mangle)]
pub extern "C" fn rpki_version() -> u32
    ensures { result ≡ 512 }
{
    MAJOR * 65_536 + MINOR * 256 + PATCH
}
