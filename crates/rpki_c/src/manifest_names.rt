//! Whether the files of a manifest have different names.

ghost use Rattle.std.specs.Prelude.{length};
ghost use Rattle.rpki_c.specs.Manifest.{AreNamesCompared};

use crate::manifest::manifest_part_number;
use crate::status::TOO_SMALL;
use rpki_contents::ManifestView;

/// Reads a manifest as [crate::manifest::rpki_manifest] does, and says whether no two of its files have the same name,
/// as a manifest has to have them (RFC 9286 4.2.1). The room is written over; n files take n log n steps.
///
/// The status is 0, and `out` says so. Else `out` is unchanged: it is the number of the malformed part, or 9 where
/// the room has fewer places than there are files. Nothing is allocated.
#[unsafe(no_mangle)]
pub extern "C" fn rpki_manifest_names<'a>(
    octets: &'a [u8],
    room: &mut [&'a [u8]],
    out: &mut bool,
) -> u8
    ensures { AreNamesCompared octets.now (length room.old) result out.old out.new }
{
    match ManifestView::read(octets) {
        Ok(found) => {
            if room.len() < found.files.count() {
                return TOO_SMALL;
            }
            *out = found.files.names_differ(room);
            0
        }
        Err(wrong) => manifest_part_number(wrong.part),
    }
}
