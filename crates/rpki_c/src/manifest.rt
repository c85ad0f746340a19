//! Manifests.

ghost use Rattle.std.specs.Prelude.{◌≡◌, List};
ghost use Rattle.rpki_contents.specs.ListedFile.{ListedFile};
ghost use Rattle.rpki_contents.specs.ManifestView.{IsManifestAt};
ghost use Rattle.rpki_c.specs.Manifest.{manifest_part_number, HasManifest, IsManifestErrorRead, IsManifestRead};
ghost use Rattle.rpki_c.specs.Manifest.{IsFileTaken};

use crate::span::Span;
use crate::times::{Moment, moment_of};
use rpki_contents::{FileView, ManifestPart, ManifestView};
use rpki_der::Constructed;

/// The parts of a manifest.
#[repr(C)]
#[derive(Clone, Copy)]
pub struct ManifestParts<'a> {
    /// The files, in sequence.
    pub files: Span<'a>,
    /// How many files there are.
    pub count: usize,
    /// When the manifest was issued.
    pub this_update: Moment,
    /// When the next manifest is issued at the latest.
    pub next_update: Moment,
    /// The number of the manifest, with zeros in front.
    pub manifest_number: [u8; 20],
}

/// How a malformed part is passed.
pub(crate) fn manifest_part_number(part: ManifestPart) -> u8
    ensures { result ≡ manifest_part_number part }
{
    match part {
        ManifestPart::Manifest => 138,
        ManifestPart::Number => 139,
        ManifestPart::ThisUpdate => 140,
        ManifestPart::NextUpdate => 141,
        ManifestPart::HashAlgorithm => 142,
        ManifestPart::FileList => 143,
        ManifestPart::Order => 144,
    }
}

/// The parts of the manifest that the octets are.
fn manifest_of<'a>(octets: &'a [u8], found: &ManifestView<'a>) -> ManifestParts<'a>
    requires { (xs : List ListedFile) × IsManifestAt octets.now found.now xs }
    ensures { HasManifest octets.now result }
{
    ManifestParts {
        files: Span::of(found.files.octets()),
        count: found.files.count(),
        this_update: moment_of(found.this_update),
        next_update: moment_of(found.next_update),
        manifest_number: found.manifest_number.into_array(),
    }
}

/// Reads a manifest (RFC 9286 4.2), and says what its parts are. Some files may have the same name, which a manifest
/// doesn't allow.
///
/// The status is 0. Else it is the number of the malformed part, and `out` is unchanged: the leftmost; then that
/// the next update is after this update. Nothing is allocated.
#[unsafe(no_mangle)]
pub extern "C" fn rpki_manifest<'a>(octets: &'a [u8], out: &mut ManifestParts<'a>) -> u8
    ensures { IsManifestRead octets.now result out.old out.new }
{
    match ManifestView::read(octets) {
        Ok(found) => {
            *out = manifest_of(octets, &found);
            0
        }
        Err(wrong) => manifest_part_number(wrong.part),
    }
}

/// Reads a manifest, as [rpki_manifest] does, and says what is wrong with the malformed part.
///
/// The status is that of [rpki_manifest]. Where it is a part, 138 to 144, `error` is the number of the error, that of
/// `DecodeError`, as a reader of that part returns it; where it is 0, `error` is unchanged. Nothing is allocated.
#[unsafe(no_mangle)]
pub extern "C" fn rpki_manifest_error(octets: &[u8], error: &mut u8) -> u8
    ensures { IsManifestErrorRead octets.now result error.old error.new }
{
    match ManifestView::read(octets) {
        Ok(_) => 0,
        Err(wrong) => {
            *error = wrong.error.number();
            manifest_part_number(wrong.part)
        }
    }
}

/// A file that a manifest lists.
#[repr(C)]
#[derive(Clone, Copy)]
pub struct ManifestFile<'a> {
    /// The octets of its name.
    pub name: Span<'a>,
    /// The digest of the file.
    pub digest: [u8; 32],
}

/// Takes the file at the front of the span, as of the files of a manifest: a SEQUENCE of its name and its digest and
/// nothing else (RFC 9286 4.2.1). `rest` becomes what follows, which is not looked at.
///
/// The status is 0, or the number of the error; then nothing is written. Nothing is allocated.
#[unsafe(no_mangle)]
pub extern "C" fn rpki_manifest_file<'a>(rest: &mut Span<'a>, out: &mut ManifestFile<'a>) -> u8
    ensures { IsFileTaken result rest.old rest.new out.old out.new }
{
    let mut cursor = Constructed::from_slice(rest.octets);
    match FileView::take_from(&mut cursor) {
        Ok(file) => {
            *rest = Span::of(cursor.rest());
            *out = ManifestFile {
                name: Span::of(file.name),
                digest: file.hash.into_array(),
            };
            0
        }
        Err(e) => e.number(),
    }
}
