//! Manifests, read in place without memory (RFC 9286 4.2).

ghost use Rattle.std.specs.Prelude.{IfOk, IfErr, List};
ghost use Rattle.rpki_der.specs.Prelude.{left};
ghost use Rattle.rpki_contents.specs.ListedFile.{ListedFile};
ghost use Rattle.rpki_contents.specs.ManifestView.{AreFieldsAt, AreFieldsWrong, IsManifestAt, IsManifestError};
ghost use Rattle.rpki_contents.specs.ManifestView.{ReadsList};

use crate::files_view::FilesView;
use crate::manifest_part::ManifestPart;
use rpki::crypto::DigestAlgorithm;
use rpki::der::{Constructed, DecodeError, Tag};
use rpki::repository::x509::{Serial, Time};
use rpki_parse::Malformed;
use rpki_x509::inside;

/// A manifest whose files are borrowed from the octets that it was read from. Some may have the same name, which a
/// manifest doesn't allow: see [FilesView::names_differ].
#[derive(Drop)]
pub struct ManifestView<'a> {
    /// The number, which rises from manifest to manifest (RFC 9286 4.2.1).
    pub manifest_number: Serial,
    /// When the manifest was issued.
    pub this_update: Time,
    /// When the next manifest is issued at the latest.
    pub next_update: Time,
    /// The files. Nothing follows their octets.
    pub files: FilesView<'a>,
}

/// The list of files, which is the whole rest.
fn read_list<'a>(rest: Constructed<'a>) -> Result<FilesView<'a>, DecodeError>
    ensures { ReadsList (left rest.entry) result }
{
    match inside(rest, Tag::SEQUENCE) {
        Ok(contents) => FilesView::of(contents.rest()),
        Err(error) => Err(error),
    }
}

/// The fields, which are the whole rest.
fn read_fields<'a>(contents: Constructed<'a>) -> Result<ManifestView<'a>, Malformed<ManifestPart>>
    ensures ok { IfOk result (λ v. (xs : List ListedFile) × AreFieldsAt (left contents.entry) v xs) }
    ensures err { IfErr result (λ q. AreFieldsWrong (left contents.entry) q) }
{
    let mut rest = contents;
    let manifest_number = match Serial::take_from(&mut rest) {
        Ok(number) => number,
        Err(error) => return Err(Malformed {
            part: ManifestPart::Number,
            error,
        }),
    };
    let this_update = match Time::take_generalized_from(&mut rest) {
        Ok(time) => time,
        Err(error) => return Err(Malformed {
            part: ManifestPart::ThisUpdate,
            error,
        }),
    };
    let next_update = match Time::take_generalized_from(&mut rest) {
        Ok(time) => time,
        Err(error) => return Err(Malformed {
            part: ManifestPart::NextUpdate,
            error,
        }),
    };
    match DigestAlgorithm::take_oid_from(&mut rest) {
        Ok(_) => {}
        Err(error) => return Err(Malformed {
            part: ManifestPart::HashAlgorithm,
            error,
        }),
    }
    match read_list(rest) {
        Ok(files) => Ok(ManifestView {
            manifest_number,
            this_update,
            next_update,
            files,
        }),
        Err(error) => Err(Malformed {
            part: ManifestPart::FileList,
            error,
        }),
    }
}

impl<'a> ManifestView<'a> {
    /// A manifest, and nothing else, as [ManifestContent::decode](crate::ManifestContent::decode) reads it, but that
    /// some of its files may have the same name: whether they do takes room for the names, as
    /// [FilesView::names_differ] has it. Allocates nothing.
    ///
    /// The error is of the malformed part, as a reader of that part returns it: the leftmost; then `Content`, where the
    /// next update is not after this update.
    pub fn read(octets: &'a [u8]) -> Result<ManifestView<'a>, Malformed<ManifestPart>>
        ensures ok { IfOk result (λ v. (xs : List ListedFile) × IsManifestAt octets.now v xs) }
        ensures err { IfErr result (λ q. IsManifestError octets.now q) }
    {
        let contents = match inside(Constructed::from_slice(octets), Tag::SEQUENCE) {
            Ok(contents) => contents,
            Err(error) => return Err(Malformed {
                part: ManifestPart::Manifest,
                error,
            }),
        };
        match read_fields(contents) {
            Ok(view) => {
                if view.next_update <= view.this_update {
                    let error = DecodeError::content("next update not after this update");
                    return Err(Malformed {
                        part: ManifestPart::Order,
                        error,
                    });
                }
                Ok(view)
            }
            Err(wrong) => Err(wrong),
        }
    }
}
