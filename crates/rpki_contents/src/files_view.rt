//! The files of a manifest in place: octets that were read once, and a cursor over the files in them.

ghost use Rattle.std.specs.Prelude.{◌≡◌, ◌↔◌, ◌≤◌, ◌<◌, IsTrue, IfSome, IfOk, IfErr, List, length};
ghost use Rattle.rpki_contents.specs.ListedFile.{ListedFile, AreDistinct};
ghost use Rattle.rpki_contents.specs.FilesInPlace.{AreFiles, AreNoFiles, HoldFiles};
ghost use Rattle.rpki_contents.specs.ManifestView.{GivesFile};

use crate::file_view::FileView;
use crate::files::count_files;
use crate::names::differ;
use rpki::der::{Constructed, DecodeError};
use std::marker::Model;

/// Files that a manifest lists, in place: octets that were read, and how many files they are.
#[derive(Drop)]
pub struct FilesView<'a> {
    octets: &'a [u8],
    count: usize,
}

impl<'a> Model for FilesView<'a> {
    ghost use Rattle.std.specs.Prelude.{List};
    ghost use Rattle.rpki_contents.specs.ListedFile.{ListedFile};
    ghost use Rattle.rpki_contents.specs.FilesInPlace.{FileOctets, HoldFiles, octets_of};

    ghost Value = { FileOctets };

    ghost view = { λ x. octets_of x.octets.now x.count };

    ghost invariant = { λ x. (xs : List ListedFile) × HoldFiles (octets_of x.octets.now x.count) xs };
}

/// The files that a [FilesView] has yet to give, in order.
#[derive(Drop)]
pub struct FileCursor<'a> {
    rest: Constructed<'a>,
}

impl<'a> Model for FileCursor<'a> {
    ghost use Rattle.std.specs.Prelude.{ℕ, List};
    ghost use Rattle.rpki_der.specs.Cursor.{left};
    ghost use Rattle.rpki_contents.specs.ListedFile.{ListedFile};
    ghost use Rattle.rpki_contents.specs.FilesInPlace.{AreFiles};

    ghost Value = { List ℕ };

    ghost view = { λ x. left x.rest };

    ghost invariant = { λ x. (xs : List ListedFile) × AreFiles xs (left x.rest) };
}

impl<'a> FilesView<'a> {
    /// The files that these octets are.
    ///
    /// The error is that of the first that isn't there.
    pub(crate) fn of(octets: &'a [u8]) -> Result<FilesView<'a>, DecodeError>
        ensures ok { IfOk result (λ v. (v.octets ≡ octets.now) × (xs : List ListedFile) × HoldFiles v xs) }
        ensures err { IfErr result (λ e. AreNoFiles octets.now e) }
    {
        match count_files(octets) {
            Ok(count) => Ok(FilesView { octets, count }),
            Err(e) => Err(e),
        }
    }

    /// How many files there are.
    pub fn count(&self) -> usize
        ensures { result ≡ self.now.count }
    {
        self.count
    }

    /// The octets of the files: the contents of their SEQUENCE.
    pub fn octets(&self) -> &'a [u8]
        ensures { result.now ≡ self.now.octets }
    {
        self.octets
    }

    /// A cursor over the files, in order.
    pub fn files(&self) -> FileCursor<'a>
        ensures files { result ≡ self.now.octets }
        ensures held { (xs : List ListedFile) × HoldFiles self.now xs }
    {
        FileCursor {
            rest: Constructed::from_slice(self.octets),
        }
    }

    /// Whether no two files have the same name, in n log n steps for n files. The names are sorted in the room that is
    /// handed in. Allocates nothing.
    ///
    /// Requires that there is room for as many names as there are files.
    pub fn names_differ(&self, room: &mut [&'a [u8]]) -> bool
        requires { self.now.count ≤ length room.old }
        ensures { (xs : List ListedFile) → HoldFiles self.now xs → IsTrue result ↔ AreDistinct xs }
    {
        let mut cursor = self.files();
        let mut count = 0;
        'names: while let Some(file) = cursor.next_file() {
            room[count] = file.name;
            count += 1;
        }
        differ(&mut room[..count])
    }
}

impl<'a> FileCursor<'a> {
    /// The next file; None where none remains. Allocates nothing.
    pub fn next_file(&mut self) -> Option<FileView<'a>>
        ensures given { (xs : List ListedFile) → AreFiles xs self.old → GivesFile xs result self.new }
        ensures shorter { IfSome result (λ _. length self.new < length self.old) }
    {
        if self.rest.is_empty() {
            return None;
        }
        let mut rest = self.rest;
        match FileView::take_from(&mut rest) {
            Ok(file) => {
                self.rest = rest;
                Some(file)
            }
            Err(_) => None,
        }
    }
}
