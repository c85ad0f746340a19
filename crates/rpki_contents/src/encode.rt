//! Manifests as they are written (RFC 9286 4.2).

ghost use Rattle.std.specs.Prelude.{◌≡◌, ◌≤◌, ◌<◌, ◌<ℤ◌, ◌^◌, ◌↔◌, false, IsTrue, IsSome, IfSome, IfNone, length};
ghost use Rattle.rpki_der.specs.Prelude.{ia5_string, bit_string, tlv};
ghost use Rattle.rpki_der.specs.Written.{Writes};
ghost use Rattle.rpki_contents.specs.Encoded.{file_octets, files_octets, CanWriteFile, CanWriteFiles, manifest_octets};
ghost use Rattle.rpki_x509.specs.MessageDigest.{hash_contents};
ghost use Rattle.rpki_contents.specs.Encoded.{front_octets, listing_octets, AreNamed, CanWriteManifest};
ghost use Rattle.rpki_contents.specs.Encoded.{IsManifestReadBack, IsShortManifest};
ghost use Rattle.rpki_contents.specs.FileName.{is_file_name};
ghost use Rattle.rpki_contents.specs.Manifest.{AreInOrder};
ghost use Rattle.rpki.specs.Digest.{SpellsDigestName, digest_name_octets};
ghost use Rattle.rpki_time.specs.Time.{cut, IsTimeYear};

use crate::file_and_hash::FileAndHash;
use crate::manifest::ManifestContent;
use rpki::crypto::DigestAlgorithm;
use rpki::der::{ConstOid, Primitive, PrimitiveContent, Sequence, Tag, Values, write_whole};
use rpki::repository::x509::{GeneralizedTime, Serial};
use std::io;
use std::io::Write;
use std::marker::Model;

/// The name of a file as the contents of an IA5String.
#[derive(Clone, Copy)]
pub struct FileNameContent<'a> {
    file: &'a FileAndHash,
}

impl<'a> PrimitiveContent for FileNameContent<'a> {
    ghost use Rattle.rpki_der.specs.TagName.{ia5_string};

    ghost plain = { ia5_string };

    const TAG: Tag = Tag::IA5_STRING;

    ghost contents = { λ x. x.file.now.0 };

    fn encoded_len(&self) -> u64 {
        self.file.file().len() as u64
    }

    #[tactic(auto, using(rpki_der::proofs::WritingLaws::writes_of_cut))]
    fn write_encoded<W: Write>(&self, out: &mut W) -> Result<(), io::Error> {
        write_whole(out, self.file.file())
    }

    fn plain_tag(&self) -> Tag {
        Self::TAG
    }
}

/// An encoder for the parts of a file: its name and its digest.
#[derive(Drop)]
pub struct FileParts<'a> {
    file: &'a FileAndHash,
}

impl<'a> Model for FileParts<'a> {
    ghost use Rattle.rpki_contents.specs.ListedFile.{ListedFile};
    ghost use Rattle.rpki_contents.specs.Encoded.{CanWriteFile};

    ghost Value = { ListedFile };

    ghost view = { λ x. x.file.now };

    ghost invariant = { λ x. CanWriteFile x.file.now };
}

/// An encoder for the name of a file.
fn encode_name(file: &FileAndHash) -> Primitive<FileNameContent<'_>>
    requires { CanWriteFile file.now }
    ensures octets { ⟦<Primitive<FileNameContent<'static>> as Values>⟧.encoded result
        ≡ tlv ia5_string false file.now.0 }
    ensures short { ⟦<Primitive<FileNameContent<'static>> as Values>⟧.is_short result }
{
    FileNameContent { file }.encode()
}

/// How many octets the name has as it is written.
fn name_len(file: &FileAndHash) -> u64
    requires { CanWriteFile file.now }
    ensures { result ≡ length (tlv ia5_string false file.now.0) }
{
    encode_name(file).encoded_len()
}

/// Writes the name.
fn write_name<W: Write>(out: &mut W, file: &FileAndHash) -> Result<(), io::Error>
    requires { CanWriteFile file.now }
    ensures { Writes (W.contents out.old) (W.contents out.new) result (tlv ia5_string false file.now.0) }
{
    encode_name(file).write_encoded(out)
}

/// Writes the digest.
fn write_hash<W: Write>(out: &mut W, file: &FileAndHash) -> Result<(), io::Error>
    requires { CanWriteFile file.now }
    ensures { Writes (W.contents out.old) (W.contents out.new) result
        (tlv bit_string false (hash_contents file.now.1)) }
{
    file.hash().encode_bits().write_encoded(out)
}

/// The name and the digest.
impl<'a> Values for FileParts<'a> {
    ghost use Rattle.std.specs.Prelude.{refl};
    ghost use Rattle.rpki_der.specs.Members.{IsValueList};
    ghost use Rattle.rpki_der.specs.Tree.Tree.{Captured};
    ghost use Rattle.rpki_der.specs.TreeLaws.{as_it_is};
    ghost use Rattle.rpki_contents.specs.Encoded.{file_contents};

    ghost tree = { λ x. Captured (file_contents x) };

    ghost encoded = { file_contents };

    ghost is_short = { λ x. IsValueList (file_contents x) };

    ghost spelled = { λ _. refl };

    ghost measured = { λ _. as_it_is };

    ghost are_values = { λ x h. h };

    fn fits(&self) -> bool {
        let _ = &self.file;
        true
    }

    fn count(&self) -> u64 {
        let _ = &self.file;
        2
    }

    fn encoded_len(&self) -> u64 {
        name_len(self.file) + self.file.hash().encode_bits().encoded_len()
    }

    fn write_encoded<W: Write>(&self, out: &mut W) -> Result<(), io::Error> {
        write_name(out, self.file)?;
        write_hash(out, self.file)
    }
}

/// An encoder for a file.
fn encode_file(file: &FileAndHash) -> Sequence<FileParts<'_>>
    requires { CanWriteFile file.now }
    ensures octets { ⟦<Sequence<FileParts<'static>> as Values>⟧.encoded result ≡ file_octets file.now }
    ensures short { ⟦<Sequence<FileParts<'static>> as Values>⟧.is_short result }
{
    Sequence::new(FileParts { file })
}

/// Whether a length announces each part of the file: whether its name has fewer than 2^31 octets.
fn can_write_file(file: &FileAndHash) -> bool
    ensures written { IsTrue result ↔ CanWriteFile file.now }
    ensures named { IsTrue result → IsTrue (is_file_name file.now.0) }
{
    let hash = file.hash();
    hash.as_slice().len() == 32 && file.file().len() < 1 << 31
}

/// Whether each of the files can be written.
fn can_write_files(files: &[FileAndHash]) -> bool
    ensures written { IsTrue result ↔ CanWriteFiles files.now }
    ensures named { IsTrue result → AreNamed files.now }
{
    let mut rest = files;
    'each: while let Some((first, following)) = rest.split_first() {
        if !can_write_file(first) {
            return false;
        }
        rest = following;
    }
    true
}

/// How many octets the file has as it is written.
fn file_len(file: &FileAndHash) -> u64
    requires { CanWriteFile file.now }
    ensures { result ≡ length (file_octets file.now) }
{
    encode_file(file).encoded_len()
}

/// How many octets the files have as they are written; None where they are 2^63 or more.
fn files_len(files: &[FileAndHash]) -> Option<u64>
    requires { CanWriteFiles files.now }
    ensures some { IfSome result (λ n. (n ≡ length (files_octets files.now)) × (n < 2 ^ 63)) }
    ensures none { IfNone result (2 ^ 63 ≤ length (files_octets files.now)) }
{
    let mut total: u64 = 0;
    let mut rest = files;
    'each: while let Some((first, following)) = rest.split_first() {
        total += file_len(first);
        if total >= 1 << 63 {
            return None;
        }
        rest = following;
    }
    Some(total)
}

/// Writes the files, in sequence.
fn write_files<W: Write>(out: &mut W, files: &[FileAndHash]) -> Result<(), io::Error>
    requires { CanWriteFiles files.now }
    ensures { Writes (W.contents out.old) (W.contents out.new) result (files_octets files.now) }
{
    let mut rest = files;
    'each: while let Some((first, following)) = rest.split_first() {
        encode_file(first).write_encoded(out)?;
        rest = following;
    }
    Ok(())
}

/// An encoder for files, in sequence; it borrows them. It allocates nothing.
#[derive(Drop)]
pub struct FilesEncoder<'a> {
    files: &'a [FileAndHash],
}

impl<'a> Model for FilesEncoder<'a> {
    ghost use Rattle.std.specs.Prelude.{List};
    ghost use Rattle.rpki_contents.specs.ListedFile.{ListedFile};
    ghost use Rattle.rpki_contents.specs.Encoded.{CanWriteFiles};

    ghost Value = { List ListedFile };

    ghost view = { λ x. x.files.now };

    ghost invariant = { λ x. CanWriteFiles x.files.now };
}

impl<'a> FilesEncoder<'a> {
    /// The encoder for these files; None where a name has 2^31 octets or more.
    pub fn new(files: &'a [FileAndHash]) -> Option<FilesEncoder<'a>>
        ensures some { IsSome result ↔ CanWriteFiles files.now }
        ensures value { IfSome result (λ x. x ≡ files.now) }
        ensures short { IfSome result (λ x. ⟦<FilesEncoder<'static> as Values>⟧.is_short x) }
        ensures named { IfSome result (λ _. AreNamed files.now) }
    {
        if can_write_files(files) {
            Some(FilesEncoder { files })
        } else {
            None
        }
    }
}

/// The files, in sequence.
impl<'a> Values for FilesEncoder<'a> {
    ghost use Rattle.std.specs.Prelude.{refl};
    ghost use Rattle.rpki_der.specs.Members.{IsValueList};
    ghost use Rattle.rpki_der.specs.Tree.Tree.{Captured};
    ghost use Rattle.rpki_der.specs.TreeLaws.{as_it_is};
    ghost use Rattle.rpki_contents.specs.Encoded.{files_octets};

    ghost tree = { λ x. Captured (files_octets x) };

    ghost encoded = { files_octets };

    ghost is_short = { λ x. IsValueList (files_octets x) };

    ghost spelled = { λ _. refl };

    ghost measured = { λ _. as_it_is };

    ghost are_values = { λ x h. h };

    fn fits(&self) -> bool {
        match files_len(self.files) {
            Some(_) => true,
            None => false,
        }
    }

    fn count(&self) -> u64 {
        self.files.len() as u64
    }

    fn encoded_len(&self) -> u64 {
        match files_len(self.files) {
            Some(length) => length,
            None => 0,
        }
    }

    fn write_encoded<W: Write>(&self, out: &mut W) -> Result<(), io::Error> {
        write_files(out, self.files)
    }
}

/// An encoder for the number and the times of a manifest.
type Front = (
    Primitive<Serial>,
    Primitive<GeneralizedTime>,
    Primitive<GeneralizedTime>,
);

/// An encoder for the rest of a manifest: the identifier of the algorithm of digests, and the files.
type Listing<'a> = (Primitive<ConstOid>, Sequence<FilesEncoder<'a>>);

/// An encoder for a manifest; it borrows the files.
pub type ManifestEncoder<'a> = Sequence<(Front, Listing<'a>)>;

/// An encoder for the rest of the manifest that lists these files.
#[tactic(auto, unfolding(crate::specs::Encoded::listing_octets))]
fn encode_listing(files: FilesEncoder<'_>) -> Listing<'_>
    requires { ⟦<FilesEncoder<'static> as Values>⟧.is_short files }
    ensures octets { ⟦<Listing<'static> as Values>⟧.encoded result ≡ listing_octets files.entry }
    ensures short { length (files_octets files.entry) < 2 ^ 32 → ⟦<Listing<'static> as Values>⟧.is_short result }
    ensures algorithm { SpellsDigestName tt digest_name_octets }
{
    let algorithm = DigestAlgorithm::sha256().encode_oid();
    (algorithm, Sequence::new(files))
}

/// Whether the first number is less.
fn is_less(first: i64, second: i64) -> bool
    ensures { IsTrue result ↔ (first <ℤ second) }
{
    first < second
}

impl ManifestContent {
    /// An encoder for the manifest, whose version is left out. Times are written without parts of a second (X.690
    /// 11.7). It borrows the files, and allocates nothing.
    ///
    /// Returns None where a name of a file has 2^31 octets or more, and where both times are in one second: the next
    /// update wouldn't be after this one as they are written. The encoder fits exactly where the contents of the
    /// manifest have fewer than 2^32 octets.
    pub fn encode(&self) -> Option<ManifestEncoder<'_>>
        ensures some { IsSome result ↔ CanWriteManifest self.now }
        ensures octets { IfSome result (λ x. ⟦<ManifestEncoder<'static> as Values>⟧.encoded x
            ≡ manifest_octets self.now) }
        ensures short { IfSome result (λ x. ⟦<ManifestEncoder<'static> as Values>⟧.is_short x
            ↔ IsShortManifest self.now) }
        // What is written is read as this manifest, whose times have no parts of a second.
        ensures read_back { CanWriteManifest self.now → IsShortManifest self.now → IsManifestReadBack self.now }
    {
        if !self.is_written_in_order() {
            return None;
        }
        match FilesEncoder::new(self.file_list()) {
            Some(files) => Some(Sequence::new((self.encode_front(), encode_listing(files)))),
            None => None,
        }
    }

    /// Whether the next update is after this one as they are written, without parts of a second.
    fn is_written_in_order(&self) -> bool
        ensures { IsTrue result ↔ AreInOrder (cut self.now.this_update) (cut self.now.next_update) }
    {
        is_less(
            self.this_update().to_binary_time(),
            self.next_update().to_binary_time(),
        )
    }

    /// An encoder for the number and the times.
    #[tactic(auto, unfolding(crate::specs::Encoded::front_octets))]
    fn encode_front(&self) -> Front
        ensures octets { ⟦<Front as Values>⟧.encoded result
            ≡ front_octets self.now.number self.now.this_update self.now.next_update }
        ensures short { ⟦<Front as Values>⟧.is_short result }
        ensures number { self.now.number < 2 ^ 159 }
        ensures this_year { IsTimeYear self.now.this_update.date.year }
        ensures next_year { IsTimeYear self.now.next_update.date.year }
    {
        // their clauses say which numbers and years there are
        let _ = self.manifest_number().into_array();
        let _ = self.this_update().year();
        let _ = self.next_update().year();
        (
            self.manifest_number().encode(),
            self.this_update().encode_generalized_time(),
            self.next_update().encode_generalized_time(),
        )
    }
}
