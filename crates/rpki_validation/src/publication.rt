//! What is where an authority publishes: its manifest, and its revocation list (RFC 9286 6.2 to 6.5).

ghost use Rattle.std.specs.Prelude.{◌≡◌, IfOk};
ghost use Rattle.std.specs.Option.{option_copied};
ghost use Rattle.rpki_text.specs.RsyncText.{uri_of, joined_uri};
ghost use Rattle.rpki_validation.specs.Finding.{Finds};
ghost use Rattle.rpki_validation.specs.Publication.{HasRepository, HasManifest, IsNoRepository, IsNoManifestPlace};
ghost use Rattle.rpki_validation.specs.Publication.{is_list, list_file, IsFileUri, IsNoFileUri};
ghost use Rattle.rpki_validation.specs.Steps.{FindsManifest, FindsFile, FindsList, FindsPublication};

use crate::reason::Reason;
use crate::snapshot::Snapshot;
use crate::stop::Stop;
use bytes::Bytes;
use rpki::crypto::Provider;
use rpki::uri::{Error, Rsync};
use rpki_cert::TbsCert;
use rpki_contents::FileAndHash;
use rpki_crl::Crl;
use rpki_objects::Manifest;
use rpki_rsa::PreparingProvider;
use rpki_valid::{ResourceCert, verify_file};
use std::alloc::Global;
use std::marker::Model;

/// What is where an authority publishes: its manifest, and its revocation list. Nothing of it is verified.
#[derive(Drop)]
pub struct Publication {
    folder: Rsync,
    manifest: Manifest,
    list: Crl,
}

impl Model for Publication {
    ghost use Rattle.rpki_validation.specs.Publication.{PublicationParts, publication};

    ghost Value = { PublicationParts };

    ghost view = { λ x. publication x.folder x.manifest x.list };
}

/// The folder of the subject.
pub(crate) fn repository_of(alloc: Global, tbs: &TbsCert) -> Result<Rsync, Stop>
    ensures { Finds (λ x. x) (HasRepository tbs.now) (IsNoRepository tbs.now) result }
{
    match tbs.ca_repository(alloc)? {
        Some(uri) => Ok(uri),
        None => Err(Stop::Rejected(Reason::NoRepository)),
    }
}

/// Where the manifest of the subject is.
pub(crate) fn manifest_place(alloc: Global, tbs: &TbsCert) -> Result<Rsync, Stop>
    ensures { Finds (λ x. x) (HasManifest tbs.now) (IsNoManifestPlace tbs.now) result }
{
    match tbs.rpki_manifest(alloc)? {
        Some(uri) => Ok(uri),
        None => Err(Stop::Rejected(Reason::NoManifest)),
    }
}

/// The manifest that is at the URI.
pub(crate) fn manifest_at<S: Snapshot>(
    alloc: Global,
    snapshot: &S,
    uri: &Rsync,
    strict: bool,
) -> Result<Manifest, Stop>
    ensures { FindsManifest (S.holds snapshot.now) strict (uri_of uri.now) result }
{
    match snapshot.object(alloc, uri)? {
        Some(octets) => {
            let manifest = Manifest::decode(alloc, octets, strict)?;
            Ok(manifest)
        }
        None => Err(Stop::Rejected(Reason::Missing)),
    }
}

/// Whether the file is a revocation list by its name (RFC 6481 2.2).
fn is_list(file: &FileAndHash) -> bool
    ensures { result ≡ is_list file.now }
{
    file.file().ends_with(b".crl")
}

/// The one file that is a revocation list by its name; None where there is none, or more than one.
pub(crate) fn list_file(files: &[FileAndHash]) -> Option<&FileAndHash>
    ensures { option_copied result ≡ list_file files.entry.now }
{
    let mut found = None;
    let mut rest = files;
    'files: while let Some((file, following)) = rest.split_first() {
        if is_list(file) {
            if found.is_some() {
                return None;
            }
            found = Some(file);
        }
        rest = following;
    }
    found
}

/// The URI of the file in the folder.
pub(crate) fn file_uri(alloc: Global, folder: &Rsync, file: &FileAndHash) -> Result<Rsync, Stop>
    ensures exactly { Finds (λ x. x) (IsFileUri folder.now file.now) (IsNoFileUri folder.now file.now) result }
    ensures meaning { IfOk result (λ uri. uri_of uri ≡ joined_uri (uri_of folder.now) file.now.0) }
{
    match folder.join(alloc, file.file()) {
        Ok(uri) => Ok(uri),
        Err(Error::OutOfMemory) => Err(Stop::OutOfMemory),
        Err(_) => Err(Stop::Rejected(Reason::LongUri)),
    }
}

/// The octets of the file, which are in the folder (RFC 9286 6.4, 6.5).
pub(crate) fn file_octets<S: Snapshot, P: Provider>(
    alloc: Global,
    snapshot: &S,
    provider: &P,
    folder: &Rsync,
    file: &FileAndHash,
) -> Result<Bytes, Stop>
    ensures { FindsFile (S.holds snapshot.now) (P.sha256_of provider.now) folder.now file.now result }
{
    let uri = file_uri(alloc, folder, file)?;
    match snapshot.object(alloc, &uri)? {
        Some(octets) => {
            if verify_file(file, provider, octets.as_slice()) {
                return Ok(octets);
            }
            Err(Stop::Rejected(Reason::OtherFile(uri)))
        }
        None => Err(Stop::Rejected(Reason::MissingFile(uri))),
    }
}

/// The revocation list of a manifest with these files.
fn list_on<S: Snapshot, P: Provider>(
    alloc: Global,
    snapshot: &S,
    provider: &P,
    folder: &Rsync,
    files: &[FileAndHash],
) -> Result<Crl, Stop>
    ensures { FindsList (S.holds snapshot.now) (P.sha256_of provider.now) folder.now files.now result }
{
    match list_file(files) {
        Some(file) => {
            let octets = file_octets(alloc, snapshot, provider, folder, file)?;
            let mut list = Crl::decode(alloc, octets)?;
            list.cache_serials(alloc)?;
            Ok(list)
        }
        None => Err(Stop::Rejected(Reason::NoList)),
    }
}

impl Publication {
    /// What is in the snapshot where the authority publishes (RFC 6487 4.8.8.1). Nothing of it is verified.
    ///
    /// The errors are `NoRepository`; `NoManifest`; `Missing`, or `Malformed` of the manifest; `NoList`; `LongUri`,
    /// `MissingFile` or `OtherFile` of the revocation list, or `Malformed` of it; or `OutOfMemory` if allocation fails.
    pub fn of<'p, S: Snapshot, P: PreparingProvider>(
        alloc: Global,
        snapshot: &S,
        issuer: &ResourceCert<'p, P>,
    ) -> Result<Publication, Stop>
        ensures { FindsPublication (S.holds snapshot.now) (P.sha256_of issuer.now.provider)
            issuer.now.terms.strictness.attributes issuer.now.cert.tbs result }
    {
        let tbs = issuer.cert().tbs();
        let folder = repository_of(alloc, tbs)?;
        let place = manifest_place(alloc, tbs)?;
        let manifest = manifest_at(alloc, snapshot, &place, issuer.strictness().attributes)?;
        let files = manifest.content().file_list();
        let list = list_on(alloc, snapshot, issuer.provider(), &folder, files)?;
        Ok(Publication {
            folder,
            manifest,
            list,
        })
    }

    /// The folder.
    pub fn folder(&self) -> &Rsync
        ensures { result.now ≡ self.now.folder }
    {
        &self.folder
    }

    /// The manifest.
    pub fn manifest(&self) -> &Manifest
        ensures { result.now ≡ self.now.manifest }
    {
        &self.manifest
    }

    /// The revocation list.
    pub fn list(&self) -> &Crl
        ensures { result.now ≡ self.now.list }
    {
        &self.list
    }
}
