//! Authorities that were met.

ghost use Rattle.std.specs.Prelude.{◌≡◌, [], IfOk};
ghost use Rattle.rpki_valid.specs.Verified.{IsVerified, verified_by};
ghost use Rattle.rpki_validation.specs.Basis.{holder_of};
ghost use Rattle.rpki_validation.specs.Met.{format_number, kinds_of, mark_in};
ghost use Rattle.rpki_validation.specs.Met.{HasKeyMarks, HasMark, HasPlaceMark, InsertsMarkOf, InsertsPlaceOf};
ghost use Rattle.rpki_validation.specs.Met.{IsPlaceIn, IsUriIn};
ghost use Rattle.rpki_validation.specs.Publication.{place_text};

use crate::publication::{manifest_place, repository_of};
use crate::stop::Stop;
use bytes::Bytes;
use rpki::crypto::PublicKeyFormat;
use rpki::uri::Rsync;
use rpki_cert::TbsCert;
use rpki_resources::Blocks;
use rpki_rsa::PreparingProvider;
use rpki_valid::{ResourceCert, ResourceSet};
use std::alloc::{AllocError, Global};
use std::collections::BTreeSet;
use std::marker::Model;

/// Resources of the three kinds: addresses of IP version 4, of version 6, and AS numbers.
type Kinds = (Blocks, Blocks, Blocks);

/// What tells an authority apart: its name, its key's bits, the URIs of its folder and its manifest, numbers (the
/// algorithm of the key, and its count of unused bits), and its resources. Octets are compared, and no digests of them.
pub(crate) type Mark = (Bytes, Bytes, Option<Bytes>, Option<Bytes>, Vec<u128>, Kinds);

/// Authorities that were met.
#[derive(Drop)]
pub(crate) struct Met {
    marks: BTreeSet<Mark>,
}

impl Model for Met {
    ghost use Rattle.std.specs.Prelude.{List};
    ghost use Rattle.rpki_validation.specs.Met.{Mark, marks_of};

    ghost Value = { List Mark };

    ghost view = { λ x. marks_of (λ v. v.items) x.marks };
}

/// The resources, whose blocks are shared.
fn kinds_of(alloc: Global, resources: &ResourceSet) -> Result<Kinds, AllocError>
    ensures { IfOk result (λ kinds. kinds ≡ kinds_of resources.now) }
{
    let ipv4 = resources.ipv4.clone(alloc)?;
    let ipv6 = resources.ipv6.clone(alloc)?;
    let asn = resources.asn.clone(alloc)?;
    Ok((ipv4, ipv6, asn))
}

/// The number of a key's algorithm.
fn format_number(format: PublicKeyFormat) -> u128
    ensures { result ≡ format_number format }
{
    match format {
        PublicKeyFormat::Rsa => 0,
        PublicKeyFormat::EcdsaP256 => 1,
    }
}

/// The octets of the URI; None where there is none.
fn uri_in(found: Result<Rsync, Stop>) -> Result<Option<Bytes>, AllocError>
    ensures { IfOk result (IsUriIn found) }
{
    match found {
        Ok(uri) => {
            let octets = uri.to_bytes()?;
            Ok(Some(octets))
        }
        Err(Stop::Rejected(_)) => Ok(None),
        Err(Stop::OutOfMemory) => Err(AllocError),
    }
}

/// The octets of the URI, its scheme and its authority in lower case: URIs that are one place have the same (RFC 5781
/// 2).
fn place_text(alloc: Global, uri: &Rsync) -> Result<Bytes, AllocError>
    ensures { IfOk result (λ text. text ≡ place_text uri.now) }
{
    let module = uri.canonical_module(alloc)?;
    let mut text = Vec::from_slice(alloc, module.as_str().as_bytes())?;
    text.extend_from_slice(uri.path_bytes())?;
    let octets = Bytes::from_vec(text)?;
    Ok(octets)
}

/// The place of the URI; None where there is none.
fn place_in(alloc: Global, found: Result<Rsync, Stop>) -> Result<Option<Bytes>, AllocError>
    ensures { IfOk result (IsPlaceIn found) }
{
    match found {
        Ok(uri) => {
            let text = place_text(alloc, &uri)?;
            Ok(Some(text))
        }
        Err(Stop::Rejected(_)) => Ok(None),
        Err(Stop::OutOfMemory) => Err(AllocError),
    }
}

/// What tells the subject's key apart: its name, the key's bits, and as numbers the algorithm of the key and its count
/// of unused bits.
fn key_marks(alloc: Global, tbs: &TbsCert) -> Result<(Bytes, Bytes, Vec<u128>), AllocError>
    ensures { IfOk result (λ k. HasKeyMarks tbs.now k.0 k.1 k.2.items) }
{
    let name = Bytes::copy_from_slice(alloc, tbs.subject().as_slice())?;
    let key = tbs.subject_public_key_info();
    let bits = key.bits_bytes()?;
    let mut numbers = Vec::new(alloc);
    numbers.push(format_number(key.algorithm()))?;
    numbers.push(u128::from(key.unused()))?;
    Ok((name, bits, numbers))
}

/// The mark of where the authority publishes, which is without its resources.
fn place_mark_of<'p, P: PreparingProvider>(
    alloc: Global,
    authority: &ResourceCert<'p, P>,
) -> Result<Mark, AllocError>
    ensures { IfOk result (λ k. HasPlaceMark (holder_of authority.now) (mark_in (λ v. v.items) k)) }
{
    let tbs = authority.cert().tbs();
    let (name, bits, numbers) = key_marks(alloc, tbs)?;
    let folder = place_in(alloc, repository_of(alloc, tbs))?;
    let manifest = place_in(alloc, manifest_place(alloc, tbs))?;
    let none = (
        Blocks::empty(alloc),
        Blocks::empty(alloc),
        Blocks::empty(alloc),
    );
    Ok((name, bits, folder, manifest, numbers, none))
}

/// The mark of the authority.
pub(crate) fn mark_of<'p, P: PreparingProvider>(
    alloc: Global,
    authority: &ResourceCert<'p, P>,
) -> Result<Mark, AllocError>
    ensures mark { IfOk result (λ k. HasMark (holder_of authority.now) (mark_in (λ v. v.items) k)) }
    // It was verified.
    ensures verified { IfOk result (λ _. IsVerified (verified_by P.Provider authority.now)) }
{
    let tbs = authority.cert().tbs();
    let (name, bits, numbers) = key_marks(alloc, tbs)?;
    let folder = uri_in(repository_of(alloc, tbs))?;
    let manifest = uri_in(manifest_place(alloc, tbs))?;
    let resources = kinds_of(alloc, authority.resources())?;
    Ok((name, bits, folder, manifest, numbers, resources))
}

impl Met {
    /// None.
    pub(crate) fn new(alloc: Global) -> Met
        ensures { result ≡ [] }
    {
        Met {
            marks: BTreeSet::new(alloc),
        }
    }

    /// Adds the mark of the authority; returns whether it was not among them.
    ///
    /// Returns `AllocError` if allocation fails.
    pub(crate) fn insert<'p, P: PreparingProvider>(
        &mut self,
        alloc: Global,
        authority: &ResourceCert<'p, P>,
    ) -> Result<bool, AllocError>
        ensures inserted { IfOk result (InsertsMarkOf self.old self.new (holder_of authority.now)) }
        // It was verified.
        ensures verified { IfOk result (λ _. IsVerified (verified_by P.Provider authority.now)) }
    {
        let mark = mark_of(alloc, authority)?;
        let is_new = self.marks.insert(mark)?;
        Ok(is_new)
    }

    /// Adds the mark of where the authority publishes; returns whether it was not among them.
    ///
    /// Returns `AllocError` if allocation fails.
    pub(crate) fn insert_place<'p, P: PreparingProvider>(
        &mut self,
        alloc: Global,
        authority: &ResourceCert<'p, P>,
    ) -> Result<bool, AllocError>
        ensures { IfOk result (InsertsPlaceOf self.old self.new (holder_of authority.now)) }
    {
        let mark = place_mark_of(alloc, authority)?;
        let is_new = self.marks.insert(mark)?;
        Ok(is_new)
    }
}
