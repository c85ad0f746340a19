//! Publication points: what an authority publishes, where all of it holds at the moment (RFC 9286 6).

ghost use Rattle.std.specs.Prelude.{◌≡◌, IfOk};
ghost use Rattle.rpki_time.specs.Validity.{HoldsAt};
ghost use Rattle.rpki_valid.specs.CrlIssued.{in_force};
ghost use Rattle.rpki_validation.specs.Basis.{basis_of, holder_of};
ghost use Rattle.rpki_validation.specs.Point.{VerifiesPublication};
ghost use Rattle.rpki_validation.specs.Steps.{FindsFiles};

use crate::list_name::names_its_list;
use crate::publication::{Publication, file_octets};
use crate::reason::Reason;
use crate::snapshot::Snapshot;
use crate::stop::Stop;
use bytes::Bytes;
use rpki::crypto::Provider;
use rpki::repository::x509::Time;
use rpki::uri::Rsync;
use rpki_contents::FileAndHash;
use rpki_rsa::PreparingProvider;
use rpki_valid::{CurrentCrl, ResourceCert, Staleness, unverified};
use std::alloc::Global;

/// Tests that the authority has issued the revocation list and the manifest, and that both hold at the moment: the list
/// was issued by the moment, and the next was not due (RFC 5280 6.3.3); the manifest isn't revoked, is valid, keeps its
/// rules (RFC 9286 5.1, 6.3), and its certificate names the list (RFC 6487 4.8.6). Returns the list, which verifies
/// what the authority has issued. Requires that all of the authority's path is valid at the moment, as its period
/// tells.
///
/// The errors are `Invalid` of those of [ResourceCert::crl](rpki_valid::ResourceCert::crl); then of those of
/// [CurrentCrl::process_manifest](rpki_valid::CurrentCrl::process_manifest); then `Verification` with the text `RFC
/// 6487 4.8.6: another revocation list is named`; or `OutOfMemory` if allocation fails.
pub fn verify_publication<'a, 'p, P: PreparingProvider>(
    alloc: Global,
    issuer: &'a ResourceCert<'p, P>,
    publication: &'a Publication,
    at: Time,
) -> Result<CurrentCrl<'a, 'p, P>, Stop>
    requires { HoldsAt issuer.now.period at }
    ensures exactly { VerifiesPublication (basis_of P.Provider issuer.entry.now at) (holder_of issuer.entry.now)
        publication.entry.now result }
    ensures list { IfOk result (λ c. c ≡ in_force issuer.entry.now publication.entry.now.list Staleness.Refused at) }
{
    let current = issuer.crl(publication.list(), Staleness::Refused, at)?;
    current.process_manifest(alloc, publication.manifest())?;
    if names_its_list(alloc, publication)? {
        return Ok(current);
    }
    let other = unverified("RFC 6487 4.8.6: another revocation list is named");
    Err(Stop::Rejected(Reason::Invalid(other)))
}

/// The octets of the files of a manifest, which are in the folder, in their order (RFC 9286 6.4, 6.5).
///
/// The error is that of the first that isn't there: `LongUri`, `MissingFile` or `OtherFile`; or `OutOfMemory` if
/// allocation fails.
pub fn files_of<S: Snapshot, P: Provider>(
    alloc: Global,
    snapshot: &S,
    provider: &P,
    folder: &Rsync,
    files: &[FileAndHash],
) -> Result<Vec<Bytes>, Stop>
    ensures { FindsFiles (S.holds snapshot.now) (P.sha256_of provider.now) (λ v. v.items) folder.now files.now result }
{
    let mut all = Vec::new(alloc);
    let mut rest = files;
    'files: while let Some((file, following)) = rest.split_first() {
        let octets = file_octets(alloc, snapshot, provider, folder, file)?;
        all.push(octets)?;
        rest = following;
    }
    Ok(all)
}
