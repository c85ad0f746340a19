//! Where things are, as a certificate says (RFC 6487 4.8.6 to 4.8.8).

ghost use Rattle.std.specs.Prelude.{◌≡◌, IfOk, IfErr};
ghost use Rattle.std.specs.Option.{option_copied};
ghost use Rattle.rpki_cert.specs.Known.{crl_distribution_points, authority_info_access, subject_info_access};
ghost use Rattle.rpki_cert.specs.Access.{SpellsRsyncAccess, SpellsHttpsAccess, SpellsPoints, FindsUri, ca_issuers};
ghost use Rattle.rpki_cert.specs.Access.{ca_repository, rpki_manifest, signed_object, rpki_notify};
ghost use Rattle.rpki_cert.specs.AccessInformation.{SpellsUriOf};

use crate::extension::access_method::AccessMethod;
use crate::extension::accessors::{information_in, points_in, uri_in};
use crate::extension::source::find_kept;
use crate::tbs::TbsCert;
use rpki::der::{ConstOid, DecodeError};
use rpki::oid;
use rpki::repository::error::ValidationError;
use rpki::repository::x509::ExtensionOctets;
use rpki::uri::{Https, Rsync};
use std::alloc::Global;

/// The rsync URI of a text that was found, kept as a copy.
fn keep_rsync(alloc: Global, found: Option<&[u8]>) -> Result<Option<Rsync>, ValidationError>
    ensures ok { IfOk result (λ o. o ≡ option_copied found.entry) }
    ensures err { IfErr result (λ e. e ≡ ValidationError.Decoding DecodeError.OutOfMemory) }
{
    match found {
        Some(text) => match Rsync::from_slice(alloc, text) {
            Ok(uri) => Ok(Some(uri)),
            Err(_) => Err(ValidationError::Decoding(DecodeError::OutOfMemory)),
        },
        None => Ok(None),
    }
}

/// The https URI of a text that was found, kept as a copy.
fn keep_https(alloc: Global, found: Option<&[u8]>) -> Result<Option<Https>, ValidationError>
    ensures ok { IfOk result (λ o. o ≡ option_copied found.entry) }
    ensures err { IfErr result (λ e. e ≡ ValidationError.Decoding DecodeError.OutOfMemory) }
{
    match found {
        Some(text) => match Https::from_slice(alloc, text) {
            Ok(uri) => Ok(Some(uri)),
            Err(_) => Err(ValidationError::Decoding(DecodeError::OutOfMemory)),
        },
        None => Ok(None),
    }
}

/// The first rsync URI of this method, in the extension of this identifier.
fn rsync_at(
    alloc: Global,
    all: &[ExtensionOctets],
    id: ConstOid,
    method: AccessMethod,
) -> Result<Option<Rsync>, ValidationError>
    ensures { FindsUri id.entry.0.now (SpellsUriOf method) all.now result }
{
    let told = information_in(find_kept(all, id));
    let found = uri_in(&told, method)?;
    keep_rsync(alloc, found)
}

impl TbsCert {
    /// Where the revocation list is: the first rsync URI of the one CRL distribution point, which has a full name of
    /// URIs alone, and is not critical (RFC 6487 4.8.6).
    ///
    /// Returns `Inspection` if the extension is critical; `Decoding` if its octets are another value, or if allocation
    /// fails.
    pub fn crl_uri(&self, alloc: Global) -> Result<Option<Rsync>, ValidationError>
        ensures { FindsUri crl_distribution_points SpellsPoints self.now.extensions result }
    {
        let found = points_in(find_kept(self.extensions(), oid::CE_CRL_DISTRIBUTION_POINTS))?;
        keep_rsync(alloc, found)
    }

    /// Where the issuer's certificate is: the first rsync URI of the method `id-ad-caIssuers` in authority information
    /// access, which is not critical (RFC 6487 4.8.7).
    ///
    /// Returns `Inspection` if the extension is critical; `Decoding` if its octets are another value, or if allocation
    /// fails.
    pub fn ca_issuer(&self, alloc: Global) -> Result<Option<Rsync>, ValidationError>
        ensures { FindsUri authority_info_access (SpellsRsyncAccess ca_issuers) self.now.extensions result }
    {
        rsync_at(
            alloc,
            self.extensions(),
            oid::PE_AUTHORITY_INFO_ACCESS,
            AccessMethod::CaIssuers,
        )
    }

    /// Where the subject publishes: the first rsync URI of the method `id-ad-caRepository` in subject information
    /// access, which is not critical (RFC 6487 4.8.8.1).
    ///
    /// Returns `Inspection` if the extension is critical; `Decoding` if its octets are another value, or if allocation
    /// fails.
    pub fn ca_repository(&self, alloc: Global) -> Result<Option<Rsync>, ValidationError>
        ensures { FindsUri subject_info_access (SpellsRsyncAccess ca_repository) self.now.extensions result }
    {
        rsync_at(
            alloc,
            self.extensions(),
            oid::PE_SUBJECT_INFO_ACCESS,
            AccessMethod::CaRepository,
        )
    }

    /// Where the subject's manifest is: the first rsync URI of the method `id-ad-rpkiManifest` in subject information
    /// access, which is not critical (RFC 6487 4.8.8.1).
    ///
    /// Returns `Inspection` if the extension is critical; `Decoding` if its octets are another value, or if allocation
    /// fails.
    pub fn rpki_manifest(&self, alloc: Global) -> Result<Option<Rsync>, ValidationError>
        ensures { FindsUri subject_info_access (SpellsRsyncAccess rpki_manifest) self.now.extensions result }
    {
        rsync_at(
            alloc,
            self.extensions(),
            oid::PE_SUBJECT_INFO_ACCESS,
            AccessMethod::RpkiManifest,
        )
    }

    /// Where the object is that the subject's key signs: the first rsync URI of the method `id-ad-signedObject` in
    /// subject information access, which is not critical (RFC 6487 4.8.8.2).
    ///
    /// Returns `Inspection` if the extension is critical; `Decoding` if its octets are another value, or if allocation
    /// fails.
    pub fn signed_object(&self, alloc: Global) -> Result<Option<Rsync>, ValidationError>
        ensures { FindsUri subject_info_access (SpellsRsyncAccess signed_object) self.now.extensions result }
    {
        rsync_at(
            alloc,
            self.extensions(),
            oid::PE_SUBJECT_INFO_ACCESS,
            AccessMethod::SignedObject,
        )
    }

    /// Where changes are notified: the first https URI of the method `id-ad-rpkiNotify` in subject information access,
    /// which is not critical (RFC 8182 3.2).
    ///
    /// Returns `Inspection` if the extension is critical; `Decoding` if its octets are another value, or if allocation
    /// fails.
    pub fn rpki_notify(&self, alloc: Global) -> Result<Option<Https>, ValidationError>
        ensures { FindsUri subject_info_access (SpellsHttpsAccess rpki_notify) self.now.extensions result }
    {
        let told = information_in(find_kept(self.extensions(), oid::PE_SUBJECT_INFO_ACCESS));
        let found = uri_in(&told, AccessMethod::RpkiNotify)?;
        keep_https(alloc, found)
    }
}
