//! Whether manifests hold at a moment (RFC 9286 5.1, 6.3).

ghost use Rattle.std.specs.Prelude.{◌≡◌, ◌↔◌, ◌<ℤ◌, IfOk, IsTrue, IsOk, IsErrOf};
ghost use Rattle.jiff.specs.Words.{civil_nanos};
ghost use Rattle.rpki_time.specs.Validity.{HoldsAt};
ghost use Rattle.rpki_cert.specs.declared.profile.Profile.TheVariants.{Ee};
ghost use Rattle.rpki_cert.specs.RuleError.{ChecksBy};
ghost use Rattle.rpki_contents.specs.Manifest.{period_of};
ghost use Rattle.rpki_valid.specs.ObjectResources.{AreInherited};
ghost use Rattle.rpki_valid.specs.Processed.{ChecksRules, IsManifestOut, IsManifestCurrent};
ghost use Rattle.rpki_valid.specs.Processed.{KeepsManifestRules, BreaksManifestRules, ProcessesManifest};
ghost use Rattle.rpki_valid.specs.ResourceSet.{AreWithin};
ghost use Rattle.rpki_valid.specs.Valid.{HasReason};
ghost use Rattle.rpki_valid.specs.CrlIssued.{HasListedPath};
ghost use Rattle.rpki_valid.specs.ErrorTexts.{not_inherited_text, later_manifest_text, stale_manifest_text};

use crate::current_crl::CurrentCrl;
use crate::object_resources::verify_inherited;
use crate::resource::set::ResourceSet;
use crate::verify::unverified;
use rpki::crypto::Provider;
use rpki::repository::error::ValidationError;
use rpki::repository::x509::{Time, Validity, ValidityPeriodError};
use rpki_contents::{FileAndHash, ManifestContent, MessageDigest};
use rpki_objects::Manifest;
use rpki_rsa::PreparingProvider;
use std::alloc::Global;

/// Whether these are the octets of the file: whether their digest, computed by the provider, is that of the manifest
/// (RFC 9286 6.5).
pub fn verify_file<P: Provider>(file: &FileAndHash, provider: &P, octets: &[u8]) -> bool
    ensures { IsTrue result ↔ (P.sha256_of provider.now octets.now ≡ file.now.1) }
{
    MessageDigest::of(provider, octets) == file.hash()
}

/// Tests that the moment is within this update and the next, both included (RFC 9286 6.3).
///
/// Returns `TooNew` if the manifest was issued after the moment; else `TooOld` if it is stale.
pub fn verify_time(content: &ManifestContent, at: Time) -> Result<(), ValidityPeriodError>
    ensures ok { IsOk result ↔ HoldsAt (period_of content.now) at }
    ensures too_new { IsErrOf result ValidityPeriodError.TooNew
        ↔ (civil_nanos at <ℤ civil_nanos content.now.this_update) }
{
    Validity::new(content.this_update(), content.next_update()).verify_at(at)
}

/// The rule that the manifest was issued by the moment (RFC 9286 6.3).
fn verify_out(manifest: &Manifest, at: Time) -> Result<(), ValidationError>
    ensures { ChecksBy (IsManifestOut at manifest.now.content) (HasReason later_manifest_text) result }
{
    if manifest.content().this_update() <= at {
        return Ok(());
    }
    Err(unverified("RFC 9286 6.3: manifest issued later"))
}

/// The rule that the next manifest is not due before the moment (RFC 9286 6.3).
fn verify_current(manifest: &Manifest, at: Time) -> Result<(), ValidationError>
    ensures { ChecksBy (IsManifestCurrent at manifest.now.content) (HasReason stale_manifest_text) result }
{
    if at <= manifest.content().next_update() {
        return Ok(());
    }
    Err(unverified("RFC 9286 6.3: stale manifest"))
}

/// Tests the rule of manifests that needs neither issuer nor moment: all resources that the certificate names are
/// its issuer's (RFC 9286 5.1). Whether the object is signed, and its certificate is valid, is not looked at: see
/// [verify_object_signature](crate::verify_object_signature) and [CurrentCrl::process_manifest].
///
/// The error is `Verification` with the text `RFC 9286 5.1: resources that are not inherited`.
pub fn verify_own_manifest(manifest: &Manifest) -> Result<(), ValidationError>
    ensures { ChecksBy (AreInherited manifest.now.object.cert.tbs.extensions)
        (HasReason not_inherited_text) result }
{
    verify_inherited(manifest.object().cert().tbs())
}

/// The rules of manifests, in their order.
fn verify_rules(manifest: &Manifest, at: Time) -> Result<(), ValidationError>
    ensures { ChecksRules (KeepsManifestRules at manifest.now)
        (BreaksManifestRules at manifest.now) result }
{
    verify_inherited(manifest.object().cert().tbs())?;
    verify_out(manifest, at)?;
    verify_current(manifest, at)
}

impl<'a, 'p, P: PreparingProvider> CurrentCrl<'a, 'p, P> {
    /// Tests that the manifest holds at the moment of the list: its object is valid, as [CurrentCrl::verify_object]
    /// says; all resources that its certificate names are its issuer's (RFC 9286 5.1); and the moment is not before
    /// this update nor after the next (RFC 9286 6.3). Returns the resources that the path gives the certificate.
    ///
    /// The errors are those of [CurrentCrl::verify_object]; then `Verification` of the first rule that is broken: `RFC
    /// 9286 5.1: resources that are not inherited`; `RFC 9286 6.3: manifest issued later`; `RFC 9286 6.3: stale
    /// manifest`.
    pub fn process_manifest(
        &self,
        alloc: Global,
        manifest: &Manifest,
    ) -> Result<ResourceSet, ValidationError>
        ensures exactly { ProcessesManifest P.Provider self.now manifest.now result }
        ensures path { IfOk result (λ v. HasListedPath P.Provider Ee self.now manifest.now.object.cert v) }
        ensures within { IfOk result (λ v. AreWithin v self.now.issuer.resources) }
    {
        let held = self.verify_object(alloc, manifest.object())?;
        verify_rules(manifest, self.at())?;
        Ok(held)
    }
}
