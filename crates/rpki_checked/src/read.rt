//! What was made, read again.

ghost use Rattle.std.specs.Prelude.{◌≡◌, true, IfOk, IfErr};
ghost use Rattle.rpki.specs.declared.repository.error.ValidationError.TheVariants.{Decoding};
ghost use Rattle.rpki_der.specs.declared.error.DecodeError.TheVariants.{OutOfMemory};
ghost use Rattle.rpki_cert.specs.Cert.{SpellsCert};
ghost use Rattle.rpki_cert.specs.CertFault.{IsCertFault};
ghost use Rattle.rpki_der.specs.Prelude.{IsWholeFault};
ghost use Rattle.rpki_crl.specs.Crl.{crl};
ghost use Rattle.rpki_objects.specs.Strictness.{all_strict};
ghost use Rattle.rpki_objects.specs.TypedObject.{origin_object, aspa_object, manifest_object};
ghost use Rattle.rpki_checked.specs.Checked.{ReadsAgain, ReadsFormat};

use bytes::Bytes;
use rpki::der::{Captured, DecodeError};
use rpki::repository::error::ValidationError;
use rpki_cert::Cert;
use rpki_crl::Crl;
use rpki_objects::{Aspa, Manifest, Roa, Strictness};
use std::alloc::Global;

/// The octets, to be read.
fn again(octets: &Captured) -> Result<Bytes, ValidationError>
    ensures ok { IfOk result (λ b. b ≡ octets.now) }
    ensures err { IfErr result (λ e. e ≡ Decoding OutOfMemory) }
{
    match octets.clone() {
        Ok(copy) => Ok(copy.into_bytes()),
        Err(_) => Err(ValidationError::Decoding(DecodeError::OutOfMemory)),
    }
}

/// The certificate that the octets are.
pub(crate) fn read_cert(alloc: Global, octets: &Captured) -> Result<Cert, ValidationError>
    ensures { ReadsAgain SpellsCert (IsWholeFault SpellsCert IsCertFault) octets.now result }
{
    let bytes = match again(octets) {
        Ok(bytes) => bytes,
        Err(e) => return Err(e),
    };
    match Cert::decode(alloc, bytes) {
        Ok(cert) => Ok(cert),
        Err(wrong) => Err(ValidationError::Decoding(wrong.error)),
    }
}

/// The revocation list that the octets are.
pub(crate) fn read_list(alloc: Global, octets: &Captured) -> Result<Crl, ValidationError>
    ensures { ReadsFormat crl octets.now result }
{
    let bytes = match again(octets) {
        Ok(bytes) => bytes,
        Err(e) => return Err(e),
    };
    match Crl::decode(alloc, bytes) {
        Ok(list) => Ok(list),
        Err(e) => Err(ValidationError::Decoding(e)),
    }
}

/// The route origin attestation that the octets are.
pub(crate) fn read_roa(alloc: Global, octets: &Captured) -> Result<Roa, ValidationError>
    ensures { ReadsFormat (origin_object all_strict) octets.now result }
{
    let bytes = match again(octets) {
        Ok(bytes) => bytes,
        Err(e) => return Err(e),
    };
    match Roa::decode(alloc, bytes, Strictness::all()) {
        Ok(roa) => Ok(roa),
        Err(e) => Err(ValidationError::Decoding(e)),
    }
}

/// The attestation of providers that the octets are.
pub(crate) fn read_aspa(alloc: Global, octets: &Captured) -> Result<Aspa, ValidationError>
    ensures { ReadsFormat (aspa_object true) octets.now result }
{
    let bytes = match again(octets) {
        Ok(bytes) => bytes,
        Err(e) => return Err(e),
    };
    match Aspa::decode(alloc, bytes, true) {
        Ok(aspa) => Ok(aspa),
        Err(e) => Err(ValidationError::Decoding(e)),
    }
}

/// The manifest that the octets are.
pub(crate) fn read_manifest(alloc: Global, octets: &Captured) -> Result<Manifest, ValidationError>
    ensures { ReadsFormat (manifest_object true) octets.now result }
{
    let bytes = match again(octets) {
        Ok(bytes) => bytes,
        Err(e) => return Err(e),
    };
    match Manifest::decode(alloc, bytes, true) {
        Ok(manifest) => Ok(manifest),
        Err(e) => Err(ValidationError::Decoding(e)),
    }
}
