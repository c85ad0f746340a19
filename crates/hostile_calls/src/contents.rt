//! Calls on what signed objects contain.

use crate::refusal::Failure;
use crate::report::Report;
use bytes::Bytes;
use rpki_contents::{AsProviderAttestation, ManifestContent, RouteOriginAttestation};
use rpki_der::DecodeError;
use std::alloc::Global;
use std::io;

/// The lines of what a manifest says.
fn tell_manifest(report: Report, manifest: &ManifestContent) -> io::Result<()> {
    report.octets("number", &manifest.manifest_number().into_array())?;
    report.number(
        "this_update",
        manifest.this_update().to_binary_time() as u64,
    )?;
    report.number(
        "next_update",
        manifest.next_update().to_binary_time() as u64,
    )?;
    for file in manifest.file_list() {
        report.octets("file", file.file())?;
        report.octets("digest", file.hash().as_slice())?;
    }
    Ok(())
}

/// The lines of what a route origin attestation says.
fn tell_origins(report: Report, attestation: &RouteOriginAttestation) -> io::Result<()> {
    let mut origins = attestation.origins();
    while let Some(origin) = origins.next_origin() {
        report.shown("origin", &origin)?;
    }
    Ok(())
}

/// The lines of what an attestation of providers says.
fn tell_providers(report: Report, attestation: &AsProviderAttestation) -> io::Result<()> {
    report.number("customer", u64::from(attestation.customer_as()))?;
    for provider in attestation.providers() {
        report.number("provider", u64::from(*provider))?;
    }
    Ok(())
}

/// The line of an error.
fn tell_error(report: Report, error: DecodeError) -> io::Result<()> {
    match error {
        DecodeError::OutOfMemory => report.words("out of memory"),
        e => report.shown("rejected", &e),
    }
}

/// Tells of the content that the octets are.
pub fn tell(alloc: Global, report: Report, call: &str, octets: Vec<u8>) -> Result<(), Failure> {
    match call {
        "manifest" => match ManifestContent::decode(alloc, Bytes::from_vec(octets)?) {
            Ok(manifest) => tell_manifest(report, &manifest)?,
            Err(e) => tell_error(report, e)?,
        },
        "roa" | "strict_roa" => {
            match RouteOriginAttestation::decode(alloc, octets.as_slice(), call == "strict_roa") {
                Ok(attestation) => tell_origins(report, &attestation)?,
                Err(e) => tell_error(report, e)?,
            }
        }
        "aspa" => match AsProviderAttestation::decode(alloc, octets.as_slice()) {
            Ok(attestation) => tell_providers(report, &attestation)?,
            Err(e) => tell_error(report, e)?,
        },
        _ => return Err(Failure::Usage),
    }
    Ok(())
}
