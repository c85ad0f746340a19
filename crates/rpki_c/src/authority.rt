//! Authorities of a path (RFC 6487 7.2).

use crate::as_blocks::AsEntry;
use crate::ip_blocks::IpEntry;
use crate::span::Span;
use crate::times::Moment;

/// How many steps lead up to a trust anchor at most.
pub(crate) const MOST_STEPS: usize = 32;

/// An authority of a path that begins at a trust anchor: its certificate, and what is asked of all that it issues.
///
/// Only the calls of this library that say so write one. One that is zeroed has no certificate, and so is refused by
/// each call.
#[repr(C)]
#[derive(Clone, Copy)]
pub struct Authority<'a> {
    /// The certificate.
    pub certificate: Span<'a>,
    /// The entries of the authority's revocation list, in sequence.
    pub revoked_certs: Span<'a>,
    /// The files that its manifest lists, in sequence.
    pub files: Span<'a>,
    /// The addresses that it has, in canonical form.
    pub ip_blocks: &'a [IpEntry],
    /// The AS numbers that it has, likewise.
    pub as_blocks: &'a [AsEntry],
    /// The moment at which all of the path is asked.
    pub moment: Moment,
    /// The digest of the list by SHA-256, by which the manifest lists it; zeros where there is none.
    pub list_digest: [u8; 32],
    /// The identifiers of the keys of the path: that of the trust anchor first, its own after as many as `depth` says.
    pub keys: [[u8; 20]; 33],
    /// How many steps lead up to the trust anchor.
    pub depth: u32,
    /// Whether it has a revocation list.
    pub has_list: bool,
    /// Whether it has a manifest, which lists that list: so what it issues counts.
    pub has_manifest: bool,
}

/// Resources that a certificate has under those of its issuer, settled.
#[repr(C)]
#[derive(Clone, Copy)]
pub struct Resources<'a> {
    /// The addresses, in canonical form.
    pub ip_blocks: &'a [IpEntry],
    /// The AS numbers, likewise.
    pub as_blocks: &'a [AsEntry],
}
