//! What is counted beside payloads.

/// How many publication points and objects are rejected for a reason.
#[derive(Clone, Copy, Debug)]
pub struct Reasons {
    /// A file that is named isn't there, or none is named (RFC 9286 6.2, 6.4; RFC 6481 2.2; RFC 6487 4.8.8.1).
    pub missing: usize,
    /// A file has another digest than its manifest says (RFC 9286 6.5).
    pub digest: usize,
    /// A manifest or a revocation list is stale, or issued later (RFC 9286 6.3, RFC 5280 6.3.3).
    pub stale: usize,
    /// A certificate has expired, or is not yet valid (RFC 6487 7.2).
    pub expired: usize,
    /// A certificate is revoked (RFC 6487 7.2).
    pub revoked: usize,
    /// What can't be read, or violates its profile.
    pub malformed: usize,
    /// What fails verification otherwise, as by its signature or its resources.
    pub invalid: usize,
}

/// What a validation under a locator counts beside its payloads.
#[derive(Clone, Copy, Debug)]
pub struct Tally {
    /// Whether the locator has a trust anchor.
    pub is_anchored: bool,
    /// How many publication points are rejected.
    pub points: usize,
    /// How many objects are rejected.
    pub objects: usize,
    /// How many of both are, by reason.
    pub reasons: Reasons,
}
