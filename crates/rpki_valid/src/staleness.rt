//! Whether revocation lists whose time is over count (RFC 6487 5, RFC 5280 6.3.3).

/// Whether a revocation list still counts when the next one is due.
#[derive(Clone, Copy, Debug, Drop, PartialEq, Eq)]
pub enum Staleness {
    /// It doesn't: a moment after the next update is refused.
    Refused,
    /// It does: certificates that were revoked since may pass.
    Accepted,
}
