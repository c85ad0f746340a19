//! Rules that access descriptions are checked against (RFC 6487 4.8.8.2, RFC 8182 3.2).

/// What each of the access descriptions is checked against.
#[derive(Clone, Copy)]
pub enum AccessRule {
    /// It is one of an end entity: where the signed object is, `id-ad-signedObject`, or where changes of the repository
    /// are told, `id-ad-rpkiNotify` (RFC 6487 4.8.8.2, RFC 8182 3.2).
    EndEntity,
    /// That of `id-ad-rpkiNotify` has an https URI (RFC 8182 3.2).
    Notification,
}
