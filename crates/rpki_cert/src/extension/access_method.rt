//! The methods of access descriptions that certificates of the RPKI have.

/// What an access description tells, by its method (RFC 5280 4.2.2).
#[derive(Clone, Copy)]
pub enum AccessMethod {
    /// Where the issuer's certificate is, `id-ad-caIssuers` (RFC 6487 4.8.7).
    CaIssuers,
    /// Where the subject publishes, `id-ad-caRepository` (RFC 6487 4.8.8.1).
    CaRepository,
    /// Where the subject's manifest is, `id-ad-rpkiManifest` (RFC 6487 4.8.8.1).
    RpkiManifest,
    /// Where the object is that the subject's key signs, `id-ad-signedObject` (RFC 6487 4.8.8.2).
    SignedObject,
    /// Where changes of the repository are told, `id-ad-rpkiNotify` (RFC 8182 3.2).
    RpkiNotify,
}
