//! The resources of a certificate.

use crate::choice::ResourcesChoice;

/// The IP resources of a certificate: of both families (RFC 3779 2).
#[derive(Debug, Drop)]
pub struct IpResources {
    /// Those of IP version 4.
    pub v4: ResourcesChoice,
    /// Those of IP version 6.
    pub v6: ResourcesChoice,
}

/// The AS resources of a certificate (RFC 3779 3).
#[derive(Debug, Drop)]
pub struct AsResources {
    /// The AS numbers.
    pub numbers: ResourcesChoice,
}
