//! Routers whose certificates are valid (RFC 8209).

use rpki_cert::Cert;
use rpki_valid::ResourceSet;
use std::marker::Model;

/// The certificate of a router, which is valid, and the resources that its path gives it: the key is that of a router
/// of each of the numbers of autonomous systems.
#[derive(Drop)]
pub struct RouterCert {
    /// The certificate.
    pub cert: Cert,
    /// Its resources.
    pub resources: ResourceSet,
}

impl Model for RouterCert {
    ghost use Rattle.rpki_valid.specs.Verified.{Holder, holder};

    ghost Value = { Holder };

    ghost view = { λ x. holder x.cert x.resources };
}
