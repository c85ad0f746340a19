//! Certificates, and what their extensions say that are read.

ghost use Rattle.rpki_c.specs.Certificate.{IsKnownRead};

use crate::certificate::part_number;
use crate::certificate_extensions::known_number;
use rpki_cert::{CertView, KnownView};

/// A certificate in place, and what its extensions say that are read.
#[derive(Drop)]
pub(crate) struct KnownCert<'a> {
    /// The certificate.
    pub(crate) cert: CertView<'a>,
    /// What its extensions say.
    pub(crate) known: KnownView,
}

/// The certificate that the octets are, and what its extensions say. Nothing is allocated.
///
/// The error is the status of a certificate that isn't read: the number of the malformed part; else that of the
/// first extension that is malformed, or not as critical as it has to be.
pub(crate) fn known_cert(octets: &[u8]) -> Result<KnownCert<'_>, u8>
    ensures { IsKnownRead octets.now result }
{
    let cert = match CertView::read(octets) {
        Ok(cert) => cert,
        Err(wrong) => return Err(part_number(wrong.part)),
    };
    match cert.tbs.named.keyed.known() {
        Ok(known) => Ok(KnownCert { cert, known }),
        Err(part) => Err(known_number(part)),
    }
}
