//! What paths are checked against: the key of the trust anchor itself, which no locator names here.

use rpki_cert::Cert;
use rpki_objects::Strictness;
use rpki_valid::Terms;

/// The key of the trust anchor, strictly, and any number of authorities below it.
pub fn terms_of(anchor: &Cert) -> Terms<'_> {
    Terms {
        key: anchor.tbs().subject_public_key_info(),
        strictness: Strictness::all(),
        deepest: u32::MAX,
    }
}
