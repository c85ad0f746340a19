//! What is asked of each signed object by its certificate alone (RFC 6487 4, RFC 6488 3).

ghost use Rattle.rpki.specs.Checkers.{checkers_of};
ghost use Rattle.rpki_checked.specs.Objects.{ChecksAlone};

use rpki::crypto::Provider;
use rpki::repository::error::ValidationError;
use rpki_objects::SignedObject;
use rpki_valid::verify_object_signature;

/// Tests that the certificate has the profile of an end entity, names checked too, and that its key has signed the
/// content.
pub(crate) fn verify_alone<P: Provider>(
    object: &SignedObject,
    provider: &P,
) -> Result<(), ValidationError>
    ensures { ChecksAlone (checkers_of P.Provider provider.now) object.now result }
{
    match object.cert().tbs().inspect_ee(true) {
        Ok(()) => {}
        Err(e) => return Err(e),
    }
    match verify_object_signature(object, provider) {
        Ok(()) => Ok(()),
        Err(e) => Err(e),
    }
}
