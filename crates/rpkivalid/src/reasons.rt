//! Why objects are rejected, in words.

ghost use Rattle.std.specs.Prelude.{◌≡◌, IfOk, string_bytes};
ghost use Rattle.rpkivalid.specs.Reasons.{invalid_text, reason_text};

use rpki::repository::error::ValidationError;
use rpki_validation::Reason;
use std::alloc::{AllocError, Global};

/// Why an object is not valid.
fn invalid_text(alloc: Global, e: &ValidationError) -> Result<String, AllocError>
    ensures { IfOk result (λ text. string_bytes text ≡ invalid_text e.now) }
{
    match e {
        ValidationError::Decoding(e) => format!(in alloc; "invalid: {e}"),
        ValidationError::Inspection(e) => format!(in alloc; "invalid: {e}"),
        ValidationError::Verification(e) => format!(in alloc; "invalid: {e}"),
    }
}

/// Why an object, or all that an authority publishes, is rejected: the error, with the section of the rule.
///
/// Returns `AllocError` if allocation fails.
pub fn reason_text(alloc: Global, reason: &Reason) -> Result<String, AllocError>
    ensures { IfOk result (λ text. string_bytes text ≡ reason_text reason.now) }
{
    match reason {
        Reason::MissingAnchor => {
            String::from_str(alloc, "RFC 8630 3: no trust anchor was fetched")
        }
        Reason::NoRepository => {
            String::from_str(alloc, "RFC 6487 4.8.8.1: no repository is named")
        }
        Reason::NoManifest => String::from_str(alloc, "RFC 6487 4.8.8.1: no manifest is named"),
        Reason::Missing => String::from_str(alloc, "RFC 9286 6.2: no manifest"),
        Reason::NoList => String::from_str(alloc, "RFC 6481 2.2: not one revocation list"),
        Reason::MissingFile(uri) => format!(in alloc; "RFC 9286 6.4: no file at {uri}"),
        Reason::OtherFile(uri) => format!(in alloc; "RFC 9286 6.5: another digest at {uri}"),
        Reason::LongUri => String::from_str(alloc, "the URI of a file is too long"),
        Reason::MalformedCert(e) => format!(in alloc; "malformed: {e}"),
        Reason::Malformed(e) => format!(in alloc; "malformed: {e}"),
        Reason::Invalid(e) => invalid_text(alloc, e),
    }
}
