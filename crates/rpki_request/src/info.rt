//! What is signed of a request (RFC 2986 4.1).
//!
//! ```text
//! CertificationRequestInfo ::= SEQUENCE {
//!     version        INTEGER (0),
//!     subject        Name,
//!     subjectPKInfo  SubjectPublicKeyInfo,
//!     attributes     [0] SET OF Attribute }
//! ```

ghost use Rattle.rpki_der.specs.Prelude.{left, Takes, TakesAll, end};
ghost use Rattle.rpki_request.specs.Request.{nameless, subject, fields_in, fields, request_info};

use crate::asked::{Asked, take_attributes};
use rpki::crypto::PublicKey;
use rpki::der::{Constructed, DecodeError, Keep};
use rpki::repository::x509::NameOctets;

/// What is signed of a request.
#[derive(Drop)]
pub struct RequestInfo {
    /// The subject; None where the issuer is to name it.
    pub subject: Option<NameOctets>,
    /// The subject's key.
    pub key: PublicKey,
    /// What the subject asks for.
    pub asked: Asked,
}

/// Moves past a SEQUENCE of nothing.
fn skip_nameless(cons: &mut Constructed<'_>) -> Result<(), DecodeError>
    ensures { Takes (λ _. tt) nameless (left cons.old) (left cons.new) result }
{
    cons.in_sequence(
        |contents|
            ensures { TakesAll (λ _. tt) end (left contents.old) (left contents.new) result }
        { contents.finish() },
    )
}

/// The subject, or a SEQUENCE of nothing.
fn take_subject<K: Keep>(
    keep: K,
    cons: &mut Constructed<'_>,
) -> Result<Option<NameOctets>, DecodeError>
    requires { K.holds keep (left cons.old) }
    ensures { Takes (λ x. x) subject (left cons.old) (left cons.new) result }
{
    let mut after = *cons;
    match skip_nameless(&mut after) {
        Ok(()) => {
            *cons = after;
            Ok(None)
        }
        Err(_) => match NameOctets::take_from(keep, cons) {
            Ok(name) => Ok(Some(name)),
            Err(e) => Err(e),
        },
    }
}

impl RequestInfo {
    /// Reads what is signed: a SEQUENCE of the parts, and nothing else. An allocator copies what is kept, and
    /// [Shared](rpki::der::Shared) shares it; requires that `keep` can keep parts of the rest.
    ///
    /// The errors are those of a SEQUENCE; then that of the first part that could not be read, or `Trailing` if more
    /// follows; `OutOfMemory` if allocation fails. An error leaves the cursor where it was.
    pub fn take_from<K: Keep>(
        keep: K,
        cons: &mut Constructed<'_>,
    ) -> Result<RequestInfo, DecodeError>
        requires { K.holds keep (left cons.old) }
        ensures { Takes fields_in request_info (left cons.old) (left cons.new) result }
    {
        cons.in_sequence_with(
            keep,
            |contents, keep|
                requires { K.holds keep (left contents.old) }
                ensures { TakesAll fields_in fields (left contents.old) (left contents.new) result }
            {
                contents.skip_u8_if(0)?;
                let subject = take_subject(keep, contents)?;
                let key = PublicKey::take_from(keep, contents)?;
                let asked = match take_attributes(keep, contents) {
                    Ok(asked) => asked,
                    Err(e) => return Err(e),
                };
                Ok(RequestInfo {
                    subject,
                    key,
                    asked,
                })
            },
        )
    }
}
