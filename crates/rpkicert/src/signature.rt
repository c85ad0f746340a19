//! What is said of an object's signatures.

ghost use Rattle.std.specs.Prelude.{◌≡◌, IfOk};
ghost use Rattle.rpkicert.specs.Signature.{signature_text, good_text, of_certificate, signature_alone, signature_of};
ghost use Rattle.rpkicert.specs.Signature.{checked_at, is_revocable, signature_in, signature_found, well_text};

use crate::fault::{Clause, Fault, is_bad_signature};
use crate::signed::is_self_issued;
use rpki_cert::Cert;
use rpki_fields::Object;
use std::alloc::{AllocError, Global};

/// What was checked of an object's signatures.
#[derive(Clone, Copy, Debug)]
pub enum Signature {
    /// Each is good: the object's own, that of its certificate, and so on, up to the issuer's.
    Good,
    /// The object's own is good, by the key of the certificate in it; that of the certificate was not checked.
    Own,
    /// One is not good.
    Bad,
    /// None was checked.
    Unchecked,
}

impl Signature {
    /// What a person reads of it.
    pub fn text(self) -> &'static [u8]
        ensures { result.now ≡ signature_text self }
    {
        match self {
            Signature::Good => b"good",
            Signature::Own => b"good, issuer not checked",
            Signature::Bad => b"bad signature",
            Signature::Unchecked => b"not checked",
        }
    }

    /// The verdict on an object that holds, and of whose signatures this was checked.
    fn verdict(self) -> &'static [u8]
        ensures { result.now ≡ good_text self }
    {
        match self {
            Signature::Good => b"OK",
            _ => b"OK, issuer not checked",
        }
    }
}

/// That of a certificate without an issuer: one that is self-issued is its own.
fn of_certificate(cert: &Cert) -> Signature
    ensures { result ≡ of_certificate cert.now }
{
    if is_self_issued(cert) {
        return Signature::Good;
    }
    Signature::Unchecked
}

/// That of an object that holds by itself, without an issuer.
fn signature_alone(object: &Object) -> Signature
    ensures { result ≡ signature_alone object.now }
{
    match object {
        Object::Certificate(cert) => of_certificate(cert),
        Object::Crl(_) | Object::OtherCertificate(_) => Signature::Unchecked,
        Object::Manifest(_) | Object::Roa(_) => Signature::Own,
        Object::Aspa(_) | Object::Checklist(_) => Signature::Own,
        Object::TrustAnchorKey(_) | Object::Ghostbusters(_) => Signature::Own,
        Object::SignedObject(_) => Signature::Own,
    }
}

/// That of an object that holds, and is of the issuer, if one was asked for.
pub fn signature_of(issued: bool, object: &Object) -> Signature
    ensures { result ≡ signature_of issued object.now }
{
    if issued {
        return Signature::Good;
    }
    signature_alone(object)
}

/// Whether the certificate that the object is, or that of its signer, can be revoked by its issuer.
fn is_revocable(object: &Object) -> bool
    ensures { result ≡ is_revocable object.now }
{
    match object {
        Object::Crl(_) => false,
        _ => true,
    }
}

/// The verdict on an object that holds, and is of the issuer, and not on its revocation list, if these were asked for.
pub fn well_text(issued: bool, listed: bool, object: &Object) -> &'static [u8]
    ensures { result.now ≡ well_text issued listed object.now }
{
    if issued && is_revocable(object) && !listed {
        return b"OK, revocation not checked";
    }
    signature_of(issued, object).verdict()
}

/// What was checked before this clause was found broken, by a bad signature or not.
fn checked_at(clause: Clause, bad: bool) -> Signature
    ensures { result ≡ checked_at clause bad }
{
    match clause {
        Clause::Period | Clause::Updates | Clause::Manifest => Signature::Unchecked,
        Clause::Object => {
            if bad {
                Signature::Bad
            } else {
                Signature::Unchecked
            }
        }
        Clause::Inherited | Clause::Origins | Clause::Customer => Signature::Own,
        Clause::Anchor => Signature::Bad,
        Clause::Certificate | Clause::List => { if bad { Signature::Bad } else { Signature::Good } }
        Clause::Revoked => Signature::Good,
    }
}

/// That of a fault.
///
/// Returns `AllocError` if allocation fails.
pub fn signature_in(alloc: Global, fault: Fault) -> Result<Signature, AllocError>
    ensures { IfOk result (λ s. s ≡ signature_in fault) }
{
    match fault {
        Fault::Unverified(clause, e) => {
            let bad = is_bad_signature(alloc, e)?;
            Ok(checked_at(clause, bad))
        }
        _ => Ok(Signature::Unchecked),
    }
}

/// That of an object which doesn't hold, for this fault; or which holds, and is of the issuer, if one was asked for.
///
/// Returns `AllocError` if allocation fails.
pub fn signature_found(
    alloc: Global,
    issued: bool,
    object: &Object,
    fault: Option<Fault>,
) -> Result<Signature, AllocError>
    ensures { IfOk result (λ s. s ≡ signature_found issued object.now fault) }
{
    match fault {
        Some(fault) => signature_in(alloc, fault),
        None => Ok(signature_of(issued, object)),
    }
}
