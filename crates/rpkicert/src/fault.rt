//! What is wrong with a file.

ghost use Rattle.std.specs.Prelude.{◌≡◌, IfOk, ◌++◌, codes, string_bytes};
ghost use Rattle.rpki_der.specs.ErrorText.{error_text};
ghost use Rattle.rpki_fields.specs.ObjectType.{kind_text};
ghost use Rattle.rpki_fields.specs.PartText.{text_of_part};
ghost use Rattle.rpkicert.specs.Fault.{cause_of, unreadable_text, clause_text, fault_text, status_of, refusal};
ghost use Rattle.rpkicert.specs.Fault.{is_bad_signature, clause_told, text_in, line_text};
ghost use Rattle.rpkicert.specs.Violation.{violation_text};
ghost use Rattle.rpkicert.specs.Fault.{is_at_first, no_locator_text, text_name};

use crate::pem::TextKind;
use crate::violation::{Violation, has_section};
use rpki::der::DecodeError;
use rpki::repository::error::ValidationError;
use rpki_fields::{ObjectType, Part, text_of_part};
use rpki_locator::LocatorError;
use std::alloc::{AllocError, AllocFailed, Global};
use std::io::ErrorKind;

/// What is said of a certificate of an algorithm that the RPKI doesn't use.
const OTHER_ALGORITHM: &str = "RFC 7935 2, 3: of an algorithm that the RPKI doesn't use";

/// What is said of what is none of what is read.
const NO_KIND: &str = "neither DER nor PEM of an object, nor a trust anchor locator";

/// Why a file could not be read to its end.
#[derive(Clone, Copy, Debug)]
pub enum Cause {
    /// There is no file of this name.
    Absent,
    /// It may not be read.
    Denied,
    /// It is a folder.
    Folder,
    /// It is no regular file: a device, or what waits for a writer.
    Special,
    /// The host says something else.
    Other,
}

impl Cause {
    /// The cause that the host's error of this kind is.
    pub fn of(kind: ErrorKind) -> Cause
        ensures { result ≡ cause_of kind }
    {
        match kind {
            ErrorKind::NotFound => Cause::Absent,
            ErrorKind::PermissionDenied => Cause::Denied,
            ErrorKind::IsADirectory => Cause::Folder,
            _ => Cause::Other,
        }
    }

    /// What a person reads of it: the host's words (POSIX, <errno.h>).
    fn text(self) -> &'static str
        ensures { result.now ≡ unreadable_text self }
    {
        match self {
            Cause::Absent => "cannot be read: No such file or directory",
            Cause::Denied => "cannot be read: Permission denied",
            Cause::Folder => "cannot be read: Is a directory (-r prints the files in it)",
            Cause::Special => "cannot be read: Not a regular file",
            Cause::Other => "cannot be read",
        }
    }
}

/// What has to hold of an object, in the order in which it is looked at.
#[derive(Clone, Copy, Debug)]
pub enum Clause {
    /// The period of the certificate (RFC 6487 7.2).
    Period,
    /// The updates of a revocation list (RFC 5280 6.3.3).
    Updates,
    /// The updates of a manifest (RFC 9286 6.3).
    Manifest,
    /// The content and the signature of a signed object (RFC 6488 3).
    Object,
    /// The resources of the signer of a manifest (RFC 9286 5.1).
    Inherited,
    /// The resources of the signer of a route origin attestation (RFC 9582 5).
    Origins,
    /// The resources of the signer of an attestation of providers (draft-ietf-sidrops-aspa-profile 4).
    Customer,
    /// The signature of a self-issued certificate (RFC 8630 2.3).
    Anchor,
    /// The issuer of a certificate (RFC 6487 7.2).
    Certificate,
    /// The issuer of a revocation list (RFC 5280 6.3.3).
    List,
    /// The serial number of a certificate, which the revocation list of its issuer has (RFC 6487 7.2).
    Revoked,
}

impl Clause {
    /// The section.
    fn text(self) -> &'static str
        ensures { result.now ≡ clause_text self }
    {
        match self {
            Clause::Period => "RFC 6487 7.2",
            Clause::Updates => "RFC 5280 6.3.3",
            Clause::Manifest => "RFC 9286 6.3",
            Clause::Object => "RFC 6488 3",
            Clause::Inherited => "RFC 9286 5.1",
            Clause::Origins => "RFC 9582 5",
            Clause::Customer => "draft-ietf-sidrops-aspa-profile 4",
            Clause::Anchor => "RFC 8630 2.3",
            Clause::Certificate => "RFC 6487 7.2",
            Clause::List => "RFC 5280 6.3.3",
            Clause::Revoked => "RFC 6487 7.2",
        }
    }
}

/// What is wrong with a file: it has no object, or one that doesn't hold.
#[derive(Clone, Copy, Debug)]
pub enum Fault {
    /// There is no such file, or it could not be read to its end.
    Unreadable(Cause),
    /// It has more than 4,000,000 octets.
    TooLarge,
    /// Allocation failed.
    OutOfMemory,
    /// It has no octets.
    Empty,
    /// It begins neither as an object in DER, which is a SEQUENCE, nor has a certificate or a list in PEM.
    Neither,
    /// The same, and it is no trust anchor locator: what is wrong with its first malformed line.
    NoLocator(LocatorError),
    /// It has the first line of a certificate or a list in the encoding of RFC 7468, and isn't exactly one of these.
    Malformed,
    /// It begins as a text of RFC 7468 that has something else.
    OtherText(TextKind),
    /// Its octets are of this kind, and no such object: wrong in this place, where one is known.
    Refused(ObjectType, Option<Part>, DecodeError),
    /// The certificate in it violates the profile.
    Violated(Violation),
    /// The object breaks this clause: by itself, of the issuer that is asked for, or at the moment.
    Unverified(Clause, ValidationError),
    /// It is to have a profile, or to be an issuer, and neither is nor has a certificate.
    NoCertificate,
    /// It is to be a revocation list, and is an object of another kind.
    NoList,
    /// It is checked against something, or is to be an issuer, and is a certificate of an algorithm that the RPKI
    /// doesn't use.
    OtherAlgorithm,
}

/// That octets of this kind are no such object, and why.
fn refused_text(
    alloc: Global,
    kind: ObjectType,
    place: Option<Part>,
    e: DecodeError,
) -> Result<String, AllocError>
    ensures { IfOk result (λ text. string_bytes text
        ≡ codes "not a " ++ kind_text kind ++ codes ": " ++ text_of_part place ++ error_text e) }
{
    let name = kind.text();
    let place = text_of_part(place);
    format!(in alloc; "not a {name}: {place}{e}")
}

/// Which line of a text that is no locator is wrong, and what is wrong with it.
fn line_text(alloc: Global, e: LocatorError) -> Result<String, AllocError>
    ensures { IfOk result (λ text. string_bytes text ≡ line_text e) }
{
    match e {
        LocatorError::OtherUri(line) => format!(in alloc;
            "line {line}: not a URI of a trust anchor"
        ),
        LocatorError::NoUri(line) => format!(in alloc; "line {line}: no URI"),
        LocatorError::NoKey(line) => format!(in alloc; "line {line}: no empty line before the key"),
        LocatorError::OtherText(line) => format!(in alloc; "line {line}: not base 64"),
        LocatorError::OtherKey(line, e) => format!(in alloc; "line {line}: not a public key: {e}"),
        LocatorError::OutOfMemory => Err(AllocError),
    }
}

/// Whether a text doesn't begin as a locator.
fn is_at_first(e: LocatorError) -> bool
    ensures { result ≡ is_at_first e }
{
    match e {
        LocatorError::OtherUri(line) | LocatorError::NoUri(line) => line == 1,
        _ => false,
    }
}

/// That a text is no object and no locator, or why it is no locator, where it begins as one.
fn no_locator_text(alloc: Global, e: LocatorError) -> Result<String, AllocError>
    ensures { IfOk result (λ text. string_bytes text ≡ no_locator_text e) }
{
    if is_at_first(e) {
        return String::from_str(alloc, NO_KIND);
    }
    let said = line_text(alloc, e)?;
    format!(in alloc; "not a trust anchor locator: {said}")
}

/// That a text of RFC 7468 has something else, and what.
fn other_text(alloc: Global, kind: TextKind) -> Result<String, AllocError>
    ensures { IfOk result (λ text. string_bytes text
        ≡ codes "not one certificate or list in PEM: " ++ text_name kind) }
{
    let name = kind.text();
    format!(in alloc; "not one certificate or list in PEM: {name}")
}

/// That the profile is violated, and how.
fn violated_text(alloc: Global, violation: Violation) -> Result<String, AllocError>
    ensures { IfOk result (λ text. string_bytes text ≡ codes "violates the profile: " ++ violation_text violation) }
{
    let said = violation.text(alloc)?;
    format!(in alloc; "violates the profile: {said}")
}

/// Whether the error is that of a signature that isn't good.
///
/// Returns `AllocError` if allocation fails.
pub fn is_bad_signature(alloc: Global, e: ValidationError) -> Result<bool, AllocError>
    ensures { IfOk result (λ b. b ≡ is_bad_signature e) }
{
    let said = format!(in alloc; "{e}")?;
    Ok(said.as_bytes().ends_with(b"bad signature"))
}

/// That the clause is broken, and how, after one section: most texts have that of their rule, and others get the
/// clause's.
fn unverified_text(alloc: Global, clause: Clause, e: ValidationError) -> Result<String, AllocError>
    ensures { IfOk result (λ text. string_bytes text ≡ clause_told clause (text_in e)) }
{
    let said = format!(in alloc; "{e}")?;
    if has_section(said.as_bytes()) {
        return Ok(said);
    }
    let section = clause.text();
    format!(in alloc; "{section}: {said}")
}

impl Fault {
    /// The exit status for it.
    pub fn status(self) -> u8
        ensures { result ≡ status_of self }
    {
        match self {
            Fault::Unreadable(_) | Fault::TooLarge | Fault::OutOfMemory => 2,
            Fault::Empty | Fault::Neither | Fault::NoLocator(_) | Fault::Malformed => 1,
            Fault::OtherText(_) | Fault::Refused(..) | Fault::Violated(_) => 1,
            Fault::Unverified(..) | Fault::NoCertificate | Fault::NoList => 1,
            Fault::OtherAlgorithm => 1,
        }
    }

    /// What a person reads of it.
    ///
    /// Returns `AllocError` if allocation fails.
    pub fn text(self, alloc: Global) -> Result<String, AllocError>
        ensures { IfOk result (λ text. string_bytes text ≡ fault_text self) }
    {
        match self {
            Fault::Unreadable(cause) => String::from_str(alloc, cause.text()),
            Fault::TooLarge => String::from_str(alloc, "larger than 4000000 octets"),
            Fault::OutOfMemory => String::from_str(alloc, "out of memory"),
            Fault::Empty => String::from_str(alloc, "empty"),
            Fault::Neither => String::from_str(alloc, "neither DER nor PEM of an object"),
            Fault::NoLocator(e) => no_locator_text(alloc, e),
            Fault::Malformed => String::from_str(alloc, "not one certificate or list in PEM"),
            Fault::OtherText(kind) => other_text(alloc, kind),
            Fault::Refused(kind, place, e) => refused_text(alloc, kind, place, e),
            Fault::Violated(violation) => violated_text(alloc, violation),
            Fault::Unverified(clause, e) => unverified_text(alloc, clause, e),
            Fault::NoCertificate => String::from_str(alloc, "not a certificate"),
            Fault::NoList => String::from_str(alloc, "not a revocation list"),
            Fault::OtherAlgorithm => String::from_str(alloc, OTHER_ALGORITHM),
        }
    }
}

impl From<AllocError> for Fault {
    ghost use Rattle.std.specs.Prelude.{◌≡◌};
    ghost use Rattle.rpkicert.specs.declared.fault.Fault.TheVariants.{OutOfMemory};

    ghost from_gives = { λ _ f. f ≡ OutOfMemory };

    fn from(_e: AllocError) -> Fault {
        Fault::OutOfMemory
    }
}

impl<T: Drop> From<AllocFailed<T>> for Fault {
    ghost use Rattle.std.specs.Prelude.{◌≡◌};
    ghost use Rattle.rpkicert.specs.declared.fault.Fault.TheVariants.{OutOfMemory};

    ghost from_gives = { λ _ f. f ≡ OutOfMemory };

    fn from(_e: AllocFailed<T>) -> Fault {
        Fault::OutOfMemory
    }
}

/// The fault of a reader's error, of octets of this kind, in this place. An allocation failure is a fault of its own,
/// and no error of the octets.
pub fn refusal(kind: ObjectType, place: Option<Part>, e: DecodeError) -> Fault
    ensures { result ≡ refusal kind place e }
{
    match e {
        DecodeError::OutOfMemory => Fault::OutOfMemory,
        e => Fault::Refused(kind, place, e),
    }
}
