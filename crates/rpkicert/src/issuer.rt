//! The terms of a run: the moment, the certificate of the issuer and its revocation list, or why there are none.

ghost use Rattle.std.specs.Prelude.{◌≡◌, IfOk, Ok};
ghost use Rattle.std.specs.Result.{result_map_both};
ghost use Rattle.rpkicert.specs.OutcomeView.{finding_of, found_of};
ghost use Rattle.rpkicert.specs.Run.{issuer_in, list_in, wrong_moment_text, wrong_issuer_text};

use crate::fault::Fault;
use crate::moment::is_now;
use crate::outcome::Outcome;
use crate::output::push_line;
use crate::texts::{NO_CLOCK, USAGE};
use rpki_cert::TbsCert;
use rpki_crl::Crl;
use rpki_fields::Object;
use std::alloc::{AllocError, Global};

/// The certificate that was found, as that of an issuer.
///
/// Returns why it doesn't hold, where it doesn't; `OtherAlgorithm` if it is one of an algorithm that the RPKI doesn't
/// use; `NoCertificate` if it is an object of another kind.
pub fn issuer_of(found: &Outcome) -> Result<&TbsCert, Fault>
    ensures { result_map_both (λ t. t.now) (λ f. f) result ≡ issuer_in (Ok (found_of found.now)) }
{
    if let Some(fault) = found.fault {
        return Err(fault);
    }
    match found.object.as_ref() {
        Object::Certificate(cert) => Ok(cert.tbs()),
        Object::OtherCertificate(_) => Err(Fault::OtherAlgorithm),
        _ => Err(Fault::NoCertificate),
    }
}

/// The revocation list that was found, as that of an issuer.
///
/// Returns why it doesn't hold, where it doesn't; `NoList` if it is an object of another kind.
fn own_list(found: &Outcome) -> Result<&Crl, Fault>
    ensures { result_map_both (λ l. l.now) (λ f. f) result ≡ list_in (Ok (found_of found.now)) }
{
    if let Some(fault) = found.fault {
        return Err(fault);
    }
    match found.object.as_ref() {
        Object::Crl(list) => Ok(list),
        _ => Err(Fault::NoList),
    }
}

/// The same, where anything was found.
pub fn list_of(finding: &Result<Outcome, Fault>) -> Result<&Crl, Fault>
    ensures { result_map_both (λ l. l.now) (λ f. f) result ≡ list_in (finding_of finding.now) }
{
    match finding {
        Ok(found) => own_list(found),
        Err(fault) => Err(*fault),
    }
}

/// That the word names no moment: since the clock has none, where it is `now`; else how the program is used.
///
/// Returns `AllocError` if allocation fails.
pub fn wrong_moment(alloc: Global, word: &str) -> Result<Vec<u8>, AllocError>
    ensures { IfOk result (λ text. text.items ≡ wrong_moment_text word.now) }
{
    if is_now(word) {
        return Vec::from_slice(alloc, NO_CLOCK);
    }
    let mut text = Vec::from_slice(alloc, b"rpkicert: --at ")?;
    push_line(
        &mut text,
        word,
        b"not a moment such as 2026-11-28T12:00:00Z, nor now",
    )?;
    text.extend_from_slice(USAGE)?;
    Ok(text)
}

/// That the file of this name has no certificate of an issuer, or no list of it, and why.
///
/// Returns `AllocError` if allocation fails.
pub fn wrong_issuer(alloc: Global, name: &str, fault: Fault) -> Result<Vec<u8>, AllocError>
    ensures { IfOk result (λ text. text.items ≡ wrong_issuer_text name.now fault) }
{
    let said = fault.text(alloc)?;
    let mut text = Vec::from_slice(alloc, b"rpkicert: ")?;
    push_line(&mut text, name, said.as_bytes())?;
    Ok(text)
}
