//! The octets of what is signed of a revocation list, part by part (RFC 5280 5.1.2).

ghost use Rattle.std.specs.Prelude.{◌≡◌, ◌<◌, ◌^◌, ◌++◌, length, Some, IfOk, IfErr};
ghost use Rattle.rpki_der.specs.Prelude.{optional_of};
ghost use Rattle.rpki_der.specs.Listed.{EachHas};
ghost use Rattle.rpki_crl.specs.Crl.{entries_in, entries_of, extensions_of, extensions, list_of};
ghost use Rattle.rpki_crl.specs.EncodedCrl.{version_2, revoked_octets, IsEntry, AreEntries, extensions_octets};
ghost use Rattle.rpki_crl.specs.EncodedCrl.{list_contents, list_octets, IsListReadBack};
ghost use Rattle.rpki_issue.specs.Written.{IsKeyedRefusal};
ghost use Rattle.rpki_issue.specs.SignedList.{head_octets, times_octets, IsHeadKnown, AreTimesKnown, AreListKnown};
ghost use Rattle.rpki_issue.specs.SignedList.{IsListRefused};

use crate::capture::capture;
use crate::error::IssueError;
use crate::written::put;
use rpki::crypto::{RpkiSignatureAlgorithm, SignatureAlgorithm};
use rpki::der::{Captured, Each, Primitive, PrimitiveContent, Sequence, Values};
use rpki::repository::x509::Serial;
use rpki_crl::{CrlEntry, CrlExtensions, TbsCertList};
use std::alloc::{AllocError, Global};

/// The version of a list: 2, whose number is 1 (RFC 5280 5.1.2.1).
fn encode_version() -> Primitive<Serial>
    ensures octets { ⟦<Primitive<Serial> as Values>⟧.encoded result ≡ version_2 }
    ensures short { ⟦<Primitive<Serial> as Values>⟧.is_short result }
{
    Serial::from(1u128).encode()
}

/// Adds the version, the algorithm and the issuer.
fn put_head(octets: &mut Vec<u8>, list: &TbsCertList) -> Result<(), AllocError>
    ensures more { IfOk result (λ _. octets.new.items ≡ octets.old.items ++ head_octets (list_of list.now)) }
    ensures known { IfOk result (λ _. IsHeadKnown (list_of list.now)) }
{
    put(octets, encode_version())?;
    put(octets, RpkiSignatureAlgorithm::default().x509_encode())?;
    let issuer = list.issuer.encode_ref();
    put(octets, issuer)?;
    Ok(())
}

/// Adds the two times.
fn put_times(octets: &mut Vec<u8>, list: &TbsCertList) -> Result<(), AllocError>
    ensures more { IfOk result (λ _. octets.new.items ≡ octets.old.items ++ times_octets (list_of list.now)) }
    ensures known { IfOk result (λ _. AreTimesKnown (list_of list.now)) }
{
    put(octets, list.this_update.encode_varied())?;
    put(octets, list.next_update.encode_varied())?;
    Ok(())
}

/// Numbers of entries are serial numbers, and their dates times, which the types of both say.
fn know_entries(entries: &[CrlEntry])
    ensures { EachHas IsEntry (entries_in entries.now) }
{
    let mut rest = entries;
    'each: while let Some((first, following)) = rest.split_first() {
        // a clause of it says so
        let _ = first.encode();
        rest = following;
    }
}

/// Adds a list of entries.
fn put_entries(octets: &mut Vec<u8>, entries: &[CrlEntry]) -> Result<(), IssueError>
    ensures more { IfOk result (λ _. octets.new.items ≡ octets.old.items
        ++ revoked_octets (Some (entries_in entries.now))) }
    ensures known { IfOk result (λ _. EachHas IsEntry (entries_in entries.now)) }
    ensures err { IfErr result (λ e. IsKeyedRefusal
        (length (revoked_octets (Some (entries_in entries.now))) < 2 ^ 32) e) }
{
    know_entries(entries);
    let listed = Sequence::new(Each::new(entries));
    if !listed.fits() {
        return Err(IssueError::TooLong);
    }
    match put(octets, listed) {
        Ok(()) => Ok(()),
        Err(_) => Err(IssueError::OutOfMemory),
    }
}

/// Adds the entries, where there is a list of them.
fn put_revoked(octets: &mut Vec<u8>, entries: &Option<Vec<CrlEntry>>) -> Result<(), IssueError>
    ensures more { IfOk result (λ _. octets.new.items
        ≡ octets.old.items ++ revoked_octets (optional_of entries_of entries.now)) }
    ensures known { IfOk result (λ _. AreEntries (optional_of entries_of entries.now)) }
    ensures err { IfErr result (λ e. IsKeyedRefusal
        (length (revoked_octets (optional_of entries_of entries.now)) < 2 ^ 32) e) }
{
    match entries {
        Some(entries) => put_entries(octets, entries.as_slice()),
        None => Ok(()),
    }
}

/// Adds the extensions.
fn put_extensions(octets: &mut Vec<u8>, said: CrlExtensions) -> Result<(), AllocError>
    ensures more { IfOk result (λ _. octets.new.items ≡ octets.old.items ++ extensions_octets (extensions_of said)) }
    ensures known { IfOk result (λ _. extensions.spells (extensions_of said) (extensions_octets (extensions_of said))) }
{
    put(octets, said.encode())
}

/// All parts, in order.
fn put_all(alloc: Global, list: &TbsCertList) -> Result<Vec<u8>, IssueError>
    ensures ok { IfOk result (λ v. v.items ≡ list_contents (list_of list.now)) }
    ensures known { IfOk result (λ _. AreListKnown (list_of list.now)) }
    ensures err { IfErr result (λ e. IsListRefused (list_of list.now) e) }
{
    let mut octets = Vec::new(alloc);
    put_head(&mut octets, list)?;
    put_times(&mut octets, list)?;
    match put_revoked(&mut octets, &list.revoked_certs) {
        Ok(()) => {}
        Err(e) => return Err(e),
    }
    put_extensions(&mut octets, list.extensions)?;
    Ok(octets)
}

/// What is signed of a revocation list (RFC 5280 5.1).
///
/// The errors are `TooLong` for 2^32 octets or more, and `OutOfMemory` if allocation fails.
pub(crate) fn write_list(alloc: Global, list: &TbsCertList) -> Result<Captured, IssueError>
    ensures ok { IfOk result (λ c. c ≡ list_octets (list_of list.now)) }
    // It is read as the normal form.
    ensures read { IfOk result (λ _. IsListReadBack (list_of list.now)) }
    ensures err { IfErr result (λ e. IsListRefused (list_of list.now) e) }
{
    let contents = put_all(alloc, list)?;
    if contents.len() >= 1 << 32 {
        return Err(IssueError::TooLong);
    }
    let captured = capture(alloc, contents.as_slice())?;
    // its clause says that they are values
    let _ = captured.values();
    match Captured::from_values(alloc, &Sequence::new(&captured)) {
        Ok(octets) => Ok(octets),
        Err(_) => Err(IssueError::OutOfMemory),
    }
}
