//! The octets of what is signed of a certificate, part by part (RFC 5280 4.1.2).

ghost use Rattle.std.specs.Prelude.{◌≡◌, ◌<◌, ◌^◌, ◌++◌, length, IfOk, IfErr};
ghost use Rattle.rpki.specs.PublicKey.{SpellsKey, key_octets};
ghost use Rattle.rpki_issue.specs.Tbs.{issued_of, extensions_octets, tbs_contents, tbs_octets};
ghost use Rattle.rpki_issue.specs.Written.{numbered_octets, called_octets, AreNamed, ArePartsSpelled, IsRead};
ghost use Rattle.rpki_issue.specs.Written.{IsKeyedRefusal, IsWriteRefusal};

use crate::capture::capture;
use crate::error::IssueError;
use crate::frame::ContextThreeFrame;
use crate::tbs::{TbsCertBuilder, encode_version};
use rpki::crypto::{PublicKey, RpkiSignatureAlgorithm, SignatureAlgorithm};
use rpki::der::{Around, Captured, PrimitiveContent, Sequence, Values};
use std::alloc::{AllocError, Global};

/// Adds the values. Requires that they fit.
pub(crate) fn put<V: Values + Drop>(octets: &mut Vec<u8>, values: V) -> Result<(), AllocError>
    requires short { V.is_short values }
    requires few { length (V.encoded values) < 2 ^ 63 }
    ensures { IfOk result (λ _. octets.new.items ≡ octets.old.items ++ V.encoded values) }
{
    match values.write_encoded(octets) {
        Ok(()) => Ok(()),
        Err(_) => Err(AllocError),
    }
}

/// Adds the version, the serial number and the algorithm.
fn put_numbered(octets: &mut Vec<u8>, builder: &TbsCertBuilder<'_>) -> Result<(), AllocError>
    ensures more { IfOk result (λ _. octets.new.items
        ≡ octets.old.items ++ numbered_octets (issued_of builder.now)) }
    ensures below { IfOk result (λ _. (issued_of builder.now).serial < 2 ^ 159) }
{
    // its clause says that it is below 2^159
    let _ = builder.serial_number.into_array();
    put(octets, encode_version())?;
    put(octets, builder.serial_number.encode())?;
    put(octets, RpkiSignatureAlgorithm::default().x509_encode())?;
    Ok(())
}

/// Adds the issuer, the period and the subject.
fn put_named(octets: &mut Vec<u8>, builder: &TbsCertBuilder<'_>) -> Result<(), AllocError>
    ensures more { IfOk result (λ _. octets.new.items ≡ octets.old.items ++ called_octets (issued_of builder.now)) }
    ensures named { IfOk result (λ _. AreNamed (issued_of builder.now)) }
{
    // their clauses say which years there are
    let _ = builder.validity.not_before().year();
    let _ = builder.validity.not_after().year();
    let issuer = builder.issuer.encode_ref();
    put(octets, issuer)?;
    put(octets, builder.validity.encode())?;
    let subject = builder.subject.encode_ref();
    put(octets, subject)?;
    Ok(())
}

/// Adds the subject's key.
pub(crate) fn put_key(octets: &mut Vec<u8>, key: &PublicKey) -> Result<(), IssueError>
    ensures more { IfOk result (λ _. octets.new.items ≡ octets.old.items ++ key_octets key.now) }
    ensures key { IfOk result (λ _. SpellsKey key.now (key_octets key.now)) }
    ensures err { IfErr result (λ e. IsKeyedRefusal (length (key_octets key.now) < 2 ^ 32) e) }
{
    let info = key.encode_ref();
    if !info.fits() {
        return Err(IssueError::TooLong);
    }
    match put(octets, info) {
        Ok(()) => Ok(()),
        Err(_) => Err(IssueError::OutOfMemory),
    }
}

/// Adds the extensions.
fn put_list(octets: &mut Vec<u8>, listed: &Captured) -> Result<(), IssueError>
    ensures more { IfOk result (λ _. octets.new.items ≡ octets.old.items ++ extensions_octets listed.now) }
    ensures err { IfErr result (λ e. IsKeyedRefusal (length (extensions_octets listed.now) < 2 ^ 32) e) }
{
    // its clause says that they are values
    let _ = listed.values();
    let list: Around<ContextThreeFrame, Sequence<&Captured>> = Around::new(Sequence::new(listed));
    if !list.fits() {
        return Err(IssueError::TooLong);
    }
    match put(octets, list) {
        Ok(()) => Ok(()),
        Err(_) => Err(IssueError::OutOfMemory),
    }
}

/// All parts, in order.
fn put_all(
    alloc: Global,
    builder: &TbsCertBuilder<'_>,
    listed: &Captured,
) -> Result<Vec<u8>, IssueError>
    ensures ok { IfOk result (λ v. v.items ≡ tbs_contents (issued_of builder.now) listed.now) }
    ensures spelled { IfOk result (λ _. ArePartsSpelled (issued_of builder.now)) }
    ensures err { IfErr result (λ e. IsWriteRefusal (issued_of builder.now) listed.now e) }
{
    let mut octets = Vec::new(alloc);
    put_numbered(&mut octets, builder)?;
    put_named(&mut octets, builder)?;
    put_key(&mut octets, builder.key)?;
    put_list(&mut octets, listed)?;
    Ok(octets)
}

/// What is signed of a certificate with these extensions (RFC 5280 4.1).
///
/// The errors are `TooLong` for 2^32 octets or more, and `OutOfMemory` if allocation fails.
pub(crate) fn write_tbs(
    alloc: Global,
    builder: &TbsCertBuilder<'_>,
    listed: &Captured,
) -> Result<Captured, IssueError>
    ensures ok { IfOk result (λ c. c ≡ tbs_octets (issued_of builder.now) listed.now) }
    // It is read as the normal form, with the extensions that are spelled.
    ensures read { IfOk result (λ _. IsRead (issued_of builder.now) listed.now) }
    ensures err { IfErr result (λ e. IsWriteRefusal (issued_of builder.now) listed.now e) }
{
    let contents = put_all(alloc, builder, listed)?;
    if contents.len() >= 1 << 32 {
        return Err(IssueError::TooLong);
    }
    let captured = capture(alloc, contents.as_slice())?;
    // its clause says that they are values
    let _ = captured.values();
    match Captured::from_values(alloc, &Sequence::new(&captured)) {
        Ok(octets) => Ok(octets),
        Err(_) => Err(IssueError::OutOfMemory),
    }
}
