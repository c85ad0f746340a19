//! The octets of what is signed of a request, part by part (RFC 2986 4.1, RFC 6487 6).

ghost use Rattle.std.specs.Prelude.{◌≡◌, ◌<◌, ◌^◌, [], ◌∷◌, ◌++◌, length, IfOk, IfErr, option_map};
ghost use Rattle.rpki_der.specs.Prelude.{AreValues};
ghost use Rattle.rpki_time.specs.Serial.{serial_octets};
ghost use Rattle.rpki_issue.specs.Contents.{CanPublish};
ghost use Rattle.rpki_issue.specs.Refusal.{IsMore};
ghost use Rattle.rpki_issue.specs.Requests.{usage_part, asked_extensions, asked_octets, attributes_octets};
ghost use Rattle.rpki_issue.specs.Requests.{asker_octets, IsAsker, AreAskers, info_contents, info_octets, IsShortInfo};
ghost use Rattle.rpki_issue.specs.Rows.{constraints_extension};
ghost use Rattle.rpki_issue.specs.Written.{IsKeyedRefusal};

use crate::capture::{capture, capture_sequence};
use crate::contents::encode_constraints;
use crate::error::IssueError;
use crate::kind::Repository;
use crate::listed::{push, push_repository, push_usage};
use crate::row::Row;
use crate::written::{put, put_key};
use rpki::crypto::PublicKey;
use rpki::der::{
    Around, Captured, ConstOid, Primitive, PrimitiveContent, Sequence, Set, StandingValue, Values,
};
use rpki::oid;
use rpki::repository::x509::{NameOctets, Serial};
use rpki_cert::KeyUsage;
use rpki_x509::ContextZeroFrame;
use std::alloc::{AllocError, Global};

/// What is signed of a request for the certificate of an authority.
#[derive(Clone, Copy)]
pub struct CsrBuilder<'a> {
    /// The subject; None where the issuer is to name it (RFC 6487 6.1.1).
    pub subject: Option<&'a NameOctets>,
    /// The subject's key, which signs the request.
    pub key: &'a PublicKey,
    /// Whether the use of an authority's key is asked for (RFC 6487 6.3).
    pub key_usage: bool,
    /// Where the authority is to publish.
    pub repository: Repository<'a>,
}

/// An encoder for the attribute of the requested extensions, under its tag (RFC 2985 5.4.2).
type AttributesEncoder<'a> = Around<
    ContextZeroFrame,
    Sequence<(Primitive<ConstOid>, Set<Sequence<&'a Captured>>)>,
>;

/// Adds the basic constraints of an authority.
fn push_basic(listed: &mut Vec<u8>) -> Result<(), AllocError>
    ensures { IfOk result (λ _. IsMore listed.old.items listed.new.items (constraints_extension ∷ [])) }
{
    push(listed, Row::BasicConstraints, encode_constraints())
}

/// Adds the use of an authority's key, where it is asked for.
fn push_asked(listed: &mut Vec<u8>, asked: bool) -> Result<(), AllocError>
    ensures { IfOk result (λ _. IsMore listed.old.items listed.new.items (usage_part asked)) }
{
    if asked {
        return push_usage(listed, KeyUsage::Ca);
    }
    Ok(())
}

/// The octets of the extensions that are asked for.
fn list_asked(alloc: Global, builder: &CsrBuilder<'_>) -> Result<Vec<u8>, AllocError>
    requires { CanPublish builder.now.repository }
    ensures { IfOk result (λ v. v.items ≡ asked_octets builder.now) }
{
    let mut listed = Vec::new(alloc);
    push_basic(&mut listed)?;
    push_asked(&mut listed, builder.key_usage)?;
    push_repository(&mut listed, &builder.repository)?;
    Ok(listed)
}

/// The attribute of these extensions. Requires that they are few.
fn encode_attributes(listed: &Captured) -> AttributesEncoder<'_>
    requires { length listed.now < 2 ^ 20 }
    ensures octets { ⟦<AttributesEncoder<'static> as Values>⟧.encoded result ≡ attributes_octets listed.now }
    ensures short { ⟦<AttributesEncoder<'static> as Values>⟧.is_short result }
{
    // its clause says that they are values
    let _ = listed.values();
    let extensions = Set::new(Sequence::new(listed));
    Around::new(Sequence::new((oid::EXTENSION_REQUEST.encode(), extensions)))
}

/// Adds the subject's name, or a SEQUENCE of nothing.
fn put_subject(octets: &mut Vec<u8>, subject: Option<&NameOctets>) -> Result<(), AllocError>
    ensures more { IfOk result (λ _. octets.new.items
        ≡ octets.old.items ++ asker_octets (option_map (λ name. name.now) subject.entry)) }
    ensures known { IfOk result (λ _. IsAsker (option_map (λ name. name.now) subject.entry)) }
{
    match subject {
        Some(name) => {
            let name = name.encode_ref();
            put(octets, name)
        }
        None => {
            let nothing: Option<StandingValue<'_>> = None;
            put(octets, Sequence::new(nothing))
        }
    }
}

/// Adds the version, whose number is 0, and the subject.
fn put_asker(octets: &mut Vec<u8>, subject: Option<&NameOctets>) -> Result<(), AllocError>
    ensures more { IfOk result (λ _. octets.new.items
        ≡ octets.old.items ++ (serial_octets 0 ++ asker_octets (option_map (λ name. name.now) subject.entry))) }
    ensures known { IfOk result (λ _. IsAsker (option_map (λ name. name.now) subject.entry)) }
{
    put(octets, Serial::from(0u128).encode())?;
    put_subject(octets, subject)
}

/// All parts, in order. Requires that the extensions are few.
fn put_all(
    alloc: Global,
    builder: &CsrBuilder<'_>,
    listed: &Captured,
) -> Result<Vec<u8>, IssueError>
    requires { length listed.now < 2 ^ 20 }
    ensures ok { IfOk result (λ v. v.items ≡ info_contents builder.now listed.now) }
    ensures known { IfOk result (λ _. AreAskers builder.now) }
    ensures err { IfErr result (λ e. IsKeyedRefusal (IsShortInfo builder.now listed.now) e) }
{
    let mut octets = Vec::new(alloc);
    put_asker(&mut octets, builder.subject)?;
    match put_key(&mut octets, builder.key) {
        Ok(()) => {}
        Err(e) => return Err(e),
    }
    put(&mut octets, encode_attributes(listed))?;
    Ok(octets)
}

/// What is signed of a request. Requires that readers accept the URIs.
///
/// The errors are `TooLong` for 2^32 octets or more, and `OutOfMemory` if allocation fails.
pub(crate) fn write_info(alloc: Global, builder: &CsrBuilder<'_>) -> Result<Captured, IssueError>
    requires { CanPublish builder.now.repository }
    ensures ok { IfOk result (λ c. c ≡ info_octets builder.now (asked_octets builder.now)) }
    ensures one { IfOk result (λ c. AreValues 1 c) }
    ensures known { IfOk result (λ _. AreAskers builder.now) }
    ensures few { IfOk result (λ _. IsShortInfo builder.now (asked_octets builder.now)) }
    ensures err { IfErr result (λ e. IsKeyedRefusal (IsShortInfo builder.now (asked_octets builder.now)) e) }
{
    let listed = list_asked(alloc, builder)?;
    let listed = capture(alloc, listed.as_slice())?;
    match put_all(alloc, builder, &listed) {
        Ok(contents) => capture_sequence(alloc, contents.as_slice()),
        Err(e) => Err(e),
    }
}
