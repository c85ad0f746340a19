//! Where something is, as an extension of a certificate says.

ghost use Rattle.std.specs.Prelude.{◌≡◌, is_some};
ghost use Rattle.std.specs.Option.{option_copied};
ghost use Rattle.rpki_cert.specs.AccessDescription.{description_of};
ghost use Rattle.rpki_c.specs.Access.{method_number, IsTextOf, HasAccess, IsAccessTaken, IsNameTaken, IsPointRead};

use crate::span::Span;
use rpki::der::Oid;
use rpki::oid;
use rpki_cert::{AccessDescription, point_names, take_general_name};
use rpki_der::Constructed;

/// The parts of an access description.
#[repr(C)]
#[derive(Clone, Copy)]
pub struct AccessParts<'a> {
    /// The contents octets of the identifier of the method.
    pub id: Span<'a>,
    /// The text of the URI; no octets where the name is of another form.
    pub uri: Span<'a>,
    /// The number of the method.
    pub method: u8,
    /// Whether the name is a URI.
    pub is_uri: bool,
}

/// A general name.
#[repr(C)]
#[derive(Clone, Copy)]
pub struct GeneralNameParts<'a> {
    /// The text of the URI; no octets where the name is of another form.
    pub uri: Span<'a>,
    /// Whether the name is a URI.
    pub is_uri: bool,
}

/// How a method is passed: 0 for one that is none of the RPKI's.
fn method_number(method: Oid<&[u8]>) -> u8
    ensures { result ≡ method_number method.entry.0.now }
{
    if method == oid::AD_CA_ISSUERS {
        1
    } else if method == oid::AD_CA_REPOSITORY {
        2
    } else if method == oid::AD_RPKI_MANIFEST {
        3
    } else if method == oid::AD_SIGNED_OBJECT {
        4
    } else if method == oid::AD_RPKI_NOTIFY {
        5
    } else {
        0
    }
}

/// The text of a name that is a URI; no octets where there is none.
fn text_of(text: Option<&[u8]>) -> Span<'_>
    ensures { IsTextOf (option_copied text.entry) result }
{
    match text {
        Some(text) => Span::of(text),
        None => Span::of(&[]),
    }
}

/// Whether there is a URI.
fn is_uri(text: Option<&[u8]>) -> bool
    ensures { result ≡ is_some (option_copied text.entry) }
{
    text.is_some()
}

/// The parts of an access description.
fn access_of<'a>(found: &AccessDescription<'a>) -> AccessParts<'a>
    ensures { HasAccess (description_of found.now) result }
{
    AccessParts {
        id: Span::of(found.method.0),
        uri: text_of(found.location),
        method: method_number(found.method),
        is_uri: is_uri(found.location),
    }
}

/// Takes the access description at the front of the span (RFC 5280 4.2.2.1), and says what its parts are. `rest`
/// becomes what follows, which is not looked at.
///
/// The status is 0, or the number of the error; then nothing is written. Nothing is allocated.
#[unsafe(no_mangle)]
pub extern "C" fn rpki_access_description<'a>(rest: &mut Span<'a>, out: &mut AccessParts<'a>) -> u8
    ensures { IsAccessTaken result rest.old rest.new out.old out.new }
{
    let mut cursor = Constructed::from_slice(rest.octets);
    match AccessDescription::take_from(&mut cursor) {
        Ok(found) => {
            *rest = Span::of(cursor.rest());
            *out = access_of(&found);
            0
        }
        Err(e) => e.number(),
    }
}

/// Takes the general name at the front of the span (RFC 5280 4.2.1.6), and says what its text is if it is a URI. `rest`
/// becomes what follows, which is not looked at.
///
/// The status is 0, or the number of the error; then nothing is written. Nothing is allocated.
#[unsafe(no_mangle)]
pub extern "C" fn rpki_general_name<'a>(rest: &mut Span<'a>, out: &mut GeneralNameParts<'a>) -> u8
    ensures { IsNameTaken result rest.old rest.new out.old out.new }
{
    let mut cursor = Constructed::from_slice(rest.octets);
    match take_general_name(&mut cursor) {
        Ok(found) => {
            *rest = Span::of(cursor.rest());
            *out = GeneralNameParts {
                uri: text_of(found),
                is_uri: is_uri(found),
            };
            0
        }
        Err(e) => e.number(),
    }
}

/// Reads CRL distribution points, which all of the octets are, of one point that has a full name and nothing else (RFC
/// 5280 4.2.1.13, RFC 6487 4.8.6), and says what its general names are, in sequence. They are not read.
///
/// The status is 0, or the number of the error; then `out` is unchanged. Nothing is allocated.
#[unsafe(no_mangle)]
pub extern "C" fn rpki_distribution_point<'a>(octets: &'a [u8], out: &mut Span<'a>) -> u8
    ensures { IsPointRead octets.now result out.old out.new }
{
    match point_names(octets) {
        Ok(names) => {
            *out = Span::of(names);
            0
        }
        Err(e) => e.number(),
    }
}
