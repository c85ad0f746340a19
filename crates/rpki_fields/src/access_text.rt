//! What is shown of access descriptions: each of them, in order.

ghost use Rattle.std.specs.Prelude.{◌≡◌, ◌++◌, ◌∷◌, [], map, OnOk, IfOk};
ghost use Rattle.std.specs.List.{flat_map, list_any};
ghost use Rattle.std.specs.Option.{option_map, option_copied};
ghost use Rattle.rpki_der.specs.Prelude.{left, Takes, TakesAll, TakesWhole};
ghost use Rattle.rpki_cert.specs.Access.{is_https};
ghost use Rattle.rpki_cert.specs.AccessDescription.{description, description_of};
ghost use Rattle.rpki_cert.specs.Cert.{find};
ghost use Rattle.rpki_fields.specs.AccessText.{each_description, any_access, AreDescribed, method_name, uri_octet};
ghost use Rattle.rpki_fields.specs.AccessText.{location_field, access_item, is_rsync, is_rsync_of, is_https_of, one_if};
ghost use Rattle.rpki_fields.specs.AccessText.{issuer_shown, signer_shown, subject_shown, is_critical, access_listing};
ghost use Rattle.rpki_fields.specs.AccessText.{HasIssuerAccess, HasSubjectAccess, HasAccess};
ghost use Rattle.rpki_fields.specs.Sheet.{sheet_with};

use crate::field::{Field, push_field};
use crate::identifier::push_identifier;
use crate::memory::is_memory;
use crate::sheet::{Item, Sheet};
use crate::value::hex_pair;
use rpki::der::{ConstOid, Constructed, DecodeError, Oid};
use rpki::oid;
use rpki::repository::error::ValidationError;
use rpki::repository::x509::ExtensionOctets;
use rpki::uri::{HttpsView, RsyncView};
use rpki_cert::{AccessDescription, TbsCert};
use std::alloc::{AllocError, Global};

/// The descriptions that these contents are, in sequence.
fn take_each<'a>(
    alloc: Global,
    contents: &mut Constructed<'a>,
) -> Result<Vec<AccessDescription<'a>>, DecodeError>
    ensures { TakesAll (λ v. map description_of v.items) each_description (left contents.old) (left contents.new)
        result }
{
    contents.take_each(
        alloc,
        |rest|
            ensures { Takes description_of description (left rest.old) (left rest.new) result }
        { AccessDescription::take_from(rest) },
    )
}

/// A SEQUENCE of descriptions.
fn take_list<'a>(
    alloc: Global,
    cons: &mut Constructed<'a>,
) -> Result<Vec<AccessDescription<'a>>, DecodeError>
    ensures { Takes (λ v. map description_of v.items) any_access (left cons.old) (left cons.new) result }
{
    cons.in_sequence(
        |contents|
            ensures { TakesAll (λ v. map description_of v.items) each_description (left contents.old)
                (left contents.new) result }
        { take_each(alloc, contents) },
    )
}

/// The descriptions that these octets are, and nothing else.
fn read_list<'a>(alloc: Global, octets: &'a [u8]) -> Result<Vec<AccessDescription<'a>>, DecodeError>
    ensures { TakesWhole (λ v. map description_of v.items) any_access octets.entry.now result }
{
    Constructed::from_slice(octets).whole(
        |cons|
            ensures { Takes (λ v. map description_of v.items) any_access (left cons.old) (left cons.new) result }
        { take_list(alloc, cons) },
    )
}

/// The first extension of this identifier.
fn find<'a>(all: &'a [ExtensionOctets], id: ConstOid) -> Option<&'a ExtensionOctets>
    ensures { option_map (λ x. x.now) result ≡ find id.entry.0.now all.now }
{
    'extensions: for extension in all {
        if extension.id() == id {
            return Some(extension);
        }
    }
    None
}

/// The descriptions of an extension: none where it isn't there, or is malformed.
fn descriptions<'a>(
    alloc: Global,
    found: Option<&'a ExtensionOctets>,
) -> Result<Vec<AccessDescription<'a>>, AllocError>
    ensures { IfOk result (λ all. AreDescribed (option_map (λ x. x.now) found.entry)
        (map description_of all.items)) }
{
    match found {
        Some(extension) => match read_list(alloc, extension.octets()) {
            Ok(all) => Ok(all),
            Err(e) => {
                if is_memory(ValidationError::Decoding(e)) {
                    return Err(AllocError);
                }
                Ok(Vec::new(alloc))
            }
        },
        None => Ok(Vec::new(alloc)),
    }
}

/// Adds the name of a method; of an unknown one its identifier.
fn push_method(text: &mut Vec<u8>, id: Oid<&[u8]>) -> Result<(), AllocError>
    ensures { OnOk result (text.new.items ≡ text.old.items ++ method_name id.entry.0.now) }
{
    if id == oid::AD_CA_ISSUERS {
        text.extend_from_slice(b"caIssuers")
    } else if id == oid::AD_CA_REPOSITORY {
        text.extend_from_slice(b"caRepository")
    } else if id == oid::AD_RPKI_MANIFEST {
        text.extend_from_slice(b"rpkiManifest")
    } else if id == oid::AD_SIGNED_OBJECT {
        text.extend_from_slice(b"signedObject")
    } else if id == oid::AD_RPKI_NOTIFY {
        text.extend_from_slice(b"rpkiNotify")
    } else {
        push_identifier(text, id.0)
    }
}

/// Adds an octet of a URI.
fn push_uri_octet(text: &mut Vec<u8>, octet: u8) -> Result<(), AllocError>
    ensures { OnOk result (text.new.items ≡ text.old.items ++ uri_octet octet) }
{
    if octet < 33 || 126 < octet || octet == b'\\' {
        let digits = hex_pair(octet);
        text.extend_from_slice(&[b'\\', digits[0], digits[1]])?;
        return Ok(());
    }
    text.push(octet)?;
    Ok(())
}

/// A URI, of visible characters.
fn uri_text(alloc: Global, octets: &[u8]) -> Result<Vec<u8>, AllocError>
    ensures { IfOk result (λ text. text.items ≡ flat_map uri_octet octets.now) }
{
    let mut text = Vec::new(alloc);
    'octets: for octet in octets {
        push_uri_octet(&mut text, *octet)?;
    }
    Ok(text)
}

/// Adds where something is.
fn push_location(fields: &mut Vec<Field>, location: Option<&[u8]>) -> Result<(), AllocError>
    ensures { OnOk result (fields.new.items
        ≡ fields.old.items ++ (location_field (option_copied location.entry) ∷ [])) }
{
    match location {
        Some(octets) => {
            let text = uri_text(*fields.allocator(), octets)?;
            push_field(fields, b"URI", text.as_slice())
        }
        None => push_field(fields, b"Location", b"not a URI"),
    }
}

/// A description as an item.
fn access_item(alloc: Global, description: AccessDescription<'_>) -> Result<Item, AllocError>
    ensures { IfOk result (λ item. item ≡ access_item (description_of description.entry)) }
{
    let mut method = Vec::new(alloc);
    push_method(&mut method, description.method)?;
    let mut fields = Vec::new(alloc);
    push_field(&mut fields, b"Method", method.as_slice())?;
    push_location(&mut fields, description.location)?;
    Ok(Item::new(fields))
}

/// The descriptions as items, in order.
fn access_items(alloc: Global, all: &[AccessDescription<'_>]) -> Result<Vec<Item>, AllocError>
    ensures { IfOk result (λ items. items.items ≡ map access_item (map description_of all.now)) }
{
    let mut items = Vec::new(alloc);
    'descriptions: for description in all {
        let item = access_item(alloc, *description)?;
        items.push(item)?;
    }
    Ok(items)
}

/// Whether the text is an rsync URI.
fn is_rsync(location: Option<&[u8]>) -> bool
    ensures { result ≡ is_rsync (option_copied location.entry) }
{
    match location {
        Some(text) => RsyncView::from_slice(text).is_ok(),
        None => false,
    }
}

/// Whether the text is an https URI.
fn is_https(location: Option<&[u8]>) -> bool
    ensures { result ≡ is_https (option_copied location.entry) }
{
    match location {
        Some(text) => HttpsView::from_slice(text).is_ok(),
        None => false,
    }
}

/// Whether the description is of this method, and has an rsync URI.
fn is_rsync_of(method: ConstOid, description: &AccessDescription<'_>) -> bool
    ensures { result ≡ is_rsync_of method.entry.0.now (description_of description.now) }
{
    description.method == method && is_rsync(description.location)
}

/// Whether the description is of this method, and has an https URI.
fn is_https_of(method: ConstOid, description: &AccessDescription<'_>) -> bool
    ensures { result ≡ is_https_of method.entry.0.now (description_of description.now) }
{
    description.method == method && is_https(description.location)
}

/// 1 where one of the descriptions is of this method, and has an rsync URI.
fn rsync_count(method: ConstOid, all: &[AccessDescription<'_>]) -> usize
    ensures { result ≡ one_if (list_any (is_rsync_of method.entry.0.now) (map description_of all.now)) }
{
    'descriptions: for description in all {
        if is_rsync_of(method, description) {
            return 1;
        }
    }
    0
}

/// 1 where one of the descriptions is of this method, and has an https URI.
fn https_count(method: ConstOid, all: &[AccessDescription<'_>]) -> usize
    ensures { result ≡ one_if (list_any (is_https_of method.entry.0.now) (map description_of all.now)) }
{
    'descriptions: for description in all {
        if is_https_of(method, description) {
            return 1;
        }
    }
    0
}

/// How many descriptions of authority information access fields show.
fn issuer_shown(all: &[AccessDescription<'_>]) -> usize
    ensures { result ≡ issuer_shown (map description_of all.now) }
{
    rsync_count(oid::AD_CA_ISSUERS, all)
}

/// How many descriptions of subject information access the fields of an object show.
fn signer_shown(all: &[AccessDescription<'_>]) -> usize
    ensures { result ≡ signer_shown (map description_of all.now) }
{
    rsync_count(oid::AD_SIGNED_OBJECT, all)
}

/// How many descriptions of subject information access the fields of a certificate show.
fn subject_shown(all: &[AccessDescription<'_>]) -> usize
    ensures { result ≡ subject_shown (map description_of all.now) }
{
    let authority = rsync_count(oid::AD_CA_REPOSITORY, all)
        + rsync_count(oid::AD_RPKI_MANIFEST, all);
    authority + (signer_shown(all) + https_count(oid::AD_RPKI_NOTIFY, all))
}

/// Whether an extension is there and critical.
fn is_critical(found: Option<&ExtensionOctets>) -> bool
    ensures { result ≡ is_critical (option_map (λ x. x.now) found.entry) }
{
    match found {
        Some(extension) => extension.critical(),
        None => false,
    }
}

/// The sheet with these descriptions of an extension at its end, under a label, of which fields show so many.
fn with_listing(
    alloc: Global,
    sheet: Sheet,
    label: &[u8],
    found: Option<&ExtensionOctets>,
    shown: usize,
    all: &[AccessDescription<'_>],
) -> Result<Sheet, AllocError>
    ensures { IfOk result (λ s. s ≡ sheet_with (access_listing label.now (option_map (λ x. x.now) found.entry) shown
        (map description_of all.now)) sheet) }
{
    let items = access_items(alloc, all)?;
    let in_lines = is_critical(found) || shown < all.len();
    sheet.with_listing(alloc, label, items, in_lines)
}

/// The sheet with the descriptions of the issuer at its end.
fn issuer_access(alloc: Global, sheet: Sheet, tbs: &TbsCert) -> Result<Sheet, AllocError>
    ensures { IfOk result (λ s. HasIssuerAccess tbs.now.extensions sheet s) }
{
    let found = find(tbs.extensions(), oid::PE_AUTHORITY_INFO_ACCESS);
    let all = descriptions(alloc, found)?;
    let shown = issuer_shown(all.as_slice());
    with_listing(
        alloc,
        sheet,
        b"Authority Information Access",
        found,
        shown,
        all.as_slice(),
    )
}

/// The sheet of a certificate with the descriptions of the issuer and of the subject at its end.
///
/// Returns `AllocError` if allocation fails.
pub fn cert_access(alloc: Global, sheet: Sheet, tbs: &TbsCert) -> Result<Sheet, AllocError>
    ensures { IfOk result (λ s. HasAccess subject_shown tbs.now.extensions sheet s) }
{
    let between = issuer_access(alloc, sheet, tbs)?;
    let found = find(tbs.extensions(), oid::PE_SUBJECT_INFO_ACCESS);
    let all = descriptions(alloc, found)?;
    let shown = subject_shown(all.as_slice());
    with_listing(
        alloc,
        between,
        b"Subject Information Access",
        found,
        shown,
        all.as_slice(),
    )
}

/// The sheet of an object with the descriptions of the certificate of its signer at its end.
///
/// Returns `AllocError` if allocation fails.
pub fn signer_access(alloc: Global, sheet: Sheet, tbs: &TbsCert) -> Result<Sheet, AllocError>
    ensures { IfOk result (λ s. HasAccess signer_shown tbs.now.extensions sheet s) }
{
    let between = issuer_access(alloc, sheet, tbs)?;
    let found = find(tbs.extensions(), oid::PE_SUBJECT_INFO_ACCESS);
    let all = descriptions(alloc, found)?;
    let shown = signer_shown(all.as_slice());
    with_listing(
        alloc,
        between,
        b"Subject Information Access",
        found,
        shown,
        all.as_slice(),
    )
}
