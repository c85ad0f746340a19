//! Signed objects whose content is read where it is shown: signed checklists (RFC 9323), trust anchor keys (RFC 9691)
//! and Ghostbusters records (RFC 6493).

ghost use Rattle.std.specs.Prelude.{◌≡◌, ◌↔◌, IsTrue, MatchResult};
ghost use Rattle.rpki_fields.specs.Record.{AreAnchorKeys, AreNoAnchorKeys, IsAnchorKeysFault, IsAnchorKeysObject};
ghost use Rattle.rpki_fields.specs.Record.{IsChecklist, IsChecklistFault, IsChecklistObject, IsNoChecklist, IsSound};
ghost use Rattle.rpki_fields.specs.Record.{IsCard, IsCardFault, IsCardObject, IsNoCard, IsNoSound};
ghost use Rattle.rpki_records.specs.Checklist.{found_checklist};

use rpki::der::{ConstOid, DecodeError};
use rpki_objects::SignedObject;
use rpki_records::identifier::{CT_RPKI_GHOSTBUSTERS, CT_SIGNED_CHECKLIST, CT_SIGNED_TAL};
use rpki_records::{Card, Checklist, TakView};
use std::alloc::Global;

/// Whether the content of the object has this type.
fn has_type(object: &SignedObject, wanted: ConstOid) -> bool
    ensures { IsTrue result ↔ (object.now.content.content_type ≡ wanted.entry.0.now) }
{
    object.content_type().0.as_slice() == wanted.0
}

/// Whether the resources of a checklist are well, and its files differ.
fn check_found(alloc: Global, found: &Checklist<'_>) -> Result<(), DecodeError>
    ensures { MatchResult result (λ _. IsSound (found_checklist found.now)) (IsNoSound (found_checklist found.now)) }
{
    match found.resources() {
        Ok(_) => {}
        Err(e) => return Err(e),
    }
    match found.entries_differ(alloc) {
        Ok(true) => Ok(()),
        Ok(false) => Err(DecodeError::content("file listed twice")),
        Err(_) => Err(DecodeError::OutOfMemory),
    }
}

/// Whether all of the octets are a checklist.
fn check_checklist_content(alloc: Global, octets: &[u8]) -> Result<(), DecodeError>
    ensures { MatchResult result (λ _. IsChecklist octets.now) (IsNoChecklist octets.now) }
{
    match Checklist::read(octets) {
        Ok(found) => check_found(alloc, &found),
        Err(wrong) => Err(wrong.error),
    }
}

/// Whether the content of the object is a signed checklist.
///
/// Returns `Content` with the text `another content type`; then the errors of [Checklist::read] and those of
/// [Checklist::resources]; then `Content` with the text `file listed twice`; `OutOfMemory` if allocation fails.
pub fn check_checklist(alloc: Global, object: &SignedObject) -> Result<(), DecodeError>
    ensures { MatchResult result (λ _. IsChecklistObject object.now) (IsChecklistFault object.now) }
{
    if !has_type(object, CT_SIGNED_CHECKLIST) {
        return Err(DecodeError::content("another content type"));
    }
    check_checklist_content(alloc, object.content().as_slice())
}

/// Whether all of the octets are trust anchor keys.
fn check_anchor_keys_content(octets: &[u8]) -> Result<(), DecodeError>
    ensures { MatchResult result (λ _. AreAnchorKeys octets.now) (AreNoAnchorKeys octets.now) }
{
    match TakView::read(octets) {
        Ok(_) => Ok(()),
        Err(wrong) => Err(wrong.error),
    }
}

/// Whether the content of the object is trust anchor keys.
///
/// Returns `Content` with the text `another content type`; then the errors of [TakView::read].
pub fn check_anchor_keys(object: &SignedObject) -> Result<(), DecodeError>
    ensures { MatchResult result (λ _. IsAnchorKeysObject object.now) (IsAnchorKeysFault object.now) }
{
    if !has_type(object, CT_SIGNED_TAL) {
        return Err(DecodeError::content("another content type"));
    }
    check_anchor_keys_content(object.content().as_slice())
}

/// Whether all of the octets are a vCard as a Ghostbusters record has it.
fn check_card_content(octets: &[u8]) -> Result<(), DecodeError>
    ensures { MatchResult result (λ _. IsCard octets.now) (IsNoCard octets.now) }
{
    match Card::read(octets) {
        Ok(_) => Ok(()),
        Err(wrong) => Err(wrong.error),
    }
}

/// Whether the content of the object is a vCard as a Ghostbusters record has it.
///
/// Returns `Content` with the text `another content type`; then the errors of [Card::read].
pub fn check_card(object: &SignedObject) -> Result<(), DecodeError>
    ensures { MatchResult result (λ _. IsCardObject object.now) (IsCardFault object.now) }
{
    if !has_type(object, CT_RPKI_GHOSTBUSTERS) {
        return Err(DecodeError::content("another content type"));
    }
    check_card_content(object.content().as_slice())
}
