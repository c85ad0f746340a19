//! Extensions of certificates, read in place (RFC 5280 4.1, 4.2).

ghost use Rattle.std.specs.Prelude.{◌≡◌, IfOk};
ghost use Rattle.rpki_der.specs.Prelude.{left, Takes};
ghost use Rattle.rpki_der.specs.Standing.{StandsBefore};
ghost use Rattle.rpki.specs.ExtensionValue.{extension_parts, CanBeWritten};
ghost use Rattle.rpki.specs.ExtensionFault.{extension};
ghost use Rattle.rpki.specs.ExtensionPlace.{IsBehindIdentifier};

use super::grammar::take_parts;
use super::octets::ExtensionOctets;
use bytes::Bytes;
use rpki_der::{Constructed, DecodeError, Oid};
use std::marker::Model;

/// An extension of a certificate, as [CertExtension](crate::repository::x509::CertExtension), whose parts are borrowed
/// from the octets that it was read from.
#[derive(Debug, Drop)]
pub struct ExtensionView<'a> {
    id: Oid<&'a [u8]>,
    critical: bool,
    octets: &'a [u8],
}

impl<'a> Model for ExtensionView<'a> {
    ghost use Rattle.rpki.specs.ExtensionValue.{ExtensionParts, extension_parts};

    ghost Value = { ExtensionParts };

    ghost view = { λ x. extension_parts x.id.0.now x.critical x.octets.now };
}

/// An extension that was read, and where its parts are: its identifier before what follows that, and its octets
/// before the rest.
#[derive(Drop)]
pub struct PlacedExtension<'a> {
    /// The extension.
    pub extension: ExtensionView<'a>,
    /// What follows the identifier, of all the remaining octets.
    pub following: Constructed<'a>,
}

impl<'a> ExtensionView<'a> {
    /// An extension, with the grammar and the errors of
    /// [CertExtension::take_from](crate::repository::x509::CertExtension::take_from), but for `OutOfMemory`. Allocates
    /// nothing.
    pub fn take_from(cons: &mut Constructed<'a>) -> Result<ExtensionView<'a>, DecodeError>
        ensures { Takes (λ x. x) extension (left cons.old) (left cons.new) result }
    {
        let placed = ExtensionView::take_placed(cons)?;
        Ok(placed.extension)
    }

    /// As [ExtensionView::take_from], with the same errors, and tells where the parts are: for a reader that keeps
    /// them.
    #[inline(always)]
    pub fn take_placed(cons: &mut Constructed<'a>) -> Result<PlacedExtension<'a>, DecodeError>
        ensures reads { Takes (λ x. x.extension) extension (left cons.old) (left cons.new) result }
        ensures place { IfOk result (λ x. IsBehindIdentifier (left cons.old) (left cons.new) x.extension.identifier
            (left x.following)) }
        ensures identifier { IfOk result (λ x. StandsBefore (left cons.old) x.extension.identifier
            (left x.following)) }
        ensures content { IfOk result (λ x. StandsBefore (left cons.old) x.extension.content (left cons.new)) }
        ensures writable { IfOk result (λ x. CanBeWritten x.extension) }
    {
        let all = cons.rest();
        let mut after = *cons;
        let contents = after.take_sequence()?;
        let (id, critical, octets, others) = take_parts(contents)?;
        let place = all.len() - (others.rest().len() + after.rest().len());
        let following = Constructed::from_slice(&all[place..]);
        *cons = after;
        Ok(PlacedExtension {
            extension: ExtensionView {
                id,
                critical,
                octets,
            },
            following,
        })
    }

    /// The extension of these parts.
    pub fn of_parts(id: Oid<&'a [u8]>, critical: bool, octets: &'a [u8]) -> ExtensionView<'a>
        ensures { result ≡ extension_parts id.entry.0.now critical octets.entry.now }
    {
        ExtensionView {
            id,
            critical,
            octets,
        }
    }

    /// The extension, of octets that were kept. Requires that they are those of its identifier and of its OCTET STRING,
    /// and that it can be written, as one that was read can: one of [ExtensionView::of_parts] may have any octets.
    pub fn kept(&self, identifier: Bytes, content: Bytes) -> ExtensionOctets
        requires same_identifier { identifier ≡ self.now.identifier }
        requires same_content { content ≡ self.now.content }
        requires writable { CanBeWritten self.now }
        ensures { result ≡ self.now }
    {
        ExtensionOctets::of_parts(identifier, self.critical, content)
    }

    /// The identifier.
    pub fn id(&self) -> Oid<&'a [u8]>
        ensures { result.0.now ≡ self.now.identifier }
    {
        self.id
    }

    /// Whether the extension is critical; it is not where the BOOLEAN is left out.
    pub fn critical(&self) -> bool
        ensures { result ≡ self.now.critical }
    {
        self.critical
    }

    /// The octets of the OCTET STRING, which the extension's identifier gives a meaning.
    pub fn octets(&self) -> &'a [u8]
        ensures { result.now ≡ self.now.content }
    {
        self.octets
    }
}
