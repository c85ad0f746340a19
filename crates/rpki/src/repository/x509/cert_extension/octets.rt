//! Extensions of certificates whose parts are kept as octets (RFC 5280 4.1, 4.2).

ghost use Rattle.std.specs.Prelude.{◌≡◌, IfOk};
ghost use Rattle.rpki_der.specs.Prelude.{left, Takes, CanShare};
ghost use Rattle.rpki.specs.ExtensionValue.{extension_parts, CanBeWritten};
ghost use Rattle.rpki.specs.ExtensionFault.{kept_extension};

use super::view::ExtensionView;
use bytes::Bytes;
use rpki_der::{Constructed, DecodeError, Keep, Oid, Shared};
use std::alloc::{AllocError, Global};
use std::marker::Model;

/// An extension of a certificate, as [CertExtension](crate::repository::x509::CertExtension), of which the octets of
/// the identifier and of the OCTET STRING are kept, without an index.
#[derive(Debug, Drop)]
pub struct ExtensionOctets {
    identifier: Bytes,
    critical: bool,
    content: Bytes,
}

impl Model for ExtensionOctets {
    ghost use Rattle.rpki.specs.ExtensionValue.{ExtensionParts, extension_parts, CanBeWritten};

    ghost Value = { ExtensionParts };

    ghost view = { λ x. extension_parts x.identifier x.critical x.content };

    ghost invariant = { λ x. CanBeWritten (extension_parts x.identifier x.critical x.content) };
}

impl ExtensionOctets {
    /// The extension of these parts.
    pub(super) fn of_parts(identifier: Bytes, critical: bool, content: Bytes) -> ExtensionOctets
        requires { CanBeWritten (extension_parts identifier critical content) }
        ensures { result ≡ extension_parts identifier critical content }
    {
        ExtensionOctets {
            identifier,
            critical,
            content,
        }
    }

    /// An extension, with the grammar of
    /// [CertExtension::take_from](crate::repository::x509::CertExtension::take_from). The octets of the identifier and
    /// of the OCTET STRING are kept: an allocator copies them, and [Shared](rpki_der::Shared) shares them; requires
    /// that `keep` can keep parts of the rest.
    ///
    /// The errors are those of a SEQUENCE; then those of the parts, `Trailing` for octets that follow them, and
    /// `OutOfMemory` if allocation fails, only where an extension is there.
    pub fn take_from<K: Keep>(
        keep: K,
        cons: &mut Constructed<'_>,
    ) -> Result<ExtensionOctets, DecodeError>
        requires { K.holds keep (left cons.old) }
        ensures { Takes (λ x. x) kept_extension (left cons.old) (left cons.new) result }
    {
        let mut after = *cons;
        let placed = ExtensionView::take_placed(&mut after)?;
        let extension = placed.extension;
        let identifier = cons.keep_part(keep, extension.id().0, &placed.following)?;
        let content = cons.keep_part(keep, extension.octets(), &after)?;
        *cons = after;
        Ok(extension.kept(identifier, content))
    }

    /// The identifier.
    pub fn id(&self) -> Oid<&[u8]>
        ensures value { result.0.now ≡ self.now.identifier }
        // It is an identifier, and a length announces the contents of the extension.
        ensures writable { CanBeWritten self.now }
    {
        Oid(self.identifier.as_slice())
    }

    /// Whether the extension is critical; it is not where the BOOLEAN is left out.
    pub fn critical(&self) -> bool
        ensures { result ≡ self.now.critical }
    {
        self.critical
    }

    /// The octets of the OCTET STRING, which the extension's identifier gives a meaning.
    pub fn octets(&self) -> &[u8]
        ensures { result.now ≡ self.now.content }
    {
        self.content.as_slice()
    }

    /// A cursor on the octets of the OCTET STRING. What a reader keeps of them with [ExtensionOctets::shared], it
    /// shares with the extension.
    pub fn cursor(&self) -> Constructed<'_>
        ensures { left result ≡ self.now.content }
    {
        Constructed::new(&self.content)
    }

    /// A keeper that shares parts of the octets of the OCTET STRING, for a reader on [ExtensionOctets::cursor].
    pub fn shared(&self, alloc: Global) -> Shared<'_>
        ensures { CanShare result self.now.content }
    {
        Shared::new(alloc, &self.content)
    }

    /// The extension, with its parts borrowed.
    pub fn view(&self) -> ExtensionView<'_>
        ensures { result ≡ self.now }
    {
        ExtensionView::of_parts(self.id(), self.critical(), self.octets())
    }

    /// Returns a copy of the extension that shares its octets.
    ///
    /// Returns `AllocError` if allocation fails.
    pub fn clone(&self) -> Result<ExtensionOctets, AllocError>
        ensures { IfOk result (λ x. x ≡ self.now) }
    {
        let identifier = self.identifier.clone()?;
        let content = self.content.clone()?;
        Ok(ExtensionOctets {
            identifier,
            critical: self.critical,
            content,
        })
    }
}
