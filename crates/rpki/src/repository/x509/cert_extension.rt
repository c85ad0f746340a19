//! Extensions of certificates, read and kept (RFC 5280 4.1, 4.2).

ghost use Rattle.std.specs.Prelude.{◌≡◌, ◌<◌, ◌^◌, ◌↔◌, ◌⊎◌, false, length, IfOk, IfSome, IfNone};
ghost use Rattle.rpki_der.specs.Prelude.{left, Takes, TakesWhere, TakesWhole, CanShare, sequence, boolean_contents};
ghost use Rattle.rpki.specs.Extension.{extension_octets};
ghost use Rattle.rpki.specs.ExtensionValue.{ExtensionParts, extension_parts, SpellsExtension, written_extension};
ghost use Rattle.rpki.specs.ExtensionValue.{CanBeWritten};
ghost use Rattle.rpki.specs.ExtensionFault.{captured_extension};

mod grammar;
mod octets;
mod view;

pub use self::octets::ExtensionOctets;
pub use self::view::{ExtensionView, PlacedExtension};
use bytes::Bytes;
use rpki_der::{
    Captured, Constructed, DecodeError, Keep, Oid, Primitive, PrimitiveContent, Sequence, Shared,
    Tag, Values,
};
use std::alloc::{AllocError, Global};
use std::marker::Model;

/// An extension of a certificate: an identifier, whether the extension is critical, and the octets of its value, as it
/// was read (RFC 5280 4.1, 4.2), with the index of its headers. [ExtensionOctets] has the octets of the parts alone.
#[derive(Debug, Drop)]
pub struct CertExtension {
    captured: Captured,
}

impl Model for CertExtension {
    ghost use Rattle.rpki.specs.ExtensionValue.{ExtensionParts, SpellsExtension, parts_of_extension};

    ghost Value = { ExtensionParts };

    ghost view = { λ x. parts_of_extension x.captured };

    ghost invariant = { λ x. SpellsExtension (parts_of_extension x.captured) x.captured };
}

/// An encoder for an extension that was read: its identifier, TRUE where it is critical, and the OCTET STRING.
pub type ExtensionBytes<'a> = Sequence<
    (
        Primitive<Oid<&'a [u8]>>,
        Option<Primitive<bool>>,
        Primitive<&'a [u8]>,
    ),
>;

/// An encoder for the extension of these parts.
fn encode_parts<'a>(id: Oid<&'a [u8]>, critical: bool, octets: &'a [u8]) -> ExtensionBytes<'a>
    requires { CanBeWritten (extension_parts id.0.now critical octets.now) }
    ensures octets { ⟦<ExtensionBytes<'static> as Values>⟧.encoded result
        ≡ extension_octets id.entry.0.now critical octets.now }
    ensures short { ⟦<ExtensionBytes<'static> as Values>⟧.is_short result }
{
    let critical = if critical { Some(true.encode()) } else { None };
    Sequence::new((id.encode(), critical, octets.encode()))
}

/// The error of an extension in whose SEQUENCE octets follow the parts: `OutOfMemory` if allocation fails as it is
/// captured, and else `Trailing`.
fn error_behind<K: Keep>(keep: K, cons: &Constructed<'_>) -> DecodeError
    requires { K.holds keep (left cons.now) }
    ensures { (result ≡ DecodeError.OutOfMemory) ⊎ (result ≡ DecodeError.Trailing) }
{
    let mut after = *cons;
    match after.capture_one(keep) {
        Err(DecodeError::OutOfMemory) => DecodeError::OutOfMemory,
        _ => DecodeError::Trailing,
    }
}

impl CertExtension {
    /// An extension, and nothing else. It shares the octets.
    ///
    /// The errors are those of [CertExtension::take_from]; then `Trailing` if something follows the extension.
    pub fn decode(alloc: Global, bytes: Bytes) -> Result<CertExtension, DecodeError>
        ensures { TakesWhole (λ x. x) captured_extension bytes result }
    {
        Constructed::new(&bytes).whole_with(
            Shared::new(alloc, &bytes),
            |cons, keep|
                requires { CanShare keep (left cons.old) }
            { CertExtension::take_from(keep, cons) },
        )
    }

    /// An extension: a SEQUENCE of an OBJECT IDENTIFIER, of a BOOLEAN that says whether it is critical, and of an OCTET
    /// STRING. The BOOLEAN may be left out, which is FALSE; a FALSE that is spelled is read too, although X.690 11.5
    /// forbids it. An allocator copies the octets, and [Shared](rpki_der::Shared) shares them; requires that `keep` can
    /// keep parts of the rest.
    ///
    /// The errors are those of a SEQUENCE; then those of the parts; then `OutOfMemory` if allocation fails as the
    /// extension is captured, only where its parts are there; and `Trailing` for octets that follow them.
    pub fn take_from<K: Keep>(
        keep: K,
        cons: &mut Constructed<'_>,
    ) -> Result<CertExtension, DecodeError>
        requires { K.holds keep (left cons.old) }
        ensures { Takes (λ x. x) captured_extension (left cons.old) (left cons.new) result }
    {
        let mut after = *cons;
        match ExtensionView::take_from(&mut after) {
            Ok(_) => match cons.capture_one(keep) {
                Ok(captured) => Ok(CertExtension { captured }),
                Err(e) => Err(e),
            },
            Err(DecodeError::Trailing) => Err(error_behind(keep, cons)),
            Err(e) => Err(e),
        }
    }

    /// As [CertExtension::take_from] where the rest begins with the identifier octets of a SEQUENCE, in either
    /// form; else None, and the cursor stays where it is.
    pub fn take_opt_from<K: Keep>(
        keep: K,
        cons: &mut Constructed<'_>,
    ) -> Result<Option<CertExtension>, DecodeError>
        requires { K.holds keep (left cons.old) }
        ensures { TakesWhere sequence (λ x. x) captured_extension (left cons.old) (left cons.new) result }
    {
        if !cons.has_tag(Tag::SEQUENCE) {
            return Ok(None);
        }
        let extension = CertExtension::take_from(keep, cons)?;
        Ok(Some(extension))
    }

    /// The contents of the parts, as the index has them: of the identifier, of the BOOLEAN where it is there, and of
    /// the OCTET STRING.
    fn parts(&self) -> (&[u8], Option<&[u8]>, &[u8])
        ensures identifier { result.0.now ≡ self.now.identifier }
        ensures absent { IfNone result.1 (self.now.critical ≡ false) }
        ensures critical { IfSome result.1 (λ c. c.now ≡ boolean_contents self.now.critical) }
        ensures content { result.2.now ≡ self.now.content }
        ensures writable { CanBeWritten self.now }
    {
        let mut members = self.captured.members(Some(0));
        let first = members.next().unwrap();
        let second = members.next().unwrap();
        let identifier = self.captured.contents(first);
        let next = self.captured.contents(second);
        match members.next() {
            Some(third) => (identifier, Some(next), self.captured.contents(third)),
            None => (identifier, None, next),
        }
    }

    /// The identifier. It comes from the index: no header is read again, and nothing is allocated.
    pub fn id(&self) -> Oid<&[u8]>
        ensures value { result.0.now ≡ self.now.identifier }
        // It is an identifier, and a length announces the contents of the extension.
        ensures writable { CanBeWritten self.now }
    {
        Oid(self.parts().0)
    }

    /// Whether the extension is critical; it is not where the BOOLEAN is left out. It comes from the index.
    pub fn critical(&self) -> bool
        ensures { result ≡ self.now.critical }
    {
        match self.parts().1 {
            Some(contents) => contents == [0xff].as_slice(),
            None => false,
        }
    }

    /// The octets of the OCTET STRING, which the extension's identifier gives a meaning. They come from the index.
    pub fn octets(&self) -> &[u8]
        ensures { result.now ≡ self.now.content }
    {
        self.parts().2
    }

    /// A cursor on the octets of the OCTET STRING.
    pub fn cursor(&self) -> Constructed<'_>
        ensures { left result ≡ self.now.content }
    {
        let mut members = self.captured.members(Some(0));
        members.next();
        let second = members.next().unwrap();
        match members.next() {
            Some(third) => self.captured.contents_cursor(third),
            None => self.captured.contents_cursor(second),
        }
    }

    /// The extension, with its parts borrowed.
    pub fn view(&self) -> ExtensionView<'_>
        ensures { result ≡ self.now }
    {
        ExtensionView::of_parts(self.id(), self.critical(), self.octets())
    }

    /// An encoder for the extension: the identifier, TRUE where it is critical, and the OCTET STRING. FALSE is left
    /// out, as X.690 11.5 requires.
    pub fn encode_ref(&self) -> ExtensionBytes<'_>
        ensures octets { ⟦<ExtensionBytes<'static> as Values>⟧.encoded result ≡ written_extension self.now }
        ensures short { ⟦<ExtensionBytes<'static> as Values>⟧.is_short result }
        ensures size { length (written_extension self.now) < 2 ^ 63 }
        // The encoding is read as the same extension.
        ensures read_back { SpellsExtension self.now (written_extension self.now) }
        // Extensions have the same encoding exactly where they are equal.
        ensures same { (other : ExtensionParts) → CanBeWritten other
            → (written_extension self.now ≡ written_extension other) ↔ (self.now ≡ other) }
    {
        encode_parts(self.id(), self.critical(), self.octets())
    }

    /// Returns a copy of the extension that shares its octets and copies the index of their headers.
    ///
    /// Returns `AllocError` if allocation fails.
    pub fn clone(&self) -> Result<CertExtension, AllocError>
        ensures { IfOk result (λ x. x ≡ self.now) }
    {
        let captured = self.captured.clone()?;
        Ok(CertExtension { captured })
    }
}

/// Two extensions are equal where their three parts are; one may spell FALSE that the other leaves out.
impl PartialEq for CertExtension {
    ghost use Rattle.std.specs.Cmp.{partial_equiv_from_equiv};
    ghost use Rattle.rpki.specs.ExtensionEqual.{same_extension};
    ghost use Rattle.rpki.specs.ExtensionEqualLaws.{same_extension_equivalence};

    ghost eq = { same_extension };

    ghost laws = { partial_equiv_from_equiv same_extension_equivalence };

    fn eq(&self, other: &Self) -> bool {
        self.id().0 == other.id().0
            && self.critical() == other.critical()
            && self.octets() == other.octets()
    }
}

impl Eq for CertExtension {
    ghost use Rattle.rpki.specs.ExtensionEqualLaws.{same_extension_equivalence};

    ghost laws = { same_extension_equivalence };
}
