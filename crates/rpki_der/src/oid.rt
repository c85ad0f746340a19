//! Object identifiers.

ghost use Rattle.std.specs.Prelude.{false, ◌≡◌, ◌↔◌, IsTrue};
ghost use Rattle.rpki_der.specs.Leaves.{IsOid};

use crate::cursor::Constructed;
use crate::error::DecodeError;
use crate::keep::Keep;
use crate::tag::Tag;
use bytes::Bytes;

/// An object identifier by its contents octets (X.690 8.19). One that is read is valid; one made by hand may be
/// invalid, and is written unchanged.
#[derive(Clone, Copy, Debug, PartialEq, Eq)]
pub struct Oid<T>(pub T);

/// An object identifier that is a constant.
pub type ConstOid = Oid<&'static [u8]>;

/// Whether these are the contents of an object identifier (X.690 8.19.2).
pub(crate) fn is_oid(contents: &[u8]) -> bool
    ensures { IsTrue result ↔ IsOid contents.now }
{
    let mut at_start = true;
    for octet in contents {
        if at_start && *octet == 0x80 {
            return false;
        }
        at_start = *octet < 0x80;
    }
    at_start && !contents.is_empty()
}

impl<'a> Oid<&'a [u8]> {
    ghost use Rattle.std.specs.Prelude.{◌≡◌, ◌↔◌, IsTrue, false};
    ghost use Rattle.rpki_der.specs.Leaves.{IsOid, IsOidOf, IsAnyOid, IsOnly};
    ghost use Rattle.rpki_der.specs.Cursor.{left};
    ghost use Rattle.rpki_der.specs.TagName.{oid};
    ghost use Rattle.rpki_der.specs.Values.{ReadsLeaf};

    /// Whether the octets are those of an object identifier: not empty, the top bit of the last octet clear, and no
    /// subidentifier begins with 80 (X.690 8.19.2).
    pub fn is_valid(&self) -> bool
        ensures { IsTrue result ↔ IsOid self.now.0.now }
    {
        is_oid(self.0)
    }

    /// An object identifier, as [Constructed::take_oid].
    pub fn take_from(cons: &mut Constructed<'a>) -> Result<Oid<&'a [u8]>, DecodeError>
        ensures { ReadsLeaf (λ o. o.0.now) oid IsOidOf (left cons.old) (left cons.new) result }
    {
        cons.take_oid()
    }

    /// Moves past any object identifier. The errors are those of [Constructed::take_oid].
    pub fn skip_in(cons: &mut Constructed<'_>) -> Result<(), DecodeError>
        ensures { ReadsLeaf (λ _. tt) oid IsAnyOid (left cons.old) (left cons.new) result }
    {
        cons.take_oid()?;
        Ok(())
    }

    /// Moves past exactly this object identifier, as [Constructed::skip_oid_if].
    pub fn skip_if(&self, cons: &mut Constructed<'_>) -> Result<(), DecodeError>
        ensures { ReadsLeaf (λ _. tt) oid (IsOnly self.now.0.now) (left cons.old) (left cons.new) result }
    {
        cons.take_only_oid(self.0)
    }
}

impl<'a> Constructed<'a> {
    ghost use Rattle.rpki_der.specs.Cursor.{left};
    ghost use Rattle.rpki_der.specs.TagName.{oid};
    ghost use Rattle.rpki_der.specs.Values.{ReadsLeaf};
    ghost use Rattle.rpki_der.specs.Leaves.{IsOnly, IsOidOf};
    ghost use Rattle.rpki_der.specs.Format.{Takes, kept};
    ghost use Rattle.rpki_der.specs.LeafFormats.{any_oid};

    /// An object identifier (X.690 8.19): its contents octets.
    ///
    /// The errors are those of a header; then `Unexpected` for another tag or form; then `Truncated`; then `Content`
    /// for contents that are not those of an object identifier: empty, cut within a subidentifier, or with a
    /// subidentifier that begins with 80.
    #[inline(always)]
    pub fn take_oid(&mut self) -> Result<Oid<&'a [u8]>, DecodeError>
        ensures { ReadsLeaf (λ o. o.0.now) oid IsOidOf (left self.old) (left self.new) result }
    {
        let mut after = *self;
        let contents = after.take_contents(Tag::OID, false)?;
        if !is_oid(contents.rest()) {
            return Err(DecodeError::content("malformed object identifier"));
        }
        *self = after;
        Ok(Oid(contents.rest()))
    }

    /// An object identifier (X.690 8.19), whose octets are kept. An allocator copies them, and [Shared](crate::Shared)
    /// shares them; requires that `keep` can keep parts of the rest.
    ///
    /// The errors are those of [Constructed::take_oid]; then `OutOfMemory` if allocation fails.
    pub fn take_oid_bytes<K: Keep>(&mut self, keep: K) -> Result<Oid<Bytes>, DecodeError>
        requires { K.holds keep (left self.old) }
        ensures { Takes (λ o. o.0) (kept any_oid) (left self.old) (left self.new) result }
    {
        let mut after = *self;
        let contents = after.take_contents(Tag::OID, false)?;
        if !is_oid(contents.rest()) {
            return Err(DecodeError::content("malformed object identifier"));
        }
        let bytes = self.keep_part(keep, contents.rest(), &after)?;
        *self = after;
        Ok(Oid(bytes))
    }

    /// Moves past exactly this object identifier. One that is not valid is matched by its octets alone.
    ///
    /// The errors are those of a header; then `Unexpected` for another tag or form; then `Truncated`; then `Content`
    /// for other contents.
    #[inline(always)]
    pub fn skip_oid_if(&mut self, expected: ConstOid) -> Result<(), DecodeError>
        ensures { ReadsLeaf (λ _. tt) oid (IsOnly expected.entry.0.now) (left self.old) (left self.new) result }
    {
        self.take_only_oid(expected.0)
    }

    /// Moves past an object identifier with these contents.
    #[inline(always)]
    fn take_only_oid(&mut self, expected: &[u8]) -> Result<(), DecodeError>
        ensures { ReadsLeaf (λ _. tt) oid (IsOnly expected.now) (left self.old) (left self.new) result }
    {
        let mut after = *self;
        let contents = after.take_contents(Tag::OID, false)?;
        if !contents.rest_is(expected) {
            return Err(DecodeError::content("unexpected object identifier"));
        }
        *self = after;
        Ok(())
    }
}
