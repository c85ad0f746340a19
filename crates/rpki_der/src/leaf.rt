//! Values that have no type of their own: NULL, BOOLEAN and OCTET STRING.

ghost use Rattle.std.specs.Prelude.{false, ◌≡◌, Bool, IfSome, IfNone};
ghost use Rattle.rpki_der.specs.Leaves.{boolean_contents};

use crate::cursor::Constructed;
use crate::error::DecodeError;
use crate::tag::Tag;

/// The truth value of these contents, if they are one octet of equal bits (X.690 8.2.2, 11.1).
fn boolean_of(contents: &[u8]) -> Option<bool>
    ensures value { IfSome result (λ b. contents.now ≡ boolean_contents b) }
    ensures none { IfNone result ((b : Bool) → contents.now ≡ boolean_contents b → ⊥) }
{
    match contents {
        [0xff] => Some(true),
        [0] => Some(false),
        _ => None,
    }
}

impl<'a> Constructed<'a> {
    ghost use Rattle.rpki_der.specs.Cursor.{left};
    ghost use Rattle.rpki_der.specs.TagName.{null, boolean, octet_string};
    ghost use Rattle.rpki_der.specs.Reading.{Reads, ReadsWhere};
    ghost use Rattle.rpki_der.specs.Values.{SpellsContents, HasTag, IsContentsFault, ReadsLeaf, ReadsLeafWhere};
    ghost use Rattle.rpki_der.specs.Leaves.{IsNull, IsBoolean, IsSized};
    ghost use Rattle.rpki_der.specs.DefaultFalse.{SpellsTrue, IsTrueFault, written};

    /// A NULL (X.690 8.8).
    ///
    /// The errors are those of a header; then `Unexpected` for another tag or form; then `Truncated`; then `Content`
    /// for contents that are not empty.
    #[inline(always)]
    pub fn take_null(&mut self) -> Result<(), DecodeError>
        ensures { ReadsLeaf (λ _. tt) null IsNull (left self.old) (left self.new) result }
    {
        let mut after = *self;
        let contents = after.take_contents(Tag::NULL, false)?;
        if !contents.is_empty() {
            return Err(DecodeError::content("malformed NULL"));
        }
        *self = after;
        Ok(())
    }

    /// As [Constructed::take_null] where the rest begins with the identifier octets of a NULL, in either form; else
    /// None.
    #[inline(always)]
    pub fn take_opt_null(&mut self) -> Result<Option<()>, DecodeError>
        ensures { ReadsLeafWhere (λ _. tt) null IsNull (left self.old) (left self.new) result }
    {
        if !self.has_tag(Tag::NULL) {
            return Ok(None);
        }
        self.take_null()?;
        Ok(Some(()))
    }

    /// A BOOLEAN (X.690 8.2, 11.1): one octet, FF for true and 00 for false.
    ///
    /// The errors are those of a header; then `Unexpected` for another tag or form; then `Truncated`; then `Content`
    /// for other contents.
    #[inline(always)]
    pub fn take_bool(&mut self) -> Result<bool, DecodeError>
        ensures { ReadsLeaf (λ b. b) boolean IsBoolean (left self.old) (left self.new) result }
    {
        let mut after = *self;
        let contents = after.take_contents(Tag::BOOLEAN, false)?;
        match boolean_of(contents.rest()) {
            Some(value) => {
                *self = after;
                Ok(value)
            }
            None => Err(DecodeError::content("malformed BOOLEAN")),
        }
    }

    /// As [Constructed::take_bool] where the rest begins with the identifier octets of a BOOLEAN, in either form;
    /// else None.
    #[inline(always)]
    pub fn take_opt_bool(&mut self) -> Result<Option<bool>, DecodeError>
        ensures { ReadsLeafWhere (λ b. b) boolean IsBoolean (left self.old) (left self.new) result }
    {
        if !self.has_tag(Tag::BOOLEAN) {
            return Ok(None);
        }
        let value = self.take_bool()?;
        Ok(Some(value))
    }

    /// A BOOLEAN DEFAULT FALSE (X.690 11.5: the default value is never written): true where the rest begins with
    /// the identifier octets of a BOOLEAN, in either form, and the value is TRUE; false where it doesn't begin so, and
    /// then nothing is read.
    ///
    /// The errors are those of [Constructed::take_bool]; `Content` also for a FALSE that is written.
    pub fn take_bool_default_false(&mut self) -> Result<bool, DecodeError>
        ensures { ReadsWhere (HasTag boolean) (λ _. tt) SpellsTrue IsTrueFault (left self.old) (left self.new)
            (written result) }
    {
        if !self.has_tag(Tag::BOOLEAN) {
            return Ok(false);
        }
        let mut after = *self;
        let contents = after.take_contents(Tag::BOOLEAN, false)?;
        if !contents.rest_is(&[0xff]) {
            return Err(DecodeError::content("malformed BOOLEAN DEFAULT FALSE"));
        }
        *self = after;
        Ok(true)
    }

    /// The octets of an OCTET STRING (X.690 8.7) of exactly `N` octets, as a digest or a key identifier.
    ///
    /// The errors are those of [Constructed::take_octets]; then `Content` for another number of octets.
    pub fn take_octet_array<const N: usize>(&mut self) -> Result<[u8; N], DecodeError>
        ensures { ReadsLeaf (λ a. a) octet_string (IsSized N) (left self.old) (left self.new) result }
    {
        let mut after = *self;
        let contents = after.take_contents(Tag::OCTET_STRING, false)?;
        match <[u8; N]>::try_from(contents.rest()) {
            Ok(octets) => {
                *self = after;
                Ok(octets)
            }
            Err(_) => Err(DecodeError::content("OCTET STRING of another size")),
        }
    }

    /// The octets of an OCTET STRING (X.690 8.7) in primitive form.
    ///
    /// The errors are those of a header; then `Unexpected` for another tag or form; then `Truncated`.
    #[inline(always)]
    pub fn take_octets(&mut self) -> Result<&'a [u8], DecodeError>
        ensures { Reads (λ x. x.now) (SpellsContents octet_string false) (IsContentsFault octet_string false)
            (left self.old) (left self.new) result }
    {
        let contents = self.take_contents(Tag::OCTET_STRING, false)?;
        Ok(contents.rest())
    }
}
