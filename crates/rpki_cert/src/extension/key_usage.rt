//! What a key may be used for (RFC 5280 4.2.1.3, RFC 6487 4.8.4).

ghost use Rattle.std.specs.Prelude.{IfSome, IfNone};
ghost use Rattle.rpki_der.specs.Cursor.{left};
ghost use Rattle.rpki_der.specs.Reading.{Reads};
ghost use Rattle.rpki_cert.specs.ExtensionContent.{IsUsage, SpellsUsage};
ghost use Rattle.rpki_cert.specs.ExtensionContent.{usage_content};

use rpki::der::{Constructed, DecodeError, Tag};

/// What the subject's key may be used for (RFC 6487 4.8.4).
#[derive(Clone, Copy, Debug, PartialEq, Eq)]
pub enum KeyUsage {
    /// To sign certificates and revocation lists: keyCertSign and cRLSign, of a certification authority.
    Ca,
    /// To sign objects: digitalSignature, of an end entity.
    Ee,
}

/// The use that these contents of a BIT STRING name.
fn usage_of(contents: &[u8]) -> Option<KeyUsage>
    ensures some { IfSome result (λ u. IsUsage u contents.now) }
    ensures none { IfNone result ((u : KeyUsage) → IsUsage u contents.now → ⊥) }
{
    match contents {
        [1, 6] => Some(KeyUsage::Ca),
        [7, 128] => Some(KeyUsage::Ee),
        _ => None,
    }
}

impl KeyUsage {
    /// A use: a BIT STRING of exactly the bits of one of the two. Allocates nothing.
    ///
    /// The errors are those of a header; then `Unexpected` for another tag or form; then `Truncated`; then `Content`
    /// for other bits.
    pub fn take_from(cons: &mut Constructed<'_>) -> Result<KeyUsage, DecodeError>
        ensures { Reads (λ u. u) SpellsUsage usage_content.fault (left cons.old) (left cons.new) result }
    {
        let mut after = *cons;
        let contents = after.take_primitive_if(Tag::BIT_STRING)?;
        match usage_of(contents) {
            Some(usage) => {
                *cons = after;
                Ok(usage)
            }
            None => Err(DecodeError::content("invalid key usage")),
        }
    }
}
