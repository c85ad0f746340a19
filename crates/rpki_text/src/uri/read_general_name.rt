//! URIs read from certificates, as general names (RFC 5280 4.2.1.6).

ghost use Rattle.std.specs.Prelude.{false};
ghost use Rattle.rpki_der.specs.Prelude.{left, context_6, Reads, SpellsLeaf};
ghost use Rattle.rpki_text.specs.GeneralName.{IsRsyncText, IsHttpsText, IsNameFault};

use super::https::Https;
use super::rsync::Rsync;
use rpki_der::{Constructed, DecodeError, Keep, Tag};

impl Rsync {
    /// Reads a general name that is an rsync URI: a primitive value under the context-specific tag 6, whose contents
    /// are its text (RFC 5280 4.2.1.6). An allocator copies the octets, and [Shared](rpki_der::Shared) shares them;
    /// requires that `keep` can keep parts of the rest.
    ///
    /// The errors are those of [Constructed::take_primitive_if]; then `OutOfMemory` if allocation fails; then `Content`
    /// for a text that [Rsync::from_bytes] rejects. An error leaves the cursor where it was.
    pub fn take_general_name<K: Keep>(
        keep: K,
        cons: &mut Constructed<'_>,
    ) -> Result<Rsync, DecodeError>
        requires { K.holds keep (left cons.old) }
        ensures { Reads (λ u. u) (SpellsLeaf context_6 false IsRsyncText) (IsNameFault IsRsyncText) (left cons.old)
            (left cons.new) result }
    {
        let mut after = *cons;
        let bytes = after.take_primitive_bytes_if(keep, Tag::CTX_6)?;
        match Rsync::from_bytes(bytes) {
            Ok(uri) => {
                *cons = after;
                Ok(uri)
            }
            Err(_) => Err(DecodeError::content("malformed rsync URI")),
        }
    }
}

impl Https {
    /// Reads a general name that is an https URI: a primitive value under the context-specific tag 6, whose contents
    /// are its text (RFC 5280 4.2.1.6). An allocator copies the octets, and [Shared](rpki_der::Shared) shares them;
    /// requires that `keep` can keep parts of the rest.
    ///
    /// The errors are those of [Constructed::take_primitive_if]; then `OutOfMemory` if allocation fails; then `Content`
    /// for a text that [Https::from_bytes] rejects. An error leaves the cursor where it was.
    pub fn take_general_name<K: Keep>(
        keep: K,
        cons: &mut Constructed<'_>,
    ) -> Result<Https, DecodeError>
        requires { K.holds keep (left cons.old) }
        ensures { Reads (λ u. u) (SpellsLeaf context_6 false IsHttpsText) (IsNameFault IsHttpsText) (left cons.old)
            (left cons.new) result }
    {
        let mut after = *cons;
        let bytes = after.take_primitive_bytes_if(keep, Tag::CTX_6)?;
        match Https::from_bytes(bytes) {
            Ok(uri) => {
                *cons = after;
                Ok(uri)
            }
            Err(_) => Err(DecodeError::content("malformed https URI")),
        }
    }
}
