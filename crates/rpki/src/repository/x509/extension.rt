//! Extensions of certificates, written (RFC 5280 4.1).

ghost use Rattle.std.specs.Prelude.{◌≡◌, ◌↔◌};
ghost use Rattle.rpki.specs.Extension.{extension_octets};
ghost use Rattle.rpki.specs.ExtensionValue.{extension_parts, AreShort, IsReadAgain};

use rpki_der::{ConstOid, Primitive, PrimitiveContent, Sequence, Values, Wrapped};

/// An encoder for an extension: its identifier, TRUE where it is critical, and an OCTET STRING around its content.
pub type Extension<V> = Sequence<(Primitive<ConstOid>, Option<Primitive<bool>>, Wrapped<V>)>;

/// An encoder for the extension with this identifier around the content (RFC 5280 4.1). Where it is not critical the
/// BOOLEAN is left out, since FALSE is its default (X.690 11.5).
pub fn encode_extension<V: Values>(oid: ConstOid, critical: bool, content: V) -> Extension<V>
    ensures octets { ⟦<Extension<V> as Values>⟧.encoded result
        ≡ extension_octets oid.entry.0.now critical (V.encoded content) }
    // It fits exactly where the content does and the contents have fewer than 2^32 octets.
    ensures short { ⟦<Extension<V> as Values>⟧.is_short result
        ↔ (V.is_short content × AreShort (extension_parts oid.entry.0.now critical (V.encoded content))) }
    // Where it fits, the encoding with a valid identifier is read as the extension of these parts.
    ensures read_back { IsReadAgain (extension_parts oid.entry.0.now critical (V.encoded content)) }
{
    let critical = if critical { Some(true.encode()) } else { None };
    Sequence::new((oid.encode(), critical, Wrapped::new(content)))
}
