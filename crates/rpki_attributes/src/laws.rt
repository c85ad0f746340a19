//! Laws of the definitions.

ghost use Rattle.rpki_attributes.specs.SignedAttributes.{AttributeValues};
ghost use Rattle.rpki_attributes.specs.EncodedAttributes.{CanWriteAttributes, AreReadBack};

/// Signed attributes that are written are read as what they say, with the message that was signed.
pub fn written_attributes_are_read()
    ensures { (x : AttributeValues) → CanWriteAttributes x → AreReadBack x }
{}
