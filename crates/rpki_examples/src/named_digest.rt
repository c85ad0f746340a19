//! A structure in place with a part that may be left out, as an entry of a signed checklist has (RFC 9323 4.4).
//!
//! ```text
//! NamedDigest ::= SEQUENCE {
//!     name    IA5String OPTIONAL,
//!     digest  OCTET STRING (SIZE (32)) }
//! ```

ghost use Rattle.std.specs.Prelude.{◌≡◌};
ghost use Rattle.rpki_der.specs.Prelude.{left};
ghost use Rattle.rpki_parse.specs.Words.{parsed};
ghost use Rattle.rpki_examples.specs.NamedDigest.{name_at, named_digest, parts_of};

use rpki::der::{Constructed, DecodeError, Ia5String, Tag};
use rpki_parse::{finish, has_tag, take_ia5, take_octet_array, take_sequence};

/// A digest by SHA-256, and the name of its file, which borrows its octets.
#[derive(Drop)]
pub struct NamedDigest<'a> {
    /// The name, where it is there.
    pub name: Option<Ia5String<'a>>,
    /// The digest.
    pub digest: [u8; 32],
}

/// The name, where the tag of one is in front.
fn take_name<'a>(cons: &mut Constructed<'a>) -> Result<Option<Ia5String<'a>>, DecodeError>
    ensures { parsed (λ name. name) result (left cons.new) ≡ name_at (left cons.old) }
{
    if !has_tag(cons, Tag::IA5_STRING) {
        return Ok(None);
    }
    let name = take_ia5(cons)?;
    Ok(Some(name))
}

impl<'a> NamedDigest<'a> {
    /// Reads a digest with its name: a SEQUENCE of the two, and nothing else. Allocates nothing.
    ///
    /// Returns the error of the first part that could not be read, or `Trailing` if more follows in the SEQUENCE. An
    /// error leaves the cursor where it was.
    pub fn take_from(cons: &mut Constructed<'a>) -> Result<NamedDigest<'a>, DecodeError>
        ensures { parsed parts_of result (left cons.new) ≡ named_digest (left cons.old) }
    {
        let mut after = *cons;
        let mut contents = take_sequence(&mut after)?;
        let name = take_name(&mut contents)?;
        let digest = take_octet_array::<32>(&mut contents)?;
        finish(contents)?;
        *cons = after;
        Ok(NamedDigest { name, digest })
    }
}
